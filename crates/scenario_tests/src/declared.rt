//! Streams whose columns were declared, in whatever form.

ghost use Rattle.std.specs.Prelude.{◌≡◌, IfOk};
ghost use Rattle.values.specs.Rose.{none, node};
ghost use Rattle.stream_writer.specs.Sample.{text_fields};

use crate::checks::push;
use feed::{Feed, FeedEvent};
use std::alloc::{AllocError, Global};
use std::process::Abort;
use std::test::Fail;
use stream_writer::{MemorySink, WriteFault, write_table};
use values::{ColType, LogicalField, OffsetWidth, Schema, StreamFault};

/// A column of texts.
fn texts(alloc: Global, name: &str, offsets: OffsetWidth) -> Result<LogicalField, AllocError>
    ensures { IfOk result (λ n. n ≡ node (record { name = name.now; col_type = ColType.Utf8 offsets }) none) }
{
    Ok(LogicalField {
        name: String::from_str(alloc, name)?,
        col_type: ColType::Utf8 { offsets },
        children: Vec::new(alloc),
    })
}

/// The column `t` of texts and the column `l` of lists of texts, in different stored forms.
pub fn schema(alloc: Global, offsets: OffsetWidth, items: &str) -> Result<Schema, AllocError>
    ensures { IfOk result (λ s. s.fields.items ≡ text_fields) }
{
    let mut children = Vec::new(alloc);
    children.push(texts(alloc, items, offsets)?)?;
    let mut fields = Vec::new(alloc);
    fields.push(texts(alloc, "t", offsets)?)?;
    fields.push(LogicalField {
        name: String::from_str(alloc, "l")?,
        col_type: ColType::List { offsets },
        children,
    })?;
    Schema::new(alloc, fields)
}

/// Writes the columns without rows.
#[tactic(auto, using(crate::proofs::Stored::is_text_table))]
fn write_columns(alloc: Global, sink: &mut MemorySink, schema: &Schema) -> Result<u64, WriteFault>
    requires { schema.now.fields.items ≡ text_fields }
{
    write_table(alloc, sink, schema, &[])
}

/// Whether a feed accepts these bytes as the schema that was declared for it.
fn takes(rt: &impl Abort, feed: &mut Feed, bytes: &[u8]) -> Result<bool, StreamFault> {
    let fed = push(rt, feed, bytes)?;
    Ok(matches!(fed.event, Some(FeedEvent::Schema(_))))
}

/// Columns of one meaning have one stream.
#[test]
fn writes_one_stream(rt: HostRuntime) -> Result<(), Fail> {
    let alloc = rt.alloc();
    let mut small = MemorySink::new(alloc);
    let columns = schema(alloc, OffsetWidth::Bits32, "item")?;
    assert!(rt; write_columns(alloc, &mut small, &columns).is_ok());
    let mut large = MemorySink::new(alloc);
    let columns = schema(alloc, OffsetWidth::Bits64, "element")?;
    assert!(rt; write_columns(alloc, &mut large, &columns).is_ok());
    assert_eq!(rt; small.bytes(), large.bytes());
    Ok(())
}

/// Columns that are declared in any form are those of their stream.
#[test]
fn takes_its_own_stream(rt: HostRuntime) -> Result<(), Fail> {
    let alloc = rt.alloc();
    let mut sink = MemorySink::new(alloc);
    let columns = schema(alloc, OffsetWidth::Bits64, "element")?;
    assert!(rt; write_columns(alloc, &mut sink, &columns).is_ok());
    let mut feed = Feed::open(alloc, Some(columns));
    assert_eq!(rt; takes(&rt, &mut feed, sink.bytes()), Ok(true));
    Ok(())
}
