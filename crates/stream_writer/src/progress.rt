//! Writes a table of which later rows may still come.

ghost use Rattle.std.specs.Prelude.{◌≡◌, ◌+◌, ◌^◌, ◌<◌, ◌≤◌, ◌==◌, ◌||◌, List, IfOk, IfSome, length, nat_lt};
ghost use Rattle.values.specs.Datum.{Datum};
ghost use Rattle.values.specs.Limits.{max_batch_rows};
ghost use Rattle.values.specs.Logical.{NamedType};
ghost use Rattle.values.specs.Rose.{Rose};
ghost use Rattle.schema_meta.specs.SchemaTree.{AreColumns};
ghost use Rattle.stream_writer.specs.Progress.{IsHeld, IsSchemaMessage, PutsFirst, PutsRest, PutsSchema, StayHeld};
ghost use Rattle.stream_writer.specs.WrittenSoFar.{PutsNext};

use crate::faults::WriteFault;
use crate::messages;
use crate::rows::RowSource;
use crate::sink::{Sink, put_all};
use std::alloc::Global;
use values::limits::MAX_BATCH_ROWS;
use values::{LayoutTree, Schema};

/// The end mark: the continuation mark, and a metadata size of 0.
const END_MARK: [u8; 8] = [255, 255, 255, 255, 0, 0, 0, 0];

/// How far a writer has come: this many bytes were put, and the last `left` rows that were given to it are in none of
/// them.
#[derive(Clone, Copy)]
pub(crate) struct Progress {
    pub written: u64,
    pub left: usize,
}

/// Puts bytes after the first `written` ones of a stream.
pub(crate) fn put_after<S: Sink>(
    sink: &mut S,
    bytes: &[u8],
    written: u64,
) -> Result<u64, WriteFault>
    requires { written + length bytes.now < 2 ^ 64 }
    ensures counted { IfOk result (λ n. n ≡ written + length bytes.now) }
    ensures goes { PutsNext (S.sunk sink.old) (S.sunk sink.new) written bytes.now result }
{
    match put_all(sink, bytes) {
        Ok(more) => Ok(written + more),
        Err(fault) => Err(fault.after(written)),
    }
}

/// Puts the Schema message of a table without rows so far, which may have been encoded before, and returns how many
/// bytes it has.
pub(crate) fn put_schema<S: Sink>(
    alloc: Global,
    sink: &mut S,
    schema: &Schema,
    coded: &[usize],
    message: Option<&[u8]>,
) -> Result<u64, WriteFault>
    requires columns { AreColumns schema.now.fields.items }
    requires message { IfSome message (λ m. IsSchemaMessage m.now coded.now schema.now.fields.items) }
    ensures size { IfOk result (λ n. n ≤ 2 ^ 39) }
    ensures goes { PutsSchema (S.sunk sink.old) (S.sunk sink.new) schema.now.fields.items coded.now result }
{
    if let Some(message) = message {
        return put_after(sink, message, 0);
    }
    let encoded = messages::schema_message(alloc, schema, coded)?;
    put_after(sink, &encoded, 0)
}

/// Whether the next batch, which has `count` of the `rows` remaining rows, stays as it is when more come.
fn is_closed(count: usize, rows: usize) -> bool
    ensures { result ≡ ((count == max_batch_rows) || nat_lt count rows) }
{
    count == MAX_BATCH_ROWS || count < rows
}

/// Puts those batches of the rows that stay as they are when more rows come, after the first `written` bytes of a
/// stream. Fewer rows than a batch may have remain then.
///
/// On an error the sink took a prefix of the canonical stream of each table that begins with the rows so far.
pub(crate) fn put_closed<S: Sink, R: RowSource + Drop>(
    alloc: Global,
    sink: &mut S,
    layouts: &[LayoutTree],
    rows: R,
    written: u64,
) -> Result<Progress, WriteFault>
    requires held { (fs : List (Rose NamedType)) × (all : List (List Datum))
        × IsHeld fs layouts.now all (R.rows rows) written }
    requires fits { R.fits rows layouts.now }
    ensures few { IfOk result (λ p. p.left < max_batch_rows) }
    ensures within { IfOk result (λ p. p.left ≤ length (R.rows rows)) }
    ensures held { IfOk result (StayHeld layouts.now (R.rows rows) written) }
    ensures goes { PutsFirst (S.sunk sink.old) (S.sunk sink.new) layouts.now (R.coded rows) (R.rows rows) written
        result }
{
    let mut written = written;
    let mut room = 0;
    let mut left = rows;
    let mut count = left.len_of_batch(layouts);
    while is_closed(count, left.len()) {
        let Ok(message) = left.encode_batch(alloc, layouts, count, room) else {
            return Err(WriteFault::Memory { written });
        };
        written = message.put_after(sink, written)?;
        room = message.room();
        left.skip(count);
        count = left.len_of_batch(layouts);
    }
    Ok(Progress {
        written,
        left: left.len(),
    })
}

/// Puts the batches of all remaining rows, and the end mark, after the first `written` bytes of a stream. Returns the
/// length of the stream.
pub(crate) fn put_rest<S: Sink, R: RowSource + Drop>(
    alloc: Global,
    sink: &mut S,
    layouts: &[LayoutTree],
    rows: R,
    written: u64,
) -> Result<u64, WriteFault>
    requires held { (fs : List (Rose NamedType)) × (all : List (List Datum))
        × IsHeld fs layouts.now all (R.rows rows) written }
    requires fits { R.fits rows layouts.now }
    ensures { PutsRest (S.sunk sink.old) (S.sunk sink.new) layouts.now (R.coded rows) (R.rows rows) written result }
{
    let mut written = written;
    let mut room = 0;
    let mut left = rows;
    while !left.is_empty() {
        let count = left.len_of_batch(layouts);
        let Ok(message) = left.encode_batch(alloc, layouts, count, room) else {
            return Err(WriteFault::Memory { written });
        };
        written = message.put_after(sink, written)?;
        room = message.room();
        left.skip(count);
    }
    put_after(sink, &END_MARK, written)
}
