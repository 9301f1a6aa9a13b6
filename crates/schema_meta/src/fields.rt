//! Reads fields: Schema.fbs, table `Field`.
ghost use Rattle.std.specs.Prelude.{◌<◌};
ghost use Rattle.values.specs.Reading.{Answers, Yields};
ghost use Rattle.schema_meta.specs.Fields.{checked_name, children_of, entry_by, field_of, forest, name_of};

use crate::encoding::read_field_encoding;
use crate::field::Field;
use field_types::schema_fbs::{FIELD_CHILDREN, FIELD_NAME, FIELD_NULLABLE};
use field_types::{TypeKind, may_have, read_bool, read_kind, read_type, readable};
use flatbuf::{TableRef, VectorRef};
use std::alloc::Global;
use values::StreamFault;
use values::limits::MAX_NAME_LEN;

/// Reads the fields of a vector, of at most `depth` levels.
#[cycle(fields)]
#[tactic(auto, using(crate::proofs::Forests::forests))]
pub(crate) fn read_fields(
    alloc: Global,
    vector: &VectorRef,
    depth: u8,
) -> Result<Vec<Field>, StreamFault>
    ensures { Answers (λ fs. fs.items) result (forest depth vector.now) }
{
    let mut fields = Vec::new(alloc);
    if depth == 0 {
        if !vector.is_empty() {
            return Err(StreamFault::TooManyFields);
        }
        return Ok(fields);
    }
    for index in 0..vector.len() {
        fields.push(read_entry(alloc, vector, index, depth - 1)?)?;
    }
    Ok(fields)
}

/// Reads field `index` of a vector, with at most `depth` levels of fields below it.
#[cycle(fields)]
#[tactic(auto, using(crate::proofs::Faults::faults), unfolding(crate::specs::Fields::entry_by))]
fn read_entry(
    alloc: Global,
    vector: &VectorRef,
    index: usize,
    depth: u8,
) -> Result<Field, StreamFault>
    requires { index < vector.now.count }
    ensures { Answers (λ f. f) result (entry_by (forest depth) vector.now index) }
{
    let table = readable(vector.table(index))?;
    read_field(alloc, &table, depth)
}

#[cycle(fields)]
#[tactic(auto, using(crate::proofs::Faults::faults), unfolding(crate::specs::Fields::field_of, crate::specs::Fields::label_of, crate::specs::Fields::content_of))]
fn read_field(alloc: Global, table: &TableRef, depth: u8) -> Result<Field, StreamFault>
    ensures { Answers (λ f. f) result (field_of (forest depth) table.now) }
{
    let name = read_name(table)?;
    let nullable = read_bool(table, FIELD_NULLABLE)?;
    let kind = read_kind(table)?;
    let stored = read_type(alloc, kind, table)?;
    let encoding = read_field_encoding(kind, table)?;
    let children = read_children(alloc, kind, table, depth)?;
    Ok(Field {
        name: String::from_str(alloc, name)?,
        nullable,
        stored,
        encoding,
        children,
    })
}

#[cycle(fields)]
#[tactic(auto, using(crate::proofs::Faults::faults), unfolding(crate::specs::Fields::children_of))]
fn read_children(
    alloc: Global,
    kind: TypeKind,
    table: &TableRef,
    depth: u8,
) -> Result<Vec<Field>, StreamFault>
    ensures { Answers (λ fs. fs.items) result (children_of (forest depth) kind table.now) }
{
    let children = readable(table.vector(FIELD_CHILDREN))?;
    let count = children.as_ref().map_or(0, |vector| vector.len());
    if !may_have(kind, count) {
        return Err(StreamFault::BadType);
    }
    match children {
        None => Ok(Vec::new(alloc)),
        Some(vector) => read_fields(alloc, &vector, depth),
    }
}

/// A field's name, borrowed from the buffer; empty where it is absent.
fn read_name<'a>(table: &TableRef<'a>) -> Result<&'a str, StreamFault>
    ensures { Yields (λ name. name.now) result (name_of table.now) }
{
    match readable(table.text(FIELD_NAME))? {
        None => Ok(""),
        Some(bytes) => check_name(bytes),
    }
}

#[tactic(auto, using(crate::proofs::Names::texts))]
fn check_name(bytes: &[u8]) -> Result<&str, StreamFault>
    ensures { Yields (λ name. name.now) result (checked_name bytes.now) }
{
    if bytes.len() > MAX_NAME_LEN {
        return Err(StreamFault::BadName);
    }
    match simdutf8::basic::from_utf8(bytes) {
        Ok(name) => Ok(name),
        Err(_) => Err(StreamFault::BadName),
    }
}
