//! The table of the stored stream, built cell by cell.

ghost use Rattle.std.specs.Prelude.{◌≡◌, IfOk, true, [], ◌∷◌, map};
ghost use Rattle.values.specs.Kinds.{datum_of};
ghost use Rattle.values.specs.Rose.{none, node};
ghost use Rattle.stream_writer.specs.Sample.{sample_fields, sample_rows};

use std::alloc::{AllocError, Global};
use values::{ColType, IntWidth, Kind, LogicalField, Row, Schema, Value};

/// A column of 64 bits with a sign.
fn int64(alloc: Global, name: &str) -> Result<LogicalField, AllocError>
    ensures { IfOk result
        (λ n. n ≡ node (record { name = name.now; col_type = ColType.Int IntWidth.Bits64 true }) none) }
{
    let name = String::from_str(alloc, name)?;
    let width = IntWidth::Bits64;
    let col_type = ColType::Int {
        width,
        signed: true,
    };
    Ok(LogicalField {
        name,
        col_type,
        children: Vec::new(alloc),
    })
}

/// The columns `k` and `v`.
pub fn schema(alloc: Global) -> Result<Schema, AllocError>
    ensures { IfOk result (λ s. s.fields.items ≡ sample_fields) }
{
    let mut fields = Vec::new(alloc);
    fields.push(int64(alloc, "k")?)?;
    fields.push(int64(alloc, "v")?)?;
    Schema::new(alloc, fields)
}

fn row(alloc: Global, key: Kind, value: Kind) -> Result<Row, AllocError>
    ensures { IfOk result (λ r. r.items ≡ datum_of key ∷ datum_of value ∷ []) }
{
    let mut row = Vec::with_capacity(alloc, 2)?;
    row.push(Value { kind: key })?;
    row.push(Value { kind: value })?;
    Ok(row)
}

/// (1, 10), (2, null) and (3, 30).
pub fn rows(alloc: Global) -> Result<Vec<Row>, AllocError>
    ensures { IfOk result (λ found. map (λ row. row.items) found.items ≡ sample_rows) }
{
    let mut rows = Vec::new(alloc);
    rows.push(row(alloc, Kind::Int(1), Kind::Int(10))?)?;
    rows.push(row(alloc, Kind::Int(2), Kind::Null)?)?;
    rows.push(row(alloc, Kind::Int(3), Kind::Int(30))?)?;
    Ok(rows)
}
