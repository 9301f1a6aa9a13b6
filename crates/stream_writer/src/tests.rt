//! Sinks that fail, and a stream that is known from outside.

ghost use Rattle.std.specs.Prelude.{◌≡◌, ◌∷◌, [], IfOk, map, true};
ghost use Rattle.values.specs.Rose.{node, none};
ghost use Rattle.values.specs.Kinds.{datum_of};
ghost use Rattle.stream_writer.specs.Sample as sample;

use crate::{MemorySink, WriteFault, write_table};
use std::alloc::{AllocError, Global};
use std::test::Fail;
use values::{ColType, IntWidth, Kind, LogicalField, Row, Schema, Value};

fn column(alloc: Global, name: &str) -> Result<LogicalField, AllocError>
    ensures { IfOk result (λ field.
        field ≡ node (record { name = name.now; col_type = ColType.Int IntWidth.Bits64 true }) none) }
{
    Ok(LogicalField {
        name: String::from_str(alloc, name)?,
        col_type: ColType::Int {
            width: IntWidth::Bits64,
            signed: true,
        },
        children: Vec::new(alloc),
    })
}

fn sample_schema(alloc: Global) -> Result<Schema, AllocError>
    ensures { IfOk result (λ schema. schema.fields.items ≡ sample.sample_fields) }
{
    let mut fields = Vec::new(alloc);
    fields.push(column(alloc, "k")?)?;
    fields.push(column(alloc, "v")?)?;
    Schema::new(alloc, fields)
}

fn row(alloc: Global, first: Kind, second: Kind) -> Result<Row, AllocError>
    ensures { IfOk result (λ row. row.items ≡ datum_of first ∷ datum_of second ∷ []) }
{
    let mut row = Vec::new(alloc);
    row.push(Value { kind: first })?;
    row.push(Value { kind: second })?;
    Ok(row)
}

fn sample_rows(alloc: Global) -> Result<Vec<Row>, AllocError>
    ensures { IfOk result (λ rows. map (λ row. row.items) rows.items ≡ sample.sample_rows) }
{
    let mut rows = Vec::new(alloc);
    rows.push(row(alloc, Kind::Int(1), Kind::Int(10))?)?;
    rows.push(row(alloc, Kind::Int(2), Kind::Null)?)?;
    rows.push(row(alloc, Kind::Int(3), Kind::Int(30))?)?;
    Ok(rows)
}

#[tactic(auto, using(crate::proofs::Sample::sample))]
fn write_sample(
    alloc: Global,
    sink: &mut MemorySink,
) -> Result<Result<u64, WriteFault>, AllocError> {
    let schema = sample_schema(alloc)?;
    let rows = sample_rows(alloc)?;
    Ok(write_table(alloc, sink, &schema, &rows))
}

#[test]
fn writes_the_known_bytes(rt: HostRuntime) -> Result<(), Fail> {
    let mut sink = MemorySink::new(rt.alloc());
    assert_eq!(rt; write_sample(rt.alloc(), &mut sink)?, Ok(504));
    assert_eq!(rt; sink.bytes(), SAMPLE.as_slice());
    Ok(())
}

#[test]
fn takes_seven_bytes_a_put(rt: HostRuntime) -> Result<(), Fail> {
    let mut sink = MemorySink::with_limit(rt.alloc(), 7, u64::MAX);
    assert_eq!(rt; write_sample(rt.alloc(), &mut sink)?, Ok(504));
    assert_eq!(rt; sink.bytes(), SAMPLE.as_slice());
    Ok(())
}

#[test]
fn answers_zero(rt: HostRuntime) -> Result<(), Fail> {
    let mut sink = MemorySink::with_limit(rt.alloc(), 0, u64::MAX);
    assert_eq!(rt;
        write_sample(rt.alloc(), &mut sink)?,
        Err(WriteFault::Device { written: 0 })
    );
    assert!(rt; sink.bytes().is_empty());
    Ok(())
}

/// One byte a put: after n puts the sink holds the first n bytes.
#[test]
fn fails_at_each_put(rt: HostRuntime) -> Result<(), Fail> {
    for puts in 0..504 {
        let mut sink = MemorySink::with_limit(rt.alloc(), 1, puts as u64);
        let written = puts as u64;
        assert_eq!(rt;
            write_sample(rt.alloc(), &mut sink)?,
            Err(WriteFault::Device { written })
        );
        assert_eq!(rt; sink.bytes(), &SAMPLE[..puts]);
    }
    Ok(())
}

/// The stream of the columns `k` and `v` with the rows (1, 10), (2, null), (3, 30).
const SAMPLE: [u8; 504] = [
    255, 255, 255, 255, 224, 0, 0, 0, 24, 0, 0, 0, 0, 0, 0, 0, 12, 0, 24, 0, 4, 0, 6, 0, 8, 0, 16,
    0, 0, 0, 0, 0, 16, 0, 0, 0, 4, 0, 1, 0, 24, 0, 0, 0, 0, 0, 0, 0, 0, 0, 0, 0, 0, 0, 0, 0, 8, 0,
    12, 0, 4, 0, 8, 0, 8, 0, 0, 0, 0, 0, 0, 0, 4, 0, 0, 0, 2, 0, 0, 0, 24, 0, 0, 0, 92, 0, 0, 0,
    16, 0, 20, 0, 4, 0, 8, 0, 9, 0, 12, 0, 0, 0, 16, 0, 16, 0, 0, 0, 16, 0, 0, 0, 1, 2, 0, 0, 28,
    0, 0, 0, 36, 0, 0, 0, 1, 0, 0, 0, 107, 0, 0, 0, 0, 0, 0, 0, 8, 0, 12, 0, 4, 0, 8, 0, 8, 0, 0,
    0, 64, 0, 0, 0, 1, 0, 0, 0, 0, 0, 0, 0, 16, 0, 20, 0, 4, 0, 8, 0, 9, 0, 12, 0, 0, 0, 16, 0, 16,
    0, 0, 0, 16, 0, 0, 0, 1, 2, 0, 0, 28, 0, 0, 0, 36, 0, 0, 0, 1, 0, 0, 0, 118, 0, 0, 0, 0, 0, 0,
    0, 8, 0, 12, 0, 4, 0, 8, 0, 8, 0, 0, 0, 64, 0, 0, 0, 1, 0, 0, 0, 0, 0, 0, 0, 255, 255, 255,
    255, 200, 0, 0, 0, 24, 0, 0, 0, 0, 0, 0, 0, 12, 0, 24, 0, 4, 0, 6, 0, 8, 0, 16, 0, 0, 0, 0, 0,
    16, 0, 0, 0, 4, 0, 3, 0, 32, 0, 0, 0, 0, 0, 0, 0, 56, 0, 0, 0, 0, 0, 0, 0, 10, 0, 24, 0, 8, 0,
    16, 0, 20, 0, 0, 0, 0, 0, 0, 0, 16, 0, 0, 0, 0, 0, 0, 0, 3, 0, 0, 0, 0, 0, 0, 0, 12, 0, 0, 0,
    48, 0, 0, 0, 0, 0, 0, 0, 2, 0, 0, 0, 3, 0, 0, 0, 0, 0, 0, 0, 0, 0, 0, 0, 0, 0, 0, 0, 3, 0, 0,
    0, 0, 0, 0, 0, 1, 0, 0, 0, 0, 0, 0, 0, 0, 0, 0, 0, 4, 0, 0, 0, 0, 0, 0, 0, 0, 0, 0, 0, 0, 0, 0,
    0, 0, 0, 0, 0, 0, 0, 0, 0, 0, 0, 0, 0, 24, 0, 0, 0, 0, 0, 0, 0, 24, 0, 0, 0, 0, 0, 0, 0, 1, 0,
    0, 0, 0, 0, 0, 0, 32, 0, 0, 0, 0, 0, 0, 0, 24, 0, 0, 0, 0, 0, 0, 0, 1, 0, 0, 0, 0, 0, 0, 0, 2,
    0, 0, 0, 0, 0, 0, 0, 3, 0, 0, 0, 0, 0, 0, 0, 5, 0, 0, 0, 0, 0, 0, 0, 10, 0, 0, 0, 0, 0, 0, 0,
    0, 0, 0, 0, 0, 0, 0, 0, 30, 0, 0, 0, 0, 0, 0, 0, 255, 255, 255, 255, 0, 0, 0, 0,
];
