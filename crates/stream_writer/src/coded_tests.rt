//! A stream with a dictionary that is known from outside, and sinks that fail while it is written.

ghost use Rattle.std.specs.Prelude.{◌≡◌, ◌∷◌, [], IfOk, map};
ghost use Rattle.values.specs.Rose.{node, none};
ghost use Rattle.values.specs.Datum.{text};
ghost use Rattle.values.specs.Kinds.{datum_of};
ghost use Rattle.stream_writer.specs.Sample as sample;

use crate::{DeviceFault, EncodedSchema, MemorySink, Sink, WriteFault, write_coded};
use std::alloc::{AllocError, Global};
use std::test::Fail;
use values::{ColType, Kind, LogicalField, OffsetWidth, Row, Schema, Value};

fn schema(alloc: Global) -> Result<Schema, AllocError>
    ensures { IfOk result (λ schema. schema.fields.items ≡ sample.coded_sample_fields) }
{
    let mut fields = Vec::new(alloc);
    fields.push(LogicalField {
        name: String::from_str(alloc, "c")?,
        col_type: ColType::Utf8 {
            offsets: OffsetWidth::Bits32,
        },
        children: Vec::new(alloc),
    })?;
    Schema::new(alloc, fields)
}

fn row(alloc: Global, kind: Kind) -> Result<Row, AllocError>
    ensures { IfOk result (λ row. row.items ≡ datum_of kind ∷ []) }
{
    let mut row = Vec::new(alloc);
    row.push(Value { kind })?;
    Ok(row)
}

fn text_kind(alloc: Global, value: &str) -> Result<Kind, AllocError>
    ensures { IfOk result (λ kind. datum_of kind ≡ text value.now) }
{
    Ok(Kind::Utf8(String::from_str(alloc, value)?))
}

fn rows(alloc: Global) -> Result<Vec<Row>, AllocError>
    ensures { IfOk result (λ rows. map (λ row. row.items) rows.items ≡ sample.coded_sample_rows) }
{
    let mut rows = Vec::new(alloc);
    rows.push(row(alloc, text_kind(alloc, "b")?)?)?;
    rows.push(row(alloc, Kind::Null)?)?;
    rows.push(row(alloc, text_kind(alloc, "b")?)?)?;
    rows.push(row(alloc, text_kind(alloc, "a")?)?)?;
    Ok(rows)
}

#[tactic(auto, using(crate::proofs::Sample::sample))]
fn write_sample<S: Sink>(
    alloc: Global,
    sink: &mut S,
) -> Result<Result<u64, WriteFault>, AllocError> {
    let schema = EncodedSchema::new(alloc, schema(alloc)?, &[0])?;
    let rows = rows(alloc)?;
    Ok(write_coded(alloc, sink, &schema, &[0], &rows))
}

#[test]
fn writes_the_known_bytes(rt: HostRuntime) -> Result<(), Fail> {
    let mut sink = MemorySink::new(rt.alloc());
    assert_eq!(rt; write_sample(rt.alloc(), &mut sink)?, Ok(656));
    assert_eq!(rt; sink.bytes(), SAMPLE.as_slice());
    Ok(())
}

/// A sink that takes one byte a put, and returns 0 after `puts` puts.
#[derive(Drop)]
struct Dwindling {
    bytes: Vec<u8>,
    puts: u64,
    failed: u64,
}

impl Sink for Dwindling {
    ghost use Rattle.stream_writer.specs.Sinks.{sunk_of};

    ghost sunk = { λ s. sunk_of s.bytes.items s.failed };

    fn put(&mut self, piece: &[u8]) -> Result<usize, DeviceFault> {
        let failed = self.failed;
        if piece.is_empty() {
            return Ok(0);
        }
        if self.puts == 0 {
            self.failed = failed.wrapping_add(1);
            return Ok(0);
        }
        if self.bytes.extend_from_slice(&piece[..1]).is_err() {
            self.failed = failed.wrapping_add(1);
            return Err(DeviceFault);
        }
        self.puts -= 1;
        Ok(1)
    }
}

/// One byte a put: a sink that fails after n puts, and one that returns 0 there, hold the first n bytes.
#[test]
fn fails_at_each_put(rt: HostRuntime) -> Result<(), Fail> {
    for puts in 0..656 {
        let written = puts as u64;
        let mut failing = MemorySink::with_limit(rt.alloc(), 1, written);
        assert_eq!(rt;
            write_sample(rt.alloc(), &mut failing)?,
            Err(WriteFault::Device { written })
        );
        assert_eq!(rt; failing.bytes(), &SAMPLE[..puts]);
        let mut dwindling = Dwindling {
            bytes: Vec::new(rt.alloc()),
            puts: written,
            failed: 0,
        };
        assert_eq!(rt;
            write_sample(rt.alloc(), &mut dwindling)?,
            Err(WriteFault::Device { written })
        );
        assert_eq!(rt; dwindling.bytes.as_slice(), &SAMPLE[..puts]);
    }
    Ok(())
}

/// The stream of the column `c` with the rows b, null, b, a.
const SAMPLE: [u8; 656] = [
    255, 255, 255, 255, 216, 0, 0, 0, 24, 0, 0, 0, 0, 0, 0, 0, 12, 0, 24, 0, 4, 0, 6, 0, 8, 0, 16,
    0, 0, 0, 0, 0, 16, 0, 0, 0, 4, 0, 1, 0, 24, 0, 0, 0, 0, 0, 0, 0, 0, 0, 0, 0, 0, 0, 0, 0, 8, 0,
    12, 0, 4, 0, 8, 0, 8, 0, 0, 0, 0, 0, 0, 0, 4, 0, 0, 0, 1, 0, 0, 0, 24, 0, 0, 0, 0, 0, 0, 0, 16,
    0, 24, 0, 4, 0, 8, 0, 9, 0, 12, 0, 16, 0, 20, 0, 16, 0, 0, 0, 24, 0, 0, 0, 1, 5, 0, 0, 36, 0,
    0, 0, 56, 0, 0, 0, 96, 0, 0, 0, 0, 0, 0, 0, 1, 0, 0, 0, 99, 0, 0, 0, 0, 0, 0, 0, 4, 0, 4, 0, 0,
    0, 0, 0, 8, 0, 0, 0, 0, 0, 0, 0, 12, 0, 24, 0, 8, 0, 16, 0, 20, 0, 22, 0, 0, 0, 0, 0, 16, 0, 0,
    0, 0, 0, 0, 0, 0, 0, 0, 0, 0, 0, 0, 0, 16, 0, 0, 0, 0, 0, 0, 0, 8, 0, 12, 0, 4, 0, 8, 0, 8, 0,
    0, 0, 32, 0, 0, 0, 1, 0, 0, 0, 0, 0, 0, 0, 255, 255, 255, 255, 208, 0, 0, 0, 24, 0, 0, 0, 0, 0,
    0, 0, 12, 0, 24, 0, 4, 0, 6, 0, 8, 0, 16, 0, 0, 0, 0, 0, 16, 0, 0, 0, 4, 0, 2, 0, 32, 0, 0, 0,
    0, 0, 0, 0, 24, 0, 0, 0, 0, 0, 0, 0, 10, 0, 24, 0, 8, 0, 16, 0, 20, 0, 0, 0, 0, 0, 0, 0, 16, 0,
    0, 0, 0, 0, 0, 0, 0, 0, 0, 0, 0, 0, 0, 0, 24, 0, 0, 0, 0, 0, 0, 0, 10, 0, 24, 0, 8, 0, 16, 0,
    20, 0, 0, 0, 0, 0, 0, 0, 16, 0, 0, 0, 0, 0, 0, 0, 2, 0, 0, 0, 0, 0, 0, 0, 12, 0, 0, 0, 32, 0,
    0, 0, 0, 0, 0, 0, 1, 0, 0, 0, 2, 0, 0, 0, 0, 0, 0, 0, 0, 0, 0, 0, 0, 0, 0, 0, 0, 0, 0, 0, 3, 0,
    0, 0, 0, 0, 0, 0, 0, 0, 0, 0, 0, 0, 0, 0, 0, 0, 0, 0, 0, 0, 0, 0, 0, 0, 0, 0, 12, 0, 0, 0, 0,
    0, 0, 0, 16, 0, 0, 0, 0, 0, 0, 0, 2, 0, 0, 0, 0, 0, 0, 0, 0, 0, 0, 0, 1, 0, 0, 0, 2, 0, 0, 0,
    0, 0, 0, 0, 98, 97, 0, 0, 0, 0, 0, 0, 255, 255, 255, 255, 152, 0, 0, 0, 24, 0, 0, 0, 0, 0, 0,
    0, 12, 0, 24, 0, 4, 0, 6, 0, 8, 0, 16, 0, 0, 0, 0, 0, 16, 0, 0, 0, 4, 0, 3, 0, 32, 0, 0, 0, 0,
    0, 0, 0, 24, 0, 0, 0, 0, 0, 0, 0, 10, 0, 24, 0, 8, 0, 16, 0, 20, 0, 0, 0, 0, 0, 0, 0, 16, 0, 0,
    0, 0, 0, 0, 0, 4, 0, 0, 0, 0, 0, 0, 0, 12, 0, 0, 0, 32, 0, 0, 0, 0, 0, 0, 0, 1, 0, 0, 0, 4, 0,
    0, 0, 0, 0, 0, 0, 1, 0, 0, 0, 0, 0, 0, 0, 0, 0, 0, 0, 2, 0, 0, 0, 0, 0, 0, 0, 0, 0, 0, 0, 1, 0,
    0, 0, 0, 0, 0, 0, 8, 0, 0, 0, 0, 0, 0, 0, 16, 0, 0, 0, 0, 0, 0, 0, 13, 0, 0, 0, 0, 0, 0, 0, 0,
    0, 0, 0, 0, 0, 0, 0, 0, 0, 0, 0, 1, 0, 0, 0, 255, 255, 255, 255, 0, 0, 0, 0,
];
