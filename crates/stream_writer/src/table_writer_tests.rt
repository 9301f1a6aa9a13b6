//! A table that comes batch by batch, cut in several ways.

ghost use Rattle.std.specs.Prelude.{◌≡◌, ◌+◌, ◌^◌, ◌≤◌, All, IfOk, List, [], OnOk, length};
ghost use Rattle.values.specs.Datum.{Datum};
ghost use Rattle.stream_writer.specs.Sinks.{Sunk};
ghost use Rattle.stream_writer.specs.TableWriters.{HasMoreRows, IsWriting};

use crate::{MemorySink, Sink, TableWriter, WriteFault, write_table};
use body_writer::Batch;
use std::alloc::{AllocError, Global};
use std::test::Fail;
use values::{Row, Schema};

/// The table has no columns: a row of it has no cell.
fn no_columns(alloc: Global) -> Result<Schema, AllocError>
    ensures { IfOk result (λ schema. schema.fields.items ≡ []) }
{
    Schema::new(alloc, Vec::new(alloc))
}

fn take_rows<S: Sink>(
    alloc: Global,
    sink: &mut S,
    writer: &mut TableWriter,
    count: usize,
) -> Result<(), WriteFault>
    requires { (start : Sunk) × (rows : List (List Datum)) × IsWriting start (S.sunk sink.old) [] rows writer.old
        × (length rows + count ≤ 2 ^ 24) }
    ensures { OnOk result (HasMoreRows (S.sunk sink.old) (S.sunk sink.new) count writer.old writer.new) }
{
    let batch = Batch {
        columns: Vec::new(alloc),
        rows: count,
    };
    writer.take(alloc, sink, batch, 0)?;
    Ok(())
}

/// Writes rows that come in three batches.
fn write_parts<S: Sink>(
    alloc: Global,
    sink: &mut S,
    first: usize,
    second: usize,
    third: usize,
) -> Result<u64, WriteFault>
    requires { first + second + third ≤ 2 ^ 24 }
{
    let schema = no_columns(alloc)?;
    let mut writer = TableWriter::begin(alloc, sink, &schema)?;
    take_rows(alloc, sink, &mut writer, first)?;
    take_rows(alloc, sink, &mut writer, second)?;
    take_rows(alloc, sink, &mut writer, third)?;
    writer.end(alloc, sink)
}

/// Writes rows that come at once.
fn write_at_once<S: Sink>(alloc: Global, sink: &mut S, count: usize) -> Result<u64, WriteFault>
    requires { count ≤ 2 ^ 24 }
{
    let schema = no_columns(alloc)?;
    let rows = rows_without_cells(alloc, count)?;
    write_table(alloc, sink, &schema, &rows)
}

fn rows_without_cells(alloc: Global, count: usize) -> Result<Vec<Row>, AllocError>
    ensures rows { IfOk result (λ rows. All (λ row. row.items ≡ []) rows.items) }
    ensures many { IfOk result (λ rows. length rows.items ≡ count) }
{
    let mut rows = Vec::new(alloc);
    while rows.len() < count {
        rows.push(Vec::new(alloc))?;
    }
    Ok(rows)
}

/// Whether rows that come in three batches are written as these bytes.
fn is_same_stream(alloc: Global, whole: &[u8], first: usize, second: usize, third: usize) -> bool
    requires { first + second + third ≤ 2 ^ 24 }
{
    let mut sink = MemorySink::new(alloc);
    let written = write_parts(alloc, &mut sink, first, second, third);
    written == Ok(whole.len() as u64) && sink.bytes() == whole
}

#[test]
fn any_cut_is_the_same_stream(rt: HostRuntime) -> Result<(), Fail> {
    let mut sink = MemorySink::new(rt.alloc());
    let written = write_at_once(rt.alloc(), &mut sink, 2500);
    let whole = sink.bytes();
    assert_eq!(rt; written, Ok(whole.len() as u64));
    assert!(rt; is_same_stream(rt.alloc(), whole, 2500, 0, 0));
    assert!(rt; is_same_stream(rt.alloc(), whole, 0, 0, 2500));
    assert!(rt; is_same_stream(rt.alloc(), whole, 1024, 1024, 452));
    assert!(rt; is_same_stream(rt.alloc(), whole, 1023, 1, 1476));
    assert!(rt; is_same_stream(rt.alloc(), whole, 1, 1023, 1476));
    assert!(rt; is_same_stream(rt.alloc(), whole, 1025, 1023, 452));
    assert!(rt; is_same_stream(rt.alloc(), whole, 1000, 1000, 500));
    Ok(())
}

#[test]
fn no_row_is_no_batch(rt: HostRuntime) -> Result<(), Fail> {
    let mut sink = MemorySink::new(rt.alloc());
    let written = write_at_once(rt.alloc(), &mut sink, 0);
    assert_eq!(rt; written, Ok(sink.bytes().len() as u64));
    assert!(rt; is_same_stream(rt.alloc(), sink.bytes(), 0, 0, 0));
    Ok(())
}

/// The sink fails at the first put after the Schema message: what it took is that message.
#[test]
fn stops_at_the_first_batch(rt: HostRuntime) -> Result<(), Fail> {
    let mut sink = MemorySink::with_limit(rt.alloc(), usize::MAX, 1);
    let written = write_parts(rt.alloc(), &mut sink, 1024, 0, 0);
    let len = sink.bytes().len() as u64;
    assert_eq!(rt; written, Err(WriteFault::Device { written: len }));
    assert!(rt; len > 0);
    Ok(())
}
