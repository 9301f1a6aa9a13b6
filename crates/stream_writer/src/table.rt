//! Writes a table, message by message.

ghost use Rattle.std.specs.Prelude.{◌≡◌, ℕ, [], All, IfSome, length, map};
ghost use Rattle.values.specs.Rose.{kids_of};
ghost use Rattle.stream_writer.specs.Sinks.{Writes};
ghost use Rattle.values.specs.Coded.{AreCoded};
ghost use Rattle.stream_writer.specs.Stream.{canon, coded_canon, trees};
ghost use Rattle.body_writer.specs.RowRanges.{IsSized, ranges_rows, rows_of};
ghost use Rattle.body_writer.specs.Picked.{HaveColumns, picked_rows};
ghost use Rattle.stream_writer.specs.BatchRows.{AreLightRows};
ghost use Rattle.stream_writer.specs.Progress.{IsSchemaMessage};
ghost use Rattle.stream_writer.specs.JoinedRows.{HaveJoined, joined_rows};
ghost use Rattle.stream_writer.specs.Table.{IsTable};
ghost use Rattle.stream_writer.specs.ViewedRows.{AreFlat, viewed_rows};
ghost use Rattle.stream_writer.specs.Weights.{weights_of};

use crate::batch_rows::BatchRows;
use crate::encoded_schema::EncodedSchema;
use crate::faults::WriteFault;
use crate::joined_copies::copy_joined;
use crate::joined_rows::JoinedRows;
use crate::layouts::layouts_of;
use crate::locate_rows::PlaceRows;
use crate::location_bounds::{are_light_joined, find_arrays};
use crate::progress::{put_rest, put_schema};
use crate::range_bounds::are_light;
use crate::range_copies::copy_rows;
use crate::range_rows::RangeRows;
use crate::rows::{RowSource, ValueRows};
use crate::sink::Sink;
use crate::viewed_rows::ViewedRows;
use body_writer::{Batch, RowRange};
use std::alloc::Global;
use values::{CellView, LayoutTree, Row, Schema};

/// Writes the canonical stream of a table, and returns its length in bytes.
///
/// On an error the sink took a prefix of that stream: `written` bytes.
pub fn write_table<S: Sink>(
    alloc: Global,
    sink: &mut S,
    schema: &Schema,
    rows: &[Row],
) -> Result<u64, WriteFault>
    requires { IsTable schema.now.fields.items (map (λ row. row.items) rows.now) }
    ensures { Writes (S.sunk sink.old) (S.sunk sink.new) result
        (canon schema.now.fields.items (map (λ row. row.items) rows.now)) }
{
    let layouts = layouts_of(alloc, schema)?;
    let left = ValueRows { rows, coded: &[] };
    write_messages(alloc, sink, schema, None, &[], &layouts, left)
}

/// Writes the canonical stream of a table in which the columns at some positions are coded, and returns its length in
/// bytes. The positions ascend, and the columns there hold texts.
///
/// On an error the sink took a prefix of that stream: `written` bytes.
pub fn write_coded<S: Sink>(
    alloc: Global,
    sink: &mut S,
    schema: &EncodedSchema,
    coded: &[usize],
    rows: &[Row],
) -> Result<u64, WriteFault>
    requires table { IsTable schema.now.fields.items (map (λ row. row.items) rows.now) }
    requires coded { AreCoded coded.now schema.now.fields.items }
    ensures { Writes (S.sunk sink.old) (S.sunk sink.new) result
        (coded_canon schema.now.fields.items coded.now (map (λ row. row.items) rows.now)) }
{
    let layouts = layouts_of(alloc, schema.schema())?;
    write_messages(
        alloc,
        sink,
        schema.schema(),
        schema.message(coded),
        coded,
        &layouts,
        ValueRows { rows, coded },
    )
}

/// Writes the canonical stream of a table whose `rows` rows lie in batches of checked columns, and returns its length
/// in bytes. None of the rows may be so heavy that a batch with it would have fewer than 1,024 rows.
///
/// On an error the sink took a prefix of that stream: `written` bytes.
pub fn write_batches<S: Sink>(
    alloc: Global,
    sink: &mut S,
    schema: &Schema,
    batches: &[Batch],
    rows: usize,
) -> Result<u64, WriteFault>
    requires table { IsTable schema.now.fields.items (rows_of batches.now) }
    requires sized { All (IsSized (length schema.now.fields.items)) batches.now }
    requires light { AreLightRows (trees schema.now.fields.items) (rows_of batches.now) }
    requires rows { rows ≡ length (rows_of batches.now) }
    ensures { Writes (S.sunk sink.old) (S.sunk sink.new) result (canon schema.now.fields.items (rows_of batches.now)) }
{
    let layouts = layouts_of(alloc, schema)?;
    let left = BatchRows {
        batches,
        from: 0,
        left: rows,
        weights: &[],
    };
    write_messages(alloc, sink, schema, None, &[], &layouts, left)
}

/// Writes the canonical stream of a table whose rows lie in batches of checked columns and have these weights, and
/// returns its length in bytes.
///
/// On an error the sink took a prefix of that stream: `written` bytes.
pub fn write_weighed_batches<S: Sink>(
    alloc: Global,
    sink: &mut S,
    schema: &Schema,
    batches: &[Batch],
    weights: &[u64],
) -> Result<u64, WriteFault>
    requires table { IsTable schema.now.fields.items (rows_of batches.now) }
    requires sized { All (IsSized (length schema.now.fields.items)) batches.now }
    requires weighed { weights.now ≡ weights_of (trees schema.now.fields.items) (rows_of batches.now) }
    ensures { Writes (S.sunk sink.old) (S.sunk sink.new) result (canon schema.now.fields.items (rows_of batches.now)) }
{
    let layouts = layouts_of(alloc, schema)?;
    let left = BatchRows {
        batches,
        from: 0,
        left: weights.len(),
        weights,
    };
    write_messages(alloc, sink, schema, None, &[], &layouts, left)
}

/// Writes the canonical stream of a table whose `rows` rows lie in these ranges of batches of checked columns, and
/// returns its length in bytes. Its columns are those of the batches at these positions, in this order. Cells are
/// copied where a row may be so heavy that a batch with it would have fewer than 1,024 rows, and where there are lists
/// or structs.
///
/// On an error the sink took a prefix of that stream: `written` bytes.
pub fn write_ranges<S: Sink>(
    alloc: Global,
    sink: &mut S,
    schema: &EncodedSchema,
    columns: &[usize],
    ranges: &[RowRange],
    rows: usize,
) -> Result<u64, WriteFault>
    requires table { IsTable schema.now.fields.items (picked_rows columns.now (ranges_rows ranges.now)) }
    requires many { length columns.now ≡ length schema.now.fields.items }
    requires ranges { (n : ℕ) × HaveColumns n columns.now ranges.now }
    requires rows { rows ≡ length (ranges_rows ranges.now) }
    ensures { Writes (S.sunk sink.old) (S.sunk sink.new) result
        (canon schema.now.fields.items (picked_rows columns.now (ranges_rows ranges.now))) }
{
    let layouts = layouts_of(alloc, schema.schema())?;
    if !are_light(&layouts, columns, ranges) {
        let copies = copy_rows(alloc, columns, ranges)?;
        return write_table(alloc, sink, schema.schema(), &copies);
    }
    let left = RangeRows {
        columns,
        ranges,
        from: 0,
        left: rows,
    };
    write_messages(
        alloc,
        sink,
        schema.schema(),
        schema.message(&[]),
        &[],
        &layouts,
        left,
    )
}

/// Writes the canonical stream of a table whose rows are these rows of a main table with rows of a side table beside
/// them, and returns its length in bytes. Its columns are those of the joined rows at these positions, in this order:
/// the main table's come first, then the side table's. Cells are copied where a row may be so heavy that a batch with
/// it would have fewer than 1,024 rows, and where there are lists or structs.
///
/// On an error the sink took a prefix of that stream: `written` bytes.
pub fn write_locations<S: Sink>(
    alloc: Global,
    sink: &mut S,
    schema: &EncodedSchema,
    columns: &[usize],
    rows: &JoinedRows,
) -> Result<u64, WriteFault>
    requires table { IsTable schema.now.fields.items (picked_rows columns.now (joined_rows rows.now)) }
    requires many { length columns.now ≡ length schema.now.fields.items }
    requires have { HaveJoined columns.now rows.now }
    ensures { Writes (S.sunk sink.old) (S.sunk sink.new) result
        (canon schema.now.fields.items (picked_rows columns.now (joined_rows rows.now))) }
{
    let layouts = layouts_of(alloc, schema.schema())?;
    if !are_light_joined(&layouts, columns, rows) {
        let copies = copy_joined(alloc, columns, rows)?;
        return write_table(alloc, sink, schema.schema(), &copies);
    }
    let arrays = find_arrays(alloc, &layouts, columns, rows)?;
    let left = PlaceRows {
        columns,
        arrays: &arrays,
        rows: *rows,
    };
    write_messages(
        alloc,
        sink,
        schema.schema(),
        schema.message(&[]),
        &[],
        &layouts,
        left,
    )
}

/// Writes the canonical stream of a table of `rows` rows whose cells lie elsewhere, and returns its length in bytes. Its
/// columns are these, none of lists or of structs with fields.
///
/// On an error the sink took a prefix of that stream: `written` bytes.
pub fn write_cells<S: Sink>(
    alloc: Global,
    sink: &mut S,
    schema: &EncodedSchema,
    columns: &[Vec<CellView<'_>>],
    rows: usize,
) -> Result<u64, WriteFault>
    requires table { IsTable schema.now.fields.items (viewed_rows rows columns.now) }
    requires many { length columns.now ≡ length schema.now.fields.items }
    requires sized { All (λ c. length c.items ≡ rows) columns.now }
    requires flat { AreFlat (trees schema.now.fields.items) }
    ensures { Writes (S.sunk sink.old) (S.sunk sink.new) result
        (canon schema.now.fields.items (viewed_rows rows columns.now)) }
{
    let layouts = layouts_of(alloc, schema.schema())?;
    let left = ViewedRows {
        columns,
        from: 0,
        left: rows,
    };
    write_messages(
        alloc,
        sink,
        schema.schema(),
        schema.message(&[]),
        &[],
        &layouts,
        left,
    )
}

/// Writes the messages of a table whose columns have these layouts.
fn write_messages<S: Sink, R: RowSource + Drop>(
    alloc: Global,
    sink: &mut S,
    schema: &Schema,
    message: Option<&[u8]>,
    coded: &[usize],
    layouts: &[LayoutTree],
    rows: R,
) -> Result<u64, WriteFault>
    requires message { IfSome message (λ m. IsSchemaMessage m.now coded.now schema.now.fields.items) }
    requires coded { R.coded rows ≡ coded.now }
    requires layouts { kids_of layouts.now ≡ trees schema.now.fields.items }
    requires table { IsTable schema.now.fields.items (R.rows rows) }
    requires fits { R.fits rows layouts.now }
    ensures { Writes (S.sunk sink.old) (S.sunk sink.new) result
        (coded_canon schema.now.fields.items coded.now (R.rows rows)) }
{
    let written = put_schema(alloc, sink, schema, coded, message)?;
    put_rest(alloc, sink, layouts, rows, written)
}
