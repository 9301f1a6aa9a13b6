//! The cells of one column of some rows: where they lie, or copies of them.

ghost use Rattle.std.specs.Prelude.{◌≡◌, ◌-◌, ◌<◌, ◌≤◌, ◌++◌, All, IfOk, OnOk, length, map, take, drop};
ghost use Rattle.body_writer.specs.Slots.{part, cells_of};
ghost use Rattle.body_writer.specs.Batch.{row_cells};
ghost use Rattle.body_writer.specs.Segments.{HasWidth, OfSlots, range_cells, segments_cells};
ghost use Rattle.body_writer.specs.RowRanges.{HasColumn, range_rows, column_in};

use crate::from_columns::batch::RowRange;
use crate::from_columns::segment::{Segment, SlotRange, offset_width};
use arrays::Column;
use std::alloc::{AllocError, Global};
use values::Value;

/// Where the cells of column `j` of these rows lie.
pub(crate) fn slots_in<'a>(range: &RowRange<'a>, j: usize) -> SlotRange<'a>
    requires { HasColumn j range.now }
    ensures segment { HasWidth result }
    ensures cells { range_cells result ≡ map (part j) (row_cells (range_rows range.now)) }
{
    let parts = range.batch.columns[j].parts();
    SlotRange {
        parts,
        offsets: offset_width(parts.own.layout),
        from: range.from,
        to: range.to,
    }
}

/// Where the cells of column `j` lie, range by range.
pub(crate) fn segments_of<'a>(
    alloc: Global,
    ranges: &[RowRange<'a>],
    j: usize,
) -> Result<Vec<Segment<'a>>, AllocError>
    requires { All (HasColumn j) ranges.now }
    ensures segments { IfOk result (λ segments. All (OfSlots HasWidth) segments.items) }
    ensures cells { IfOk result (λ segments. segments_cells segments.items ≡ column_in j ranges.now) }
{
    let mut segments = Vec::with_capacity(alloc, ranges.len())?;
    for range in ranges {
        segments.push(Segment::Slots(slots_in(range, j)))?;
    }
    Ok(segments)
}

/// Appends copies of the cells from `from` to `to`.
fn push_values(
    alloc: Global,
    values: &mut Vec<Value>,
    column: &Column,
    from: usize,
    to: usize,
) -> Result<(), AllocError>
    requires order { from ≤ to }
    requires within { to ≤ length column.now.cells }
    ensures { OnOk result (values.new.items ≡ values.old.items ++ take (to - from) (drop from column.now.cells)) }
{
    for i in from..to {
        values.push(column.cell(alloc, i)?)?;
    }
    Ok(())
}

/// Appends copies of the cells of column `j`.
fn push_cells(
    alloc: Global,
    values: &mut Vec<Value>,
    range: &RowRange,
    j: usize,
) -> Result<(), AllocError>
    requires { HasColumn j range.now }
    ensures { OnOk result (values.new.items ≡ values.old.items ++ map (part j) (row_cells (range_rows range.now))) }
{
    push_values(alloc, values, &range.batch.columns[j], range.from, range.to)
}

/// Copies of the cells of column `j`.
pub(crate) fn values_of(
    alloc: Global,
    ranges: &[RowRange],
    j: usize,
) -> Result<Vec<Value>, AllocError>
    requires { All (HasColumn j) ranges.now }
    ensures { IfOk result (λ values. values.items ≡ column_in j ranges.now) }
{
    let mut values = Vec::new(alloc);
    for range in ranges {
        push_cells(alloc, &mut values, range, j)?;
    }
    Ok(values)
}

/// References to all values.
pub(crate) fn refs_of<'a>(
    alloc: Global,
    values: &'a [Value],
) -> Result<Vec<Option<&'a Value>>, AllocError>
    ensures { IfOk result (λ refs. cells_of refs.items ≡ values.now) }
{
    let mut refs = Vec::with_capacity(alloc, values.len())?;
    for value in values {
        refs.push(Some(value))?;
    }
    Ok(refs)
}
