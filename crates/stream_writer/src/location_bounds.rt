//! Bounds on the weights of rows that lie at single locations, from all cells of their batches.

ghost use Rattle.std.specs.Prelude.{◌≡◌, ◌+◌, ◌≤◌, IfOk, IfSome, length, true};
ghost use Rattle.values.specs.Limits.{max_cell_weight};
ghost use Rattle.values.specs.Rose.{kids_of};
ghost use Rattle.body_writer.specs.Picked.{picked_rows};
ghost use Rattle.stream_writer.specs.BatchRows.{AreLightRows};
ghost use Rattle.stream_writer.specs.JoinedRows.{AreArrays, HaveJoined, joined_rows};
ghost use Rattle.stream_writer.specs.PlaceRows.{BoundsBatch, BoundsColumn};
ghost use Rattle.stream_writer.specs.RangeRows.{HoldRows};

use crate::joined_rows::JoinedRows;
use crate::range_bounds::bound_values;
use body_writer::{Batch, BatchArrays, MAX_LIGHT_ROW};
use std::alloc::{AllocError, Global};
use values::limits::MAX_CELL_WEIGHT;
use values::{LayoutTree, null_weight};

/// An upper bound on the weights of the cells in column `j` of a batch, as values of this layout, or `None` where
/// nothing is known.
fn bound_in(layout: &LayoutTree, j: usize, batch: &Batch) -> Option<u64>
    ensures bound { IfSome result (BoundsBatch layout.now j batch.now) }
    ensures small { IfSome result (λ most. most ≤ max_cell_weight + 4) }
{
    match batch.columns.get(j) {
        Some(column) => bound_values(layout, column, 0, column.len()),
        None => Some(0),
    }
}

/// An upper bound on the weights of a null and of the cells in column `j` of these batches, as values of this layout,
/// or `None` where nothing is known.
fn bound_column(layout: &LayoutTree, j: usize, batches: &[&Batch]) -> Option<u64>
    ensures { IfSome result (BoundsColumn layout.now j batches.now) }
{
    let mut most = null_weight(layout);
    if most > MAX_CELL_WEIGHT {
        return None;
    }
    for batch in batches {
        most = most.max(bound_in(layout, j, batch)?);
    }
    Some(most)
}

/// Whether each of these rows is so light that a batch of 1,024 of them is within the limit on weight. Each column is
/// read once. Where rows are light, but have lists or structs, it isn't known.
pub(crate) fn are_light_joined(layouts: &[LayoutTree], columns: &[usize], rows: &JoinedRows) -> bool
    requires many { length columns.now ≡ length layouts.now }
    requires have { HaveJoined columns.now rows.now }
    requires held { HoldRows (kids_of layouts.now) (picked_rows columns.now (joined_rows rows.now)) }
    ensures { result ≡ true → AreLightRows (kids_of layouts.now) (picked_rows columns.now (joined_rows rows.now)) }
{
    let mut sum = 0u64;
    for j in 0..layouts.len() {
        let column = columns[j];
        let batches = rows.half(column).batches;
        let Some(most) = bound_column(&layouts[j], rows.place_of(column), batches) else {
            return false;
        };
        sum = sum.saturating_add(most);
        if sum > MAX_LIGHT_ROW {
            return false;
        }
    }
    true
}

/// The arrays of the columns at these positions, which are written in these layouts.
pub(crate) fn find_arrays<'a>(
    alloc: Global,
    layouts: &[LayoutTree],
    columns: &[usize],
    rows: &JoinedRows<'a>,
) -> Result<Vec<BatchArrays<'a>>, AllocError>
    requires { length columns.now ≡ length layouts.now }
    ensures { IfOk result (λ arrays. AreArrays rows.now columns.now arrays.items) }
{
    let mut arrays = Vec::with_capacity(alloc, columns.len())?;
    for j in 0..columns.len() {
        let column = columns[j];
        let batches = rows.half(column).batches;
        let layout = &layouts[j];
        let found = BatchArrays::find(alloc, batches, rows.place_of(column), layout.layout)?;
        arrays.push(found)?;
    }
    Ok(arrays)
}
