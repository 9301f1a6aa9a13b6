//! Bounds on the weights of rows that lie in ranges of batches.

ghost use Rattle.std.specs.Prelude.{◌≡◌, ℕ, ◌<◌, ◌≤◌, All, IfSome, get_or, length, true};
ghost use Rattle.values.specs.Datum.{null};
ghost use Rattle.values.specs.Layouts.{weight};
ghost use Rattle.values.specs.Limits.{max_cell_weight};
ghost use Rattle.values.specs.Rose.{kids_of};
ghost use Rattle.body_writer.specs.RowRanges.{IsRange, range_rows, ranges_rows};
ghost use Rattle.body_writer.specs.Picked.{HaveColumns, picked_rows};
ghost use Rattle.stream_writer.specs.BatchRows.{AreLightRows};
ghost use Rattle.stream_writer.specs.RangeBounds.{BoundsCells, IsHeaviest};
ghost use Rattle.stream_writer.specs.RangeRows.{HoldRows};

use arrays::Column;
use body_writer::{MAX_LIGHT_ROW, RowRange};
use values::limits::MAX_CELL_WEIGHT;
use values::{Layout, LayoutTree, null_weight};

/// Where a range has at least one in this many of its batch's rows, the bound of the whole column is used.
const SPARSE: usize = 8;

/// How much less a value of a fixed width weighs than the same bytes with an offset.
const OFFSET_WEIGHT: u64 = 4;

/// The weight of the heaviest cell from cell `from` up to, and without, cell `to`.
fn weigh_cells(column: &Column, from: usize, to: usize) -> u64
    requires { to ≤ length column.now.cells }
    ensures { IsHeaviest column.now from to result }
{
    let mut most = 0u64;
    for index in from..to {
        most = most.max(column.weight(index));
    }
    most
}

/// An upper bound on the weights of these cells; the limit of a cell plus 1 where nothing is known. It reads at most a
/// constant factor more cells than these.
fn bound_cells(column: &Column, from: usize, to: usize) -> u64
    requires { to ≤ length column.now.cells }
    ensures { IsHeaviest column.now from to result }
{
    if to.saturating_sub(from) >= column.len() / SPARSE {
        return column.weight_bound();
    }
    weigh_cells(column, from, to)
}

/// An upper bound on the weights of these cells as values of this layout, or `None` where nothing is known: of lists
/// and structs, whose items may lie in other layouts, and above the limit of a cell.
pub(crate) fn bound_values(
    layout: &LayoutTree,
    column: &Column,
    from: usize,
    to: usize,
) -> Option<u64>
    requires { to ≤ length column.now.cells }
    ensures { IfSome result (BoundsCells layout.now column.now from to) }
{
    column.law();
    let most = match layout.layout {
        Layout::List { .. } | Layout::Struct => return None,
        _ => bound_cells(column, from, to).max(null_weight(layout)),
    };
    if most > MAX_CELL_WEIGHT {
        return None;
    }
    Some(most + OFFSET_WEIGHT)
}

/// Whether each row of a range is light, by bounds on the cells of these columns, which have these layouts.
fn is_light(layouts: &[LayoutTree], columns: &[usize], range: &RowRange) -> bool
    requires many { length columns.now ≡ length layouts.now }
    requires range { (n : ℕ) × IsRange n range.now × All (λ j. j < n) columns.now }
    requires held { HoldRows (kids_of layouts.now) (picked_rows columns.now (range_rows range.now)) }
    ensures { result ≡ true → AreLightRows (kids_of layouts.now) (picked_rows columns.now (range_rows range.now)) }
{
    let mut sum = 0;
    for j in 0..layouts.len() {
        let column = &range.batch.columns[columns[j]];
        let Some(most) = bound_values(&layouts[j], column, range.from, range.to) else {
            return false;
        };
        sum += most;
        if sum > MAX_LIGHT_ROW {
            return false;
        }
    }
    true
}

/// Whether each row of these ranges is so light that a batch of 1,024 of them is within the limit on weight. No cell is
/// copied. Where rows are light, but have lists or structs, it isn't known.
pub(crate) fn are_light(layouts: &[LayoutTree], columns: &[usize], ranges: &[RowRange]) -> bool
    requires many { length columns.now ≡ length layouts.now }
    requires ranges { (n : ℕ) × HaveColumns n columns.now ranges.now }
    requires held { HoldRows (kids_of layouts.now) (picked_rows columns.now (ranges_rows ranges.now)) }
    ensures { result ≡ true → AreLightRows (kids_of layouts.now) (picked_rows columns.now (ranges_rows ranges.now)) }
{
    for range in ranges {
        if !is_light(layouts, columns, range) {
            return false;
        }
    }
    true
}
