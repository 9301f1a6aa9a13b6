//! Weighs rows where they lie: against the limits of cells and of rows, and as rows of other layouts.

ghost use Rattle.std.specs.Prelude.{◌≡◌, ℕ, ◌<◌, ◌≤◌, All, IfOk, get_or, length};
ghost use Rattle.values.specs.CellViews.{viewed};
ghost use Rattle.values.specs.Datum.{null};
ghost use Rattle.values.specs.Layouts.{weight};
ghost use Rattle.values.specs.Rose.{kids_of};
ghost use Rattle.body_writer.specs.Batch.{row_weight};
ghost use Rattle.body_writer.specs.RowRanges.{IsRange};
ghost use Rattle.schema_meta.specs.Rows.{row_at};
ghost use Rattle.view_lang.specs.Causes.{any_heavy};
ghost use Rattle.row_keys.specs.Batches.{batch_rows, cells_in, layouts_in};
ghost use Rattle.row_keys.specs.RowsLeft.{Bounds, bytes_beyond as bytes_by};

use arrays::Column;
use body_writer::{RowRange, heaviest_row};
use std::alloc::{AllocError, Global};
use values::{CellView, LayoutTree, null_weight, weight};

/// Whether one of the `rows` rows is too heavy. Rows are weighed one by one only where the columns' bounds are large.
pub(crate) fn has_heavy_row(columns: &[Column], rows: usize) -> bool
    requires { All (λ c. length c.cells ≡ rows) columns.now }
    ensures { result ≡ any_heavy (layouts_in columns.now) (batch_rows rows columns.now) }
{
    match heaviest_row(columns, rows) {
        Some(_most) => false,
        None => true,
    }
}

/// What the cells from `from` to `to` of a column of lists or structs weigh where they lie; 0 for any other column.
/// Nothing is copied.
fn weigh_nested_cells(column: &Column, from: usize, to: usize) -> u64
    requires { to ≤ length column.now.cells }
{
    if column.parts().children.is_empty() {
        return 0;
    }
    let mut sum = 0u64;
    for index in from..to {
        sum = sum.saturating_add(column.weight(index));
    }
    sum
}

/// What the lists and structs of some rows weigh where they lie.
pub(crate) fn weigh_nested_columns(range: &RowRange) -> u64
    requires { (n : ℕ) × IsRange n range.now }
{
    let mut sum = 0u64;
    for column in &range.batch.columns {
        sum = sum.saturating_add(weigh_nested_cells(column, range.from, range.to));
    }
    sum
}

/// How many bytes a cell has beyond its slot; `None` where it is a list or a struct.
fn bytes_beyond(cell: CellView<'_>) -> Option<usize>
    ensures { result ≡ bytes_by (viewed cell.entry) }
{
    match cell {
        CellView::Null | CellView::Bool(_) | CellView::Int(_) => Some(0),
        CellView::Utf8(text) => Some(text.len()),
        CellView::Binary(bytes) => Some(bytes.len()),
        CellView::List | CellView::Struct => None,
    }
}

/// A bound on the weight of cell `index` as a value of this layout. Lists and structs alone are copied for it.
fn weigh_cell(
    alloc: Global,
    layout: &LayoutTree,
    column: &Column,
    index: usize,
) -> Result<u64, AllocError>
    requires { index < length column.now.cells }
    ensures { IfOk result (λ w. Bounds w (weight layout.now (get_or column.now.cells index null))) }
{
    match bytes_beyond(column.view(index)) {
        Some(bytes) => Ok(null_weight(layout).saturating_add(bytes as u64)),
        None => {
            let value = column.cell(alloc, index)?;
            Ok(weight(layout, &value))
        }
    }
}

/// A bound on the weight of row `index` as a row of these layouts.
pub(crate) fn weigh_row(
    alloc: Global,
    layouts: &[LayoutTree],
    columns: &[Column],
    index: usize,
) -> Result<u64, AllocError>
    requires { All (λ c. index < length c.cells) columns.now }
    ensures { IfOk result (λ w. Bounds w (row_weight (kids_of layouts.now) (row_at (cells_in columns.now) index))) }
{
    let mut sum = 0u64;
    let size = layouts.len().min(columns.len());
    for place in 0..size {
        sum = sum.saturating_add(weigh_cell(alloc, &layouts[place], &columns[place], index)?);
    }
    Ok(sum)
}
