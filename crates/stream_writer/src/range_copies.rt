//! Copies of rows that lie in ranges of batches.

ghost use Rattle.std.specs.Prelude.{◌≡◌, ℕ, ◌<◌, ◌++◌, All, IfOk, OnOk, length, map};
ghost use Rattle.schema_meta.specs.Rows.{row_at};
ghost use Rattle.body_writer.specs.RowRanges.{IsRange, cells_in, range_rows, ranges_rows};
ghost use Rattle.body_writer.specs.Picked.{HaveColumns, picked, picked_rows};

use arrays::Column;
use body_writer::RowRange;
use std::alloc::{AllocError, Global};
use values::Row;

/// A copy of the cells of row `index` in the columns at these positions.
fn copy_row(
    alloc: Global,
    cells: &[Column],
    columns: &[usize],
    index: usize,
) -> Result<Row, AllocError>
    requires cells { All (λ c. index < length c.cells) cells.now }
    requires below { All (λ j. j < length cells.now) columns.now }
    ensures { IfOk result (λ row. row.items ≡ picked columns.now (row_at (cells_in cells.now) index)) }
{
    let mut row = Vec::with_capacity(alloc, columns.len())?;
    for column in columns {
        row.push(cells[*column].cell(alloc, index)?)?;
    }
    Ok(row)
}

/// Adds copies of the rows of a range, with the cells of these columns.
fn push_rows(
    alloc: Global,
    columns: &[usize],
    range: &RowRange,
    rows: &mut Vec<Row>,
) -> Result<(), AllocError>
    requires { (n : ℕ) × IsRange n range.now × All (λ j. j < n) columns.now }
    ensures { OnOk result (map (λ row. row.items) rows.new.items
        ≡ map (λ row. row.items) rows.old.items ++ picked_rows columns.now (range_rows range.now)) }
{
    for index in range.from..range.to {
        rows.push(copy_row(alloc, &range.batch.columns, columns, index)?)?;
    }
    Ok(())
}

/// Copies of the rows of these ranges, with the cells of these columns.
pub(crate) fn copy_rows(
    alloc: Global,
    columns: &[usize],
    ranges: &[RowRange],
) -> Result<Vec<Row>, AllocError>
    requires { (n : ℕ) × HaveColumns n columns.now ranges.now }
    ensures { IfOk result (λ rows.
        map (λ row. row.items) rows.items ≡ picked_rows columns.now (ranges_rows ranges.now)) }
{
    let mut rows = Vec::new(alloc);
    for range in ranges {
        push_rows(alloc, columns, range, &mut rows)?;
    }
    Ok(rows)
}
