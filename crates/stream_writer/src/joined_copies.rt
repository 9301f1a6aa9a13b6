//! Copies of rows that lie at single locations.

ghost use Rattle.std.specs.Prelude.{◌≡◌, ◌<◌, [], IfOk, get_or, length, map};
ghost use Rattle.values.specs.Datum.{null};
ghost use Rattle.body_writer.specs.Picked.{picked, picked_rows};
ghost use Rattle.body_writer.specs.Locations.{HaveColumn, column_at};
ghost use Rattle.stream_writer.specs.JoinedRows.{HaveJoined, joined_rows};

use crate::joined_rows::JoinedRows;
use body_writer::{LocatedRows, copy_cell};
use std::alloc::{AllocError, Global};
use values::{Row, Value};

/// A copy of the cell of row `index` in column `j`.
fn copy_at(alloc: Global, rows: &LocatedRows, index: usize, j: usize) -> Result<Value, AllocError>
    requires have { HaveColumn j rows.now }
    requires below { index < length rows.now.locations.now }
    ensures { IfOk result (λ cell. cell ≡ get_or (column_at j rows.now) index null) }
{
    copy_cell(alloc, rows.batches, &rows.locations[index], j)
}

/// A copy of the cells of row `index` in the columns at these positions.
fn copy_row(
    alloc: Global,
    columns: &[usize],
    rows: &JoinedRows,
    index: usize,
) -> Result<Row, AllocError>
    requires have { HaveJoined columns.now rows.now }
    requires below { index < length rows.now.main.locations.now }
    ensures { IfOk result (λ row. row.items ≡ picked columns.now (get_or (joined_rows rows.now) index [])) }
{
    let mut row = Vec::with_capacity(alloc, columns.len())?;
    for column in columns {
        let half = rows.half(*column);
        row.push(copy_at(alloc, half, index, rows.place_of(*column))?)?;
    }
    Ok(row)
}

/// Copies of these rows, with the cells of these columns.
pub(crate) fn copy_joined(
    alloc: Global,
    columns: &[usize],
    rows: &JoinedRows,
) -> Result<Vec<Row>, AllocError>
    requires { HaveJoined columns.now rows.now }
    ensures { IfOk result (λ copies.
        map (λ row. row.items) copies.items ≡ picked_rows columns.now (joined_rows rows.now)) }
{
    let mut copies = Vec::with_capacity(alloc, rows.main.locations.len())?;
    for index in 0..rows.main.locations.len() {
        copies.push(copy_row(alloc, columns, rows, index)?)?;
    }
    Ok(copies)
}
