//! The columns of batches: what holds of them, which of them are refused, and the rows in them.

ghost use Rattle.std.specs.Prelude.{◌≡◌, ◌<◌, ◌++◌, All, IfErr, IfOk, OnErr, OnOk, length, false};
ghost use Rattle.values.specs.Datum.{items_of};
ghost use Rattle.values.specs.Layouts.{HoldsEach};
ghost use Rattle.schema_meta.specs.Rows.{row_at};
ghost use Rattle.view_lang.specs.Causes.{any_heavy};
ghost use Rattle.row_keys.specs.Batches.{HoldsCells, batch_rows, cells_in, layouts_in};
ghost use Rattle.row_keys.specs.RefusedRows.{RefusesRows, are_many};

use crate::faults::EditFault;
use crate::stored_rows::StoredRows;
use crate::weighing::has_heavy_row;
use arrays::Column;
use std::alloc::{AllocError, Global};
use values::Row;
use values::limits::MAX_APPENDED_ROWS;
use view_lang::{Table, Unfit};

/// Each cell of these columns is a value of its column's layout. It does nothing: its contract is the theorem.
#[tactic(auto, using(crate::proofs::HeldRows::holding))]
fn columns_law(columns: &[Column])
    ensures { All HoldsCells columns.now }
{
    for column in columns {
        column.law();
    }
}

/// Adds a batch of `rows` rows to those of a table, of which `live` are live among `appended` in all: `TooManyRows`
/// where there would be too many, `CellTooHeavy` where one is too heavy. On an error nothing has changed.
pub(crate) fn keep_rows(
    table: &Table,
    kept: &mut StoredRows,
    columns: Vec<Column>,
    rows: usize,
    live: usize,
    appended: usize,
) -> Result<(), EditFault>
    requires { All (λ c. length c.cells ≡ rows) columns.items }
    ensures kept { OnOk result (kept.new ≡ kept.old ++ batch_rows rows columns.items) }
    ensures held { OnOk result (All HoldsCells columns.items) }
    ensures few { OnOk result (are_many table.now.max_rows live appended rows ≡ false) }
    ensures light { OnOk result (any_heavy (layouts_in columns.items) (batch_rows rows columns.items) ≡ false) }
    ensures refused { IfErr result (RefusesRows table.now.max_rows live appended rows columns.items) }
    ensures same { OnErr result (kept.new ≡ kept.old) }
{
    if has_many(table.max_rows, live, appended, rows) {
        return Err(EditFault::Unfit(Unfit::TooManyRows));
    }
    if has_heavy_row(&columns, rows) {
        return Err(EditFault::Unfit(Unfit::CellTooHeavy));
    }
    columns_law(&columns);
    kept.append(columns, rows)?;
    Ok(())
}

/// Whether there would be too many rows: more than `most` live ones, or too many appended ones.
fn has_many(most: usize, live: usize, appended: usize, rows: usize) -> bool
    ensures { result ≡ are_many most live appended rows }
{
    live > most || rows > most - live || appended.saturating_add(rows) as u64 > MAX_APPENDED_ROWS
}

/// A copy of row `index` of these columns.
#[tactic(auto, using(crate::proofs::RowCells::cells))]
pub(crate) fn read_row(alloc: Global, columns: &[Column], index: usize) -> Result<Row, AllocError>
    requires { All (λ c. index < length c.cells) columns.now }
    ensures row { IfOk result (λ r. r.items ≡ row_at (cells_in columns.now) index) }
    ensures held { IfOk result (λ r. HoldsEach (layouts_in columns.now) (items_of r.items)) }
{
    let mut row = Vec::with_capacity(alloc, columns.len())?;
    for column in columns {
        row.push(column.cell(alloc, index)?)?;
    }
    Ok(row)
}
