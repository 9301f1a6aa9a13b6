//! Cells of rows where they lie.

ghost use Rattle.std.specs.Prelude.{◌≡◌, IfOk, MatchOption, Some, false, true};
ghost use Rattle.values.specs.Datum.{is_null as is_null_by};
ghost use Rattle.values.specs.CellViews.{viewed};
ghost use Rattle.values.specs.Keys.{key_of};
ghost use Rattle.view_lang.specs.Folds.{number_in};
ghost use Rattle.values.specs.declared.key.Key.{Key as Keys};
ghost use Rattle.group_state.specs.Cells.{is_value};
ghost use Rattle.group_state.specs.Rows.{cell};

use key_ranks::RankedKey;
use std::alloc::{AllocError, Global};
use values::{CellView, Key};
use view_lang::RowView;

/// The whole number in a row's cell of a column, 0 where it isn't one; `None` where the cell is null.
#[tactic(auto, using(values::proofs::ShallowLemmas::shallow_laws, crate::proofs::Totals::number_laws))]
pub(crate) fn number_at<R: RowView>(row: &R, column: usize) -> Option<i128>
    ensures { MatchOption result (is_null_by (cell column (R.cells row.now)) ≡ true)
        (λ n. (is_null_by (cell column (R.cells row.now)) ≡ false) × (n ≡ number_in (cell column (R.cells row.now)))) }
{
    let cell = row.cell(column);
    if cell.is_null() {
        return None;
    }
    Some(number_of(cell))
}

/// The whole number in a cell; 0 where it isn't one.
fn number_of(cell: CellView<'_>) -> i128
    ensures { result ≡ number_in (viewed cell.entry) }
{
    match cell {
        CellView::Int(number) => number,
        _ => 0,
    }
}

/// The key in a row's cell of a column; `None` where that is a list or a struct.
#[tactic(auto, using(values::proofs::ShallowLemmas::shallow_laws))]
pub(crate) fn key_at<R: RowView>(
    alloc: Global,
    row: &R,
    column: usize,
) -> Result<Option<Key>, AllocError>
    ensures { IfOk result (λ key. key ≡ key_of (cell column (R.cells row.now))) }
{
    Key::of_cell(alloc, row.cell(column))
}

/// The key in a row's cell of a column; `None` where that is null, a list or a struct.
#[tactic(auto, using(values::proofs::ShallowLemmas::shallow_laws))]
#[inline(always)]
pub(crate) fn filled_key_at<R: RowView>(
    alloc: Global,
    row: &R,
    column: usize,
) -> Result<Option<RankedKey>, AllocError>
    ensures { IfOk result (λ found. MatchOption found
        ((q : Keys) → is_value q (cell column (R.cells row.now)) ≡ false)
        (λ key. (is_null_by (cell column (R.cells row.now)) ≡ false)
        × (key_of (cell column (R.cells row.now)) ≡ Some key))) }
{
    let cell = row.cell(column);
    if cell.is_null() {
        return Ok(None);
    }
    match Key::of_cell(alloc, cell)? {
        Some(key) => Ok(Some(RankedKey::new(key))),
        None => Ok(None),
    }
}
