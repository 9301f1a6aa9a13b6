//! Joined rows for which a view stores the same.

ghost use Rattle.std.specs.Prelude.{◌≡◌};
ghost use Rattle.std.specs.List.{list_any};
ghost use Rattle.values.specs.CellViews.{viewed};
ghost use Rattle.upkeep.specs.AlikeRows.{are_materialized_alike, are_same, differ_in};

use crate::view_state::Materialized;
use group_state::AccumulatedColumn;
use values::{CellView, cmp_cells};
use view_lang::{OrderBy, Outputs, RowView, ShownRow, View};

/// Whether two cells are known to have the same value. Lists and structs aren't compared.
fn is_same_cell(a: CellView<'_>, b: CellView<'_>) -> bool
    ensures { result ≡ are_same (viewed a.entry) (viewed b.entry) }
{
    match a {
        CellView::List => false,
        CellView::Struct => false,
        _ => cmp_cells(a, b).is_eq(),
    }
}

/// Whether two rows differ in a column, or may differ.
fn differs<R: RowView>(a: &R, b: &R, column: usize) -> bool
    ensures { result ≡ differ_in (R.cells a.now) (R.cells b.now) column }
{
    !is_same_cell(a.cell(column), b.cell(column))
}

/// Whether two rows differ in a column by which rows are ordered.
fn differs_in_order<R: RowView>(order: &[OrderBy], a: &R, b: &R) -> bool
    ensures { result ≡ list_any (λ by. differ_in (R.cells a.now) (R.cells b.now) by.column) order.now }
{
    for by in order {
        if differs(a, b, by.column) {
            return true;
        }
    }
    false
}

/// Whether two rows differ in a column of a grouping tuple.
fn differs_in_tuple<R: RowView>(columns: &[usize], a: &R, b: &R) -> bool
    ensures { result ≡ list_any (differ_in (R.cells a.now) (R.cells b.now)) columns.now }
{
    for column in columns {
        if differs(a, b, *column) {
            return true;
        }
    }
    false
}

/// Whether two rows differ in a column that groups accumulate.
fn differs_in_columns<R: RowView>(columns: &[AccumulatedColumn], a: &R, b: &R) -> bool
    ensures { result ≡ list_any (λ c. differ_in (R.cells a.now) (R.cells b.now) c.column) columns.now }
{
    for kept in columns {
        if differs(a, b, kept.column) {
            return true;
        }
    }
    false
}

/// Whether a view stores the same for two joined rows that pass its filter: they have the same cells in the columns by
/// which the view orders its rows, or in those by which it groups and those that its groups accumulate.
pub(crate) fn is_materialized_alike<R: RowView>(
    view: &View,
    kept: &Materialized,
    a: &R,
    b: &R,
) -> bool
    ensures { result ≡ are_materialized_alike view.now kept.now (R.cells a.now) (R.cells b.now) }
{
    match (&view.outputs, kept) {
        (Outputs::Columns(outputs), Materialized::Order(_)) => {
            let shown_a = ShownRow { outputs, row: a };
            let shown_b = ShownRow { outputs, row: b };
            !differs_in_order(&view.order, &shown_a, &shown_b)
        }
        (Outputs::Groups { by, .. }, Materialized::Groups(groups)) => {
            !differs_in_tuple(by, a, b) && !differs_in_columns(groups.columns(), a, b)
        }
        _ => false,
    }
}
