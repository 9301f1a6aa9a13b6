//! The order of values.

ghost use Rattle.std.specs.Prelude.{◌≡◌};
ghost use Rattle.values.specs.CellViews.{viewed};
ghost use Rattle.values.specs.Order.{datum_cmp, kind_of};

use crate::cell_view::CellView;
use crate::cells::Value;
use std::cmp::Ordering;

/// False before true, numbers by value, texts and bytes by their bytes (a prefix comes before its continuation), nulls
/// last.
///
/// Values of one column are of one kind or null. Two kinds are in the order of their variants in `Kind`, nulls last, so
/// that the order is total. Lists have no order among themselves, and structs have none: they compare as equal.
#[tactic(auto, using(crate::proofs::ShallowLemmas::shallow_laws))]
pub fn cmp_values(a: &Value, b: &Value) -> Ordering
    ensures { result ≡ datum_cmp a.now b.now }
{
    cmp_cells(a.view(), b.view())
}

/// The order of `cmp_values`.
pub fn cmp_cells(a: CellView<'_>, b: CellView<'_>) -> Ordering
    ensures { result ≡ datum_cmp (viewed a.entry) (viewed b.entry) }
{
    match (a, b) {
        (CellView::Bool(x), CellView::Bool(y)) => x.cmp(&y),
        (CellView::Int(x), CellView::Int(y)) => x.cmp(&y),
        (CellView::Utf8(x), CellView::Utf8(y)) => x.cmp(y),
        (CellView::Binary(x), CellView::Binary(y)) => x.cmp(y),
        _ => rank(a).cmp(&rank(b)),
    }
}

/// The position of a cell's kind among the kinds.
fn rank(cell: CellView<'_>) -> u8
    ensures { result ≡ kind_of (viewed cell.entry) }
{
    match cell {
        CellView::Bool(_) => 0,
        CellView::Int(_) => 1,
        CellView::Utf8(_) => 2,
        CellView::Binary(_) => 3,
        CellView::List => 4,
        CellView::Struct => 5,
        CellView::Null => 6,
    }
}
