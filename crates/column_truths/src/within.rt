//! Which columns a filter names, and that others don't change its truth.

ghost use Rattle.std.specs.Prelude.{◌<◌};
ghost use Rattle.std.specs.Bool.{IsTrue};
ghost use Rattle.std.proofs.Math.Logic.{◌↔◌};
ghost use Rattle.view_lang.specs.Filter.{parts_of};
ghost use Rattle.column_truths.specs.RowTruths.{AreWithin, IsWithin, OperandIsWithin, TruthIsOfFirstCells};

use view_lang::{Filter, Operand, Test};

/// A filter that names the columns of a row alone has the same truth on that row with more cells after it. It does
/// nothing: its contract is the theorem.
#[tactic(auto, using(crate::proofs::FirstCells::cell_laws))]
pub fn first_cells_law()
    ensures { TruthIsOfFirstCells }
{}

fn operand_is_within(operand: &Operand, columns: usize) -> bool
    ensures { IsTrue result ↔ OperandIsWithin columns operand.now }
{
    match operand {
        Operand::Constant(_) => true,
        Operand::Column(column) => *column < columns,
    }
}

/// Whether a filter names none but the first `columns` columns.
#[cycle(is_within)]
#[tactic(auto, using(view_lang::proofs::Truths::part_smaller))]
pub fn is_within(filter: &Filter, columns: usize) -> bool
    ensures { IsTrue result ↔ IsWithin columns filter.now }
{
    match &filter.test {
        Test::Compare { column, with, .. } => *column < columns && operand_is_within(with, columns),
        Test::IsNull(column) => *column < columns,
        Test::Not(part) => is_within(part, columns),
        Test::And(parts) => are_within(parts, columns),
        Test::Or(parts) => are_within(parts, columns),
    }
}

/// Whether all of the filters name none but these.
#[cycle(is_within)]
#[tactic(auto, using(crate::proofs::FirstCells::within_laws, view_lang::proofs::Truths::part_smaller))]
fn are_within(parts: &[Filter], columns: usize) -> bool
    ensures { IsTrue result ↔ AreWithin columns (parts_of parts.now) }
{
    for part in parts {
        if !is_within(part, columns) {
            return false;
        }
    }
    true
}
