//! The columns that a filter names.

ghost use Rattle.std.specs.Prelude.{◌≡◌, ◌==◌};
ghost use Rattle.std.specs.List.{list_any};
ghost use Rattle.view_lang.specs.Filter.{parts_of};
ghost use Rattle.sub_groups.specs.FilterParts.{has, name_only, names_only, operand_names};

use view_lang::{Filter, Operand, Test};

/// Some columns of joined rows. The columns of the main table come first; it has `width`.
#[derive(Clone, Copy)]
pub(crate) enum Columns<'a> {
    /// All columns of the main table.
    Main { width: usize },
    /// These of the main table, and those of the side table.
    Known { width: usize, keys: &'a [usize] },
}

/// Whether a column is among others.
pub(crate) fn is_among(columns: &[usize], column: usize) -> bool
    ensures { result ≡ list_any (λ j. j == column) columns.now }
{
    for other in columns {
        if *other == column {
            return true;
        }
    }
    false
}

impl<'a> Columns<'a> {
    fn has(self, column: usize) -> bool
        ensures { result ≡ has self.entry column }
    {
        match self {
            Columns::Main { width } => column < width,
            Columns::Known { width, keys } => column >= width || is_among(keys, column),
        }
    }
}

fn operand_names(operand: &Operand, columns: Columns<'_>) -> bool
    ensures { result ≡ operand_names (has columns.entry) operand.now }
{
    match operand {
        Operand::Constant(_) => true,
        Operand::Column(column) => columns.has(*column),
    }
}

/// Whether a filter names none but these columns.
#[cycle(names_only)]
#[tactic(auto, using(view_lang::proofs::Truths::part_smaller))]
pub(crate) fn names_only(filter: &Filter, columns: Columns<'_>) -> bool
    ensures { result ≡ names_only (has columns.entry) filter.now }
{
    match &filter.test {
        Test::Compare { column, with, .. } => columns.has(*column) && operand_names(with, columns),
        Test::IsNull(column) => columns.has(*column),
        Test::Not(part) => names_only(part, columns),
        Test::And(parts) => name_only(parts, columns),
        Test::Or(parts) => name_only(parts, columns),
    }
}

/// Whether all of the filters name none but these.
#[cycle(names_only)]
#[tactic(auto, using(view_lang::proofs::Truths::part_smaller))]
fn name_only(parts: &[Filter], columns: Columns<'_>) -> bool
    ensures { result ≡ name_only (has columns.entry) (parts_of parts.now) }
{
    for part in parts {
        if !names_only(part, columns) {
            return false;
        }
    }
    true
}
