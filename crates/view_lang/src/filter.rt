//! Filters, and their truth for a row.

ghost use Rattle.std.specs.Prelude.{◌≡◌, IfOk};
ghost use Rattle.values.specs.CellViews.{viewed};
ghost use Rattle.view_lang.specs.Filter.{parts_of};
ghost use Rattle.view_lang.specs.Truth.{
  both as both_by,
  compared as compared_by,
  either as either_by,
  negated as negated_by,
  passes as passes_by,
  truth,
  truth_of_all as all_by,
  truth_of_any as any_by,
};

use crate::row_view::RowView;
use crate::view::View;
use std::alloc::{AllocError, Global};
use std::marker::Model;
use values::{CellView, Value, cmp_cells};

/// A comparison of two cells, by the order of values.
#[derive(Clone, Copy, Debug, PartialEq, Eq)]
pub enum Comparison {
    /// `eq`: the two are equal.
    Equal,
    /// `ne`: the two aren't equal.
    Different,
    /// `lt`: the first comes before the second.
    Below,
    /// `le`: the first doesn't come after the second.
    AtMost,
    /// `gt`: the first comes after the second.
    Above,
    /// `ge`: the first doesn't come before the second.
    AtLeast,
}

/// What a cell is compared with.
#[derive(Debug, Drop)]
pub enum Operand {
    /// This value.
    Constant(Value),
    /// The cell of this column.
    Column(usize),
}

impl Operand {
    /// An equal operand with memory of its own.
    pub fn copy(&self, alloc: Global) -> Result<Operand, AllocError>
        ensures { IfOk result (λ o. o ≡ self.now) }
    {
        match self {
            Operand::Constant(value) => Ok(Operand::Constant(value.copy(alloc)?)),
            Operand::Column(column) => Ok(Operand::Column(*column)),
        }
    }
}

/// A test of rows: of joined rows, or of the rows of groups. Contracts see it as a `Filter` of `specs/Filter.antt`.
#[cycle(filter)]
#[derive(Debug, Drop)]
pub struct Filter {
    pub test: Test,
}

/// The kinds of tests.
#[cycle(filter)]
#[derive(Debug, Drop)]
pub enum Test {
    /// The cell of a column, compared with a constant or the cell of another column. It is unknown where one is null.
    Compare {
        comparison: Comparison,
        column: usize,
        with: Operand,
    },
    /// The cell of this column is null.
    IsNull(usize),
    /// The filter is false: unknown where that filter is.
    Not(Box<Filter>),
    /// All are true: false where one is false, else unknown where one is unknown.
    And(Vec<Filter>),
    /// At least one is true: otherwise unknown where one is unknown, else false.
    Or(Vec<Filter>),
}

impl Model for Filter {
    ghost use Rattle.view_lang.specs.Filter as seen;

    ghost Value = { seen.Filter };

    ghost coded = { seen.filter_code };

    ghost use Rattle.view_lang.specs.FilterSeen.{filter_of};

    ghost view = { λ f. filter_of f.test };

    ghost size = { seen.filter_size };

    ghost use Rattle.std.proofs.Common.{arith};
    ghost use Rattle.view_lang.specs.FilterSizes.{deep_le-filter_size};

    ghost size_decreases = { λ f h. Prim.omega (arith, deep_le-filter_size f.test) };
}

/// The truth of a comparison of two cells; `None`, which is unknown, where one is null.
fn compared(comparison: Comparison, a: CellView<'_>, b: CellView<'_>) -> Option<bool>
    ensures { result ≡ compared_by comparison (viewed a.entry) (viewed b.entry) }
{
    if a.is_null() || b.is_null() {
        return None;
    }
    let order = cmp_cells(a, b);
    Some(match comparison {
        Comparison::Equal => order.is_eq(),
        Comparison::Different => order.is_ne(),
        Comparison::Below => order.is_lt(),
        Comparison::AtMost => order.is_le(),
        Comparison::Above => order.is_gt(),
        Comparison::AtLeast => order.is_ge(),
    })
}

/// The truth of a negation.
fn negated(known: Option<bool>) -> Option<bool>
    ensures { result ≡ negated_by known }
{
    match known {
        Some(truth) => Some(!truth),
        None => None,
    }
}

/// The truth of two filters together.
fn both(a: Option<bool>, b: Option<bool>) -> Option<bool>
    ensures { result ≡ both_by a b }
{
    match (a, b) {
        (Some(false), _) | (_, Some(false)) => Some(false),
        (Some(true), Some(true)) => Some(true),
        _ => None,
    }
}

/// The truth of one filter or another.
fn either(a: Option<bool>, b: Option<bool>) -> Option<bool>
    ensures { result ≡ either_by a b }
{
    match (a, b) {
        (Some(true), _) | (_, Some(true)) => Some(true),
        (Some(false), Some(false)) => Some(false),
        _ => None,
    }
}

impl Filter {
    /// An equal filter with memory of its own.
    #[cycle(copy)]
    pub fn copy(&self, alloc: Global) -> Result<Filter, AllocError>
        ensures { IfOk result (λ f. f ≡ self.now) }
    {
        let test = match &self.test {
            Test::Compare {
                comparison,
                column,
                with,
            } => Test::Compare {
                comparison: *comparison,
                column: *column,
                with: with.copy(alloc)?,
            },
            Test::IsNull(column) => Test::IsNull(*column),
            Test::Not(part) => Test::Not(Box::new(alloc, part.copy(alloc)?)?),
            Test::And(parts) => Test::And(copy_parts(alloc, parts)?),
            Test::Or(parts) => Test::Or(copy_parts(alloc, parts)?),
        };
        Ok(Filter { test })
    }

    /// Whether the filter is true of a row: `None` where that is unknown, since a null is compared.
    #[cycle(truth)]
    #[tactic(auto, using(crate::proofs::ShownCells::compared_cells), unfolding(crate::specs::Truth::truth))]
    pub fn truth<R: RowView>(&self, row: &R) -> Option<bool>
        ensures { result ≡ truth (R.cells row.now) self.now }
    {
        match &self.test {
            Test::Compare {
                comparison,
                column,
                with,
            } => match with {
                Operand::Constant(value) => {
                    compared(*comparison, row.cell(*column), value.view())
                }
                Operand::Column(other) => {
                    compared(*comparison, row.cell(*column), row.cell(*other))
                }
            },
            Test::IsNull(column) => Some(row.cell(*column).is_null()),
            Test::Not(part) => negated(part.truth(row)),
            Test::And(parts) => truth_of_all(parts, row),
            Test::Or(parts) => truth_of_any(parts, row),
        }
    }
}

#[cycle(copy)]
#[tactic(auto, using(crate::proofs::Truths::part_smaller))]
fn copy_parts(alloc: Global, parts: &[Filter]) -> Result<Vec<Filter>, AllocError>
    ensures { IfOk result (λ copies. copies.items ≡ parts.now) }
{
    let mut copies = Vec::with_capacity(alloc, parts.len())?;
    for part in parts {
        copies.push(part.copy(alloc)?)?;
    }
    Ok(copies)
}

/// Whether all of the filters are true.
#[cycle(truth)]
#[tactic(auto, using(crate::proofs::Truths::part_smaller))]
fn truth_of_all<R: RowView>(parts: &[Filter], row: &R) -> Option<bool>
    ensures { result ≡ all_by (R.cells row.now) (parts_of parts.now) }
{
    let mut known = Some(true);
    for part in parts {
        known = both(known, part.truth(row));
    }
    known
}

/// Whether one of the filters is true.
#[cycle(truth)]
#[tactic(auto, using(crate::proofs::Truths::part_smaller))]
fn truth_of_any<R: RowView>(parts: &[Filter], row: &R) -> Option<bool>
    ensures { result ≡ any_by (R.cells row.now) (parts_of parts.now) }
{
    let mut known = Some(false);
    for part in parts {
        known = either(known, part.truth(row));
    }
    known
}

/// Whether a filter, if there is one, is true of a row.
#[tactic(auto, unfolding(crate::specs::Truth::passes))]
pub fn passes<R: RowView>(filter: &Option<Filter>, row: &R) -> bool
    ensures { result ≡ passes_by filter.now (R.cells row.now) }
{
    match filter {
        Some(filter) => filter.truth(row).unwrap_or(false),
        None => true,
    }
}

impl View {
    /// Whether the filter, if there is one, is true of a joined row.
    pub fn keeps<R: RowView>(&self, row: &R) -> bool
        ensures { result ≡ passes_by self.now.filter (R.cells row.now) }
    {
        passes(&self.filter, row)
    }
}
