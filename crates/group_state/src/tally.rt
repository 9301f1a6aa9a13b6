//! Tallies of the cells of one column of a group.

ghost use Rattle.std.specs.Prelude.{◌≡◌, ◌<◌, ◌∷◌, ◌++◌, ◌+◌, List, OnOk, IfOk, length};
ghost use Rattle.values.specs.CellViews.{shallow, viewed};
ghost use Rattle.values.specs.Datum.{Datum};
ghost use Rattle.group_state.specs.Cells.{KeepsCells, KeepsValues, fresh};
ghost use Rattle.group_state.specs.GroupParts.{IsTally, tally_with};
ghost use Rattle.group_state.specs.Seen.{seen_count, seen_distinct, seen_greatest, seen_least, seen_sum};
ghost use Rattle.group_state.specs.Rows.{cell};
ghost use Rattle.group_state.specs.declared.accumulated_columns.AccumulatorForm.{AccumulatorForm};
ghost use Rattle.view_lang.specs.Limits.{max_appended_rows};

use crate::accumulated_columns::AccumulatorForm;
use crate::cells::{count, no_value, whole};
use crate::multiset::Multiset;
use crate::parts::TallyParts;
use crate::row_cells::filled_key_at;
use crate::total::Total;
use std::alloc::{AllocError, Global};
use values::{CellView, Value};
use view_lang::RowView;

/// What is stored for a column of a group, in one form.
#[derive(Debug, Drop)]
pub enum Tally {
    /// How many cells aren't null, and their sum.
    Total(Total),
    /// The multiset of the cells that are neither null nor lists nor structs.
    Values(Multiset),
}

impl Tally {
    /// The tally of no cells, in this form.
    pub(crate) fn new(form: AccumulatorForm) -> Tally
        ensures { result ≡ fresh form }
    {
        match form {
            AccumulatorForm::Total => Tally::Total(Total {
                filled: 0,
                total: 0,
            }),
            AccumulatorForm::Values => Tally::Values(Multiset::new()),
        }
    }

    pub(crate) fn into_parts(self, alloc: Global) -> Result<TallyParts, AllocError>
        ensures value { IfOk result (λ parts. tally_with parts ≡ self) }
        ensures kept { IfOk result (λ parts. IsTally parts) }
    {
        match self {
            Tally::Total(total) => Ok(TallyParts::Total(total)),
            Tally::Values(values) => Ok(TallyParts::Values(values.into_parts(alloc)?)),
        }
    }

    pub(crate) fn from_parts(alloc: Global, parts: TallyParts) -> Result<Tally, AllocError>
        requires { IsTally parts }
        ensures { IfOk result (λ tally. tally ≡ tally_with parts) }
    {
        match parts {
            TallyParts::Total(total) => Ok(Tally::Total(total)),
            TallyParts::Values(values) => Ok(Tally::Values(Multiset::from_parts(alloc, values)?)),
        }
    }

    /// How many cells aren't null.
    pub(crate) fn count_cell(&self) -> Value
        ensures { result ≡ seen_count self.now }
    {
        match self {
            Tally::Total(total) => count(total.filled),
            Tally::Values(_) => no_value(),
        }
    }

    /// How many distinct values the cells have, nulls left out.
    pub(crate) fn distinct_cell(&self) -> Value
        ensures { result ≡ seen_distinct self.now }
    {
        match self {
            Tally::Total(_) => no_value(),
            Tally::Values(values) => count(values.count_distinct() as u64),
        }
    }

    /// The sum of the cells; null where all are null. It wraps around 128 bits.
    pub(crate) fn sum_cell(&self) -> Value
        ensures { result ≡ seen_sum self.now }
    {
        match self {
            Tally::Total(total) if total.filled > 0 => whole(total.total),
            _ => no_value(),
        }
    }

    /// The least of the cells; null where all are null.
    pub(crate) fn least_cell(&self, alloc: Global) -> Result<Value, AllocError>
        ensures { IfOk result (λ cell. cell ≡ seen_least self.now) }
    {
        match self {
            Tally::Total(_) => Ok(no_value()),
            Tally::Values(values) => values.least_value(alloc),
        }
    }

    /// The greatest of the cells; null where all are null.
    pub(crate) fn greatest_cell(&self, alloc: Global) -> Result<Value, AllocError>
        ensures { IfOk result (λ cell. cell ≡ seen_greatest self.now) }
    {
        match self {
            Tally::Total(_) => Ok(no_value()),
            Tally::Values(values) => values.greatest_value(alloc),
        }
    }

    /// How many cells aren't null, as a cell.
    pub(crate) fn view_count(&self) -> CellView<'_>
        ensures { viewed result ≡ seen_count self.now }
    {
        match self {
            Tally::Total(total) => CellView::Int(total.filled as i128),
            Tally::Values(_) => CellView::Null,
        }
    }

    /// How many distinct values the cells have, as a cell.
    pub(crate) fn view_distinct(&self) -> CellView<'_>
        ensures { viewed result ≡ seen_distinct self.now }
    {
        match self {
            Tally::Total(_) => CellView::Null,
            Tally::Values(values) => CellView::Int(values.count_distinct() as i128),
        }
    }

    /// The sum of the cells, as a cell; null where all are null.
    pub(crate) fn view_sum(&self) -> CellView<'_>
        ensures { viewed result ≡ seen_sum self.now }
    {
        match self {
            Tally::Total(total) if total.filled > 0 => CellView::Int(total.total),
            _ => CellView::Null,
        }
    }

    /// The least of the cells where it lies; null where all are null.
    pub(crate) fn view_least(&self) -> CellView<'_>
        ensures { viewed result ≡ shallow (seen_least self.now) }
    {
        match self {
            Tally::Total(_) => CellView::Null,
            Tally::Values(values) => values.view_least(),
        }
    }

    /// The greatest of the cells where it lies; null where all are null.
    pub(crate) fn view_greatest(&self) -> CellView<'_>
        ensures { viewed result ≡ shallow (seen_greatest self.now) }
    {
        match self {
            Tally::Total(_) => CellView::Null,
            Tally::Values(values) => values.view_greatest(),
        }
    }

    /// Adds a row's cell.
    pub(crate) fn add<R: RowView>(
        &mut self,
        alloc: Global,
        row: &R,
        column: usize,
    ) -> Result<(), AllocError>
        requires { (form : AccumulatorForm) × (cells : List Datum)
            × (KeepsCells form self.old cells × (length cells < max_appended_rows)) }
        ensures { OnOk result ((form : AccumulatorForm) (cells : List Datum) → KeepsCells form self.old cells
            → KeepsCells form self.new (cell column (R.cells row.now) ∷ cells)) }
    {
        match self {
            Tally::Total(total) => {
                total.add(row, column);
                Ok(())
            }
            Tally::Values(values) => {
                add_value(values, alloc, row, column)?;
                Ok(())
            }
        }
    }

    /// Removes a row's cell.
    pub(crate) fn remove<R: RowView>(
        &mut self,
        alloc: Global,
        row: &R,
        column: usize,
    ) -> Result<(), AllocError>
        ensures { OnOk result ((form : AccumulatorForm) (cells : List Datum)
            → KeepsCells form self.old (cell column (R.cells row.now) ∷ cells) → KeepsCells form self.new cells) }
    {
        match self {
            Tally::Total(total) => {
                total.remove(row, column);
                Ok(())
            }
            Tally::Values(values) => {
                remove_value(values, alloc, row, column)?;
                Ok(())
            }
        }
    }

    /// Adds the cells of another tally of the same form.
    pub(crate) fn take_in(&mut self, alloc: Global, other: &Tally) -> Result<(), AllocError>
        requires { (form : AccumulatorForm) × (rest : List Datum) × (moved : List Datum)
            × (KeepsCells form self.old rest × (KeepsCells form other.now moved
            × (length rest + length moved < max_appended_rows))) }
        ensures { OnOk result ((form : AccumulatorForm) (rest moved : List Datum) → KeepsCells form self.old rest
            → KeepsCells form other.now moved → KeepsCells form self.new (moved ++ rest)) }
    {
        match (self, other) {
            (Tally::Total(total), Tally::Total(other)) => total.take_in(other),
            (Tally::Values(values), Tally::Values(other)) => take_in_values(values, alloc, other)?,
            (Tally::Total(_), Tally::Values(_)) => {}
            (Tally::Values(_), Tally::Total(_)) => {}
        }
        Ok(())
    }

    /// Removes the cells of another tally of the same form.
    pub(crate) fn give_up(&mut self, other: &Tally)
        ensures { (form : AccumulatorForm) (rest moved : List Datum) → KeepsCells form self.old (moved ++ rest)
            → KeepsCells form other.now moved → KeepsCells form self.new rest }
    {
        match (self, other) {
            (Tally::Total(total), Tally::Total(other)) => total.give_up(other),
            (Tally::Values(values), Tally::Values(other)) => give_up_values(values, other),
            (Tally::Total(_), Tally::Values(_)) => {}
            (Tally::Values(_), Tally::Total(_)) => {}
        }
    }
}

/// Adds the values of other cells.
fn take_in_values(values: &mut Multiset, alloc: Global, other: &Multiset) -> Result<(), AllocError>
    requires { (rest : List Datum) × (moved : List Datum)
        × (KeepsValues values.old rest × (KeepsValues other.now moved
        × (length rest + length moved < max_appended_rows))) }
    ensures { OnOk result ((rest moved : List Datum) → KeepsValues values.old rest → KeepsValues other.now moved
        → KeepsValues values.new (moved ++ rest)) }
{
    values.take_in(alloc, other)?;
    let _size = values.count_distinct();
    Ok(())
}

/// Removes the values of other cells.
fn give_up_values(values: &mut Multiset, other: &Multiset)
    ensures { (rest moved : List Datum) → KeepsValues values.old (moved ++ rest) → KeepsValues other.now moved
        → KeepsValues values.new rest }
{
    values.give_up(other);
    let _size = values.count_distinct();
}

/// Adds the value of a row's cell, if it has one with an order.
fn add_value<R: RowView>(
    values: &mut Multiset,
    alloc: Global,
    row: &R,
    column: usize,
) -> Result<(), AllocError>
    requires { (cells : List Datum) × (KeepsValues values.old cells × (length cells < max_appended_rows)) }
    ensures { OnOk result ((cells : List Datum) → KeepsValues values.old cells
        → KeepsValues values.new (cell column (R.cells row.now) ∷ cells)) }
{
    if let Some(key) = filled_key_at(alloc, row, column)? {
        values.add(alloc, key)?;
        let _size = values.count_distinct();
    }
    Ok(())
}

/// Removes the value of a row's cell, if it has one with an order.
fn remove_value<R: RowView>(
    values: &mut Multiset,
    alloc: Global,
    row: &R,
    column: usize,
) -> Result<(), AllocError>
    ensures { OnOk result ((cells : List Datum) → KeepsValues values.old (cell column (R.cells row.now) ∷ cells)
        → KeepsValues values.new cells) }
{
    if let Some(key) = filled_key_at(alloc, row, column)? {
        values.remove(&key);
        let _size = values.count_distinct();
    }
    Ok(())
}
