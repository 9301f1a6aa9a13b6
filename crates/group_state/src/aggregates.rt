//! The aggregates of groups: which columns groups accumulate for each, and what it shows of a group.

ghost use Rattle.group_state.specs.Aggregates.{AreReadBy, IsAccumulated, accumulated_for, reads, seen_cell};
ghost use Rattle.group_state.specs.declared.accumulated_columns.AccumulatedColumn.{AccumulatedColumn};
ghost use Rattle.std.specs.Prelude.{All, Bool, IfOk, OnOk, true, ◌≡◌, ℕ};
ghost use Rattle.values.specs.CellViews.{shallow, viewed};
ghost use Rattle.view_lang.specs.declared.aggregate.Aggregate.{Aggregate};

use crate::accumulated_columns::{AccumulatedColumn, keep};
use crate::cells::{count, no_value};
use crate::group::Group;
use crate::tuple::Tuple;
use std::alloc::{AllocError, Global};
use values::{CellView, Value};
use view_lang::{Aggregate, GroupOutput};

/// The columns that outputs count, sum or compare, each once in each form that is read.
pub(crate) fn accumulated_columns(
    alloc: Global,
    outputs: &[GroupOutput],
) -> Result<Vec<AccumulatedColumn>, AllocError>
    ensures kept { IfOk result (λ columns. All (λ o. IsAccumulated columns.items o.aggregate) outputs.now) }
    ensures read { IfOk result (λ columns. AreReadBy outputs.now columns.items) }
{
    let mut columns = Vec::new(alloc);
    for output in outputs {
        keep_read(&mut columns, output.aggregate)?;
    }
    Ok(columns)
}

/// The column that groups accumulate for an output, in the form that the output reads.
fn accumulated_for(aggregate: Aggregate) -> Option<AccumulatedColumn>
    ensures { result ≡ accumulated_for aggregate }
{
    match aggregate {
        Aggregate::Key(_) | Aggregate::Count => None,
        Aggregate::CountOf(column) | Aggregate::Sum(column) => {
            Some(AccumulatedColumn::counted(column))
        }
        Aggregate::Distinct(column) | Aggregate::Least(column) | Aggregate::Greatest(column) => {
            Some(AccumulatedColumn::valued(column))
        }
    }
}

/// Adds the column that an output reads, if it reads one, in the form that it reads.
fn keep_read(columns: &mut Vec<AccumulatedColumn>, aggregate: Aggregate) -> Result<(), AllocError>
    ensures here { OnOk result (IsAccumulated columns.new.items aggregate) }
    ensures still { OnOk result ((a : Aggregate) → IsAccumulated columns.old.items a
        → IsAccumulated columns.new.items a) }
    ensures only { OnOk result ((p : ℕ → Bool) → ((k : ℕ) → reads aggregate k ≡ true → p k ≡ true)
        → All (λ k. p k.column ≡ true) columns.old.items → All (λ k. p k.column ≡ true) columns.new.items) }
{
    match accumulated_for(aggregate) {
        Some(column) => keep(columns, column),
        None => Ok(()),
    }
}

/// What an output shows of a group.
pub(crate) fn read_cell(
    alloc: Global,
    aggregate: Aggregate,
    tuple: &Tuple,
    group: &Group,
    columns: &[AccumulatedColumn],
) -> Result<Value, AllocError>
    ensures { IfOk result (λ cell. cell ≡ seen_cell columns.now (tuple.now, group.now) aggregate) }
{
    match aggregate {
        Aggregate::Key(k) => Ok(tuple.cell(alloc, k)?),
        Aggregate::Count => Ok(count(group.rows())),
        Aggregate::CountOf(k) => match group.tally(columns, AccumulatedColumn::counted(k)) {
            Some(tally) => Ok(tally.count_cell()),
            None => Ok(no_value()),
        },
        Aggregate::Distinct(k) => match group.tally(columns, AccumulatedColumn::valued(k)) {
            Some(tally) => Ok(tally.distinct_cell()),
            None => Ok(no_value()),
        },
        Aggregate::Sum(k) => match group.tally(columns, AccumulatedColumn::counted(k)) {
            Some(tally) => Ok(tally.sum_cell()),
            None => Ok(no_value()),
        },
        Aggregate::Least(k) => match group.tally(columns, AccumulatedColumn::valued(k)) {
            Some(tally) => Ok(tally.least_cell(alloc)?),
            None => Ok(no_value()),
        },
        Aggregate::Greatest(k) => match group.tally(columns, AccumulatedColumn::valued(k)) {
            Some(tally) => Ok(tally.greatest_cell(alloc)?),
            None => Ok(no_value()),
        },
    }
}

/// What an output shows of a group, where it lies.
pub(crate) fn view_cell<'a>(
    aggregate: Aggregate,
    tuple: &'a Tuple,
    group: &'a Group,
    columns: &[AccumulatedColumn],
) -> CellView<'a>
    ensures { viewed result ≡ shallow (seen_cell columns.now (tuple.now, group.now) aggregate) }
{
    match aggregate {
        Aggregate::Key(k) => tuple.view(k),
        Aggregate::Count => CellView::Int(group.rows() as i128),
        Aggregate::CountOf(k) => match group.tally(columns, AccumulatedColumn::counted(k)) {
            Some(tally) => tally.view_count(),
            None => CellView::Null,
        },
        Aggregate::Distinct(k) => match group.tally(columns, AccumulatedColumn::valued(k)) {
            Some(tally) => tally.view_distinct(),
            None => CellView::Null,
        },
        Aggregate::Sum(k) => match group.tally(columns, AccumulatedColumn::counted(k)) {
            Some(tally) => tally.view_sum(),
            None => CellView::Null,
        },
        Aggregate::Least(k) => match group.tally(columns, AccumulatedColumn::valued(k)) {
            Some(tally) => tally.view_least(),
            None => CellView::Null,
        },
        Aggregate::Greatest(k) => match group.tally(columns, AccumulatedColumn::valued(k)) {
            Some(tally) => tally.view_greatest(),
            None => CellView::Null,
        },
    }
}
