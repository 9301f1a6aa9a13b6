//! What a view of groups shows: its words, how many fields it has, and whether its values have an order.

ghost use Rattle.std.specs.Prelude.{◌≡◌, [], get_or};
ghost use Rattle.std.specs.Bool.{Decides};
ghost use Rattle.toml.specs.View.{items_view};
ghost use Rattle.values.specs.Reading.{Yields};
ghost use Rattle.values.specs.Rose.{rose_size};
ghost use Rattle.view_lang.specs.Aggregates.{IsAddable, aggregate_field};
ghost use Rattle.view_lang.specs.TableRules.{type_of};
ghost use Rattle.view_config.specs.Aggregates.{
  aggregate_by,
  can_be_summed,
  count_by,
  key_of_group,
  sole_ordered,
  sole_reference,
  sum_of_column,
};
ghost use Rattle.view_config.specs.Columns.{has_order};
ghost use Rattle.view_config.specs.Limits.{IsRoomAfter};
ghost use Rattle.view_config.specs.Numbers.{place_of};
ghost use Rattle.view_config.specs.Scope.{fields_of};

use crate::faults::ConfigFault;
use crate::limits::MAX_SUM_PRECISION;
use crate::scope::{Scope, ordered_reference, reference};
use crate::shown::{is_ordered, room_after_column};
use crate::tree::sole;
use toml::Value;
use values::{ColType, LogicalField};
use view_lang::Aggregate;

/// The index of a number among others.
#[tactic(auto, using(crate::proofs::Numbers::numbering))]
fn place_of(number: usize, numbers: &[usize]) -> Option<usize>
    ensures { result ≡ place_of 0 number numbers.now }
{
    for index in 0..numbers.len() {
        if number == numbers[index] {
            return Some(index);
        }
    }
    None
}

/// The column that the only one of some values names; `Shape` where they aren't one.
#[tactic(auto, using(crate::proofs::Causes::causes))]
pub(crate) fn sole_reference<'a>(
    scope: &Scope<'a>,
    values: &[Value],
) -> Result<(usize, &'a LogicalField), ConfigFault>
    ensures { Yields (λ c. (c.0, c.1.now)) result (sole_reference scope.now (items_view values.now)) }
{
    reference(scope, sole(values).ok_or(ConfigFault::Shape)?)
}

/// The same, where the column's values have an order; else `OrderType`.
#[tactic(auto, using(crate::proofs::Causes::causes))]
fn sole_ordered<'a>(
    scope: &Scope<'a>,
    values: &[Value],
) -> Result<(usize, &'a LogicalField), ConfigFault>
    ensures { Yields (λ c. (c.0, c.1.now)) result (sole_ordered scope.now (items_view values.now)) }
{
    ordered_reference(scope, sole(values).ok_or(ConfigFault::Shape)?)
}

/// The column of this number as a key of the groups; `UnknownName` where rows aren't grouped by it.
fn key_of_group(by: &[usize], number: usize) -> Result<Aggregate, ConfigFault>
    ensures { Yields (λ a. a) result (key_of_group by.now number) }
{
    match place_of(number, by) {
        Some(place) => Ok(Aggregate::Key(place)),
        None => Err(ConfigFault::UnknownName),
    }
}

/// How many rows a group has, or, where the values name a column, how many of its cells aren't null.
#[tactic(auto, using(crate::proofs::Causes::causes, crate::proofs::Arrays::counts))]
fn count_by(scope: &Scope, values: &[Value]) -> Result<Aggregate, ConfigFault>
    ensures { Yields (λ a. a) result (count_by scope.now (items_view values.now)) }
{
    if values.is_empty() {
        return Ok(Aggregate::Count);
    }
    let (number, _) = sole_reference(scope, values)?;
    Ok(Aggregate::CountOf(number))
}

/// Whether columns of a type can be summed. The clause `rule` relates it to the rules of `view_lang`.
fn can_be_summed(col_type: &ColType) -> bool
    ensures value { result ≡ can_be_summed col_type.now }
    ensures rule { Decides result (IsAddable col_type.now) }
{
    match col_type {
        ColType::Int { .. } => true,
        ColType::Decimal { precision, .. } => *precision <= MAX_SUM_PRECISION,
        _ => false,
    }
}

/// The sum of a column; `SumType` where its values can't be summed.
fn sum_of(number: usize, column: &LogicalField) -> Result<Aggregate, ConfigFault>
    ensures { Yields (λ a. a) result (sum_of_column (number, column.now)) }
{
    if can_be_summed(&column.col_type) {
        Ok(Aggregate::Sum(number))
    } else {
        Err(ConfigFault::SumType)
    }
}

/// Reads what an output of a view of groups shows, by its word, as `count`.
#[tactic(auto, using(crate::proofs::Causes::causes), unfolding(crate::specs::Aggregates::aggregate_by))]
pub(crate) fn aggregate_by(
    scope: &Scope,
    by: &[usize],
    word: &str,
    values: &[Value],
) -> Result<Aggregate, ConfigFault>
    ensures { Yields (λ a. a) result (aggregate_by scope.now by.now word.now (items_view values.now)) }
{
    if word == "col" {
        let (number, _) = sole_reference(scope, values)?;
        key_of_group(by, number)
    } else if word == "count" {
        count_by(scope, values)
    } else if word == "distinct" {
        let (number, _) = sole_ordered(scope, values)?;
        Ok(Aggregate::Distinct(number))
    } else if word == "sum" {
        let (number, column) = sole_reference(scope, values)?;
        sum_of(number, column)
    } else if word == "least" {
        let (number, _) = sole_ordered(scope, values)?;
        Ok(Aggregate::Least(number))
    } else if word == "greatest" {
        let (number, _) = sole_ordered(scope, values)?;
        Ok(Aggregate::Greatest(number))
    } else {
        Err(ConfigFault::Shape)
    }
}

/// The number of the grouping column at this index.
fn grouped_at(by: &[usize], place: usize) -> usize
    ensures { result ≡ get_or by.now place 0 }
{
    match by.get(place) {
        Some(number) => *number,
        None => 0,
    }
}

/// `room` less the number of fields of an output of groups by these columns, at all levels; `None` where they are more.
#[tactic(auto, using(crate::proofs::AggregateCases::aggregate_sizes))]
pub(crate) fn room_after_aggregate(
    scope: &Scope,
    by: &[usize],
    aggregate: Aggregate,
    room: u32,
) -> Option<u32>
    ensures { IsRoomAfter room (rose_size (aggregate_field (fields_of scope.now) by.now [] aggregate)) result }
{
    match aggregate {
        Aggregate::Key(place) => { room_after_column(scope, grouped_at(by, place), room) }
        Aggregate::Count | Aggregate::CountOf(_) | Aggregate::Distinct(_) | Aggregate::Sum(_) =>
            room.checked_sub(1),
        Aggregate::Least(number) | Aggregate::Greatest(number) => {
            room_after_column(scope, number, room)
        }
    }
}

/// Whether the values of an output of groups by these columns have an order.
#[tactic(auto, using(crate::proofs::AggregateCases::aggregate_types))]
pub(crate) fn is_aggregate_ordered(scope: &Scope, by: &[usize], aggregate: Aggregate) -> bool
    ensures { result ≡ has_order (type_of (aggregate_field (fields_of scope.now) by.now [] aggregate)) }
{
    match aggregate {
        Aggregate::Key(place) => is_ordered(scope, grouped_at(by, place)),
        Aggregate::Count | Aggregate::CountOf(_) | Aggregate::Distinct(_) | Aggregate::Sum(_) =>
            true,
        Aggregate::Least(number) | Aggregate::Greatest(number) => is_ordered(scope, number),
    }
}
