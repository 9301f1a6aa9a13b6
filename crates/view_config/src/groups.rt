//! Reads the columns that rows are grouped by.

ghost use Rattle.std.specs.Prelude.{◌≡◌};
ghost use Rattle.toml.specs.View.{items_view, view};
ghost use Rattle.values.specs.Reading.{Yields};
ghost use Rattle.view_config.specs.Numbers.{is_number_in, repeats_number};
ghost use Rattle.view_config.specs.Outputs.{distinct_numbers, group_of, grouping_column};
ghost use Rattle.view_config.specs.Reading.{Answers};
ghost use Rattle.view_config.specs.Tree.{each_item};

use crate::faults::ConfigFault;
use crate::scope::{Scope, ordered_reference};
use crate::tree::items_in;
use std::alloc::Global;
use toml::Value;

/// Whether a number is among these.
#[tactic(auto, using(crate::proofs::Numbers::numbering))]
pub(crate) fn is_number_in(numbers: &[usize], number: usize) -> bool
    ensures { result ≡ is_number_in numbers.now number }
{
    for other in numbers {
        if number == *other {
            return true;
        }
    }
    false
}

#[tactic(auto, using(crate::proofs::Numbers::numbering))]
fn repeats_number(numbers: &[usize]) -> bool
    ensures { result ≡ repeats_number numbers.now }
{
    for index in 0..numbers.len() {
        if is_number_in(&numbers[index + 1..], numbers[index]) {
            return true;
        }
    }
    false
}

/// Refuses a column that is there twice, as `DuplicateColumn`.
pub(crate) fn check_distinct_numbers(numbers: &[usize]) -> Result<(), ConfigFault>
    ensures { Yields (λ u. u) result (distinct_numbers numbers.now) }
{
    if repeats_number(numbers) {
        return Err(ConfigFault::DuplicateColumn);
    }
    Ok(())
}

#[tactic(auto, using(crate::proofs::Causes::causes), unfolding(crate::specs::Outputs::grouping_column))]
fn grouping_column(scope: &Scope, value: &Value) -> Result<usize, ConfigFault>
    ensures { Yields (λ n. n) result (grouping_column scope.now (view value.now)) }
{
    let (number, _) = ordered_reference(scope, value)?;
    Ok(number)
}

#[tactic(auto, using(crate::proofs::GatheredItems::gathering, crate::proofs::Causes::failing))]
fn read_each_grouping(
    alloc: Global,
    scope: &Scope,
    values: &[Value],
) -> Result<Vec<usize>, ConfigFault>
    ensures { Answers (λ ns. ns.items) result (each_item (grouping_column scope.now) (items_view values.now)) }
{
    let mut by = Vec::new(alloc);
    for value in values {
        by.push(grouping_column(scope, value)?)?;
    }
    Ok(by)
}

/// Reads the columns that rows are grouped by, as their numbers in joined rows.
#[tactic(auto, using(crate::proofs::Causes::failing), unfolding(crate::specs::Outputs::group_of))]
pub(crate) fn read_group(
    alloc: Global,
    scope: &Scope,
    value: &Value,
) -> Result<Vec<usize>, ConfigFault>
    ensures { Answers (λ ns. ns.items) result (group_of scope.now (view value.now)) }
{
    let by = read_each_grouping(alloc, scope, items_in(value)?)?;
    check_distinct_numbers(&by)?;
    Ok(by)
}
