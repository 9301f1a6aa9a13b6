//! Reads by which outputs the rows of a view are sorted, and how many it shows.

ghost use Rattle.std.specs.Prelude.{◌≡◌, IfOk, map};
ghost use Rattle.toml.specs.View.{items_view as items, view};
ghost use Rattle.values.specs.Reading.{Yields};
ghost use Rattle.view_lang.specs.OutputsSeen.{outputs_of as seen};
ghost use Rattle.view_config.specs.Outputs.{names_of, shown_in};
ghost use Rattle.view_config.specs.Reading.{Answers};
ghost use Rattle.view_config.specs.Tables.{key_of};
ghost use Rattle.view_config.specs.Tree.{data_of, each_item};
ghost use Rattle.view_config.specs.Views.{direction_by, first_of, numbers_of, order_by_of as sorts, order_in, order_of};
ghost use Rattle.view_config.specs.Views.{perhaps};

use crate::faults::ConfigFault;
use crate::groups::check_distinct_numbers;
use crate::limits::MAX_FIRST;
use crate::naming::find_name;
use crate::outputs::names_of;
use crate::scope::Scope;
use crate::shown::is_output_ordered;
use crate::tree::{items_in, pair_in};
use std::alloc::{AllocError, Global};
use toml::Value;
use view_lang::{Direction, OrderBy, Outputs};

fn direction_by(word: &str) -> Option<Direction>
    ensures { result ≡ direction_by word.now }
{
    if word == "asc" {
        Some(Direction::Ascending)
    } else if word == "desc" {
        Some(Direction::Descending)
    } else {
        None
    }
}

/// The position of the output of this name among the outputs; `OrderType` where its values have no order.
#[tactic(auto, using(crate::proofs::OutputNames::naming_outputs))]
fn sorting_column(
    scope: &Scope,
    outputs: &Outputs,
    names: &[&str],
    name: &str,
) -> Result<usize, ConfigFault>
    requires { map (λ n. n.now) names.now ≡ names_of (seen outputs.now) }
    ensures { Yields (λ n. n) result (key_of (shown_in scope.now outputs.now) name.now) }
{
    let Some(place) = find_name(names, name) else {
        return Err(ConfigFault::UnknownName);
    };
    if is_output_ordered(scope, outputs, place) {
        Ok(place)
    } else {
        Err(ConfigFault::OrderType)
    }
}

/// Reads `[output name, "asc"]` or `[output name, "desc"]`.
#[tactic(auto, using(crate::proofs::Causes::causes), unfolding(crate::specs::Views::order_by_of))]
fn read_order_by(
    scope: &Scope,
    outputs: &Outputs,
    names: &[&str],
    value: &Value,
) -> Result<OrderBy, ConfigFault>
    requires { map (λ n. n.now) names.now ≡ names_of (seen outputs.now) }
    ensures { Yields (λ o. o) result (sorts (shown_in scope.now outputs.now) (view value.now)) }
{
    let (name, word) = pair_in(value).ok_or(ConfigFault::Shape)?;
    let name = name.as_str().ok_or(ConfigFault::Shape)?;
    let word = word.as_str().ok_or(ConfigFault::Shape)?;
    let direction = direction_by(word).ok_or(ConfigFault::Shape)?;
    let column = sorting_column(scope, outputs, names, name)?;
    Ok(OrderBy { column, direction })
}

#[tactic(auto, using(crate::proofs::GatheredItems::gathering, crate::proofs::Causes::failing))]
fn read_each_order_by(
    alloc: Global,
    scope: &Scope,
    outputs: &Outputs,
    names: &[&str],
    values: &[Value],
) -> Result<Vec<OrderBy>, ConfigFault>
    requires { map (λ n. n.now) names.now ≡ names_of (seen outputs.now) }
    ensures { Answers (λ os. os.items) result (each_item (sorts (shown_in scope.now outputs.now)) (items values.now)) }
{
    let mut order = Vec::new(alloc);
    for value in values {
        order.push(read_order_by(scope, outputs, names, value)?)?;
    }
    Ok(order)
}

#[tactic(auto, using(crate::proofs::Numbers::numbering))]
fn numbers_of(alloc: Global, order: &[OrderBy]) -> Result<Vec<usize>, AllocError>
    ensures { IfOk result (λ ns. ns.items ≡ numbers_of order.now) }
{
    let mut numbers = Vec::new(alloc);
    for by in order {
        numbers.push(by.column)?;
    }
    Ok(numbers)
}

#[tactic(auto, using(crate::proofs::Causes::failing), unfolding(crate::specs::Views::order_of))]
fn read_order(
    alloc: Global,
    scope: &Scope,
    outputs: &Outputs,
    value: &Value,
) -> Result<Vec<OrderBy>, ConfigFault>
    ensures { Answers (λ os. os.items) result (order_of (shown_in scope.now outputs.now) (view value.now)) }
{
    let values = items_in(value)?;
    let names = names_of(alloc, outputs)?;
    let order = read_each_order_by(alloc, scope, outputs, &names, values)?;
    check_distinct_numbers(&numbers_of(alloc, &order)?)?;
    Ok(order)
}

/// Reads the outputs by which a view is sorted: none where there is no such entry.
pub(crate) fn read_order_at(
    alloc: Global,
    scope: &Scope,
    outputs: &Outputs,
    value: Option<&Value>,
) -> Result<Vec<OrderBy>, ConfigFault>
    ensures { Answers (λ os. os.items) result (order_in (shown_in scope.now outputs.now) (data_of value.entry)) }
{
    match value {
        Some(value) => read_order(alloc, scope, outputs, value),
        None => Ok(Vec::new(alloc)),
    }
}

fn first_of(value: &Value) -> Result<usize, ConfigFault>
    ensures { Yields (λ n. n) result (first_of (view value.now)) }
{
    match value {
        Value::Integer(number) => {
            if 0 <= *number && *number <= MAX_FIRST {
                Ok(*number as usize)
            } else {
                Err(ConfigFault::OverLimit)
            }
        }
        _ => Err(ConfigFault::Shape),
    }
}

/// Reads how many rows a view shows at most, if that is given.
#[tactic(auto, using(crate::proofs::Causes::causes))]
pub(crate) fn read_first(value: Option<&Value>) -> Result<Option<usize>, ConfigFault>
    ensures { Yields (λ n. n) result (perhaps first_of (data_of value.entry)) }
{
    match value {
        Some(value) => Ok(Some(first_of(value)?)),
        None => Ok(None),
    }
}
