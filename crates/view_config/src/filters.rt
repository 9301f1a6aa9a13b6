//! Reads filters.

ghost use Rattle.std.specs.Prelude.{◌≡◌};
ghost use Rattle.toml.specs.View.{items_view as items, view};
ghost use Rattle.view_lang.specs.Filter.{filter_size, parts_of, parts_size};
ghost use Rattle.view_config.specs.Filters.{comparison_by, comparison_of, filter_by, filter_of, filter_with};
ghost use Rattle.view_config.specs.Filters.{filters_in, negation_of, null_of, operand_of, whole_filter};
ghost use Rattle.view_config.specs.Limits.{IsRoomAfter};
ghost use Rattle.view_config.specs.Reading.{Answers};
ghost use Rattle.view_config.specs.Tree.{each_item};
ghost use Rattle.values.specs.Reading.{Yields};

use crate::constants::read_constant;
use crate::faults::ConfigFault;
use crate::limits::{MAX_FILTER_DEPTH, MAX_FILTER_PARTS};
use crate::scope::{Scope, ordered_reference, reference};
use crate::tree::{headed, pair, sole};
use std::alloc::Global;
use toml::Value;
use values::ColType;
use view_lang::{Comparison, Filter, Operand, Test};

fn comparison_by(word: &str) -> Option<Comparison>
    ensures { result ≡ comparison_by word.now }
{
    if word == "eq" {
        Some(Comparison::Equal)
    } else if word == "ne" {
        Some(Comparison::Different)
    } else if word == "lt" {
        Some(Comparison::Below)
    } else if word == "le" {
        Some(Comparison::AtMost)
    } else if word == "gt" {
        Some(Comparison::Above)
    } else if word == "ge" {
        Some(Comparison::AtLeast)
    } else {
        None
    }
}

/// Reads what a column of this type is compared with: a reference to another column where it is an array, otherwise a
/// constant.
#[tactic(auto, using(crate::proofs::Causes::failing), unfolding(crate::specs::Filters::operand_of))]
fn read_operand(
    alloc: Global,
    scope: &Scope,
    col_type: &ColType,
    value: &Value,
) -> Result<Operand, ConfigFault>
    ensures { Answers (λ o. o) result (operand_of scope.now col_type.now (view value.now)) }
{
    match value {
        Value::Array(_) => {
            let (number, column) = ordered_reference(scope, value)?;
            if *col_type != column.col_type {
                return Err(ConfigFault::ConstantType);
            }
            Ok(Operand::Column(number))
        }
        _ => Ok(Operand::Constant(read_constant(alloc, col_type, value)?)),
    }
}

/// Reads `[op, REF, X]`.
#[tactic(auto, using(crate::proofs::Causes::failing), unfolding(crate::specs::Filters::comparison_of))]
fn read_comparison(
    alloc: Global,
    scope: &Scope,
    comparison: Comparison,
    values: &[Value],
) -> Result<Filter, ConfigFault>
    ensures { Answers (λ f. f) result (comparison_of scope.now comparison (items values.now)) }
{
    let (column, with) = pair(values).ok_or(ConfigFault::Shape)?;
    let (number, field) = ordered_reference(scope, column)?;
    let with = read_operand(alloc, scope, &field.col_type, with)?;
    Ok(Filter {
        test: Test::Compare {
            comparison,
            column: number,
            with,
        },
    })
}

/// Reads `["is_null", REF]`.
#[tactic(auto, using(crate::proofs::Causes::causes), unfolding(crate::specs::Filters::null_of))]
fn null_test(scope: &Scope, values: &[Value]) -> Result<Filter, ConfigFault>
    ensures { Yields (λ f. f) result (null_of scope.now (items values.now)) }
{
    let (number, _) = reference(scope, sole(values).ok_or(ConfigFault::Shape)?)?;
    Ok(Filter {
        test: Test::IsNull(number),
    })
}

/// Reads a filter nested to at most `depth` levels.
#[cycle(filters)]
#[tactic(auto, using(crate::proofs::Causes::causes, crate::proofs::FilterDepths::levels))]
fn read_filter(
    alloc: Global,
    scope: &Scope,
    value: &Value,
    depth: u8,
) -> Result<Filter, ConfigFault>
    ensures { Answers (λ f. f) result (filter_of depth scope.now (view value.now)) }
{
    if depth == 0 {
        return Err(ConfigFault::OverLimit);
    }
    read_filter_with(alloc, scope, value, depth - 1)
}

/// Reads `not`, `and` and `or`, whose parts are nested to at most `depth` levels.
#[cycle(filters)]
#[tactic(auto, using(crate::proofs::Causes::failing), unfolding(crate::specs::Filters::filter_with))]
fn read_filter_with(
    alloc: Global,
    scope: &Scope,
    value: &Value,
    depth: u8,
) -> Result<Filter, ConfigFault>
    ensures { Answers (λ f. f) result (filter_with scope.now (filter_of depth scope.now) (view value.now)) }
{
    match value {
        Value::Array(values) => {
            let (word, values) = headed(values.as_slice()).ok_or(ConfigFault::Shape)?;
            read_filter_by(alloc, scope, word, values, depth)
        }
        _ => Err(ConfigFault::Shape),
    }
}

#[cycle(filters)]
#[tactic(auto, using(crate::proofs::Causes::failing), unfolding(crate::specs::Filters::filter_by))]
fn read_filter_by(
    alloc: Global,
    scope: &Scope,
    word: &str,
    values: &[Value],
    depth: u8,
) -> Result<Filter, ConfigFault>
    ensures { Answers (λ f. f) result (filter_by scope.now (filter_of depth scope.now) word.now (items values.now)) }
{
    if word == "not" {
        read_negation(alloc, scope, values, depth)
    } else if word == "and" {
        let parts = read_parts(alloc, scope, values, depth)?;
        Ok(Filter {
            test: Test::And(parts),
        })
    } else if word == "or" {
        let parts = read_parts(alloc, scope, values, depth)?;
        Ok(Filter {
            test: Test::Or(parts),
        })
    } else if word == "is_null" {
        null_test(scope, values)
    } else {
        let comparison = comparison_by(word).ok_or(ConfigFault::Shape)?;
        read_comparison(alloc, scope, comparison, values)
    }
}

/// Reads `["not", F]`.
#[cycle(filters)]
#[tactic(auto, using(crate::proofs::Causes::failing), unfolding(crate::specs::Filters::negation_of))]
fn read_negation(
    alloc: Global,
    scope: &Scope,
    values: &[Value],
    depth: u8,
) -> Result<Filter, ConfigFault>
    ensures { Answers (λ f. f) result (negation_of (filter_of depth scope.now) (items values.now)) }
{
    let value = sole(values).ok_or(ConfigFault::Shape)?;
    let part = read_filter(alloc, scope, value, depth)?;
    Ok(Filter {
        test: Test::Not(Box::new(alloc, part)?),
    })
}

/// Reads the parts of `["and", F, ...]` or `["or", F, ...]`, one or more.
#[cycle(filters)]
#[tactic(auto, using(crate::proofs::FilterDepths::some_parts))]
fn read_parts(
    alloc: Global,
    scope: &Scope,
    values: &[Value],
    depth: u8,
) -> Result<Vec<Filter>, ConfigFault>
    ensures { Answers (λ fs. fs.items) result (filters_in (filter_of depth scope.now) (items values.now)) }
{
    if values.is_empty() {
        return Err(ConfigFault::Shape);
    }
    read_each_part(alloc, scope, values, depth)
}

#[cycle(filters)]
#[tactic(auto, using(crate::proofs::GatheredItems::gathering))]
fn read_each_part(
    alloc: Global,
    scope: &Scope,
    values: &[Value],
    depth: u8,
) -> Result<Vec<Filter>, ConfigFault>
    ensures { Answers (λ fs. fs.items) result (each_item (filter_of depth scope.now) (items values.now)) }
{
    let mut parts = Vec::new(alloc);
    for value in values {
        parts.push(read_filter(alloc, scope, value, depth)?)?;
    }
    Ok(parts)
}

/// `room` less the number of filters of which a filter consists, itself among them; `None` where they are more.
#[cycle(room)]
#[tactic(auto, using(crate::proofs::FilterCounts::counting))]
fn room_after(filter: &Filter, room: u32) -> Option<u32>
    ensures { IsRoomAfter room (filter_size filter.now) result }
{
    let left = room.checked_sub(1)?;
    match &filter.test {
        Test::Compare { .. } | Test::IsNull(_) => Some(left),
        Test::Not(part) => room_after(part, left),
        Test::And(parts) => room_after_all(parts, left),
        Test::Or(parts) => room_after_all(parts, left),
    }
}

#[cycle(room)]
#[tactic(auto, using(crate::proofs::FilterCounts::counting))]
fn room_after_all(filters: &[Filter], room: u32) -> Option<u32>
    ensures { IsRoomAfter room (parts_size (parts_of filters.now)) result }
{
    let mut left = room;
    for filter in filters {
        left = room_after(filter, left)?;
    }
    Some(left)
}

/// Reads the filter of a view, and checks its size.
#[tactic(auto, using(crate::proofs::Causes::failing), unfolding(crate::specs::Filters::whole_filter))]
pub(crate) fn read_whole_filter(
    alloc: Global,
    scope: &Scope,
    value: &Value,
) -> Result<Filter, ConfigFault>
    ensures { Answers (λ f. f) result (whole_filter scope.now (view value.now)) }
{
    let filter = read_filter(alloc, scope, value, MAX_FILTER_DEPTH)?;
    if room_after(&filter, MAX_FILTER_PARTS).is_none() {
        return Err(ConfigFault::OverLimit);
    }
    Ok(filter)
}
