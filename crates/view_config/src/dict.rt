//! Reads which outputs of a view are written with dictionaries.

ghost use Rattle.std.specs.Prelude.{◌≡◌, IfOk};
ghost use Rattle.toml.specs.View.{items_view as items, view};
ghost use Rattle.values.specs.Reading.{Yields};
ghost use Rattle.view_lang.specs.ConfigRules.{AreOutputs};
ghost use Rattle.view_lang.specs.OutputsSeen.{outputs_of as seen};
ghost use Rattle.view_config.specs.Columns.{is_text};
ghost use Rattle.view_config.specs.Dict.{ascending, coded_output, dict_in, dict_of};
ghost use Rattle.view_config.specs.Outputs.{shown_in};
ghost use Rattle.view_config.specs.Reading.{Answers};
ghost use Rattle.view_config.specs.Scope.{fields_of};
ghost use Rattle.view_config.specs.Tree.{data_of, each_item};

use crate::columns::{find, is_text};
use crate::faults::ConfigFault;
use crate::groups::{check_distinct_numbers, is_number_in};
use crate::scope::Scope;
use crate::tree::items_in;
use std::alloc::{AllocError, Global};
use toml::Value;
use values::LogicalField;
use view_lang::{Outputs, output_fields};

/// The position of the output of this name; `DictType` where its values aren't texts.
#[tactic(auto, using(crate::proofs::Causes::causes), unfolding(crate::specs::Dict::coded_output))]
fn coded_output(shown: &[LogicalField], value: &Value) -> Result<usize, ConfigFault>
    ensures { Yields (λ n. n) result (coded_output shown.now (view value.now)) }
{
    let name = value.as_str().ok_or(ConfigFault::Shape)?;
    let (place, field) = find(shown, name).ok_or(ConfigFault::UnknownName)?;
    if is_text(&field.col_type) {
        Ok(place)
    } else {
        Err(ConfigFault::DictType)
    }
}

#[tactic(auto, using(crate::proofs::GatheredItems::gathering, crate::proofs::Causes::failing))]
fn read_each_output(
    alloc: Global,
    shown: &[LogicalField],
    values: &[Value],
) -> Result<Vec<usize>, ConfigFault>
    ensures { Answers (λ ns. ns.items) result (each_item (coded_output shown.now) (items values.now)) }
{
    let mut places = Vec::new(alloc);
    for value in values {
        places.push(coded_output(shown, value)?)?;
    }
    Ok(places)
}

/// Those of the numbers below `count` that are among these, in ascending order.
#[tactic(auto, using(crate::proofs::AscendingNumbers::numbers_ascending))]
fn ascending(alloc: Global, numbers: &[usize], count: usize) -> Result<Vec<usize>, AllocError>
    ensures { IfOk result (λ ns. ns.items ≡ ascending numbers.now count) }
{
    let mut sorted = Vec::new(alloc);
    for number in 0..count {
        if is_number_in(numbers, number) {
            sorted.push(number)?;
        }
    }
    Ok(sorted)
}

#[tactic(auto, using(crate::proofs::Causes::failing), unfolding(crate::specs::Dict::dict_of))]
fn read_dict(
    alloc: Global,
    shown: &[LogicalField],
    value: &Value,
) -> Result<Vec<usize>, ConfigFault>
    ensures { Answers (λ ns. ns.items) result (dict_of shown.now (view value.now)) }
{
    let places = read_each_output(alloc, shown, items_in(value)?)?;
    check_distinct_numbers(&places)?;
    Ok(ascending(alloc, &places, shown.len())?)
}

/// Reads the outputs that are written with dictionaries, as their positions: none where there is no such entry.
#[tactic(auto, using(crate::proofs::Causes::failing))]
pub(crate) fn read_dict_at(
    alloc: Global,
    scope: &Scope,
    outputs: &Outputs,
    value: Option<&Value>,
) -> Result<Vec<usize>, ConfigFault>
    requires { AreOutputs (fields_of scope.now) (seen outputs.now) }
    ensures { Answers (λ ns. ns.items) result (dict_in (shown_in scope.now outputs.now) (data_of value.entry)) }
{
    let Some(value) = value else {
        return Ok(Vec::new(alloc));
    };
    let shown = output_fields(alloc, scope.main, scope.side, outputs)?;
    read_dict(alloc, &shown, value)
}
