//! Reads the columns of views.

ghost use Rattle.std.specs.Prelude.{◌≡◌, IfOk, map, option_map};
ghost use Rattle.toml.specs.View.{items_view, view};
ghost use Rattle.values.specs.Reading.{Yields};
ghost use Rattle.view_lang.specs.OutputsSeen.{outputs_of as seen};
ghost use Rattle.view_config.specs.Outputs.{group_output_of, names_of, output_limits, output_of, outputs_in};
ghost use Rattle.view_config.specs.Outputs.{outputs_of, shown_by};
ghost use Rattle.view_config.specs.Reading.{Answers};
ghost use Rattle.view_config.specs.Scope.{fields_of};
ghost use Rattle.view_config.specs.Tree.{each_item};

use crate::aggregates::{aggregate_by, sole_reference};
use crate::faults::ConfigFault;
use crate::limits::check_name;
use crate::naming::check_distinct_names;
use crate::scope::Scope;
use crate::shown::check_fields;
use crate::tables::check_few;
use crate::tree::{headed, items_in};
use std::alloc::{AllocError, Global};
use toml::Value;
use view_lang::{GroupOutput, Output, Outputs};

/// Reads which column an output of a view without groups shows, by its word, as a number in joined rows.
#[tactic(auto, using(crate::proofs::Causes::causes))]
fn shown_by(scope: &Scope, word: &str, values: &[Value]) -> Result<usize, ConfigFault>
    ensures { Yields (λ n. n) result (shown_by scope.now word.now (items_view values.now)) }
{
    if word != "col" {
        return Err(ConfigFault::Shape);
    }
    let (number, _) = sole_reference(scope, values)?;
    Ok(number)
}

#[tactic(auto, using(crate::proofs::Causes::failing), unfolding(crate::specs::Outputs::output_of))]
fn read_output(alloc: Global, scope: &Scope, value: &Value) -> Result<Output, ConfigFault>
    ensures { Answers (λ o. o) result (output_of scope.now (view value.now)) }
{
    let (name, values) = headed(items_in(value)?).ok_or(ConfigFault::Shape)?;
    let (word, values) = headed(values).ok_or(ConfigFault::Shape)?;
    let name = check_name(name)?;
    let column = shown_by(scope, word, values)?;
    Ok(Output {
        name: String::from_str(alloc, name)?,
        column,
    })
}

#[tactic(auto, using(crate::proofs::Causes::failing), unfolding(crate::specs::Outputs::group_output_of))]
fn read_group_output(
    alloc: Global,
    scope: &Scope,
    by: &[usize],
    value: &Value,
) -> Result<GroupOutput, ConfigFault>
    ensures { Answers (λ o. o) result (group_output_of scope.now by.now (view value.now)) }
{
    let (name, values) = headed(items_in(value)?).ok_or(ConfigFault::Shape)?;
    let (word, values) = headed(values).ok_or(ConfigFault::Shape)?;
    let name = check_name(name)?;
    let aggregate = aggregate_by(scope, by, word, values)?;
    Ok(GroupOutput {
        name: String::from_str(alloc, name)?,
        aggregate,
    })
}

#[tactic(auto, using(crate::proofs::GatheredItems::gathering))]
fn read_each_output(
    alloc: Global,
    scope: &Scope,
    values: &[Value],
) -> Result<Vec<Output>, ConfigFault>
    ensures { Answers (λ os. os.items) result (each_item (output_of scope.now) (items_view values.now)) }
{
    let mut outputs = Vec::new(alloc);
    for value in values {
        outputs.push(read_output(alloc, scope, value)?)?;
    }
    Ok(outputs)
}

#[tactic(auto, using(crate::proofs::GatheredItems::gathering))]
fn read_each_group_output(
    alloc: Global,
    scope: &Scope,
    by: &[usize],
    values: &[Value],
) -> Result<Vec<GroupOutput>, ConfigFault>
    ensures { Answers (λ os. os.items) result (each_item (group_output_of scope.now by.now) (items_view values.now)) }
{
    let mut outputs = Vec::new(alloc);
    for value in values {
        outputs.push(read_group_output(alloc, scope, by, value)?)?;
    }
    Ok(outputs)
}

#[tactic(auto, using(crate::proofs::Causes::failing), unfolding(crate::specs::Outputs::outputs_in))]
fn read_outputs_in(
    alloc: Global,
    scope: &Scope,
    group: Option<Vec<usize>>,
    values: &[Value],
) -> Result<Outputs, ConfigFault>
    ensures { Answers seen result (outputs_in scope.now (option_map (λ by. by.items) group) (items_view values.now)) }
{
    match group {
        None => Ok(Outputs::Columns(read_each_output(alloc, scope, values)?)),
        Some(by) => {
            let columns = read_each_group_output(alloc, scope, &by, values)?;
            Ok(Outputs::Groups {
                by,
                columns,
                having: None,
            })
        }
    }
}

#[tactic(auto, using(crate::proofs::Numbers::numbering))]
fn output_names<'a>(alloc: Global, outputs: &'a [Output]) -> Result<Vec<&'a str>, AllocError>
    ensures { IfOk result (λ ns. map (λ n. n.now) ns.items ≡ map (λ o. o.name) outputs.now) }
{
    let mut names = Vec::new(alloc);
    for output in outputs {
        names.push(output.name.as_str())?;
    }
    Ok(names)
}

#[tactic(auto, using(crate::proofs::Numbers::numbering))]
fn group_output_names<'a>(
    alloc: Global,
    outputs: &'a [GroupOutput],
) -> Result<Vec<&'a str>, AllocError>
    ensures { IfOk result (λ ns. map (λ n. n.now) ns.items ≡ map (λ o. o.name) outputs.now) }
{
    let mut names = Vec::new(alloc);
    for output in outputs {
        names.push(output.name.as_str())?;
    }
    Ok(names)
}

/// The names of outputs.
pub(crate) fn names_of<'a>(alloc: Global, outputs: &'a Outputs) -> Result<Vec<&'a str>, AllocError>
    ensures { IfOk result (λ ns. map (λ n. n.now) ns.items ≡ names_of (seen outputs.now)) }
{
    match outputs {
        Outputs::Columns(outputs) => output_names(alloc, outputs),
        Outputs::Groups { columns, .. } => group_output_names(alloc, columns),
    }
}

/// Refuses outputs that have too many fields, as `OverLimit`, or two of one name, as `DuplicateColumn`.
#[tactic(auto, using(crate::proofs::Causes::failing), unfolding(crate::specs::Outputs::output_limits))]
fn check_outputs(alloc: Global, scope: &Scope, outputs: &Outputs) -> Result<(), ConfigFault>
    ensures { Answers (λ u. u) result (output_limits (fields_of scope.now) (seen outputs.now)) }
{
    check_fields(scope, outputs)?;
    check_distinct_names(&names_of(alloc, outputs)?)
}

/// Reads the columns of a view, whose grouping columns are these if it has groups.
#[tactic(auto, using(crate::proofs::Causes::failing), unfolding(crate::specs::Outputs::outputs_of))]
pub(crate) fn read_outputs(
    alloc: Global,
    scope: &Scope,
    group: Option<Vec<usize>>,
    value: &Value,
) -> Result<Outputs, ConfigFault>
    ensures { Answers seen result (outputs_of scope.now (option_map (λ by. by.items) group) (view value.now)) }
{
    let values = items_in(value)?;
    check_few(values)?;
    let outputs = read_outputs_in(alloc, scope, group, values)?;
    check_outputs(alloc, scope, &outputs)?;
    Ok(outputs)
}
