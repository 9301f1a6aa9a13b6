//! Reads the filter of the rows of groups.

ghost use Rattle.toml.specs.View.{view};
ghost use Rattle.view_lang.specs.ConfigRules.{AreOutputs};
ghost use Rattle.view_lang.specs.OutputsSeen.{outputs_of as seen};
ghost use Rattle.view_config.specs.Filters.{whole_filter};
ghost use Rattle.view_config.specs.Outputs.{shown_in};
ghost use Rattle.view_config.specs.Reading.{Answers};
ghost use Rattle.view_config.specs.Scope.{fields_of, group_scope};
ghost use Rattle.view_config.specs.Tree.{data_of};
ghost use Rattle.view_config.specs.Views.{having_in};

use crate::faults::ConfigFault;
use crate::filters::read_whole_filter;
use crate::scope::{Rows, Scope};
use std::alloc::Global;
use toml::Value;
use values::LogicalField;
use view_lang::{Filter, Outputs, output_fields};

/// Reads a filter of rows with these columns.
fn read_having(alloc: Global, fields: &[LogicalField], value: &Value) -> Result<Filter, ConfigFault>
    ensures { Answers (λ f. f) result (whole_filter (group_scope fields.now) (view value.now)) }
{
    let scope = Scope {
        rows: Rows::Groups,
        main: fields,
        side: &[],
    };
    read_whole_filter(alloc, &scope, value)
}

/// The outputs, with the filter of group rows if one is given. Outputs of joined rows can't have one.
#[tactic(auto, using(crate::proofs::Causes::failing), unfolding(crate::specs::Views::having_in))]
pub(crate) fn read_having_at(
    alloc: Global,
    scope: &Scope,
    outputs: Outputs,
    value: Option<&Value>,
) -> Result<Outputs, ConfigFault>
    requires { AreOutputs (fields_of scope.now) (seen outputs) }
    ensures { Answers seen result (having_in (shown_in scope.now outputs) (seen outputs) (data_of value.entry)) }
{
    let Some(value) = value else {
        return Ok(outputs);
    };
    let fields = output_fields(alloc, scope.main, scope.side, &outputs)?;
    match outputs {
        Outputs::Columns(_columns) => Err(ConfigFault::Shape),
        Outputs::Groups {
            by,
            columns,
            having: _none,
        } => {
            let having = Some(read_having(alloc, &fields, value)?);
            Ok(Outputs::Groups {
                by,
                columns,
                having,
            })
        }
    }
}
