//! The columns that outputs show: how many fields they have, and whether their values have an order.

ghost use Rattle.std.specs.Prelude.{◌≡◌};
ghost use Rattle.values.specs.Reading.{Yields};
ghost use Rattle.values.specs.Rose.{rose_size};
ghost use Rattle.view_lang.specs.Outputs.{columns as columns_seen};
ghost use Rattle.view_lang.specs.TableRules.{type_of};
ghost use Rattle.view_lang.specs.ViewColumns.{output_fields};
ghost use Rattle.view_lang.specs.Fields.{field_at};
ghost use Rattle.view_config.specs.Columns.{has_order};
ghost use Rattle.view_config.specs.Limits.{IsRoomAfter, few_fields, size_of};
ghost use Rattle.view_config.specs.Outputs.{all_groups, shown_in};
ghost use Rattle.view_config.specs.Scope.{fields_of};

use crate::aggregates::{is_aggregate_ordered, room_after_aggregate};
use crate::columns::has_order;
use crate::faults::ConfigFault;
use crate::limits::room_after;
use crate::scope::{Scope, column_at};
use values::limits::MAX_FIELDS;
use view_lang::{GroupOutput, Output, Outputs};

/// `room` less the number of fields of a column, at all levels; `None` where they are more.
#[tactic(auto, using(crate::proofs::OutputFields::column_sizes))]
pub(crate) fn room_after_column(scope: &Scope, number: usize, room: u32) -> Option<u32>
    ensures { IsRoomAfter room (rose_size (field_at (fields_of scope.now) number)) result }
{
    match column_at(scope, number) {
        Some(field) => room_after(field, room),
        None => room.checked_sub(1),
    }
}

/// `room` less the number of fields of these outputs, at all levels; `None` where they are more.
#[tactic(auto, using(crate::proofs::OutputFields::output_sizes))]
fn room_after_outputs(scope: &Scope, outputs: &[Output], room: u32) -> Option<u32>
    ensures { IsRoomAfter room (size_of (output_fields (fields_of scope.now) (columns_seen outputs.now))) result }
{
    let mut left = room;
    for output in outputs {
        left = room_after_column(scope, output.column, left)?;
    }
    Some(left)
}

#[tactic(auto, using(crate::proofs::OutputFields::output_sizes))]
fn room_after_group_outputs(
    scope: &Scope,
    by: &[usize],
    outputs: &[GroupOutput],
    room: u32,
) -> Option<u32>
    ensures { IsRoomAfter room (size_of (output_fields (fields_of scope.now) (all_groups by.now outputs.now))) result }
{
    let mut left = room;
    for output in outputs {
        left = room_after_aggregate(scope, by, output.aggregate, left)?;
    }
    Some(left)
}

/// Refuses outputs with more than 1,024 fields at all levels, as `OverLimit`.
pub(crate) fn check_fields(scope: &Scope, outputs: &Outputs) -> Result<(), ConfigFault>
    ensures { Yields (λ u. u) result (few_fields (shown_in scope.now outputs.now)) }
{
    let left = match outputs {
        Outputs::Columns(outputs) => room_after_outputs(scope, outputs, MAX_FIELDS),
        Outputs::Groups { by, columns, .. } => {
            room_after_group_outputs(scope, by, columns, MAX_FIELDS)
        }
    };
    match left {
        Some(_) => Ok(()),
        None => Err(ConfigFault::OverLimit),
    }
}

/// Whether the values of a column have an order.
#[tactic(auto, using(crate::proofs::OutputFields::column_sizes))]
pub(crate) fn is_ordered(scope: &Scope, number: usize) -> bool
    ensures { result ≡ has_order (type_of (field_at (fields_of scope.now) number)) }
{
    match column_at(scope, number) {
        Some(field) => has_order(&field.col_type),
        None => true,
    }
}

/// Whether the values of the output at this position have an order.
#[tactic(auto, using(crate::proofs::OutputFields::output_types))]
pub(crate) fn is_output_ordered(scope: &Scope, outputs: &Outputs, place: usize) -> bool
    ensures { result ≡ has_order (type_of (field_at (shown_in scope.now outputs.now) place)) }
{
    match outputs {
        Outputs::Columns(outputs) => match outputs.get(place) {
            Some(output) => is_ordered(scope, output.column),
            None => true,
        },
        Outputs::Groups { by, columns, .. } => match columns.get(place) {
            Some(output) => is_aggregate_ordered(scope, by, output.aggregate),
            None => true,
        },
    }
}
