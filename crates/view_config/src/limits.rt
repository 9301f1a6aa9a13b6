//! The limits of columns: of their names, of how many fields they have at all levels, and of their null weights.

ghost use Rattle.std.specs.Prelude.{◌≤◌, ◌*◌, IfSome, map};
ghost use Rattle.values.specs.Limits.{max_fields, max_null_weight};
ghost use Rattle.values.specs.Logical.{tree_of, trees_of};
ghost use Rattle.values.specs.Reading.{Yields};
ghost use Rattle.values.specs.Rose.{kids_of, rose_size, roses_size};
ghost use Rattle.view_config.specs.Columns.{name_of};
ghost use Rattle.view_config.specs.Limits.{AreSlotsOf, IsRoomAfter, IsSlotOf, column_limits, column_name, distinct};
ghost use Rattle.view_config.specs.Limits.{few_fields};

use crate::columns::repeats;
use crate::faults::ConfigFault;
use values::limits::{MAX_FIELDS, MAX_NULL_WEIGHT};
use values::{Layout, LogicalField};
use view_lang::MAX_COLUMN_NAME_LEN;

/// The longest time zone of a declared column, in bytes.
pub(crate) const MAX_ZONE_LEN: usize = 255;

/// The longest name of a side table, a feed or a view, in bytes.
pub(crate) const MAX_ENTRY_NAME_LEN: usize = 64;

/// The most filters of which a filter may consist, itself among them.
pub(crate) const MAX_FILTER_PARTS: u32 = 256;

/// The most levels of a filter.
pub(crate) const MAX_FILTER_DEPTH: u8 = 16;

/// The most digits of a decimal that may be summed.
pub(crate) const MAX_SUM_PRECISION: u8 = 28;

/// The greatest `first` of a view.
pub(crate) const MAX_FIRST: i64 = 1 << 24;

/// The name of a column, of an output or of a struct's child, or `OverLimit` where it doesn't have 1 to 255 bytes.
pub(crate) fn check_name(name: &str) -> Result<&str, ConfigFault>
    ensures { Yields (λ n. n.now) result (column_name name.now) }
{
    if 1 <= name.len() && name.len() <= MAX_COLUMN_NAME_LEN {
        Ok(name)
    } else {
        Err(ConfigFault::OverLimit)
    }
}

/// Refuses two fields with the same name, as `DuplicateColumn`.
pub(crate) fn check_distinct(fields: &[LogicalField]) -> Result<(), ConfigFault>
    ensures { Yields (λ u. u) result (distinct (map name_of fields.now)) }
{
    if repeats(fields) {
        return Err(ConfigFault::DuplicateColumn);
    }
    Ok(())
}

/// `room` less the number of a field and all fields below it; `None` where they are more.
#[cycle(count)]
pub(crate) fn room_after(field: &LogicalField, room: u32) -> Option<u32>
    ensures { IsRoomAfter room (rose_size field.now) result }
{
    room_after_all(&field.children, room.checked_sub(1)?)
}

/// `room` less the number of these fields and all below them; `None` where they are more.
#[cycle(count)]
#[tactic(auto, using(crate::proofs::FieldCounts::counting))]
fn room_after_all(fields: &[LogicalField], room: u32) -> Option<u32>
    ensures { IsRoomAfter room (roses_size (kids_of fields.now)) result }
{
    let mut left = room;
    for field in fields {
        left = room_after(field, left)?;
    }
    Some(left)
}

/// Refuses more than 1,024 fields at all levels, as `OverLimit`.
pub(crate) fn check_count(fields: &[LogicalField]) -> Result<(), ConfigFault>
    ensures { Yields (λ u. u) result (few_fields fields.now) }
{
    match room_after_all(fields, MAX_FIELDS) {
        Some(_) => Ok(()),
        None => Err(ConfigFault::OverLimit),
    }
}

/// The weight of a null of a field; `None` where it, or that of a field below it, is above the limit.
#[cycle(null_weights)]
#[tactic(auto, using(crate::proofs::NullWeights::null_weight_lemmas))]
fn null_weight_of(field: &LogicalField) -> Option<u64>
    requires { rose_size field.now ≤ max_fields }
    ensures value { IsSlotOf result (tree_of field.now) }
    ensures bound { IfSome result (λ n. n ≤ max_null_weight) }
{
    let below = null_weights_of(&field.children)?;
    let layout = field.col_type.layout();
    let null_weight = match layout {
        Layout::Struct => 1 + below,
        _ => layout.own_null_weight(),
    };
    if null_weight > MAX_NULL_WEIGHT {
        return None;
    }
    Some(null_weight)
}

/// The summed weight of nulls of these fields; `None` where that of one of them, or of a field below them, is above the
/// limit.
#[cycle(null_weights)]
#[tactic(auto, using(crate::proofs::NullWeights::null_weight_lemmas))]
fn null_weights_of(fields: &[LogicalField]) -> Option<u64>
    requires { roses_size (kids_of fields.now) ≤ max_fields }
    ensures value { AreSlotsOf result (trees_of (kids_of fields.now)) }
    ensures bound { IfSome result (λ n. n ≤ max_null_weight * roses_size (kids_of fields.now)) }
{
    let mut null_weights = 0;
    for field in fields {
        null_weights += null_weight_of(field)?;
    }
    Some(null_weights)
}

/// Refuses columns above the limits of a table, as `OverLimit`, or two with the same name, as `DuplicateColumn`.
#[tactic(auto, using(crate::proofs::Causes::causes), unfolding(crate::specs::Limits::column_limits))]
pub(crate) fn check_columns(columns: &[LogicalField]) -> Result<(), ConfigFault>
    ensures { Yields (λ u. u) result (column_limits columns.now) }
{
    check_count(columns)?;
    if null_weights_of(columns).is_none() {
        return Err(ConfigFault::OverLimit);
    }
    check_distinct(columns)
}
