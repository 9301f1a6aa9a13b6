//! Looks columns up by their names.

ghost use Rattle.std.specs.Prelude.{◌≡◌, ◌<◌, IfSome, length, option_map, map};
ghost use Rattle.std.specs.Bool.{Decides};
ghost use Rattle.values.specs.ColTypes.{IsSingle};
ghost use Rattle.values.specs.Reading.{Yields};
ghost use Rattle.view_config.specs.Columns.{find, has_order, is_text, name_of, ordered};
ghost use Rattle.view_config.specs.Tree.{is_one_of, repeats};

use crate::faults::ConfigFault;
use values::{ColType, LogicalField, OffsetWidth};

/// Whether the values of a type have an order: all but lists and structs do. The clause `rule` relates it to the rules
/// of `view_lang`.
pub(crate) fn has_order(col_type: &ColType) -> bool
    ensures value { result ≡ has_order col_type.now }
    ensures rule { Decides result (IsSingle col_type.now) }
{
    !matches!(col_type, ColType::List { .. } | ColType::Struct)
}

/// Whether the values of a type are texts.
pub(crate) fn is_text(col_type: &ColType) -> bool
    ensures { result ≡ is_text col_type.now }
{
    matches!(
        col_type,
        ColType::Utf8 {
            offsets: OffsetWidth::Bits32
        }
    )
}

/// The column, with its number, or `OrderType` where its values have no order.
pub(crate) fn ordered<'a>(
    number: usize,
    column: &'a LogicalField,
) -> Result<(usize, &'a LogicalField), ConfigFault>
    ensures { Yields (λ c. (c.0, c.1.now)) result (ordered (number, column.now)) }
{
    if has_order(&column.col_type) {
        Ok((number, column))
    } else {
        Err(ConfigFault::OrderType)
    }
}

/// Whether two of these fields have the same name.
#[tactic(auto, using(crate::proofs::Names::naming))]
pub(crate) fn repeats(fields: &[LogicalField]) -> bool
    ensures { result ≡ repeats (map name_of fields.now) }
{
    for index in 0..fields.len() {
        let field = &fields[index];
        if is_among(field.name.as_str(), &fields[index + 1..]) {
            return true;
        }
    }
    false
}

#[tactic(auto, using(crate::proofs::Names::naming))]
fn is_among(name: &str, fields: &[LogicalField]) -> bool
    ensures { result ≡ is_one_of (map name_of fields.now) name.now }
{
    for field in fields {
        if name == field.name.as_str() {
            return true;
        }
    }
    false
}

/// The first column of this name, with its number.
#[tactic(auto, using(crate::proofs::Names::finding))]
pub(crate) fn find<'a>(columns: &'a [LogicalField], name: &str) -> Option<(usize, &'a LogicalField)>
    ensures value { option_map (λ f. (f.0, f.1.now)) result ≡ find 0 name.now columns.now }
    ensures bound { IfSome result (λ f. f.0 < length columns.now) }
{
    for index in 0..columns.len() {
        let column = &columns[index];
        if column.name.as_str() == name {
            return Some((index, column));
        }
    }
    None
}
