//! The columns that a view can name: those of joined rows, and those of rows of groups.

ghost use Rattle.std.specs.Prelude.{◌≡◌, ◌<◌, option_map, slice_get};
ghost use Rattle.toml.specs.View.{items_view, view};
ghost use Rattle.values.specs.Reading.{Yields};
ghost use Rattle.view_config.specs.Scope.{fields_of, main_column, ordered_reference, reference, reference_by};
ghost use Rattle.view_config.specs.Scope.{reference_in, side_column};

use crate::columns::{find, ordered};
use crate::faults::ConfigFault;
use crate::tree::pair;
use std::marker::Model;
use toml::Value;
use values::LogicalField;

/// The rows whose columns are named.
#[derive(Clone, Copy, Debug)]
pub(crate) enum Rows {
    Joined,
    Groups,
}

/// The columns that can be named. Of joined rows they are those of the main table, and those of the side table that the
/// view looks up, which are none without a lookup. Of rows of groups they are the outputs, as those of a main table.
#[derive(Debug, Drop)]
pub(crate) struct Scope<'a> {
    pub rows: Rows,
    pub main: &'a [LogicalField],
    pub side: &'a [LogicalField],
}

impl<'a> Model for Scope<'a> {
    ghost use Rattle.view_config.specs.Scope as seen;

    ghost Value = { seen.Scope };

    ghost coded = { seen.scope_code };

    ghost view = { λ s. record { rows = s.rows; main = s.main.now; side = s.side.now } };
}

/// The column of this number, if there is one.
#[tactic(auto, using(crate::proofs::Joined::parts))]
pub(crate) fn column_at<'a>(scope: &Scope<'a>, number: usize) -> Option<&'a LogicalField>
    ensures { option_map (λ f. f.now) result ≡ slice_get (fields_of scope.now) number }
{
    if number < scope.main.len() {
        scope.main.get(number)
    } else {
        scope.side.get(number - scope.main.len())
    }
}

fn main_column<'a>(scope: &Scope<'a>, name: &str) -> Result<(usize, &'a LogicalField), ConfigFault>
    ensures { Yields (λ c. (c.0, c.1.now)) result (main_column scope.now name.now) }
{
    find(scope.main, name).ok_or(ConfigFault::UnknownName)
}

fn side_column<'a>(scope: &Scope<'a>, name: &str) -> Result<(usize, &'a LogicalField), ConfigFault>
    ensures { Yields (λ c. (c.0, c.1.now)) result (side_column scope.now name.now) }
{
    let (number, column) = find(scope.side, name).ok_or(ConfigFault::UnknownName)?;
    Ok((scope.main.len() + number, column))
}

/// The column of this name among those to which this word refers.
fn reference_by<'a>(
    scope: &Scope<'a>,
    word: &str,
    name: &str,
) -> Result<(usize, &'a LogicalField), ConfigFault>
    ensures { Yields (λ c. (c.0, c.1.now)) result (reference_by scope.now.rows scope.now word.now name.now) }
{
    match scope.rows {
        Rows::Joined => {
            if word == "main" {
                main_column(scope, name)
            } else if word == "side" {
                side_column(scope, name)
            } else {
                Err(ConfigFault::Shape)
            }
        }
        Rows::Groups => {
            if word == "out" {
                main_column(scope, name)
            } else {
                Err(ConfigFault::Shape)
            }
        }
    }
}

/// Reads `["main", name]` or `["side", name]`, or `["out", name]` of rows of groups.
#[tactic(auto, using(crate::proofs::Causes::causes), unfolding(crate::specs::Scope::reference_in))]
fn reference_in<'a>(
    scope: &Scope<'a>,
    values: &[Value],
) -> Result<(usize, &'a LogicalField), ConfigFault>
    ensures { Yields (λ c. (c.0, c.1.now)) result (reference_in scope.now (items_view values.now)) }
{
    let (word, name) = pair(values).ok_or(ConfigFault::Shape)?;
    let word = word.as_str().ok_or(ConfigFault::Shape)?;
    let name = name.as_str().ok_or(ConfigFault::Shape)?;
    reference_by(scope, word, name)
}

/// The column that a reference means, with its number.
#[tactic(auto, unfolding(crate::specs::Scope::reference))]
pub(crate) fn reference<'a>(
    scope: &Scope<'a>,
    value: &Value,
) -> Result<(usize, &'a LogicalField), ConfigFault>
    ensures { Yields (λ c. (c.0, c.1.now)) result (reference scope.now (view value.now)) }
{
    match value {
        Value::String(name) => main_column(scope, name.as_str()),
        Value::Array(values) => reference_in(scope, values.as_slice()),
        _ => Err(ConfigFault::Shape),
    }
}

/// The same, or `OrderType` where the column's values have no order.
#[tactic(auto, using(crate::proofs::Causes::causes), unfolding(crate::specs::Scope::ordered_reference))]
pub(crate) fn ordered_reference<'a>(
    scope: &Scope<'a>,
    value: &Value,
) -> Result<(usize, &'a LogicalField), ConfigFault>
    ensures { Yields (λ c. (c.0, c.1.now)) result (ordered_reference scope.now (view value.now)) }
{
    let (number, column) = reference(scope, value)?;
    ordered(number, column)
}
