//! Helpers for the values of a TOML document. A value of another kind than is wanted is `Shape`.

ghost use Rattle.std.specs.Prelude.{◌≡◌, ◌↔◌, IsNone, IsTrue, map, option_map};
ghost use Rattle.values.specs.Reading.{Yields};
ghost use Rattle.toml.specs.Data.{get_member};
ghost use Rattle.toml.specs.View.{items_view, table_view, view};
ghost use Rattle.view_config.specs.Tree.{has_only, headed, is_one_of, items_in, members_in, needed, only, pair};
ghost use Rattle.view_config.specs.Tree.{pair_in, sole, text_in};

use crate::faults::ConfigFault;
use toml::{Table as Entries, Value};

/// The value of an entry that must be there; a missing one is `Shape`.
pub(crate) fn entry<'a>(table: &'a Entries, key: &str) -> Result<&'a Value, ConfigFault>
    ensures { Yields (λ v. view v.now) result (needed key.now (table_view table.now)) }
{
    entry_at(table, key).ok_or(ConfigFault::Shape)
}

/// The value of an entry that may be there.
pub(crate) fn entry_at<'a>(table: &'a Entries, key: &str) -> Option<&'a Value>
    ensures { option_map (λ v. view v.now) result ≡ get_member key.now (table_view table.now) }
{
    table.get(key)
}

/// The text that an array begins with, and what comes after it; `None` where it begins with no text.
#[tactic(auto, using(crate::proofs::Arrays::arrays))]
pub(crate) fn headed(values: &[Value]) -> Option<(&str, &[Value])>
    ensures { option_map (λ p. (p.0.now, items_view p.1.now)) result ≡ headed (items_view values.now) }
{
    if values.is_empty() {
        return None;
    }
    match &values[0] {
        Value::String(word) => Some((word.as_str(), &values[1..])),
        _ => None,
    }
}

pub(crate) fn text_in(value: &Value) -> Result<&str, ConfigFault>
    ensures { Yields (λ s. s.now) result (text_in (view value.now)) }
{
    match value {
        Value::String(text) => Ok(text.as_str()),
        _ => Err(ConfigFault::Shape),
    }
}

pub(crate) fn items_in(value: &Value) -> Result<&[Value], ConfigFault>
    ensures { Yields (λ vs. items_view vs.now) result (items_in (view value.now)) }
{
    match value {
        Value::Array(values) => Ok(values.as_slice()),
        _ => Err(ConfigFault::Shape),
    }
}

pub(crate) fn members_in(value: &Value) -> Result<&Entries, ConfigFault>
    ensures { Yields (λ t. table_view t.now) result (members_in (view value.now)) }
{
    match value {
        Value::Table(table) => Ok(table),
        _ => Err(ConfigFault::Shape),
    }
}

/// The value of an array of one; `None` for another array.
#[tactic(auto, using(crate::proofs::Arrays::arrays))]
pub(crate) fn sole(values: &[Value]) -> Option<&Value>
    ensures { option_map (λ v. view v.now) result ≡ sole (items_view values.now) }
{
    if values.len() != 1 {
        return None;
    }
    Some(&values[0])
}

/// The values of an array of two; `None` for another array.
#[tactic(auto, using(crate::proofs::Arrays::arrays))]
pub(crate) fn pair(values: &[Value]) -> Option<(&Value, &Value)>
    ensures { option_map (λ p. (view p.0.now, view p.1.now)) result ≡ pair (items_view values.now) }
{
    if values.len() != 2 {
        return None;
    }
    Some((&values[0], &values[1]))
}

pub(crate) fn pair_in(value: &Value) -> Option<(&Value, &Value)>
    ensures { option_map (λ p. (view p.0.now, view p.1.now)) result ≡ pair_in (view value.now) }
{
    match value {
        Value::Array(values) => pair(values.as_slice()),
        _ => None,
    }
}

/// The first entry that has none of these names.
pub(crate) fn unknown<'a>(entries: &'a Entries, names: &[&str]) -> Option<&'a str>
    ensures { IsNone result ↔ IsTrue (has_only (map (λ n. n.now) names.now) (table_view entries.now)) }
{
    for (name, _) in entries {
        if !is_one_of(names, name.as_str()) {
            return Some(name.as_str());
        }
    }
    None
}

#[tactic(auto, using(crate::proofs::Names::naming))]
pub(crate) fn is_one_of(names: &[&str], name: &str) -> bool
    ensures { result ≡ is_one_of (map (λ n. n.now) names.now) name.now }
{
    for known in names {
        if name == *known {
            return true;
        }
    }
    false
}

/// Refuses entries with other names than these, as `Shape`.
pub(crate) fn check_names(entries: &Entries, names: &[&str]) -> Result<(), ConfigFault>
    ensures { Yields (λ u. u) result (only (map (λ n. n.now) names.now) (table_view entries.now)) }
{
    match unknown(entries, names) {
        Some(_) => Err(ConfigFault::Shape),
        None => Ok(()),
    }
}
