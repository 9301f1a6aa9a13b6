//! Which part of a configuration is refused.

ghost use Rattle.std.specs.Prelude.{◌≡◌, IfOk, is_err, is_some};
ghost use Rattle.toml.specs.View.{table_view};
ghost use Rattle.view_config.specs.Config.{config_of, text_means};
ghost use Rattle.view_config.specs.Places.{Finds};

use crate::config::SECTIONS;
use crate::dict::read_dict_at;
use crate::entries::{check_entry_name, check_few_entries};
use crate::faults::ConfigFault;
use crate::feeds::{read_feed, read_feeds};
use crate::having::read_having_at;
use crate::orders::read_order_at;
use crate::outputs::read_outputs;
use crate::scope::{Rows, Scope};
use crate::sides::{read_side, read_sides};
use crate::tables::{TABLE_ENTRIES, read_columns, read_main};
use crate::tree::{entry_at, unknown};
use crate::views::{
    VIEW_ENTRIES, read_filter_at, read_group_at, read_lookup_at, read_view, read_views,
};
use std::alloc::{AllocError, Global};
use std::fmt;
use toml::{Table as Entries, Value};
use values::limits::{MAX_FEEDS, MAX_SIDE_TABLES, MAX_VIEWS};
use view_lang::{SideTable, Table};

/// Which part of a configuration is refused.
#[derive(Debug, Drop, PartialEq, Eq)]
pub enum FaultLocation {
    /// The line of the text, counted from 1, at which it stops being TOML.
    Line(usize),
    /// The keys of the part that is refused, from the document on: `view`, `totals`, `order`.
    Keys(Vec<String>),
}

impl FaultLocation {
    fn of(alloc: Global, keys: &[&str]) -> Result<FaultLocation, AllocError> {
        let mut owned = Vec::new(alloc);
        for key in keys {
            owned.push(String::from_str(alloc, key)?)?;
        }
        Ok(FaultLocation::Keys(owned))
    }
}

/// `line 3`, or the keys as TOML writes them: `view.totals.order`.
impl fmt::Display for FaultLocation {
    fn fmt<W: fmt::Write>(&self, f: &mut fmt::Formatter<W>) -> fmt::Result {
        let keys = match self {
            FaultLocation::Line(line) => return write!(f, "line {line}"),
            FaultLocation::Keys(keys) => keys,
        };
        let mut dot = "";
        for key in keys {
            f.write_str(dot)?;
            if check_entry_name(key.as_str()).is_ok() {
                f.write_str(key.as_str())?;
            } else {
                write!(f, "{key:?}")?;
            }
            dot = ".";
        }
        Ok(())
    }
}

/// Finds which part of the configuration of a text is refused: the first one, in the order in which `read_config` reads
/// them; none where it is accepted.
#[tactic(auto, unfolding(crate::specs::Config::text_means))]
pub fn find_fault(alloc: Global, text: &str) -> Result<Option<FaultLocation>, AllocError>
    ensures { IfOk result (λ found. is_some found ≡ is_err (text_means text.now)) }
{
    match toml::table_from_str(alloc, text) {
        Ok(entries) => find_in(alloc, &entries),
        Err(error) => match error.span() {
            Some(span) => Ok(Some(FaultLocation::Line(line_at(text, span.start)))),
            None => Err(AllocError),
        },
    }
}

/// The line, counted from 1, on which the byte at `start` is.
fn line_at(text: &str, start: usize) -> usize {
    let before = text.as_bytes().iter().take(start);
    1 + before.filter(|byte| **byte == b'\n').count()
}

/// What was read, or none where it has a fault.
fn readable<T: Drop>(read: Result<T, ConfigFault>) -> Result<Option<T>, AllocError>
    ensures { IfOk result (Finds read) }
{
    match read {
        Ok(part) => Ok(Some(part)),
        Err(ConfigFault::Memory) => Err(AllocError),
        Err(_) => Ok(None),
    }
}

#[tactic(auto, using(crate::proofs::Refused::refusing), unfolding(crate::specs::Config::config_of))]
fn find_in(alloc: Global, entries: &Entries) -> Result<Option<FaultLocation>, AllocError>
    ensures { IfOk result (λ found. is_some found ≡ is_err (config_of (table_view entries.now))) }
{
    if let Some(key) = unknown(entries, SECTIONS) {
        return Ok(Some(FaultLocation::of(alloc, &[key])?));
    }
    let Some(main) = readable(read_main(alloc, entries))? else {
        return Ok(Some(place_in_main(alloc, entries)?));
    };
    let Some(sides) = readable(read_sides(alloc, entries))? else {
        return Ok(Some(place_in_sides(alloc, entries)?));
    };
    if readable(read_feeds(alloc, &sides, entries))?.is_none() {
        return Ok(Some(place_in_feeds(alloc, &sides, entries)?));
    }
    if readable(read_views(alloc, &main, &sides, entries))?.is_none() {
        return Ok(Some(place_in_views(alloc, &main, &sides, entries)?));
    }
    Ok(None)
}

/// The location of an entry of a section, or of what is refused in it.
fn place_by(
    alloc: Global,
    section: &str,
    name: &str,
    entry: Option<&str>,
) -> Result<FaultLocation, AllocError> {
    match entry {
        Some(entry) => FaultLocation::of(alloc, &[section, name, entry]),
        None => FaultLocation::of(alloc, &[section, name]),
    }
}

/// The entries of a section that is a table with at most this many.
fn few_entries<'a>(entries: &'a Entries, section: &str, most: usize) -> Option<&'a Entries> {
    match entry_at(entries, section) {
        Some(Value::Table(named)) if check_few_entries(named, most).is_ok() => Some(named),
        _ => None,
    }
}

fn place_in_main(alloc: Global, entries: &Entries) -> Result<FaultLocation, AllocError> {
    let refused = match entry_at(entries, "main") {
        Some(main) => table_entry(alloc, main)?,
        None => None,
    };
    match refused {
        Some(key) => FaultLocation::of(alloc, &["main", key]),
        None => FaultLocation::of(alloc, &["main"]),
    }
}

fn place_in_sides(alloc: Global, entries: &Entries) -> Result<FaultLocation, AllocError> {
    let Some(sides) = few_entries(entries, "side", MAX_SIDE_TABLES) else {
        return FaultLocation::of(alloc, &["side"]);
    };
    for (name, value) in sides {
        let name = name.as_str();
        if check_entry_name(name).is_err() {
            return place_by(alloc, "side", name, None);
        }
        if readable(read_side(alloc, name, value))?.is_none() {
            return place_by(alloc, "side", name, table_entry(alloc, value)?);
        }
    }
    FaultLocation::of(alloc, &["side"])
}

fn place_in_feeds(
    alloc: Global,
    sides: &[SideTable],
    entries: &Entries,
) -> Result<FaultLocation, AllocError> {
    let Some(feeds) = few_entries(entries, "feed", MAX_FEEDS) else {
        return FaultLocation::of(alloc, &["feed"]);
    };
    for (name, value) in feeds {
        if readable(read_feed(alloc, sides, name.as_str(), value))?.is_none() {
            return place_by(alloc, "feed", name.as_str(), None);
        }
    }
    FaultLocation::of(alloc, &["feed"])
}

fn place_in_views(
    alloc: Global,
    main: &Table,
    sides: &[SideTable],
    entries: &Entries,
) -> Result<FaultLocation, AllocError> {
    let Some(views) = few_entries(entries, "view", MAX_VIEWS) else {
        return FaultLocation::of(alloc, &["view"]);
    };
    for (name, value) in views {
        let name = name.as_str();
        if check_entry_name(name).is_err() {
            return place_by(alloc, "view", name, None);
        }
        if readable(read_view(alloc, main, sides, name, value))?.is_none() {
            return place_by(alloc, "view", name, view_entry(alloc, main, sides, value)?);
        }
    }
    FaultLocation::of(alloc, &["view"])
}

/// The entry that is refused of a table that is refused.
fn table_entry(alloc: Global, value: &Value) -> Result<Option<&str>, AllocError> {
    let Value::Table(entries) = value else {
        return Ok(None);
    };
    if let Some(key) = unknown(entries, TABLE_ENTRIES) {
        return Ok(Some(key));
    }
    let Some(Value::String(_)) = entry_at(entries, "key") else {
        return Ok(Some("key"));
    };
    let Some(columns) = entry_at(entries, "columns") else {
        return Ok(Some("columns"));
    };
    match readable(read_columns(alloc, columns))? {
        Some(_) => Ok(Some("key")),
        None => Ok(Some("columns")),
    }
}

/// The entry that is refused of a view that is refused.
fn view_entry<'a>(
    alloc: Global,
    main: &Table,
    sides: &[SideTable],
    value: &'a Value,
) -> Result<Option<&'a str>, AllocError> {
    let Value::Table(entries) = value else {
        return Ok(None);
    };
    if let Some(key) = unknown(entries, VIEW_ENTRIES) {
        return Ok(Some(key));
    }
    let side = match read_lookup_at(main, sides, entry_at(entries, "lookup")) {
        Ok(Some((_, side))) => side.table.columns.as_slice(),
        Ok(None) => &[],
        Err(_) => return Ok(Some("lookup")),
    };
    let scope = Scope {
        rows: Rows::Joined,
        main: &main.columns,
        side,
    };
    entry_in(alloc, &scope, entries)
}

/// The entry that is refused of a view whose lookup is accepted.
fn entry_in(
    alloc: Global,
    scope: &Scope,
    entries: &Entries,
) -> Result<Option<&'static str>, AllocError> {
    if readable(read_filter_at(alloc, scope, entry_at(entries, "filter")))?.is_none() {
        return Ok(Some("filter"));
    }
    let Some(group) = readable(read_group_at(alloc, scope, entry_at(entries, "group")))? else {
        return Ok(Some("group"));
    };
    let Some(columns) = entry_at(entries, "columns") else {
        return Ok(Some("columns"));
    };
    let Some(all) = readable(read_outputs(alloc, scope, group, columns))? else {
        return Ok(Some("columns"));
    };
    let having = entry_at(entries, "having");
    let Some(outputs) = readable(read_having_at(alloc, scope, all, having))? else {
        return Ok(Some("having"));
    };
    let order = entry_at(entries, "order");
    if readable(read_order_at(alloc, scope, &outputs, order))?.is_none() {
        return Ok(Some("order"));
    }
    let dict = entry_at(entries, "dict");
    match readable(read_dict_at(alloc, scope, &outputs, dict))? {
        Some(_) => Ok(Some("first")),
        None => Ok(Some("dict")),
    }
}
