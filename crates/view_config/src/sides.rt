//! Reads side tables, each with its name.

ghost use Rattle.std.specs.Prelude.{◌≡◌, option_map};
ghost use Rattle.toml.specs.View.{table_view, view};
ghost use Rattle.values.specs.Reading.{Yields};
ghost use Rattle.view_config.specs.Reading.{Answers};
ghost use Rattle.view_config.specs.Sides.{find_side, side_called, side_of, sides_of};
ghost use Rattle.view_config.specs.Tree.{each_member};

use crate::entries::{check_entry_name, check_few_entries};
use crate::faults::ConfigFault;
use crate::tables::read_table;
use crate::tree::{entry_at, members_in};
use std::alloc::Global;
use toml::{Table as Entries, Value};
use values::limits::{MAX_SIDE_ROWS, MAX_SIDE_TABLES};
use view_lang::SideTable;

#[tactic(auto, using(crate::proofs::Causes::failing), unfolding(crate::specs::Sides::side_of))]
pub(crate) fn read_side(alloc: Global, name: &str, value: &Value) -> Result<SideTable, ConfigFault>
    ensures { Answers (λ s. s) result (side_of name.now (view value.now)) }
{
    let name = check_entry_name(name)?;
    let table = read_table(alloc, members_in(value)?, MAX_SIDE_ROWS)?;
    Ok(SideTable {
        name: String::from_str(alloc, name)?,
        table,
    })
}

#[tactic(auto, using(crate::proofs::GatheredItems::entering))]
fn read_each_side(alloc: Global, entries: &Entries) -> Result<Vec<SideTable>, ConfigFault>
    ensures { Answers (λ ss. ss.items) result (each_member side_of (table_view entries.now)) }
{
    let mut sides = Vec::new(alloc);
    for (name, value) in entries {
        sides.push(read_side(alloc, name.as_str(), value)?)?;
    }
    Ok(sides)
}

/// Reads the side tables of a configuration: none where there is no such entry.
#[tactic(auto, using(crate::proofs::Causes::failing), unfolding(crate::specs::Tree::each_member))]
pub(crate) fn read_sides(alloc: Global, entries: &Entries) -> Result<Vec<SideTable>, ConfigFault>
    ensures { Answers (λ ss. ss.items) result (sides_of (table_view entries.now)) }
{
    let Some(value) = entry_at(entries, "side") else {
        return Ok(Vec::new(alloc));
    };
    let sides = members_in(value)?;
    check_few_entries(sides, MAX_SIDE_TABLES)?;
    read_each_side(alloc, sides)
}

#[tactic(auto, using(crate::proofs::Names::finding_sides))]
fn find_side<'a>(sides: &'a [SideTable], name: &str) -> Option<(usize, &'a SideTable)>
    ensures { option_map (λ s. (s.0, s.1.now)) result ≡ find_side 0 name.now sides.now }
{
    for index in 0..sides.len() {
        let side = &sides[index];
        if side.name.as_str() == name {
            return Some((index, side));
        }
    }
    None
}

/// The side table of this name, with its number, or `UnknownName`.
pub(crate) fn side_called<'a>(
    sides: &'a [SideTable],
    name: &str,
) -> Result<(usize, &'a SideTable), ConfigFault>
    ensures { Yields (λ s. (s.0, s.1.now)) result (side_called sides.now name.now) }
{
    find_side(sides, name).ok_or(ConfigFault::UnknownName)
}
