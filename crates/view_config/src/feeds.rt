//! Reads feeds, each with its role.

ghost use Rattle.toml.specs.View.{table_view, view};
ghost use Rattle.values.specs.Reading.{Yields};
ghost use Rattle.view_config.specs.Feeds.{feed_of, feeds_of, role_by, role_of, side_number, sideless};
ghost use Rattle.view_config.specs.Reading.{Answers};
ghost use Rattle.view_config.specs.Tree.{each_member};

use crate::entries::{check_entry_name, check_few_entries};
use crate::faults::ConfigFault;
use crate::sides::side_called;
use crate::tree::{check_names, entry, entry_at, members_in, text_in};
use std::alloc::Global;
use toml::{Table as Entries, Value};
use values::limits::MAX_FEEDS;
use view_lang::{FeedConfig, Role, SideTable};

/// A role for which the feed must not name a side table; one that does is `Shape`.
fn sideless(role: Role, entries: &Entries) -> Result<Role, ConfigFault>
    ensures { Yields (λ r. r) result (sideless role (table_view entries.now)) }
{
    check_names(entries, &["role"])?;
    Ok(role)
}

/// The number of the side table that a feed names with `side`.
#[tactic(auto, using(crate::proofs::Causes::causes), unfolding(crate::specs::Feeds::side_number))]
fn side_number(sides: &[SideTable], entries: &Entries) -> Result<usize, ConfigFault>
    ensures { Yields (λ n. n) result (side_number sides.now (table_view entries.now)) }
{
    let name = text_in(entry(entries, "side")?)?;
    let (number, _) = side_called(sides, name)?;
    Ok(number)
}

#[tactic(auto, using(crate::proofs::Causes::causes), unfolding(crate::specs::Feeds::role_by))]
fn role_by(sides: &[SideTable], entries: &Entries, word: &str) -> Result<Role, ConfigFault>
    ensures { Yields (λ r. r) result (role_by sides.now (table_view entries.now) word.now) }
{
    if word == "append" {
        sideless(Role::Append, entries)
    } else if word == "retract" {
        sideless(Role::Retract, entries)
    } else if word == "put" {
        Ok(Role::Put(side_number(sides, entries)?))
    } else if word == "drop" {
        Ok(Role::Drop(side_number(sides, entries)?))
    } else {
        Err(ConfigFault::Shape)
    }
}

#[tactic(auto, using(crate::proofs::Causes::causes), unfolding(crate::specs::Feeds::role_of))]
fn read_role(sides: &[SideTable], entries: &Entries) -> Result<Role, ConfigFault>
    ensures { Yields (λ r. r) result (role_of sides.now (table_view entries.now)) }
{
    role_by(sides, entries, text_in(entry(entries, "role")?)?)
}

#[tactic(auto, using(crate::proofs::Causes::failing), unfolding(crate::specs::Feeds::feed_of))]
pub(crate) fn read_feed(
    alloc: Global,
    sides: &[SideTable],
    name: &str,
    value: &Value,
) -> Result<FeedConfig, ConfigFault>
    ensures { Answers (λ f. f) result (feed_of sides.now name.now (view value.now)) }
{
    let entries = members_in(value)?;
    check_names(entries, &["role", "side"])?;
    let name = check_entry_name(name)?;
    let role = read_role(sides, entries)?;
    Ok(FeedConfig {
        name: String::from_str(alloc, name)?,
        role,
    })
}

#[tactic(auto, using(crate::proofs::GatheredItems::entering))]
fn read_each_feed(
    alloc: Global,
    sides: &[SideTable],
    entries: &Entries,
) -> Result<Vec<FeedConfig>, ConfigFault>
    ensures { Answers (λ fs. fs.items) result (each_member (feed_of sides.now) (table_view entries.now)) }
{
    let mut feeds = Vec::new(alloc);
    for (name, value) in entries {
        feeds.push(read_feed(alloc, sides, name.as_str(), value)?)?;
    }
    Ok(feeds)
}

/// The feeds of a configuration's entries, which change the main table or one of these side tables; none where there is
/// no such entry.
#[tactic(auto, using(crate::proofs::Causes::failing), unfolding(crate::specs::Tree::each_member))]
pub(crate) fn read_feeds(
    alloc: Global,
    sides: &[SideTable],
    entries: &Entries,
) -> Result<Vec<FeedConfig>, ConfigFault>
    ensures { Answers (λ fs. fs.items) result (feeds_of sides.now (table_view entries.now)) }
{
    let Some(value) = entry_at(entries, "feed") else {
        return Ok(Vec::new(alloc));
    };
    let feeds = members_in(value)?;
    check_few_entries(feeds, MAX_FEEDS)?;
    read_each_feed(alloc, sides, feeds)
}
