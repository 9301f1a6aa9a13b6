//! The whole configuration.

ghost use Rattle.std.specs.Prelude.{IfOk};
ghost use Rattle.toml.specs.Parse.{parse_document};
ghost use Rattle.toml.specs.View.{table_view};
ghost use Rattle.values.specs.Reading.{must};
ghost use Rattle.view_lang.specs.ConfigRules.{IsConfig};
ghost use Rattle.view_config.specs.Config.{config_of, text_means};
ghost use Rattle.view_config.specs.Reading.{Answers};

use crate::faults::ConfigFault;
use crate::feeds::read_feeds;
use crate::sides::read_sides;
use crate::tables::read_main;
use crate::tree::check_names;
use crate::views::read_views;
use std::alloc::Global;
use toml::Table as Entries;
use view_lang::Config;

/// The entries of a document.
pub(crate) const SECTIONS: &[&str] = &["main", "side", "feed", "view"];

/// Reads a configuration from TOML.
///
/// The error is a fault of the text, any one where there are several, or `Memory`. A text without a fault is refused
/// only for want of memory.
#[tactic(auto, using(crate::proofs::SoundConfig::whole), unfolding(crate::specs::Config::text_means))]
pub fn read_config(alloc: Global, text: &str) -> Result<Config, ConfigFault>
    ensures meaning { Answers (λ c. c) result (text_means text.now) }
    ensures rules { IfOk result IsConfig }
{
    let tree = read_tree(alloc, text)?;
    read_entries(alloc, &tree)
}

/// Parses a TOML document. A text that isn't one is `NotToml`.
fn read_tree(alloc: Global, text: &str) -> Result<Entries, ConfigFault>
    ensures { Answers table_view result (must ConfigFault.NotToml (parse_document text.now)) }
{
    match toml::table_from_str(alloc, text) {
        Ok(tree) => Ok(tree),
        Err(error) if error.is_memory() => Err(ConfigFault::Memory),
        Err(_) => Err(ConfigFault::NotToml),
    }
}

/// Reads a configuration from a document's entries.
#[tactic(auto, using(crate::proofs::Causes::failing), unfolding(crate::specs::Config::config_of))]
fn read_entries(alloc: Global, entries: &Entries) -> Result<Config, ConfigFault>
    ensures { Answers (λ c. c) result (config_of (table_view entries.now)) }
{
    check_names(entries, SECTIONS)?;
    let main = read_main(alloc, entries)?;
    let sides = read_sides(alloc, entries)?;
    let feeds = read_feeds(alloc, &sides, entries)?;
    let views = read_views(alloc, &main, &sides, entries)?;
    Ok(Config {
        main,
        sides,
        feeds,
        views,
    })
}
