//! Reads configurations from TOML: the main table, side tables, the feeds that change them, and the views that are
//! written of them.
//!
//! `read_config` is proved against one definition, `text_means` of `specs/Config.antt`: which configuration a text
//! means, or which faults it has. There is a module of `specs/` for each part of a text: `Tree` and `Entries` (its
//! entries), `ColumnTypes`, `Limits`, `Tables`, `Sides`, `Feeds`, and of a view `Lookups`, `Scope` (the columns that it
//! can name), `Constants`, `Filters`, `Outputs`, `Dict` and `Views`. `Reading` defines what a call answers where there
//! may be faults, and `Worked` has texts whose meaning is computed.
#![tactic(auto)]

mod aggregates;
mod columns;
mod config;
mod constants;
mod dict;
mod entries;
mod faults;
mod feeds;
mod filters;
mod groups;
mod having;
mod laws;
mod limits;
mod lookups;
mod naming;
mod orders;
mod outputs;
mod places;
mod scope;
mod shown;
mod sides;
mod tables;
#[cfg(test)]
mod tests;
mod tree;
mod types;
mod views;

pub use config::read_config;
pub use faults::ConfigFault;
pub use laws::worked_law;
pub use places::{FaultLocation, find_fault};
