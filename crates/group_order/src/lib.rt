//! Groups of rows and the order of their rows, kept current together by changes of the rows.
//!
//! `specs/Ranked.antt` says when the order is that of the groups: it has the entries of the rows that outputs show of
//! those groups that pass a filter, as `group_state` reads them, whatever the rows are. That the rows of the first
//! entries are the first of the definition's group rows is the clause of `first_group_rows` and of `first_rows`.
#![tactic(auto)]

mod entry;
mod group_entries;
mod parts;
mod ranked;
mod ranking;

pub use parts::{GroupEntryParts, RankedParts};
pub use ranked::RankedGroups;
pub use ranking::Ranking;
