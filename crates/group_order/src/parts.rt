//! The parts of `RankedGroups`, as plain lists.

use crate::ranking::Ranking;
use group_state::GroupsParts;
use top_rows::SortKey;
use values::Key;

/// All that `RankedGroups` store: the groups, what is shown of them in which order, and the entries of the rows shown,
/// ascending.
#[derive(Debug, Drop)]
pub struct RankedParts {
    pub groups: GroupsParts,
    pub ranking: Ranking,
    pub entries: Vec<GroupEntryParts>,
}

/// The entry of a group's row: its sort key for each of the order's columns, and the keys of the group's tuple.
#[derive(Debug, Drop)]
pub struct GroupEntryParts {
    pub sort_keys: Vec<SortKey>,
    pub tuple: Vec<Key>,
}
