//! Sub-groups of the rows of a main table: those that a view moves from group to group together, where rows of the side
//! table change that it looks up. Such rows are alike in the cell that they look up and in the grouping columns of the
//! main table.
//!
//! `specs/FilterParts.antt` says which parts of a filter the main table decides alone, `specs/Places.antt` to which
//! group the rows of a sub-group belong, and `specs/SubGroups.antt` which views can be kept by sub-groups.
#![tactic(auto)]

mod columns;
mod filter_parts;
mod laws;
mod representative;
mod sub_groups;
#[cfg(test)]
mod tests;

pub use filter_parts::passes_others;
pub use laws::sub_group_law;
pub use sub_groups::SubGroups;
