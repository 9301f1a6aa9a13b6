//! Groups of rows, kept current by changes of the rows: how many rows each has, and what is counted, summed and
//! compared of its columns.
//!
//! `specs/Groups.antt` says when groups are those of some rows, over `Rows` (what is stored for one group) and `Cells`
//! (of one column); `specs/Moves.antt` when a group is that of some of the rows, which can then be added or removed all
//! at once. `specs/Reading.antt` says what must hold so that group rows can be read; they are those of `view_lang`.
#![tactic(auto)]

mod accumulated_columns;
mod aggregates;
mod cells;
mod few_values;
mod group;
mod group_reader;
mod group_row;
mod groups;
mod many_numbers;
mod many_values;
mod multiset;
mod one_value;
mod parts;
mod reading;
mod row_cells;
mod tally;
#[cfg(test)]
mod tests;
mod total;
mod tuple;

pub use accumulated_columns::{AccumulatedColumn, AccumulatorForm};
pub use group::Group;
pub use group_reader::{GroupReader, NoReader, Readings};
pub use group_row::GroupRow;
pub use groups::Groups;
pub use parts::{GroupParts, GroupsParts, MultisetParts, TallyParts, ValueCount};
pub use total::Total;
pub use tuple::Tuple;
