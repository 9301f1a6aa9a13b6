//! The parts of `Groups`, as plain lists.

use crate::accumulated_columns::AccumulatedColumn;
use crate::total::Total;
use values::Key;

/// All that `Groups` store: the numbers of the grouping columns, the columns with tallies, and the groups, ascending by
/// their tuples.
#[derive(Debug, Drop)]
pub struct GroupsParts {
    pub keys: Vec<usize>,
    pub columns: Vec<AccumulatedColumn>,
    pub groups: Vec<GroupParts>,
}

/// A group: its keys in the grouping columns, the number of its rows, and a tally of each accumulated column.
#[derive(Debug, Drop)]
pub struct GroupParts {
    pub tuple: Vec<Key>,
    pub rows: u64,
    pub tallies: Vec<TallyParts>,
}

/// The tally of a column.
#[derive(Debug, Drop)]
pub enum TallyParts {
    /// How many cells aren't null, and their sum.
    Total(Total),
    /// The values of those cells that are neither null nor lists nor structs.
    Values(MultisetParts),
}

/// Values with their counts, ascending.
#[derive(Debug, Drop)]
pub struct MultisetParts {
    pub counts: Vec<ValueCount>,
}

/// A value, and how often it is there.
#[derive(Debug, Drop)]
pub struct ValueCount {
    pub value: Key,
    pub count: u64,
}
