//! The parts of `Referrers`, as plain lists.

use values::Key;

/// All that `Referrers` store: keys, ascending, each with the numbers of the rows that hold it.
#[derive(Debug, Drop)]
pub struct ReferrersParts {
    pub keys: Vec<KeyNumbers>,
}

/// A key with the numbers of the rows that hold it: at least one, ascending.
#[derive(Debug, Drop)]
pub struct KeyNumbers {
    pub key: Key,
    pub numbers: Vec<usize>,
}
