//! Changes of the rows of a table.

/// How an accepted edit changed the rows of its table: all that reverting the edit needs.
#[derive(Drop)]
pub enum TableChange {
    /// This many rows were appended.
    Appended(usize),
    /// The rows of these numbers were retracted.
    Retracted(Vec<usize>),
    /// `rows` rows were put, and replaced those with the numbers `replaced`.
    Put { rows: usize, replaced: Vec<usize> },
}
