//! The law of the written bodies of rows, as the contract of a function that does nothing.

ghost use Rattle.column_merge.specs.Merged.{WrittenLaw};

/// The columns of a written body of some rows lie in it, and are read without a fault, as columns with these rows.
pub fn written_law()
    ensures { WrittenLaw }
{}
