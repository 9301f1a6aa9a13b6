//! Where single rows lie.

use crate::from_columns::batch::Batch;

/// Where a row lies: row `row` of the batch at index `batch` in a list of batches. Where there is no such batch, it is
/// the location of a row without cells.
#[derive(Clone, Copy, Debug)]
pub struct RowLocation {
    pub batch: usize,
    pub row: usize,
}

/// Rows at single locations in these batches.
#[derive(Clone, Copy)]
pub struct LocatedRows<'a> {
    pub batches: &'a [&'a Batch],
    pub locations: &'a [RowLocation],
}
