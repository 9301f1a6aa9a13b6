//! Reading of the rows of groups where they lie.

use crate::group_row::GroupRow;
use std::alloc::{AllocError, Global};

/// Reads something from the row that outputs show of a group.
pub trait GroupReader {
    ghost use Rattle.std.specs.Prelude.{◌≡◌, IfOk, List, Option};
    ghost use Rattle.values.specs.Datum.{Datum};

    /// What it reads.
    type Read: Drop;

    /// What it reads from a row with these cells, if it reads anything.
    ghost reads: { Self → List Datum → Option Self.Read };

    /// What it reads from a row.
    fn read(&self, alloc: Global, row: &GroupRow<'_>) -> Result<Option<Self::Read>, AllocError>
        ensures { IfOk result (λ read. read ≡ reads self.now row.now) };
}

/// What was read from a group before it changed, and after that. Nothing is read where there is no group.
#[derive(Debug, Drop)]
pub struct Readings<T> {
    pub before: Option<T>,
    pub after: Option<T>,
}

/// Reads nothing.
pub struct NoReader;

impl GroupReader for NoReader {
    ghost use Rattle.std.specs.Prelude.{None};

    type Read = ();

    ghost reads = { λ reader cells. None };

    fn read(&self, _alloc: Global, _row: &GroupRow<'_>) -> Result<Option<()>, AllocError> {
        Ok(None)
    }
}
