//! Columns from references to values, or from cells where they lie: an array's buffers are built cell by cell.

pub(crate) mod batch;
pub(crate) mod buffers;
pub(crate) mod cell;
pub(crate) mod column;
pub(crate) mod slots;
