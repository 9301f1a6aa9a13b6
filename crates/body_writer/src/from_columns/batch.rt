//! Batches of checked columns, and some of their rows.

use arrays::Column;

/// The checked columns of a record batch, each with `rows` cells.
#[derive(Drop)]
pub struct Batch {
    pub columns: Vec<Column>,
    pub rows: usize,
}

/// The rows of a batch from `from` up to, and without, `to`.
#[derive(Clone, Copy)]
pub struct RowRange<'a> {
    pub batch: &'a Batch,
    pub from: usize,
    pub to: usize,
}
