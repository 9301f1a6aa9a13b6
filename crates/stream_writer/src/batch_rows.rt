//! Rows that lie in batches of checked columns.

ghost use Rattle.std.specs.Prelude.{◌≡◌, ℕ, ◌+◌, ◌^◌, ◌<◌, ◌≤◌, All, IfOk, [], length, take, drop};
ghost use Rattle.values.specs.Rose.{kids_of};
ghost use Rattle.body_writer.specs.Batch.{IsBatch};
ghost use Rattle.body_writer.specs.RowRanges.{IsRange, IsSized, ranges_rows, rows_of};
ghost use Rattle.stream_writer.specs.BatchRows.{IsInFirst};
ghost use Rattle.stream_writer.specs.Stream.{batch_messages};

use crate::encoded::Encoded;
use crate::messages::record_message;
use crate::rows::RowSource;
use crate::weighing::count_fitting;
use body_writer::{Batch, RowRange, write_body_from_columns};
use std::alloc::{AllocError, Global};
use values::LayoutTree;
use values::limits::MAX_BATCH_ROWS;

/// The `left` rows of these batches from row `from` on. Either each has its weight here; or none has, and all are so
/// light that a batch of 1,024 of them is within the limit on weight.
#[derive(Drop)]
pub(crate) struct BatchRows<'a> {
    pub batches: &'a [Batch],
    pub from: usize,
    pub left: usize,
    pub weights: &'a [u64],
}

/// The position of a row: how many batches come before the one with it, in which it is row `from`.
#[derive(Clone, Copy)]
pub(crate) struct RowPosition {
    pub batches: usize,
    pub from: usize,
}

/// The position of row `from`, counted through all batches.
pub(crate) fn find_row(batches: &[Batch], from: usize) -> RowPosition
    ensures within { result.batches ≤ length batches.now }
    ensures rows { drop result.from (rows_of (drop result.batches batches.now)) ≡ drop from (rows_of batches.now) }
    ensures bound { result.from ≤ from }
    ensures place { from ≤ length (rows_of batches.now)
        → result.from ≤ length (rows_of (drop result.batches batches.now)) }
    ensures first { IsInFirst result.from (drop result.batches batches.now) }
{
    let mut start = from;
    for i in 0..batches.len() {
        let rows = batches[i].rows;
        if start < rows {
            return RowPosition {
                batches: i,
                from: start,
            };
        }
        start -= rows;
    }
    RowPosition {
        batches: batches.len(),
        from: start,
    }
}

/// Where `count` rows lie, from row `from` on, batch by batch.
pub(crate) fn ranges_of<'a>(
    alloc: Global,
    batches: &'a [Batch],
    from: usize,
    count: usize,
) -> Result<Vec<RowRange<'a>>, AllocError>
    requires small { from + count < 2 ^ 32 }
    ensures rows { IfOk result (λ ranges. ranges_rows ranges.items ≡ take count (drop from (rows_of batches.now))) }
    ensures sized { IfOk result (λ ranges. (n : ℕ) → All (IsSized n) batches.now → All (IsRange n) ranges.items) }
{
    let mut ranges = Vec::new(alloc);
    let mut start = from;
    let mut left = count;
    for batch in batches {
        if left == 0 {
            return Ok(ranges);
        }
        let to = batch.rows.min(start + left);
        if start < to {
            ranges.push(RowRange {
                batch,
                from: start,
                to,
            })?;
            left -= to - start;
        }
        start = start.saturating_sub(batch.rows);
    }
    Ok(ranges)
}

/// The RecordBatch message of `count` rows, from row `from` on. Capacity for `room` bytes of its body is reserved at
/// once.
pub(crate) fn encode_rows(
    alloc: Global,
    layouts: &[LayoutTree],
    batches: &[Batch],
    from: usize,
    count: usize,
    room: usize,
) -> Result<Encoded, AllocError>
    requires small { from + count < 2 ^ 32 }
    requires within { count ≤ length (drop from (rows_of batches.now)) }
    requires sized { All (IsSized (length layouts.now)) batches.now }
    requires batch { IsBatch (kids_of layouts.now) (take count (drop from (rows_of batches.now))) }
    ensures bytes { IfOk result (λ bytes. bytes
        ≡ batch_messages [] (kids_of layouts.now) (take count (drop from (rows_of batches.now)))) }
    ensures size { IfOk result (λ bytes. length bytes ≤ 2 ^ 29) }
{
    let ranges = ranges_of(alloc, batches, from, count)?;
    let body = write_body_from_columns(alloc, layouts, &ranges, room)?;
    let message = record_message(alloc, count, body, Vec::new(alloc))?;
    Ok(message)
}

impl<'a> RowSource for BatchRows<'a> {
    ghost use Rattle.stream_writer.specs.BatchRows.{FitsBatches, rows_left};

    ghost rows = { rows_left };

    ghost coded = { λ r. [] };

    ghost fits = { λ r ls. FitsBatches ls r };

    fn is_empty(&self) -> bool {
        self.left == 0
    }

    fn len(&self) -> usize {
        self.left
    }

    fn len_of_batch(&self, _layouts: &[LayoutTree]) -> usize {
        if self.weights.is_empty() {
            return self.left.min(MAX_BATCH_ROWS);
        }
        count_fitting(self.weights)
    }

    fn encode_batch(
        &self,
        alloc: Global,
        layouts: &[LayoutTree],
        count: usize,
        room: usize,
    ) -> Result<Encoded, AllocError> {
        encode_rows(alloc, layouts, self.batches, self.from, count, room)
    }

    fn skip(&mut self, count: usize) {
        let place = find_row(self.batches, self.from + count);
        let weighed = count.min(self.weights.len());
        self.batches = &self.batches[place.batches..];
        self.from = place.from;
        self.left -= count;
        self.weights = &self.weights[weighed..];
    }
}
