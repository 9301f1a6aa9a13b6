//! Rows that lie in ranges of batches, of which some columns are written.

ghost use Rattle.std.specs.Prelude.{◌≡◌, ℕ, ◌+◌, ◌-◌, ◌^◌, ◌<◌, ◌≤◌, All, IfOk, [], length, take, drop};
ghost use Rattle.values.specs.Rose.{kids_of};
ghost use Rattle.body_writer.specs.Batch.{IsBatch};
ghost use Rattle.body_writer.specs.RowRanges.{IsRange, ranges_rows};
ghost use Rattle.body_writer.specs.Picked.{HaveColumns, picked_rows};
ghost use Rattle.stream_writer.specs.RangeRows.{FitsRanges, picked_left};
ghost use Rattle.stream_writer.specs.Stream.{batch_messages};

use crate::encoded::Encoded;
use crate::messages::record_message;
use crate::rows::RowSource;
use body_writer::{RowRange, write_body_from_picked_columns};
use std::alloc::{AllocError, Global};
use values::LayoutTree;
use values::limits::MAX_BATCH_ROWS;

/// The `left` rows of these ranges from row `from` on, with the cells of these columns. They are so light that a batch
/// of 1,024 of them is within the limit on weight.
#[derive(Drop)]
pub(crate) struct RangeRows<'a> {
    pub columns: &'a [usize],
    pub ranges: &'a [RowRange<'a>],
    pub from: usize,
    pub left: usize,
}

/// The position of a row: how many ranges come before the one with it, of which it is row `from`.
#[derive(Clone, Copy)]
struct RangePosition {
    ranges: usize,
    from: usize,
}

/// How many rows a range has.
fn rows_in(range: &RowRange) -> usize
    requires { range.now.from ≤ range.now.to }
    ensures rows { result ≡ range.now.to - range.now.from }
    ensures end { range.now.from + result < 2 ^ 64 }
{
    range.to - range.from
}

/// The position of row `from`, counted through all ranges.
fn find_range(ranges: &[RowRange], from: usize) -> RangePosition
    requires { (n : ℕ) × All (IsRange n) ranges.now }
    ensures within { result.ranges ≤ length ranges.now }
    ensures rows { drop result.from (ranges_rows (drop result.ranges ranges.now)) ≡ drop from (ranges_rows ranges.now) }
    ensures bound { result.from ≤ from }
{
    let mut start = from;
    for i in 0..ranges.len() {
        let rows = rows_in(&ranges[i]);
        if start < rows {
            return RangePosition {
                ranges: i,
                from: start,
            };
        }
        start -= rows;
    }
    RangePosition {
        ranges: ranges.len(),
        from: start,
    }
}

/// Where `count` rows lie, from row `from` on.
fn cut_ranges<'a>(
    alloc: Global,
    ranges: &[RowRange<'a>],
    from: usize,
    count: usize,
) -> Result<Vec<RowRange<'a>>, AllocError>
    requires small { from + count < 2 ^ 32 }
    requires ranges { (n : ℕ) × All (IsRange n) ranges.now }
    ensures rows { IfOk result (λ cut. ranges_rows cut.items ≡ take count (drop from (ranges_rows ranges.now))) }
    ensures sized { IfOk result (λ cut. (n : ℕ) → All (IsRange n) ranges.now → All (IsRange n) cut.items) }
{
    let mut cut = Vec::new(alloc);
    let mut start = from;
    let mut left = count;
    for range in ranges {
        if left == 0 {
            return Ok(cut);
        }
        let rows = rows_in(range);
        let to = rows.min(start + left);
        if start < to {
            cut.push(RowRange {
                batch: range.batch,
                from: range.from + start,
                to: range.from + to,
            })?;
            left -= to - start;
        }
        start = start.saturating_sub(rows);
    }
    Ok(cut)
}

/// The RecordBatch message of the first `count` of these rows. Capacity for `room` bytes of its body is reserved at
/// once.
fn encode_ranges(
    alloc: Global,
    layouts: &[LayoutTree],
    rows: &RangeRows<'_>,
    count: usize,
    room: usize,
) -> Result<Encoded, AllocError>
    requires fits { FitsRanges layouts.now rows.now }
    requires within { count ≤ length (picked_left rows.now) }
    requires batch { IsBatch (kids_of layouts.now) (take count (picked_left rows.now)) }
    ensures bytes { IfOk result (λ bytes. bytes
        ≡ batch_messages [] (kids_of layouts.now) (take count (picked_left rows.now))) }
    ensures size { IfOk result (λ bytes. length bytes ≤ 2 ^ 29) }
{
    let ranges = cut_ranges(alloc, rows.ranges, rows.from, count)?;
    let body = write_body_from_picked_columns(alloc, layouts, rows.columns, &ranges, room)?;
    let message = record_message(alloc, count, body, Vec::new(alloc))?;
    Ok(message)
}

impl<'a> RowSource for RangeRows<'a> {
    ghost use Rattle.stream_writer.specs.RangeRows.{FitsRanges, picked_left};

    ghost rows = { picked_left };

    ghost coded = { λ r. [] };

    ghost fits = { λ r ls. FitsRanges ls r };

    fn is_empty(&self) -> bool {
        self.left == 0
    }

    fn len(&self) -> usize {
        self.left
    }

    fn len_of_batch(&self, _layouts: &[LayoutTree]) -> usize {
        self.left.min(MAX_BATCH_ROWS)
    }

    fn encode_batch(
        &self,
        alloc: Global,
        layouts: &[LayoutTree],
        count: usize,
        room: usize,
    ) -> Result<Encoded, AllocError> {
        encode_ranges(alloc, layouts, self, count, room)
    }

    fn skip(&mut self, count: usize) {
        let place = find_range(self.ranges, self.from + count);
        self.ranges = &self.ranges[place.ranges..];
        self.from = place.from;
        self.left -= count;
    }
}
