//! Sources of the rows of a table: values, or batches of checked columns.

use crate::coded_batch::coded_batch;
use crate::encoded::Encoded;
use std::alloc::{AllocError, Global};
use values::{LayoutTree, Row};

/// Rows that remain to be written.
pub(crate) trait RowSource {
    ghost use Rattle.std.specs.Prelude.{◌≡◌, ℕ, ◌*◌, ◌==◌, ◌^◌, ◌≤◌, All, IfOk, List, length, take, drop};
    ghost use Rattle.values.specs.Limits.{max_row_weight};
    ghost use Rattle.values.specs.Datum.{Datum};
    ghost use Rattle.values.specs.Rose.{Rose, kids_of};
    ghost use Rattle.values.specs.declared.layout.Layout.{Layout};
    ghost use Rattle.body_writer.specs.Batch.{IsBatch, row_weight};
    ghost use Rattle.stream_writer.specs.Stream.{batch_len, batch_messages};

    ghost rows: { Self → List (List Datum) };

    // the positions of the columns that are coded
    ghost coded: { Self → List ℕ };

    // what must hold of the rows, where the columns have these layouts
    ghost fits: { Self → List (Rose Layout) → Type 0 };

    /// Whether no row remains.
    fn is_empty(&self) -> bool
        requires { (ls : List (Rose Layout)) × fits self.now ls }
        ensures { result ≡ (length (rows self.now) == 0) };

    /// How many rows remain.
    fn len(&self) -> usize
        requires { (ls : List (Rose Layout)) × fits self.now ls }
        ensures { result ≡ length (rows self.now) };

    /// How many rows the next batch has.
    fn len_of_batch(&self, layouts: &[LayoutTree]) -> usize
        requires fits { fits self.now layouts.now }
        requires light { All (λ row. row_weight (kids_of layouts.now) row ≤ max_row_weight) (rows self.now) }
        ensures value { result ≡ batch_len (kids_of layouts.now) (rows self.now) }
        ensures bound { result ≤ length (rows self.now) };

    /// The messages of the batch of the first `count` rows: dictionaries, and the record batch. Capacity for `room`
    /// bytes of its body is reserved at once.
    fn encode_batch(
        &self,
        alloc: Global,
        layouts: &[LayoutTree],
        count: usize,
        room: usize,
    ) -> Result<Encoded, AllocError>
        requires fits { fits self.now layouts.now }
        requires within { count ≤ length (rows self.now) }
        requires batch { IsBatch (kids_of layouts.now) (take count (rows self.now)) }
        ensures bytes { IfOk result (λ bytes. bytes
            ≡ batch_messages (coded self.now) (kids_of layouts.now) (take count (rows self.now))) }
        ensures size { IfOk result (λ bytes. length bytes ≤ 3 * 2 ^ 38) };

    /// Drops the first `count` rows.
    fn skip(&mut self, count: usize)
        requires fits { (ls : List (Rose Layout)) × fits self.old ls }
        requires within { count ≤ length (rows self.old) }
        ensures rows { rows self.new ≡ drop count (rows self.old) }
        ensures coded { coded self.new ≡ coded self.old }
        ensures fits { (ls : List (Rose Layout)) → fits self.old ls → fits self.new ls };
}

ghost use Rattle.std.specs.Prelude.{◌≡◌, ◌≤◌, All, length, map};
ghost use Rattle.values.specs.Limits.{max_row_weight};
ghost use Rattle.values.specs.Rose.{kids_of};
ghost use Rattle.body_writer.specs.Batch.{row_weight};
ghost use Rattle.stream_writer.specs.Stream.{batch_len};

use values::limits::{MAX_BATCH_ROWS, MAX_BATCH_WEIGHT};
use values::row_weight;

/// Rows as lists of values, and the positions of the columns that are coded.
#[derive(Drop)]
pub(crate) struct ValueRows<'a> {
    pub rows: &'a [Row],
    pub coded: &'a [usize],
}

impl<'a> RowSource for ValueRows<'a> {
    ghost use Rattle.std.specs.Prelude.{map};
    ghost use Rattle.stream_writer.specs.Coding.{AreTextsIn};

    ghost rows = { λ r. map (λ row. row.items) r.rows.now };

    ghost coded = { λ r. r.coded.now };

    ghost fits = { λ r ls. AreTextsIn r.coded.now (kids_of ls) };

    fn is_empty(&self) -> bool {
        self.rows.is_empty()
    }

    fn len(&self) -> usize {
        self.rows.len()
    }

    fn len_of_batch(&self, layouts: &[LayoutTree]) -> usize {
        len_of_batch(layouts, self.rows)
    }

    fn encode_batch(
        &self,
        alloc: Global,
        layouts: &[LayoutTree],
        count: usize,
        room: usize,
    ) -> Result<Encoded, AllocError> {
        coded_batch(alloc, layouts, self.coded, &self.rows[..count], room)
    }

    fn skip(&mut self, count: usize) {
        self.rows = &self.rows[count..];
    }
}

/// How many rows the next batch has: as many as are within the limits on rows and on weight.
#[tactic(auto, unfolding(crate::specs::Stream::batch_len))]
fn len_of_batch(layouts: &[LayoutTree], rows: &[Row]) -> usize
    requires { All (λ row. row_weight (kids_of layouts.now) row ≤ max_row_weight) (map (λ row. row.items) rows.now) }
    ensures value { result ≡ batch_len (kids_of layouts.now) (map (λ row. row.items) rows.now) }
    ensures bound { result ≤ length rows.now }
{
    let mut count = 0;
    let mut room = MAX_BATCH_WEIGHT;
    for row in rows {
        if count == MAX_BATCH_ROWS {
            return count;
        }
        let weight = row_weight(layouts, row);
        if room < weight {
            return count;
        }
        room -= weight;
        count += 1;
    }
    count
}
