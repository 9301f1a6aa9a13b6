//! Rows that lie at single locations in batches, of which some columns are written.

ghost use Rattle.std.specs.Prelude.{◌≡◌, ◌^◌, ◌≤◌, All, IfOk, [], length, take};
ghost use Rattle.values.specs.Rose.{kids_of};
ghost use Rattle.body_writer.specs.Batch.{IsBatch};
ghost use Rattle.body_writer.specs.Picked.{picked_rows};
ghost use Rattle.body_writer.specs.Locations.{AreRowsOf, IsWritable};
ghost use Rattle.stream_writer.specs.JoinedRows.{AreArrays, HaveJoined, joined_rows};
ghost use Rattle.stream_writer.specs.PlaceRows.{FitsLocations, placed_left};
ghost use Rattle.stream_writer.specs.Stream.{batch_messages};

use crate::encoded::Encoded;
use crate::joined_rows::JoinedRows;
use crate::messages::record_message;
use crate::rows::RowSource;
use body_writer::{BatchArrays, LocatedColumn, write_body_from_locations};
use std::alloc::{AllocError, Global};
use values::LayoutTree;
use values::limits::MAX_BATCH_ROWS;

/// These rows, with the cells of the columns at these positions, which lie in these arrays. They are so light that a
/// batch of 1,024 of them is within the limit on weight.
#[derive(Drop)]
pub(crate) struct PlaceRows<'a> {
    pub columns: &'a [usize],
    pub arrays: &'a [BatchArrays<'a>],
    pub rows: JoinedRows<'a>,
}

/// The columns that are written of these rows.
fn located_columns<'a>(
    alloc: Global,
    columns: &[usize],
    arrays: &'a [BatchArrays<'a>],
    rows: &JoinedRows<'a>,
) -> Result<Vec<LocatedColumn<'a>>, AllocError>
    requires arrays { AreArrays rows.now columns.now arrays.now }
    requires have { HaveJoined columns.now rows.now }
    ensures writable { IfOk result (λ placed. All IsWritable placed.items) }
    ensures cells { IfOk result (λ placed. AreRowsOf placed.items (picked_rows columns.now (joined_rows rows.now))) }
    ensures many { IfOk result (λ placed. length placed.items ≡ length columns.now) }
{
    let mut placed = Vec::with_capacity(alloc, columns.len())?;
    for j in 0..columns.len() {
        placed.push(LocatedColumn {
            arrays: &arrays[j],
            rows: *rows.half(columns[j]),
        })?;
    }
    Ok(placed)
}

/// The RecordBatch message of the first `count` of these rows. Capacity for `room` bytes of its body is reserved at
/// once.
fn encode_locations(
    alloc: Global,
    layouts: &[LayoutTree],
    left: &PlaceRows<'_>,
    count: usize,
    room: usize,
) -> Result<Encoded, AllocError>
    requires fits { FitsLocations layouts.now left.now }
    requires within { count ≤ length left.now.rows.main.locations.now }
    requires batch { IsBatch (kids_of layouts.now) (take count (placed_left left.now)) }
    ensures bytes { IfOk result (λ bytes. bytes
        ≡ batch_messages [] (kids_of layouts.now) (take count (placed_left left.now))) }
    ensures size { IfOk result (λ bytes. length bytes ≤ 2 ^ 29) }
{
    let first = left.rows.first(count);
    let columns = located_columns(alloc, left.columns, left.arrays, &first)?;
    let body = write_body_from_locations(alloc, layouts, &columns, room)?;
    let message = record_message(alloc, count, body, Vec::new(alloc))?;
    Ok(message)
}

impl<'a> RowSource for PlaceRows<'a> {
    ghost use Rattle.stream_writer.specs.PlaceRows.{FitsLocations, placed_left};

    ghost rows = { placed_left };

    ghost coded = { λ r. [] };

    ghost fits = { λ r ls. FitsLocations ls r };

    fn is_empty(&self) -> bool {
        self.rows.main.locations.is_empty()
    }

    fn len(&self) -> usize {
        self.rows.main.locations.len()
    }

    fn len_of_batch(&self, _layouts: &[LayoutTree]) -> usize {
        self.rows.main.locations.len().min(MAX_BATCH_ROWS)
    }

    fn encode_batch(
        &self,
        alloc: Global,
        layouts: &[LayoutTree],
        count: usize,
        room: usize,
    ) -> Result<Encoded, AllocError> {
        encode_locations(alloc, layouts, self, count, room)
    }

    fn skip(&mut self, count: usize) {
        self.rows = self.rows.rest(count);
    }
}
