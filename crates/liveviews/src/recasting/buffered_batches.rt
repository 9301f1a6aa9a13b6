//! The batches that were read from a stream.

ghost use Rattle.std.specs.Prelude.{◌≡◌, ◌++◌, All, IfErr, OnOk, [], length};
ghost use Rattle.schema_meta.specs.Rows.{rows_in};
ghost use Rattle.feed.specs.Columns.{cells_in, layouts_in};
ghost use Rattle.body_writer.specs.RowRanges.{rows_of};
ghost use Rattle.stream_writer.specs.Sinks.{Writes};
ghost use Rattle.stream_writer.specs.Stream.{canon};
ghost use Rattle.stream_writer.specs.Table.{IsTable};
ghost use Rattle.liveviews.specs.Taken.{AreAccepted};
ghost use Rattle.liveviews.specs.Buffered.{IsBuffered, IsCounted, IsWritable, buffered_rows};
ghost use Rattle.liveviews.specs.Refused.{RefusesBatch};

use crate::recasting::batch::columns_law;
use arrays::Column;
use body_writer::{Batch, MAX_LIGHT_ROW, heaviest_row};
use std::alloc::Global;
use stream_writer::{Sink, WriteFault, weights_in, write_batches, write_weighed_batches};
use values::limits::MAX_MAIN_ROWS;
use values::{Cause, Schema};

/// The batches of a stream so far, the number of their rows, and an upper bound on the weights of these rows.
#[derive(Drop)]
pub(crate) struct BufferedBatches {
    pub batches: Vec<Batch>,
    pub rows: usize,
    pub heaviest: u64,
}

impl BufferedBatches {
    /// No batches.
    pub fn new(alloc: Global) -> BufferedBatches
        ensures counted { IsCounted result }
        ensures none { result.batches.items ≡ [] }
    {
        BufferedBatches {
            batches: Vec::new(alloc),
            rows: 0,
            heaviest: 0,
        }
    }

    /// Adds a batch of `count` rows: `TooManyRows` where there would be too many, `CellTooHeavy` where one is too
    /// heavy.
    pub fn take(&mut self, columns: Vec<Column>, count: usize) -> Result<(), Cause>
        requires cells { All (λ c. length c.cells ≡ count) columns.items }
        requires counted { IsCounted self.old }
        ensures counted { OnOk result (IsCounted self.new) }
        ensures rows { OnOk result (buffered_rows self.new ≡ buffered_rows self.old
            ++ rows_in count (cells_in columns.items)) }
        ensures taken { OnOk result (AreAccepted (layouts_in columns.items) (buffered_rows self.old)
            → AreAccepted (layouts_in columns.items) (buffered_rows self.new)) }
        ensures kept { OnOk result (IsBuffered (length columns.items) (layouts_in columns.items) self.old
            → IsBuffered (length columns.items) (layouts_in columns.items) self.new) }
        ensures refused { IfErr result
            (RefusesBatch (layouts_in columns.items) (rows_in count (cells_in columns.items)) self.old.rows) }
    {
        if count > MAX_MAIN_ROWS.saturating_sub(self.rows) {
            return Err(Cause::TooManyRows);
        }
        columns_law(&columns);
        let Some(heaviest) = heaviest_row(&columns, count) else {
            return Err(Cause::CellTooHeavy);
        };
        self.batches.push(Batch {
            columns,
            rows: count,
        })?;
        self.rows += count;
        self.heaviest = self.heaviest.max(heaviest);
        Ok(())
    }

    /// Writes the canonical stream of these rows. They are weighed one by one only where one is so heavy that a batch
    /// might be cut short by its weight.
    pub fn write<S: Sink>(
        &self,
        alloc: Global,
        sink: &mut S,
        schema: &Schema,
    ) -> Result<u64, WriteFault>
        requires table { IsTable schema.now.fields.items (buffered_rows self.now) }
        requires counted { IsCounted self.now }
        requires kept { IsWritable schema.now.fields.items self.now }
        ensures { Writes (S.sunk sink.old) (S.sunk sink.new) result
            (canon schema.now.fields.items (buffered_rows self.now)) }
    {
        if self.heaviest <= MAX_LIGHT_ROW {
            return write_batches(alloc, sink, schema, &self.batches, self.rows);
        }
        let weights = weights_in(alloc, &self.batches)?;
        write_weighed_batches(alloc, sink, schema, &self.batches, &weights)
    }
}
