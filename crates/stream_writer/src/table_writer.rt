//! Writes a table whose rows come batch by batch, and holds only the rows that later ones may still join in a batch.

ghost use Rattle.std.specs.Prelude.{
  ◌≡◌,
  ℕ,
  ◌+◌,
  ◌^◌,
  ◌<◌,
  ◌≤◌,
  ◌++◌,
  All,
  IfErr,
  IfOk,
  List,
  [],
  OnOk,
  drop,
  length,
  min,
};
ghost use Rattle.values.specs.Datum.{Datum};
ghost use Rattle.values.specs.Layouts.{AreLayouts};
ghost use Rattle.values.specs.Logical.{NamedType};
ghost use Rattle.values.specs.Rose.{Rose};
ghost use Rattle.values.specs.declared.layout.Layout.{Layout};
ghost use Rattle.schema_meta.specs.SchemaTree.{AreColumns};
ghost use Rattle.body_writer.specs.RowRanges.{batch_rows, rows_of};
ghost use Rattle.stream_writer.specs.BatchRows.{FitsBatches, HasRows, IsInFirst, rows_left};
ghost use Rattle.stream_writer.specs.Progress.{StopsIn};
ghost use Rattle.stream_writer.specs.Sinks.{Sunk, Writes};
ghost use Rattle.stream_writer.specs.Stream.{canon, trees};
ghost use Rattle.stream_writer.specs.TableWriters.{
  Holds,
  HoldsToo,
  IsWeighable,
  IsWriting,
  MayCome,
  StopsWriting,
  WritesToo,
  rows_held,
};

use crate::batch_rows::{BatchRows, find_row};
use crate::faults::WriteFault;
use crate::layouts::layouts_of;
use crate::progress::{Progress, put_closed, put_rest, put_schema};
use crate::sink::Sink;
use crate::weighing::add_weights;
use body_writer::Batch;
use std::alloc::{AllocError, Global};
use values::{LayoutTree, Schema};

/// A table that is written while its rows come. The batches that later rows can't change were put; the rows after them
/// are held, in the batches in which they came. They are fewer than 1,024, and there are no more of these batches than
/// rows.
#[derive(Drop)]
pub struct TableWriter {
    layouts: Vec<LayoutTree>,
    held: Vec<Batch>,
    from: usize,
    left: usize,
    weights: Vec<u64>,
    written: u64,
}

impl TableWriter {
    /// Puts the Schema message of a table with these columns, without rows so far.
    ///
    /// On an error the sink took a prefix of that message.
    pub fn begin<S: Sink>(
        alloc: Global,
        sink: &mut S,
        schema: &Schema,
    ) -> Result<TableWriter, WriteFault>
        requires columns { AreColumns schema.now.fields.items }
        requires known { AreLayouts (trees schema.now.fields.items) }
        ensures writing { IfOk result (IsWriting (S.sunk sink.old) (S.sunk sink.new) schema.now.fields.items []) }
        ensures stops { IfErr result
            (λ fault. StopsIn (S.sunk sink.old) (S.sunk sink.new) fault schema.now.fields.items [] []) }
    {
        let layouts = layouts_of(alloc, schema)?;
        let written = put_schema(alloc, sink, schema, &[], None)?;
        Ok(TableWriter {
            layouts,
            held: Vec::new(alloc),
            from: 0,
            left: 0,
            weights: Vec::new(alloc),
            written,
        })
    }

    /// Accepts the rows of the next batch, none of which weighs more than `heaviest`, and puts the batches that no
    /// later row can change.
    ///
    /// On an error the sink took a prefix of the canonical stream of each table that begins with the rows so far, and
    /// the writer must not be used again.
    pub fn take<S: Sink>(
        &mut self,
        alloc: Global,
        sink: &mut S,
        batch: Batch,
        heaviest: u64,
    ) -> Result<(), WriteFault>
        requires comes { (start : Sunk) × (fs : List (Rose NamedType)) × (rows : List (List Datum))
            × IsWriting start (S.sunk sink.old) fs rows self.old × MayCome fs rows batch heaviest }
        ensures writing { OnOk result (WritesToo (S.sunk sink.old) (S.sunk sink.new) batch heaviest self.old self.new) }
        ensures stops { IfErr result (StopsWriting (S.sunk sink.old) (S.sunk sink.new) batch heaviest self.old) }
    {
        let Ok(()) = self.hold(alloc, batch, heaviest) else {
            return Err(WriteFault::Memory {
                written: self.written,
            });
        };
        let all = self.left;
        let Progress { written, left } = put_closed(
            alloc,
            sink,
            &self.layouts,
            self.source(),
            self.written,
        )?;
        self.written = written;
        self.left = left;
        match self.release(all - left) {
            Ok(()) => Ok(()),
            Err(_) => Err(WriteFault::Memory { written }),
        }
    }

    /// How many bytes were put.
    pub fn written(&self) -> u64
        ensures { result ≡ self.now.written }
    {
        self.written
    }

    /// The held rows, as they are written.
    fn source<'a>(&'a self) -> BatchRows<'a>
        requires { (start : Sunk) × (now : Sunk) × (fs : List (Rose NamedType)) × (rows : List (List Datum))
            × Holds start now fs rows self.now }
        ensures rows { rows_left result ≡ rows_held self.now }
        ensures fits { FitsBatches self.now.layouts.items result }
    {
        BatchRows {
            batches: &self.held,
            from: self.from,
            left: self.left,
            weights: &self.weights,
        }
    }

    /// Adds a batch to the held ones, if it has a row, and weighs its rows where one of the held rows is not light.
    fn hold(&mut self, alloc: Global, batch: Batch, heaviest: u64) -> Result<(), AllocError>
        requires comes { (start : Sunk) × (now : Sunk) × (fs : List (Rose NamedType)) × (rows : List (List Datum))
            × Holds start now fs rows self.old × MayCome fs rows batch heaviest }
        ensures holds { OnOk result (HoldsToo batch heaviest self.old self.new) }
        ensures same { self.new.written ≡ self.old.written }
    {
        if batch.rows == 0 {
            return Ok(());
        }
        add_weights(
            alloc,
            &self.held,
            self.from,
            &batch,
            heaviest,
            &mut self.weights,
        )?;
        self.left += batch.rows;
        self.held.push(batch)?;
        Ok(())
    }

    /// Drops the first `count` held rows, and each batch that has no other.
    fn release(&mut self, count: usize) -> Result<(), AllocError>
        requires within { count ≤ length (rows_held self.old) }
        requires place { self.old.from ≤ length (rows_of self.old.held.items) }
        requires small { self.old.from + count < 2 ^ 32 }
        ensures rows { OnOk result (rows_held self.new ≡ drop count (rows_held self.old)) }
        ensures each { OnOk result ((ls : List (Rose Layout)) → All (IsWeighable ls) self.old.held.items
            → All (IsWeighable ls) self.new.held.items) }
        ensures weights { OnOk result
            (self.new.weights.items ≡ drop (min count (length self.old.weights.items)) self.old.weights.items) }
        ensures place { OnOk result (self.new.from ≤ length (rows_of self.new.held.items)) }
        ensures bound { OnOk result (self.new.from ≤ self.old.from + count) }
        ensures filled { OnOk result (All HasRows self.old.held.items → All HasRows self.new.held.items) }
        ensures first { OnOk result (IsInFirst self.old.from self.old.held.items
            → IsInFirst self.new.from self.new.held.items) }
        ensures same { (self.new.layouts ≡ self.old.layouts) × (self.new.left ≡ self.old.left)
            × (self.new.written ≡ self.old.written) }
    {
        if count == 0 {
            return Ok(());
        }
        let place = find_row(&self.held, self.from + count);
        let weighed = count.min(self.weights.len());
        self.held = self.held.split_off(place.batches)?;
        self.weights = self.weights.split_off(weighed)?;
        self.from = place.from;
        Ok(())
    }

    /// Puts the held rows and the end mark, and returns the length of the whole stream in bytes.
    ///
    /// On an error the sink took a prefix of that stream: `written` bytes.
    pub fn end<S: Sink>(self, alloc: Global, sink: &mut S) -> Result<u64, WriteFault>
        requires writing { (start : Sunk) × (fs : List (Rose NamedType)) × (rows : List (List Datum))
            × IsWriting start (S.sunk sink.old) fs rows self }
        ensures { (start : Sunk) (fs : List (Rose NamedType)) (rows : List (List Datum))
            → IsWriting start (S.sunk sink.old) fs rows self
            → Writes start (S.sunk sink.new) result (canon fs rows) }
    {
        put_rest(alloc, sink, &self.layouts, self.source(), self.written)
    }
}
