//! Reads a whole stream into a table.

ghost use Rattle.std.specs.Prelude.{◌≡◌, ◌≤◌, ◌<◌, ◌++◌, ℕ, List, [], All, IfErr, IfOk, OnOk, drop, length};
ghost use Rattle.liveviews.specs.Buffered.{IsBufferedSo, IsCounted, IsWritable, buffered_rows};
ghost use Rattle.values.specs.Datum.{Datum};
ghost use Rattle.schema_meta.specs.Story.{Story, story_of};
ghost use Rattle.schema_meta.specs.Means.{Means};
ghost use Rattle.stream_writer.specs.Table.{IsTable};
ghost use Rattle.liveviews.specs.Source.{OfSource};
ghost use Rattle.liveviews.specs.Steps.{
  HasConsumed,
  HasConsumedAll,
  IsComplete,
  IsConsumed,
  IsOpen,
  IsRead,
  Reached,
  Refuses,
};

use crate::files::FileFault;
use crate::reading::next_message::{NextMessage, next_message};
use crate::reading::pieces::{next_piece, room};
use crate::recasting::buffered_batches::BufferedBatches;
use body_writer::Batch;
use feed::{Feed, story_law};
use messages::first_message_law;
use schema_meta::{fields_law, logical_law};
use std::alloc::Global;
use std::io::Read;
use values::{Cause, Schema};

/// A table: its columns and its rows.
#[derive(Drop)]
pub(crate) struct Table {
    pub schema: Schema,
    pub rows: BufferedBatches,
}

/// Consumes the first message of a piece, or all of the piece where it ends before the message does, and returns how
/// many bytes were used.
///
/// The contract holds for any stream from which these rows were read, whatever bytes come after the piece.
fn take_message(feed: &mut Feed, piece: &[u8], rows: &mut BufferedBatches) -> Result<usize, Cause>
    requires open { IsOpen feed.old }
    requires some { 0 < length piece.now }
    requires counted { IsCounted rows.old }
    ensures open { OnOk result (IsOpen feed.new) }
    ensures counted { OnOk result (IsCounted rows.new) }
    ensures used { IfOk result (λ n. (0 < n) × (n ≤ length piece.now)) }
    ensures taken { IfOk result (λ n. (s : Story) (later : List ℕ)
        → HasConsumed s feed.old rows.old (piece.now ++ later)
        → HasConsumed s feed.new rows.new (drop n piece.now ++ later)) }
    ensures refused { IfErr result (λ c. (s : Story) (later : List ℕ)
        → HasConsumed s feed.old rows.old (piece.now ++ later) → Refuses s c) }
{
    let next = next_message(feed, piece)?;
    let NextMessage { used, batch } = next;
    let Some(batch) = batch else {
        return Ok(used);
    };
    let Batch {
        columns,
        rows: count,
    } = batch;
    rows.take(columns, count)?;
    Ok(used)
}

/// Consumes all messages of a piece, and what it has of one more.
fn take_messages(feed: &mut Feed, piece: &[u8], rows: &mut BufferedBatches) -> Result<(), Cause>
    requires open { IsOpen feed.old }
    requires counted { IsCounted rows.old }
    ensures open { OnOk result (IsOpen feed.new) }
    ensures counted { OnOk result (IsCounted rows.new) }
    ensures taken { OnOk result ((s : Story) (later : List ℕ) → HasConsumed s feed.old rows.old (piece.now ++ later)
        → HasConsumed s feed.new rows.new later) }
    ensures refused { IfErr result (λ c. (s : Story) (later : List ℕ)
        → HasConsumed s feed.old rows.old (piece.now ++ later) → Refuses s c) }
{
    let mut rest = piece;
    while !rest.is_empty() {
        let used = take_message(feed, rest, rows)?;
        rest = &rest[used..];
    }
    Ok(())
}

/// Consumes all messages of a source.
fn take_source<R: Read>(
    alloc: Global,
    feed: &mut Feed,
    source: &mut R,
    rows: &mut BufferedBatches,
) -> Result<Result<(), Cause>, FileFault>
    requires open { IsOpen feed.old }
    requires counted { IsCounted rows.old }
    requires begins { (input : List ℕ) → HasConsumed (story_of input) feed.old rows.old input }
    ensures open { IfOk result (λ all. OnOk all (IsOpen feed.new)) }
    ensures counted { IfOk result (λ all. OnOk all (IsCounted rows.new)) }
    ensures taken { IfOk result (λ all. OfSource (R.remaining source.old) (HasConsumedAll feed.new rows.new all)) }
{
    let mut room = room(alloc)?;
    for _ in 0..u64::MAX {
        let len = next_piece(source, &mut room, feed.missing())?;
        if len == 0 {
            return Ok(Ok(()));
        }
        if let Err(cause) = take_messages(feed, &room[..len], rows) {
            return Ok(Err(cause));
        }
    }
    Err(FileFault::Unusable)
}

/// Ends the input of a feed.
pub(crate) fn end(feed: &mut Feed) -> Result<(), Cause>
    requires open { IsOpen feed.old }
    ensures complete { OnOk result ((s : Story) (rows : List (List Datum)) → Reached s feed.old rows []
        → IsComplete s feed.new rows) }
    ensures refused { IfErr result (λ c. (s : Story) (rows : List (List Datum)) → Reached s feed.old rows []
        → Refuses s c) }
{
    // It does nothing: the proof takes from it what a stream means that ends within a message.
    story_law();
    feed.finish()?;
    Ok(())
}

/// The table of a stream that has ended, from which these rows were read.
fn finish(alloc: Global, feed: &Feed, rows: BufferedBatches) -> Result<Table, Cause>
    ensures means { IfOk result (λ t. (s : Story) → IsComplete s feed.now (buffered_rows rows)
        → Means s t.schema.fields.items (buffered_rows t.rows)) }
    ensures within { IfOk result (λ t. (s : Story) → IsComplete s feed.now (buffered_rows rows)
        → IsTable t.schema.fields.items (buffered_rows t.rows)) }
    ensures kept { IfOk result (λ t. (s : Story) → IsComplete s feed.now (buffered_rows rows)
        → IsBufferedSo s.schema rows
        → IsWritable t.schema.fields.items t.rows) }
    ensures same { IfOk result (λ t. t.rows ≡ rows) }
    ensures lacks { IfErr result (λ c. (s : Story) → IsComplete s feed.now (buffered_rows rows) → Refuses s c) }
{
    // They do nothing: the proof takes from them that the schema can be written, with these rows.
    fields_law();
    logical_law();
    let Some(schema) = feed.schema() else {
        return Err(Cause::NoSchema);
    };
    let schema = schema.logical(alloc)?;
    Ok(Table { schema, rows })
}

/// The table of a stream of which all messages were consumed.
fn complete(alloc: Global, feed: &mut Feed, rows: BufferedBatches) -> Result<Table, Cause>
    requires open { IsOpen feed.old }
    requires counted { IsCounted rows }
    ensures means { IfOk result (λ t. (s : Story) → HasConsumed s feed.old rows []
        → Means s t.schema.fields.items (buffered_rows t.rows)) }
    ensures within { IfOk result (λ t. (s : Story) → HasConsumed s feed.old rows []
        → IsTable t.schema.fields.items (buffered_rows t.rows)) }
    ensures counted { IfOk result (λ t. IsCounted t.rows) }
    ensures kept { IfOk result (λ t. (s : Story) → HasConsumed s feed.old rows []
        → IsWritable t.schema.fields.items t.rows) }
    ensures accepted { OnOk result ((s : Story) → HasConsumed s feed.old rows [] → IsConsumed s) }
    ensures refused { IfErr result (λ c. (s : Story) → HasConsumed s feed.old rows [] → Refuses s c) }
{
    end(feed)?;
    finish(alloc, feed, rows)
}

impl Table {
    /// Reads a whole stream: its columns, and the rows of all its batches.
    ///
    /// The error is a fault of the stream, `TooManyRows` above 2^24 rows, `CellTooHeavy` or `Memory`. Where several
    /// apply, any of them is given.
    pub fn read(alloc: Global, input: &[u8]) -> Result<Table, Cause>
        ensures means { IfOk result (λ t. Means (story_of input.now) t.schema.fields.items (buffered_rows t.rows)) }
        ensures within { IfOk result (λ t. IsTable t.schema.fields.items (buffered_rows t.rows)) }
        ensures counted { IfOk result (λ t. IsCounted t.rows) }
        ensures kept { IfOk result (λ t. IsWritable t.schema.fields.items t.rows) }
        ensures accepted { OnOk result (IsConsumed (story_of input.now)) }
        ensures refused { IfErr result (Refuses (story_of input.now)) }
    {
        // They do nothing: the proof takes from them that nothing is reported before the first byte.
        first_message_law();
        story_law();
        let mut feed = Feed::open(alloc, None);
        let mut rows = BufferedBatches::new(alloc);
        take_messages(&mut feed, input, &mut rows)?;
        complete(alloc, &mut feed, rows)
    }

    /// The table that the whole stream of a source means, read piece by piece, as [`Table::read`] says.
    ///
    /// The outer error is a source that can't be read, or want of memory.
    pub fn read_from<R: Read>(
        alloc: Global,
        source: &mut R,
    ) -> Result<Result<Table, Cause>, FileFault>
        ensures read { IfOk result (λ read. OfSource (R.remaining source.old) (IsRead read)) }
        ensures within { IfOk result (λ read. IfOk read (λ t. IsTable t.schema.fields.items (buffered_rows t.rows))) }
        ensures counted { IfOk result (λ read. IfOk read (λ t. IsCounted t.rows)) }
        ensures kept { IfOk result (λ read. IfOk read (λ t. IsWritable t.schema.fields.items t.rows)) }
    {
        // They do nothing: the proof takes from them that nothing is reported before the first byte.
        first_message_law();
        story_law();
        let mut feed = Feed::open(alloc, None);
        let mut rows = BufferedBatches::new(alloc);
        let taken = take_source(alloc, &mut feed, source, &mut rows)?;
        match taken {
            Ok(()) => Ok(complete(alloc, &mut feed, rows)),
            Err(cause) => Ok(Err(cause)),
        }
    }
}
