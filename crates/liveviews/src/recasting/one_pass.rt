//! `recast` in one pass: writes the rows of a stream while it reads them.

ghost use Rattle.std.specs.Prelude.{
  ◌≡◌,
  ◌≤◌,
  ◌<◌,
  ◌++◌,
  ℕ,
  List,
  [],
  IfErr,
  IfOk,
  OnOk,
  Err,
  Some,
  drop,
  length,
};
ghost use Rattle.schema_meta.specs.Story.{Story, story_of};
ghost use Rattle.body_writer.specs.RowRanges.{batch_rows};
ghost use Rattle.stream_writer.specs.Sinks.{Sunk};
ghost use Rattle.stream_writer.specs.Weights.{HasSizes};
ghost use Rattle.liveviews.specs.Source.{OfSource};
ghost use Rattle.liveviews.specs.Steps.{IsConsumed, IsOpen};
ghost use Rattle.liveviews.specs.Streams.{
  HasStreamed,
  HasWritten,
  IsBrought,
  KnowsSchema,
  OfEachBrought,
  OfEachStreamed,
  OfEachWritten,
  StopsWithin,
  Streams,
  StreamsOn,
  StreamsSource,
  unread_after,
  written_by,
};

use crate::files::FileFault;
use crate::laws::recast_law;
use crate::reading::next_message::{NextMessage, next_message};
use crate::reading::pieces::{next_piece, room};
use crate::recasting::batch::columns_law;
use crate::recasting::table::end;
use crate::recasting::whole::{RecastFault, SourceFault};
use body_writer::{Batch, heaviest_row};
use feed::{Feed, story_law};
use messages::first_message_law;
use schema_meta::{fields_law, logical_law};
use std::alloc::Global;
use std::io::Read;
use stream_writer::{Sink, TableWriter};
use values::Cause;
use values::limits::MAX_MAIN_ROWS;

/// A stream that is recast while it is read: its writer, from the first batch on, and how many rows were read.
#[derive(Drop)]
struct Streaming {
    writer: Option<TableWriter>,
    rows: usize,
}

/// Begins the writer of a stream without rows so far: `NoSchema` where it has no schema either.
fn begin_writer<S: Sink>(
    alloc: Global,
    feed: &Feed,
    sink: &mut S,
) -> Result<TableWriter, RecastFault>
    ensures written { IfOk result (λ w. (s : Story) → KnowsSchema s feed.now
        → HasWritten (S.sunk sink.old) (S.sunk sink.new) s (Some w) []) }
    ensures stops { IfErr result (λ f. (s : Story) → KnowsSchema s feed.now
        → StopsWithin (S.sunk sink.old) (S.sunk sink.new) f.cause f.written s) }
{
    // They do nothing: the proof takes from them that the schema can be written.
    fields_law();
    logical_law();
    let Some(schema) = feed.schema() else {
        return Err(RecastFault::from(Cause::NoSchema));
    };
    let Ok(schema) = schema.logical(alloc) else {
        return Err(RecastFault::from(Cause::Memory));
    };
    let writer = TableWriter::begin(alloc, sink, &schema)?;
    Ok(writer)
}

impl Streaming {
    /// The fault of a cause that is found where no put failed.
    fn fault(&self, cause: Cause) -> RecastFault
        ensures { result ≡ record { cause = cause; written = written_by self.now.writer } }
    {
        let written = match &self.writer {
            Some(writer) => writer.written(),
            None => 0,
        };
        RecastFault { cause, written }
    }

    /// Moves the writer out, which it begins where there is none yet.
    fn writer<S: Sink>(
        &mut self,
        alloc: Global,
        feed: &Feed,
        sink: &mut S,
    ) -> Result<TableWriter, RecastFault>
        ensures rows { self.new.rows ≡ self.old.rows }
        ensures written { IfOk result (λ w. OfEachWritten (S.sunk sink.old) feed.now self.old.writer
            (λ start s rows. HasWritten start (S.sunk sink.new) s (Some w) rows)) }
        ensures stops { IfErr result (λ f. OfEachWritten (S.sunk sink.old) feed.now self.old.writer
            (λ start s rows. StopsWithin start (S.sunk sink.new) f.cause f.written s)) }
    {
        match self.writer.take() {
            Some(writer) => Ok(writer),
            None => begin_writer(alloc, feed, sink),
        }
    }

    /// Accepts a batch: `TooManyRows` where there would be too many, `CellTooHeavy` where one is too heavy.
    fn take<S: Sink>(
        &mut self,
        alloc: Global,
        feed: &Feed,
        sink: &mut S,
        batch: Batch,
    ) -> Result<(), RecastFault>
        requires sized { HasSizes batch }
        requires brought { IsBrought (S.sunk sink.old) feed.now self.old batch }
        ensures streamed { OnOk result (OfEachBrought (S.sunk sink.old) feed.now self.old batch
            (λ start s rest. HasStreamed start (S.sunk sink.new) s feed.now self.new rest)) }
        ensures stops { IfErr result (λ f. OfEachBrought (S.sunk sink.old) feed.now self.old batch
            (λ start s rest. StopsWithin start (S.sunk sink.new) f.cause f.written s)) }
    {
        // It does nothing: the proof takes from it that the written columns hold what the stored ones do.
        logical_law();
        let count = batch.rows;
        if count > MAX_MAIN_ROWS.saturating_sub(self.rows) {
            return Err(self.fault(Cause::TooManyRows));
        }
        columns_law(&batch.columns);
        let Some(heaviest) = heaviest_row(&batch.columns, count) else {
            return Err(self.fault(Cause::CellTooHeavy));
        };
        let mut writer = self.writer(alloc, feed, sink)?;
        writer.take(alloc, sink, batch, heaviest)?;
        self.writer = Some(writer);
        self.rows += count;
        Ok(())
    }
}

/// Consumes the first message of a piece, or all of the piece where it ends before the message does, and returns how
/// many bytes were used.
fn take_message<S: Sink>(
    alloc: Global,
    feed: &mut Feed,
    piece: &[u8],
    streaming: &mut Streaming,
    sink: &mut S,
) -> Result<usize, RecastFault>
    requires open { IsOpen feed.old }
    requires some { 0 < length piece.now }
    requires streamed { (start : Sunk) × (s : Story) × (later : List ℕ)
        × HasStreamed start (S.sunk sink.old) s feed.old streaming.old (piece.now ++ later) }
    ensures open { OnOk result (IsOpen feed.new) }
    ensures used { IfOk result (λ n. (0 < n) × (n ≤ length piece.now)) }
    ensures streamed { IfOk result (λ n. StreamsOn (S.sunk sink.old) (S.sunk sink.new) feed.old streaming.old piece.now
        (drop n piece.now) feed.new streaming.new) }
    ensures stops { IfErr result (λ f. OfEachStreamed (S.sunk sink.old) feed.old streaming.old piece.now
        (λ start s later. StopsWithin start (S.sunk sink.new) f.cause f.written s)) }
{
    let next = match next_message(feed, piece) {
        Ok(next) => next,
        Err(cause) => return Err(streaming.fault(cause)),
    };
    let NextMessage { used, batch } = next;
    let Some(batch) = batch else {
        return Ok(used);
    };
    streaming.take(alloc, feed, sink, batch)?;
    Ok(used)
}

/// Consumes all messages of a piece, and what it has of one more.
fn take_messages<S: Sink>(
    alloc: Global,
    feed: &mut Feed,
    piece: &[u8],
    streaming: &mut Streaming,
    sink: &mut S,
) -> Result<(), RecastFault>
    requires open { IsOpen feed.old }
    requires streamed { (start : Sunk) × (s : Story) × (later : List ℕ)
        × HasStreamed start (S.sunk sink.old) s feed.old streaming.old (piece.now ++ later) }
    ensures open { OnOk result (IsOpen feed.new) }
    ensures streamed { OnOk result (StreamsOn (S.sunk sink.old) (S.sunk sink.new) feed.old streaming.old piece.now []
        feed.new streaming.new) }
    ensures stops { IfErr result (λ f. OfEachStreamed (S.sunk sink.old) feed.old streaming.old piece.now
        (λ start s later. StopsWithin start (S.sunk sink.new) f.cause f.written s)) }
{
    let mut rest = piece;
    while !rest.is_empty() {
        let used = take_message(alloc, feed, rest, streaming, sink)?;
        rest = &rest[used..];
    }
    Ok(())
}

/// Consumes all messages of a source.
fn take_source<R: Read, S: Sink>(
    alloc: Global,
    feed: &mut Feed,
    source: &mut R,
    streaming: &mut Streaming,
    sink: &mut S,
) -> Result<(), SourceFault>
    requires open { IsOpen feed.old }
    requires begins { (input : List ℕ)
        → HasStreamed (S.sunk sink.old) (S.sunk sink.old) (story_of input) feed.old streaming.old input }
    ensures open { OnOk result (IsOpen feed.new) }
    ensures streamed { OnOk result (OfSource (R.remaining source.old)
        (λ input. HasStreamed (S.sunk sink.old) (S.sunk sink.new) (story_of input) feed.new streaming.new [])) }
    ensures stops { IfErr result
        (λ f. StreamsSource (R.remaining source.old) (S.sunk sink.old) (S.sunk sink.new) (Err f)) }
{
    let Ok(mut room) = room(alloc) else {
        return Err(SourceFault::Refused(streaming.fault(Cause::Memory)));
    };
    for _ in 0..u64::MAX {
        let len = match next_piece(source, &mut room, feed.missing()) {
            Ok(len) => len,
            Err(fault) => return Err(unread(streaming, fault)),
        };
        if len == 0 {
            return Ok(());
        }
        if let Err(fault) = take_messages(alloc, feed, &room[..len], streaming, sink) {
            return Err(SourceFault::Refused(fault));
        }
    }
    Err(SourceFault::Unreadable)
}

/// The fault of a source that can't be read to its end.
fn unread(streaming: &Streaming, fault: FileFault) -> SourceFault
    ensures { result ≡ unread_after (written_by streaming.now.writer) fault }
{
    match fault {
        FileFault::Unusable => SourceFault::Unreadable,
        FileFault::Memory => SourceFault::Refused(streaming.fault(Cause::Memory)),
    }
}

/// Ends the input of a feed, and puts the rest of the canonical stream.
fn finish<S: Sink>(
    alloc: Global,
    feed: &mut Feed,
    streaming: &mut Streaming,
    sink: &mut S,
) -> Result<u64, RecastFault>
    requires open { IsOpen feed.old }
    requires streamed { (start : Sunk) × (s : Story)
        × HasStreamed start (S.sunk sink.old) s feed.old streaming.old [] }
    ensures streams { (start : Sunk) (input : List ℕ)
        → HasStreamed start (S.sunk sink.old) (story_of input) feed.old streaming.old []
        → Streams start (S.sunk sink.new) result (story_of input) }
    ensures accepted { OnOk result ((start : Sunk) (input : List ℕ)
        → HasStreamed start (S.sunk sink.old) (story_of input) feed.old streaming.old []
        → IsConsumed (story_of input)) }
{
    // It does nothing: the proof takes from it that what is written is read back.
    recast_law();
    if let Err(cause) = end(feed) {
        return Err(streaming.fault(cause));
    }
    let writer = streaming.writer(alloc, feed, sink)?;
    let written = writer.end(alloc, sink)?;
    Ok(written)
}

/// Recasts the whole stream that a source holds, as [`recast_from`](crate::recast_from) does, but writes while it
/// reads: however long the stream is, it buffers fewer than 1,024 rows, in the batches in which they came, and the
/// dictionaries.
///
/// Where the stream is refused, the sink took a prefix of a canonical stream, which is to be discarded, and the rest of
/// the source may be left unread.
pub fn recast_through<R: Read, S: Sink>(
    alloc: Global,
    source: &mut R,
    sink: &mut S,
) -> Result<u64, SourceFault>
    ensures streams { StreamsSource (R.remaining source.old) (S.sunk sink.old) (S.sunk sink.new) result }

    // On Ok no limit is exceeded either, as `recast` says it.
    ensures accepted { OnOk result (OfSource (R.remaining source.old)
        (λ input. IsConsumed (story_of input))) }
{
    // They do nothing: the proof takes from them that nothing is reported before the first byte.
    first_message_law();
    story_law();
    let mut feed = Feed::open(alloc, None);
    let mut streaming = Streaming {
        writer: None,
        rows: 0,
    };
    take_source(alloc, &mut feed, source, &mut streaming, sink)?;
    match finish(alloc, &mut feed, &mut streaming, sink) {
        Ok(written) => Ok(written),
        Err(fault) => Err(SourceFault::Refused(fault)),
    }
}
