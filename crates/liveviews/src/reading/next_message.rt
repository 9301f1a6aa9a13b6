//! Consumes a stream message by message.

ghost use Rattle.std.specs.Prelude.{◌≡◌, ◌≤◌, ◌<◌, ◌++◌, IfErr, IfOk, IfSome, OnOk, None, drop, length};
ghost use Rattle.stream_writer.specs.Weights.{HasSizes};
ghost use Rattle.liveviews.specs.Brought.{Brings};
ghost use Rattle.liveviews.specs.Steps.{IsOpen, OfEachReached, Reached, Refuses};

use body_writer::Batch;
use feed::{Fed, Feed, FeedEvent, cut_law, story_law};
use messages::first_message_law;
use values::Cause;

/// What came of a piece: how many of its first bytes were used, and that the message that ends there is a batch, or
/// another message, or that no message ends within the piece.
#[derive(Drop)]
pub(crate) struct NextMessage {
    pub used: usize,
    pub batch: Option<Batch>,
}

/// Consumes the first message of a piece, or all of the piece where it ends before the message does.
///
/// The contract holds for any stream from which these rows were read, whatever bytes come after the piece.
pub(crate) fn next_message(feed: &mut Feed, piece: &[u8]) -> Result<NextMessage, Cause>
    requires open { IsOpen feed.old }
    requires some { 0 < length piece.now }
    ensures open { OnOk result (IsOpen feed.new) }
    ensures used { IfOk result (λ m. (0 < m.used) × (m.used ≤ length piece.now)) }
    ensures sized { IfOk result (λ m. IfSome m.batch HasSizes) }
    ensures passed { IfOk result (λ m. m.batch ≡ None → OfEachReached feed.old piece.now
        (λ s rows later. Reached s feed.new rows (drop m.used piece.now ++ later))) }
    ensures brought { IfOk result (λ m. IfSome m.batch (λ b. OfEachReached feed.old piece.now
        (λ s rows later. Brings s feed.new rows b (drop m.used piece.now ++ later)))) }
    ensures refused { IfErr result (λ c. OfEachReached feed.old piece.now (λ s rows later. Refuses s c)) }
{
    // They do nothing: the proof takes from them what an event says of the stream, and that it uses some bytes.
    first_message_law();
    story_law();
    cut_law();
    let fed = feed.push(piece)?;
    let Fed { used, event } = fed;
    let Some(event) = event else {
        return Ok(NextMessage { used, batch: None });
    };
    match event {
        FeedEvent::Schema(_) => Ok(NextMessage { used, batch: None }),
        FeedEvent::Dictionary { .. } => Ok(NextMessage { used, batch: None }),
        FeedEvent::Batch {
            columns,
            rows: count,
            ..
        } => Ok(NextMessage {
            used,
            batch: Some(Batch {
                columns,
                rows: count,
            }),
        }),
        FeedEvent::End => Ok(NextMessage { used, batch: None }),
    }
}
