//! `inspect`: describes a stream, one line a message.

ghost use Rattle.std.specs.Prelude.{◌≡◌, ◌<◌, ◌≤◌, ◌++◌, IfErr, IfOk, OnOk, ℕ, List, [], drop, length, string_bytes};
ghost use Rattle.std.specs.Option.{option_map};
ghost use Rattle.schema_meta.specs.Story.{story_of};
ghost use Rattle.feed.specs.Shown.{event_seen};
ghost use Rattle.liveviews.specs.Inspect.{Account, ReportsAccount, account_of, refusal_line, status_where};
ghost use Rattle.liveviews.specs.Inspecting.{Breaks, HasConsumed, HasRun, IsFresh, IsLeft, IsOpen};
ghost use Rattle.liveviews.specs.Files.{InspectsFile};
ghost use Rattle.liveviews.specs.Source.{OfSource};
ghost use Rattle.liveviews.specs.Lines.{ended_after, given_lines};

use crate::files::FileFault;
use crate::inspecting::lines::{is_ended, write_fed};
use crate::laws::account_law;
use crate::reading::pieces::{next_piece, room};
use feed::{Fed, Feed, cut_law, pieces_law};
use std::alloc::{AllocError, Global};
use std::io::Read;
use values::{Cause, StreamFault};

/// The description of a stream, message by message.
#[derive(Debug, Drop, PartialEq, Eq)]
pub struct Inspected {
    /// A line for each message and each column, and a last one for the end of the input or the refusal.
    pub text: String,
    /// 0 where the stream has no fault, else 1.
    pub status: u8,
}

/// An inspection under way.
#[derive(Drop)]
struct Inspection {
    feed: Feed,
    /// The lines of the messages so far.
    text: String,
    /// Whether the end mark has come.
    ended: bool,
}

impl Inspection {
    /// Begins an inspection.
    fn new(alloc: Global) -> Inspection
        ensures fresh { IsFresh result }
    {
        Inspection {
            feed: Feed::open(alloc, None),
            text: String::new(alloc),
            ended: false,
        }
    }

    /// Writes the lines of an event, and returns the number of bytes that the push used.
    fn note(&mut self, fed: Fed) -> Result<usize, AllocError>
        ensures feed { self.new.feed ≡ self.old.feed }
        ensures used { IfOk result (λ n. n ≡ fed.used) }
        ensures text { OnOk result (string_bytes self.new.text ≡ string_bytes self.old.text
            ++ given_lines (option_map event_seen fed.event)) }
        ensures ended { OnOk result (self.new.ended ≡ ended_after self.old.ended (option_map event_seen fed.event)) }
    {
        write_fed(&mut self.text, &fed)?;
        self.ended = is_ended(self.ended, &fed);
        Ok(fed.used)
    }

    /// Consumes the first message of a piece, or all of the piece where it ends before the message does, and returns
    /// how many bytes were used. The contract holds whatever bytes come after the piece.
    fn take(&mut self, piece: &[u8]) -> Result<usize, StreamFault>
        requires open { IsOpen self.old }
        requires some { 0 < length piece.now }
        ensures open { OnOk result (IsOpen self.new) }
        ensures used { IfOk result (λ n. (0 < n) × (n ≤ length piece.now)) }
        ensures left { IfOk result (λ n. (a : Account) (later : List ℕ) → IsLeft a self.old (piece.now ++ later)
            → IsLeft a self.new (drop n piece.now ++ later)) }
        ensures fault { IfErr result (λ f. (a : Account) (later : List ℕ) → IsLeft a self.old (piece.now ++ later)
            → Breaks a (string_bytes self.new.text) f) }
    {
        // They do nothing: the proof takes from them that a push uses some bytes, and what it leaves.
        cut_law();
        pieces_law();
        let fed = self.feed.push(piece)?;
        Ok(self.note(fed)?)
    }

    /// Consumes all messages of a piece, and what it has of one more.
    fn take_all(&mut self, piece: &[u8]) -> Result<(), StreamFault>
        requires open { IsOpen self.old }
        ensures open { OnOk result (IsOpen self.new) }
        ensures left { OnOk result ((a : Account) (later : List ℕ) → IsLeft a self.old (piece.now ++ later)
            → IsLeft a self.new later) }
        ensures fault { IfErr result (λ f. (a : Account) (later : List ℕ) → IsLeft a self.old (piece.now ++ later)
            → Breaks a (string_bytes self.new.text) f) }
    {
        let mut rest = piece;
        while !rest.is_empty() {
            let used = self.take(rest)?;
            rest = &rest[used..];
        }
        Ok(())
    }

    /// Consumes all messages of a source.
    fn take_source<R: Read>(
        &mut self,
        alloc: Global,
        source: &mut R,
    ) -> Result<Result<(), StreamFault>, FileFault>
        requires fresh { IsFresh self.old }
        ensures { IfOk result (λ taken. OfSource (R.remaining source.old) (HasConsumed self.new taken)) }
    {
        let mut room = room(alloc)?;
        for _ in 0..u64::MAX {
            let len = next_piece(source, &mut room, self.feed.missing())?;
            if len == 0 {
                return Ok(Ok(()));
            }
            if let Err(fault) = self.take_all(&room[..len]) {
                return Ok(Err(fault));
            }
        }
        Err(FileFault::Unusable)
    }

    /// Ends the input, and writes the line of its end.
    fn end(&mut self) -> Result<(), StreamFault>
        requires open { IsOpen self.old }
        ensures complete { OnOk result ((a : Account) → IsLeft a self.old []
            → ReportsAccount a (string_bytes self.new.text) 0) }
        ensures fault { IfErr result (λ f. (a : Account) → IsLeft a self.old []
            → Breaks a (string_bytes self.new.text) f) }
    {
        // It does nothing: the proof takes from it that there is no event where no byte remains.
        pieces_law();
        self.feed.finish()?;
        if !self.ended {
            self.text.push_str("end of input\n")?;
        }
        Ok(())
    }

    /// Writes the lines of a whole stream, with the line of its end.
    fn run(&mut self, input: &[u8]) -> Result<(), StreamFault>
        requires fresh { IsFresh self.old }
        ensures complete { OnOk result (ReportsAccount (account_of input.now) (string_bytes self.new.text) 0) }
        ensures fault { IfErr result (Breaks (account_of input.now) (string_bytes self.new.text)) }
    {
        self.take_all(input)?;
        self.end()
    }

    /// Consumes the whole stream of a source, and writes the line of its end.
    fn run_from<R: Read>(
        &mut self,
        alloc: Global,
        source: &mut R,
    ) -> Result<Result<(), StreamFault>, FileFault>
        requires fresh { IsFresh self.old }
        ensures { IfOk result (λ ran. OfSource (R.remaining source.old) (HasRun (string_bytes self.new.text) ran)) }
    {
        match self.take_source(alloc, source)? {
            Ok(()) => Ok(self.end()),
            Err(fault) => Ok(Err(fault)),
        }
    }
}

/// Writes the line of a refusal.
fn write_refusal(text: &mut String, fault: StreamFault) -> Result<(), AllocError>
    ensures { OnOk result (string_bytes text.new ≡ string_bytes text.old ++ refusal_line fault) }
{
    let cause = Cause::from(fault);
    let number = cause.number();
    let name = cause.name();
    writeln!(text, "refused {number} {name}")
}

/// The description of a stream, from the lines that were written of it and the result of consuming it. The error is
/// want of memory.
fn told(mut text: String, ran: Result<(), StreamFault>) -> Result<Inspected, AllocError>
    ensures { IfOk result (λ i. (input : List ℕ) → HasRun (string_bytes text) ran input
        → ReportsAccount (account_of input) (string_bytes i.text) i.status) }
{
    match ran {
        Ok(()) => Ok(Inspected { text, status: 0 }),
        Err(fault) => {
            if fault == StreamFault::Memory {
                return Err(AllocError);
            }
            write_refusal(&mut text, fault)?;
            Ok(Inspected { text, status: 1 })
        }
    }
}

/// Describes each message of a whole stream.
///
/// Where there is a fault, the lines of the messages before it come first. The limits on rows and on their weights, 44
/// and 45, are not checked. The error is want of memory.
pub fn inspect(alloc: Global, input: &[u8]) -> Result<Inspected, AllocError>
    ensures tells { IfOk result (λ i. ReportsAccount (account_of input.now) (string_bytes i.text) i.status) }
    ensures status { IfOk result (λ i. i.status ≡ status_where (story_of input.now).end) }
{
    // It does nothing: the proof takes from it that the stream has a fault where its account ends with one.
    account_law();
    let mut inspection = Inspection::new(alloc);
    let ran = inspection.run(input);
    let Inspection { text, .. } = inspection;
    told(text, ran)
}

/// Describes each message of the whole stream that a source holds, as [`inspect`] does, reading it piece by piece.
///
/// The error is a source that can't be read, or want of memory. Where there is a fault, the rest of the source may be
/// left unread.
pub fn inspect_from<R: Read>(alloc: Global, source: &mut R) -> Result<Inspected, FileFault>
    ensures { IfOk result (λ i. InspectsFile (R.remaining source.old) (string_bytes i.text) i.status) }
{
    // It does nothing: the proof takes from it that the stream has a fault where its account ends with one.
    account_law();
    let mut inspection = Inspection::new(alloc);
    let ran = inspection.run_from(alloc, source)?;
    let Inspection { text, .. } = inspection;
    Ok(told(text, ran)?)
}
