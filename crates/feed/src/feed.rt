//! A feed: one stream, pushed in pieces, with its schema and dictionaries.

ghost use Rattle.std.specs.Prelude.{◌≡◌, IfErr, IfOk, IfSome, OnErr, OnOk, Err, false};
ghost use Rattle.std.specs.Option.{option_map};
ghost use Rattle.schema_meta.specs.FieldsLaw.{AreFields};
ghost use Rattle.values.specs.Reading.{Passes};
ghost use Rattle.messages.specs.Wanted.{IsMissing};
ghost use Rattle.feed.specs.States.{FeedState, Finishes, finishing_when, fresh, is_broken};
ghost use Rattle.feed.specs.Shown.{NothingPrepared, Leads, Shows, answer_seen, breaks, seen};
ghost use Rattle.feed.specs.Calls.{
  IsTyped,
  MayAnswer,
  MayLackFor,
  ShowsAfter,
  ShowsFinished,
  ShowsSchema,
  StillShows,
  WillTake,
};

use crate::condition::{Condition, condition_after};
use crate::event::Fed;
use crate::validate::{Validated, validate};
use dictionaries::{Dicts, Ready, batches_law};
use messages::Framer;
use schema_meta::StreamSchema;
use std::alloc::Global;
use std::marker::Model;
use std::rc::Rc;
use values::{Schema, StreamFault};

/// A stream that is pushed in pieces.
///
/// It retains the stream's schema and dictionaries, and the bytes of an incomplete message. `prepare` checks a piece
/// and reserves the memory that its change needs, and `commit` makes the change; `push` does both in turn.
#[derive(Drop)]
pub struct Feed {
    alloc: Global,
    framer: Framer,
    dicts: Dicts,
    condition: Condition,
    // The prepared change of a dictionary, if any, and the condition after it; the framer has its own prepared change.
    change: Option<Ready>,
    next: Condition,
}

impl Model for Feed {
    ghost use Rattle.feed.specs.Shown.{FeedParts, IsFeed, parts_code};

    ghost Value = { FeedParts };

    ghost coded = { parts_code };

    ghost view = { λ f. record {
      framing = f.framer;
      table = f.dicts;
      condition = f.condition;
      change = f.change;
      next = f.next;
    } };

    ghost invariant = { λ f. IsFeed
        (record { framing = f.framer; table = f.dicts; condition = f.condition; change = f.change; next = f.next }) };
}

/// Checks that the input may end here: `Truncated` inside a message, `NoSchema` before a schema.
fn validate_end(condition: Condition, framer: &Framer) -> Result<(), StreamFault>
    ensures { Passes result (finishing_when condition framer.now.current) }
{
    if condition != Condition::Opened {
        return Ok(());
    }
    if framer.held() > 0 {
        return Err(StreamFault::Truncated);
    }
    match framer.schema() {
        None => Err(StreamFault::NoSchema),
        Some(_) => Ok(()),
    }
}

impl Feed {
    /// Opens a feed that has consumed nothing. Where a schema is declared the stream's must have the same logical
    /// columns, and is otherwise refused as `SchemaMismatch`.
    pub fn open(alloc: Global, declared: Option<Schema>) -> Feed
        ensures shown { Shows result (fresh (option_map (λ s. s.fields.items) declared)) }
        ensures nothing_prepared { NothingPrepared result }
    {
        // It does nothing: the proof takes from it that there are no dictionaries without batches.
        batches_law();
        Feed {
            alloc,
            framer: Framer::open(alloc, declared),
            dicts: Dicts::new(alloc),
            condition: Condition::Opened,
            change: None,
            next: Condition::Opened,
        }
    }

    /// Whether a fault broke the feed. `push`, `prepare` and `finish` may not be called then.
    pub fn is_broken(&self) -> bool
        ensures answer { result ≡ breaks self.now }
        ensures shown { (s : FeedState) → Shows self.now s → result ≡ is_broken s.condition }
    {
        self.condition.is_broken()
    }

    /// The schema of the stream, once it was read.
    pub fn schema(&self) -> Option<&Rc<StreamSchema>>
        ensures fields { IfSome result (λ s. AreFields s.now.value.fields.items) }
        ensures shown { ShowsSchema self.now (option_map (λ c. c.now.value.fields.items) result) }
    {
        self.framer.schema()
    }

    /// How many bytes are missing of an incomplete message whose metadata is held; 0 where it isn't, or no message was
    /// begun. It takes no memory.
    pub fn missing(&self) -> usize
        ensures { IsMissing self.now.framing.current.known self.now.framing.current.held result }
    {
        self.framer.missing()
    }

    /// Drops the prepared change.
    fn discard_prepared(&mut self)
        ensures framing { self.new.framing.current ≡ self.old.framing.current }
        ensures table { self.new.table ≡ self.old.table }
        ensures condition { self.new.condition ≡ self.old.condition }
        ensures nothing_prepared { NothingPrepared self.new }
    {
        self.change = None;
        self.next = self.condition;
        self.framer.discard();
    }

    /// `prepare` of a feed that accepts more bytes.
    fn prepare_open(&mut self, piece: &[u8]) -> Result<Fed, StreamFault>
        requires { self.old.condition ≡ Condition.Opened }
        ensures answer { MayAnswer self.old piece.now (answer_seen result) }
        ensures leads { IfOk result (λ f. WillTake self.old piece.now (seen f) self.new) }
        ensures or_memory { IfOk result (MayLackFor self.old piece.now) }
        ensures same { OnOk result (StillShows self.old self.new) }
        ensures fault { IfErr result (λ c. ShowsAfter self.old piece.now (Err c) self.new) }
        ensures refused { OnErr result (NothingPrepared self.new) }
        ensures typed { IfOk result (IsTyped self.new.framing.prepared.known.schema) }
    {
        self.change = None;
        self.next = self.condition;
        let validated = match validate(self.alloc, &mut self.framer, &mut self.dicts, piece) {
            Ok(validated) => validated,
            Err(fault) => {
                self.condition = condition_after(fault, self.condition);
                self.discard_prepared();
                return Err(fault);
            }
        };
        let Validated { used, coming } = validated;
        let Some(coming) = coming else {
            return Ok(Fed { used, event: None });
        };
        self.change = coming.change;
        self.next = coming.next;
        Ok(Fed {
            used,
            event: Some(coming.event),
        })
    }

    /// `prepare` after the end mark or `finish`: an empty piece has no effect, any other is `AfterEnd`.
    fn prepare_closed(&mut self, piece: &[u8]) -> Result<Fed, StreamFault>
        requires { self.old.condition ≡ Condition.Opened → ⊥ }
        ensures answer { MayAnswer self.old piece.now (answer_seen result) }
        ensures leads { IfOk result (λ f. WillTake self.old piece.now (seen f) self.new) }
        ensures or_memory { IfOk result (MayLackFor self.old piece.now) }
        ensures same { OnOk result (StillShows self.old self.new) }
        ensures fault { IfErr result (λ c. ShowsAfter self.old piece.now (Err c) self.new) }
        ensures refused { OnErr result (NothingPrepared self.new) }
        ensures typed { IfOk result (IsTyped self.new.framing.prepared.known.schema) }
    {
        if !piece.is_empty() {
            self.condition = Condition::Broken;
            self.discard_prepared();
            return Err(StreamFault::AfterEnd);
        }
        self.discard_prepared();
        Ok(Fed {
            used: 0,
            event: None,
        })
    }

    /// Checks a piece and reserves the memory that its change needs. It returns what `push` would return, and changes
    /// nothing that a caller sees, but that a fault breaks the feed. `commit` then makes the change; another `prepare`,
    /// a `push` or `finish` drops it. After an error nothing is prepared.
    pub fn prepare(&mut self, piece: &[u8]) -> Result<Fed, StreamFault>
        requires { breaks self.old ≡ false }
        ensures answer { MayAnswer self.old piece.now (answer_seen result) }
        ensures leads { IfOk result (λ f. WillTake self.old piece.now (seen f) self.new) }
        ensures or_memory { IfOk result (MayLackFor self.old piece.now) }
        ensures same { OnOk result (StillShows self.old self.new) }
        ensures fault { IfErr result (λ c. ShowsAfter self.old piece.now (Err c) self.new) }
        ensures refused { OnErr result (NothingPrepared self.new) }
        ensures typed { IfOk result (IsTyped self.new.framing.prepared.known.schema) }
    {
        match self.condition {
            Condition::Opened => self.prepare_open(piece),
            _ => self.prepare_closed(piece),
        }
    }

    /// Makes the prepared change, if there is one. It takes no memory.
    pub fn commit(&mut self)
        ensures change { (s : FeedState) → Leads self.old s → Shows self.new s }
        ensures nothing_prepared { NothingPrepared self.new }
        ensures stream { self.new.framing.current ≡ self.old.framing.prepared }
    {
        self.framer.commit();
        self.condition = self.next;
        if let Some(change) = self.change.take() {
            self.dicts.commit(change);
        }
    }

    /// Consumes the piece up to the end of the first message that it completes, or all of it.
    ///
    /// The error is a fault of the earliest stage that has one: the framing, the metadata or the body. It breaks the
    /// feed, but for `Memory`, after which all is as it was. An empty piece consumes nothing.
    pub fn push(&mut self, piece: &[u8]) -> Result<Fed, StreamFault>
        requires { breaks self.old ≡ false }
        ensures answer { MayAnswer self.old piece.now (answer_seen result) }
        ensures after { ShowsAfter self.old piece.now (answer_seen result) self.new }
        ensures nothing_prepared { NothingPrepared self.new }
        ensures typed { IfOk result (IsTyped self.new.framing.current.known.schema) }
    {
        let fed = self.prepare(piece)?;
        self.commit();
        Ok(fed)
    }

    /// Marks the end of input. `Truncated` inside a message, `NoSchema` before a schema; otherwise Ok, and it may be
    /// called again.
    pub fn finish(&mut self) -> Result<(), StreamFault>
        requires { breaks self.old ≡ false }
        ensures answer { (s : FeedState) → Shows self.old s → Finishes s result }
        ensures after { ShowsFinished self.old result self.new }
        ensures nothing_prepared { NothingPrepared self.new }
    {
        match validate_end(self.condition, &self.framer) {
            Ok(()) => {
                self.condition = Condition::Finished;
                self.discard_prepared();
                Ok(())
            }
            Err(fault) => {
                self.condition = Condition::Broken;
                self.discard_prepared();
                Err(fault)
            }
        }
    }
}
