//! The calls of a session, and their answers.

ghost use Rattle.std.specs.Prelude.{◌≡◌};
ghost use Rattle.session.specs.Refusals.{refused};

use std::alloc::AllocError;
use stream_writer::WriteFault;
use thiserror::Error;
use values::{Cause, StreamFault};

/// The kind of a message that a push completed.
#[derive(Clone, Copy, Debug, PartialEq, Eq)]
pub enum Event {
    /// The schema of the feed's stream.
    Schema,
    /// A dictionary batch.
    Dictionary,
    /// A record batch, whose edit was accepted.
    Batch,
    /// The end of the stream.
    End,
}

/// The result of a push.
#[derive(Clone, Copy, Debug, PartialEq, Eq)]
pub struct Pushed {
    /// How many bytes of the piece were consumed: up to the end of the message, or all.
    pub used: usize,
    /// The message that the piece completes, if it does.
    pub event: Option<Event>,
}

/// Why a call was refused. `used` bytes of the piece were consumed all the same: those up to the end of a batch whose
/// edit doesn't fit, and none otherwise.
#[derive(Clone, Copy, Debug, PartialEq, Eq, Error)]
#[error("{cause}")]
pub struct Fault {
    pub cause: Cause,
    pub used: usize,
}

/// Why a view was not written whole.
#[derive(Clone, Copy, Debug, PartialEq, Eq, Error)]
pub enum ViewFault {
    #[error("there is no view of that name")]
    UnknownView,
    /// Memory or the sink failed.
    #[error(transparent)]
    Write(WriteFault),
}

/// One call of a session. Feeds and views are named, and a sink is given by its number.
#[derive(Clone, Copy, Debug)]
pub enum Step<'a> {
    Push { feed: &'a str, bytes: &'a [u8] },
    Finish { feed: &'a str },
    Undo,
    Write { view: &'a str, sink: usize },
}

/// The answer of one call.
#[derive(Clone, Copy, Debug, PartialEq, Eq)]
pub enum Reply {
    Push(Result<Pushed, Fault>),
    Finish(Result<(), Fault>),
    Undo(Result<(), Fault>),
    Write(Result<u64, ViewFault>),
}

impl Fault {
    /// A refusal before anything was consumed.
    pub(crate) fn of(cause: Cause) -> Fault
        ensures { result ≡ refused cause }
    {
        Fault { cause, used: 0 }
    }
}

impl From<AllocError> for Fault {
    ghost use Rattle.std.specs.Prelude.{◌≡◌};
    ghost use Rattle.values.specs.declared.causes.Cause.TheVariants.{Memory};
    ghost use Rattle.session.specs.Refusals.{refused};

    ghost from_gives = { λ _ fault. fault ≡ refused Memory };

    fn from(_refused: AllocError) -> Fault {
        Fault::of(Cause::Memory)
    }
}

/// A fault of a feed's stream, or want of memory: nothing was consumed.
impl From<StreamFault> for Fault {
    ghost use Rattle.std.specs.Prelude.{◌≡◌};
    ghost use Rattle.values.specs.StreamCauses.{cause_of};
    ghost use Rattle.session.specs.Refusals.{refused};

    ghost from_gives = { λ fault refusal. refusal ≡ refused (cause_of fault) };

    fn from(fault: StreamFault) -> Fault {
        Fault::of(Cause::from(fault))
    }
}

/// The fault for which the stream of a view was not written whole.
impl From<WriteFault> for ViewFault {
    ghost use Rattle.std.specs.Prelude.{◌≡◌};
    ghost use Rattle.session.specs.declared.calls.ViewFault.TheVariants.{Write};

    ghost from_gives = { λ fault refusal. refusal ≡ Write fault };

    fn from(fault: WriteFault) -> ViewFault {
        ViewFault::Write(fault)
    }
}
