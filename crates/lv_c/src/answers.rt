//! The answers of calls, as C reads them.

ghost use Rattle.std.specs.Prelude.{◌≡◌};
ghost use Rattle.lv_c.specs.Answers.{end_answer, event_number, push_answer, recast_answer, view_answer, written_cause};

use liveviews::RecastFault;
use session::{Event, Fault, Pushed, ViewFault};
use stream_writer::WriteFault;
use values::Cause;

/// The cause of a call whose handle isn't open, and of `lv_open` where it is.
pub const NOT_OPEN: u8 = 255;

/// The answer of a push: how many bytes were used, the cause of a refusal or 0, and the message that was completed: 0
/// none, 1 a schema, 2 a dictionary batch, 3 a record batch, 4 the end of the stream.
#[repr(C)]
#[derive(Clone, Copy, Debug, PartialEq, Eq)]
pub struct LvPushed {
    pub used: usize,
    pub cause: u8,
    pub event: u8,
}

/// The answer of a call that writes a stream: how many bytes it has, and the cause of a refusal or 0.
#[repr(C)]
#[derive(Clone, Copy, Debug, PartialEq, Eq)]
pub struct LvWritten {
    pub len: u64,
    pub cause: u8,
}

fn event_number(event: Option<Event>) -> u8
    ensures { result ≡ event_number event }
{
    match event {
        None => 0,
        Some(Event::Schema) => 1,
        Some(Event::Dictionary) => 2,
        Some(Event::Batch) => 3,
        Some(Event::End) => 4,
    }
}

pub fn answer_push(answer: Result<Pushed, Fault>) -> LvPushed
    ensures { result ≡ push_answer answer }
{
    match answer {
        Ok(Pushed { used, event }) => LvPushed {
            used,
            cause: 0,
            event: event_number(event),
        },
        Err(Fault { cause, used }) => LvPushed {
            used,
            cause: cause.number(),
            event: 0,
        },
    }
}

/// The cause of a refusal, or 0.
pub fn answer_end(answer: Result<(), Fault>) -> u8
    ensures { result ≡ end_answer answer }
{
    match answer {
        Ok(()) => 0,
        Err(fault) => fault.cause.number(),
    }
}

/// The cause of a stream that was not written whole to memory: its sink fails only where memory is refused.
fn written_cause(cause: Cause) -> Cause
    ensures { result ≡ written_cause cause }
{
    match cause {
        Cause::Device => Cause::Memory,
        cause => cause,
    }
}

pub fn answer_view(answer: Result<u64, ViewFault>) -> LvWritten
    ensures { result ≡ view_answer answer }
{
    match answer {
        Ok(len) => LvWritten { len, cause: 0 },
        Err(ViewFault::UnknownView) => LvWritten {
            len: 0,
            cause: Cause::UnknownView.number(),
        },
        Err(ViewFault::Write(WriteFault::Memory { written })) => LvWritten {
            len: written,
            cause: Cause::Memory.number(),
        },
        Err(ViewFault::Write(WriteFault::Device { written })) => LvWritten {
            len: written,
            cause: Cause::Memory.number(),
        },
    }
}

pub fn answer_recast(answer: Result<u64, RecastFault>) -> LvWritten
    ensures { result ≡ recast_answer answer }
{
    match answer {
        Ok(len) => LvWritten { len, cause: 0 },
        Err(fault) => LvWritten {
            len: 0,
            cause: written_cause(fault.cause).number(),
        },
    }
}
