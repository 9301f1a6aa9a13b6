//! Messages to be put: the body of the last one by itself, and what comes before it.

ghost use Rattle.std.specs.Prelude.{◌≡◌, ◌+◌, ◌^◌, ◌<◌, ◌++◌, IfOk, length};
ghost use Rattle.stream_writer.specs.WrittenSoFar.{PutsNext};

use crate::faults::WriteFault;
use crate::progress::put_after;
use crate::sink::Sink;
use std::alloc::{AllocError, Global};
use std::marker::Model;

/// A body of at most this many bytes is put together with what comes before it.
const MAX_SHORT_BODY: usize = 4096;

/// The bytes of some messages. Contracts see them as one list.
#[derive(Drop)]
pub(crate) struct Encoded {
    head: Vec<u8>,
    body: Vec<u8>,
}

impl Model for Encoded {
    ghost use Rattle.std.specs.Prelude.{ℕ, ◌++◌, List};

    ghost Value = { List ℕ };

    ghost view = { λ e. e.head.items ++ e.body.items };
}

impl Encoded {
    /// The messages of which the last has this body, and what comes before that at the end of `head`.
    pub(crate) fn new(
        alloc: Global,
        mut head: Vec<u8>,
        body: Vec<u8>,
    ) -> Result<Encoded, AllocError>
        ensures { IfOk result (λ e. e ≡ head.items ++ body.items) }
    {
        if body.len() > MAX_SHORT_BODY {
            return Ok(Encoded { head, body });
        }
        head.extend_from_slice(&body)?;
        Ok(Encoded {
            head,
            body: Vec::new(alloc),
        })
    }

    /// The number of bytes of the body that is put by itself, as a capacity for the next one.
    pub(crate) fn room(&self) -> usize {
        self.body.len()
    }

    /// Puts the messages after the first `written` bytes of a stream.
    pub(crate) fn put_after<S: Sink>(&self, sink: &mut S, written: u64) -> Result<u64, WriteFault>
        requires { written + length self.now < 2 ^ 64 }
        ensures counted { IfOk result (λ n. n ≡ written + length self.now) }
        ensures goes { PutsNext (S.sunk sink.old) (S.sunk sink.new) written self.now result }
    {
        let written = put_after(sink, &self.head, written)?;
        put_after(sink, &self.body, written)
    }
}
