//! Sinks: where a stream is written to.

ghost use Rattle.std.specs.Prelude.{◌+◌, ◌^◌, ◌<◌, IfErr};

use crate::faults::WriteFault;
use thiserror::Error;

/// The failure of a sink to take bytes.
#[derive(Clone, Copy, Debug, PartialEq, Eq, Error)]
#[error("the sink failed")]
pub struct DeviceFault;

/// Takes bytes, as a file or a socket does.
///
/// An impl says by `sunk` which bytes it has taken, where it knows that, and how often it failed. Failures are counted
/// modulo 2^64.
pub trait Sink {
    ghost use Rattle.stream_writer.specs.Sinks.{Sunk, Puts};

    ghost sunk: { Self → Sunk };

    /// Takes a prefix of the piece, and returns its length. An error, or 0 for a piece that is not empty, is one
    /// failure.
    fn put(&mut self, piece: &[u8]) -> Result<usize, DeviceFault>
        ensures { Puts (sunk self.old) (sunk self.new) result piece.now };
}

ghost use Rattle.stream_writer.specs.Sinks.{IsDeviceFault, Writes};

/// Puts all bytes, in as many pieces as the sink asks for, and returns how many they are. On an error the sink took the
/// first `written` of them.
pub fn put_all<S: Sink>(sink: &mut S, bytes: &[u8]) -> Result<u64, WriteFault>
    ensures writes { Writes (S.sunk sink.old) (S.sunk sink.new) result bytes.now }
    ensures stops { IfErr result IsDeviceFault }
{
    let mut written = 0;
    while written < bytes.len() {
        let taken = match sink.put(&bytes[written..]) {
            Ok(taken) => taken,
            Err(DeviceFault) => 0,
        };
        if taken == 0 {
            return Err(WriteFault::Device {
                written: written as u64,
            });
        }
        written += taken;
    }
    Ok(written as u64)
}
