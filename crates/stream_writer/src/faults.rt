//! Faults of writing a table.

ghost use Rattle.std.specs.Prelude.{◌≡◌, ◌+◌, ◌^◌, ◌<◌, Err};
ghost use Rattle.stream_writer.specs.Sinks.{fault_after, written_of};

use std::alloc::AllocError;
use thiserror::Error;

/// Why a stream was not written whole. The sink took its first `written` bytes.
#[derive(Clone, Copy, Debug, PartialEq, Eq, Error)]
pub enum WriteFault {
    #[error("memory ran out after {written} bytes were written")]
    Memory { written: u64 },
    #[error("the sink failed after {written} bytes were written")]
    Device { written: u64 },
}

impl WriteFault {
    /// The same fault of a stream of which `before` bytes had been put already.
    pub(crate) fn after(self, before: u64) -> WriteFault
        requires { before + written_of (Err self) < 2 ^ 64 }
        ensures { result ≡ fault_after before self }
    {
        match self {
            WriteFault::Memory { written } => WriteFault::Memory {
                written: before + written,
            },
            WriteFault::Device { written } => WriteFault::Device {
                written: before + written,
            },
        }
    }
}

/// The fault of memory that is refused before any byte was put.
impl From<AllocError> for WriteFault {
    ghost use Rattle.std.specs.Prelude.{◌≡◌};
    ghost use Rattle.stream_writer.specs.declared.faults.WriteFault.TheVariants.{Memory};

    ghost from_gives = { λ _ fault. fault ≡ Memory 0 };

    fn from(_refused: AllocError) -> WriteFault {
        WriteFault::Memory { written: 0 }
    }
}
