//! `recast`: reads a stream and writes the canonical stream of the same rows.

ghost use Rattle.schema_meta.specs.Story.{story_of};
ghost use Rattle.std.specs.Prelude.{ℕ, List, IfOk, OnOk};
ghost use Rattle.stream_writer.specs.Table.{IsTable};
ghost use Rattle.liveviews.specs.Files.{RecastsSource};
ghost use Rattle.liveviews.specs.Buffered.{IsCounted, IsWritable, buffered_rows};
ghost use Rattle.liveviews.specs.Recast.{Recasts};
ghost use Rattle.liveviews.specs.Source.{OfSource};
ghost use Rattle.liveviews.specs.Steps.{IsConsumed, IsRead};

use crate::files::FileFault;
use crate::laws::recast_law;
use crate::recasting::table::Table;
use std::alloc::Global;
use std::io::Read;
use stream_writer::{Sink, WriteFault};
use thiserror::Error;
use values::Cause;

/// Why a stream was not recast. The sink took the first `written` bytes of the canonical stream.
#[derive(Clone, Copy, Debug, PartialEq, Eq, Error)]
#[error("{cause}")]
pub struct RecastFault {
    pub cause: Cause,
    pub written: u64,
}

/// The fault of a cause that is found before anything is put.
impl From<Cause> for RecastFault {
    ghost use Rattle.std.specs.Prelude.{◌≡◌};

    ghost from_gives = { λ cause fault. fault ≡ record { cause = cause; written = 0 } };

    fn from(cause: Cause) -> RecastFault {
        RecastFault { cause, written: 0 }
    }
}

impl From<WriteFault> for RecastFault {
    ghost use Rattle.std.specs.Prelude.{◌≡◌};
    ghost use Rattle.liveviews.specs.Recast.{fault_of};

    ghost from_gives = { λ write fault. fault ≡ fault_of write };

    fn from(fault: WriteFault) -> RecastFault {
        match fault {
            WriteFault::Memory { written } => RecastFault {
                cause: Cause::Memory,
                written,
            },
            WriteFault::Device { written } => RecastFault {
                cause: Cause::Device,
                written,
            },
        }
    }
}

/// Why the stream that a source holds was not recast.
#[derive(Clone, Copy, Debug, PartialEq, Eq, Error)]
pub enum SourceFault {
    /// Nothing was put.
    #[error("the source can't be read")]
    Unreadable,
    /// The stream was refused, or could not be written.
    #[error(transparent)]
    Refused(RecastFault),
}

impl From<FileFault> for SourceFault {
    ghost use Rattle.std.specs.Prelude.{◌≡◌};
    ghost use Rattle.liveviews.specs.Files.{source_fault_of};

    ghost from_gives = { λ file fault. fault ≡ source_fault_of file };

    fn from(fault: FileFault) -> SourceFault {
        match fault {
            FileFault::Unusable => SourceFault::Unreadable,
            FileFault::Memory => SourceFault::Refused(RecastFault::from(Cause::Memory)),
        }
    }
}

/// Reads a whole stream, puts the canonical stream of its table, and returns how many bytes that has.
///
/// The error is a fault of the stream, `TooManyRows`, `CellTooHeavy`, `Memory` or `Device`; where several apply, any of
/// them. Nothing is put before all of the input was accepted.
#[tactic(auto, using(crate::proofs::Recasts::recasts))]
pub fn recast<S: Sink>(alloc: Global, input: &[u8], sink: &mut S) -> Result<u64, RecastFault>
    ensures recasts { Recasts (S.sunk sink.old) (S.sunk sink.new) result (story_of input.now) }

    // On Ok no limit is exceeded either: at most 2^24 rows, none too heavy.
    ensures accepted { OnOk result (IsConsumed (story_of input.now)) }
{
    // It does nothing: the proof takes from it that what is written is read back.
    recast_law();
    let table = Table::read(alloc, input)?;
    let written = table.rows.write(alloc, sink, &table.schema)?;
    Ok(written)
}

/// Puts the canonical stream of the table that was read from a stream, if one was.
#[tactic(auto, using(crate::proofs::Recasts::puts))]
fn put<S: Sink>(alloc: Global, read: Result<Table, Cause>, sink: &mut S) -> Result<u64, RecastFault>
    requires within { IfOk read (λ t. IsTable t.schema.fields.items (buffered_rows t.rows)) }
    requires counted { IfOk read (λ t. IsCounted t.rows) }
    requires kept { IfOk read (λ t. IsWritable t.schema.fields.items t.rows) }
    ensures recasts { (input : List ℕ) → IsRead read input
        → Recasts (S.sunk sink.old) (S.sunk sink.new) result (story_of input) }
    ensures accepted { OnOk result ((input : List ℕ) → IsRead read input
        → IsConsumed (story_of input)) }
{
    // It does nothing: the proof takes from it that what is written is read back.
    recast_law();
    let table = read?;
    Ok(table.rows.write(alloc, sink, &table.schema)?)
}

/// Recasts the whole stream that a source holds, as [`recast`] does, reading it piece by piece.
///
/// Where the stream is refused, the rest of the source may be left unread.
pub fn recast_from<R: Read, S: Sink>(
    alloc: Global,
    source: &mut R,
    sink: &mut S,
) -> Result<u64, SourceFault>
    ensures recasts { RecastsSource (R.remaining source.old) (S.sunk sink.old) (S.sunk sink.new) result }

    // On Ok no limit is exceeded either, as `recast` says it.
    ensures accepted { OnOk result (OfSource (R.remaining source.old)
        (λ input. IsConsumed (story_of input))) }
{
    let read = Table::read_from(alloc, source)?;
    match put(alloc, read, sink) {
        Ok(written) => Ok(written),
        Err(fault) => Err(SourceFault::Refused(fault)),
    }
}
