//! Why a command is refused, and how the program ends then.

ghost use Rattle.std.specs.Prelude.{◌≡◌, ◌≤◌};
ghost use Rattle.liveviews.specs.Program.{refusal_after, refusal_for, status_of};
ghost use Rattle.liveviews.specs.declared.program.outcome.Refusal.TheVariants.{CannotRead, CannotWrite, WrongUse};

use crate::files::FileFault;
use crate::recasting::whole::SourceFault;
use clap::error::ErrorKind;
use std::alloc::AllocError;
use std::io::Write;
use thiserror::Error;
use values::Cause;

/// Why a command failed. Its text is the line that `lv` prints.
#[derive(Debug, Drop, Error)]
pub enum Refusal<'a> {
    /// The arguments are no command.
    #[error("wrong use")]
    WrongUse,
    /// The file at this path can't be opened or read.
    #[error("cannot read {0}")]
    CannotRead(&'a str),
    /// The file at this path can't be made.
    #[error("cannot write {0}")]
    CannotWrite(&'a str),
    /// It was refused for this cause.
    #[error("refused {number} {name}", number = .0.number(), name = .0.name())]
    Refused(Cause),
}

impl<'a> Refusal<'a> {
    /// The status with which the program ends.
    pub(crate) fn status(&self) -> u8
        ensures { result ≡ status_of self.now }
    {
        match self {
            Refusal::WrongUse => 2,
            _ => 1,
        }
    }

    /// The refusal where the file at `path` could not be made.
    pub(crate) fn not_created(fault: FileFault, path: &'a str) -> Refusal<'a>
        ensures { result ≡ refusal_for (CannotWrite path.entry) fault }
    {
        match fault {
            FileFault::Unusable => Refusal::CannotWrite(path),
            FileFault::Memory => Refusal::Refused(Cause::Memory),
        }
    }

    /// The refusal of a stream that was not recast while the file at `path` was read.
    pub(crate) fn unstreamed(fault: SourceFault, path: &'a str) -> Refusal<'a>
        ensures { result ≡ refusal_after (CannotRead path.entry) fault }
    {
        match fault {
            SourceFault::Unreadable => Refusal::CannotRead(path),
            SourceFault::Refused(fault) => Refusal::Refused(fault.cause),
        }
    }
}

impl<'a> From<AllocError> for Refusal<'a> {
    ghost use Rattle.std.specs.Prelude.{◌≡◌};
    ghost use Rattle.values.specs.declared.causes.Cause.TheVariants.{Memory};
    ghost use Rattle.liveviews.specs.declared.program.outcome.Refusal.TheVariants.{Refused};

    ghost from_gives = { λ _ r. r ≡ Refused Memory };

    fn from(_refused: AllocError) -> Refusal<'a> {
        Refusal::Refused(Cause::Memory)
    }
}

impl<'a> From<clap::Error> for Refusal<'a> {
    ghost use Rattle.clap.specs.Values.{kind_of};
    ghost use Rattle.liveviews.specs.Program.{IsRefusedAs};

    ghost from_gives = { λ e r. IsRefusedAs (kind_of e) r };

    fn from(error: clap::Error) -> Refusal<'a> {
        match error.kind() {
            ErrorKind::OutOfMemory => Refusal::Refused(Cause::Memory),
            _ => Refusal::WrongUse,
        }
    }
}

/// Prints why a command is refused, and returns the program's exit status.
pub(crate) fn refuse<W: Write>(refusal: Refusal, out: &mut W) -> u8
    ensures refused { 1 ≤ result }
    ensures wrong_use { result ≡ 2 → refusal.entry ≡ WrongUse }
    ensures bound { result ≤ 2 }
{
    let status = refusal.status();
    match writeln!(out, "{refusal}") {
        Ok(()) => status,
        Err(_) => 1,
    }
}
