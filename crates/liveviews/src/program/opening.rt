//! Opens and reads the files that words of the program name.

ghost use Rattle.std.specs.Prelude.{◌≡◌, IfErr, IfOk};
ghost use Rattle.liveviews.specs.Files.{IsContent};
ghost use Rattle.liveviews.specs.Program.{IsUnreadable, refusal_for};
ghost use Rattle.liveviews.specs.Source.{HoldsFile};
ghost use Rattle.liveviews.specs.declared.program.outcome.Refusal.TheVariants.{CannotRead};

use crate::files::{FileFault, Files};
use crate::program::outcome::Refusal;
use values::Cause;

/// The refusal of a file at `path` that could not be read.
pub(crate) fn unreadable<'a>(fault: FileFault, path: &'a str) -> Refusal<'a>
    ensures value { result ≡ refusal_for (CannotRead path.entry) fault }
    ensures unread { IsUnreadable result }
{
    match fault {
        FileFault::Unusable => Refusal::CannotRead(path),
        FileFault::Memory => Refusal::Refused(Cause::Memory),
    }
}

/// All bytes of the file at `path`.
pub(crate) fn read_file<'a, F: Files>(path: &'a str, files: &mut F) -> Result<Vec<u8>, Refusal<'a>>
    ensures sunk { F.sunk files.new ≡ F.sunk files.old }
    ensures content { IfOk result (λ bytes. IsContent (F.content files.old path.now) bytes.items) }
    ensures unread { IfErr result IsUnreadable }
{
    match files.read(path) {
        Ok(bytes) => Ok(bytes),
        Err(fault) => Err(unreadable(fault, path)),
    }
}

/// Opens the file at `path`, to be read piece by piece.
pub(crate) fn open_file<'a, F: Files>(path: &'a str, files: &mut F) -> Result<F::Input, Refusal<'a>>
    ensures sunk { F.sunk files.new ≡ F.sunk files.old }
    ensures content { IfOk result (λ input. HoldsFile (F.content files.old path.now) (F.Input.remaining input)) }
    ensures unread { IfErr result IsUnreadable }
{
    match files.open(path) {
        Ok(input) => Ok(input),
        Err(fault) => Err(unreadable(fault, path)),
    }
}
