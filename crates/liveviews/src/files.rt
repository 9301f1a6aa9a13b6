//! The files that `lv` works on.

ghost use Rattle.std.specs.Prelude.{[], IfErr, IfOk, IfSome, MatchResult, OnOk, Err, None};

use std::alloc::AllocError;
use std::fmt::Display;
use std::io::{Error, ErrorKind, Read};
use stream_writer::{DeviceFault, Sink};

/// The path that denotes standard input where a file is read, and for standard output where one is written.
pub(crate) const STANDARD: &str = "-";

/// Why a file could not be used.
#[derive(Clone, Copy, Debug, PartialEq, Eq, thiserror::Error)]
pub enum FileFault {
    #[error("the file can't be opened, read or made")]
    Unusable,
    #[error("memory ran out")]
    Memory,
}

impl From<Error> for FileFault {
    ghost use Rattle.std.specs.IoError.{error_kind};
    ghost use Rattle.liveviews.specs.Source.{IsFaultOf};

    ghost from_gives = { λ error fault. IsFaultOf (error_kind error) fault };

    fn from(error: Error) -> FileFault {
        match error.kind() {
            ErrorKind::OutOfMemory => FileFault::Memory,
            _ => FileFault::Unusable,
        }
    }
}

impl From<AllocError> for FileFault {
    ghost use Rattle.std.specs.Prelude.{◌≡◌};
    ghost use Rattle.liveviews.specs.declared.files.FileFault.TheVariants.{Memory};

    ghost from_gives = { λ _ fault. fault ≡ Memory };

    fn from(_refused: AllocError) -> FileFault {
        FileFault::Memory
    }
}

/// The files that `lv` works on: those of the machine, or in a test those of a map. The path `-` is standard input
/// where a file is read, and standard output where one is written.
///
/// As a [`Sink`] it writes the file that `create` named last. That file is made, or emptied, when the first bytes are
/// put; a file to which nothing is put is left as it was. Where it can't be made, that put fails, and `fault` says why.
pub trait Files: Sink {
    ghost use Rattle.std.specs.Prelude.{◌≡◌, ℕ, List, Option};
    ghost use Rattle.stream_writer.specs.Sinks.{Puts};
    ghost use Rattle.liveviews.specs.Files.{IsContent, ReplacesBy};
    ghost use Rattle.liveviews.specs.Source.{HoldsFile};
    ghost use Rattle.liveviews.specs.declared.files.FileFault.{FileFault as Fault};

    /// A file that is open to be read. It is closed where it is dropped.
    type Input: Read + Drop;

    /// A new file, which may replace another. It is given to `place` or to `discard`.
    type New: Sink;

    /// What the file at a path holds, where the value knows it.
    ghost content: { Self → List ℕ → Option (List ℕ) };

    /// Why the file that was named last could not be made.
    ghost not_created: { Self → Option Fault };

    /// All bytes of the file at `path`.
    fn read(&mut self, path: &str) -> Result<Vec<u8>, FileFault>
        ensures sunk { Self.sunk self.new ≡ Self.sunk self.old }
        ensures content { IfOk result (λ bytes. IsContent (content self.old path.now) bytes.items) };

    /// Opens the file at `path`, to be read piece by piece.
    fn open(&mut self, path: &str) -> Result<Self::Input, FileFault>
        ensures sunk { Self.sunk self.new ≡ Self.sunk self.old }
        ensures same { content self.new ≡ content self.old }
        ensures content { IfOk result
            (λ input. HoldsFile (content self.old path.now) (Self.Input.remaining input)) };

    /// Names the file that the following puts make and write. After an error the file that was named before stays
    /// named.
    fn create(&mut self, path: &str) -> Result<(), FileFault>
        ensures sunk { Self.sunk self.new ≡ Self.sunk self.old }
        ensures named { OnOk result (not_created self.new ≡ None) };

    /// Closes the file that was named last. What is put then is written to no file, until another is named.
    fn close(&mut self)
        ensures { Self.sunk self.new ≡ Self.sunk self.old };

    /// Begins a new file, which is to replace the one at `path` when it is whole. The one at `path` stays as it is
    /// until then. `None`, with nothing done, where no new file can replace it, as a pipe.
    fn begin_new(&mut self, path: &str) -> Result<Option<Self::New>, FileFault>
        ensures sunk { Self.sunk self.new ≡ Self.sunk self.old }
        ensures content { content self.new ≡ content self.old }
        ensures begins { IfOk result (λ found. IfSome found (λ file. Self.New.sunk file ≡ Self.sunk self.old)) };

    /// Replaces the file at `path` by a new file, so that all its bytes are put at once. Where that fails the new file
    /// is discarded, and one failure is counted.
    fn place(&mut self, file: Self::New, path: &str) -> Result<(), DeviceFault>
        ensures placed { OnOk result (Self.sunk self.new ≡ Self.New.sunk file) }
        ensures failed { IfErr result (λ fault. Puts (Self.sunk self.old) (Self.sunk self.new) (Err fault) []) }
        ensures content { MatchResult result
            (λ _. ReplacesBy (Self.sunk self.old) (Self.New.sunk file) (content self.old) (content self.new) path.now)
            (λ _. content self.new ≡ content self.old) };

    /// Discards a new file.
    fn discard(&mut self, file: Self::New)
        ensures sunk { Self.sunk self.new ≡ Self.sunk self.old }
        ensures content { content self.new ≡ content self.old };

    /// Sends what `lv` prints to standard error from now on, or again to where it went at first: to standard error
    /// where standard output gets the bytes of a file.
    fn print_aside(&mut self, is_aside: bool)
        ensures sunk { Self.sunk self.new ≡ Self.sunk self.old }
        ensures content { content self.new ≡ content self.old };

    /// Reports to the user what isn't part of the answer that `lv` prints: on standard error, or nowhere.
    fn remark<D: Display + Drop>(&mut self, remark: D)
        ensures sunk { Self.sunk self.new ≡ Self.sunk self.old }
        ensures content { content self.new ≡ content self.old };

    /// Why the file that `create` named could not be made at its first put.
    fn fault(&self) -> Option<FileFault>
        ensures { result ≡ not_created self.now };
}
