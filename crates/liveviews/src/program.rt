//! The program `lv`, over arguments, files and an output that its caller gives.

ghost use Rattle.std.specs.Prelude.{◌≡◌, ◌≤◌, ◌⊎◌};
ghost use Rattle.liveviews.specs.Program.{AsksSession, IsBegun, Succeeds};

mod commands;
mod configuring;
mod opening;
pub(crate) mod outcome;

use crate::files::Files;
use crate::program::commands::run_command;
pub(crate) use crate::program::opening::open_file;
use crate::program::outcome::refuse;
use std::alloc::Global;
use std::io::Write;

/// Runs the command that `words`, the program's arguments without its own name, ask for. It prints to `out`: the lines
/// of `inspect`, the answers to those of a script or of standard input, or one line.
///
/// Returns the program's exit status: 0 where all was done, 1 where something was refused or could not be printed, 2
/// for arguments that are no command, or a script with a wrong line.
pub fn lv<F: Files, W: Write>(alloc: Global, words: &[String], files: &mut F, out: &mut W) -> u8
    ensures done { result ≡ 0 → Succeeds words.now (F.content files.old) (F.sunk files.old) (F.sunk files.new)
        (W.contents out.old) (W.contents out.new) }
    ensures wrong_use { result ≡ 2 → F.sunk files.new ≡ F.sunk files.old }
    ensures begun { AsksSession words.now ⊎ IsBegun (F.content files.old) (F.sunk files.old) (F.sunk files.new) }
    ensures bound { result ≤ 2 }
{
    match run_command(alloc, words, files, out) {
        Ok(status) => status,
        Err(refusal) => refuse(refusal, out),
    }
}
