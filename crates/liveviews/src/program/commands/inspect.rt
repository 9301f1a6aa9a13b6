//! `lv inspect FILE`: prints, message by message, what a stream holds.
//!
//! As `lv inspect examples/orders.arrows`.

ghost use Rattle.std.specs.Prelude.{◌≡◌, ◌≤◌, Some, IfErr, IfOk, IfSome, codes, string_bytes};
ghost use Rattle.clap.specs.Matches.{first_value};
ghost use Rattle.clap.specs.Words.{found_of};
ghost use Rattle.liveviews.specs.Files.{InspectsFile};
ghost use Rattle.liveviews.specs.Program.{IsDone, IsUnreadable};

use crate::files::Files;
use crate::inspecting::events::{Inspected, inspect_from};
use crate::program::commands::required;
use crate::program::opening::{open_file, unreadable};
use crate::program::outcome::Refusal;
use clap::{ArgMatches, Command};
use std::alloc::{AllocError, Global};
use std::io::Write;

pub(crate) fn syntax<'a>(alloc: Global) -> Result<Command<'a>, AllocError> {
    Command::new(alloc, "inspect").arg(required(alloc, "FILE"))
}

/// The file that is inspected.
fn asked<'a>(given: &ArgMatches<'a>) -> Option<&'a str>
    ensures { IfSome result (λ file. first_value (found_of given.now) (codes "FILE") ≡ Some file.now) }
{
    given.get_str("FILE")
}

/// Inspects the file at `path`.
fn inspect_file<'a, F: Files>(
    alloc: Global,
    path: &'a str,
    files: &mut F,
) -> Result<Inspected, Refusal<'a>>
    ensures sunk { F.sunk files.new ≡ F.sunk files.old }
    ensures complete { IfOk result (λ i. InspectsFile (F.content files.old path.now) (string_bytes i.text) i.status) }
    ensures unread { IfErr result IsUnreadable }
{
    let mut input = open_file(path, files)?;
    match inspect_from(alloc, &mut input) {
        Ok(inspected) => Ok(inspected),
        Err(fault) => Err(unreadable(fault, path)),
    }
}

/// Inspects a file and prints its lines. Returns the program's exit status.
pub(crate) fn run<'a, F: Files, W: Write>(
    alloc: Global,
    given: &ArgMatches<'a>,
    files: &mut F,
    out: &mut W,
) -> Result<u8, Refusal<'a>>
    ensures done { IfOk result (λ status. status ≡ 0 → IsDone (F.content files.old) (F.sunk files.old)
        (F.sunk files.new) (W.contents out.old) (W.contents out.new)) }
    ensures sunk { F.sunk files.new ≡ F.sunk files.old }
    ensures bound { IfOk result (λ status. status ≤ 1) }
{
    let Some(file) = asked(given) else {
        return Err(Refusal::WrongUse);
    };
    let inspected = inspect_file(alloc, file, files)?;
    match write!(out, "{}", inspected.text) {
        Ok(()) => Ok(inspected.status),
        Err(_) => Ok(1),
    }
}
