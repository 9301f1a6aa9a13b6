//! `lv recast IN OUT`: writes the canonical stream of the table that a stream holds.
//!
//! As `lv recast examples/orders.arrows -`.

ghost use Rattle.std.specs.Prelude.{◌≡◌, ◌≤◌, Some, IfErr, IfOk, IfSome, codes};
ghost use Rattle.clap.specs.Matches.{first_value};
ghost use Rattle.clap.specs.Words.{found_of};
ghost use Rattle.liveviews.specs.Program.{IsBegun, IsDone};
ghost use Rattle.liveviews.specs.declared.program.outcome.Refusal.TheVariants.{WrongUse};

use crate::files::Files;
use crate::program::commands::required;
use crate::program::outcome::Refusal;
use crate::recasting::new_file::recast_file;
use clap::{ArgMatches, Command};
use std::alloc::{AllocError, Global};
use std::io::Write;

/// Which stream is recast, and to where.
#[derive(Debug, Drop)]
struct Recast<'a> {
    from: &'a str,
    to: &'a str,
}

pub(crate) fn syntax<'a>(alloc: Global) -> Result<Command<'a>, AllocError> {
    Command::new(alloc, "recast")
        .arg(required(alloc, "IN"))?
        .arg(required(alloc, "OUT"))
}

fn asked<'a>(given: &ArgMatches<'a>) -> Option<Recast<'a>>
    ensures from { IfSome result (λ r. first_value (found_of given.now) (codes "IN") ≡ Some r.from.now) }
    ensures to { IfSome result (λ r. first_value (found_of given.now) (codes "OUT") ≡ Some r.to.now) }
{
    Some(Recast {
        from: given.get_str("IN")?,
        to: given.get_str("OUT")?,
    })
}

/// Recasts a stream, and prints how many bytes were put. Returns the program's exit status.
pub(crate) fn run<'a, F: Files, W: Write>(
    alloc: Global,
    given: &ArgMatches<'a>,
    files: &mut F,
    out: &mut W,
) -> Result<u8, Refusal<'a>>
    ensures done { IfOk result (λ status. status ≡ 0 → IsDone (F.content files.old) (F.sunk files.old)
        (F.sunk files.new) (W.contents out.old) (W.contents out.new)) }
    ensures wrong_use { IfErr result (λ refusal. refusal ≡ WrongUse → F.sunk files.new ≡ F.sunk files.old) }
    ensures begun { IsBegun (F.content files.old) (F.sunk files.old) (F.sunk files.new) }
    ensures bound { IfOk result (λ status. status ≤ 1) }
{
    let Some(recast) = asked(given) else {
        return Err(Refusal::WrongUse);
    };
    let written = recast_file(alloc, recast.from, recast.to, files)?;
    match writeln!(out, "wrote {written}") {
        Ok(()) => Ok(0),
        Err(_) => Ok(1),
    }
}
