//! `lv live CONFIG`: runs lines of standard input as they come, and answers each at once.
//!
//! As `lv live examples/report/report.toml`.

ghost use Rattle.std.specs.Prelude.{◌≡◌, ◌≤◌, Some, IfErr, IfOk, IfSome, codes};
ghost use Rattle.clap.specs.Matches.{first_value};
ghost use Rattle.clap.specs.Words.{found_of};
ghost use Rattle.liveviews.specs.Program.{IsRefused};
ghost use Rattle.liveviews.specs.declared.program.outcome.Refusal.TheVariants.{WrongUse};

use crate::files::{Files, STANDARD};
use crate::program::commands::required;
use crate::program::configuring::open_session;
use crate::program::opening::open_file;
use crate::program::outcome::Refusal;
use crate::scripting::live::run_live;
use clap::{ArgMatches, Command};
use std::alloc::{AllocError, Global};
use std::io::Write;

pub(crate) fn syntax<'a>(alloc: Global) -> Result<Command<'a>, AllocError> {
    Command::new(alloc, "live").arg(required(alloc, "CONFIG"))
}

/// The configuration over whose session lines are run.
fn asked<'a>(given: &ArgMatches<'a>) -> Option<&'a str>
    ensures { IfSome result (λ config. first_value (found_of given.now) (codes "CONFIG") ≡ Some config.now) }
{
    given.get_str("CONFIG")
}

/// Runs the lines of standard input over the session of the configuration at `config`, and returns the program's exit
/// status.
fn run_input<'a, F: Files, W: Write>(
    alloc: Global,
    config: &'a str,
    files: &mut F,
    out: &mut W,
) -> Result<u8, Refusal<'a>>
    ensures bound { IfOk result (λ status. status ≤ 1) }
    ensures refused { IfErr result IsRefused }
{
    let session = open_session(alloc, config, files)?;
    let input = open_file(STANDARD, files)?;
    Ok(run_live(alloc, session, input, files, out)?)
}

/// Runs the lines of standard input, and returns the program's exit status.
pub(crate) fn run<'a, F: Files, W: Write>(
    alloc: Global,
    given: &ArgMatches<'a>,
    files: &mut F,
    out: &mut W,
) -> Result<u8, Refusal<'a>>
    ensures wrong_use { IfErr result (λ refusal. refusal ≡ WrongUse → F.sunk files.new ≡ F.sunk files.old) }
    ensures bound { IfOk result (λ status. status ≤ 1) }
{
    match asked(given) {
        Some(config) => run_input(alloc, config, files, out),
        None => Err(Refusal::WrongUse),
    }
}
