//! `lv run CONFIG SCRIPT`: runs a script over the tables of a configuration.
//!
//! As `lv run examples/report/report.toml examples/report/script`.

ghost use Rattle.std.specs.Prelude.{◌≡◌, ◌≤◌, Some, IfErr, IfOk, IfSome, codes};
ghost use Rattle.clap.specs.Matches.{first_value};
ghost use Rattle.clap.specs.Words.{found_of};
ghost use Rattle.liveviews.specs.Program.{IsRefused};
ghost use Rattle.liveviews.specs.declared.program.outcome.Refusal.TheVariants.{WrongUse};

use crate::files::Files;
use crate::program::commands::required;
use crate::program::configuring::open_session;
use crate::program::opening::read_file;
use crate::program::outcome::Refusal;
use crate::scripting::run::run_script;
use clap::{ArgMatches, Command};
use std::alloc::{AllocError, Global};
use std::io::Write;

/// Which script is run, and over which configuration.
#[derive(Debug, Drop)]
struct Script<'a> {
    config: &'a str,
    script: &'a str,
}

pub(crate) fn syntax<'a>(alloc: Global) -> Result<Command<'a>, AllocError> {
    Command::new(alloc, "run")
        .arg(required(alloc, "CONFIG"))?
        .arg(required(alloc, "SCRIPT"))
}

fn asked<'a>(given: &ArgMatches<'a>) -> Option<Script<'a>>
    ensures config { IfSome result (λ s. first_value (found_of given.now) (codes "CONFIG") ≡ Some s.config.now) }
    ensures script { IfSome result (λ s. first_value (found_of given.now) (codes "SCRIPT") ≡ Some s.script.now) }
{
    Some(Script {
        config: given.get_str("CONFIG")?,
        script: given.get_str("SCRIPT")?,
    })
}

/// Runs a script over the session of a configuration, and returns the program's exit status.
fn run_file<'a, F: Files, W: Write>(
    alloc: Global,
    asked: &Script<'a>,
    files: &mut F,
    out: &mut W,
) -> Result<u8, Refusal<'a>>
    ensures wrong_line { IfOk result (λ status. status ≡ 2 → F.sunk files.new ≡ F.sunk files.old) }
    ensures bound { IfOk result (λ status. status ≤ 2) }
    ensures refused { IfErr result IsRefused }
{
    let session = open_session(alloc, asked.config, files)?;
    let script = read_file(asked.script, files)?;
    Ok(run_script(alloc, session, &script, files, out)?)
}

/// Runs a script, and returns the program's exit status.
pub(crate) fn run<'a, F: Files, W: Write>(
    alloc: Global,
    given: &ArgMatches<'a>,
    files: &mut F,
    out: &mut W,
) -> Result<u8, Refusal<'a>>
    ensures wrong_line { IfOk result (λ status. status ≡ 2 → F.sunk files.new ≡ F.sunk files.old) }
    ensures wrong_use { IfErr result (λ refusal. refusal ≡ WrongUse → F.sunk files.new ≡ F.sunk files.old) }
    ensures bound { IfOk result (λ status. status ≤ 2) }
{
    match asked(given) {
        Some(asked) => run_file(alloc, &asked, files, out),
        None => Err(Refusal::WrongUse),
    }
}
