//! `lv check CONFIG`: checks a configuration of tables, feeds and views.
//!
//! As `lv check examples/report/report.toml`.

ghost use Rattle.std.specs.Prelude.{◌≡◌, ◌≤◌, Some, IfErr, IfOk, IfSome, codes};
ghost use Rattle.clap.specs.Matches.{first_value};
ghost use Rattle.clap.specs.Words.{found_of};
ghost use Rattle.liveviews.specs.Check.{ChecksFile};
ghost use Rattle.liveviews.specs.Program.{IsDone, IsNoConfig};

use crate::files::Files;
use crate::program::commands::required;
use crate::program::configuring::read_config_file;
use crate::program::outcome::Refusal;
use clap::{ArgMatches, Command};
use std::alloc::{AllocError, Global};
use std::io::Write;

pub(crate) fn syntax<'a>(alloc: Global) -> Result<Command<'a>, AllocError> {
    Command::new(alloc, "check").arg(required(alloc, "CONFIG"))
}

/// The configuration that is checked.
fn asked<'a>(given: &ArgMatches<'a>) -> Option<&'a str>
    ensures { IfSome result (λ config. first_value (found_of given.now) (codes "CONFIG") ≡ Some config.now) }
{
    given.get_str("CONFIG")
}

/// Counts the feeds and the views of the configuration at `path`.
fn check_file<'a, F: Files>(
    alloc: Global,
    path: &'a str,
    files: &mut F,
) -> Result<(usize, usize), Refusal<'a>>
    ensures sunk { F.sunk files.new ≡ F.sunk files.old }
    ensures counts { IfOk result (λ counts. ChecksFile (F.content files.old path.now) counts.0 counts.1) }
    ensures refused { IfErr result (IsNoConfig (F.content files.old path.now)) }
{
    let config = read_config_file(alloc, path, files)?;
    Ok((config.feeds.len(), config.views.len()))
}

/// Checks a configuration, and prints the numbers of its feeds and views. Returns the program's exit status.
pub(crate) fn run<'a, F: Files, W: Write>(
    alloc: Global,
    given: &ArgMatches<'a>,
    files: &mut F,
    out: &mut W,
) -> Result<u8, Refusal<'a>>
    ensures done { IfOk result (λ status. status ≡ 0 → IsDone (F.content files.old) (F.sunk files.old)
        (F.sunk files.new) (W.contents out.old) (W.contents out.new)) }
    ensures sunk { F.sunk files.new ≡ F.sunk files.old }
    ensures bound { IfOk result (λ status. status ≤ 1) }
{
    let Some(config) = asked(given) else {
        return Err(Refusal::WrongUse);
    };
    let (feeds, views) = check_file(alloc, config, files)?;
    match writeln!(out, "ok: {feeds} feeds, {views} views") {
        Ok(()) => Ok(0),
        Err(_) => Ok(1),
    }
}
