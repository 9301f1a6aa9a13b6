//! `lv show FILE [--rows N] [--csv]`: prints the rows of a stream, as a table or as CSV.
//!
//! - `--rows N`: prints the first N rows alone
//! - `--csv`: prints CSV
//!
//! As `lv show --rows 10 examples/orders.arrows`.

ghost use Rattle.std.specs.Prelude.{◌≡◌, ◌≤◌, Some, IfErr, IfOk, IfSome, codes};
ghost use Rattle.clap.specs.Matches.{first_value};
ghost use Rattle.clap.specs.Words.{found_of};
ghost use Rattle.liveviews.specs.Program.{IsRefused};
ghost use Rattle.liveviews.specs.Showing.{ShowsFile};

use crate::files::Files;
use crate::program::commands::{option, required};
use crate::program::opening::{open_file, unreadable};
use crate::program::outcome::Refusal;
use crate::scripting::lines::number;
use crate::show::{Form, PrintFault, ShowFault, show_from};
use clap::{ArgAction, ArgMatches, Command};
use std::alloc::{AllocError, Global};
use std::io::Write;
use values::Cause;

/// Which stream is shown: how, and how many of its rows at most.
#[derive(Debug, Drop)]
struct Show<'a> {
    file: &'a str,
    form: Form,
    most: u64,
}

pub(crate) fn syntax<'a>(alloc: Global) -> Result<Command<'a>, AllocError> {
    Command::new(alloc, "show")
        .arg(required(alloc, "FILE"))?
        .arg(option(alloc, "rows").action(ArgAction::Set))?
        .arg(option(alloc, "csv").action(ArgAction::SetTrue))
}

fn asked<'a>(given: &ArgMatches<'a>) -> Option<Show<'a>>
    ensures { IfSome result (λ s. first_value (found_of given.now) (codes "FILE") ≡ Some s.file.now) }
{
    let most = match given.get_str("rows") {
        Some(word) => number(word)?,
        None => u64::MAX,
    };
    let form = if given.get_flag("csv") {
        Form::Csv
    } else {
        Form::Table
    };
    Some(Show {
        file: given.get_str("FILE")?,
        form,
        most,
    })
}

/// Prints the rows of a stream, and returns the program's exit status.
fn show_file<'a, F: Files, W: Write>(
    alloc: Global,
    show: &Show<'a>,
    files: &mut F,
    out: &mut W,
) -> Result<u8, Refusal<'a>>
    ensures sunk { F.sunk files.new ≡ F.sunk files.old }
    ensures bound { IfOk result (λ status. status ≤ 1) }
    ensures valid { IfOk result (λ status. status ≡ 0 → ShowsFile (F.content files.old)) }
    ensures refused { IfErr result IsRefused }
{
    let path = show.file;
    let mut input = open_file(path, files)?;
    match show_from(alloc, &mut input, show.form, show.most, out) {
        Ok(()) => Ok(0),
        Err(ShowFault::Source(fault)) => Err(unreadable(fault, path)),
        Err(ShowFault::Stream(fault)) => Err(Refusal::Refused(Cause::from(fault))),
        Err(ShowFault::Print(PrintFault::Memory)) => Err(Refusal::Refused(Cause::Memory)),
        Err(ShowFault::Print(PrintFault::Unprinted)) => Ok(1),
    }
}

/// Shows a stream, and returns the program's exit status. Beside CSV what isn't a row is printed aside, so that it
/// isn't taken for one.
pub(crate) fn run<'a, F: Files, W: Write>(
    alloc: Global,
    given: &ArgMatches<'a>,
    files: &mut F,
    out: &mut W,
) -> Result<u8, Refusal<'a>>
    ensures sunk { F.sunk files.new ≡ F.sunk files.old }
    ensures bound { IfOk result (λ status. status ≤ 1) }
    ensures valid { IfOk result (λ status. status ≡ 0 → ShowsFile (F.content files.old)) }
{
    let Some(show) = asked(given) else {
        return Err(Refusal::WrongUse);
    };
    let shown = show_file(alloc, &show, files, out);
    files.print_aside(show.form == Form::Csv);
    shown
}
