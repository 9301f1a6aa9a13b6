//! The commands of `lv`, each a module of its own: the words that ask for it, what it does, and what it prints. The
//! usage, the completions and the tables of the pages are generated from the heads of these modules, in the order in
//! which `syntax` has them, by `tools/makers/command_tables.py`.

ghost use Rattle.std.specs.Prelude.{◌≡◌, ◌≤◌, ◌⊎◌, IfErr, IfOk, true};
ghost use Rattle.liveviews.specs.Program.{AsksSession, Begins, IsBegun, Succeeds};
ghost use Rattle.liveviews.specs.declared.program.outcome.Refusal.TheVariants.{WrongUse};

mod check;
mod inspect;
mod live;
mod recast;
mod run;
mod show;

use crate::files::Files;
use crate::program::outcome::Refusal;
use clap::{Arg, ArgAction, Command};
use std::alloc::{AllocError, Global};
use std::io::Write;

/// The commands and their arguments, for `clap`.
fn syntax<'a>(alloc: Global) -> Result<Command<'a>, AllocError> {
    Command::new(alloc, "lv")
        .no_binary_name(true)
        .subcommand_required(true)
        .subcommand(inspect::syntax(alloc)?)?
        .subcommand(show::syntax(alloc)?)?
        .subcommand(recast::syntax(alloc)?)?
        .subcommand(check::syntax(alloc)?)?
        .subcommand(run::syntax(alloc)?)?
        .subcommand(live::syntax(alloc)?)
}

/// An argument that must be there.
fn required<'a>(alloc: Global, name: &'a str) -> Arg<'a> {
    Arg::new(alloc, name).required(true).action(ArgAction::Set)
}

/// An argument that is named by two dashes and this name.
fn option<'a>(alloc: Global, name: &'a str) -> Arg<'a> {
    Arg::new(alloc, name).long(name)
}

/// Whether the first argument is this word.
fn begins(words: &[String], word: &str) -> bool
    ensures { result ≡ true → Begins word.now words.now }
{
    match words.first() {
        Some(first) => first.as_str() == word,
        None => false,
    }
}

/// Runs the command that `words` ask for, and returns the program's exit status.
pub(crate) fn run_command<'a, F: Files, W: Write>(
    alloc: Global,
    words: &'a [String],
    files: &mut F,
    out: &mut W,
) -> Result<u8, Refusal<'a>>
    ensures done { IfOk result (λ status. status ≡ 0 → Succeeds words.now (F.content files.old) (F.sunk files.old)
        (F.sunk files.new) (W.contents out.old) (W.contents out.new)) }
    ensures wrong_line { IfOk result (λ status. status ≡ 2 → F.sunk files.new ≡ F.sunk files.old) }
    ensures wrong_use { IfErr result (λ refusal. refusal ≡ WrongUse → F.sunk files.new ≡ F.sunk files.old) }
    ensures begun { AsksSession words.now ⊎ IsBegun (F.content files.old) (F.sunk files.old) (F.sunk files.new) }
    ensures bound { IfOk result (λ status. status ≤ 2) }
{
    let found = syntax(alloc)?.try_get_matches_from(words)?;
    match found.subcommand() {
        Some(("inspect", given)) => inspect::run(alloc, given, files, out),
        Some(("show", given)) if begins(words, "show") => show::run(alloc, given, files, out),
        Some(("recast", given)) => recast::run(alloc, given, files, out),
        Some(("check", given)) => check::run(alloc, given, files, out),
        Some(("run", given)) if begins(words, "run") => run::run(alloc, given, files, out),
        Some(("live", given)) if begins(words, "live") => live::run(alloc, given, files, out),
        _ => Err(Refusal::WrongUse),
    }
}
