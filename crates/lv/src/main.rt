//! The program `lv`: `liveviews::lv` over the process's arguments, its files and its standard streams.
#![tactic(auto)]

mod disk;
mod help;
mod new_file;
mod progress;
mod standard;

use disk::Disk;
use standard::{Answers, Aside};
use std::alloc::Global;
use std::io::IsTerminal;
use std::process::ExitCode;
use std::{env, io};

fn main(rt: HostRuntime) -> ExitCode {
    let Ok(_held) = standard::hold(&rt) else {
        return ExitCode::FAILURE;
    };
    let alloc = rt.alloc();
    let words = words(&rt, alloc).unwrap_or(Vec::new(alloc));
    let aside = Aside::new(false);
    let is_reported = may_be_long(words.as_slice()) && rt.stderr().is_terminal();
    let mut files = Disk::new(&rt, &aside, is_reported);
    let mut out = Answers::new(io::writer(&rt), rt.stderr(), &aside);
    let status = liveviews::lv(alloc, words.as_slice(), &mut files, &mut out);
    if status == 2 {
        help::tell(words.as_slice(), &mut rt.stderr());
    }
    ExitCode::from(status)
}

/// The arguments after the program's own name. `main` takes an error as no arguments.
fn words(rt: &HostRuntime, alloc: Global) -> io::Result<Vec<String>> {
    let words = env::args(rt)?.skip(1).collect(alloc)?;
    Ok(words)
}

/// Whether the words ask for a command that reads one file, which may be long.
fn may_be_long(words: &[String]) -> bool {
    match words.first() {
        Some(word) => matches!(word.as_str(), "recast" | "inspect"),
        None => false,
    }
}
