//! Joins two bitmaps of 65,536 bits over and over: by the kernel, or with the word `plain` bit by bit.
//! `tools/bench/bench-kernels.py` times it.
#![tactic(auto)]

ghost use Rattle.std.specs.Prelude.{◌≡◌, length};

use bitmaps::{Bits, plain};
use std::alloc::{AllocError, Global};
use std::process::ExitCode;
use std::{env, io};

const BITS: usize = 65_536;

const TURNS: usize = 20_000;

const PLAIN_TURNS: usize = 200;

fn main(rt: HostRuntime) -> ExitCode {
    let alloc = rt.alloc();
    let words = words(&rt, alloc).unwrap_or(Vec::new(alloc));
    let bytes = [0xA5; BITS / 8 + 1];
    let first = Bits::new(&bytes, 3, BITS);
    let second = Bits::new(&bytes, 5, BITS);
    if second.len() != first.len() {
        return ExitCode::FAILURE;
    }
    let ones = match words.first() {
        Some(_) => join_plain(alloc, &first, &second),
        None => join(alloc, &first, &second),
    };
    match ones {
        Ok(ones) if ones > 0 => ExitCode::SUCCESS,
        _ => ExitCode::FAILURE,
    }
}

/// The arguments after the program's own name.
fn words(rt: &HostRuntime, alloc: Global) -> io::Result<Vec<String>> {
    let words = env::args(rt)?.skip(1).collect(alloc)?;
    Ok(words)
}

/// Joins them by the kernel. Returns how many ones were made, to the width of a word.
fn join(alloc: Global, first: &Bits<'_>, second: &Bits<'_>) -> Result<usize, AllocError>
    requires { length second.now ≡ length first.now }
{
    let mut ones = 0usize;
    for _ in 0..TURNS {
        let made = first.and(alloc, second)?;
        ones = ones.wrapping_add(made.bits().count_ones());
    }
    Ok(ones)
}

/// The same bit by bit.
fn join_plain(alloc: Global, first: &Bits<'_>, second: &Bits<'_>) -> Result<usize, AllocError>
    requires { length second.now ≡ length first.now }
{
    let mut ones = 0usize;
    for _ in 0..PLAIN_TURNS {
        let made = plain::and(alloc, first, second)?;
        ones = ones.wrapping_add(made.bits().count_ones());
    }
    Ok(ones)
}
