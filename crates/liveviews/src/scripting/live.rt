//! `live`: runs the lines of a script as they come, and answers each at once.

ghost use Rattle.std.specs.Prelude.{◌≤◌, IfOk};

use crate::files::{FileFault, Files, STANDARD};
use crate::reading::pieces::{room, skip};
use crate::scripting::lines::{Line, LiveLine, read_live_line};
use crate::scripting::run::{Answer, ScriptRunner, unreadable, writes_standard};
use session::Session;
use std::alloc::{AllocError, Global};
use std::io::{BufRead, BufReader, BufWriter, Read, Write};

/// Reads the next `len` bytes of the input and pushes them to a feed, until they are refused: the rest of them is read
/// all the same. The error says that the input had fewer.
fn push_bytes<R: Read, W: Write>(
    run: &mut ScriptRunner,
    feed: &str,
    len: u64,
    input: &mut R,
    room: &mut [u8],
    out: &mut W,
) -> Result<(), FileFault> {
    let left = run.push_source(feed, input, len, room, out)?;
    match skip(input, left, room)? {
        0 => Ok(()),
        _ => Err(FileFault::Unusable),
    }
}

/// Does what a line of a script says, and prints the answers.
fn run_line<F: Files, W: Write>(
    run: &mut ScriptRunner,
    line: Line,
    files: &mut F,
    room: &mut [u8],
    out: &mut W,
) {
    match line {
        Line::Blank => {}
        Line::Command(command) => {
            files.print_aside(writes_standard(&line));
            run.run_command(command, files, room, out);
            files.print_aside(false);
        }
        Line::Wrong => run.print(Answer::WrongLine, out),
    }
}

/// Does what a line says, and prints the answers. The error says that no more input can be read.
fn answer<F: Files, R: Read, W: Write>(
    run: &mut ScriptRunner,
    line: &[u8],
    input: &mut R,
    files: &mut F,
    room: &mut [u8],
    out: &mut W,
) -> Result<(), FileFault> {
    match read_live_line(line) {
        LiveLine::Script(line) => run_line(run, line, files, room, out),
        LiveLine::Bytes { name, len } => push_bytes(run, name, len, input, room, out)?,
        LiveLine::Send { view } => run.send(view, out),
    }
    Ok(())
}

/// Reads the next line without its line feed. Returns whether there was one.
fn next_line<R: BufRead>(input: &mut R, line: &mut Vec<u8>) -> Result<bool, FileFault> {
    line.clear();
    let taken = input.read_until(b'\n', line)?;
    if line.last() == Some(&b'\n') {
        line.pop();
    }
    Ok(taken > 0)
}

/// Runs lines as they come, and prints the answers to each as `run` does, followed by a line of the line's number and a
/// full stop. A line that is wrong is answered and skipped.
///
/// Returns the program's exit status: 1 where a line was wrong, a command was refused or a print failed, and 0
/// otherwise. Where memory for reading and printing is refused, nothing is done.
pub(crate) fn run_live<F: Files, W: Write>(
    alloc: Global,
    session: Session,
    input: F::Input,
    files: &mut F,
    out: &mut W,
) -> Result<u8, AllocError>
    ensures { IfOk result (λ status. status ≤ 1) }
{
    let mut room = room(alloc)?;
    let Ok(mut input) = BufReader::new(alloc, input) else {
        return Err(AllocError);
    };
    let Ok(mut out) = BufWriter::new(alloc, out) else {
        return Err(AllocError);
    };
    let mut line = Vec::new(alloc);
    let mut run = ScriptRunner::new(alloc, session);
    for _ in 0..u64::MAX {
        run.next();
        let came = match next_line(&mut input, &mut line) {
            Ok(false) => break,
            Ok(true) => answer(&mut run, &line, &mut input, files, &mut room, &mut out),
            Err(fault) => Err(fault),
        };
        if let Err(fault) = came {
            run.print(unreadable(fault, STANDARD), &mut out);
        }
        if !run.print_end(&mut out) || came.is_err() {
            break;
        }
    }
    Ok(run.status())
}
