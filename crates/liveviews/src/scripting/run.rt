//! `run`: runs a script over a session.

ghost use Rattle.std.specs.Prelude.{◌≡◌, ◌≤◌, IfOk};

use crate::files::{FileFault, Files, STANDARD};
use crate::reading::pieces::{read_at_most, room, skip};
use crate::scripting::lines::{Command, Line, read_line};
use crate::show::{Form, PrintFault, ShowFault, show_from};
use session::{Event, Fault, Pushed, Reply, Session, Step, ViewFault};
use std::alloc::{AllocError, Global};
use std::fmt;
use std::io::{BufWriter, Read, Write};
use std::slice::from_mut;
use stream_writer::{DeviceFault, MemorySink, Sink, WriteFault};
use values::Cause;

/// The answer to a line of a script.
#[derive(Clone, Copy, Debug)]
pub(crate) enum Answer<'a> {
    Event(Event),
    Finished,
    Undone,
    Wrote(u64),
    Refused(Cause),
    CannotRead(&'a str),
    CannotWrite(&'a str),
    WrongLine,
}

impl Answer<'_> {
    /// Whether the command succeeded.
    fn is_done(&self) -> bool {
        match self {
            Answer::Event(_) | Answer::Finished | Answer::Undone | Answer::Wrote(_) => true,
            Answer::Refused(_)
            | Answer::CannotRead(_)
            | Answer::CannotWrite(_)
            | Answer::WrongLine => false,
        }
    }
}

impl fmt::Display for Answer<'_> {
    fn fmt<W: fmt::Write>(&self, f: &mut fmt::Formatter<W>) -> fmt::Result {
        match self {
            Answer::Event(Event::Schema) => f.write_str("schema"),
            Answer::Event(Event::Dictionary) => f.write_str("dictionary"),
            Answer::Event(Event::Batch) => f.write_str("batch"),
            Answer::Event(Event::End) => f.write_str("end"),
            Answer::Finished => f.write_str("finished"),
            Answer::Undone => f.write_str("undone"),
            Answer::Wrote(count) => write!(f, "wrote {count}"),
            Answer::Refused(cause) => {
                let number = cause.number();
                let name = cause.name();
                write!(f, "refused {number} {name}")
            }
            Answer::CannotRead(path) => write!(f, "cannot read {path}"),
            Answer::CannotWrite(path) => write!(f, "cannot write {path}"),
            Answer::WrongLine => f.write_str("wrong line"),
        }
    }
}

/// The answer where the file at `path` can't be read.
pub(crate) fn unreadable(fault: FileFault, path: &str) -> Answer<'_> {
    match fault {
        FileFault::Unusable => Answer::CannotRead(path),
        FileFault::Memory => Answer::Refused(Cause::Memory),
    }
}

/// The file that was named last, as a sink.
#[derive(Drop)]
struct NamedFile<'a, F> {
    files: &'a mut F,
}

impl<'a, F: Files> Sink for NamedFile<'a, F> {
    ghost sunk = { λ s. F.sunk s.files.now };

    fn put(&mut self, piece: &[u8]) -> Result<usize, DeviceFault> {
        self.files.put(piece)
    }
}

/// Which bytes of a file are pushed: at most `len`, from offset `from` on.
#[derive(Clone, Copy, Debug)]
struct Part {
    from: u64,
    len: u64,
}

/// A run of lines: its session, the number of the current line, and whether all commands and prints so far succeeded.
#[derive(Drop)]
pub(crate) struct ScriptRunner {
    alloc: Global,
    session: Session,
    line: usize,
    is_clean: bool,
}

impl ScriptRunner {
    pub(crate) fn new(alloc: Global, session: Session) -> ScriptRunner {
        ScriptRunner {
            alloc,
            session,
            line: 0,
            is_clean: true,
        }
    }

    /// Goes to the next line.
    pub(crate) fn next(&mut self) {
        self.line = self.line.saturating_add(1);
    }

    /// The program's exit status, if no line remains.
    pub(crate) fn status(&self) -> u8
        ensures { result ≤ 1 }
    {
        if self.is_clean { 0 } else { 1 }
    }

    /// Prints an answer to the current line, and flushes it.
    pub(crate) fn print<W: Write>(&mut self, answer: Answer, out: &mut W) {
        let is_printed = tell(self.line, answer, out);
        self.is_clean = self.is_clean && is_printed && answer.is_done();
    }

    /// Prints the line that ends the answers to the current line. Returns whether it could.
    pub(crate) fn print_end<W: Write>(&mut self, out: &mut W) -> bool {
        let line = self.line;
        let is_printed = writeln!(out, "{line}.").is_ok() && out.flush().is_ok();
        self.is_clean = self.is_clean && is_printed;
        is_printed
    }

    /// Pushes a piece and prints what it gives. Returns how many of its bytes were used, or `None` after a refusal that
    /// used none.
    fn push_piece<W: Write>(&mut self, feed: &str, piece: &[u8], out: &mut W) -> Option<usize> {
        let step = Step::Push { feed, bytes: piece };
        match self.session.step::<MemorySink>(&step, &mut []) {
            Reply::Push(Ok(Pushed { used, event })) => {
                if let Some(event) = event {
                    self.print(Answer::Event(event), out);
                }
                Some(used)
            }
            Reply::Push(Err(Fault { cause, used })) => {
                self.print(Answer::Refused(cause), out);
                if used == 0 { None } else { Some(used) }
            }
            _ => unreachable!(),
        }
    }

    /// Pushes bytes to a feed, at least once, until all are used or they are refused. Returns whether all were used.
    fn push_all<W: Write>(&mut self, feed: &str, bytes: &[u8], out: &mut W) -> bool {
        let mut left = bytes;
        // Each push but the last uses at least one byte.
        for _ in 0..bytes.len().saturating_add(1) {
            let Some(used) = self.push_piece(feed, left, out) else {
                return false;
            };
            match left.get(used..) {
                Some(more) if !more.is_empty() => left = more,
                _ => return true,
            }
        }
        true
    }

    /// Reads the next `len` bytes of a source, or as many as it has, and pushes them to a feed in pieces, at least one,
    /// until they are refused. Returns how many of the `len` bytes were not read.
    pub(crate) fn push_source<R: Read, W: Write>(
        &mut self,
        feed: &str,
        source: &mut R,
        len: u64,
        room: &mut [u8],
        out: &mut W,
    ) -> Result<u64, FileFault>
        ensures { IfOk result (λ left. left ≤ len) }
    {
        let mut left = len;
        for _ in 0..u64::MAX {
            let taken = read_at_most(source, left, room)?;
            if taken == 0 && left < len {
                break;
            }
            left -= taken as u64;
            if !self.push_all(feed, &room[..taken], out) || taken == 0 {
                break;
            }
        }
        Ok(left)
    }

    /// Pushes a part of the file at `path`.
    fn push_file<F: Files, W: Write>(
        &mut self,
        feed: &str,
        path: &str,
        part: Part,
        files: &mut F,
        room: &mut [u8],
        out: &mut W,
    ) -> Result<(), FileFault> {
        let mut file = files.open(path)?;
        skip(&mut file, part.from, room)?;
        self.push_source(feed, &mut file, part.len, room, out)?;
        Ok(())
    }

    /// Pushes a part of the file at `path`, or prints that it can't be read.
    fn feed<F: Files, W: Write>(
        &mut self,
        feed: &str,
        path: &str,
        part: Part,
        files: &mut F,
        room: &mut [u8],
        out: &mut W,
    ) {
        if let Err(fault) = self.push_file(feed, path, part, files, room, out) {
            self.print(unreadable(fault, path), out);
        }
    }

    fn finish(&mut self, feed: &str) -> Answer<'static> {
        match self
            .session
            .step::<MemorySink>(&Step::Finish { feed }, &mut [])
        {
            Reply::Finish(Ok(())) => Answer::Finished,
            Reply::Finish(Err(fault)) => Answer::Refused(fault.cause),
            _ => unreachable!(),
        }
    }

    fn undo(&mut self) -> Answer<'static> {
        match self.session.step::<MemorySink>(&Step::Undo, &mut []) {
            Reply::Undo(Ok(())) => Answer::Undone,
            Reply::Undo(Err(fault)) => Answer::Refused(fault.cause),
            _ => unreachable!(),
        }
    }

    /// Writes a view to the file at `path`, which is made at the first bytes that are put, and closed afterwards.
    fn write<'a, F: Files>(&mut self, view: &str, path: &'a str, files: &mut F) -> Answer<'a> {
        if files.create(path).is_err() {
            return Answer::Refused(Cause::Memory);
        }
        let mut file = NamedFile { files: &mut *files };
        let step = Step::Write { view, sink: 0 };
        let answer = match self.session.step(&step, from_mut(&mut file)) {
            Reply::Write(Ok(count)) => Answer::Wrote(count),
            Reply::Write(Err(fault)) => write_refused(fault, path, files),
            _ => unreachable!(),
        };
        files.close();
        answer
    }

    /// A line that a script may have too.
    fn stream_of(&mut self, view: &str) -> Result<MemorySink, Cause> {
        let mut sink = MemorySink::new(self.alloc);
        let step = Step::Write { view, sink: 0 };
        match self.session.step(&step, from_mut(&mut sink)) {
            Reply::Write(Ok(_)) => Ok(sink),
            Reply::Write(Err(ViewFault::UnknownView)) => Err(Cause::UnknownView),
            // A sink in memory fails where memory is refused.
            Reply::Write(Err(ViewFault::Write(_))) => Err(Cause::Memory),
            _ => unreachable!(),
        }
    }

    /// Prints a view's stream: a line with the length of its stream, and then the stream.
    pub(crate) fn send<W: Write>(&mut self, view: &str, out: &mut W) {
        match self.stream_of(view) {
            Ok(sink) => {
                let stream = sink.bytes();
                self.print(Answer::Wrote(stream.len() as u64), out);
                let is_sent = out.write_all(stream).is_ok();
                self.is_clean = self.is_clean && is_sent;
            }
            Err(cause) => self.print(Answer::Refused(cause), out),
        }
    }

    /// Prints a line with the length of the stream of a view, and then its rows as a table.
    fn show<W: Write>(&mut self, view: &str, out: &mut W) {
        match self.stream_of(view) {
            Ok(sink) => {
                let mut stream = sink.bytes();
                self.print(Answer::Wrote(stream.len() as u64), out);
                match show_from(self.alloc, &mut stream, Form::Table, u64::MAX, out) {
                    Ok(()) => {}
                    Err(ShowFault::Print(PrintFault::Unprinted)) => self.is_clean = false,
                    // The stream of a view is accepted, so only memory can be refused.
                    Err(_) => self.print(Answer::Refused(Cause::Memory), out),
                }
            }
            Err(cause) => self.print(Answer::Refused(cause), out),
        }
    }

    /// Does what a command of a script says, and prints the answers.
    pub(crate) fn run_command<F: Files, W: Write>(
        &mut self,
        command: Command,
        files: &mut F,
        room: &mut [u8],
        out: &mut W,
    ) {
        let answer = match command {
            Command::Feed { name, path } => {
                let part = Part {
                    from: 0,
                    len: u64::MAX,
                };
                return self.feed(name, path, part, files, room, out);
            }
            Command::Piece {
                name,
                path,
                from,
                len,
            } => return self.feed(name, path, Part { from, len }, files, room, out),
            Command::Finish { name } => self.finish(name),
            Command::Undo => self.undo(),
            Command::Write { view, path } => self.write(view, path, files),
            Command::Show { view } => return self.show(view, out),
        };
        self.print(answer, out);
    }
}

/// Prints an answer to a line in one write, if it fits into the buffer of `out`. Returns whether it could.
fn tell<W: Write>(line: usize, answer: Answer, out: &mut W) -> bool {
    writeln!(out, "{line}: {answer}").is_ok() && out.flush().is_ok()
}

/// The answer to a view that was not written whole to the file at `path`.
fn write_refused<'a, F: Files>(fault: ViewFault, path: &'a str, files: &F) -> Answer<'a> {
    match fault {
        ViewFault::UnknownView => Answer::Refused(Cause::UnknownView),
        ViewFault::Write(WriteFault::Memory { .. }) => Answer::Refused(Cause::Memory),
        ViewFault::Write(WriteFault::Device { .. }) => match files.fault() {
            Some(FileFault::Unusable) => Answer::CannotWrite(path),
            Some(FileFault::Memory) => Answer::Refused(Cause::Memory),
            None => Answer::Refused(Cause::Device),
        },
    }
}

/// What is known of the lines of a script before the first is run.
#[derive(Clone, Copy, Debug)]
enum Outlook {
    /// The first line that is wrong, by its number from 1.
    WrongLine(usize),
    Lines { write_standard: bool },
}

/// Whether a line writes a view to standard output.
pub(crate) fn writes_standard(line: &Line) -> bool {
    match line {
        Line::Command(Command::Write { path, .. }) => *path == STANDARD,
        _ => false,
    }
}

/// Reads all lines of a script before any is run.
fn look_ahead(script: &[u8]) -> Outlook {
    let mut number = 0usize;
    let mut write_standard = false;
    for line in script.split(|byte| *byte == b'\n') {
        number = number.saturating_add(1);
        let line = read_line(line);
        if line == Line::Wrong {
            return Outlook::WrongLine(number);
        }
        write_standard = write_standard || writes_standard(&line);
    }
    Outlook::Lines { write_standard }
}

/// Runs the lines of a script, and prints the answers to each. Returns the program's exit status: 2 where a line is
/// wrong, which is then all that is printed, 1 where a command was refused or a print failed, and 0 otherwise. Where
/// memory for reading and printing is refused, nothing is done.
pub(crate) fn run_script<F: Files, W: Write>(
    alloc: Global,
    session: Session,
    script: &[u8],
    files: &mut F,
    out: &mut W,
) -> Result<u8, AllocError>
    ensures wrong_line { IfOk result (λ status. status ≡ 2 → F.sunk files.new ≡ F.sunk files.old) }
    ensures bound { IfOk result (λ status. status ≤ 2) }
{
    let mut room = room(alloc)?;
    let Ok(mut out) = BufWriter::new(alloc, out) else {
        return Err(AllocError);
    };
    match look_ahead(script) {
        Outlook::WrongLine(number) => {
            let is_printed = tell(number, Answer::WrongLine, &mut out);
            return Ok(if is_printed { 2 } else { 1 });
        }
        Outlook::Lines { write_standard } => files.print_aside(write_standard),
    }
    let mut run = ScriptRunner::new(alloc, session);
    for line in script.split(|byte| *byte == b'\n') {
        run.next();
        if let Line::Command(command) = read_line(line) {
            run.run_command(command, files, &mut room, &mut out);
        }
    }
    Ok(run.status())
}
