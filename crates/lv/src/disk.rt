//! The files of the machine, and its standard input and output as files.

ghost use Rattle.std.specs.Prelude.{◌≡◌, ◌≤◌, IfOk, length};
ghost use Rattle.std.specs.Io.KnownBytes.{WriteAppends};

use crate::new_file;
use crate::new_file::NewFile;
use crate::progress::{Progress, Tracked};
use crate::standard::{Aside, STANDARD};
use liveviews::{FileFault, Files};
use std::fmt::Display;
use std::fs::OpenFile;
use std::io::{Eprint, Error, Input, Print, Read, Write};
use std::rt::Clock;
use std::{fs, io};
use stream_writer::{DeviceFault, Sink};

/// The files of the machine. `put` writes the file that was named last; the first put makes or empties it. A new file
/// lies beside the one that it may replace.
#[derive(Drop)]
pub struct Disk<'a, R: std::rt::Files> {
    runtime: &'a R,
    aside: &'a Aside,
    /// Whether the progress of reading a file is reported to a terminal.
    is_reported: bool,
    /// Whether standard input was opened, which can be done once.
    is_input_taken: bool,
    output: Output<R::File>,
    fault: Option<FileFault>,
    failures: u64,
}

/// The file that `put` writes.
#[derive(Drop)]
enum Output<F> {
    /// None was named, or the one that was named could not be made.
    Missing,
    /// It is made at the first put.
    Named(String),
    Open(F),
    /// Standard output.
    Standard,
}

/// A file that is read. Its buffer is a part of it, and a box is moved without that.
#[derive(Drop)]
pub enum Source<F, I> {
    File(Box<F>),
    /// Standard input.
    Standard(Box<I>),
}

impl<F: Read, I: Read> Read for Source<F, I> {
    fn read(&mut self, room: &mut [u8]) -> io::Result<usize> {
        match self {
            Source::File(file) => file.read(room),
            Source::Standard(input) => input.read(room),
        }
    }
}

impl<'a, R: std::rt::Files> Disk<'a, R> {
    pub fn new(runtime: &'a R, aside: &'a Aside, is_reported: bool) -> Self {
        Disk {
            runtime,
            aside,
            is_reported,
            is_input_taken: false,
            output: Output::Missing,
            fault: None,
            failures: 0,
        }
    }
}

impl<'a, R: std::rt::Files + Clock + Eprint> Disk<'a, R> {
    /// The progress of reading bytes of which the number isn't known, where it is reported to a terminal.
    fn progress(&self) -> Option<Progress<'a, R>> {
        if self.is_reported {
            Progress::begin(self.runtime, None)
        } else {
            None
        }
    }

    /// The progress of reading a file, where it is reported to a terminal.
    fn progress_of(&self, file: &R::File) -> Option<Progress<'a, R>> {
        if self.is_reported {
            Progress::begin(self.runtime, len_of(file))
        } else {
            None
        }
    }
}

impl<'a, R: std::rt::Files + Input + Eprint + Clock + AllocGlobal> Disk<'a, R> {
    /// Opens standard input, if it wasn't opened before: what was read of it by then isn't there any more.
    fn open_standard(&mut self) -> Result<Tracked<'a, R, Source<R::File, R::Reader>>, FileFault>
        ensures { self.new.failures ≡ self.old.failures }
    {
        if self.is_input_taken {
            return Err(FileFault::Unusable);
        }
        match Box::new(self.runtime.alloc(), self.runtime.reader()) {
            Ok(input) => {
                self.is_input_taken = true;
                Ok(Tracked {
                    source: Source::Standard(input),
                    progress: self.progress(),
                })
            }
            Err(_) => Err(FileFault::Memory),
        }
    }
}

impl<R: std::rt::Files + AllocGlobal> Disk<'_, R> {
    /// Makes the file that was named, if it is not there yet.
    fn make(&mut self)
        ensures { self.new.failures ≡ self.old.failures }
    {
        let Output::Named(path) = &self.output else {
            return;
        };
        match fs::create(self.runtime, path) {
            Ok(file) => self.output = Output::Open(file),
            Err(error) => {
                self.output = Output::Missing;
                self.fault = Some(fault_of(error));
            }
        }
    }
}

impl<R: std::rt::Files + Print + AllocGlobal> Sink for Disk<'_, R> {
    ghost use Rattle.std.specs.Prelude.{None};

    ghost sunk = { λ s. record { taken = None; failures = s.failures } };

    fn put(&mut self, piece: &[u8]) -> Result<usize, DeviceFault> {
        if piece.is_empty() {
            return Ok(0);
        }
        self.make();
        let answer = match &mut self.output {
            Output::Open(file) => write_to(file, piece),
            Output::Standard => write_to(&mut io::writer(self.runtime), piece),
            _ => Err(DeviceFault),
        };
        if answer.is_err() {
            self.failures = self.failures.wrapping_add(1);
        }
        answer
    }
}

impl<'a, R: std::rt::Files + Input + Print + Eprint + Clock + AllocGlobal> Files for Disk<'a, R> {
    ghost use Rattle.std.specs.Prelude.{None};

    ghost content = { λ _ _. None };

    ghost not_created = { λ s. s.fault };

    type Input = Tracked<'a, R, Source<R::File, R::Reader>>;

    type New = NewFile<R::File>;

    fn read(&mut self, path: &str) -> Result<Vec<u8>, FileFault> {
        let mut bytes = Vec::new(self.runtime.alloc());
        self.open(path)?.read_to_end(&mut bytes).map_err(fault_of)?;
        Ok(bytes)
    }

    fn open(
        &mut self,
        path: &str,
    ) -> Result<Tracked<'a, R, Source<R::File, R::Reader>>, FileFault> {
        if path == STANDARD {
            return self.open_standard();
        }
        match fs::open(self.runtime, path) {
            Ok(file) => {
                let progress = self.progress_of(&file);
                match Box::new(self.runtime.alloc(), file) {
                    Ok(file) => Ok(Tracked {
                        source: Source::File(file),
                        progress,
                    }),
                    Err(_) => Err(FileFault::Memory),
                }
            }
            Err(error) => Err(fault_of(error)),
        }
    }

    fn create(&mut self, path: &str) -> Result<(), FileFault> {
        if path == STANDARD {
            self.output = Output::Standard;
            self.fault = None;
            return Ok(());
        }
        match String::from_str(self.runtime.alloc(), path) {
            Ok(path) => {
                self.output = Output::Named(path);
                self.fault = None;
                Ok(())
            }
            Err(_) => Err(FileFault::Memory),
        }
    }

    fn close(&mut self) {
        self.output = Output::Missing;
    }

    fn begin_new(&mut self, path: &str) -> Result<Option<NewFile<R::File>>, FileFault> {
        if path == STANDARD {
            return Ok(None);
        }
        match new_file::begin(self.runtime, path, self.failures) {
            Ok(found) => Ok(found),
            Err(error) => match fault_of(error) {
                FileFault::Memory => Err(FileFault::Memory),
                FileFault::Unusable => Ok(None),
            },
        }
    }

    fn place(&mut self, file: NewFile<R::File>, _path: &str) -> Result<(), DeviceFault> {
        let failures = file.failures;
        match new_file::place(self.runtime, file) {
            Ok(()) => {
                self.failures = failures;
                Ok(())
            }
            Err(_) => {
                self.failures = self.failures.wrapping_add(1);
                Err(DeviceFault)
            }
        }
    }

    fn discard(&mut self, file: NewFile<R::File>) {
        new_file::remove(self.runtime, file);
    }

    fn print_aside(&mut self, is_aside: bool) {
        self.aside.set(is_aside);
    }

    fn remark<D: Display + Drop>(&mut self, remark: D) {
        // It doesn't matter whether it can be printed: the answer goes to standard output.
        let _ = self.runtime.eprintln(remark);
    }

    fn fault(&self) -> Option<FileFault> {
        self.fault
    }
}

/// Writes a prefix of a piece that isn't empty, and returns how many bytes the file took. Where it took none, that is a
/// failure.
pub fn write_to<F: Write>(file: &mut F, piece: &[u8]) -> Result<usize, DeviceFault>
    ensures bound { IfOk result (λ n. (1 ≤ n) × (n ≤ length piece.now)) }
    ensures took { WriteAppends (F.contents file.old) (F.contents file.new) result piece.now }
{
    match file.write(piece) {
        Ok(0) | Err(_) => Err(DeviceFault),
        Ok(taken) => Ok(taken),
    }
}

/// How many bytes a regular file has.
fn len_of<F: OpenFile>(file: &F) -> Option<u64> {
    let metadata = file.metadata().ok()?;
    metadata.is_file().then_some(metadata.len())
}

fn fault_of(error: Error) -> FileFault {
    FileFault::from(error)
}
