//! The standard streams of the process.

use std::cell::Cell;
use std::io::Write;
use std::{fs, io};

/// The path that denotes standard input and standard output.
pub const STANDARD: &str = "-";

/// Whether what is printed goes to standard error, since standard output gets the bytes of a file.
pub type Aside = Cell<bool>;

/// The output of the answers of `lv`: standard output, or standard error in its place.
#[derive(Drop)]
pub struct Answers<'a, O, E> {
    output: O,
    error: E,
    aside: &'a Aside,
}

impl<'a, O: Write, E: Write> Answers<'a, O, E> {
    pub fn new(output: O, error: E, aside: &'a Aside) -> Self {
        Answers {
            output,
            error,
            aside,
        }
    }
}

impl<O: Write, E: Write> Write for Answers<'_, O, E> {
    fn write(&mut self, bytes: &[u8]) -> io::Result<usize> {
        if self.aside.get() {
            self.error.write(bytes)
        } else {
            self.output.write(bytes)
        }
    }

    fn flush(&mut self) -> io::Result<()> {
        if self.aside.get() {
            self.error.flush()
        } else {
            self.output.flush()
        }
    }
}

/// Descriptors that occupy the numbers of standard streams that were closed.
///
/// A file that is opened gets the least free number. Without these descriptors it could get that of a closed standard
/// output, and what is printed would be written to it. Printing to one of these descriptors fails.
#[derive(Drop)]
pub struct Held<F> {
    _files: [F; 3],
}

/// Occupies the numbers 0 to 2, before any other file is opened.
pub fn hold<R: std::rt::Files>(runtime: &R) -> io::Result<Held<R::File>> {
    let open = || fs::open(runtime, "/dev/null");
    Ok(Held {
        _files: [open()?, open()?, open()?],
    })
}
