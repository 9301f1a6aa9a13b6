//! A few files in memory.

ghost use Rattle.std.specs.Prelude.{◌≡◌};

use liveviews::{FileFault, Files};
use std::alloc::Global;
use std::fmt::Display;
use std::io;
use std::io::{ErrorKind, Read};
use stream_writer::{DeviceFault, Sink};

/// The file `in` with these bytes, the same files `interrupted` and `broken` with reads that fail, and the file `out`
/// once it is made, with what was put to it. Nothing else can be read or made.
///
/// Where `replaces` is set, there is a file `out` with the bytes `whole`, and a new one can replace it.
#[derive(Drop)]
pub struct Shelf<'a> {
    alloc: Global,
    input: &'a [u8],
    named: Named,
    pub made: bool,
    pub written: Vec<u8>,
    pub replaces: bool,
    pub whole: Vec<u8>,
    /// How many puts a new file takes before it fails.
    pub puts: u64,
    /// Whether no new file can replace the old one.
    pub is_stuck: bool,
    fault: Option<FileFault>,
    failures: u64,
}

/// Which file is to be written.
#[derive(Clone, Copy, PartialEq, Eq)]
enum Named {
    Out,
    Other,
}

impl<'a> Shelf<'a> {
    /// A shelf with this input, and no file `out`.
    pub fn new(alloc: Global, input: &'a [u8]) -> Self {
        Shelf {
            alloc,
            input,
            named: Named::Other,
            made: false,
            written: Vec::new(alloc),
            replaces: false,
            whole: Vec::new(alloc),
            puts: u64::MAX,
            is_stuck: false,
            fault: None,
            failures: 0,
        }
    }
}

impl Shelf<'_> {
    /// Makes the file that was named, if it is not there yet. Returns whether it is there.
    fn make(&mut self) -> bool
        ensures failures { self.new.failures ≡ self.old.failures }
        ensures written { self.new.written ≡ self.old.written }
    {
        match self.named {
            Named::Out => self.made = true,
            Named::Other => self.fault = Some(FileFault::Unusable),
        }
        self.made
    }
}

impl Sink for Shelf<'_> {
    ghost use Rattle.std.specs.Prelude.{Some};

    ghost sunk = { λ s. record { taken = Some s.written.items; failures = s.failures } };

    fn put(&mut self, piece: &[u8]) -> Result<usize, DeviceFault> {
        if piece.is_empty() {
            return Ok(0);
        }
        if self.make() && self.written.extend_from_slice(piece).is_ok() {
            return Ok(piece.len());
        }
        self.failures = self.failures.wrapping_add(1);
        Err(DeviceFault)
    }
}

/// How reads of a file end besides at its end.
#[derive(Clone, Copy, PartialEq, Eq)]
enum Trouble {
    Nothing,
    /// Each read is interrupted once before it gives bytes.
    Interrupted,
    /// No read gives bytes once fewer than 300 remain.
    Broken,
}

/// A file that is read a few bytes at a time.
#[derive(Drop)]
pub struct Bites<'a> {
    left: &'a [u8],
    trouble: Trouble,
    /// Whether the read is one that `trouble` may interrupt: every other one.
    is_due: bool,
}

impl Read for Bites<'_> {
    ghost use Rattle.std.specs.Prelude.{Some};

    ghost remaining = { λ b. Some b.left.now };

    fn read(&mut self, room: &mut [u8]) -> io::Result<usize> {
        self.is_due = !self.is_due;
        if self.trouble == Trouble::Interrupted && self.is_due {
            return Err(io::Error::from(ErrorKind::Interrupted));
        }
        if self.trouble == Trouble::Broken && self.left.len() < 300 {
            return Err(io::Error::from(ErrorKind::Other));
        }
        let most = room.len().min(7);
        self.left.read(&mut room[..most])
    }
}

impl<'a> Files for Shelf<'a> {
    ghost use Rattle.scenario_tests.specs.Shelves.{shelved};

    ghost content = { λ s path. shelved path s.input.now };

    ghost not_created = { λ s. s.fault };

    type Input = Bites<'a>;

    type New = Draft;

    fn read(&mut self, path: &str) -> Result<Vec<u8>, FileFault> {
        if path != "in" {
            return Err(FileFault::Unusable);
        }
        let mut bytes = Vec::new(self.alloc);
        match bytes.extend_from_slice(self.input) {
            Ok(()) => Ok(bytes),
            Err(_) => Err(FileFault::Memory),
        }
    }

    fn open(&mut self, path: &str) -> Result<Bites<'a>, FileFault> {
        let trouble = match path {
            "in" => Trouble::Nothing,
            "interrupted" => Trouble::Interrupted,
            "broken" => Trouble::Broken,
            _ => return Err(FileFault::Unusable),
        };
        Ok(Bites {
            left: self.input,
            trouble,
            is_due: false,
        })
    }

    fn create(&mut self, path: &str) -> Result<(), FileFault> {
        self.named = if path == "out" {
            Named::Out
        } else {
            Named::Other
        };
        self.fault = None;
        Ok(())
    }

    fn close(&mut self) {
        self.named = Named::Other;
    }

    fn begin_new(&mut self, path: &str) -> Result<Option<Draft>, FileFault> {
        if path != "out" || !self.replaces {
            return Ok(None);
        }
        let mut bytes = Vec::new(self.alloc);
        bytes.extend_from_slice(&self.written)?;
        Ok(Some(Draft {
            bytes,
            puts: self.puts,
            failures: self.failures,
        }))
    }

    fn place(&mut self, file: Draft, path: &str) -> Result<(), DeviceFault> {
        if path == "out" && self.replaces && !self.is_stuck {
            if let Some(whole) = since(self.alloc, &file.bytes, self.written.len()) {
                self.written = file.bytes;
                self.failures = file.failures;
                self.whole = whole;
                return Ok(());
            }
        }
        self.failures = self.failures.wrapping_add(1);
        Err(DeviceFault)
    }

    fn discard(&mut self, _file: Draft) {}

    fn print_aside(&mut self, _is_aside: bool) {}

    fn remark<D: Display + Drop>(&mut self, _remark: D) {}

    fn fault(&self) -> Option<FileFault> {
        self.fault
    }
}

/// The bytes from `from` on.
fn since(alloc: Global, bytes: &[u8], from: usize) -> Option<Vec<u8>> {
    if from > bytes.len() {
        return None;
    }
    Vec::from_slice(alloc, &bytes[from..]).ok()
}

/// A new file, after what was put to the shelf before.
#[derive(Drop)]
pub struct Draft {
    bytes: Vec<u8>,
    puts: u64,
    failures: u64,
}

impl Sink for Draft {
    ghost use Rattle.stream_writer.specs.Sinks.{sunk_of};

    ghost sunk = { λ s. sunk_of s.bytes.items s.failures };

    fn put(&mut self, piece: &[u8]) -> Result<usize, DeviceFault> {
        if piece.is_empty() {
            return Ok(0);
        }
        if self.puts > 0 && self.bytes.extend_from_slice(piece).is_ok() {
            self.puts -= 1;
            return Ok(piece.len());
        }
        self.failures = self.failures.wrapping_add(1);
        Err(DeviceFault)
    }
}
