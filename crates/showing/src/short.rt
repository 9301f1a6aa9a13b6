//! A text of a bounded length.

ghost use Rattle.std.specs.Prelude.{◌≡◌, []};
ghost use Rattle.showing.specs.Tables.{width_of};

use std::alloc::{AllocError, Global};
use std::io;
use std::io::{Error, ErrorKind, Write};

/// The most bytes of a short text.
const MOST: usize = 128;

/// A text under construction, of at most 128 bytes. What would make it longer isn't appended.
#[derive(Drop)]
pub(crate) struct Short {
    bytes: Vec<u8>,
}

impl Short {
    /// An empty text.
    pub(crate) fn new(alloc: Global) -> Result<Short, AllocError> {
        Ok(Short {
            bytes: Vec::with_capacity(alloc, MOST)?,
        })
    }

    pub(crate) fn clear(&mut self)
        ensures { self.new.bytes.items ≡ [] }
    {
        self.bytes.clear();
    }

    pub(crate) fn bytes(&self) -> &[u8]
        ensures { result.now ≡ self.now.bytes.items }
    {
        self.bytes.as_slice()
    }

    /// The number of its characters: of bytes that begin one.
    pub(crate) fn width(&self) -> usize
        ensures { result ≡ width_of self.now.bytes.items }
    {
        self.bytes
            .iter()
            .filter(|byte| **byte < 0x80 || **byte >= 0xC0)
            .count()
    }
}

impl Write for Short {
    ghost use Rattle.std.specs.Prelude.{Some};

    ghost contents = { λ s. Some s.bytes.items };

    fn write(&mut self, piece: &[u8]) -> io::Result<usize> {
        if piece.len() > MOST.saturating_sub(self.bytes.len()) {
            return Err(Error::from(ErrorKind::WriteZero));
        }
        match self.bytes.extend_from_slice(piece) {
            Ok(()) => Ok(piece.len()),
            Err(_) => Err(Error::from(ErrorKind::OutOfMemory)),
        }
    }

    fn flush(&mut self) -> io::Result<()> {
        Ok(())
    }
}
