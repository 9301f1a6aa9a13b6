//! A sink that stores its bytes in memory.

ghost use Rattle.std.specs.Prelude.{◌≡◌, ◌+◌, [], IfErr, IfOk, length, min};
ghost use Rattle.stream_writer.specs.Sinks.{Puts, sunk_of};

use crate::sink::{DeviceFault, Sink};
use std::alloc::Global;

/// A sink that stores what it took. It can be made to fail, as devices do.
#[derive(Drop)]
pub struct MemorySink {
    bytes: Vec<u8>,
    portion: usize,
    puts: u64,
    failed: u64,
}

impl MemorySink {
    /// A sink that takes all that fits into memory.
    pub fn new(alloc: Global) -> Self
        ensures bytes { result.bytes.items ≡ [] }
        ensures limits { (result.portion ≡ usize.MAX) × (result.puts ≡ u64.MAX) × (result.failed ≡ 0) }
    {
        MemorySink::with_limit(alloc, usize::MAX, u64::MAX)
    }

    /// A sink that takes at most `portion` bytes a put, and fails after `puts` puts. With a portion of 0 it returns 0,
    /// which is a failure too.
    pub fn with_limit(alloc: Global, portion: usize, puts: u64) -> Self
        ensures bytes { result.bytes.items ≡ [] }
        ensures limits { (result.portion ≡ portion) × (result.puts ≡ puts) × (result.failed ≡ 0) }
    {
        MemorySink {
            bytes: Vec::new(alloc),
            portion,
            puts,
            failed: 0,
        }
    }

    /// The bytes that it took.
    pub fn bytes(&self) -> &[u8]
        ensures { result.now ≡ self.now.bytes.items }
    {
        self.bytes.as_slice()
    }
}

impl Sink for MemorySink {
    ghost sunk = { λ s. sunk_of s.bytes.items s.failed };

    /// Takes as much of the piece as its portion allows. It fails after its last put, and where memory is refused.
    fn put(&mut self, piece: &[u8]) -> Result<usize, DeviceFault>
        ensures puts { Puts (sunk_of self.old.bytes.items self.old.failed)
            (sunk_of self.new.bytes.items self.new.failed) result piece.now }
        ensures portion { IfOk result
            (λ n. (n ≡ min (length piece.now) self.old.portion) × (self.old.puts ≡ self.new.puts + 1)) }
        ensures limits { IfErr result (λ _. self.new.puts ≡ self.old.puts) × (self.new.portion ≡ self.old.portion) }
    {
        let failed = self.failed;
        let taken = piece.len().min(self.portion);
        if self.puts == 0 || self.bytes.extend_from_slice(&piece[..taken]).is_err() {
            self.failed = failed.wrapping_add(1);
            return Err(DeviceFault);
        }
        self.puts -= 1;
        if taken == 0 && !piece.is_empty() {
            self.failed = failed.wrapping_add(1);
        }
        Ok(taken)
    }
}
