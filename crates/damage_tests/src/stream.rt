//! A stream as text, and its bytes.

use std::alloc::AllocError;
use std::process::Abort;

/// The messages of a stream in hexadecimal digits.
#[derive(Clone, Copy)]
pub struct HexStream {
    pub name: &'static str,
    pub messages: &'static [&'static str],
}

/// The bytes of a stream, and the offset at which each of its messages ends.
#[derive(Drop)]
pub struct Stream {
    pub name: &'static str,
    pub bytes: Vec<u8>,
    pub ends: Vec<usize>,
}

impl HexStream {
    pub fn decode(&self, rt: &(impl Abort + AllocGlobal)) -> Result<Stream, AllocError> {
        let (mut bytes, mut ends) = (Vec::new(rt.alloc()), Vec::new(rt.alloc()));
        for message in self.messages {
            let Ok(held) = hex::decode(rt.alloc(), *message) else {
                panic!(rt; "{}: {message}", self.name)
            };
            bytes.extend_from_slice(&held)?;
            ends.push(bytes.len())?;
        }
        Ok(Stream {
            name: self.name,
            bytes,
            ends,
        })
    }
}
