//! A message body under construction: its bytes, field nodes and buffer ranges.

ghost use Rattle.std.specs.Prelude.{◌≡◌, ◌≤◌, ℕ, List, IfOk, OnOk, [], ◌∷◌, length};
ghost use Rattle.body_writer.specs.Grows.{Appends, Begins};
ghost use Rattle.body_writer.specs.declared.body.Body.{Body as BodyValue};

use array_layout::{BufferRange, FieldNode};
use std::alloc::{AllocError, Global};

/// A message body, with the field nodes and buffer ranges of its header.
#[derive(Debug, Drop)]
pub struct Body {
    /// The field nodes, one for each array, in preorder.
    pub nodes: Vec<FieldNode>,
    /// Where the buffers lie, in the same order; their lengths don't count the padding.
    pub ranges: Vec<BufferRange>,
    /// The body's bytes: the buffers in that order, each filled with zeros up to a multiple of 8.
    pub bytes: Vec<u8>,
}

impl Body {
    /// An empty body. It takes no memory.
    pub fn new(alloc: Global) -> Self
        ensures nodes { result.nodes.items ≡ [] }
        ensures ranges { result.ranges.items ≡ [] }
        ensures bytes { result.bytes.items ≡ [] }
    {
        Body {
            nodes: Vec::new(alloc),
            ranges: Vec::new(alloc),
            bytes: Vec::new(alloc),
        }
    }

    /// An empty body, with capacity for this number of bytes.
    pub fn with_capacity(alloc: Global, capacity: usize) -> Result<Self, AllocError>
        ensures nodes { IfOk result (λ body. body.nodes.items ≡ []) }
        ensures ranges { IfOk result (λ body. body.ranges.items ≡ []) }
        ensures bytes { IfOk result (λ body. body.bytes.items ≡ []) }
    {
        Ok(Body {
            nodes: Vec::new(alloc),
            ranges: Vec::new(alloc),
            bytes: Vec::with_capacity(alloc, capacity)?,
        })
    }

    /// Ends a buffer, whose bytes are those from index `from` on: appends zeros up to a multiple of 8.
    #[tactic(auto, using(crate::proofs::GrowthLemmas::ending))]
    pub fn end_buffer(&mut self, from: usize) -> Result<(), AllocError>
        requires { from ≤ length self.old.bytes.items }
        ensures { OnOk result ((before : BodyValue) (buffer : List ℕ) → length before.bytes.items ≡ from
            → Begins before self.old buffer → Appends before self.new (buffer ∷ [])) }
    {
        let zeros = [0u8; 8];
        let len = self.bytes.len() - from;
        self.ranges.push(BufferRange { from, len })?;
        self.bytes.extend_from_slice(&zeros[..(8 - len % 8) % 8])?;
        Ok(())
    }

    /// Appends a buffer, and zeros up to a multiple of 8.
    #[tactic(auto, using(crate::proofs::GrowthLemmas::lengths))]
    pub fn append(&mut self, buffer: &[u8]) -> Result<(), AllocError>
        ensures { OnOk result (Appends self.old self.new (buffer.now ∷ [])) }
    {
        let from = self.bytes.len();
        self.bytes.extend_from_slice(buffer)?;
        self.end_buffer(from)
    }
}
