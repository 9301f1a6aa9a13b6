//! The lists of headers that were returned for reuse: the next header is read into them.

ghost use Rattle.std.specs.Prelude.{◌≡◌, []};

use array_layout::{BufferRange, FieldNode};
use schema_meta::{BatchHeader, Header};
use std::alloc::Global;
use std::mem::replace;

/// The allocator, and a list of nodes and one of buffer ranges that no header has.
#[derive(Drop)]
pub(crate) struct HeaderLists {
    pub alloc: Global,
    nodes: Vec<FieldNode>,
    ranges: Vec<BufferRange>,
}

impl HeaderLists {
    pub(crate) fn new(alloc: Global) -> HeaderLists {
        HeaderLists {
            alloc,
            nodes: Vec::new(alloc),
            ranges: Vec::new(alloc),
        }
    }

    /// The list of nodes, emptied.
    pub(crate) fn take_nodes(&mut self) -> Vec<FieldNode>
        ensures { result.items ≡ [] }
    {
        let mut nodes = replace(&mut self.nodes, Vec::new(self.alloc));
        nodes.clear();
        nodes
    }

    /// The list of buffer ranges, emptied.
    pub(crate) fn take_ranges(&mut self) -> Vec<BufferRange>
        ensures { result.items ≡ [] }
    {
        let mut ranges = replace(&mut self.ranges, Vec::new(self.alloc));
        ranges.clear();
        ranges
    }

    fn give_batch(&mut self, header: BatchHeader) {
        let BatchHeader { nodes, ranges, .. } = header;
        self.nodes = nodes;
        self.ranges = ranges;
    }

    /// Takes the lists of a header for reuse.
    pub(crate) fn give(&mut self, header: Header) {
        match header {
            Header::Dictionary(dictionary) => self.give_batch(dictionary.batch),
            Header::Batch(batch) => self.give_batch(batch),
            Header::Schema | Header::End => {}
        }
    }
}
