//! Arrays as a record batch header describes them: field nodes, and the byte ranges of buffers.

ghost use Rattle.std.specs.Prelude.{◌≡◌, ◌≤◌};
ghost use Rattle.array_layout.specs.Placing.{own_ranges};

use dictionaries::Dictionary;
use std::marker::Model;
use values::Layout;

/// The length of an array, in slots, and its null count as the header claims it: Message.fbs, struct `FieldNode`.
#[derive(Clone, Copy, Debug, PartialEq, Eq)]
pub struct FieldNode {
    /// The number of slots.
    pub length: usize,
    /// The null count as it is stored. Whether it is true is checked on the body.
    pub nulls: i64,
}

/// Where a buffer lies in the body, in bytes: Message.fbs, struct `Buffer`.
#[derive(Clone, Copy, Debug, PartialEq, Eq)]
pub struct BufferRange {
    /// Where the buffer begins, in bytes from the start of the body.
    pub from: usize,
    /// Its length in bytes.
    pub len: usize,
}

/// How many buffers an array of this layout has, without those of its children.
pub fn own_ranges(layout: Layout) -> usize
    ensures exact { result ≡ own_ranges layout }
    ensures bound { result ≤ 3 }
{
    match layout {
        Layout::Utf8 { .. } | Layout::Binary { .. } => 3,
        Layout::Struct => 1,
        _ => 2,
    }
}

/// The values of a dictionary, and the layout that an array of them would have.
#[derive(Drop)]
pub struct DictionaryValues {
    pub layout: Layout,
    pub values: Dictionary,
}

/// An array without its children: its layout, its node, and where its buffers lie in the body.
#[derive(Drop)]
pub struct ArrayData {
    /// The layout of its slots. Where it has a dictionary, this is the layout of the indices.
    pub layout: Layout,
    /// The dictionary to which its slots are indices, as it is for this batch.
    pub dictionary: Option<DictionaryValues>,
    /// The number of slots.
    pub len: usize,
    /// The null count as it is stored.
    pub nulls: i64,
    /// Where the validity bitmap lies; of length 0 where it is left out.
    pub validity: BufferRange,
    /// Where the offsets of texts, bytes and lists lie; of length 0 for any other layout.
    pub offsets: BufferRange,
    /// Where the bits or numbers of the slots lie, or the bytes that the offsets point into; of length 0 for lists and
    /// structs.
    pub values: BufferRange,
}

/// An array with its children.
///
/// Contracts see it as a tree with an `ArrayData` at each node.
#[derive(Drop)]
pub struct Array {
    pub own: ArrayData,
    pub children: Vec<Array>,
}

impl Model for Array {
    ghost use Rattle.std.proofs.Common.{arith};
    ghost use Rattle.values.specs.Rose.{Rose, node, kids_of, rose_code, rose_size, most_le-roses_size};
    ghost use Rattle.array_layout.specs.declared.array.ArrayData.{ArrayData};
    ghost use Rattle.array_layout.specs.contracts.array.ArrayData.{the_row};

    ghost Value = { Rose ArrayData };

    ghost coded = { rose_code the_row.coded };

    ghost view = { λ a. node a.own (kids_of a.children.items) };

    ghost size = { rose_size };

    ghost size_decreases = { λ a h. omega (arith, most_le-roses_size a.children.items) };
}
