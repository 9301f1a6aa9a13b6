//! Finds the node and the buffers of an array among those of a batch: Arrow Columnar Format, "RecordBatch message".

ghost use Rattle.std.specs.Prelude.{◌≡◌, ◌+◌, ◌<◌, ◌^◌};
ghost use Rattle.array_layout.specs.Placing.{data_at, node_at, offsets_at, range_at, values_at, with_dictionary};

use crate::array::{ArrayData, BufferRange, DictionaryValues, FieldNode};
use values::Layout;

/// Where the next array of a batch begins: the index of its node, and that of its first buffer.
#[derive(Drop)]
pub struct ArrayCursor {
    pub node: usize,
    pub range: usize,
}

const NOWHERE: BufferRange = BufferRange { from: 0, len: 0 };

/// Buffer `index`, or one of length 0 where there is none.
fn range_at(ranges: &[BufferRange], index: usize) -> BufferRange
    ensures { result ≡ range_at ranges.now index }
{
    match ranges.get(index) {
        Some(range) => *range,
        None => NOWHERE,
    }
}

/// Node `index`, or one of length 0 where there is none.
fn node_at(nodes: &[FieldNode], index: usize) -> FieldNode
    ensures { result ≡ node_at nodes.now index }
{
    match nodes.get(index) {
        Some(node) => *node,
        None => FieldNode {
            length: 0,
            nulls: 0,
        },
    }
}

/// The buffer with the offsets, when validity is buffer `first`.
fn offsets_at(layout: Layout, ranges: &[BufferRange], first: usize) -> BufferRange
    requires { first + 3 < 2 ^ 64 }
    ensures { result ≡ offsets_at layout ranges.now first }
{
    match layout {
        Layout::Utf8 { .. } | Layout::Binary { .. } | Layout::List { .. } => {
            range_at(ranges, first + 1)
        }
        _ => NOWHERE,
    }
}

/// The buffer with the values, when validity is buffer `first`.
fn values_at(layout: Layout, ranges: &[BufferRange], first: usize) -> BufferRange
    requires { first + 3 < 2 ^ 64 }
    ensures { result ≡ values_at layout ranges.now first }
{
    match layout {
        Layout::Utf8 { .. } | Layout::Binary { .. } => range_at(ranges, first + 2),
        Layout::List { .. } | Layout::Struct => NOWHERE,
        _ => range_at(ranges, first + 1),
    }
}

/// The array whose node and first buffer a cursor is at, without its children. `dictionary` has the values to which its
/// slots are indices, if they are.
pub fn array_at(
    nodes: &[FieldNode],
    ranges: &[BufferRange],
    at: &ArrayCursor,
    layout: Layout,
    dictionary: Option<DictionaryValues>,
) -> ArrayData
    requires { at.now.range + 3 < 2 ^ 64 }
    ensures { result ≡ with_dictionary dictionary (data_at nodes.now ranges.now at.now.node at.now.range layout) }
{
    let node = node_at(nodes, at.node);
    ArrayData {
        layout,
        dictionary,
        len: node.length,
        nulls: node.nulls,
        validity: range_at(ranges, at.range),
        offsets: offsets_at(layout, ranges, at.range),
        values: values_at(layout, ranges, at.range),
    }
}
