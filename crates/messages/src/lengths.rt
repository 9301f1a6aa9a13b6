//! Checks that the arrays of a batch are long enough: Arrow Columnar Format, "Struct Layout" and "RecordBatch message".

ghost use Rattle.std.specs.Prelude.{◌≡◌, ◌+◌, ◌≤◌, length};
ghost use Rattle.values.specs.Rose.{rose_size, roses_size};
ghost use Rattle.array_layout.specs.Placing.{node_at};
ghost use Rattle.schema_meta.specs.FieldLayouts.{slot_layout_of, slot_layouts_of};
ghost use Rattle.schema_meta.specs.Batch.{least, lengths_fit};
ghost use Rattle.messages.specs.Lengths.{SkipsAll, SkipsOne};

use array_layout::FieldNode;
use schema_meta::{Field, StreamSchema};
use values::Layout;

/// The length of node `index`; 0 if there is no such node.
pub(crate) fn length_at(nodes: &[FieldNode], index: usize) -> usize
    ensures { result ≡ (node_at nodes.now index).length }
{
    match nodes.get(index) {
        Some(node) => node.length,
        None => 0,
    }
}

/// The least length of the children of an array of this layout and length.
fn least_below(layout: Layout, len: usize) -> usize
    ensures { result ≡ least layout len }
{
    match layout {
        Layout::Struct => len,
        _ => 0,
    }
}

/// Skips a field's nodes, the first of which is node `index`, and returns the index of the next; `None` if the field's
/// array is shorter than `floor`, or one below it is too short.
#[cycle(lengths)]
#[tactic(auto, using(crate::proofs::LongEnough::lengths))]
fn skip_field(field: &Field, nodes: &[FieldNode], index: usize, floor: usize) -> Option<usize>
    requires { index + rose_size (slot_layout_of field.now) ≤ length nodes.now }
    ensures { SkipsOne nodes.now index floor (slot_layout_of field.now) result }
{
    let len = length_at(nodes, index);
    if len < floor {
        return None;
    }
    skip_fields(
        &field.children,
        nodes,
        index + 1,
        least_below(field.slot_layout(), len),
    )
}

/// Skips the nodes of these fields.
#[cycle(lengths)]
#[tactic(auto, using(crate::proofs::LongEnough::lengths))]
fn skip_fields(fields: &[Field], nodes: &[FieldNode], index: usize, floor: usize) -> Option<usize>
    requires { index + roses_size (slot_layouts_of fields.now) ≤ length nodes.now }
    ensures { SkipsAll nodes.now index floor (slot_layouts_of fields.now) result }
{
    let mut next = index;
    for field in fields {
        next = skip_field(field, nodes, next, floor)?;
    }
    Some(next)
}

/// Whether each column has `rows` slots, and the arrays below it are long enough.
#[tactic(auto, using(crate::proofs::LongEnough::lengths), unfolding(schema_meta::specs::Batch::lengths_fit))]
pub(crate) fn fit(schema: &StreamSchema, nodes: &[FieldNode], rows: usize) -> bool
    requires { roses_size (slot_layouts_of schema.now.fields.items) ≤ length nodes.now }
    ensures { result ≡ lengths_fit rows (slot_layouts_of schema.now.fields.items) nodes.now }
{
    let mut next = 0;
    for index in 0..schema.fields.len() {
        if length_at(nodes, next) != rows {
            return false;
        }
        match skip_field(&schema.fields[index], nodes, next, rows) {
            None => return false,
            Some(after) => next = after,
        }
    }
    true
}
