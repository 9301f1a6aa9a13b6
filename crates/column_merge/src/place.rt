//! Finds the buffers of the arrays of a written body: Arrow Columnar Format, "RecordBatch message".

ghost use Rattle.std.specs.Prelude.{◌≡◌, ◌+◌, ◌≤◌, IfOk, length};
ghost use Rattle.values.specs.Rose.{kids_of, rose_size, roses_size};
ghost use Rattle.array_layout.specs.Placing.{placed, placed_all, ranges_below, ranges_in};

use array_layout::{Array, ArrayCursor, array_at, own_ranges};
use body_writer::Body;
use std::alloc::{AllocError, Global};
use values::LayoutTree;

/// The array of these layouts, with all below it. The cursor moves past their nodes and buffers.
#[cycle(place)]
#[tactic(auto, using(crate::proofs::Places::placing))]
pub(crate) fn place(
    alloc: Global,
    tree: &LayoutTree,
    body: &Body,
    at: &mut ArrayCursor,
) -> Result<Array, AllocError>
    requires nodes { at.old.node + rose_size tree.now ≤ length body.now.nodes.items }
    requires ranges { at.old.range + ranges_in tree.now ≤ length body.now.ranges.items }
    ensures array { IfOk result
        (λ a. a ≡ placed body.now.nodes.items body.now.ranges.items at.old.node at.old.range tree.now) }
    ensures node { IfOk result (λ _. at.new.node ≡ at.old.node + rose_size tree.now) }
    ensures range { IfOk result (λ _. at.new.range ≡ at.old.range + ranges_in tree.now) }
{
    let layout = tree.layout;
    let own = array_at(&body.nodes, &body.ranges, at, layout, None);
    at.node += 1;
    at.range += own_ranges(layout);
    let children = place_all(alloc, &tree.children, body, at)?;
    Ok(Array { own, children })
}

/// The arrays of these layouts, one after the other.
#[cycle(place)]
#[tactic(auto, using(crate::proofs::Places::placing))]
fn place_all(
    alloc: Global,
    trees: &[LayoutTree],
    body: &Body,
    at: &mut ArrayCursor,
) -> Result<Vec<Array>, AllocError>
    requires nodes { at.old.node + roses_size (kids_of trees.now) ≤ length body.now.nodes.items }
    requires ranges { at.old.range + ranges_below (kids_of trees.now) ≤ length body.now.ranges.items }
    ensures arrays { IfOk result
        (λ a. kids_of a.items ≡ placed_all body.now.nodes.items body.now.ranges.items at.old.node at.old.range
        (kids_of trees.now)) }
    ensures node { IfOk result (λ _. at.new.node ≡ at.old.node + roses_size (kids_of trees.now)) }
    ensures range { IfOk result (λ _. at.new.range ≡ at.old.range + ranges_below (kids_of trees.now)) }
{
    let mut arrays = Vec::with_capacity(alloc, trees.len())?;
    for tree in trees {
        arrays.push(place(alloc, tree, body, at)?)?;
    }
    Ok(arrays)
}
