//! Layouts of fields.

ghost use Rattle.std.specs.Prelude.{◌≡◌, IfOk};
ghost use Rattle.values.specs.Rose.{kids_of};
ghost use Rattle.values.specs.Logical.{tree_of, trees_of};

use std::alloc::{AllocError, Global};
use values::{LayoutTree, LogicalField};

#[cycle(layouts)]
fn layout_tree(alloc: Global, field: &LogicalField) -> Result<LayoutTree, AllocError>
    ensures { IfOk result (λ tree. tree ≡ tree_of field.now) }
{
    let layout = field.col_type.layout();
    let children = layout_trees(alloc, &field.children)?;
    Ok(LayoutTree { layout, children })
}

/// The layouts of fields, in order, each with those of its children.
#[cycle(layouts)]
#[tactic(auto, using(crate::proofs::Trees::tree_steps))]
pub fn layout_trees(alloc: Global, fields: &[LogicalField]) -> Result<Vec<LayoutTree>, AllocError>
    ensures { IfOk result (λ trees. kids_of trees.items ≡ trees_of (kids_of fields.now)) }
{
    let mut trees = Vec::with_capacity(alloc, fields.len())?;
    for field in fields {
        trees.push(layout_tree(alloc, field)?)?;
    }
    Ok(trees)
}
