//! Layouts of a schema's columns.

ghost use Rattle.std.specs.Prelude.{◌≡◌, IfOk};
ghost use Rattle.values.specs.Rose.{kids_of};
ghost use Rattle.values.specs.Logical.{trees_of};

use schema_meta::layout_trees;
use std::alloc::{AllocError, Global};
use values::{LayoutTree, Schema};

/// The layouts in which the columns of a schema are written, in order.
pub fn layouts_of(alloc: Global, schema: &Schema) -> Result<Vec<LayoutTree>, AllocError>
    ensures { IfOk result (λ layouts. kids_of layouts.items ≡ trees_of (kids_of schema.now.fields.items)) }
{
    layout_trees(alloc, &schema.fields)
}
