//! Layouts of a table's columns.

ghost use Rattle.std.specs.Prelude.{◌≡◌, IfOk};
ghost use Rattle.values.specs.Rose.{kids_of};
ghost use Rattle.view_lang.specs.Causes.{layouts_of};

use schema_meta::layout_trees;
use std::alloc::{AllocError, Global};
use values::LayoutTree;
use view_lang::Table;

/// The layouts of the columns of a table, in order.
pub(crate) fn table_layouts(alloc: Global, table: &Table) -> Result<Vec<LayoutTree>, AllocError>
    ensures { IfOk result (λ layouts. kids_of layouts.items ≡ layouts_of table.now) }
{
    layout_trees(alloc, &table.columns)
}
