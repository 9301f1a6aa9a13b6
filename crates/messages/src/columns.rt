//! The arrays that a batch must have: one for each column, or one of dictionary values.

ghost use Rattle.std.specs.Prelude.{◌≡◌, ◌≤◌, length};
ghost use Rattle.values.specs.Rose.{roses_size};
ghost use Rattle.array_layout.specs.Placing.{ranges_below};
ghost use Rattle.schema_meta.specs.Batch.{lengths_fit};
ghost use Rattle.messages.specs.Columns.{AreRead, layouts_wanted};

use crate::lengths::{fit, length_at};
use array_layout::{FieldNode, own_ranges};
use schema_meta::StreamSchema;
use values::Layout;

/// The columns of a batch.
#[derive(Clone, Copy)]
pub(crate) enum Columns<'a> {
    /// The columns of the schema.
    Fields(&'a StreamSchema),
    /// One column, of a dictionary's values, with this layout.
    Values(Layout),
}

impl<'a> Columns<'a> {
    /// How many nodes a batch of them has.
    pub(crate) fn nodes(self) -> usize
        requires { AreRead self }
        ensures { result ≡ roses_size (layouts_wanted self.entry) }
    {
        match self {
            Columns::Fields(schema) => schema.nodes(),
            Columns::Values(_) => 1,
        }
    }

    /// How many buffers a batch of them has.
    pub(crate) fn ranges(self) -> usize
        requires { AreRead self }
        ensures { result ≡ ranges_below (layouts_wanted self.entry) }
    {
        match self {
            Columns::Fields(schema) => schema.ranges(),
            Columns::Values(layout) => own_ranges(layout),
        }
    }

    /// Whether each column has `rows` slots, and the arrays below it are long enough.
    #[tactic(auto, using(crate::proofs::LongEnough::one_fits), unfolding(schema_meta::specs::Batch::lengths_fit))]
    pub(crate) fn fit(self, nodes: &[FieldNode], rows: usize) -> bool
        requires { roses_size (layouts_wanted self) ≤ length nodes.now }
        ensures { result ≡ lengths_fit rows (layouts_wanted self.entry) nodes.now }
    {
        match self {
            Columns::Fields(schema) => fit(schema, nodes, rows),
            Columns::Values(_) => length_at(nodes, 0) == rows,
        }
    }
}
