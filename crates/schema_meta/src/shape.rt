//! The numbers of field nodes and buffers that a schema requires of its batches.

ghost use Rattle.std.specs.Prelude.{◌≡◌, ◌*◌, ◌≤◌};
ghost use Rattle.values.specs.Limits.{max_fields};
ghost use Rattle.values.specs.Rose.{kids_of, roses_size};
ghost use Rattle.array_layout.specs.Placing.{ranges_below};
ghost use Rattle.schema_meta.specs.FieldLayouts.{slot_layouts_of};

use crate::field::Field;
use crate::schema::StreamSchema;
use array_layout::own_ranges;

/// How many nodes these fields and those below them have: one each.
#[tactic(auto, using(crate::proofs::Counts::counts))]
fn nodes_of(fields: &[Field]) -> usize
    requires { roses_size (kids_of fields.now) ≤ max_fields }
    ensures { result ≡ roses_size (slot_layouts_of fields.now) }
{
    let mut nodes = 0;
    for field in fields {
        nodes += 1 + nodes_of(&field.children);
    }
    nodes
}

/// How many buffers these fields and those below them have.
#[tactic(auto, using(crate::proofs::Counts::counts))]
fn ranges_of(fields: &[Field]) -> usize
    requires { roses_size (kids_of fields.now) ≤ max_fields }
    ensures exact { result ≡ ranges_below (slot_layouts_of fields.now) }
    ensures bound { result ≤ 3 * roses_size (kids_of fields.now) }
{
    let mut ranges = 0;
    for field in fields {
        ranges += own_ranges(field.slot_layout()) + ranges_of(&field.children);
    }
    ranges
}

impl StreamSchema {
    /// How many nodes each of its batches has.
    pub fn nodes(&self) -> usize
        requires { roses_size (kids_of self.now.fields.items) ≤ max_fields }
        ensures { result ≡ roses_size (slot_layouts_of self.now.fields.items) }
    {
        nodes_of(&self.fields)
    }

    /// How many buffers each of its batches has.
    pub fn ranges(&self) -> usize
        requires { roses_size (kids_of self.now.fields.items) ≤ max_fields }
        ensures { result ≡ ranges_below (slot_layouts_of self.now.fields.items) }
    {
        ranges_of(&self.fields)
    }
}
