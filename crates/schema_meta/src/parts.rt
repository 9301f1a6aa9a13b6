//! Finds the buffers of a batch's arrays in its body: Arrow Columnar Format, "RecordBatch message".

ghost use Rattle.std.specs.Prelude.{◌≡◌, ◌+◌, ◌≤◌, IfOk, length};
ghost use Rattle.values.specs.Rose.{kids_of, rose_size, roses_size};
ghost use Rattle.dictionaries.specs.Table.{values_in};
ghost use Rattle.array_layout.specs.Placing.{placed, placed_all, ranges_below, ranges_in};
ghost use Rattle.schema_meta.specs.FieldLayouts.{slot_layout_of, slot_layouts_of};
ghost use Rattle.schema_meta.specs.Parts.{
  decoded,
  decoded_all,
  dictionary_values,
  values_array,
};

use crate::encoding::DictionaryEncoding;
use crate::field::Field;
use crate::header::BatchHeader;
use array_layout::{
    Array, ArrayCursor, BufferRange, DictionaryValues, FieldNode, array_at, own_ranges,
};
use dictionaries::Dicts;
use std::alloc::{AllocError, Global};
use values::ColType;

/// The values that a field's dictionary has now, if it has one.
fn dictionary_values(
    dicts: &Dicts,
    encoding: Option<DictionaryEncoding>,
    stored: &ColType,
) -> Result<Option<DictionaryValues>, AllocError>
    ensures { IfOk result (λ w. w ≡ dictionary_values (values_in dicts.now) encoding stored.now) }
{
    let Some(encoding) = encoding else {
        return Ok(None);
    };
    let values = dicts.share(encoding.id)?;
    let layout = stored.layout();
    Ok(Some(DictionaryValues { layout, values }))
}

/// The array of a field, with all below it. The cursor moves past their nodes and buffers.
#[cycle(place)]
#[tactic(auto, using(crate::proofs::Places::placing))]
fn place(
    alloc: Global,
    field: &Field,
    nodes: &[FieldNode],
    ranges: &[BufferRange],
    dicts: &Dicts,
    at: &mut ArrayCursor,
) -> Result<Array, AllocError>
    requires nodes { at.old.node + rose_size (slot_layout_of field.now) ≤ length nodes.now }
    requires ranges { at.old.range + ranges_in (slot_layout_of field.now) ≤ length ranges.now }
    ensures array { IfOk result
        (λ a. a ≡ decoded (values_in dicts.now) field.now
        (placed nodes.now ranges.now at.old.node at.old.range (slot_layout_of field.now))) }
    ensures node { IfOk result (λ _. at.new.node ≡ at.old.node + rose_size (slot_layout_of field.now)) }
    ensures range { IfOk result (λ _. at.new.range ≡ at.old.range + ranges_in (slot_layout_of field.now)) }
{
    let layout = field.slot_layout();
    let dictionary = dictionary_values(dicts, field.encoding, &field.stored)?;
    let own = array_at(nodes, ranges, at, layout, dictionary);
    at.node += 1;
    at.range += own_ranges(layout);
    let children = place_all(alloc, &field.children, nodes, ranges, dicts, at)?;
    Ok(Array { own, children })
}

/// The arrays of these fields, one after the other.
#[cycle(place)]
#[tactic(auto, using(crate::proofs::Places::placing))]
fn place_all(
    alloc: Global,
    fields: &[Field],
    nodes: &[FieldNode],
    ranges: &[BufferRange],
    dicts: &Dicts,
    at: &mut ArrayCursor,
) -> Result<Vec<Array>, AllocError>
    requires nodes { at.old.node + roses_size (slot_layouts_of fields.now) ≤ length nodes.now }
    requires ranges { at.old.range + ranges_below (slot_layouts_of fields.now) ≤ length ranges.now }
    ensures arrays { IfOk result
        (λ a. kids_of a.items ≡ decoded_all (values_in dicts.now) (kids_of fields.now)
        (placed_all nodes.now ranges.now at.old.node at.old.range (slot_layouts_of fields.now))) }
    ensures node { IfOk result (λ _. at.new.node ≡ at.old.node + roses_size (slot_layouts_of fields.now)) }
    ensures range { IfOk result (λ _. at.new.range ≡ at.old.range + ranges_below (slot_layouts_of fields.now)) }
{
    let mut arrays = Vec::with_capacity(alloc, fields.len())?;
    for field in fields {
        arrays.push(place(alloc, field, nodes, ranges, dicts, at)?)?;
    }
    Ok(arrays)
}

/// The array of a column of a batch, with all below it, and with the values that their dictionaries have now. The
/// cursor moves past their nodes and buffers.
pub fn place_array(
    alloc: Global,
    field: &Field,
    header: &BatchHeader,
    dicts: &Dicts,
    at: &mut ArrayCursor,
) -> Result<Array, AllocError>
    requires nodes { at.old.node + rose_size (slot_layout_of field.now) ≤ length header.now.nodes }
    requires ranges { at.old.range + ranges_in (slot_layout_of field.now) ≤ length header.now.ranges }
    ensures array { IfOk result
        (λ a. a ≡ decoded (values_in dicts.now) field.now
        (placed header.now.nodes header.now.ranges at.old.node at.old.range (slot_layout_of field.now))) }
    ensures node { IfOk result (λ _. at.new.node ≡ at.old.node + rose_size (slot_layout_of field.now)) }
    ensures range { IfOk result (λ _. at.new.range ≡ at.old.range + ranges_in (slot_layout_of field.now)) }
{
    place(alloc, field, &header.nodes, &header.ranges, dicts, at)
}

/// The one array of a dictionary batch, with values of this type.
#[tactic(auto, unfolding(crate::specs::Parts::values_array))]
pub fn place_values(alloc: Global, stored: &ColType, header: &BatchHeader) -> Array
    ensures { result ≡ values_array stored.now header.now }
{
    let at = ArrayCursor { node: 0, range: 0 };
    let own = array_at(&header.nodes, &header.ranges, &at, stored.layout(), None);
    Array {
        own,
        children: Vec::new(alloc),
    }
}
