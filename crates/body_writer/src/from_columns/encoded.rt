//! Cells of arrays with a dictionary, as references to the values to which their indices refer.

ghost use Rattle.std.specs.Prelude.{
  ◌≡◌,
  ◌+◌,
  ◌*◌,
  ◌<◌,
  ◌≤◌,
  ◌++◌,
  All,
  Bool,
  IfOk,
  IfSome,
  OnOk,
  Some,
  false,
  length,
  replicate,
  slice_get,
  true,
};
ghost use Rattle.std.specs.Option.{option_copied};
ghost use Rattle.bitmaps.specs.Bits.{HasBits};
ghost use Rattle.values.specs.Datum.{null};
ghost use Rattle.values.specs.Reading.{IsValid};
ghost use Rattle.values.specs.Rose.{node, kids_of};
ghost use Rattle.values.specs.Layouts.{bytes_in};
ghost use Rattle.values.specs.declared.layout.Layout.TheVariants.{Int};
ghost use Rattle.array_layout.specs.Placing.{bytes_of};
ghost use Rattle.array_layout.specs.Buffers.{is_null};
ghost use Rattle.array_layout.specs.Cells.{cell, coded_by};
ghost use Rattle.arrays.specs.Encoded.{HasIndices};
ghost use Rattle.body_writer.specs.Slots.{cell_of, cells_of};
ghost use Rattle.body_writer.specs.Runs.{IsReadAs, cell_in};
ghost use Rattle.body_writer.specs.Segments.{
  IsChecked,
  IsEncoded,
  IsIndexed,
  OfSlots,
  range_cells,
  segment_cells,
  segments_cells,
};

use crate::from_columns::segment::{Segment, SlotRange};
use array_layout::{DictionaryValues, buffer, is_null_at};
use arrays::index_at;
use std::alloc::{AllocError, Global};
use values::{IntWidth, Layout, Value};

/// The dictionary's value at the index in slot `i`, which is valid.
#[tactic(auto, using(arrays::proofs::IndexLemmas::by_layout, crate::proofs::EncodedLemmas::index_laws))]
fn indexed_value<'a>(
    dictionary: &'a DictionaryValues,
    layout: Layout,
    indices: &[u8],
    i: usize,
) -> Option<&'a Value>
    requires room { HasIndices layout indices.now (i + 1) }
    requires valid { IsValid (coded_by layout dictionary.now.values indices.now i) }
    ensures { cell_of result ≡ cell_in (coded_by layout dictionary.now.values indices.now i) }
{
    match layout {
        Layout::Int { width, .. } => dictionary.values.get(index_at(indices, width, i)),
        Layout::Bool
        | Layout::Decimal { .. }
        | Layout::FixedSizeBinary { .. }
        | Layout::Utf8 { .. }
        | Layout::Binary { .. }
        | Layout::List { .. }
        | Layout::Struct => None,
    }
}

/// The dictionary's value at the index in slot `i`, by the range's bits of validity and its indices; `None` where the
/// slot is null.
pub(crate) fn value_of<'a>(
    range: &SlotRange<'a>,
    dictionary: &'a DictionaryValues,
    bits: &[u8],
    indices: &[u8],
    i: usize,
) -> Option<&'a Value>
    requires checked { IsChecked range.now }
    requires encoded { range.now.parts.own.now.dictionary ≡ Some dictionary.now }
    requires bits { bits.now ≡ bytes_of range.now.parts.body.now range.now.parts.own.now.validity }
    requires indices { indices.now ≡ bytes_of range.now.parts.body.now range.now.parts.own.now.values }
    requires start { range.now.from ≤ i }
    requires within { i < range.now.to }
    ensures { cell_of result ≡ cell_in
        (cell range.now.parts.body.now (node range.now.parts.own.now (kids_of range.now.parts.children.now)) i) }
{
    if is_null_at(bits, i) {
        return None;
    }
    indexed_value(dictionary, range.parts.own.layout, indices, i)
}

fn value_at(values: &[Value], index: usize) -> Option<&Value>
    ensures { option_copied result ≡ slice_get values.now index }
{
    values.get(index)
}

/// The value at the index in slot `i`, where the bits say that the slot is valid; `None` where it is null.
pub(crate) fn value_in<'a>(
    values: &'a [Value],
    width: IntWidth,
    bits: &[u8],
    indices: &[u8],
    i: usize,
) -> Option<&'a Value>
    requires bits { 0 < length bits.now → HasBits bits.now (i + 1) }
    requires room { bytes_in width * (i + 1) ≤ length indices.now }
    ensures missing { is_null bits.now i ≡ true → cell_of result ≡ null }
    ensures found { is_null bits.now i ≡ false → (signed : Bool)
        → IsReadAs (coded_by (Int width signed) values.now indices.now i) (cell_of result) }
{
    let is_null = is_null_at(bits, i);
    if is_null {
        None
    } else {
        value_at(values, index_at(indices, width, i))
    }
}

/// All values to which the slots of an array may refer, as one slice, and the width of the indices; `None` where the
/// values don't lie in one slice.
pub(crate) fn indexed_by<'a>(
    range: &SlotRange,
    dictionary: &'a DictionaryValues,
) -> Option<(&'a [Value], IntWidth)>
    requires checked { IsChecked range.now }
    requires encoded { range.now.parts.own.now.dictionary ≡ Some dictionary.now }
    ensures { IfSome result (λ found. IsIndexed found.1 found.0.now range.now) }
{
    let Layout::Int { width, .. } = range.parts.own.layout else {
        return None;
    };
    let values = dictionary.values.as_slice()?;
    Some((values, width))
}

/// Appends a reference for each of these slots, by indices into the values.
fn push_indexed<'a>(
    cells: &mut Vec<Option<&'a Value>>,
    range: &SlotRange<'a>,
    values: &'a [Value],
    width: IntWidth,
) -> Result<(), AllocError>
    requires { IsIndexed width values.now range.now }
    ensures { OnOk result (cells_of cells.new.items ≡ cells_of cells.old.items ++ range_cells range.now) }
{
    match width {
        IntWidth::Bits8 => push_of_width(cells, range, values, IntWidth::Bits8),
        IntWidth::Bits16 => push_of_width(cells, range, values, IntWidth::Bits16),
        IntWidth::Bits32 => push_of_width(cells, range, values, IntWidth::Bits32),
        IntWidth::Bits64 => push_of_width(cells, range, values, IntWidth::Bits64),
    }
}

/// The same for indices of one width: each call has a loop of its own, in which the width is constant.
#[inline(always)]
fn push_of_width<'a>(
    cells: &mut Vec<Option<&'a Value>>,
    range: &SlotRange<'a>,
    values: &'a [Value],
    width: IntWidth,
) -> Result<(), AllocError>
    requires { IsIndexed width values.now range.now }
    ensures { OnOk result (cells_of cells.new.items ≡ cells_of cells.old.items ++ range_cells range.now) }
{
    let bits = buffer(range.parts.body, &range.parts.own.validity);
    let indices = buffer(range.parts.body, &range.parts.own.values);
    for i in range.from..range.to {
        cells.push(value_in(values, width, bits, indices, i))?;
    }
    Ok(())
}

/// Appends a reference for each of these slots, whose values are found one by one.
fn push_found<'a>(
    cells: &mut Vec<Option<&'a Value>>,
    range: &SlotRange<'a>,
    dictionary: &'a DictionaryValues,
) -> Result<(), AllocError>
    requires checked { IsChecked range.now }
    requires encoded { range.now.parts.own.now.dictionary ≡ Some dictionary.now }
    ensures { OnOk result (cells_of cells.new.items ≡ cells_of cells.old.items ++ range_cells range.now) }
{
    let bits = buffer(range.parts.body, &range.parts.own.validity);
    let indices = buffer(range.parts.body, &range.parts.own.values);
    for i in range.from..range.to {
        cells.push(value_of(range, dictionary, bits, indices, i))?;
    }
    Ok(())
}

/// Appends a reference for each of these slots.
fn push_encoded<'a>(
    cells: &mut Vec<Option<&'a Value>>,
    range: &SlotRange<'a>,
    dictionary: &'a DictionaryValues,
) -> Result<(), AllocError>
    requires checked { IsChecked range.now }
    requires encoded { range.now.parts.own.now.dictionary ≡ Some dictionary.now }
    ensures { OnOk result (cells_of cells.new.items ≡ cells_of cells.old.items ++ range_cells range.now) }
{
    match indexed_by(range, dictionary) {
        Some((values, width)) => push_indexed(cells, range, values, width),
        None => push_found(cells, range, dictionary),
    }
}

/// Appends a reference for each slot of an array with a dictionary.
fn push_slots<'a>(
    cells: &mut Vec<Option<&'a Value>>,
    range: &SlotRange<'a>,
) -> Result<(), AllocError>
    requires { IsEncoded range.now }
    ensures { OnOk result (cells_of cells.new.items ≡ cells_of cells.old.items ++ range_cells range.now) }
{
    let dictionary = range.parts.own.dictionary.as_ref().unwrap();
    push_encoded(cells, range, dictionary)
}

fn push_nulls(cells: &mut Vec<Option<&Value>>, count: usize) -> Result<(), AllocError>
    ensures { OnOk result (cells_of cells.new.items ≡ cells_of cells.old.items ++ replicate count null) }
{
    for _ in 0..count {
        cells.push(None)?;
    }
    Ok(())
}

/// Appends a reference for each cell of a segment.
fn push_segment<'a>(
    cells: &mut Vec<Option<&'a Value>>,
    segment: &Segment<'a>,
) -> Result<(), AllocError>
    requires { OfSlots IsEncoded segment.now }
    ensures { OnOk result (cells_of cells.new.items ≡ cells_of cells.old.items ++ segment_cells segment.now) }
{
    match segment {
        Segment::Slots(range) => push_slots(cells, range),
        Segment::Nulls(count) => push_nulls(cells, *count),
    }
}

/// References to the values of these cells, `len` of them, whose arrays have dictionaries; `None` for a null.
pub(crate) fn encoded_cells<'a>(
    alloc: Global,
    segments: &[Segment<'a>],
    len: usize,
) -> Result<Vec<Option<&'a Value>>, AllocError>
    requires { All (OfSlots IsEncoded) segments.now }
    ensures { IfOk result (λ cells. cells_of cells.items ≡ segments_cells segments.now) }
{
    let mut cells = Vec::with_capacity(alloc, len)?;
    for segment in segments {
        push_segment(&mut cells, segment)?;
    }
    Ok(cells)
}
