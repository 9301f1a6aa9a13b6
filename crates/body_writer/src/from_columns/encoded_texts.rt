//! Texts or bytes of arrays with a dictionary, as slices of the values to which their indices refer.

ghost use Rattle.std.specs.Prelude.{◌≡◌, ◌<◌, ◌≤◌, ◌++◌, All, IfOk, OnOk, Some, map, replicate};
ghost use Rattle.values.specs.Datum.{null};
ghost use Rattle.body_writer.specs.Slots.{cell_of};
ghost use Rattle.body_writer.specs.Segments.{
  IsChecked,
  IsEncoded,
  IsIndexed,
  OfSlots,
  range_cells,
  segment_cells,
  segments_cells,
};
ghost use Rattle.body_writer.specs.Texts.{as_bytes, bytes_cell, bytes_cells};

use crate::from_columns::encoded::{indexed_by, value_in, value_of};
use crate::from_columns::segment::{Segment, SlotRange};
use array_layout::{DictionaryValues, buffer};
use std::alloc::{AllocError, Global};
use values::{IntWidth, Kind, Value};

/// The bytes of a text or of bytes; `None` for a null.
fn text_of<'a>(value: Option<&'a Value>) -> Option<&'a [u8]>
    ensures { bytes_cell result ≡ as_bytes (cell_of value.entry) }
{
    let Some(value) = value else {
        return None;
    };
    match &value.kind {
        Kind::Utf8(text) => Some(text.as_bytes()),
        Kind::Binary(bytes) => Some(bytes),
        _ => None,
    }
}

/// Appends the bytes of each of these slots, by indices into the values.
fn push_indexed<'a>(
    texts: &mut Vec<Option<&'a [u8]>>,
    range: &SlotRange<'a>,
    values: &'a [Value],
    width: IntWidth,
) -> Result<(), AllocError>
    requires { IsIndexed width values.now range.now }
    ensures { OnOk result
        (bytes_cells texts.new.items ≡ bytes_cells texts.old.items ++ map as_bytes (range_cells range.now)) }
{
    match width {
        IntWidth::Bits8 => push_of_width(texts, range, values, IntWidth::Bits8),
        IntWidth::Bits16 => push_of_width(texts, range, values, IntWidth::Bits16),
        IntWidth::Bits32 => push_of_width(texts, range, values, IntWidth::Bits32),
        IntWidth::Bits64 => push_of_width(texts, range, values, IntWidth::Bits64),
    }
}

/// The same for indices of one width: each call has a loop of its own, in which the width is constant.
#[inline(always)]
fn push_of_width<'a>(
    texts: &mut Vec<Option<&'a [u8]>>,
    range: &SlotRange<'a>,
    values: &'a [Value],
    width: IntWidth,
) -> Result<(), AllocError>
    requires { IsIndexed width values.now range.now }
    ensures { OnOk result
        (bytes_cells texts.new.items ≡ bytes_cells texts.old.items ++ map as_bytes (range_cells range.now)) }
{
    let bits = buffer(range.parts.body, &range.parts.own.validity);
    let indices = buffer(range.parts.body, &range.parts.own.values);
    for i in range.from..range.to {
        texts.push(text_of(value_in(values, width, bits, indices, i)))?;
    }
    Ok(())
}

/// Appends the bytes of each of these slots, whose values are found one by one.
fn push_found<'a>(
    texts: &mut Vec<Option<&'a [u8]>>,
    range: &SlotRange<'a>,
    dictionary: &'a DictionaryValues,
) -> Result<(), AllocError>
    requires checked { IsChecked range.now }
    requires encoded { range.now.parts.own.now.dictionary ≡ Some dictionary.now }
    ensures { OnOk result
        (bytes_cells texts.new.items ≡ bytes_cells texts.old.items ++ map as_bytes (range_cells range.now)) }
{
    let bits = buffer(range.parts.body, &range.parts.own.validity);
    let indices = buffer(range.parts.body, &range.parts.own.values);
    for i in range.from..range.to {
        texts.push(text_of(value_of(range, dictionary, bits, indices, i)))?;
    }
    Ok(())
}

/// Appends the bytes of each of these slots.
fn push_encoded<'a>(
    texts: &mut Vec<Option<&'a [u8]>>,
    range: &SlotRange<'a>,
    dictionary: &'a DictionaryValues,
) -> Result<(), AllocError>
    requires checked { IsChecked range.now }
    requires encoded { range.now.parts.own.now.dictionary ≡ Some dictionary.now }
    ensures { OnOk result
        (bytes_cells texts.new.items ≡ bytes_cells texts.old.items ++ map as_bytes (range_cells range.now)) }
{
    match indexed_by(range, dictionary) {
        Some((values, width)) => push_indexed(texts, range, values, width),
        None => push_found(texts, range, dictionary),
    }
}

/// Appends the bytes of each slot of an array with a dictionary.
fn push_slots<'a>(
    texts: &mut Vec<Option<&'a [u8]>>,
    range: &SlotRange<'a>,
) -> Result<(), AllocError>
    requires { IsEncoded range.now }
    ensures { OnOk result
        (bytes_cells texts.new.items ≡ bytes_cells texts.old.items ++ map as_bytes (range_cells range.now)) }
{
    let dictionary = range.parts.own.dictionary.as_ref().unwrap();
    push_encoded(texts, range, dictionary)
}

fn push_nulls(texts: &mut Vec<Option<&[u8]>>, count: usize) -> Result<(), AllocError>
    ensures { OnOk result
        (bytes_cells texts.new.items ≡ bytes_cells texts.old.items ++ map as_bytes (replicate count null)) }
{
    for _ in 0..count {
        texts.push(None)?;
    }
    Ok(())
}

/// Appends the bytes of each cell of a segment.
fn push_segment<'a>(
    texts: &mut Vec<Option<&'a [u8]>>,
    segment: &Segment<'a>,
) -> Result<(), AllocError>
    requires { OfSlots IsEncoded segment.now }
    ensures { OnOk result
        (bytes_cells texts.new.items ≡ bytes_cells texts.old.items ++ map as_bytes (segment_cells segment.now)) }
{
    match segment {
        Segment::Slots(range) => push_slots(texts, range),
        Segment::Nulls(count) => push_nulls(texts, *count),
    }
}

/// The bytes of these cells, `len` of them, texts or bytes whose arrays have dictionaries; `None` for a null.
pub(crate) fn encoded_texts<'a>(
    alloc: Global,
    segments: &[Segment<'a>],
    len: usize,
) -> Result<Vec<Option<&'a [u8]>>, AllocError>
    requires { All (OfSlots IsEncoded) segments.now }
    ensures { IfOk result (λ texts. bytes_cells texts.items ≡ map as_bytes (segments_cells segments.now)) }
{
    let mut texts = Vec::with_capacity(alloc, len)?;
    for segment in segments {
        push_segment(&mut texts, segment)?;
    }
    Ok(texts)
}
