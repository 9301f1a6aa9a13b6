//! Writes an array's own node and buffers, without those of its children, from the segments in which its cells lie.

ghost use Rattle.std.specs.Prelude.{◌≡◌, ◌<◌, ◌≤◌, ◌++◌, All, IfOk, OnOk, [], ◌∷◌, length};
ghost use Rattle.std.specs.List.{flat_map};
ghost use Rattle.bitmaps.specs.Packed.{bytes_of};
ghost use Rattle.values.specs.declared.layout.Layout.TheVariants.{Bool as Booleans};
ghost use Rattle.values.specs.Layouts.{offset_bound};
ghost use Rattle.body_writer.specs.Slots.{null_count, total_length};
ghost use Rattle.body_writer.specs.Columns.{
  validity as validity_of,
  truths as truths_of,
  joined as joined_of,
  offsets as offsets_of,
  value_buffers,
  own_node,
  own_buffers,
};
ghost use Rattle.body_writer.specs.Grows.{Appends, Grows};
ghost use Rattle.body_writer.specs.Runs.{slot_bytes};
ghost use Rattle.body_writer.specs.Segments.{HasLayout, HasRuns, HasStarts, IsChecked, IsPlain, OfSlots, segments_cells};

use crate::body::Body;
use crate::bytes::push_offset;
use crate::from_columns::segment::Segment;
use crate::from_columns::segments::{
    cells_in, push_segment_bytes, push_segment_slots, push_segment_starts, push_segment_truths,
    push_segment_validity, segment_nulls,
};
use crate::from_columns::slot_runs::slot_width;
use array_layout::FieldNode;
use bitmaps::Bitmap;
use std::alloc::{AllocError, Global};
use values::{Layout, OffsetWidth};

/// How many cells there are.
pub(crate) fn count_cells(segments: &[Segment]) -> usize
    requires checked { All (OfSlots IsChecked) segments.now }
    requires few { length (segments_cells segments.now) < offset_bound }
    ensures { result ≡ length (segments_cells segments.now) }
{
    let mut count = 0;
    for segment in segments {
        count += cells_in(segment);
    }
    count
}

/// How many cells are null.
fn count_nulls(segments: &[Segment]) -> usize
    requires plain { All (OfSlots IsPlain) segments.now }
    requires few { length (segments_cells segments.now) < offset_bound }
    ensures value { result ≡ null_count (segments_cells segments.now) }
    ensures bound { result < offset_bound }
{
    let mut nulls = 0;
    for segment in segments {
        nulls += segment_nulls(segment);
    }
    nulls
}

/// The validity buffer: a bit a cell, or no bits where no cell is null.
fn validity(alloc: Global, segments: &[Segment], nulls: usize) -> Result<Bitmap, AllocError>
    requires plain { All (OfSlots IsPlain) segments.now }
    requires few { length (segments_cells segments.now) < offset_bound }
    requires nulls { nulls ≡ null_count (segments_cells segments.now) }
    ensures { IfOk result (λ bits. bytes_of bits ≡ validity_of (segments_cells segments.now)) }
{
    let mut bits = Bitmap::new(alloc);
    if nulls == 0 {
        return Ok(bits);
    }
    for segment in segments {
        push_segment_validity(&mut bits, segment)?;
    }
    Ok(bits)
}

fn truths(alloc: Global, segments: &[Segment]) -> Result<Bitmap, AllocError>
    requires layout { All (OfSlots (HasLayout Booleans)) segments.now }
    requires few { length (segments_cells segments.now) < offset_bound }
    ensures { IfOk result (λ bits. bytes_of bits ≡ truths_of (segments_cells segments.now)) }
{
    let mut bits = Bitmap::new(alloc);
    for segment in segments {
        push_segment_truths(alloc, &mut bits, segment)?;
    }
    Ok(bits)
}

/// Appends the bytes of cells of a fixed width.
fn push_slots(out: &mut Vec<u8>, layout: Layout, segments: &[Segment]) -> Result<(), AllocError>
    requires { All (OfSlots (HasLayout layout)) segments.now }
    ensures { OnOk result (out.new.items ≡ out.old.items
        ++ flat_map (slot_bytes layout) (segments_cells segments.now)) }
{
    for segment in segments {
        push_segment_slots(out, layout, segment)?;
    }
    Ok(())
}

/// Appends the bytes of all cells, one after the other.
fn push_joined(out: &mut Vec<u8>, segments: &[Segment]) -> Result<(), AllocError>
    requires { All (OfSlots HasRuns) segments.now }
    ensures { OnOk result (out.new.items ≡ out.old.items ++ joined_of (segments_cells segments.now)) }
{
    for segment in segments {
        push_segment_bytes(out, segment)?;
    }
    Ok(())
}

/// Appends the offsets of these cells: where the bytes or the items of each one start, and where the last ones end.
fn push_offsets(
    out: &mut Vec<u8>,
    segments: &[Segment],
    width: OffsetWidth,
) -> Result<(), AllocError>
    requires layout { All (OfSlots HasStarts) segments.now }
    requires short { total_length (segments_cells segments.now) < offset_bound }
    ensures { OnOk result (out.new.items ≡ out.old.items ++ offsets_of width (segments_cells segments.now)) }
{
    let mut end = 0;
    for segment in segments {
        end = push_segment_starts(out, segment, width, end)?;
    }
    push_offset(out, width, end)?;
    Ok(())
}

/// Appends the buffer of `len` cells of a fixed width.
fn append_slots(
    layout: Layout,
    segments: &[Segment],
    len: usize,
    body: &mut Body,
) -> Result<(), AllocError>
    requires { All (OfSlots (HasLayout layout)) segments.now }
    ensures { OnOk result
        (Appends body.old body.new (flat_map (slot_bytes layout) (segments_cells segments.now) ∷ [])) }
{
    let from = body.bytes.len();
    body.bytes.reserve(slot_width(layout).saturating_mul(len))?;
    push_slots(&mut body.bytes, layout, segments)?;
    body.end_buffer(from)
}

/// Appends the buffer of the offsets of `len` cells.
fn append_offsets(
    width: OffsetWidth,
    segments: &[Segment],
    len: usize,
    body: &mut Body,
) -> Result<(), AllocError>
    requires layout { All (OfSlots HasStarts) segments.now }
    requires short { total_length (segments_cells segments.now) < offset_bound }
    ensures { OnOk result (Appends body.old body.new (offsets_of width (segments_cells segments.now) ∷ [])) }
{
    let from = body.bytes.len();
    body.bytes
        .reserve(width.bytes().saturating_mul(len.saturating_add(1)))?;
    push_offsets(&mut body.bytes, segments, width)?;
    body.end_buffer(from)
}

/// Appends the buffer of the bytes of all cells.
fn append_joined(segments: &[Segment], body: &mut Body) -> Result<(), AllocError>
    requires { All (OfSlots HasRuns) segments.now }
    ensures { OnOk result (Appends body.old body.new (joined_of (segments_cells segments.now) ∷ [])) }
{
    let from = body.bytes.len();
    push_joined(&mut body.bytes, segments)?;
    body.end_buffer(from)
}

/// Appends the offsets and the bytes of texts or of bytes.
fn append_runs(
    width: OffsetWidth,
    segments: &[Segment],
    len: usize,
    body: &mut Body,
) -> Result<(), AllocError>
    requires runs { All (OfSlots HasRuns) segments.now }
    requires starts { All (OfSlots HasStarts) segments.now }
    requires short { total_length (segments_cells segments.now) < offset_bound }
    ensures { OnOk result
        (Appends body.old body.new
        (offsets_of width (segments_cells segments.now) ∷ joined_of (segments_cells segments.now) ∷ [])) }
{
    append_offsets(width, segments, len, body)?;
    append_joined(segments, body)
}

/// Appends the offsets and values of these cells, by layout.
#[tactic(auto, unfolding(crate::specs::Columns::numbers, crate::specs::Columns::fixed))]
fn append_values(
    alloc: Global,
    layout: Layout,
    segments: &[Segment],
    len: usize,
    body: &mut Body,
) -> Result<(), AllocError>
    requires layout { All (OfSlots (HasLayout layout)) segments.now }
    requires few { length (segments_cells segments.now) < offset_bound }
    requires short { total_length (segments_cells segments.now) < offset_bound }
    ensures { OnOk result (Appends body.old body.new (value_buffers layout (segments_cells segments.now))) }
{
    match layout {
        Layout::Bool => body.append(truths(alloc, segments)?.as_bytes()),
        Layout::Int { .. } => append_slots(layout, segments, len, body),
        Layout::Decimal { .. } => append_slots(layout, segments, len, body),
        Layout::FixedSizeBinary { .. } => append_slots(layout, segments, len, body),
        Layout::Utf8 { offsets } => append_runs(offsets, segments, len, body),
        Layout::Binary { offsets } => append_runs(offsets, segments, len, body),
        Layout::List { offsets } => append_offsets(offsets, segments, len, body),
        Layout::Struct => Ok(()),
    }
}

/// Appends the node and the buffers of these cells, without those of any children.
pub(crate) fn write_own(
    alloc: Global,
    layout: Layout,
    segments: &[Segment],
    body: &mut Body,
) -> Result<(), AllocError>
    requires layout { All (OfSlots (HasLayout layout)) segments.now }
    requires few { length (segments_cells segments.now) < offset_bound }
    requires short { total_length (segments_cells segments.now) < offset_bound }
    ensures { OnOk result
        (Grows body.old body.new (own_node (segments_cells segments.now) ∷ [])
        (own_buffers layout (segments_cells segments.now))) }
{
    let len = count_cells(segments);
    let nulls = count_nulls(segments);
    body.nodes.push(FieldNode {
        length: len,
        nulls: nulls as i64,
    })?;
    body.append(validity(alloc, segments, nulls)?.as_bytes())?;
    append_values(alloc, layout, segments, len, body)
}
