//! Appends the cells of one segment to the buffers of its column.

ghost use Rattle.std.specs.Prelude.{◌≡◌, ℕ, ◌+◌, ◌<◌, ◌≤◌, ◌++◌, ◌^◌, List, IfOk, OnOk, false, length, map, replicate};
ghost use Rattle.std.specs.List.{flat_map};
ghost use Rattle.values.specs.Datum.{null};
ghost use Rattle.values.specs.declared.layout.Layout.TheVariants.{Bool as Booleans};
ghost use Rattle.values.specs.Layouts.{offset_bound};
ghost use Rattle.body_writer.specs.Columns.{joined, offsets_from};
ghost use Rattle.body_writer.specs.Slots.{is_valid, length_in, null_count, total_length, truth_in};
ghost use Rattle.body_writer.specs.Runs.{slot_bytes};
ghost use Rattle.body_writer.specs.Segments.{HasLayout, HasRuns, HasStarts, IsChecked, IsPlain, OfSlots, segment_cells};

use crate::bytes::{push_offset, push_zeros};
use crate::from_columns::bit_runs::{nulls_in, push_truths, push_validity};
use crate::from_columns::byte_runs::{push_joined, push_starts};
use crate::from_columns::segment::Segment;
use crate::from_columns::slot_runs::{push_slots, slot_width};
use bitmaps::Bitmap;
use std::alloc::{AllocError, Global};
use values::{Layout, OffsetWidth};

/// How many cells a segment has.
#[tactic(auto, using(crate::proofs::NullLemmas::null_laws))]
pub(crate) fn cells_in(segment: &Segment) -> usize
    requires { OfSlots IsChecked segment.now }
    ensures { result ≡ length (segment_cells segment.now) }
{
    match segment {
        Segment::Slots(range) => range.to - range.from,
        Segment::Nulls(count) => *count,
    }
}

/// How many cells of a segment are null.
#[tactic(auto, using(crate::proofs::NullLemmas::null_laws))]
pub(crate) fn segment_nulls(segment: &Segment) -> usize
    requires { OfSlots IsPlain segment.now }
    ensures { result ≡ null_count (segment_cells segment.now) }
{
    match segment {
        Segment::Slots(range) => nulls_in(range),
        Segment::Nulls(count) => *count,
    }
}

fn push_clear(bits: &mut Bitmap, count: usize) -> Result<(), AllocError>
    requires { length bits.old + count < 2 ^ 32 }
    ensures { OnOk result (bits.new ≡ bits.old ++ replicate count false) }
{
    for _ in 0..count {
        bits.push(false)?;
    }
    Ok(())
}

/// Appends the validity of a segment: a bit a cell, 1 where it isn't null.
pub(crate) fn push_segment_validity(valid: &mut Bitmap, segment: &Segment) -> Result<(), AllocError>
    requires plain { OfSlots IsPlain segment.now }
    requires room { length valid.old + length (segment_cells segment.now) < 2 ^ 32 }
    ensures { OnOk result (valid.new ≡ valid.old ++ map is_valid (segment_cells segment.now)) }
{
    match segment {
        Segment::Slots(range) => push_validity(valid, range),
        Segment::Nulls(count) => push_clear(valid, *count),
    }
}

/// Appends the bools of a segment: a bit a cell, 0 for a null.
pub(crate) fn push_segment_truths(
    alloc: Global,
    truths: &mut Bitmap,
    segment: &Segment,
) -> Result<(), AllocError>
    requires layout { OfSlots (HasLayout Booleans) segment.now }
    requires room { length truths.old + length (segment_cells segment.now) < 2 ^ 32 }
    ensures { OnOk result (truths.new ≡ truths.old ++ map truth_in (segment_cells segment.now)) }
{
    match segment {
        Segment::Slots(range) => push_truths(alloc, truths, range),
        Segment::Nulls(count) => push_clear(truths, *count),
    }
}

/// Appends the zero bytes of `count` null slots of this layout.
fn push_null_slots(out: &mut Vec<u8>, layout: Layout, count: usize) -> Result<(), AllocError>
    ensures { OnOk result (out.new.items ≡ out.old.items ++ flat_map (slot_bytes layout) (replicate count null)) }
{
    let width = slot_width(layout);
    for _ in 0..count {
        push_zeros(out, width)?;
    }
    Ok(())
}

/// Appends the bytes of a segment's cells, which are of a fixed width: zeros for a null.
pub(crate) fn push_segment_slots(
    out: &mut Vec<u8>,
    layout: Layout,
    segment: &Segment,
) -> Result<(), AllocError>
    requires { OfSlots (HasLayout layout) segment.now }
    ensures { OnOk result (out.new.items ≡ out.old.items ++ flat_map (slot_bytes layout) (segment_cells segment.now)) }
{
    match segment {
        Segment::Slots(range) => push_slots(out, range),
        Segment::Nulls(count) => push_null_slots(out, layout, *count),
    }
}

/// Appends the bytes of a segment's texts or bytes.
#[tactic(auto, using(crate::proofs::NullLemmas::null_laws))]
pub(crate) fn push_segment_bytes(out: &mut Vec<u8>, segment: &Segment) -> Result<(), AllocError>
    requires { OfSlots HasRuns segment.now }
    ensures { OnOk result (out.new.items ≡ out.old.items ++ joined (segment_cells segment.now)) }
{
    match segment {
        Segment::Slots(range) => push_joined(out, range),
        Segment::Nulls(_) => Ok(()),
    }
}

/// Appends `count` equal offsets, one for each null.
fn push_same(
    out: &mut Vec<u8>,
    width: OffsetWidth,
    offset: u64,
    count: usize,
) -> Result<(), AllocError>
    requires { offset < offset_bound }
    ensures { OnOk result ((rest : List ℕ) → out.new.items ++ offsets_from width offset rest
        ≡ out.old.items ++ offsets_from width offset (replicate count 0 ++ rest)) }
{
    for _ in 0..count {
        push_offset(out, width, offset)?;
    }
    Ok(())
}

/// Appends the offsets at which a segment's texts, bytes or lists start, the first at `start`, and returns where the
/// last one ends.
pub(crate) fn push_segment_starts(
    out: &mut Vec<u8>,
    segment: &Segment,
    wanted: OffsetWidth,
    start: u64,
) -> Result<u64, AllocError>
    requires layout { OfSlots HasStarts segment.now }
    requires short { start + total_length (segment_cells segment.now) < offset_bound }
    ensures end { IfOk result (λ n. n ≡ start + total_length (segment_cells segment.now)) }
    ensures bytes { IfOk result (λ n. (rest : List ℕ) → out.new.items ++ offsets_from wanted n rest
        ≡ out.old.items ++ offsets_from wanted start (map length_in (segment_cells segment.now) ++ rest)) }
{
    match segment {
        Segment::Slots(range) => push_starts(out, range, wanted, start),
        Segment::Nulls(count) => {
            push_same(out, wanted, start, *count)?;
            Ok(start)
        }
    }
}
