//! Copies the bytes that offsets point to, and makes their new offsets.

ghost use Rattle.std.specs.Prelude.{
  ◌≡◌,
  ℕ,
  ◌+◌,
  ◌-◌,
  ◌*◌,
  ◌<◌,
  ◌≤◌,
  ◌++◌,
  List,
  OnOk,
  IfOk,
  None,
  if◌then◌else◌,
  map,
  length,
  slice_range,
};
ghost use Rattle.bitmaps.specs.Bits.{HasBits};
ghost use Rattle.byteorder.specs.Endian.{little_bytes};
ghost use Rattle.values.specs.Rose.{node, kids_of};
ghost use Rattle.values.specs.Reading.{IsValid};
ghost use Rattle.values.specs.declared.layout.Layout.TheVariants.{Utf8};
ghost use Rattle.values.specs.Layouts.{offset_bound, offset_bytes};
ghost use Rattle.array_layout.specs.Placing.{bytes_of};
ghost use Rattle.array_layout.specs.Buffers.{is_null, offset_at};
ghost use Rattle.array_layout.specs.Sound.{IsSound};
ghost use Rattle.array_layout.specs.Cells.{cell};
ghost use Rattle.body_writer.specs.Runs.{HasBytes, HasOffsets};
ghost use Rattle.body_writer.specs.Segments.{IsChecked, range_cells};
ghost use Rattle.body_writer.specs.Columns.{joined, offsets_from};
ghost use Rattle.body_writer.specs.Slots.{length_in, total_length};

use crate::bytes::push_offset;
use crate::from_columns::segment::SlotRange;
use array_layout::{buffer, is_null_at, offset, run_end};
use byteorder::{ByteOrder, LittleEndian};
use std::alloc::AllocError;
use values::OffsetWidth;

/// The bytes from offset `from` to offset `to`.
fn bytes_between<'a>(
    offsets: &[u8],
    bytes: &'a [u8],
    width: OffsetWidth,
    from: usize,
    to: usize,
) -> &'a [u8]
    requires start { offset_bytes width * (from + 1) ≤ length offsets.now }
    requires room { offset_bytes width * (to + 1) ≤ length offsets.now }
    requires order { offset_at width offsets.now from ≤ offset_at width offsets.now to }
    requires within { offset_at width offsets.now to ≤ length bytes.now }
    ensures { result.now ≡ slice_range bytes.now (offset_at width offsets.now from) (offset_at width offsets.now to) }
{
    &bytes[offset(offsets, width, from)..offset(offsets, width, to)]
}

/// Appends the bytes of the range's slots, those of a run of valid slots at once.
pub(crate) fn push_joined(out: &mut Vec<u8>, range: &SlotRange) -> Result<(), AllocError>
    requires checked { IsChecked range.now }
    requires plain { range.now.parts.own.now.dictionary ≡ None }
    requires layout { HasBytes range.now.parts.own.now.layout range.now.offsets }
    ensures { OnOk result (out.new.items ≡ out.old.items
        ++ joined (range_cells range.now)) }
{
    let bits = buffer(range.parts.body, &range.parts.own.validity);
    let values = buffer(range.parts.body, &range.parts.own.values);
    let offsets = buffer(range.parts.body, &range.parts.own.offsets);
    let mut at = range.from;
    while at < range.to {
        let end = run_end(bits, at, range.to);
        if !is_null_at(bits, at) {
            out.extend_from_slice(bytes_between(offsets, values, range.offsets, at, end))?;
        }
        at = end;
    }
    Ok(())
}

/// How many bytes or items slot `i` has: a null has none.
fn slot_len(bits: &[u8], offsets: &[u8], width: OffsetWidth, i: usize) -> usize
    requires bits { 0 < length bits.now → HasBits bits.now (i + 1) }
    requires room { offset_bytes width * (i + 2) ≤ length offsets.now }
    requires rising { offset_at width offsets.now i ≤ offset_at width offsets.now (i + 1) }
    ensures { result
        ≡ (if is_null bits.now i then 0 else offset_at width offsets.now (i + 1) - offset_at width offsets.now i) }
{
    if is_null_at(bits, i) {
        0
    } else {
        offset(offsets, width, i + 1) - offset(offsets, width, i)
    }
}

/// Appends the offsets at which the bytes or items of the range's slots start, the first at `start`, and returns where
/// the last ones end.
pub(crate) fn push_starts(
    out: &mut Vec<u8>,
    range: &SlotRange,
    wanted: OffsetWidth,
    start: u64,
) -> Result<u64, AllocError>
    requires checked { IsChecked range.now }
    requires plain { range.now.parts.own.now.dictionary ≡ None }
    requires layout { HasOffsets range.now.parts.own.now.layout range.now.offsets }
    requires short { start + total_length (range_cells range.now) < offset_bound }
    ensures end { IfOk result (λ n. n ≡ start + total_length (range_cells range.now)) }
    ensures bytes { IfOk result (λ n. (rest : List ℕ) → out.new.items ++ offsets_from wanted n rest
        ≡ out.old.items ++ offsets_from wanted start (map length_in (range_cells range.now) ++ rest)) }
{
    let bits = buffer(range.parts.body, &range.parts.own.validity);
    let offsets = buffer(range.parts.body, &range.parts.own.offsets);
    let mut end = start;
    for i in range.from..range.to {
        push_offset(out, wanted, end)?;
        end += slot_len(bits, offsets, range.offsets, i) as u64;
    }
    Ok(end)
}
