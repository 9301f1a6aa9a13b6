//! Copies slots of a fixed width in bytes.

ghost use Rattle.std.specs.Prelude.{◌≡◌, ◌+◌, ◌*◌, ◌≤◌, ◌++◌, OnOk, None, drop, replicate, length, slice_range, take};
ghost use Rattle.std.specs.List.{flat_map};
ghost use Rattle.body_writer.specs.Runs.{slot_width, slot_bytes};
ghost use Rattle.body_writer.specs.Segments.{IsChecked, range_cells};

use crate::from_columns::segment::SlotRange;
use array_layout::{buffer, is_null_at, run_end};
use std::alloc::AllocError;
use values::Layout;

/// The width of a slot in bytes, or 0 where slots have no such width.
pub(crate) fn slot_width(layout: Layout) -> usize
    ensures { result ≡ slot_width layout }
{
    match layout {
        Layout::Int { width, .. } => width.bytes(),
        Layout::Decimal { .. } => 16,
        Layout::FixedSizeBinary { width } => width as usize,
        Layout::Bool
        | Layout::Utf8 { .. }
        | Layout::Binary { .. }
        | Layout::List { .. }
        | Layout::Struct => 0,
    }
}

/// The bytes of the slots from `from` to `to`, `width` bytes each.
fn slot_range(bytes: &[u8], width: usize, from: usize, to: usize) -> &[u8]
    requires order { from ≤ to }
    requires room { width * to ≤ length bytes.now }
    ensures { result.now ≡ slice_range bytes.now (width * from) (width * to) }
{
    &bytes[width * from..width * to]
}

/// Overwrites the `len` bytes from `from` on with zeros.
fn clear(bytes: &mut Vec<u8>, from: usize, len: usize)
    requires { from + len ≤ length bytes.old.items }
    ensures { bytes.new.items ≡ take from bytes.old.items ++ (replicate len 0 ++ drop (from + len) bytes.old.items) }
{
    bytes[from..from + len].fill(0);
}

/// Appends the bytes of the range's slots: all are copied at once, and then each run of nulls is overwritten with
/// zeros.
pub(crate) fn push_slots(out: &mut Vec<u8>, range: &SlotRange) -> Result<(), AllocError>
    requires checked { IsChecked range.now }
    requires plain { range.now.parts.own.now.dictionary ≡ None }
    ensures { OnOk result (out.new.items ≡ out.old.items
        ++ flat_map (slot_bytes range.now.parts.own.now.layout) (range_cells range.now)) }
{
    let bits = buffer(range.parts.body, &range.parts.own.validity);
    let values = buffer(range.parts.body, &range.parts.own.values);
    let width = slot_width(range.parts.own.layout);
    let mut place = out.len();
    out.extend_from_slice(slot_range(values, width, range.from, range.to))?;
    let mut at = range.from;
    while at < range.to {
        let end = run_end(bits, at, range.to);
        let len = width * (end - at);
        if is_null_at(bits, at) {
            clear(out, place, len);
        }
        place += len;
        at = end;
    }
    Ok(())
}
