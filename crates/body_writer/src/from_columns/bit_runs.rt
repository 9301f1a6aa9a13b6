//! Copies bits of slots: their validity, and the values of bools.

ghost use Rattle.std.specs.Prelude.{◌≡◌, ◌+◌, ◌-◌, ◌<◌, ◌≤◌, ◌++◌, ◌^◌, OnOk, None, true, length, map, replicate};
ghost use Rattle.bitmaps.specs.Bits.{HasBits, bits_at};
ghost use Rattle.values.specs.declared.layout.Layout.TheVariants.{Bool as Booleans};
ghost use Rattle.body_writer.specs.Slots.{is_valid, null_count, truth_in};
ghost use Rattle.body_writer.specs.Segments.{IsChecked, range_cells};

use crate::from_columns::segment::SlotRange;
use array_layout::buffer;
use bitmaps::{Bitmap, Bits};
use std::alloc::{AllocError, Global};

/// The bits of the range's slots in these bytes.
#[tactic(auto, using(bitmaps::proofs::Runs::runs))]
fn bits_of<'a>(bytes: &'a [u8], range: &SlotRange) -> Bits<'a>
    requires order { range.now.from ≤ range.now.to }
    requires room { HasBits bytes.now range.now.to }
    ensures bits { result ≡ bits_at bytes.now range.now.from (range.now.to - range.now.from) }
    ensures size { length result ≡ range.now.to - range.now.from }
{
    Bits::new(bytes, range.from, range.to - range.from)
}

/// How many slots of the range are null.
#[tactic(auto, using(crate::proofs::RangeBits::range_bits))]
pub(crate) fn nulls_in(range: &SlotRange) -> usize
    requires checked { IsChecked range.now }
    requires plain { range.now.parts.own.now.dictionary ≡ None }
    ensures value { result ≡ null_count (range_cells range.now) }
    ensures bound { result ≤ length (range_cells range.now) }
{
    let bits = buffer(range.parts.body, &range.parts.own.validity);
    if bits.is_empty() {
        return 0;
    }
    range.to - range.from - bits_of(bits, range).count_ones()
}

/// Appends this number of ones.
fn push_ones(bits: &mut Bitmap, count: usize) -> Result<(), AllocError>
    requires { length bits.old + count < 2 ^ 64 }
    ensures { OnOk result (bits.new ≡ bits.old ++ replicate count true) }
{
    for _ in 0..count {
        bits.push(true)?;
    }
    Ok(())
}

/// Appends the validity of the range: a bit a slot, 1 where it is valid.
#[tactic(auto, using(crate::proofs::RangeBits::range_bits))]
pub(crate) fn push_validity(valid: &mut Bitmap, range: &SlotRange) -> Result<(), AllocError>
    requires checked { IsChecked range.now }
    requires plain { range.now.parts.own.now.dictionary ≡ None }
    requires room { length valid.old + length (range_cells range.now) < 2 ^ 32 }
    ensures { OnOk result (valid.new ≡ valid.old ++ map is_valid (range_cells range.now)) }
{
    let bits = buffer(range.parts.body, &range.parts.own.validity);
    if bits.is_empty() {
        return push_ones(valid, range.to - range.from);
    }
    valid.extend_from_bits(&bits_of(bits, range))
}

/// Appends the bools of the range: a bit a slot, 0 for a null.
#[tactic(auto, using(crate::proofs::RangeBits::range_bits))]
pub(crate) fn push_truths(
    alloc: Global,
    truths: &mut Bitmap,
    range: &SlotRange,
) -> Result<(), AllocError>
    requires checked { IsChecked range.now }
    requires plain { range.now.parts.own.now.dictionary ≡ None }
    requires layout { range.now.parts.own.now.layout ≡ Booleans }
    requires room { length truths.old + length (range_cells range.now) < 2 ^ 32 }
    ensures { OnOk result (truths.new ≡ truths.old ++ map truth_in (range_cells range.now)) }
{
    let bits = buffer(range.parts.body, &range.parts.own.validity);
    let values = bits_of(buffer(range.parts.body, &range.parts.own.values), range);
    if bits.is_empty() {
        return truths.extend_from_bits(&values);
    }
    let both = bits_of(bits, range).and(alloc, &values)?;
    truths.extend_from_bits(&both.bits())
}
