//! Checks of an array's buffers: 22 BufferShort, 23 NullCount, 24 Offsets.

ghost use Rattle.std.specs.Prelude.{◌≡◌, ◌+◌, ◌*◌, ◌<◌, ◌≤◌, ◌^◌, length, OnOk};
ghost use Rattle.values.specs.Limits.{max_node_length};
ghost use Rattle.values.specs.Reading.{Passes};
ghost use Rattle.values.specs.Rose.{kids_of};
ghost use Rattle.values.specs.Layouts.{offset_bytes};
ghost use Rattle.bitmaps.specs.Bits.{HasBits};
ghost use Rattle.array_layout.specs.Buffers.{zeros, is_rising};
ghost use Rattle.array_layout.specs.Sound.{
  validity_of,
  bits_of,
  slots_of,
  offsets_of,
  values_by,
  own_faults,
  faults_in,
  first_len,
  LiesIn,
  IsPlaced,
  IsSound,
  AreFit,
  HasRoom,
};

use crate::array::{Array, ArrayData};
use crate::buffers::{buffer, offset};
use bitmaps::Bits;
use values::{Layout, OffsetWidth, StreamFault};

/// How many of the first `len` bits are 0.
#[tactic(auto, using(crate::proofs::Bits::bit_counts), unfolding(crate::specs::Buffers::zeros))]
fn count_zeros(bits: &[u8], len: usize) -> usize
    requires { HasBits bits.now len }
    ensures { result ≡ zeros bits.now len }
{
    len - Bits::new(bits, 0, len).count_ones()
}

#[tactic(auto, unfolding(crate::specs::Sound::validity_of))]
fn check_validity(bits: &[u8], len: usize, nulls: i64) -> Result<(), StreamFault>
    ensures passes { Passes result (validity_of bits.now len nulls) }
    ensures room { OnOk result (0 < length bits.now → len ≤ 8 * length bits.now) }
{
    if bits.is_empty() {
        if nulls == 0 {
            Ok(())
        } else {
            Err(StreamFault::NullCount)
        }
    } else if len.div_ceil(8) > bits.len() {
        Err(StreamFault::BufferShort)
    } else if i128::from(nulls) == count_zeros(bits, len) as i128 {
        Ok(())
    } else {
        Err(StreamFault::NullCount)
    }
}

#[tactic(auto, unfolding(crate::specs::Sound::bits_of))]
fn check_bits(bits: &[u8], len: usize) -> Result<(), StreamFault>
    ensures passes { Passes result (bits_of bits.now len) }
    ensures room { OnOk result (len ≤ 8 * length bits.now) }
{
    if len.div_ceil(8) > bits.len() {
        Err(StreamFault::BufferShort)
    } else {
        Ok(())
    }
}

#[tactic(auto, unfolding(crate::specs::Sound::slots_of))]
fn check_slots(bytes: &[u8], width: usize, len: usize) -> Result<(), StreamFault>
    requires narrow { width < 2 ^ 32 }
    requires small { len ≤ max_node_length }
    ensures passes { Passes result (slots_of width bytes.now len) }
    ensures room { OnOk result (width * len ≤ length bytes.now) }
{
    if bytes.len() < width * len {
        Err(StreamFault::BufferShort)
    } else {
        Ok(())
    }
}

/// Whether none of the offsets is below the one before it.
#[tactic(auto, using(crate::proofs::OffsetLemmas::rising_steps), unfolding(crate::specs::Buffers::is_rising))]
fn rises(offsets: &[u8], width: OffsetWidth, len: usize) -> bool
    requires room { offset_bytes width * (len + 1) ≤ length offsets.now }
    requires small { len ≤ max_node_length }
    ensures { result ≡ is_rising width offsets.now len }
{
    let mut before = offset(offsets, width, 0);
    for i in 0..len {
        let next = offset(offsets, width, i + 1);
        if next < before {
            return false;
        }
        before = next;
    }
    true
}

#[tactic(auto, using(crate::proofs::OffsetLemmas::rising_steps), unfolding(crate::specs::Sound::offsets_of))]
fn check_offsets(
    offsets: &[u8],
    width: OffsetWidth,
    len: usize,
    limit: usize,
) -> Result<(), StreamFault>
    requires small { len ≤ max_node_length }
    ensures passes { Passes result (offsets_of width offsets.now len limit) }
    ensures fit { OnOk result (0 < len → AreFit width offsets.now len limit) }
{
    if len == 0 {
        return Ok(());
    }
    let bytes = width.bytes();
    if offsets.len() < bytes * (len + 1) {
        return Err(StreamFault::BufferShort);
    }
    let last = offset(offsets, width, len);
    if rises(offsets, width, len) && last < 1 << (8 * bytes - 1) && last <= limit {
        Ok(())
    } else {
        Err(StreamFault::Offsets)
    }
}

/// How many slots the first child has: those that a list's offsets point into.
fn first_len(children: &[Array]) -> usize
    ensures { result ≡ first_len (kids_of children.now) }
{
    match children.first() {
        Some(child) => child.own.len,
        None => 0,
    }
}

/// Checks the buffers of one array but validity.
fn check_values(body: &[u8], own: &ArrayData, slots: usize) -> Result<(), StreamFault>
    requires offsets { LiesIn body.now own.now.offsets }
    requires values { LiesIn body.now own.now.values }
    requires small { own.now.len ≤ max_node_length }
    ensures passes { Passes result (values_by own.now.layout body.now own.now slots) }
    ensures room { OnOk result (HasRoom own.now.layout body.now own.now slots) }
{
    let values = buffer(body, &own.values);
    let offsets = buffer(body, &own.offsets);
    match own.layout {
        Layout::Bool => check_bits(values, own.len),
        Layout::Int { width, .. } => check_slots(values, width.bytes(), own.len),
        Layout::Decimal { .. } => check_slots(values, 16, own.len),
        Layout::FixedSizeBinary { width } => check_slots(values, width as usize, own.len),
        Layout::Utf8 { offsets: width } | Layout::Binary { offsets: width } => check_offsets(
            offsets,
            width,
            own.len,
            values.len(),
        ),
        Layout::List { offsets: width } => check_offsets(offsets, width, own.len, slots),
        Layout::Struct => Ok(()),
    }
}

/// Checks the buffers of one array.
#[tactic(auto, using(values::proofs::Readings::failing, values::proofs::Readings::both_valid), unfolding(crate::specs::Sound::own_faults))]
fn check_data(body: &[u8], own: &ArrayData, slots: usize) -> Result<(), StreamFault>
    requires validity { LiesIn body.now own.now.validity }
    requires offsets { LiesIn body.now own.now.offsets }
    requires values { LiesIn body.now own.now.values }
    requires small { own.now.len ≤ max_node_length }
    ensures passes { Passes result (own_faults body.now own.now slots) }
    ensures bits { OnOk result (0 < own.now.validity.len → own.now.len ≤ 8 * own.now.validity.len) }
    ensures room { OnOk result (HasRoom own.now.layout body.now own.now slots) }
{
    check_validity(buffer(body, &own.validity), own.len, own.nulls)?;
    check_values(body, own, slots)
}

/// Checks the buffers of an array and of all arrays below it: 22, 23 and 24.
#[tactic(auto, using(crate::proofs::SoundLemmas::sounding, values::proofs::Roses::kid_smaller, values::proofs::Readings::both_left))]
pub fn check_layout(body: &[u8], array: &Array) -> Result<(), StreamFault>
    requires { IsPlaced body.now array.now }
    ensures passes { Passes result (faults_in body.now array.now) }
    ensures sound { OnOk result (IsSound body.now array.now) }
{
    let children: &[Array] = &array.children;
    check_data(body, &array.own, first_len(children))?;
    for child in children {
        check_layout(body, child)?;
    }
    Ok(())
}
