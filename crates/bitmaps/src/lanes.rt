//! Bits that are read and joined 256 at a time, as vectors of 32 bytes, and eight at a time, as bytes.

ghost use Rattle.std.specs.Prelude.{
  ◌≡◌,
  ℕ,
  ◌+◌,
  ◌<◌,
  ◌≤◌,
  ◌&&◌,
  ◌||◌,
  [],
  ◌∷◌,
  if◌then◌else◌,
  not,
  length,
  slice_index,
};
ghost use Rattle.bitmaps.specs.Bits.{HasBits, bit_at, bits_at, ones};
ghost use Rattle.bitmaps.specs.Blocks.{AreBits, joined_byte};

use std::simd::prelude::*;

/// The byte that begins at bit `place` of `low` and ends in `high`.
#[inline(always)]
#[tactic(auto, unfolding(crate::specs::Blocks::joined_byte))]
fn join(low: u8, high: u8, place: u8) -> u8
    requires some { 0 < place }
    requires inside { place < 8 }
    ensures { result ≡ joined_byte place low high }
{
    (low >> place) | (high << (8 - place))
}

/// The byte that each lane of `low` is joined to with that of `high`.
#[inline(always)]
fn join_lanes(low: u8x32, high: u8x32, place: u8) -> u8x32
    requires some { 0 < place }
    requires inside { place < 8 }
    ensures long { length result ≡ 32 }
    ensures each { (k : ℕ) → k < 32
        → slice_index result k ≡ joined_byte place (slice_index low k) (slice_index high k) }
{
    (low >> place) | (high << (8 - place))
}

/// The 32 bytes from byte `at` on.
#[inline(always)]
fn load_bytes(bytes: &[u8], at: usize) -> u8x32
    requires { at + 32 ≤ length bytes.now }
    ensures long { length result ≡ 32 }
    ensures each { (k : ℕ) → k < 32 → slice_index result k ≡ slice_index bytes.now (at + k) }
{
    u8x32::from_slice(&bytes[at..])
}

/// The eight bits from bit `from` on, wherever that lies in its byte.
#[inline(always)]
#[tactic(auto, using(crate::proofs::BlockLemmas::byte_laws))]
pub(crate) fn load_byte(bytes: &[u8], from: usize) -> u8
    requires { HasBits bytes.now (from + 8) }
    ensures { AreBits 8 (result ∷ []) (λ k. bit_at bytes.now (from + k)) }
{
    let place = (from % 8) as u8;
    let low = bytes[from / 8];
    if place == 0 {
        low
    } else {
        join(low, bytes[from / 8 + 1], place)
    }
}

/// The 256 bits from bit `from` on, wherever that lies in its byte.
#[inline(always)]
pub(crate) fn load(bytes: &[u8], from: usize) -> u8x32
    requires { HasBits bytes.now (from + 256) }
    ensures { AreBits 256 result (λ k. bit_at bytes.now (from + k)) }
{
    let place = (from % 8) as u8;
    let low = load_bytes(bytes, from / 8);
    if place == 0 {
        low
    } else {
        join_lanes(low, load_bytes(bytes, from / 8 + 1), place)
    }
}

#[inline(always)]
pub(crate) fn and_lanes(a: u8x32, b: u8x32) -> u8x32
    ensures { AreBits 256 result (λ k. bit_at a k && bit_at b k) }
{
    a & b
}

#[inline(always)]
pub(crate) fn or_lanes(a: u8x32, b: u8x32) -> u8x32
    ensures { AreBits 256 result (λ k. bit_at a k || bit_at b k) }
{
    a | b
}

#[inline(always)]
pub(crate) fn not_lanes(a: u8x32) -> u8x32
    ensures { AreBits 256 result (λ k. not (bit_at a k)) }
{
    !a
}

/// How many of the 256 bits are 1.
#[inline(always)]
pub(crate) fn count_lanes(lanes: u8x32) -> usize
    ensures value { result ≡ ones (bits_at lanes 0 256) }
    ensures bound { result ≤ 256 }
{
    u64x4::from_le_bytes(lanes).count_ones().reduce_sum() as usize
}

#[inline(always)]
pub(crate) fn and_byte(a: u8, b: u8) -> u8
    ensures { AreBits 8 (result ∷ []) (λ k. bit_at (a ∷ []) k && bit_at (b ∷ []) k) }
{
    a & b
}

#[inline(always)]
pub(crate) fn or_byte(a: u8, b: u8) -> u8
    ensures { AreBits 8 (result ∷ []) (λ k. bit_at (a ∷ []) k || bit_at (b ∷ []) k) }
{
    a | b
}

#[inline(always)]
pub(crate) fn not_byte(a: u8) -> u8
    ensures { AreBits 8 (result ∷ []) (λ k. not (bit_at (a ∷ []) k)) }
{
    !a
}

#[inline(always)]
pub(crate) fn select_lanes(mask: u8x32, yes: u8x32, no: u8x32) -> u8x32
    ensures { AreBits 256 result (λ k. if bit_at mask k then bit_at yes k else bit_at no k) }
{
    or_lanes(and_lanes(mask, yes), and_lanes(not_lanes(mask), no))
}

#[inline(always)]
pub(crate) fn select_byte(mask: u8, yes: u8, no: u8) -> u8
    ensures { AreBits 8 (result ∷ []) (λ k. if bit_at (mask ∷ []) k then bit_at (yes ∷ []) k else bit_at (no ∷ []) k) }
{
    or_byte(and_byte(mask, yes), and_byte(not_byte(mask), no))
}
