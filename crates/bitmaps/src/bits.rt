//! Borrowed views of bitmaps.

ghost use Rattle.std.specs.Prelude.{
  ◌≡◌,
  ℕ,
  ◌+◌,
  ◌<◌,
  ◌≤◌,
  ◌^◌,
  [],
  ◌∷◌,
  if◌then◌else◌,
  length,
  false,
  get_or,
  nat_eq,
  slice_get,
};
ghost use Rattle.bitmaps.specs.Bits.{HasBits, bit_at, bits_at, ones};
ghost use Rattle.bitmaps.specs.Blocks.{AreBits};

use crate::lanes::{count_lanes, load, load_byte};
use std::marker::Model;
use std::simd::prelude::*;

/// Consecutive bits in some bytes. They may begin at any bit and end at any bit.
///
/// Contracts see it as the list of its bits.
#[derive(Debug, Drop)]
pub struct Bits<'a> {
    bytes: &'a [u8],
    offset: usize,
    len: usize,
}

impl<'a> Model for Bits<'a> {
    ghost use Rattle.std.specs.Prelude.{◌+◌, ◌<◌, ◌^◌, Bool, List};
    ghost use Rattle.bitmaps.specs.Bits.{HasBits, bits_at};

    ghost Value = { List Bool };

    ghost view = { λ b. bits_at b.bytes.now b.offset b.len };

    ghost invariant = { λ b. HasBits b.bytes.now (b.offset + b.len) × (b.offset + b.len < 2 ^ 64) };
}

/// Bit `i` of the bytes.
fn bit(bytes: &[u8], i: usize) -> bool
    requires { HasBits bytes.now (i + 1) }
    ensures { result ≡ bit_at bytes.now i }
{
    (bytes[i / 8] >> (i % 8)) % 2 == 1
}

/// Bit `i` as a number.
fn bit_number(bytes: &[u8], i: usize) -> usize
    requires { HasBits bytes.now (i + 1) }
    ensures value { result ≡ if bit_at bytes.now i then 1 else 0 }
    ensures bound { result ≤ 1 }
{
    if bit(bytes, i) { 1 } else { 0 }
}

/// The bit of `yes` where the mask's is 1, else that of `no`.
pub(crate) fn pick(mask: bool, yes: bool, no: bool) -> bool
    ensures { result ≡ if mask then yes else no }
{
    if mask { yes } else { no }
}

/// How many of the first bits of a byte are equal to the given one.
#[inline(always)]
#[tactic(auto, using(crate::proofs::FirstBits::first_bits))]
fn count_first(byte: u8, bit: bool) -> usize
    ensures few { result ≤ 8 }
    ensures same { (k : ℕ) → k < result → bit_at (byte ∷ []) k ≡ bit }
{
    if bit {
        byte.trailing_ones() as usize
    } else {
        byte.trailing_zeros() as usize
    }
}

/// How many of the `len` bits from bit `offset` on are 1: eight at a time where they fill a byte.
fn count_few(bytes: &[u8], offset: usize, len: usize) -> usize
    requires within { HasBits bytes.now (offset + len) }
    requires small { offset + len < 2 ^ 64 }
    ensures { result ≡ ones (bits_at bytes.now offset len) }
{
    let mut count = 0;
    let mut i = 0;
    while i < len {
        let place = offset + i;
        if place % 8 == 0 && len - i >= 8 {
            count += bytes[place / 8].count_ones() as usize;
            i += 8;
        } else {
            count += bit_number(bytes, place);
            i += 1;
        }
    }
    count
}

/// How many of the `len` bits from bit `offset` on are 1: 256 at a time, while there are as many.
fn count_ones(bytes: &[u8], offset: usize, len: usize) -> usize
    requires within { HasBits bytes.now (offset + len) }
    requires small { offset + len < 2 ^ 64 }
    ensures { result ≡ ones (bits_at bytes.now offset len) }
{
    let mut count = 0;
    let mut i = 0;
    while len - i >= 256 {
        count += count_lanes(load(bytes, offset + i));
        i += 256;
    }
    count + count_few(bytes, offset + i, len - i)
}

#[tactic(auto, using(crate::proofs::Runs::runs))]
impl<'a> Bits<'a> {
    /// The `len` bits from bit `offset` on.
    pub fn new(bytes: &'a [u8], offset: usize, len: usize) -> Bits<'a>
        requires within { HasBits bytes.now (offset + len) }
        requires small { offset + len < 2 ^ 64 }
        ensures { result ≡ bits_at bytes.now offset len }
    {
        Bits { bytes, offset, len }
    }

    /// The number of bits.
    pub fn len(&self) -> usize
        ensures { result ≡ length self.now }
    {
        self.len
    }

    /// Whether there is no bit.
    pub fn is_empty(&self) -> bool
        ensures { result ≡ nat_eq (length self.now) 0 }
    {
        self.len == 0
    }

    /// Bit `i`, if there are more than `i`.
    pub fn get(&self, i: usize) -> Option<bool>
        ensures { result ≡ slice_get self.now i }
    {
        if i < self.len {
            Some(bit(self.bytes, self.offset + i))
        } else {
            None
        }
    }

    /// Bit `i`.
    pub(crate) fn at(&self, i: usize) -> bool
        requires { i < length self.now }
        ensures { result ≡ get_or self.now i false }
    {
        bit(self.bytes, self.offset + i)
    }

    /// The eight bits from bit `i` on.
    #[inline(always)]
    pub(crate) fn byte(&self, i: usize) -> u8
        requires { i + 8 ≤ length self.now }
        ensures { AreBits 8 (result ∷ []) (λ k. get_or self.now (i + k) false) }
    {
        load_byte(self.bytes, self.offset + i)
    }

    /// The 256 bits from bit `i` on.
    #[inline(always)]
    pub(crate) fn block(&self, i: usize) -> u8x32
        requires { i + 256 ≤ length self.now }
        ensures { AreBits 256 result (λ k. get_or self.now (i + k) false) }
    {
        load(self.bytes, self.offset + i)
    }

    /// The end of the run of bits equal to bit `from` that begins there: eight at a time where they are.
    pub fn run_end(&self, from: usize) -> usize
        requires { from < length self.now }
        ensures past { from < result }
        ensures within { result ≤ length self.now }
        ensures same { (k : ℕ) → from ≤ k → k < result → get_or self.now k false ≡ get_or self.now from false }
    {
        let first = self.at(from);
        let len = self.len();
        let mut end = from + 1;
        while end < len {
            let alike = self.count_alike(end, first);
            if alike == 0 {
                return end;
            }
            end += alike;
        }
        end
    }

    /// How many bits from bit `i` on are equal to the given one, of the next eight; or of one, where fewer than eight
    /// remain.
    #[inline(always)]
    fn count_alike(&self, i: usize, bit: bool) -> usize
        requires { i < length self.now }
        ensures within { i + result ≤ length self.now }
        ensures same { (k : ℕ) → k < result → get_or self.now (i + k) false ≡ bit }
    {
        let left = self.len() - i;
        if left >= 8 {
            count_first(self.byte(i), bit)
        } else if self.at(i) == bit {
            1
        } else {
            0
        }
    }

    /// How many bits are 1.
    pub fn count_ones(&self) -> usize
        ensures { result ≡ ones self.now }
    {
        count_ones(self.bytes, self.offset, self.len)
    }
}
