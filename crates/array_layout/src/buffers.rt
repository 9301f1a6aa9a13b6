//! Reads bits, numbers, offsets and slices from an array's buffers.

ghost use Rattle.std.specs.Prelude.{◌≡◌, ◌+◌, ◌-◌, ◌*◌, ◌<◌, ◌≤◌, ◌^◌, length, true};
ghost use Rattle.bitmaps.specs.Bits.{HasBits, bit_at};
ghost use Rattle.values.specs.Layouts.{bytes_in, offset_bytes};
ghost use Rattle.array_layout.specs.Placing.{bytes_of};
ghost use Rattle.array_layout.specs.Sound.{LiesIn};
ghost use Rattle.array_layout.specs.Buffers.{is_null, unsigned_at, number_at, fixed_at, offset_at, slice_at};

use crate::array::BufferRange;
use byteorder::{ByteOrder, LittleEndian};
use values::{IntWidth, OffsetWidth};

/// The bytes of a buffer.
pub fn buffer<'a>(body: &'a [u8], range: &BufferRange) -> &'a [u8]
    requires { LiesIn body.now range.now }
    ensures { result.now ≡ bytes_of body.now range.now }
{
    &body[range.from..range.from + range.len]
}

/// Bit `i`, the least significant of a byte first.
pub fn bit(bits: &[u8], i: usize) -> bool
    requires { HasBits bits.now (i + 1) }
    ensures { result ≡ bit_at bits.now i }
{
    (bits[i / 8] >> (i % 8)) % 2 == 1
}

/// Whether slot `i` is null by its bit of a validity buffer; where that has length 0, no slot is.
#[tactic(auto, unfolding(crate::specs::Buffers::is_null))]
pub fn is_null_at(bits: &[u8], i: usize) -> bool
    requires { 0 < length bits.now → HasBits bits.now (i + 1) }
    ensures { result ≡ is_null bits.now i }
{
    !bits.is_empty() && !bit(bits, i)
}

/// The bits of number `i` as a number without a sign.
#[tactic(auto, using(crate::proofs::FixedNumbers::numbers), unfolding(crate::specs::Buffers::fixed_at, crate::specs::Buffers::unsigned_at))]
fn unsigned_number(bytes: &[u8], width: IntWidth, i: usize) -> u64
    requires { bytes_in width * (i + 1) ≤ length bytes.now }
    ensures value { result ≡ unsigned_at (bytes_in width) bytes.now i }
{
    match width {
        IntWidth::Bits8 => u64::from(bytes[i]),
        IntWidth::Bits16 => u64::from(LittleEndian::read_u16(fixed(bytes, 2, i))),
        IntWidth::Bits32 => u64::from(LittleEndian::read_u32(fixed(bytes, 4, i))),
        IntWidth::Bits64 => LittleEndian::read_u64(fixed(bytes, 8, i)),
    }
}

/// The sign bit of a number of this width.
fn sign_bit(width: IntWidth) -> u64
    ensures { result ≡ 2 ^ (8 * bytes_in width - 1) }
{
    match width {
        IntWidth::Bits8 => 1 << 7,
        IntWidth::Bits16 => 1 << 15,
        IntWidth::Bits32 => 1 << 31,
        IntWidth::Bits64 => 1 << 63,
    }
}

/// Number `i` of this width, in two's complement if `signed`.
#[tactic(auto, using(crate::proofs::NumberLemmas::signs), unfolding(crate::specs::Buffers::number_at))]
pub fn number(bytes: &[u8], width: IntWidth, signed: bool, i: usize) -> i128
    requires { bytes_in width * (i + 1) ≤ length bytes.now }
    ensures { result ≡ number_at signed (bytes_in width) bytes.now i }
{
    let number = unsigned_number(bytes, width, i);
    let sign = sign_bit(width);
    if signed && number >= sign {
        i128::from(number) - 2 * i128::from(sign)
    } else {
        i128::from(number)
    }
}

/// Number `i` of `width` bytes, in two's complement.
#[tactic(auto, unfolding(crate::specs::Buffers::number_at, crate::specs::Buffers::unsigned_at))]
fn signed_number(bytes: &[u8], width: usize, i: usize) -> i128
    requires low { 1 ≤ width }
    requires high { width ≤ 16 }
    requires room { width * (i + 1) ≤ length bytes.now }
    ensures { result ≡ number_at true width bytes.now i }
{
    LittleEndian::read_int128(&bytes[width * i..], width)
}

/// The unscaled number of decimal `i`, of 128 bits.
pub fn decimal(bytes: &[u8], i: usize) -> i128
    requires { 16 * (i + 1) ≤ length bytes.now }
    ensures { result ≡ number_at true 16 bytes.now i }
{
    signed_number(bytes, 16, i)
}

/// The `width` bytes of slot `i`.
#[tactic(auto, unfolding(crate::specs::Buffers::fixed_at))]
pub fn fixed(bytes: &[u8], width: usize, i: usize) -> &[u8]
    requires { width * i + width ≤ length bytes.now }
    ensures value { result.now ≡ fixed_at width bytes.now i }
    ensures size { length result.now ≡ width }
{
    &bytes[width * i..width * i + width]
}

/// Offset `i`, read as a number without a sign.
#[tactic(auto, using(crate::proofs::FixedNumbers::numbers), unfolding(crate::specs::Buffers::fixed_at, crate::specs::Buffers::offset_at, crate::specs::Buffers::unsigned_at))]
pub fn offset(offsets: &[u8], width: OffsetWidth, i: usize) -> usize
    requires { offset_bytes width * (i + 1) ≤ length offsets.now }
    ensures { result ≡ offset_at width offsets.now i }
{
    match width {
        OffsetWidth::Bits32 => LittleEndian::read_u32(fixed(offsets, 4, i)) as usize,
        OffsetWidth::Bits64 => LittleEndian::read_u64(fixed(offsets, 8, i)) as usize,
    }
}

/// The bytes from offset `i` to offset `i + 1`.
#[tactic(auto, unfolding(crate::specs::Buffers::slice_at))]
pub fn slice<'a>(offsets: &[u8], bytes: &'a [u8], width: OffsetWidth, i: usize) -> &'a [u8]
    requires room { offset_bytes width * (i + 2) ≤ length offsets.now }
    requires rising { offset_at width offsets.now i ≤ offset_at width offsets.now (i + 1) }
    requires within { offset_at width offsets.now (i + 1) ≤ length bytes.now }
    ensures { result.now ≡ slice_at width offsets.now bytes.now i }
{
    &bytes[offset(offsets, width, i)..offset(offsets, width, i + 1)]
}
