//! Comparisons of whole numbers with a constant, eight at a time.

ghost use Rattle.std.specs.Prelude.{◌≡◌, ◌+◌, ◌*◌, ◌%◌, ◌<◌, ◌≤◌, [], ◌∷◌, None, length, IfOk, OnOk};
ghost use Rattle.bitmaps.specs.Bits.{HasBits};
ghost use Rattle.bitmaps.specs.Blocks.{AreBits, IsBegun};
ghost use Rattle.values.specs.Datum.{whole};
ghost use Rattle.values.specs.Layouts.{bytes_in};
ghost use Rattle.values.specs.Reading.{IsValid};
ghost use Rattle.values.specs.Rose.{node, kids_of};
ghost use Rattle.values.specs.declared.layout.Layout.TheVariants.{Int};
ghost use Rattle.array_layout.specs.Buffers.{unsigned_at};
ghost use Rattle.array_layout.specs.Cells.{cells};
ghost use Rattle.array_layout.specs.Sound.{IsSound};
ghost use Rattle.arrays.specs.Checked.{valid_of};
ghost use Rattle.column_truths.specs.Compared.{compared_with};
ghost use Rattle.column_truths.specs.Spans.{in_span, lies_in, lying_in, nulls_by, numbers_in, passing_span};

use crate::spans::{Span, numbers_in, span_of};
use array_layout::{Array, ArrayData, buffer, number};
use bitmaps::{Bitmap, Bits, Truths};
use std::alloc::{AllocError, Global};
use std::simd::prelude::*;
use values::IntWidth;
use view_lang::Comparison;

/// Which of eight numbers of 8 bits, from number `at` on, are among the `span + 1` numbers from `low` on.
#[inline(always)]
fn within_8_bits(bytes: &[u8], at: usize, low: u8, span: u8) -> u8
    requires { 1 * (at + 8) ≤ length bytes.now }
    ensures { AreBits 8 (result ∷ []) (λ k. in_span 8 low span (unsigned_at 1 bytes.now (at + k))) }
{
    let lanes = u8x8::from_slice(&bytes[at..]);
    let differences = lanes - u8x8::splat(low);
    differences.simd_le(u8x8::splat(span)).to_bitmask() as u8
}

/// The same of numbers of 16 bits.
#[inline(always)]
fn within_16_bits(bytes: &[u8], at: usize, low: u16, span: u16) -> u8
    requires { 2 * (at + 8) ≤ length bytes.now }
    ensures { AreBits 8 (result ∷ []) (λ k. in_span 16 low span (unsigned_at 2 bytes.now (at + k))) }
{
    let lanes = u16x8::from_le_bytes(u8x16::from_slice(&bytes[2 * at..]));
    let differences = lanes - u16x8::splat(low);
    differences.simd_le(u16x8::splat(span)).to_bitmask() as u8
}

/// The same of numbers of 32 bits.
#[inline(always)]
fn within_32_bits(bytes: &[u8], at: usize, low: u32, span: u32) -> u8
    requires { 4 * (at + 8) ≤ length bytes.now }
    ensures { AreBits 8 (result ∷ []) (λ k. in_span 32 low span (unsigned_at 4 bytes.now (at + k))) }
{
    let lanes = u32x8::from_le_bytes(u8x32::from_slice(&bytes[4 * at..]));
    let differences = lanes - u32x8::splat(low);
    differences.simd_le(u32x8::splat(span)).to_bitmask() as u8
}

/// The same of numbers of 64 bits.
#[inline(always)]
fn within_64_bits(bytes: &[u8], at: usize, low: u64, span: u64) -> u8
    requires { 8 * (at + 8) ≤ length bytes.now }
    ensures { AreBits 8 (result ∷ []) (λ k. in_span 64 low span (unsigned_at 8 bytes.now (at + k))) }
{
    let lanes = u64x8::from_le_bytes(u8x64::from_slice(&bytes[8 * at..]));
    let differences = lanes - u64x8::splat(low);
    differences.simd_le(u64x8::splat(span)).to_bitmask() as u8
}

/// Which of eight numbers, from number `at` on, lie in a span.
#[inline(always)]
#[tactic(auto, unfolding(crate::specs::Spans::lies_in))]
fn byte_within(bytes: &[u8], width: IntWidth, at: usize, span: Span) -> u8
    requires low { span.low < numbers_in width }
    requires span { span.span < numbers_in width }
    requires room { bytes_in width * (at + 8) ≤ length bytes.now }
    ensures { AreBits 8 (result ∷ []) (λ k. lies_in width span.low span.span bytes.now (at + k)) }
{
    match width {
        IntWidth::Bits8 => within_8_bits(bytes, at, span.low as u8, span.span as u8),
        IntWidth::Bits16 => within_16_bits(bytes, at, span.low as u16, span.span as u16),
        IntWidth::Bits32 => within_32_bits(bytes, at, span.low as u32, span.span as u32),
        IntWidth::Bits64 => within_64_bits(bytes, at, span.low, span.span),
    }
}

/// Whether number `at` lies in a span.
#[tactic(auto, unfolding(crate::specs::Spans::lies_in, array_layout::specs::Buffers::number_at))]
fn is_within(bytes: &[u8], width: IntWidth, at: usize, span: Span) -> bool
    requires low { span.low < numbers_in width }
    requires room { bytes_in width * (at + 1) ≤ length bytes.now }
    ensures { result ≡ lies_in width span.low span.span bytes.now at }
{
    let numbers = numbers_in(width) as u128;
    let number = number(bytes, width, false, at) as u128;
    (number + (numbers - u128::from(span.low))) % numbers <= u128::from(span.span)
}

/// Adds which numbers lie in a span, eight at a time, while there are as many.
#[tactic(auto, using(crate::proofs::LaneRuns::lying))]
fn push_whole_bytes(
    made: &mut Bitmap,
    bytes: &[u8],
    width: IntWidth,
    len: usize,
    span: Span,
) -> Result<(), AllocError>
    requires low { span.low < numbers_in width }
    requires span { span.span < numbers_in width }
    requires room { bytes_in width * len ≤ length bytes.now }
    requires whole { length made.old % 8 ≡ 0 }
    requires begun { IsBegun made.old (lying_in width span.low span.span bytes.now len) }
    ensures { OnOk result (IsBegun made.new (lying_in width span.low span.span bytes.now len)) }
{
    while len - made.len() >= 8 {
        let byte = byte_within(bytes, width, made.len(), span);
        made.push_bytes(&[byte])?;
    }
    Ok(())
}

/// Adds which of the remaining numbers lie in a span, one at a time.
#[tactic(auto, using(crate::proofs::LaneRuns::lying))]
fn push_bits(
    made: &mut Bitmap,
    bytes: &[u8],
    width: IntWidth,
    len: usize,
    span: Span,
) -> Result<(), AllocError>
    requires low { span.low < numbers_in width }
    requires room { bytes_in width * len ≤ length bytes.now }
    requires begun { IsBegun made.old (lying_in width span.low span.span bytes.now len) }
    ensures { OnOk result (made.new ≡ lying_in width span.low span.span bytes.now len) }
{
    for i in made.len()..len {
        made.push(is_within(bytes, width, i, span))?;
    }
    Ok(())
}

/// Which of the first `len` numbers lie in a span.
#[tactic(auto, using(crate::proofs::LaneRuns::lying))]
fn numbers_within(
    alloc: Global,
    bytes: &[u8],
    width: IntWidth,
    len: usize,
    span: Span,
) -> Result<Bitmap, AllocError>
    requires low { span.low < numbers_in width }
    requires span { span.span < numbers_in width }
    requires room { bytes_in width * len ≤ length bytes.now }
    ensures { IfOk result (λ b. b ≡ lying_in width span.low span.span bytes.now len) }
{
    let mut made = Bitmap::with_capacity(alloc, len)?;
    push_whole_bytes(&mut made, bytes, width, len, span)?;
    push_bits(&mut made, bytes, width, len, span)?;
    Ok(made)
}

/// Which of the first `len` numbers are those of a span, or of all others.
#[tactic(auto, using(crate::proofs::LaneRuns::taking))]
fn numbers_passing(
    alloc: Global,
    bytes: &[u8],
    width: IntWidth,
    len: usize,
    span: Span,
) -> Result<Bitmap, AllocError>
    requires low { span.low < numbers_in width }
    requires span { span.span < numbers_in width }
    requires room { bytes_in width * len ≤ length bytes.now }
    ensures { IfOk result (λ b. b ≡ passing_span width span bytes.now len) }
{
    let within = numbers_within(alloc, bytes, width, len, span)?;
    if span.inside {
        Ok(within)
    } else {
        within.bits().not(alloc)
    }
}

/// Which of the first `len` slots are null; none where their validity is left out.
#[tactic(auto, using(crate::proofs::LaneRuns::null_slots))]
fn null_slots(alloc: Global, bits: &[u8], len: usize) -> Result<Bitmap, AllocError>
    requires { 0 < length bits.now → HasBits bits.now len }
    ensures { IfOk result (λ b. b ≡ nulls_by bits.now len) }
{
    if bits.is_empty() {
        let valid = vec![in alloc; 0xFF; len.div_ceil(8)]?;
        Bits::new(&valid, 0, len).not(alloc)
    } else {
        Bits::new(bits, 0, len).not(alloc)
    }
}

/// The truth of a comparison of each cell with a constant, of an array of whole numbers.
pub(crate) fn compare_numbers(
    alloc: Global,
    body: &[u8],
    own: &ArrayData,
    children: &[Array],
    width: IntWidth,
    signed: bool,
    comparison: Comparison,
    constant: i128,
) -> Result<Truths, AllocError>
    requires sound { IsSound body.now (node own.now (kids_of children.now)) }
    requires valid { IsValid (cells body.now (node own.now (kids_of children.now))) }
    requires plain { own.now.dictionary ≡ None }
    requires layout { own.now.layout ≡ Int width signed }
    ensures { IfOk result (λ ts. ts ≡ compared_with comparison (whole constant)
        (valid_of (cells body.now (node own.now (kids_of children.now))))) }
{
    let span = span_of(comparison, constant, width, signed);
    let known = numbers_passing(alloc, buffer(body, &own.values), width, own.len, span)?;
    let unknown = null_slots(alloc, buffer(body, &own.validity), own.len)?;
    let truths = Truths::new(alloc, &known.bits(), unknown)?;
    Ok(truths)
}
