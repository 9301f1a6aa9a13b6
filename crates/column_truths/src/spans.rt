//! The numbers for which a comparison with a constant holds.

ghost use Rattle.std.specs.Prelude.{◌≡◌, ◌+◌, ◌*◌, ◌<◌, ◌≤◌, ◌^◌, ◌≤ℤ◌, ℕ, pos, not, false, true};
ghost use Rattle.std.specs.Ordering.{int_cmp};
ghost use Rattle.values.specs.Layouts.{bytes_in, greatest_of, least_of};
ghost use Rattle.array_layout.specs.Buffers.{number_by};
ghost use Rattle.view_lang.specs.Truth.{holds};
ghost use Rattle.column_truths.specs.Spans.{
  AreBitsOfNumber,
  in_span,
  is_between,
  passes_span,
  numbers_in,
};

use values::IntWidth;
use view_lang::Comparison;

/// The `span + 1` numbers from `low` on, as bits of some width, where 0 comes after the greatest; or all others.
#[derive(Clone, Copy)]
pub(crate) struct Span {
    pub low: u64,
    pub span: u64,
    pub inside: bool,
}

/// How many numbers have this width.
pub(crate) fn numbers_in(width: IntWidth) -> i128
    ensures { result ≡ pos (numbers_in width) }
{
    match width {
        IntWidth::Bits8 => 1 << 8,
        IntWidth::Bits16 => 1 << 16,
        IntWidth::Bits32 => 1 << 32,
        IntWidth::Bits64 => 1 << 64,
    }
}

/// The bits of a number of this width.
#[tactic(auto, using(crate::proofs::SpanLemmas::near))]
fn bits_of(number: i128, width: IntWidth) -> u64
    requires low { least_of width true ≤ℤ number }
    requires high { number ≤ℤ greatest_of width false }
    ensures small { result < numbers_in width }
    ensures value { AreBitsOfNumber (numbers_in width) result number }
{
    if number < 0 {
        (number + numbers_in(width)) as u64
    } else {
        number as u64
    }
}

/// The numbers from `first` to `last`.
fn span_from(first: i128, last: i128, width: IntWidth, signed: bool) -> Span
    requires ordered { first ≤ℤ last }
    requires low { least_of width signed ≤ℤ first }
    requires high { last ≤ℤ greatest_of width signed }
    ensures low { result.low < numbers_in width }
    ensures span { result.span < numbers_in width }
    ensures value { (u : ℕ) → u < numbers_in width
        → is_between first last (number_by signed (bytes_in width) u) ≡ passes_span width result u }
{
    Span {
        low: bits_of(first, width),
        span: (last - first) as u64,
        inside: true,
    }
}

/// No number.
#[tactic(auto, using(crate::proofs::SpanLemmas::none_taken))]
fn none(width: IntWidth) -> Span
    ensures low { result.low < numbers_in width }
    ensures span { result.span < numbers_in width }
    ensures value { (u : ℕ) → u < numbers_in width → false ≡ passes_span width result u }
{
    Span {
        low: 0,
        span: (numbers_in(width) - 1) as u64,
        inside: false,
    }
}

/// The numbers of a width from `from` to `to`.
fn span_between(from: i128, to: i128, width: IntWidth, signed: bool) -> Span
    ensures low { result.low < numbers_in width }
    ensures span { result.span < numbers_in width }
    ensures value { (u : ℕ) → u < numbers_in width
        → is_between from to (number_by signed (bytes_in width) u) ≡ passes_span width result u }
{
    let first = from.max(width.least(signed));
    let last = to.min(width.greatest(signed));
    // Cut to the width, the ends are out of order where none of its numbers lies between them.
    if last < first {
        none(width)
    } else {
        span_from(first, last, width, signed)
    }
}

/// All other numbers.
fn others(span: Span) -> Span
    ensures low { result.low ≡ span.low }
    ensures span { result.span ≡ span.span }
    ensures inside { result.inside ≡ not span.inside }
{
    Span {
        low: span.low,
        span: span.span,
        inside: !span.inside,
    }
}

/// The numbers of a width for which a comparison with a constant holds.
pub(crate) fn span_of(comparison: Comparison, constant: i128, width: IntWidth, signed: bool) -> Span
    ensures low { result.low < numbers_in width }
    ensures span { result.span < numbers_in width }
    ensures value { (u : ℕ) → u < numbers_in width
        → holds comparison (int_cmp (number_by signed (bytes_in width) u) constant) ≡ passes_span width result u }
{
    match comparison {
        Comparison::Equal => span_between(constant, constant, width, signed),
        Comparison::Different => others(span_between(constant, constant, width, signed)),
        Comparison::AtMost => span_between(i128::MIN, constant, width, signed),
        Comparison::Above => others(span_between(i128::MIN, constant, width, signed)),
        Comparison::AtLeast => span_between(constant, i128::MAX, width, signed),
        Comparison::Below => others(span_between(constant, i128::MAX, width, signed)),
    }
}
