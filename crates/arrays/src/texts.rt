//! Validates texts by ranges of slots. 25 NotUtf8.

ghost use Rattle.std.specs.Prelude.{◌≡◌, ℕ, ◌+◌, ◌-◌, ◌*◌, ◌<◌, ◌≤◌, length, slice_range, true};
ghost use Rattle.std.specs.Str.{is_utf8, IsCharBoundary};
ghost use Rattle.bitmaps.specs.Bits.{HasBits};
ghost use Rattle.values.specs.Reading.{Passes, each};
ghost use Rattle.values.specs.Layouts.{offset_bytes};
ghost use Rattle.array_layout.specs.Buffers.{offset_at, slice_at};
ghost use Rattle.array_layout.specs.Sound.{AreFit};
ghost use Rattle.array_layout.specs.Cells.{text_of};
ghost use Rattle.arrays.specs.Ranges.{where_valid};

use array_layout::{is_null_at, offset, run_end, slice};
use simdutf8::basic::from_utf8;
use values::{OffsetWidth, StreamFault};

/// Whether each of the slots from `from` to `to` begins where a character of `text` does. The text begins with slot
/// `from`.
fn begin_characters(text: &str, offsets: &[u8], width: OffsetWidth, from: usize, to: usize) -> bool
    requires order { from ≤ to }
    requires room { offset_bytes width * (to + 1) ≤ length offsets.now }
    requires rising { (k : ℕ) → from ≤ k → k < to → offset_at width offsets.now from ≤ offset_at width offsets.now k }
    ensures { result ≡ true → (k : ℕ) → from ≤ k → k < to
        → IsCharBoundary text.now (offset_at width offsets.now k - offset_at width offsets.now from) }
{
    let first = offset(offsets, width, from);
    for i in from..to {
        if !text.is_char_boundary(offset(offsets, width, i) - first) {
            return false;
        }
    }
    true
}

/// The bytes from offset `from` to offset `to`.
fn bytes_between<'a>(
    offsets: &[u8],
    values: &'a [u8],
    width: OffsetWidth,
    from: usize,
    to: usize,
) -> &'a [u8]
    requires start { offset_bytes width * (from + 1) ≤ length offsets.now }
    requires room { offset_bytes width * (to + 1) ≤ length offsets.now }
    requires order { offset_at width offsets.now from ≤ offset_at width offsets.now to }
    requires within { offset_at width offsets.now to ≤ length values.now }
    ensures { result.now ≡ slice_range values.now (offset_at width offsets.now from) (offset_at width offsets.now to) }
{
    &values[offset(offsets, width, from)..offset(offsets, width, to)]
}

/// Whether the bytes of the slots from `from` to `to` are UTF-8 as a whole, and none begins inside a character.
#[tactic(auto, using(crate::proofs::TextLemmas::text_laws))]
fn are_texts(offsets: &[u8], values: &[u8], width: OffsetWidth, from: usize, to: usize) -> bool
    requires order { from < to }
    requires fit { AreFit width offsets.now to (length values.now) }
    ensures { result ≡ true → (k : ℕ) → from ≤ k → k < to → is_utf8 (slice_at width offsets.now values.now k) ≡ true }
{
    match from_utf8(bytes_between(offsets, values, width, from, to)) {
        Ok(text) => begin_characters(text, offsets, width, from, to),
        Err(_) => false,
    }
}

/// Whether bytes are UTF-8.
#[tactic(auto, using(crate::proofs::Utf8Tests::text_tests))]
fn is_text(bytes: &[u8]) -> bool
    ensures { result ≡ is_utf8 bytes.now }
{
    from_utf8(bytes).is_ok()
}

/// Validates a text.
fn validate_text(bytes: &[u8]) -> Result<(), StreamFault>
    ensures { Passes result (text_of bytes.now) }
{
    if is_text(bytes) {
        Ok(())
    } else {
        Err(StreamFault::NotUtf8)
    }
}

/// Validates a run of valid slots: their bytes at once, or else text by text.
#[tactic(auto, using(values::proofs::Readings::deciding, crate::proofs::RangeLemmas::each_fault, crate::proofs::TextLemmas::text_laws))]
fn validate_run(
    offsets: &[u8],
    values: &[u8],
    width: OffsetWidth,
    from: usize,
    to: usize,
) -> Result<(), StreamFault>
    requires order { from < to }
    requires fit { AreFit width offsets.now to (length values.now) }
    ensures { Passes result (each (λ i. text_of (slice_at width offsets.now values.now i)) from (to - from)) }
{
    if are_texts(offsets, values, width, from, to) {
        return Ok(());
    }
    for i in from..to {
        validate_text(slice(offsets, values, width, i))?;
    }
    Ok(())
}

/// Validates the texts of the slots from `from` to `to`: all at once where that succeeds, else run by run, since the
/// bytes of null slots need not be UTF-8.
#[tactic(auto, using(crate::proofs::RangeLemmas::run_laws, crate::proofs::TextLemmas::text_laws))]
pub(crate) fn validate_texts(
    bits: &[u8],
    offsets: &[u8],
    values: &[u8],
    width: OffsetWidth,
    from: usize,
    to: usize,
) -> Result<(), StreamFault>
    requires order { from < to }
    requires bits { 0 < length bits.now → HasBits bits.now to }
    requires fit { AreFit width offsets.now to (length values.now) }
    ensures { Passes result
        (each (where_valid bits.now (λ i. text_of (slice_at width offsets.now values.now i))) from (to - from)) }
{
    if are_texts(offsets, values, width, from, to) {
        return Ok(());
    }
    let mut at = from;
    while at < to {
        let end = run_end(bits, at, to);
        if !is_null_at(bits, at) {
            validate_run(offsets, values, width, at, end)?;
        }
        at = end;
    }
    Ok(())
}
