//! Runs of slots that are all null, or all valid.

ghost use Rattle.std.specs.Prelude.{◌≡◌, ℕ, ◌+◌, ◌<◌, ◌≤◌, length};
ghost use Rattle.bitmaps.specs.Bits.{HasBits};
ghost use Rattle.array_layout.specs.Buffers.{is_null};

use bitmaps::Bits;

/// The end of a run of slots from slot `from` on, at most `to`, by a validity buffer: all slots of the run are null, or
/// all are valid.
pub fn run_end(bits: &[u8], from: usize, to: usize) -> usize
    requires some { from < to }
    requires room { 0 < length bits.now → HasBits bits.now to }
    ensures past { from < result }
    ensures within { result ≤ to }
    ensures same { (k : ℕ) → from ≤ k → k < result → is_null bits.now k ≡ is_null bits.now from }
{
    if bits.is_empty() {
        return to;
    }
    from + Bits::new(bits, from, to - from).run_end(0)
}
