//! Bitmaps that are built from bits that can be read 256 at a time.

ghost use Rattle.std.specs.Prelude.{◌≡◌, ◌+◌, ◌%◌, ◌<◌, ◌≤◌, [], ◌∷◌, Bool, List, false, get_or, length, IfOk, OnOk};
ghost use Rattle.bitmaps.specs.Blocks.{AreBits, IsBegun};

use crate::bitmap::Bitmap;
use std::alloc::{AllocError, Global};
use std::simd::prelude::*;

/// Bits that are read one, eight or 256 at a time.
pub(crate) trait Source {
    ghost bits: { Self → List Bool };

    fn len(&self) -> usize
        ensures { result ≡ length (bits self.now) };

    /// Bit `i`.
    fn bit(&self, i: usize) -> bool
        requires { i < length (bits self.now) }
        ensures { result ≡ get_or (bits self.now) i false };

    /// The eight bits from bit `i` on.
    fn byte(&self, i: usize) -> u8
        requires { i + 8 ≤ length (bits self.now) }
        ensures { AreBits 8 (result ∷ []) (λ k. get_or (bits self.now) (i + k) false) };

    /// The 256 bits from bit `i` on.
    fn block(&self, i: usize) -> u8x32
        requires { i + 256 ≤ length (bits self.now) }
        ensures { AreBits 256 result (λ k. get_or (bits self.now) (i + k) false) };
}

/// Adds bits, 256 at a time, while there are as many.
fn push_blocks<S: Source>(made: &mut Bitmap, source: &S) -> Result<(), AllocError>
    requires whole { length made.old % 8 ≡ 0 }
    requires begun { IsBegun made.old (S.bits source.now) }
    ensures whole { OnOk result (length made.new % 8 ≡ 0) }
    ensures begun { OnOk result (IsBegun made.new (S.bits source.now)) }
{
    let len = source.len();
    while len - made.len() >= 256 {
        let block = source.block(made.len());
        made.push_bytes(&block.to_array())?;
    }
    Ok(())
}

/// Adds bits, eight at a time, while there are as many.
fn push_whole_bytes<S: Source>(made: &mut Bitmap, source: &S) -> Result<(), AllocError>
    requires whole { length made.old % 8 ≡ 0 }
    requires begun { IsBegun made.old (S.bits source.now) }
    ensures { OnOk result (IsBegun made.new (S.bits source.now)) }
{
    let len = source.len();
    while len - made.len() >= 8 {
        let byte = source.byte(made.len());
        made.push_bytes(&[byte])?;
    }
    Ok(())
}

/// Adds the remaining bits, one at a time.
fn push_bits<S: Source>(made: &mut Bitmap, source: &S) -> Result<(), AllocError>
    requires { IsBegun made.old (S.bits source.now) }
    ensures { OnOk result (made.new ≡ S.bits source.now) }
{
    for i in made.len()..source.len() {
        made.push(source.bit(i))?;
    }
    Ok(())
}

/// A bitmap of these bits.
pub(crate) fn gather<S: Source>(alloc: Global, source: &S) -> Result<Bitmap, AllocError>
    ensures { IfOk result (λ b. b ≡ S.bits source.now) }
{
    let mut made = Bitmap::with_capacity(alloc, source.len())?;
    push_blocks(&mut made, source)?;
    push_whole_bytes(&mut made, source)?;
    push_bits(&mut made, source)?;
    Ok(made)
}
