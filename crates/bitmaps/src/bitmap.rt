//! Owned bitmaps.

ghost use Rattle.std.specs.Prelude.{◌≡◌, ◌+◌, ◌*◌, ◌%◌, ◌<◌, ◌++◌, ◌∷◌, ◌^◌, [], length, IfOk, OnErr, OnOk};
ghost use Rattle.bitmaps.specs.Bits.{bits_at};
ghost use Rattle.bitmaps.specs.Packed.{IsPacked, bytes_of};

use crate::bits::Bits;
use std::alloc::{AllocError, Global};
use std::marker::Model;

/// A bitmap in memory of its own. Contracts see it as the list of its bits.
#[derive(Debug, Drop)]
pub struct Bitmap {
    bytes: Vec<u8>,
    len: usize,
}

impl Model for Bitmap {
    ghost use Rattle.std.specs.Prelude.{Bool, List};
    ghost use Rattle.bitmaps.specs.Bits.{bits_at};
    ghost use Rattle.bitmaps.specs.Packed.{IsPacked};

    ghost Value = { List Bool };

    ghost view = { λ b. bits_at b.bytes.items 0 b.len };

    ghost invariant = { λ b. IsPacked b.bytes.items b.len };
}

/// Adds a bit after the `len` bits that the bytes hold.
#[tactic(auto, using(crate::proofs::PushLemmas::pushing))]
fn push_bit(bytes: &mut Vec<u8>, len: usize, bit: bool) -> Result<(), AllocError>
    requires { IsPacked bytes.old.items len }
    ensures pushed { IfOk result (λ _. bytes.new.items ≡ bytes_of (bits_at bytes.old.items 0 len ++ bit ∷ [])) }
    ensures unchanged { OnErr result (bytes.new.items ≡ bytes.old.items) }
{
    let place = len % 8;
    if place == 0 {
        bytes.push(bit as u8)?;
    } else {
        bytes[len / 8] += (bit as u8) << place;
    }
    Ok(())
}

#[tactic(auto, using(crate::proofs::PackLemmas::packing))]
impl Bitmap {
    /// A bitmap without bits. It takes no memory.
    pub fn new(alloc: Global) -> Bitmap
        ensures { result ≡ [] }
    {
        Bitmap {
            bytes: Vec::new(alloc),
            len: 0,
        }
    }

    /// A bitmap without bits, with capacity for `bits` of them.
    pub fn with_capacity(alloc: Global, bits: usize) -> Result<Bitmap, AllocError>
        ensures { IfOk result (λ b. b ≡ []) }
    {
        let bytes = Vec::with_capacity(alloc, bits.div_ceil(8))?;
        Ok(Bitmap { bytes, len: 0 })
    }

    /// The number of bits.
    pub fn len(&self) -> usize
        ensures { result ≡ length self.now }
    {
        self.len
    }

    /// Adds the bits of whole bytes at the end, where the bits before them end with a whole byte. A refusal changes
    /// nothing.
    pub fn push_bytes(&mut self, bytes: &[u8]) -> Result<(), AllocError>
        requires whole { length self.old % 8 ≡ 0 }
        requires small { length self.old + 8 * length bytes.now < 2 ^ 64 }
        ensures pushed { OnOk result (self.new ≡ self.old ++ bits_at bytes.now 0 (8 * length bytes.now)) }
        ensures unchanged { OnErr result (self.new ≡ self.old) }
    {
        self.bytes.extend_from_slice(bytes)?;
        self.len += 8 * bytes.len();
        Ok(())
    }

    /// Adds a bit at the end. A refusal changes nothing.
    pub fn push(&mut self, bit: bool) -> Result<(), AllocError>
        requires { length self.old + 1 < 2 ^ 64 }
        ensures pushed { IfOk result (λ _. self.new ≡ self.old ++ bit ∷ []) }
        ensures unchanged { OnErr result (self.new ≡ self.old) }
    {
        push_bit(&mut self.bytes, self.len, bit)?;
        self.len += 1;
        Ok(())
    }

    /// Adds bits at the end, wherever the bits before them end in their byte: 256 or eight at a time where they fill
    /// bytes. After a refusal some of them may have been added.
    #[tactic(auto, using(crate::proofs::GatherLemmas::adding))]
    pub fn extend_from_bits(&mut self, bits: &Bits) -> Result<(), AllocError>
        requires { length self.old + length bits.now < 2 ^ 64 }
        ensures { OnOk result (self.new ≡ self.old ++ bits.now) }
    {
        let mut at = 0;
        while at < bits.len() {
            if self.len() % 8 == 0 && bits.len() - at >= 256 {
                self.push_bytes(&bits.block(at).to_array())?;
                at += 256;
            } else if self.len() % 8 == 0 && bits.len() - at >= 8 {
                self.push_bytes(&[bits.byte(at)])?;
                at += 8;
            } else {
                self.push(bits.at(at))?;
                at += 1;
            }
        }
        Ok(())
    }

    /// A view of its bits.
    pub fn bits(&self) -> Bits<'_>
        ensures { result ≡ self.now }
    {
        Bits::new(&self.bytes, 0, self.len)
    }

    /// The bytes that hold its bits: no more than are needed, and unused bits are 0.
    pub fn as_bytes(&self) -> &[u8]
        ensures { result.now ≡ bytes_of self.now }
    {
        self.bytes.as_slice()
    }
}
