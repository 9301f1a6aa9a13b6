//! The same as those of [`Bits`], bit by bit: what the kernels are compared with.

ghost use Rattle.std.specs.Prelude.{◌≡◌, ◌&&◌, ◌||◌, not, map, length, IfOk};
ghost use Rattle.bitmaps.specs.Bits.{ones, pairwise, selected};

use crate::bitmap::Bitmap;
use crate::bits::{Bits, pick};
use std::alloc::{AllocError, Global};

/// 1 where both bits are 1. The two are of one length.
#[tactic(auto, using(crate::proofs::KernelLemmas::making, crate::proofs::Runs::runs))]
pub fn and(alloc: Global, first: &Bits<'_>, second: &Bits<'_>) -> Result<Bitmap, AllocError>
    requires { length second.now ≡ length first.now }
    ensures { IfOk result (λ b. b ≡ pairwise (λ x y. x && y) first.now second.now) }
{
    let mut made = Bitmap::new(alloc);
    for i in 0..first.len() {
        made.push(first.at(i) & second.at(i))?;
    }
    Ok(made)
}

/// 1 where at least one of the two bits is 1. The two are of one length.
#[tactic(auto, using(crate::proofs::KernelLemmas::making, crate::proofs::Runs::runs))]
pub fn or(alloc: Global, first: &Bits<'_>, second: &Bits<'_>) -> Result<Bitmap, AllocError>
    requires { length second.now ≡ length first.now }
    ensures { IfOk result (λ b. b ≡ pairwise (λ x y. x || y) first.now second.now) }
{
    let mut made = Bitmap::new(alloc);
    for i in 0..first.len() {
        made.push(first.at(i) | second.at(i))?;
    }
    Ok(made)
}

/// 1 where the bit is 0.
#[tactic(auto, using(crate::proofs::KernelLemmas::making, crate::proofs::Runs::runs))]
pub fn not(alloc: Global, bits: &Bits<'_>) -> Result<Bitmap, AllocError>
    ensures { IfOk result (λ b. b ≡ map not bits.now) }
{
    let mut made = Bitmap::new(alloc);
    for i in 0..bits.len() {
        made.push(!bits.at(i))?;
    }
    Ok(made)
}

/// The bit of `yes` where the mask's bit is 1, else that of `no`. The three are of one length.
#[tactic(auto, using(crate::proofs::KernelLemmas::making, crate::proofs::Runs::runs))]
pub fn select(
    alloc: Global,
    mask: &Bits<'_>,
    yes: &Bits<'_>,
    no: &Bits<'_>,
) -> Result<Bitmap, AllocError>
    requires yes { length yes.now ≡ length mask.now }
    requires no { length no.now ≡ length mask.now }
    ensures { IfOk result (λ b. b ≡ selected mask.now yes.now no.now) }
{
    let mut made = Bitmap::new(alloc);
    for i in 0..mask.len() {
        made.push(pick(mask.at(i), yes.at(i), no.at(i)))?;
    }
    Ok(made)
}

/// How many bits are 1.
#[tactic(auto, using(crate::proofs::Runs::runs))]
pub fn count_ones(bits: &Bits<'_>) -> usize
    ensures { result ≡ ones bits.now }
{
    let mut count = 0;
    for i in 0..bits.len() {
        count += bits.at(i) as usize;
    }
    count
}
