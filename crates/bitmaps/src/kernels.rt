//! Bitwise kernels over bitmaps, 256 bits at a time: and, or, not, select.

ghost use Rattle.std.specs.Prelude.{◌≡◌, ◌+◌, ◌<◌, ◌≤◌, [], ◌∷◌, ◌&&◌, ◌||◌, false, get_or, not, map, length, IfOk};
ghost use Rattle.bitmaps.specs.Bits.{pairwise, selected};
ghost use Rattle.bitmaps.specs.Blocks.{AreBits};

use crate::bitmap::Bitmap;
use crate::bits::{Bits, pick};
use crate::gather::{Source, gather};
use crate::lanes::{
    and_byte, and_lanes, not_byte, not_lanes, or_byte, or_lanes, select_byte, select_lanes,
};
use std::alloc::{AllocError, Global};
use std::simd::prelude::*;

/// 1 where both bits are 1.
#[derive(Drop)]
struct And<'b> {
    first: &'b Bits<'b>,
    second: &'b Bits<'b>,
    ghost alike: { length second.now ≡ length first.now },
}

#[tactic(auto, using(crate::proofs::KernelRuns::pairing))]
impl Source for And<'_> {
    ghost bits = { λ s. pairwise (λ x y. x && y) s.first.now s.second.now };

    fn len(&self) -> usize {
        self.first.len()
    }

    fn bit(&self, i: usize) -> bool {
        self.first.at(i) & self.second.at(i)
    }

    fn byte(&self, i: usize) -> u8 {
        and_byte(self.first.byte(i), self.second.byte(i))
    }

    fn block(&self, i: usize) -> u8x32 {
        and_lanes(self.first.block(i), self.second.block(i))
    }
}

/// 1 where at least one of the two bits is 1.
#[derive(Drop)]
struct Or<'b> {
    first: &'b Bits<'b>,
    second: &'b Bits<'b>,
    ghost alike: { length second.now ≡ length first.now },
}

#[tactic(auto, using(crate::proofs::KernelRuns::pairing))]
impl Source for Or<'_> {
    ghost bits = { λ s. pairwise (λ x y. x || y) s.first.now s.second.now };

    fn len(&self) -> usize {
        self.first.len()
    }

    fn bit(&self, i: usize) -> bool {
        self.first.at(i) | self.second.at(i)
    }

    fn byte(&self, i: usize) -> u8 {
        or_byte(self.first.byte(i), self.second.byte(i))
    }

    fn block(&self, i: usize) -> u8x32 {
        or_lanes(self.first.block(i), self.second.block(i))
    }
}

/// 1 where the bit is 0.
#[derive(Drop)]
struct Not<'b> {
    of: &'b Bits<'b>,
}

#[tactic(auto, using(crate::proofs::KernelRuns::pairing))]
impl Source for Not<'_> {
    ghost bits = { λ s. map not s.of.now };

    fn len(&self) -> usize {
        self.of.len()
    }

    fn bit(&self, i: usize) -> bool {
        !self.of.at(i)
    }

    fn byte(&self, i: usize) -> u8 {
        not_byte(self.of.byte(i))
    }

    fn block(&self, i: usize) -> u8x32 {
        not_lanes(self.of.block(i))
    }
}

/// The bit of `yes` where the mask's bit is 1, else that of `no`.
#[derive(Drop)]
struct Select<'b> {
    mask: &'b Bits<'b>,
    yes: &'b Bits<'b>,
    no: &'b Bits<'b>,
    ghost yes_alike: { length yes.now ≡ length mask.now },
    ghost no_alike: { length no.now ≡ length mask.now },
}

#[tactic(auto, using(crate::proofs::KernelRuns::pairing))]
impl Source for Select<'_> {
    ghost bits = { λ s. selected s.mask.now s.yes.now s.no.now };

    fn len(&self) -> usize {
        self.mask.len()
    }

    fn bit(&self, i: usize) -> bool {
        pick(self.mask.at(i), self.yes.at(i), self.no.at(i))
    }

    fn byte(&self, i: usize) -> u8 {
        select_byte(self.mask.byte(i), self.yes.byte(i), self.no.byte(i))
    }

    fn block(&self, i: usize) -> u8x32 {
        select_lanes(self.mask.block(i), self.yes.block(i), self.no.block(i))
    }
}

impl<'a> Bits<'a> {
    /// 1 where both bits are 1. The two are of one length.
    pub fn and(&self, alloc: Global, other: &Bits<'_>) -> Result<Bitmap, AllocError>
        requires { length other.now ≡ length self.now }
        ensures { IfOk result (λ b. b ≡ pairwise (λ x y. x && y) self.now other.now) }
    {
        let both = And {
            first: self,
            second: other,
        };
        gather(alloc, &both)
    }

    /// 1 where at least one of the two bits is 1. The two are of one length.
    pub fn or(&self, alloc: Global, other: &Bits<'_>) -> Result<Bitmap, AllocError>
        requires { length other.now ≡ length self.now }
        ensures { IfOk result (λ b. b ≡ pairwise (λ x y. x || y) self.now other.now) }
    {
        let either = Or {
            first: self,
            second: other,
        };
        gather(alloc, &either)
    }

    /// 1 where the bit is 0.
    pub fn not(&self, alloc: Global) -> Result<Bitmap, AllocError>
        ensures { IfOk result (λ b. b ≡ map not self.now) }
    {
        gather(alloc, &Not { of: self })
    }

    /// The bit of `yes` where this mask's bit is 1, else that of `no`.
    pub fn select(&self, alloc: Global, yes: &Bits<'_>, no: &Bits<'_>) -> Result<Bitmap, AllocError>
        requires yes { length yes.now ≡ length self.now }
        requires no { length no.now ≡ length self.now }
        ensures { IfOk result (λ b. b ≡ selected self.now yes.now no.now) }
    {
        let picked = Select {
            mask: self,
            yes,
            no,
        };
        gather(alloc, &picked)
    }
}
