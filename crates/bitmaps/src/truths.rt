//! Truths of three values as two bitmaps.

ghost use Rattle.std.specs.Prelude.{◌≡◌, ◌<◌, ◌&&◌, ◌||◌, not, get_or, length, map, None, IfOk};
ghost use Rattle.bitmaps.specs.Bits.{pairwise};
ghost use Rattle.bitmaps.specs.Truths.{
  both as both_by,
  either as either_by,
  is_true,
  is_unknown,
  negated,
  paired,
  truths_by,
};

use crate::bitmap::Bitmap;
use crate::bits::Bits;
use std::alloc::{AllocError, Global};
use std::marker::Model;

/// Truths, each of which is true, false or unknown. Contracts see their list, where unknown is `None`.
#[derive(Debug, Drop)]
pub struct Truths {
    // No bit is 1 in both.
    yes: Bitmap,
    unknown: Bitmap,
}

impl Model for Truths {
    ghost use Rattle.std.specs.Prelude.{Bool, List, Option};
    ghost use Rattle.bitmaps.specs.Truths.{AreBitsOf, truths_by};

    ghost Value = { List (Option Bool) };

    ghost view = { λ t. truths_by t.yes t.unknown };

    ghost invariant = { λ t. AreBitsOf (truths_by t.yes t.unknown) t.yes t.unknown };
}

#[tactic(auto, using(crate::proofs::TruthLemmas::truth_laws))]
impl Truths {
    /// The truths in `known`, but unknown where the other bitmap has a 1. The two are of one length.
    pub fn new(alloc: Global, known: &Bits<'_>, unknown: Bitmap) -> Result<Truths, AllocError>
        requires { length known.now ≡ length unknown }
        ensures { IfOk result (λ ts. ts ≡ truths_by known.now unknown) }
    {
        let certain = unknown.bits().not(alloc)?;
        let yes = known.and(alloc, &certain.bits())?;
        Ok(Truths { yes, unknown })
    }

    /// The number of truths.
    pub fn len(&self) -> usize
        ensures { result ≡ length self.now }
    {
        self.yes.len()
    }

    /// Truth `i`.
    pub fn at(&self, i: usize) -> Option<bool>
        requires { i < length self.now }
        ensures { result ≡ get_or self.now i None }
    {
        if self.unknown.bits().at(i) {
            None
        } else {
            Some(self.yes.bits().at(i))
        }
    }

    /// Which are true.
    pub fn yes(&self) -> Bits<'_>
        ensures { result ≡ map is_true self.now }
    {
        self.yes.bits()
    }

    /// Which are unknown.
    pub fn unknown(&self) -> Bits<'_>
        ensures { result ≡ map is_unknown self.now }
    {
        self.unknown.bits()
    }

    /// The truths of the negations.
    pub fn not(self, alloc: Global) -> Result<Truths, AllocError>
        ensures { IfOk result (λ ts. ts ≡ map negated self) }
    {
        let Truths { yes, unknown } = self;
        let no = yes.bits().not(alloc)?;
        Truths::new(alloc, &no.bits(), unknown)
    }

    /// The truths of both together: false where one is false, else unknown where one is unknown.
    pub fn and(&self, alloc: Global, other: &Truths) -> Result<Truths, AllocError>
        requires { length other.now ≡ length self.now }
        ensures { IfOk result (λ ts. ts ≡ paired both_by self.now other.now) }
    {
        let yes = self.yes().and(alloc, &other.yes())?;
        let unknown = unknown_of_both(alloc, self, other, &yes.bits())?;
        Ok(Truths { yes, unknown })
    }

    /// The truths of one or the other: true where one is true, else unknown where one is unknown.
    pub fn or(&self, alloc: Global, other: &Truths) -> Result<Truths, AllocError>
        requires { length other.now ≡ length self.now }
        ensures { IfOk result (λ ts. ts ≡ paired either_by self.now other.now) }
    {
        let yes = self.yes().or(alloc, &other.yes())?;
        let unknown = unknown_of_either(alloc, self, other, &yes.bits())?;
        Ok(Truths { yes, unknown })
    }
}

/// 1 where the bit of `first` is 1 and that of `second` is 0.
#[tactic(auto, using(crate::proofs::TruthLemmas::truth_laws))]
fn and_not(alloc: Global, first: &Bits<'_>, second: &Bits<'_>) -> Result<Bitmap, AllocError>
    requires { length second.now ≡ length first.now }
    ensures { IfOk result (λ b. b ≡ pairwise (λ x y. x && y) first.now (map not second.now)) }
{
    let others = second.not(alloc)?;
    first.and(alloc, &others.bits())
}

/// Which aren't false.
#[tactic(auto, using(crate::proofs::TruthLemmas::truth_laws))]
fn possible(alloc: Global, truths: &Truths) -> Result<Bitmap, AllocError>
    ensures { IfOk result (λ b. b ≡ pairwise (λ x y. x || y) (map is_true truths.now) (map is_unknown truths.now)) }
{
    truths.yes().or(alloc, &truths.unknown())
}

/// Which are unknown of both together, where `yes` says which are true.
#[tactic(auto, using(crate::proofs::TruthLemmas::truth_laws))]
fn unknown_of_both(
    alloc: Global,
    first: &Truths,
    second: &Truths,
    yes: &Bits<'_>,
) -> Result<Bitmap, AllocError>
    requires same { length second.now ≡ length first.now }
    requires yes { yes.now ≡ pairwise (λ x y. x && y) (map is_true first.now) (map is_true second.now) }
    ensures { IfOk result (λ b. b ≡ map is_unknown (paired both_by first.now second.now)) }
{
    let first = possible(alloc, first)?;
    let second = possible(alloc, second)?;
    let possible = first.bits().and(alloc, &second.bits())?;
    and_not(alloc, &possible.bits(), yes)
}

/// Which are unknown of one or the other, where `yes` says which are true.
#[tactic(auto, using(crate::proofs::TruthLemmas::truth_laws))]
fn unknown_of_either(
    alloc: Global,
    first: &Truths,
    second: &Truths,
    yes: &Bits<'_>,
) -> Result<Bitmap, AllocError>
    requires same { length second.now ≡ length first.now }
    requires yes { yes.now ≡ pairwise (λ x y. x || y) (map is_true first.now) (map is_true second.now) }
    ensures { IfOk result (λ b. b ≡ map is_unknown (paired either_by first.now second.now)) }
{
    let unknown = first.unknown().or(alloc, &second.unknown())?;
    and_not(alloc, &unknown.bits(), yes)
}
