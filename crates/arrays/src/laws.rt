//! Laws of the definitions: each is the contract of a function that does nothing.

ghost use Rattle.arrays.specs.Laws.{WeighsAsRead};
ghost use Rattle.arrays.specs.Reached.{FaultsAreReached, ReachedFaultsAreFound};

/// The weight that is counted of a cell where it lies is that of its value.
#[tactic(auto, using(crate::proofs::WeightLaw::weights))]
pub fn weight_law()
    ensures { WeighsAsRead }
{}

/// A cell has a fault exactly where a slot that it reaches has it.
#[tactic(auto, using(crate::proofs::ReachLemmas::reaching))]
pub fn reached_law()
    ensures found { FaultsAreReached }
    ensures stands { ReachedFaultsAreFound }
{}
