//! Laws: functions that do nothing, whose contracts are theorems.

ghost use Rattle.lookups.specs.Refers.{RefersToAll};

/// What is stored depends on which rows hold which keys, and not on the changes that led to them.
#[tactic(auto, using(crate::proofs::Exactness::referrers_law))]
pub fn referrers_law()
    ensures { RefersToAll }
{}
