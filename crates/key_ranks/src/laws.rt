//! A law of ranks: a function that does nothing, whose contract is a theorem.

ghost use Rattle.key_ranks.specs.RankOrder.{RanksAreOrdered};

/// Keys of different ranks are ordered by these.
#[tactic(auto, using(crate::proofs::RankLemmas::keys_ranked))]
pub fn rank_law()
    ensures { RanksAreOrdered }
{}
