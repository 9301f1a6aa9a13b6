//! Ranks of keys: numbers of 62 bits that are ordered as keys are, but for those of one rank, by which most keys are
//! told apart without a look at them.
//!
//! `specs/Ranks.antt` says which rank a key has, and `specs/RankOrder.antt` what ranks say about the order of keys.
#![tactic(auto)]

mod laws;
mod ranked_key;
mod ranks;
#[cfg(test)]
mod tests;

pub use laws::rank_law;
pub use ranked_key::RankedKey;
pub use ranks::{KEY_RANKS, key_rank};
