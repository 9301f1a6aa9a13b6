//! Keys with their ranks.

ghost use Rattle.std.specs.Prelude.{◌≡◌, IfOk};

use crate::ranks::key_rank;
use std::alloc::{AllocError, Global};
use std::cmp::Ordering;
use std::marker::Model;
use values::Key;

/// A key with its rank, by which most keys are told apart. Contracts see the key.
#[derive(Debug, Drop)]
pub struct RankedKey {
    rank: u64,
    key: Key,
}

impl Model for RankedKey {
    ghost use Rattle.key_ranks.specs.Ranks.{IsCellRank};
    ghost use Rattle.values.specs.Keys.{datum_of_key};
    ghost use Rattle.values.specs.declared.key.Key.{Key};

    ghost Value = { Key };

    ghost view = { λ r. r.key };

    ghost invariant = { λ r. IsCellRank (datum_of_key r.key) r.rank };
}

impl PartialEq for RankedKey {
    ghost use Rattle.std.specs.Cmp.{eq_by_cmp_equiv, partial_equiv_from_equiv};
    ghost use Rattle.std.specs.Ordering.{eq_by_cmp};
    ghost use Rattle.key_ranks.specs.RankOrder.{key_cmp, key_total};

    ghost eq = { eq_by_cmp key_cmp };

    ghost laws = { partial_equiv_from_equiv (eq_by_cmp_equiv key_total) };

    fn eq(&self, other: &RankedKey) -> bool {
        matches!(self.cmp(other), Ordering::Equal)
    }
}

impl Eq for RankedKey {
    ghost use Rattle.std.specs.Cmp.{eq_by_cmp_equiv};
    ghost use Rattle.key_ranks.specs.RankOrder.{key_total};

    ghost laws = { eq_by_cmp_equiv key_total };
}

impl PartialOrd for RankedKey {
    ghost use Rattle.std.specs.Cmp.{partial_order_from_total};
    ghost use Rattle.std.specs.Ordering.{as_partial_cmp};
    ghost use Rattle.key_ranks.specs.RankOrder.{key_cmp, key_total};

    ghost partial_cmp = { as_partial_cmp key_cmp };

    ghost laws = { partial_order_from_total key_total };

    fn partial_cmp(&self, other: &RankedKey) -> Option<Ordering> {
        Some(self.cmp(other))
    }
}

impl Ord for RankedKey {
    ghost use Rattle.std.specs.Prelude.{refl};
    ghost use Rattle.key_ranks.specs.RankOrder.{key_cmp, key_total};

    ghost cmp = { key_cmp };

    ghost total = { key_total };

    ghost matches_partial_cmp = { λ x y. refl };

    ghost matches_eq = { λ x y. refl };

    fn cmp(&self, other: &RankedKey) -> Ordering {
        match self.rank.cmp(&other.rank) {
            Ordering::Equal => self.key.cmp(&other.key),
            unlike => unlike,
        }
    }
}

impl RankedKey {
    /// A key with its rank.
    pub fn new(key: Key) -> RankedKey
        ensures { result ≡ key }
    {
        RankedKey {
            rank: key_rank(&key),
            key,
        }
    }

    /// The key.
    pub fn key(&self) -> &Key
        ensures { result.now ≡ self.now }
    {
        &self.key
    }

    /// The key, without its rank.
    pub fn into_key(self) -> Key
        ensures { result ≡ self }
    {
        self.key
    }

    /// An equal key with memory of its own.
    pub fn copy(&self, alloc: Global) -> Result<RankedKey, AllocError>
        ensures { IfOk result (λ key. key ≡ self.now) }
    {
        Ok(RankedKey {
            rank: self.rank,
            key: self.key.copy(alloc)?,
        })
    }
}
