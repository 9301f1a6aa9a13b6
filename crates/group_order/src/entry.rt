//! Entries of group rows in an order.

ghost use Rattle.std.specs.Prelude.{◌≡◌, IfOk};
ghost use Rattle.group_order.specs.RankedParts.{entry_with};

use crate::parts::GroupEntryParts;
use group_state::Tuple;
use std::alloc::{AllocError, Global};
use std::cmp::Ordering;
use std::marker::Model;
use top_rows::SortKeyList;

/// The entry of a group row in an order: its sort keys, one for each of the order's columns, and its group's tuple, by
/// which ties are broken. Contracts see the pair of both. Most entries are told apart by the rank of their sort keys.
#[derive(Debug, Drop)]
pub(crate) struct GroupEntry {
    rank: u64,
    sort_keys: SortKeyList,
    tuple: Tuple,
}

impl Model for GroupEntry {
    ghost use Rattle.group_order.specs.GroupEntries as seen;
    ghost use Rattle.top_rows.specs.Ranks.{IsRank};

    ghost Value = { seen.GroupEntry };

    ghost view = { λ p. (p.sort_keys, p.tuple) };

    ghost invariant = { λ p. IsRank p.sort_keys p.rank };
}

impl PartialEq for GroupEntry {
    ghost use Rattle.std.specs.Cmp.{eq_by_cmp_equiv, partial_equiv_from_equiv};
    ghost use Rattle.std.specs.Ordering.{eq_by_cmp};
    ghost use Rattle.group_order.specs.GroupEntries.{group_entry_cmp, group_entry_total};

    ghost eq = { eq_by_cmp group_entry_cmp };

    ghost laws = { partial_equiv_from_equiv (eq_by_cmp_equiv group_entry_total) };

    fn eq(&self, other: &GroupEntry) -> bool {
        matches!(self.cmp(other), Ordering::Equal)
    }
}

impl Eq for GroupEntry {
    ghost use Rattle.std.specs.Cmp.{eq_by_cmp_equiv};
    ghost use Rattle.group_order.specs.GroupEntries.{group_entry_total};

    ghost laws = { eq_by_cmp_equiv group_entry_total };
}

impl PartialOrd for GroupEntry {
    ghost use Rattle.std.specs.Cmp.{partial_order_from_total};
    ghost use Rattle.std.specs.Ordering.{as_partial_cmp};
    ghost use Rattle.group_order.specs.GroupEntries.{group_entry_cmp, group_entry_total};

    ghost partial_cmp = { as_partial_cmp group_entry_cmp };

    ghost laws = { partial_order_from_total group_entry_total };

    fn partial_cmp(&self, other: &GroupEntry) -> Option<Ordering> {
        Some(self.cmp(other))
    }
}

impl Ord for GroupEntry {
    ghost use Rattle.std.specs.Prelude.{refl};
    ghost use Rattle.group_order.specs.GroupEntries.{group_entry_cmp, group_entry_total};

    ghost cmp = { group_entry_cmp };

    ghost total = { group_entry_total };

    ghost matches_partial_cmp = { λ x y. refl };

    ghost matches_eq = { λ x y. refl };

    fn cmp(&self, other: &GroupEntry) -> Ordering {
        match self.rank.cmp(&other.rank) {
            Ordering::Equal => self
                .sort_keys
                .cmp(&other.sort_keys)
                .then(self.tuple.cmp(&other.tuple)),
            unlike => unlike,
        }
    }
}

impl GroupEntry {
    /// The entry of a tuple's row with these sort keys.
    pub(crate) fn new(sort_keys: SortKeyList, tuple: Tuple) -> GroupEntry
        ensures { result ≡ (sort_keys, tuple) }
    {
        GroupEntry {
            rank: sort_keys.rank(),
            sort_keys,
            tuple,
        }
    }

    pub(crate) fn from_parts(
        alloc: Global,
        parts: GroupEntryParts,
    ) -> Result<GroupEntry, AllocError>
        ensures { IfOk result (λ entry. entry ≡ entry_with parts) }
    {
        let GroupEntryParts { sort_keys, tuple } = parts;
        let sort_keys = SortKeyList::from_list(alloc, sort_keys);
        let tuple = Tuple::from_keys(alloc, tuple)?;
        Ok(GroupEntry::new(sort_keys, tuple))
    }

    pub(crate) fn into_parts(self, alloc: Global) -> Result<GroupEntryParts, AllocError>
        ensures { IfOk result (λ parts. entry_with parts ≡ self) }
    {
        let GroupEntry {
            sort_keys,
            tuple,
            ..
        } = self;
        let sort_keys = sort_keys.into_list()?;
        let tuple = tuple.into_keys(alloc)?;
        Ok(GroupEntryParts { sort_keys, tuple })
    }

    /// The group's tuple.
    pub(crate) fn tuple(&self) -> &Tuple
        ensures { result.now ≡ self.now.1 }
    {
        &self.tuple
    }

    pub(crate) fn into_tuple(self) -> Tuple
        ensures { result ≡ self.1 }
    {
        self.tuple
    }
}
