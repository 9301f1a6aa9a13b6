//! The sort keys of a row, where all of them are short.

ghost use Rattle.std.specs.Prelude.{◌≡◌, IfOk, List, MatchOption};

use crate::short_key::ShortKey;
use crate::sort_key_list::SortKeyList;
use std::alloc::{AllocError, Global};
use view_lang::{OrderBy, RowView};

/// The sort keys of a row in an order by one column or by two, where all of them are short.
pub(crate) trait ShortKeys: Ord + Drop {
    ghost use Rattle.std.specs.Prelude.{◌≡◌, ℕ, IfOk, List, MatchOption};
    ghost use Rattle.top_rows.specs.EntryOrder.{sort_keys_cmp};
    ghost use Rattle.top_rows.specs.ShortEntries.{AreShort};
    ghost use Rattle.top_rows.specs.SortKeys.{sort_keys_of};
    ghost use Rattle.top_rows.specs.declared.sort_key.SortKey.{SortKey};

    /// How many sort keys there are.
    ghost count: { ℕ };

    /// The sort keys.
    ghost sort_keys: { Self → List SortKey };

    /// The sort keys of a row, if there are as many and all are short.
    fn of<R: RowView>(order: &[OrderBy], row: &R) -> Option<Self>
        ensures { MatchOption result (AreShort count (sort_keys_of order.now (R.cells row.now)) → ⊥)
            (λ keys. sort_keys_of order.now (R.cells row.now) ≡ sort_keys keys) };

    /// The sort keys as they are stored with others that aren't short.
    fn widened(&self, alloc: Global) -> Result<SortKeyList, AllocError>
        ensures { IfOk result (λ keys. keys ≡ sort_keys self.now) };

    /// The values are ordered as the sort keys are.
    ghost ordered: { (x y : Self) → sort_keys_cmp (sort_keys x) (sort_keys y) ≡ Self.cmp x y };
}

impl ShortKeys for ShortKey {
    ghost use Rattle.top_rows.specs.ShortEntries.{one-ordered, sort_keys_of_one};

    ghost count = { 1 };

    ghost sort_keys = { sort_keys_of_one };

    ghost ordered = { one-ordered };

    fn of<R: RowView>(order: &[OrderBy], row: &R) -> Option<ShortKey> {
        match order {
            [by] => ShortKey::of(row, by),
            _ => None,
        }
    }

    fn widened(&self, alloc: Global) -> Result<SortKeyList, AllocError> {
        SortKeyList::of_short(alloc, self)
    }
}

impl ShortKeys for (ShortKey, ShortKey) {
    ghost use Rattle.top_rows.specs.ShortEntries.{sort_keys_of_two, two-ordered};

    ghost count = { 2 };

    ghost sort_keys = { sort_keys_of_two };

    ghost ordered = { two-ordered };

    fn of<R: RowView>(order: &[OrderBy], row: &R) -> Option<(ShortKey, ShortKey)> {
        match order {
            [first, second] => Some((ShortKey::of(row, first)?, ShortKey::of(row, second)?)),
            _ => None,
        }
    }

    fn widened(&self, alloc: Global) -> Result<SortKeyList, AllocError> {
        let first = self.0.widened(alloc)?;
        let second = self.1.widened(alloc)?;
        Ok(SortKeyList::with_two(first, second, Vec::new(alloc)))
    }
}
