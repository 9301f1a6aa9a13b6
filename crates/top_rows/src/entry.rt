//! Entries of an order.

ghost use Rattle.std.specs.Prelude.{◌≡◌, IfOk};
ghost use Rattle.top_rows.specs.OrderParts.{entry_with};
ghost use Rattle.top_rows.specs.Places.{place_of};

use crate::parts::OrderEntryParts;
use crate::sort_key_list::SortKeyList;
use std::alloc::{AllocError, Global};
use std::cmp::Ordering;
use std::marker::Model;
use view_lang::{OrderBy, RowView};

/// The entry of a row in an order: its sort keys, one for each of the order's columns, and its number, by which ties
/// are broken. Contracts see the pair of both. Most entries are told apart by the rank of their sort keys.
#[derive(Debug, Drop)]
pub(crate) struct OrderEntry {
    rank: u64,
    number: usize,
    sort_keys: SortKeyList,
}

impl Model for OrderEntry {
    ghost use Rattle.top_rows.specs.EntryOrder.{RowEntry};
    ghost use Rattle.top_rows.specs.Ranks.{IsRank};

    ghost Value = { RowEntry };

    ghost view = { λ p. (p.sort_keys, p.number) };

    ghost invariant = { λ p. IsRank p.sort_keys p.rank };
}

impl PartialEq for OrderEntry {
    ghost use Rattle.std.specs.Cmp.{eq_by_cmp_equiv, partial_equiv_from_equiv};
    ghost use Rattle.std.specs.Ordering.{eq_by_cmp};
    ghost use Rattle.top_rows.specs.EntryOrder.{entry_cmp, entry_total};

    ghost eq = { eq_by_cmp entry_cmp };

    ghost laws = { partial_equiv_from_equiv (eq_by_cmp_equiv entry_total) };

    fn eq(&self, other: &OrderEntry) -> bool {
        matches!(self.cmp(other), Ordering::Equal)
    }
}

impl Eq for OrderEntry {
    ghost use Rattle.std.specs.Cmp.{eq_by_cmp_equiv};
    ghost use Rattle.top_rows.specs.EntryOrder.{entry_total};

    ghost laws = { eq_by_cmp_equiv entry_total };
}

impl PartialOrd for OrderEntry {
    ghost use Rattle.std.specs.Cmp.{partial_order_from_total};
    ghost use Rattle.std.specs.Ordering.{as_partial_cmp};
    ghost use Rattle.top_rows.specs.EntryOrder.{entry_cmp, entry_total};

    ghost partial_cmp = { as_partial_cmp entry_cmp };

    ghost laws = { partial_order_from_total entry_total };

    fn partial_cmp(&self, other: &OrderEntry) -> Option<Ordering> {
        Some(self.cmp(other))
    }
}

impl Ord for OrderEntry {
    ghost use Rattle.std.specs.Prelude.{refl};
    ghost use Rattle.top_rows.specs.EntryOrder.{entry_cmp, entry_total};

    ghost cmp = { entry_cmp };

    ghost total = { entry_total };

    ghost matches_partial_cmp = { λ x y. refl };

    ghost matches_eq = { λ x y. refl };

    fn cmp(&self, other: &OrderEntry) -> Ordering {
        match self.rank.cmp(&other.rank) {
            Ordering::Equal => self
                .sort_keys
                .cmp(&other.sort_keys)
                .then(self.number.cmp(&other.number)),
            unlike => unlike,
        }
    }
}

impl OrderEntry {
    /// The entry of these sort keys and this number.
    pub(crate) fn new(sort_keys: SortKeyList, number: usize) -> OrderEntry
        ensures { result ≡ (sort_keys, number) }
    {
        OrderEntry {
            rank: sort_keys.rank(),
            number,
            sort_keys,
        }
    }

    /// The entry of a row.
    pub(crate) fn of<R: RowView>(
        alloc: Global,
        order: &[OrderBy],
        number: usize,
        row: &R,
    ) -> Result<OrderEntry, AllocError>
        ensures { IfOk result (λ entry. entry ≡ place_of order.now number (R.cells row.now)) }
    {
        Ok(OrderEntry::new(SortKeyList::of(alloc, order, row)?, number))
    }

    pub(crate) fn from_parts(alloc: Global, parts: OrderEntryParts) -> OrderEntry
        ensures { result ≡ entry_with parts }
    {
        let OrderEntryParts { sort_keys, number } = parts;
        OrderEntry::new(SortKeyList::from_list(alloc, sort_keys), number)
    }

    pub(crate) fn into_parts(self) -> Result<OrderEntryParts, AllocError>
        ensures { IfOk result (λ parts. entry_with parts ≡ self) }
    {
        let OrderEntry {
            sort_keys,
            number,
            ..
        } = self;
        let sort_keys = sort_keys.into_list()?;
        Ok(OrderEntryParts { sort_keys, number })
    }

    /// The row's number.
    pub(crate) fn number(&self) -> usize
        ensures { result ≡ self.now.1 }
    {
        self.number
    }
}
