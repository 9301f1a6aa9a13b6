//! Entries of rows whose sort keys are short.

ghost use Rattle.std.specs.Prelude.{◌≡◌, [], IfOk, map, OnErr, take, true, false};
ghost use Rattle.std.specs.BTreeMap.{is_at};
ghost use Rattle.std.specs.BTreeSet.{insert_key};
ghost use Rattle.std.specs.List.Sorted.{IsStrictlySortedBy};
ghost use Rattle.std.specs.Set.{remove_key};
ghost use Rattle.top_rows.specs.EntryOrder.{RowEntry, entry_cmp};
ghost use Rattle.top_rows.specs.Places.{place_of};
ghost use Rattle.top_rows.specs.ShortEntries.{AreShort};
ghost use Rattle.top_rows.specs.SortKeys.{sort_keys_of};

use crate::entry::OrderEntry;
use crate::short_keys::ShortKeys;
use std::alloc::{AllocError, Global};
use std::collections::BTreeSet;
use std::marker::Model;
use view_lang::{OrderBy, RowView};

/// Entries of rows whose sort keys are short, as pairs of these and the row's number. Contracts see the entries,
/// ascending.
#[derive(Debug, Drop)]
pub(crate) struct ShortEntries<K: ShortKeys> {
    pairs: BTreeSet<(K, usize)>,
}

impl<K: ShortKeys> Model for ShortEntries<K> {
    ghost use Rattle.std.specs.Prelude.{List, map};
    ghost use Rattle.top_rows.specs.EntryOrder.{RowEntry};
    ghost use Rattle.top_rows.specs.ShortEntries.{short_entry};

    ghost Value = { List RowEntry };

    ghost view = { λ s. map (short_entry K.sort_keys) s.pairs.keys };
}

impl<K: ShortKeys> ShortEntries<K> {
    /// No entries.
    pub(crate) fn new(alloc: Global) -> ShortEntries<K>
        ensures { result ≡ [] }
    {
        ShortEntries {
            pairs: BTreeSet::new(alloc),
        }
    }

    /// Inserts the entry of a row, if its sort keys are short, and returns whether they are. If memory is refused,
    /// nothing has changed.
    pub(crate) fn insert<R: RowView>(
        &mut self,
        order: &[OrderBy],
        number: usize,
        row: &R,
    ) -> Result<bool, AllocError>
        ensures done { IfOk result (λ done. done ≡ true
            → self.new ≡ insert_key entry_cmp self.old (place_of order.now number (R.cells row.now))) }
        ensures left { IfOk result (λ done. done ≡ false → self.new ≡ self.old) }
        ensures long { IfOk result (λ done. done ≡ false
            → AreShort K.count (sort_keys_of order.now (R.cells row.now)) → ⊥) }
        ensures err { OnErr result (self.new ≡ self.old) }
    {
        let Some(keys) = K::of(order, row) else {
            return Ok(false);
        };
        self.pairs.insert((keys, number))?;
        Ok(true)
    }

    /// Removes the entry of a row, if its sort keys are short, and returns whether they are.
    pub(crate) fn remove<R: RowView>(&mut self, order: &[OrderBy], number: usize, row: &R) -> bool
        ensures done { result ≡ true → self.new
            ≡ remove_key (is_at (entry_cmp (place_of order.now number (R.cells row.now)))) self.old }
        ensures left { result ≡ false → self.new ≡ self.old }
        ensures long { result ≡ false → AreShort K.count (sort_keys_of order.now (R.cells row.now)) → ⊥ }
    {
        let Some(keys) = K::of(order, row) else {
            return false;
        };
        let _there = self.pairs.remove(&(keys, number));
        true
    }

    /// The entries as they are stored with others whose sort keys aren't short.
    pub(crate) fn widened(&self, alloc: Global) -> Result<BTreeSet<OrderEntry>, AllocError>
        ensures { IfOk result (λ entries. entries.keys ≡ self.now) }
    {
        let _size = self.pairs.len();
        let mut entries = BTreeSet::new(alloc);
        for (keys, number) in self.pairs.iter() {
            entries.insert(OrderEntry::new(keys.widened(alloc)?, *number))?;
        }
        Ok(entries)
    }

    /// The entries ascend. It does nothing: its contract is the theorem.
    pub(crate) fn ascending_law(&self)
        ensures { IsStrictlySortedBy entry_cmp self.now }
    {
        let _size = self.pairs.len();
    }

    /// The numbers of the first rows, at most `most` of them.
    pub(crate) fn first(&self, alloc: Global, most: usize) -> Result<Vec<usize>, AllocError>
        ensures { IfOk result (λ numbers. numbers.items ≡ map (λ (p : RowEntry). p.1) (take most self.now)) }
    {
        let numbers = first_numbers(&self.pairs, alloc, most)?;
        Ok(numbers)
    }
}

/// The rows' numbers of the first pairs, at most `most` of them.
fn first_numbers<K: Ord>(
    pairs: &BTreeSet<(K, usize)>,
    alloc: Global,
    most: usize,
) -> Result<Vec<usize>, AllocError>
    ensures { IfOk result (λ numbers. numbers.items ≡ map (λ p. p.1) (take most pairs.now.keys)) }
{
    let mut numbers = Vec::new(alloc);
    for (_keys, number) in pairs.iter() {
        if numbers.len() == most {
            break;
        }
        numbers.push(*number)?;
    }
    Ok(numbers)
}
