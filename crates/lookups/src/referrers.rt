//! The numbers of rows by the keys that the rows hold.

ghost use Rattle.lookups.specs.Keeping.{Keeps, holds, is_key};
ghost use Rattle.lookups.specs.ReferrersParts.{rows_with};
ghost use Rattle.lookups.specs.Refers.{
  IsOrdered,
  RowsByKey,
  found_at,
  is_among,
  is_bare,
  key_cmp,
  numbers_of,
  refers,
};
ghost use Rattle.std.specs.BTreeMap.{is_at};
ghost use Rattle.std.specs.List.{list_any};
ghost use Rattle.std.specs.List.Sorted.{IsStrictlySortedBy};
ghost use Rattle.std.specs.Ordering.{nat_cmp};
ghost use Rattle.std.specs.Prelude.{
  ◌≡◌,
  ◌==◌,
  ◌&&◌,
  ◌||◌,
  ◌∷◌,
  [],
  cond,
  false,
  true,
  IfOk,
  None,
  OnErr,
  OnOk,
  Some,
  ℕ,
};
ghost use Rattle.values.specs.CellViews.{shallow, viewed};
ghost use Rattle.values.specs.Datum.{Datum};
ghost use Rattle.values.specs.Keys.{key_of};
ghost use Rattle.values.specs.declared.key.Key.{Key};
ghost use Rattle.view_lang.specs.Shifts.{FollowsShift, NumberedRows, shift};

use crate::numbers::NumberSet;
use crate::parts::{KeyNumbers, ReferrersParts};
use std::alloc::{AllocError, Global};
use std::collections::{BTreeMap, BTreeSet};
use std::marker::Model;
use values::{CellView, Key, KeyBuffer};
use view_lang::{Change, RowChange, RowView, Upkeep};

/// The numbers of a table's rows by the key that each holds in a column. Contracts see the numbers of each key.
///
/// A key is dropped with its last number, so what is stored doesn't depend on the changes that led to it.
#[derive(Debug, Drop)]
pub struct Referrers {
    alloc: Global,
    rows: BTreeMap<Key, NumberSet>,
    sought: KeyBuffer,
}

impl Model for Referrers {
    ghost use Rattle.lookups.specs.Refers.{HasNumbers, RowsByKey};

    ghost Value = { RowsByKey };

    ghost view = { λ r. r.rows.entries };

    ghost invariant = { λ r. HasNumbers r.rows.entries };
}

impl Referrers {
    /// The referrers of no rows.
    pub fn new(alloc: Global) -> Referrers
        ensures none { result ≡ [] }
        ensures kept { Keeps result [] }
    {
        Referrers {
            alloc,
            rows: BTreeMap::new(alloc),
            sought: KeyBuffer::new(alloc),
        }
    }

    /// Takes the referrers apart. The parts are all that they store. If memory is refused, they are lost.
    pub fn into_parts(self) -> Result<ReferrersParts, AllocError>
        ensures value { IfOk result (λ parts. rows_with parts ≡ self) }
        ensures ordered { IfOk result (λ parts. IsOrdered (rows_with parts)) }
    {
        let Referrers {
            alloc,
            rows,
            sought: _sought,
        } = self;
        let mut keys = Vec::with_capacity(alloc, rows.len())?;
        for (key, numbers) in rows {
            let numbers = numbers.to_vec(alloc)?;
            keys.push(KeyNumbers { key, numbers })?;
        }
        Ok(ReferrersParts { keys })
    }

    /// Makes the `Referrers` that have these parts.
    pub fn from_parts(alloc: Global, parts: ReferrersParts) -> Result<Referrers, AllocError>
        requires { IsOrdered (rows_with parts) }
        ensures { IfOk result (λ referrers. referrers ≡ rows_with parts) }
    {
        let mut rows = BTreeMap::new(alloc);
        for KeyNumbers { key, numbers } in parts.keys {
            rows.insert(key, NumberSet::of(alloc, numbers)?)?;
        }
        Ok(Referrers {
            alloc,
            rows,
            sought: KeyBuffer::new(alloc),
        })
    }

    /// Adds a row's number to those of the key that the row holds. If memory is refused, nothing has changed.
    pub fn add(&mut self, key: Key, number: usize) -> Result<(), AllocError>
        ensures here { OnOk result ((n : ℕ) → refers self.new key n ≡ cond (n == number) true (refers self.old key n)) }
        ensures others { (k : Key) → is_at (key_cmp key) k ≡ false → found_at self.new k ≡ found_at self.old k }
        ensures err { OnErr result (self.new ≡ self.old) }
    {
        put_number(&mut self.rows, self.alloc, &key, number)?;
        Ok(())
    }

    /// Removes a row's number from those of a key. It takes no memory.
    pub fn remove(&mut self, key: &Key, number: usize)
        ensures here { (n : ℕ) → refers self.new key.now n ≡ cond (n == number) false (refers self.old key.now n) }
        ensures others { (k : Key) → is_at (key_cmp key.now) k ≡ false → found_at self.new k ≡ found_at self.old k }
    {
        take_number(&mut self.rows, key, number);
    }

    /// Inserts a row of one cell with a number that no row has. If memory is refused, nothing has changed.
    pub fn come(&mut self, number: usize, cell: CellView<'_>) -> Result<(), AllocError>
        ensures kept { OnOk result ((rows : NumberedRows) (held : Datum) → viewed cell.entry ≡ shallow held
            → FollowsShift (Keeps self.old) (Keeps self.new) (shift number None (Some (held ∷ []))) rows) }
        ensures err { OnErr result (self.new ≡ self.old) }
    {
        self.put(number, cell)?;
        Ok(())
    }

    /// Deletes the row of a number, which has this cell. If memory is refused, nothing has changed.
    pub fn go(&mut self, number: usize, cell: CellView<'_>) -> Result<(), AllocError>
        ensures kept { OnOk result ((rows : NumberedRows) (held : Datum) → viewed cell.entry ≡ shallow held
            → FollowsShift (Keeps self.old) (Keeps self.new) (shift number (Some (held ∷ [])) None) rows) }
        ensures err { OnErr result (self.new ≡ self.old) }
    {
        self.take(number, cell)?;
        Ok(())
    }

    /// Adds a row's number to those of the key in a cell, if it is a key.
    fn put(&mut self, number: usize, cell: CellView<'_>) -> Result<(), AllocError>
        ensures rows { OnOk result ((k : Key) (n : ℕ) → refers self.new k n
            ≡ cond (is_key k (key_of (viewed cell.entry)) && n == number) true (refers self.old k n)) }
        ensures err { OnErr result (self.new ≡ self.old) }
    {
        let Some(held) = self.sought.key_of(cell)? else {
            return Ok(());
        };
        put_number(&mut self.rows, self.alloc, held, number)?;
        Ok(())
    }

    /// Removes a row's number from those of the key in a cell, if it is a key.
    fn take(&mut self, number: usize, cell: CellView<'_>) -> Result<(), AllocError>
        ensures rows { OnOk result ((k : Key) (n : ℕ) → refers self.new k n
            ≡ cond (is_key k (key_of (viewed cell.entry)) && n == number) false (refers self.old k n)) }
        ensures err { OnErr result (self.new ≡ self.old) }
    {
        let Some(held) = self.sought.key_of(cell)? else {
            return Ok(());
        };
        take_number(&mut self.rows, held, number);
        Ok(())
    }

    /// The numbers of the rows that hold the key, in ascending order.
    #[tactic(auto, using(crate::proofs::NoNumbers::none_ascends))]
    pub fn of_key(&self, alloc: Global, key: &Key) -> Result<Vec<usize>, AllocError>
        ensures numbers { IfOk result (λ numbers. numbers.items ≡ numbers_of self.now key.now) }
        ensures ascending { IfOk result (λ numbers. IsStrictlySortedBy nat_cmp numbers.items) }
        ensures ordered { IsOrdered self.now }
    {
        // It does nothing: the proof takes from it that the keys ascend.
        let _keys = self.rows.len();
        match self.rows.get(key) {
            Some(numbers) => Ok(numbers.to_vec(alloc)?),
            None => Ok(Vec::new(alloc)),
        }
    }

    /// The numbers of the rows that hold one of the keys, in ascending order. A key that is given again is skipped, so
    /// the time is bounded by the number of keys and of rows.
    pub fn of_keys(&self, alloc: Global, keys: &[Key]) -> Result<Vec<usize>, AllocError>
        ensures numbers { IfOk result (λ numbers.
            (n : ℕ) → is_among numbers.items n ≡ list_any (λ k. refers self.now k n) keys.now) }
        ensures ascending { IfOk result (λ numbers. IsStrictlySortedBy nat_cmp numbers.items) }
    {
        let mut seen = BTreeSet::new(alloc);
        let mut numbers = NumberSet::none(alloc);
        for key in keys {
            if seen.insert(key)? {
                self.gather(&mut numbers, key)?;
            }
        }
        Ok(numbers.to_vec(alloc)?)
    }

    /// Adds the numbers of the rows that hold a key.
    fn gather(&self, numbers: &mut NumberSet, key: &Key) -> Result<(), AllocError>
        ensures { OnOk result
            ((n : ℕ) → is_among numbers.new n ≡ (is_among numbers.old n || refers self.now key.now n)) }
    {
        match self.rows.get(key) {
            Some(found) => numbers.add_all(found),
            None => Ok(()),
        }
    }

    /// Removes the row before a change from those of its key, if there was one.
    fn remove_before(&mut self, changed: &RowChange) -> Result<(), AllocError>
        ensures { OnOk result ((k : Key) (n : ℕ) → refers self.new k n
            ≡ cond (holds k changed.now.before && n == changed.now.number) false (refers self.old k n)) }
    {
        if let Some(row) = changed.before() {
            self.take(changed.number(), row.cell(0))?;
        }
        Ok(())
    }

    /// Adds the row after a change to those of its key, if there is one.
    fn add_after(&mut self, changed: &RowChange) -> Result<(), AllocError>
        ensures { OnOk result ((k : Key) (n : ℕ) → refers self.new k n
            ≡ cond (holds k changed.now.after && n == changed.now.number) true (refers self.old k n)) }
    {
        if let Some(row) = changed.after() {
            self.put(changed.number(), row.cell(0))?;
        }
        Ok(())
    }

    /// Applies the change of one row. It is removed before it is added, so that a row that keeps its key is there in
    /// the end.
    fn change_row(&mut self, changed: &RowChange) -> Result<(), AllocError>
        ensures { OnOk result ((rows : NumberedRows)
            → FollowsShift (Keeps self.old) (Keeps self.new) changed.now rows) }
    {
        self.remove_before(changed)?;
        self.add_after(changed)?;
        Ok(())
    }
}

/// Rows are stored by the key in their first cell. A row whose first cell is a list or a struct has none.
impl Upkeep for Referrers {
    ghost use Rattle.lookups.specs.Keeping.{Keeps};
    ghost use Rattle.std.specs.Prelude.{OnOk};
    ghost use Rattle.view_lang.specs.Shifts.{Fits, NumberedRows, patched};

    ghost keeps = { Keeps };

    fn apply(&mut self, change: &Change) -> Result<(), AllocError>
        ensures kept { OnOk result ((rows : NumberedRows) → Fits rows change.now → Keeps self.old rows
            → Keeps self.new (patched rows change.now)) }
    {
        for changed in change.rows() {
            self.change_row(changed)?;
        }
        Ok(())
    }
}

/// Adds a number under a key. If memory is refused, nothing has changed.
fn put_number(
    rows: &mut BTreeMap<Key, NumberSet>,
    alloc: Global,
    key: &Key,
    number: usize,
) -> Result<(), AllocError>
    ensures here { OnOk result ((n : ℕ) → refers rows.new.entries key.now n
        ≡ cond (n == number) true (refers rows.old.entries key.now n)) }
    ensures others { (k : Key) → is_at (key_cmp key.now) k ≡ false
        → found_at rows.new.entries k ≡ found_at rows.old.entries k }
    ensures err { OnErr result (rows.new.entries ≡ rows.old.entries) }
    ensures ascending { OnOk result (IsStrictlySortedBy nat_cmp (numbers_of rows.new.entries key.now)) }
{
    if let Some(numbers) = rows.get_mut(key) {
        numbers.insert(number)?;
        return Ok(());
    }
    let key = key.copy(alloc)?;
    rows.insert(key, NumberSet::one(alloc, number)?)?;
    Ok(())
}

/// Removes a number from those of a key, and the key with its last number.
#[tactic(auto, using(crate::proofs::NoNumbers::none_ascends))]
fn take_number(rows: &mut BTreeMap<Key, NumberSet>, key: &Key, number: usize)
    ensures here { (n : ℕ) → refers rows.new.entries key.now n
        ≡ cond (n == number) false (refers rows.old.entries key.now n) }
    ensures not_bare { is_bare (found_at rows.new.entries key.now) ≡ false }
    ensures ascending { IsStrictlySortedBy nat_cmp (numbers_of rows.new.entries key.now) }
    ensures others { (k : Key) → is_at (key_cmp key.now) k ≡ false
        → found_at rows.new.entries k ≡ found_at rows.old.entries k }
{
    let Some(numbers) = rows.get_mut(key) else {
        return;
    };
    numbers.remove(number);
    if numbers.is_empty() {
        drop(rows.remove(key));
    }
}
