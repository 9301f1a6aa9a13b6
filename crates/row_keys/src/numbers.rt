//! Numbers of rows by key.

ghost use Rattle.std.specs.Prelude.{
  ◌≡◌,
  ◌<◌,
  ◌≤◌,
  ◌-◌,
  [],
  All,
  IfOk,
  MatchOption,
  OnErr,
  OnOk,
  get_or,
  length,
  map,
  replicate,
  slice_set,
  take,
  true,
  false,
  ◌^◌,
  ◌+◌,
  ◌++◌,
  ◌∷◌,
  ℕ,
  filter,
  nat_lt,
  if◌then◌else◌,
};
ghost use Rattle.std.specs.List.Sorted.{IsPartitionPoint};
ghost use Rattle.std.specs.Vec.{vec_capacity, vec_len};
ghost use Rattle.values.specs.declared.key.Key.{Key};
ghost use Rattle.row_keys.specs.Entries.{AreInOrder, Changes, EndsAt, IsRetainedAt};
ghost use Rattle.row_keys.specs.Entries.{all_entries, entry_in, gone_entry, is_kept};
ghost use Rattle.row_keys.specs.Index.{HoldsPlace, IsFree, Puts, StartsWithNull, flagged};
ghost use Rattle.row_keys.specs.Numbers.{
  AreDistinct,
  CanTurnOn,
  IsAt,
  IsUnused,
  Pushes,
  Replaces,
  live_count,
  no_row,
  turned,
};
ghost use Rattle.row_keys.specs.Parts.{AreNumbered, numbers_in, part_of};

use crate::key_table::KeyTable;
use crate::parts::RowParts;
use std::alloc::{AllocError, Global};
use std::marker::Model;
use values::Key;

/// What is stored for a row: the position of its key in the table of keys, whether it is live, and whether its key was
/// added to that table with it.
#[derive(Clone, Copy, Debug)]
struct Entry {
    key: usize,
    is_live: bool,
    is_new: bool,
}

/// The number of a row, and what is stored for it.
#[derive(Clone, Copy, Debug)]
struct RetainedEntry {
    number: usize,
    entry: Entry,
}

/// The entry of a released row: the position of the null key.
const GONE: Entry = Entry {
    key: 0,
    is_live: false,
    is_new: false,
};

/// The table of keys is rebuilt no sooner than this many keys belong to no row.
const FEW_KEYS: usize = 32;

/// How many rows there can be at most.
const MOST_ROWS: usize = (1 << 63) - 1;

/// Row numbers, each with its row's key and whether the row is live. Keys are stored once, also where retracted rows
/// had the same. Position 0 is that of the null key, which released rows have.
///
/// Contracts see a list of `Numbered`.
#[derive(Drop)]
pub(crate) struct Numbers {
    keys: KeyTable,
    // For each key the number of the row that was added last with it.
    holders: Vec<usize>,
    // By number. A row that isn't among them is released.
    kept: Vec<RetainedEntry>,
    len: usize,
    live: usize,
    // How many of the retained entries are those of released rows.
    gone: usize,
}

impl Model for Numbers {
    ghost use Rattle.std.specs.Prelude.{List};
    ghost use Rattle.row_keys.specs.Entries.{all_entries};
    ghost use Rattle.row_keys.specs.Index.{IsRetainedIndex, seen_all};
    ghost use Rattle.row_keys.specs.Numbers.{Numbered, numbers_code};

    ghost Value = { List Numbered };

    ghost coded = { numbers_code };

    ghost view = { λ s. seen_all s.keys (all_entries s.kept.items s.len) };

    ghost invariant = { λ s. IsRetainedIndex s.keys s.holders.items s.kept.items s.len s.live };
}

/// How many of these have smaller numbers.
fn count_below(kept: &[RetainedEntry], number: usize) -> usize
    requires { (len : ℕ) × AreInOrder 0 kept.now len }
    ensures { IsPartitionPoint (λ k. nat_lt k.number number ≡ true) (λ k. nat_lt k.number number ≡ false) kept.now
        result }
{
    kept.partition_point(
        |one: &RetainedEntry| -> bool
            ensures { result ≡ nat_lt one.now.number number }
        { one.number < number },
    )
}

/// Whether the entry at a position is that of this number.
fn is_at(kept: &[RetainedEntry], place: usize, number: usize) -> bool
    ensures yes { result ≡ true → IsRetainedAt kept.now number place }
    ensures no { result ≡ false → IsRetainedAt kept.now number place → ⊥ }
{
    match kept.get(place) {
        Some(one) => one.number == number,
        None => false,
    }
}

/// The position of the entry of this number where none from it on was removed.
fn place_from_end(kept: &[RetainedEntry], number: usize) -> usize {
    let [.., last] = kept else {
        return 0;
    };
    let after = last.number.saturating_sub(number);
    kept.len().saturating_sub(1).saturating_sub(after)
}

/// The position of the entry of this number, if it is retained.
fn place_of(kept: &[RetainedEntry], number: usize) -> Option<usize>
    requires { (len : ℕ) × AreInOrder 0 kept.now len }
    ensures { MatchOption result (entry_in kept.now number ≡ gone_entry) (IsRetainedAt kept.now number) }
{
    // Where no entry before it was removed, its position is the number itself.
    if is_at(kept, number, number) {
        return Some(number);
    }
    let last = place_from_end(kept, number);
    if is_at(kept, last, number) {
        return Some(last);
    }
    let place = count_below(kept, number);
    if is_at(kept, place, number) {
        Some(place)
    } else {
        None
    }
}

/// The least number from this one on that has an entry; `len` where there is none.
fn next_retained(kept: &[RetainedEntry], number: usize, len: usize) -> usize
    requires order { AreInOrder 0 kept.now len }
    requires inside { number ≤ len }
    ensures from { number ≤ result }
    ensures within { result ≤ len }
    ensures gone { (k : ℕ) → number ≤ k → k < result → entry_in kept.now k ≡ gone_entry }
{
    // Where no entry before it was removed, its position is the number itself.
    if is_at(kept, number, number) {
        return number;
    }
    match kept.get(count_below(kept, number)) {
        Some(one) => one.number,
        None => len,
    }
}

/// The entry of this number.
fn entry_at(kept: &[RetainedEntry], number: usize) -> Entry
    requires { (len : ℕ) × AreInOrder 0 kept.now len }
    ensures { result ≡ entry_in kept.now number }
{
    match place_of(kept, number) {
        Some(place) => kept[place].entry,
        None => GONE,
    }
}

/// The number of the live row with the key at this position, if any.
fn holder(holders: &[usize], kept: &[RetainedEntry], place: usize) -> Option<usize>
    requires { (len : ℕ) × AreInOrder 0 kept.now len }
    ensures { (len : ℕ) → AreInOrder 0 kept.now len
        → MatchOption result (IsFree holders.now (all_entries kept.now len) place)
        (HoldsPlace (all_entries kept.now len) place) }
{
    let number = *holders.get(place)?;
    let entry = entry_at(kept, number);
    if entry.key == place && entry.is_live {
        Some(number)
    } else {
        None
    }
}

/// Makes a row the holder of the key at this position, which has a holder or is the next one.
#[tactic(auto, using(crate::proofs::Indexes::holding))]
fn hold(holders: &mut Vec<usize>, place: usize, number: usize)
    requires within { place ≤ length holders.old.items }
    requires room { vec_len holders.old < vec_capacity holders.old }
    ensures { Puts holders.old.items place number holders.new.items }
{
    if place == holders.len() {
        holders.push(number).unwrap();
    } else {
        holders[place] = number;
    }
}

/// Replaces the entry at a position, which is retained.
fn set_entry(kept: &mut Vec<RetainedEntry>, place: usize, entry: Entry)
    requires { place < length kept.old.items }
    ensures { (number : ℕ) → IsRetainedAt kept.old.items number place
        → Changes kept.old.items number entry kept.new.items }
{
    let number = kept[place].number;
    kept[place] = RetainedEntry { number, entry };
}

/// Makes the row of this number live, or retracted.
fn set_live(kept: &mut Vec<RetainedEntry>, number: usize, is_live: bool)
    requires order { (len : ℕ) × AreInOrder 0 kept.old.items len }
    requires kept { (entry_in kept.old.items number ≡ gone_entry) → is_live ≡ false }
    ensures order { (len : ℕ) → AreInOrder 0 kept.old.items len → AreInOrder 0 kept.new.items len }
    ensures flagged { (len : ℕ) → AreInOrder 0 kept.old.items len
        → all_entries kept.new.items len ≡ flagged is_live (all_entries kept.old.items len) number }
{
    match place_of(kept, number) {
        Some(place) => {
            let entry = kept[place].entry;
            set_entry(kept, place, Entry { is_live, ..entry });
        }
        None => {}
    }
}

/// Marks the entry of the row of this number as that of a released row. It returns whether there is one.
fn forget(kept: &mut Vec<RetainedEntry>, number: usize) -> bool
    requires order { (len : ℕ) × AreInOrder 0 kept.old.items len }
    ensures order { (len : ℕ) → AreInOrder 0 kept.old.items len → AreInOrder 0 kept.new.items len }
    ensures gone { (len : ℕ) → AreInOrder 0 kept.old.items len
        → all_entries kept.new.items len ≡ slice_set (all_entries kept.old.items len) number gone_entry }
{
    match place_of(kept, number) {
        Some(place) => {
            set_entry(kept, place, GONE);
            true
        }
        None => false,
    }
}

/// Whether the last entry is of this number.
fn ends_at(kept: &[RetainedEntry], number: usize) -> bool
    ensures { EndsAt kept.now number result }
{
    match kept.last() {
        Some(one) => one.number == number,
        None => false,
    }
}

/// Removes the entry of number `last`, above which there is none, if it is retained, and returns it.
fn pop_entry(kept: &mut Vec<RetainedEntry>, last: usize) -> Entry
    requires { AreInOrder 0 kept.old.items (last + 1) }
    ensures order { AreInOrder 0 kept.new.items last }
    ensures entries { all_entries kept.old.items (last + 1) ≡ all_entries kept.new.items last ++ result ∷ [] }
{
    if !ends_at(kept, last) {
        return GONE;
    }
    let Some(one) = kept.pop() else {
        return GONE;
    };
    one.entry
}

/// Adds the null key at position 0, unless it is there.
#[tactic(auto, using(crate::proofs::KeyTables::key_tables))]
fn place_null(keys: &mut KeyTable, holders: &mut Vec<usize>) -> Result<(), AllocError>
    requires { length holders.old.items ≡ length keys.old }
    ensures ok { OnOk result (StartsWithNull keys.old holders.old.items keys.new holders.new.items) }
    ensures err { OnErr result ((keys.new ≡ keys.old) × (holders.new.items ≡ holders.old.items)) }
{
    if !holders.is_empty() {
        return Ok(());
    }
    holders.reserve(1)?;
    keys.insert(Key::Null)?;
    holders.push(0).unwrap();
    Ok(())
}

/// How many rows there are with one more.
fn one_more(len: usize) -> Result<usize, AllocError>
    requires { len < 2 ^ 63 }
    ensures { IfOk result (λ more. (more ≡ len + 1) × (more < 2 ^ 63)) }
{
    if len >= MOST_ROWS {
        return Err(AllocError);
    }
    Ok(len + 1)
}

/// Removes the entries of released rows.
fn sweep(kept: &mut Vec<RetainedEntry>)
    ensures { kept.new.items ≡ filter is_kept kept.old.items }
{
    kept.retain(
        |one: &RetainedEntry| -> bool
            ensures { result ≡ is_kept one.now }
        { one.entry.key > 0 || one.entry.is_live || one.entry.is_new },
    );
}

/// What is stored for a row.
#[tactic(auto, using(crate::proofs::RetainedIndex::key_is))]
fn row_of(alloc: Global, keys: &KeyTable, one: &RetainedEntry) -> Result<RowParts, AllocError>
    requires { one.now.entry.key < length keys.now }
    ensures { IfOk result (λ row. row ≡ part_of keys.now one.now) }
{
    Ok(RowParts {
        number: one.number,
        key: keys.key_at(alloc, one.entry.key)?,
        is_live: one.entry.is_live,
    })
}

/// What is stored for all retained rows.
fn rows_of(
    alloc: Global,
    keys: &KeyTable,
    kept: &[RetainedEntry],
) -> Result<Vec<RowParts>, AllocError>
    requires { All (λ k. k.entry.key < length keys.now) kept.now }
    ensures { IfOk result (λ rows. rows.items ≡ map (part_of keys.now) kept.now) }
{
    let mut rows = Vec::with_capacity(alloc, kept.len())?;
    for one in kept {
        rows.push(row_of(alloc, keys, one)?)?;
    }
    Ok(rows)
}

fn count(is_live: bool) -> usize
    ensures { result ≡ (if is_live then 1 else 0) }
{
    if is_live { 1 } else { 0 }
}

/// How many of `keys` keys remain when the last row is removed: its own is removed if it was added with it.
fn keys_left(entry: Entry, keys: usize) -> usize
    ensures { result ≡ (if entry.is_new then entry.key else keys) }
{
    if entry.is_new { entry.key } else { keys }
}

impl Numbers {
    pub(crate) fn new(alloc: Global) -> Numbers
        ensures { result ≡ [] }
    {
        Numbers {
            keys: KeyTable::new(alloc),
            holders: Vec::new(alloc),
            kept: Vec::new(alloc),
            len: 0,
            live: 0,
            gone: 0,
        }
    }

    /// The number of rows.
    pub(crate) fn len(&self) -> usize
        ensures value { result ≡ length self.now }
        ensures bound { result < 2 ^ 63 }
    {
        let _keys = &self.keys;
        self.len
    }

    /// The least number from this one on that has an entry; the number of rows where there is none. Those before it
    /// aren't live.
    pub(crate) fn next_retained(&self, number: usize) -> usize
        requires { number ≤ length self.now }
        ensures from { number ≤ result }
        ensures within { result ≤ length self.now }
        ensures dead { (k : ℕ) → number ≤ k → k < result → (get_or self.now k no_row).live ≡ false }
    {
        let _keys = &self.keys;
        next_retained(&self.kept, number, self.len)
    }

    /// Whether a row is live.
    pub(crate) fn is_live(&self, number: usize) -> bool
        requires { number < length self.now }
        ensures { result ≡ (get_or self.now number no_row).live }
    {
        let _keys = &self.keys;
        entry_at(&self.kept, number).is_live
    }

    /// A copy of the key of a row: null where the row is released.
    pub(crate) fn key(&self, alloc: Global, number: usize) -> Result<Key, AllocError>
        requires { number < length self.now }
        ensures { IfOk result (λ key. key ≡ (get_or self.now number no_row).key) }
    {
        let entry = entry_at(&self.kept, number);
        let key = self.keys.key_at(alloc, entry.key)?;
        Ok(key)
    }

    /// What is stored for the rows, by their numbers.
    pub(crate) fn retained_rows(&self, alloc: Global) -> Result<Vec<RowParts>, AllocError>
        ensures order { IfOk result (λ rows. AreNumbered 0 rows.items (length self.now)) }
        ensures rows { IfOk result (λ rows. numbers_in rows.items (length self.now) ≡ self.now) }
    {
        let _len = self.len;
        let rows = rows_of(alloc, &self.keys, &self.kept)?;
        Ok(rows)
    }

    /// Whether most keys belong to no retained row.
    pub(crate) fn has_spare_keys(&self) -> bool {
        let left = self.kept.len().saturating_sub(self.gone);
        self.holders.len() / 2 > left.saturating_add(FEW_KEYS)
    }

    /// The number of live rows.
    pub(crate) fn live(&self) -> usize
        ensures { result ≡ live_count self.now }
    {
        let _keys = &self.keys;
        self.live
    }

    /// Two live rows have different keys. It does nothing: its contract is the theorem.
    pub(crate) fn distinct_law(&self)
        ensures { AreDistinct self.now }
    {
        self.keys.distinct_law();
        let _live = self.live;
    }

    /// The number of the live row with this key.
    pub(crate) fn find(&self, key: &Key) -> Option<usize>
        ensures { MatchOption result (IsUnused self.now key.now) (λ n. IsAt self.now n key.now true) }
    {
        self.keys.distinct_law();
        match self.keys.find(key) {
            Some(place) => holder(&self.holders, &self.kept, place),
            None => None,
        }
    }

    /// Adds a live row with this key, unless there is one, and returns the number of that one.
    pub(crate) fn push(&mut self, key: Key) -> Result<Option<usize>, AllocError>
        ensures pushed { IfOk result (λ found. Pushes self.old key found self.new) }
        ensures err { OnErr result (self.new ≡ self.old) }
    {
        let len = one_more(self.len)?;
        self.kept.reserve(1)?;
        place_null(&mut self.keys, &mut self.holders)?;
        self.keys.distinct_law();
        self.holders.reserve(1)?;
        let place = self.keys.insert(key)?;
        let is_new = place == self.holders.len();
        match holder(&self.holders, &self.kept, place) {
            Some(number) => return Ok(Some(number)),
            None => {}
        }
        hold(&mut self.holders, place, self.len);
        let entry = Entry {
            key: place,
            is_live: true,
            is_new,
        };
        self.kept
            .push(RetainedEntry {
                number: self.len,
                entry,
            })
            .unwrap();
        self.len = len;
        self.live += 1;
        Ok(None)
    }

    /// Retracts a live row, and adds a live one with its key.
    pub(crate) fn replace(&mut self, replaced: usize) -> Result<(), AllocError>
        requires { (key : Key) × IsAt self.old replaced key true }
        ensures ok { OnOk result (Replaces self.old replaced self.new) }
        ensures err { OnErr result (self.new ≡ self.old) }
    {
        let len = one_more(self.len)?;
        let place = entry_at(&self.kept, replaced).key;
        let entry = Entry {
            key: place,
            is_live: true,
            is_new: false,
        };
        self.kept.push(RetainedEntry {
            number: self.len,
            entry,
        })?;
        set_live(&mut self.kept, replaced, false);
        self.holders[place] = self.len;
        self.len = len;
        Ok(())
    }

    /// Adds released rows, up to this number.
    pub(crate) fn skip_to(&mut self, number: usize) -> Result<(), AllocError>
        requires from { length self.old ≤ number }
        requires bound { number < 2 ^ 63 }
        ensures ok { OnOk result (self.new ≡ self.old ++ replicate (number - length self.old) no_row) }
        ensures err { OnErr result (self.new ≡ self.old) }
    {
        place_null(&mut self.keys, &mut self.holders)?;
        self.len = number;
        Ok(())
    }

    /// Removes the last row.
    fn pop(&mut self)
        ensures { self.new ≡ take (length self.old - 1) self.old }
    {
        if self.len == 0 {
            return;
        }
        let last = self.len - 1;
        let entry = pop_entry(&mut self.kept, last);
        self.len = last;
        let keys = keys_left(entry, self.holders.len());
        self.keys.truncate(keys);
        self.holders.truncate(keys);
        self.live -= count(entry.is_live);
    }

    /// Removes all rows but the first `len`. It takes no memory.
    pub(crate) fn truncate(&mut self, len: usize)
        ensures { self.new ≡ take len self.old }
    {
        while self.len() > len {
            self.pop();
        }
    }

    /// Retracts a live row. It takes no memory.
    pub(crate) fn retract(&mut self, number: usize)
        requires { (key : Key) × IsAt self.old number key true }
        ensures { self.new ≡ turned false self.old number }
    {
        set_live(&mut self.kept, number, false);
        self.live -= 1;
    }

    /// Drops the key of a row that isn't live: the row is then released. It takes no memory.
    pub(crate) fn release(&mut self, number: usize)
        requires there { number < length self.old }
        requires out { (get_or self.old number no_row).live ≡ false }
        ensures { self.new ≡ slice_set self.old number no_row }
    {
        if forget(&mut self.kept, number) {
            self.gone = self.gone.saturating_add(1);
        }
    }

    /// Removes the entries of released rows, where they are many. It takes no memory.
    pub(crate) fn tidy(&mut self)
        ensures { self.new ≡ self.old }
    {
        if self.gone > self.kept.len() / 2 {
            sweep(&mut self.kept);
            self.gone = 0;
        }
    }

    /// Makes a retracted row live, which isn't released, and whose key no live row has. It takes no memory.
    pub(crate) fn revive(&mut self, number: usize)
        requires { CanTurnOn self.old number }
        ensures { self.new ≡ turned true self.old number }
    {
        let place = entry_at(&self.kept, number).key;
        self.holders[place] = number;
        set_live(&mut self.kept, number, true);
        self.live += 1;
    }
}
