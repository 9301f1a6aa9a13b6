//! Stores of rows.

ghost use Rattle.std.specs.Prelude.{
  ◌≡◌,
  ℕ,
  ◌++◌,
  ◌<◌,
  ◌≤◌,
  [],
  All,
  None,
  false,
  IfErr,
  IfOk,
  IfSome,
  MatchOption,
  OnErr,
  OnOk,
  get_or,
  length,
  map,
  true,
};
ghost use Rattle.std.specs.Map.{keys_of};
ghost use Rattle.values.specs.CellViews.{shallow, viewed};
ghost use Rattle.values.specs.Datum.{Datum};
ghost use Rattle.values.specs.Keys.{datum_of_key};
ghost use Rattle.values.specs.Limits.{max_main_rows};
ghost use Rattle.body_writer.specs.Locations.{IsLocated, IsRowAt, located_rows};
ghost use Rattle.body_writer.specs.RowRanges.{IsRange, ranges_rows};
ghost use Rattle.view_lang.specs.Causes.{cause_of};
ghost use Rattle.view_lang.specs.Contents.{applied, key_in, keys_in, without};
ghost use Rattle.view_lang.specs.Edits.{append, put, retract};
ghost use Rattle.view_lang.specs.Joined.{side_of};
ghost use Rattle.view_lang.specs.Laws.{AreKeyed};
ghost use Rattle.view_lang.specs.Rows.{IsRow};
ghost use Rattle.view_lang.specs.TableRules.{IsSideTable, IsTable};
ghost use Rattle.row_keys.specs.Batches.{AreKeys, IsBatch, batch_rows};
ghost use Rattle.row_keys.specs.Numbered.{numbered};
ghost use Rattle.row_keys.specs.Parts.{AreStoreParts, store_with};
ghost use Rattle.row_keys.specs.Locations.{row_if};
ghost use Rattle.row_keys.specs.LookedUp.{AreLive, found_rows, row_for};
ghost use Rattle.row_keys.specs.Slots.{
  AllOut,
  CanPutBack,
  CanRetract,
  CanRevert,
  CanShowPut,
  CanUndoPut,
  HasKey,
  IsLiveAt,
  IsOut,
  contents_of,
  emptied,
  keys_at,
  last_numbers,
  live,
  new_slot,
  no_slot,
  put_back,
  put_hidden,
  put_shown,
  put_undone,
  released,
  retracted,
  reverted,
  row_of,
};
ghost use Rattle.row_keys.specs.Store.{
  IsAbsent,
  IsFound,
  IsKnown,
  IsUnknown,
  Refuses,
  live_in,
  no_rows,
  visited,
  with_slots,
};

use crate::batches::keep_rows;
use crate::faults::EditFault;
use crate::key_columns::{
    check_keys, find_distinct, find_keys, push_batch, put_batch, take_back_put,
};
use crate::layouts::table_layouts;
use crate::locating::StoredLocations;
use crate::looking_up::look_up_all;
use crate::numbers::Numbers;
use crate::parts::{StoreParts, make_numbers, renumbered};
use crate::stored_row::{StoredRow, Visit, Visits};
use crate::stored_rows::StoredRows;
use crate::turning::{retract_all, retract_from, revive_all, revive_from};
use arrays::Column;
use body_writer::RowRange;
use std::alloc::{AllocError, Global};
use std::marker::Model;
use values::{CellView, Key, KeyBuffer, Row, Value};
use view_lang::{RowView, Table};

/// The rows of a table, by number. A row's number is its position in the order in which rows were added. Rows are live
/// or retracted; retracted rows keep their numbers, and can be restored.
///
/// Contracts see a `Store` of `specs/Store.antt`.
#[derive(Drop)]
pub struct RowStore {
    alloc: Global,
    table: Table,
    rows: StoredRows,
    numbers: Numbers,
    visits: u128,
}

impl Model for RowStore {
    ghost use Rattle.row_keys.specs.Store.{Store, store_code};
    ghost use Rattle.row_keys.specs.Stored.{IsStored, joined};

    ghost Value = { Store };

    ghost coded = { store_code };

    ghost view = { λ s. record {
      table = s.table;
      slots = joined s.rows s.numbers;
      visits = s.visits;
    } };

    ghost invariant = { λ s. IsStored s.table s.rows s.numbers };
}

impl RowStore {
    /// A store without rows.
    pub fn new(alloc: Global, table: Table) -> RowStore
        requires { IsTable table }
        ensures { result ≡ no_rows table }
    {
        RowStore {
            alloc,
            table,
            rows: StoredRows::new(alloc),
            numbers: Numbers::new(alloc),
            visits: 0,
        }
    }

    /// Takes the store apart. If memory is refused, it is lost.
    pub fn into_parts(self) -> Result<StoreParts, AllocError>
        ensures value { IfOk result (λ parts. store_with parts ≡ self) }
        ensures stored { IfOk result (λ parts. AreStoreParts parts) }
    {
        let RowStore {
            alloc,
            table,
            rows,
            numbers,
            visits,
        } = self;
        numbers.distinct_law();
        let kept = numbers.retained_rows(alloc)?;
        Ok(StoreParts {
            table,
            chunks: rows.into_chunks(),
            rows: kept,
            appended: numbers.len(),
            visits,
        })
    }

    /// Makes the store that has these parts. No row is opened.
    pub fn from_parts(alloc: Global, parts: StoreParts) -> Result<RowStore, AllocError>
        requires { AreStoreParts parts }
        ensures { IfOk result (λ store. store ≡ store_with parts) }
    {
        let StoreParts {
            table,
            chunks,
            rows,
            appended,
            visits,
        } = parts;
        let numbers = make_numbers(alloc, &rows, appended)?;
        Ok(RowStore {
            alloc,
            table,
            rows: StoredRows::from_chunks(alloc, chunks, appended),
            numbers,
            visits,
        })
    }

    /// The table whose rows these are.
    pub fn table(&self) -> &Table
        ensures value { result.now ≡ self.now.table }
        ensures right { IsTable self.now.table }
    {
        &self.table
    }

    /// What holds of the live rows. It does nothing: its contract is the theorem.
    pub fn rows_law(&self)
        ensures held { All (IsRow self.now.table.columns) (live_in self.now) }
        ensures table { IsTable self.now.table }
        ensures few { length (live_in self.now) ≤ self.now.table.max_rows }
        ensures keyed { AreKeyed self.now.table (contents_of self.now.slots) }
    {
        let _table = &self.table;
        self.numbers.distinct_law();
    }

    /// The allocator of the store.
    pub(crate) fn alloc(&self) -> Global {
        self.alloc
    }

    /// The number of live rows, at most 2^24. It takes no memory.
    pub fn len(&self) -> usize
        ensures value { result ≡ length (live_in self.now) }
        ensures bound { result ≤ max_main_rows }
    {
        let _table = &self.table;
        self.numbers.live()
    }

    /// How often a stored row was opened, as `visit` counts it. The count stops at its greatest number.
    pub fn visits(&self) -> u128
        ensures { result ≡ self.now.visits }
    {
        self.visits
    }

    /// The number of the live row with this key. It takes no memory.
    pub fn find(&self, key: &Key) -> Option<usize>
        ensures { MatchOption result (IsAbsent self.now key.now) (IsFound self.now key.now) }
    {
        let _table = &self.table;
        self.numbers.find(key)
    }

    /// Adds the rows of a batch as `append` does, in a chunk of their own.
    fn add_batch(&mut self, columns: Vec<Column>, rows: usize) -> Result<(), EditFault>
        requires { IsBatch self.old.table rows columns.items }
        ensures contents { OnOk result
            (contents_of self.new.slots ≡ applied self.old.table (append (batch_rows rows columns.items))
            (contents_of self.old.slots)) }
        ensures fits { OnOk result
            (cause_of self.old.table (contents_of self.old.slots) (append (batch_rows rows columns.items)) ≡ None) }
        ensures refused { IfErr result
            (Refuses (cause_of self.old.table (contents_of self.old.slots) (append (batch_rows rows columns.items)))) }
        ensures can_go_back { OnOk result (CanRevert rows self.new.slots) }
        ensures back { OnOk result (reverted rows self.new.slots ≡ self.old.slots) }
        ensures slots { OnOk result
            (self.new.slots ≡ self.old.slots ++ map new_slot (batch_rows rows columns.items)) }
        ensures rest { self.new ≡ with_slots self.old self.new.slots }
        ensures unchanged { OnErr result (self.new.slots ≡ self.old.slots) }
    {
        let before = self.numbers.len();
        let live = self.numbers.live();
        match push_batch(self.alloc, &self.table, &columns, rows, &mut self.numbers) {
            Ok(()) => {}
            Err(fault) => return Err(fault),
        }
        match keep_rows(&self.table, &mut self.rows, columns, rows, live, before) {
            Ok(()) => Ok(()),
            Err(fault) => {
                self.numbers.truncate(before);
                Err(fault)
            }
        }
    }

    /// Adds the `rows` rows of a batch after all rows. The error is the first cause for which they don't fit: a null
    /// key, a key that is there twice or is live, too many rows, a cell or a row that is too heavy; or it is `Memory`.
    /// On an error nothing has changed.
    pub fn append(&mut self, columns: Vec<Column>, rows: usize) -> Result<(), EditFault>
        requires { IsBatch self.old.table rows columns.items }
        ensures contents { OnOk result
            (contents_of self.new.slots ≡ applied self.old.table (append (batch_rows rows columns.items))
            (contents_of self.old.slots)) }
        ensures fits { OnOk result
            (cause_of self.old.table (contents_of self.old.slots) (append (batch_rows rows columns.items)) ≡ None) }
        ensures refused { IfErr result
            (Refuses (cause_of self.old.table (contents_of self.old.slots) (append (batch_rows rows columns.items)))) }
        ensures can_go_back { OnOk result (CanRevert rows self.new.slots) }
        ensures back { OnOk result (reverted rows self.new.slots ≡ self.old.slots) }
        ensures slots { OnOk result
            (self.new.slots ≡ self.old.slots ++ map new_slot (batch_rows rows columns.items)) }
        ensures rest { self.new ≡ with_slots self.old self.new.slots }
        ensures unchanged { OnErr result (self.new.slots ≡ self.old.slots) }
    {
        self.add_batch(columns, rows)?;
        self.merge_last();
        Ok(())
    }

    /// Removes the last `count` rows, as undoing an append does, and frees their numbers. It takes no memory.
    pub fn revert(&mut self, count: usize)
        requires { CanRevert count self.old.slots }
        ensures { self.new ≡ with_slots self.old (reverted count self.old.slots) }
    {
        let left = self.numbers.len() - count;
        self.rows.truncate(left);
        self.numbers.truncate(left);
    }

    /// Releases the row of this number, which isn't live.
    fn release_row(&mut self, number: usize)
        requires { IsOut self.old.slots number }
        ensures { self.new ≡ with_slots self.old (emptied self.old.slots number) }
    {
        self.rows.release(number);
        self.numbers.release(number);
    }

    /// Releases the rows of these numbers, which aren't live: they can't be restored. A batch is freed with the last of
    /// its rows, its remaining rows are rewritten where they are few, and keys that no row has are dropped once they
    /// are many. Where memory for that is refused, they stay.
    pub fn release(&mut self, numbers: &[usize])
        requires { AllOut numbers.now self.old.slots }
        ensures { self.new ≡ with_slots self.old (released numbers.now self.old.slots) }
    {
        for number in numbers {
            self.release_row(*number);
        }
        self.renew_all(numbers);
        self.tidy();
    }

    /// Drops the keys of released rows, where they are more than those of the retained ones. Where memory for
    /// rebuilding the table of keys is refused, they stay.
    fn tidy_keys(&mut self)
        ensures { self.new ≡ self.old }
    {
        if !self.numbers.has_spare_keys() {
            return;
        }
        if let Ok(numbers) = renumbered(self.alloc, &self.numbers) {
            self.numbers = numbers;
        }
    }

    /// Merges the last chunks of rows where they are small. Where memory for it is refused, they stay.
    fn merge_last(&mut self)
        ensures { self.new ≡ self.old }
    {
        if !self.rows.is_scattered() {
            return;
        }
        if let Ok(layouts) = table_layouts(self.alloc, &self.table) {
            self.rows.merge_last(&layouts);
        }
    }

    /// Rewrites the chunk of this number where few of its rows remain. Where memory for it is refused, it stays.
    fn renew(&mut self, number: usize)
        ensures { self.new ≡ self.old }
    {
        if !self.rows.is_thin_at(number) {
            return;
        }
        if let Ok(layouts) = table_layouts(self.alloc, &self.table) {
            self.rows.renew(&layouts, number);
        }
    }

    /// Rewrites the chunks of these numbers of which few rows remain.
    fn renew_all(&mut self, numbers: &[usize])
        ensures { self.new ≡ self.old }
    {
        for number in numbers {
            self.renew(*number);
        }
    }

    /// Drops the entries of freed batches and of released rows, and the keys that no row has.
    fn tidy(&mut self)
        ensures { self.new ≡ self.old }
    {
        self.rows.tidy();
        self.numbers.tidy();
        self.tidy_keys();
    }

    /// The numbers of the live rows with these keys as `find_all` returns them: each key is compared with the others,
    /// and then looked up.
    fn find_each(&self, keys: &Column) -> Result<Vec<usize>, EditFault>
        requires { AreKeys self.now.table keys.now }
        ensures numbers { IfOk result (λ ns. CanRetract ns.items self.now.slots) }
        ensures keys { IfOk result (λ ns. keys_at self.now.table ns.items self.now.slots ≡ keys.now.cells) }
        ensures fits { OnOk result
            (cause_of self.now.table (contents_of self.now.slots) (retract keys.now.cells) ≡ None) }
        ensures refused { IfErr result
            (Refuses (cause_of self.now.table (contents_of self.now.slots) (retract keys.now.cells))) }
    {
        let _table = &self.table;
        match check_keys(self.alloc, keys) {
            Ok(()) => find_keys(self.alloc, keys, &self.numbers),
            Err(fault) => Err(fault),
        }
    }

    /// The numbers of the live rows with these keys, in order. The error is the first cause for which the keys can't be
    /// retracted: a null key, a key that is there twice, a key that no live row has; or it is `Memory`.
    pub fn find_all(&self, keys: &Column) -> Result<Vec<usize>, EditFault>
        requires { AreKeys self.now.table keys.now }
        ensures numbers { IfOk result (λ ns. CanRetract ns.items self.now.slots) }
        ensures keys { IfOk result (λ ns. keys_at self.now.table ns.items self.now.slots ≡ keys.now.cells) }
        ensures fits { OnOk result
            (cause_of self.now.table (contents_of self.now.slots) (retract keys.now.cells) ≡ None) }
        ensures refused { IfErr result
            (Refuses (cause_of self.now.table (contents_of self.now.slots) (retract keys.now.cells))) }
    {
        let _table = &self.table;
        match find_distinct(self.alloc, keys, &self.numbers)? {
            Some(found) => Ok(found),
            None => self.find_each(keys),
        }
    }

    /// Puts the rows of a batch as `put` does, in a chunk of their own.
    fn put_rows(&mut self, columns: Vec<Column>, rows: usize) -> Result<Vec<usize>, EditFault>
        requires { IsBatch self.old.table rows columns.items }
        ensures contents { OnOk result
            (contents_of self.new.slots ≡ applied self.old.table (put (batch_rows rows columns.items))
            (contents_of self.old.slots)) }
        ensures fits { OnOk result
            (cause_of self.old.table (contents_of self.old.slots) (put (batch_rows rows columns.items)) ≡ None) }
        ensures refused { IfErr result
            (Refuses (cause_of self.old.table (contents_of self.old.slots) (put (batch_rows rows columns.items)))) }
        ensures can_go_back { IfOk result (λ replaced.
            CanUndoPut self.old.table rows replaced.items self.new.slots) }
        ensures back { IfOk result (λ replaced. put_undone rows replaced.items self.new.slots ≡ self.old.slots) }
        ensures can_retract { IfOk result (λ replaced. CanRetract replaced.items self.old.slots) }
        ensures slots { IfOk result (λ replaced.
            self.new.slots ≡ retracted replaced.items self.old.slots
            ++ map new_slot (batch_rows rows columns.items)) }
        ensures rest { self.new ≡ with_slots self.old self.new.slots }
        ensures unchanged { OnErr result (self.new.slots ≡ self.old.slots) }
    {
        self.numbers.distinct_law();
        let before = self.numbers.len();
        let replaced = put_batch(self.alloc, &self.table, &columns, rows, &mut self.numbers)?;
        let all = self.numbers.live();
        let live = all - rows;
        match keep_rows(&self.table, &mut self.rows, columns, rows, live, before) {
            Ok(()) => Ok(replaced),
            Err(fault) => {
                take_back_put(&mut self.numbers, before, &replaced);
                Err(fault)
            }
        }
    }

    /// Retracts the live rows with the keys of a batch, adds the batch's `rows` rows after all rows, and returns the
    /// numbers of the retracted ones. The error is the first cause for which the batch doesn't fit: a null key, a key
    /// that is there twice, too many rows, a cell or a row that is too heavy; or it is `Memory`. On an error nothing
    /// has changed.
    pub fn put(&mut self, columns: Vec<Column>, rows: usize) -> Result<Vec<usize>, EditFault>
        requires { IsBatch self.old.table rows columns.items }
        ensures contents { OnOk result
            (contents_of self.new.slots ≡ applied self.old.table (put (batch_rows rows columns.items))
            (contents_of self.old.slots)) }
        ensures fits { OnOk result
            (cause_of self.old.table (contents_of self.old.slots) (put (batch_rows rows columns.items)) ≡ None) }
        ensures refused { IfErr result
            (Refuses (cause_of self.old.table (contents_of self.old.slots) (put (batch_rows rows columns.items)))) }
        ensures can_go_back { IfOk result (λ replaced.
            CanUndoPut self.old.table rows replaced.items self.new.slots) }
        ensures back { IfOk result (λ replaced. put_undone rows replaced.items self.new.slots ≡ self.old.slots) }
        ensures can_retract { IfOk result (λ replaced. CanRetract replaced.items self.old.slots) }
        ensures slots { IfOk result (λ replaced.
            self.new.slots ≡ retracted replaced.items self.old.slots
            ++ map new_slot (batch_rows rows columns.items)) }
        ensures rest { self.new ≡ with_slots self.old self.new.slots }
        ensures unchanged { OnErr result (self.new.slots ≡ self.old.slots) }
    {
        let replaced = self.put_rows(columns, rows)?;
        self.merge_last();
        Ok(replaced)
    }

    /// Undoes a put: removes the last `rows` rows, and restores those that they replaced. It takes no memory.
    pub fn undo_put(&mut self, rows: usize, replaced: &[usize])
        requires { CanUndoPut self.old.table rows replaced.now self.old.slots }
        ensures { self.new ≡ with_slots self.old (put_undone rows replaced.now self.old.slots) }
    {
        self.revert(rows);
        self.put_back(replaced);
    }

    /// Hides a put: retracts the last `rows` rows, and restores those that they replaced. The rows keep their numbers,
    /// so that `show_put` can show them again. It takes no memory.
    pub fn hide_put(&mut self, rows: usize, replaced: &[usize])
        requires { CanUndoPut self.old.table rows replaced.now self.old.slots }
        ensures slots { self.new ≡ with_slots self.old (put_hidden rows replaced.now self.old.slots) }
        ensures live { live self.new.slots ≡ live (put_undone rows replaced.now self.old.slots) }
        ensures can_show { CanShowPut self.old.table rows replaced.now self.new.slots }
        ensures shown { put_shown rows replaced.now self.new.slots ≡ self.old.slots }
        ensures can_take { CanRevert rows self.new.slots }
        ensures taken { reverted rows self.new.slots ≡ put_undone rows replaced.now self.old.slots }
    {
        self.retract_last(rows);
        self.put_back(replaced);
    }

    /// Shows a put again that was hidden: restores the last `rows` rows, and retracts those that they replace. It takes
    /// no memory.
    pub fn show_put(&mut self, rows: usize, replaced: &[usize])
        requires { CanShowPut self.old.table rows replaced.now self.old.slots }
        ensures { self.new ≡ with_slots self.old (put_shown rows replaced.now self.old.slots) }
    {
        self.retract(replaced);
        self.put_back_last(rows);
    }

    /// Retracts the last `count` rows. It takes no memory.
    fn retract_last(&mut self, count: usize)
        requires few { CanRevert count self.old.slots }
        requires live { CanRetract (last_numbers count self.old.slots) self.old.slots }
        ensures slots { self.new ≡ with_slots self.old (retracted (last_numbers count self.old.slots) self.old.slots) }
        ensures can_go_back { CanPutBack self.old.table (last_numbers count self.old.slots) self.new.slots }
        ensures back { put_back (last_numbers count self.old.slots) self.new.slots ≡ self.old.slots }
    {
        self.numbers.distinct_law();
        let first = self.numbers.len() - count;
        retract_from(&mut self.numbers, first);
    }

    /// Makes the last `count` rows live again. It takes no memory.
    fn put_back_last(&mut self, count: usize)
        requires few { CanRevert count self.old.slots }
        requires retracted { CanPutBack self.old.table (last_numbers count self.old.slots) self.old.slots }
        ensures { self.new ≡ with_slots self.old (put_back (last_numbers count self.old.slots) self.old.slots) }
    {
        let first = self.numbers.len() - count;
        revive_from(&mut self.numbers, first);
    }

    /// Retracts the rows of these numbers. It takes no memory.
    pub fn retract(&mut self, numbers: &[usize])
        requires { CanRetract numbers.now self.old.slots }
        ensures slots { self.new ≡ with_slots self.old (retracted numbers.now self.old.slots) }
        ensures contents { contents_of self.new.slots ≡ applied self.old.table
            (retract (keys_at self.old.table numbers.now self.old.slots)) (contents_of self.old.slots) }
        ensures can_go_back { CanPutBack self.old.table numbers.now self.new.slots }
        ensures back { put_back numbers.now self.new.slots ≡ self.old.slots }
    {
        self.numbers.distinct_law();
        retract_all(&mut self.numbers, numbers);
    }

    /// Makes retracted rows live again, each at its old position among the rows. It takes no memory.
    pub fn put_back(&mut self, numbers: &[usize])
        requires { CanPutBack self.old.table numbers.now self.old.slots }
        ensures slots { self.new ≡ with_slots self.old (put_back numbers.now self.old.slots) }
        ensures can_go_back { CanRetract numbers.now self.new.slots }
        ensures back { retracted numbers.now self.new.slots ≡ self.old.slots }
    {
        revive_all(&mut self.numbers, numbers);
    }

    /// The row of this number where it lies, live or retracted. A released row has no cells.
    fn row_at(&self, number: usize) -> StoredRow<'_>
        requires { number < length self.now.slots }
        ensures row { result ≡ row_of self.now.slots number }
        ensures held { HasKey self.now.table result → IsRow self.now.table.columns result }
    {
        let _table = &self.table;
        self.rows.row(number)
    }

    /// Counts a visit of the row of this number.
    pub fn visit(&mut self, number: usize) -> Visit
        ensures number { result ≡ number }
        ensures counted { self.new ≡ visited 1 self.old }
    {
        self.visits = self.visits.saturating_add(1);
        self.rows.seek(number);
        Visit::new(number)
    }

    /// The row that is visited where it lies, live or retracted. A released row has no cells.
    pub fn row(&self, visit: Visit) -> StoredRow<'_>
        requires { visit < length self.now.slots }
        ensures row { result ≡ row_of self.now.slots visit }
        ensures held { HasKey self.now.table result → IsRow self.now.table.columns result }
    {
        self.row_at(visit.number())
    }

    /// Counts a visit of each of the rows of these numbers.
    pub fn visit_all(&mut self, numbers: Vec<usize>) -> Visits
        ensures numbers { result ≡ numbers.items }
        ensures counted { self.new ≡ visited (length numbers.items) self.old }
    {
        self.visits = self.visits.saturating_add(numbers.len() as u128);
        Visits::new(numbers)
    }

    /// Where the visited rows lie, which are live, in ranges of consecutive rows. Each lies in as many columns as the
    /// table has.
    fn visited_ranges(&self, visits: &Visits) -> Result<Vec<RowRange<'_>>, AllocError>
        requires { All (IsLiveAt self.now.slots) visits.now }
        ensures rows { IfOk result (λ ranges. ranges_rows ranges.items ≡ map (row_of self.now.slots) visits.now) }
        ensures ranges { IfOk result (λ ranges. All (IsRange (length self.now.table.columns)) ranges.items) }
    {
        let _table = &self.table;
        self.rows.ranges(self.alloc, visits.numbers())
    }

    /// Where the visited rows lie, which are live, in ranges of consecutive rows. Each lies in as many columns as the
    /// table has.
    pub fn ranges(&self, visits: Visits) -> Result<Vec<RowRange<'_>>, AllocError>
        requires { All (IsLiveAt self.now.slots) visits }
        ensures rows { IfOk result (λ ranges. ranges_rows ranges.items ≡ map (row_of self.now.slots) visits) }
        ensures ranges { IfOk result (λ ranges. All (IsRange (length self.now.table.columns)) ranges.items) }
    {
        self.visited_ranges(&visits)
    }

    /// The numbers of a side table's live rows that visited rows look up by their cells of column `on`, where there are
    /// such rows. The visited rows are live.
    pub fn look_up(
        &self,
        visits: &Visits,
        on: usize,
        side: &RowStore,
    ) -> Result<Vec<Option<usize>>, AllocError>
        requires live { All (IsLiveAt self.now.slots) visits.now }
        requires side { IsSideTable side.now.table }
        ensures rows { IfOk result (λ numbers. found_rows side.now numbers.items
            ≡ map (row_for side.now on) (map (row_of self.now.slots) visits.now)) }
        ensures live { IfOk result (λ numbers. AreLive side.now numbers.items) }
    {
        let ranges = self.visited_ranges(visits)?;
        look_up_all(self.alloc, side, on, &ranges, visits.len())
    }

    /// Where the visited rows lie, which are live: each by itself. Each lies in as many columns as the table has.
    pub fn locations(&self, visits: Visits) -> Result<StoredLocations<'_>, AllocError>
        requires { All (IsLiveAt self.now.slots) visits }
        ensures rows { IfOk result (λ found.
            located_rows found.batches.items found.locations.items ≡ map (row_of self.now.slots) visits) }
        ensures placed { IfOk result (λ found.
            All (IsRowAt (length self.now.table.columns) found.batches.items) found.locations.items) }
    {
        let _table = &self.table;
        self.rows.locations(self.alloc, visits.numbers())
    }

    /// Where the rows of a side table of these numbers lie, which are live: each by itself. Where there is no number,
    /// the location is in no batch. Visits count the rows of the main table that are opened, and no others.
    pub fn locations_if(&self, numbers: &[Option<usize>]) -> Result<StoredLocations<'_>, AllocError>
        requires side { IsSideTable self.now.table }
        requires live { All (λ o. IfSome o (IsLiveAt self.now.slots)) numbers.now }
        ensures rows { IfOk result (λ found.
            located_rows found.batches.items found.locations.items ≡ map (row_if (row_of self.now.slots)) numbers.now) }
        ensures placed { IfOk result (λ found.
            All (IsLocated (length self.now.table.columns) found.batches.items) found.locations.items) }
    {
        let _table = &self.table;
        self.rows.locations_if(self.alloc, numbers)
    }

    /// A copy of the row of this number, live or retracted; a released one has no cells. It is counted as a visit.
    pub fn open_row(&mut self, number: usize) -> Result<Row, AllocError>
        requires { number < length self.old.slots }
        ensures row { IfOk result (λ row. row.items ≡ row_of self.old.slots number) }
        ensures held { IfOk result (λ row.
            HasKey self.old.table row.items → IsRow self.old.table.columns row.items) }
        ensures visit { self.new ≡ visited 1 self.old }
    {
        let visit = self.visit(number);
        self.row(visit).copy(self.alloc)
    }

    /// The number of the live row with this key. Null is no row's key.
    pub(crate) fn number_with(&self, key: &Key) -> Option<usize>
        ensures { MatchOption result (IsUnknown self.now (datum_of_key key.now))
            (IsKnown self.now (datum_of_key key.now)) }
    {
        let numbers = &self.numbers;
        numbers.distinct_law();
        numbers.find(key)
    }

    /// The live row of a side table with this key where it lies, if there is one. Null is no row's key. It takes no
    /// memory. Visits count the rows of the main table that are opened, and no others.
    pub fn get(&self, key: &Key) -> Option<StoredRow<'_>>
        requires { IsSideTable self.now.table }
        ensures row { result ≡ side_of self.now.table (contents_of self.now.slots) (datum_of_key key.now) }
        ensures held { IfSome result (IsRow self.now.table.columns) }
    {
        let Some(number) = self.number_with(key) else {
            return None;
        };
        Some(self.row_at(number))
    }

    /// The live row of a side table whose key equals a cell, where it lies, if there is one. Null is no row's key. The
    /// cell is looked up by `keys`, which takes memory for a text or bytes that are longer than all before.
    #[tactic(auto, using(values::proofs::ShallowLemmas::shallow_laws))]
    pub fn row_with_key<'a>(
        &'a self,
        keys: &mut KeyBuffer,
        cell: CellView<'_>,
    ) -> Result<Option<StoredRow<'a>>, AllocError>
        requires { IsSideTable self.now.table }
        ensures row { IfOk result (λ row. (d : Datum) → viewed cell.entry ≡ shallow d
            → row ≡ side_of self.now.table (contents_of self.now.slots) d) }
        ensures held { IfOk result (λ row. IfSome row (IsRow self.now.table.columns)) }
    {
        let _table = &self.table;
        match keys.key_of(cell)? {
            Some(key) => Ok(self.get(key)),
            None => Ok(None),
        }
    }

    /// The number of the live row of a side table whose key equals a cell, if there is one. Null is no row's key. The
    /// cell is looked up as by `row_with_key`.
    #[tactic(auto, using(values::proofs::ShallowLemmas::shallow_laws))]
    pub fn number_with_key(
        &self,
        keys: &mut KeyBuffer,
        cell: CellView<'_>,
    ) -> Result<Option<usize>, AllocError>
        requires { IsSideTable self.now.table }
        ensures { IfOk result (λ number. (d : Datum) → viewed cell.entry ≡ shallow d
            → MatchOption number (IsUnknown self.now d) (IsKnown self.now d)) }
    {
        let _table = &self.table;
        match keys.key_of(cell)? {
            Some(key) => Ok(self.number_with(key)),
            None => Ok(None),
        }
    }

    /// Copies of the keys of a side table's rows of these numbers, live or retracted; null for released ones.
    pub fn keys_of(&self, numbers: &[usize]) -> Result<Vec<Key>, AllocError>
        requires side { IsSideTable self.now.table }
        requires there { All (λ n. n < length self.now.slots) numbers.now }
        ensures { IfOk result (λ keys.
            map datum_of_key keys.items ≡ keys_at self.now.table numbers.now self.now.slots) }
    {
        let _table = &self.table;
        let mut keys = Vec::with_capacity(self.alloc, numbers.len())?;
        for number in numbers {
            keys.push(self.numbers.key(self.alloc, *number)?)?;
        }
        Ok(keys)
    }

    /// Copies of the key cells of a side table's rows of these numbers, live or retracted; null for released ones.
    pub fn key_cells(&self, numbers: &[usize]) -> Result<Row, AllocError>
        requires side { IsSideTable self.now.table }
        requires there { All (λ n. n < length self.now.slots) numbers.now }
        ensures { IfOk result (λ cells. cells.items ≡ keys_at self.now.table numbers.now self.now.slots) }
    {
        let mut cells = Vec::with_capacity(self.alloc, numbers.len())?;
        for number in numbers {
            cells.push(self.key_cell(*number)?)?;
        }
        Ok(cells)
    }

    /// A copy of the key cell of the row of this number, live or retracted; null where it is released.
    fn key_cell(&self, number: usize) -> Result<Value, AllocError>
        requires { number < length self.now.slots }
        ensures { IfOk result (λ cell. cell ≡ key_in self.now.table (row_of self.now.slots number)) }
    {
        let row = self.row_at(number);
        let cell = row.copy_cell(self.alloc, self.table.key)?;
        Ok(cell)
    }

    /// The numbers of all live rows, in order.
    pub fn live_numbers(&self) -> Result<Vec<usize>, AllocError>
        ensures numbers { IfOk result (λ numbers. numbers.items ≡ keys_of (numbered self.now.slots)) }
        ensures rows { IfOk result (λ numbers. map (row_of self.now.slots) numbers.items ≡ live_in self.now) }
        ensures there { IfOk result (λ numbers. All (λ n. n < length self.now.slots) numbers.items) }
        ensures few { length (live_in self.now) ≤ max_main_rows }
    {
        let mut numbers = Vec::with_capacity(self.alloc, self.len())?;
        let mut number = self.next_retained(0);
        while number < self.appended() {
            if self.is_live(number) {
                numbers.push(number)?;
            }
            number = self.next_retained(number + 1);
        }
        Ok(numbers)
    }

    /// The number of all rows that have numbers, retracted ones too.
    pub fn appended(&self) -> usize
        ensures { result ≡ length self.now.slots }
    {
        let _table = &self.table;
        self.numbers.len()
    }

    /// The least number from this one on that has an entry; the number of rows where there is none. The rows before it
    /// aren't live.
    pub(crate) fn next_retained(&self, number: usize) -> usize
        requires { number ≤ length self.now.slots }
        ensures from { number ≤ result }
        ensures within { result ≤ length self.now.slots }
        ensures dead { (k : ℕ) → number ≤ k → k < result → (get_or self.now.slots k no_slot).live ≡ false }
    {
        let _table = &self.table;
        self.numbers.next_retained(number)
    }

    /// Whether the row of this number is live.
    pub fn is_live(&self, number: usize) -> bool
        requires { number < length self.now.slots }
        ensures { result ≡ (get_or self.now.slots number no_slot).live }
    {
        let _table = &self.table;
        self.numbers.is_live(number)
    }
}
