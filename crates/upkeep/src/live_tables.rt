//! Tables, and views of them that are kept current.

ghost use Rattle.std.specs.Prelude.{
  ◌≡◌,
  ◌<◌,
  ◌≤◌,
  ◌+◌,
  [],
  All,
  false,
  count_by,
  get_or,
  IfOk,
  IfSome,
  OnErr,
  OnOk,
  length,
  map,
  slice_set,
  true,
};
ghost use Rattle.body_writer.specs.Locations.{IsLocated, IsRowAt, located_rows};
ghost use Rattle.body_writer.specs.RowRanges.{IsRange, ranges_rows};
ghost use Rattle.view_lang.specs.Edits.{table_of};
ghost use Rattle.view_lang.specs.ViewColumns.{columns_by, feed_columns, key_column};
ghost use Rattle.view_lang.specs.Views.{view_rows};
ghost use Rattle.view_lang.specs.World.{table_at};
ghost use Rattle.view_lang.specs.declared.config.Role.TheVariants.{Append, Retract};
ghost use Rattle.row_keys.specs.Slots.{
  AllOut,
  CanPutBack,
  CanRevert,
  IsLiveAt,
  live,
  put_back,
  reverted,
  row_of,
};
ghost use Rattle.row_keys.specs.Locations.{row_if};
ghost use Rattle.row_keys.specs.Store.{live_in};
ghost use Rattle.upkeep.specs.LiveParts.{AreOf, store_at, view_at};
ghost use Rattle.upkeep.specs.LiveEdits.{Edited, NoneBecomesStale, TakesBack, WentBack};
ghost use Rattle.upkeep.specs.Stores.{
  HaveSameRows,
  main_slots,
  rows_at,
  rows_in,
  slots_in,
  tables_in,
  visits_in,
};
ghost use Rattle.row_keys.specs.TableChanges.{CanGoBack, IsBatchOf, IsChangeOf, change_by, restores};
ghost use Rattle.upkeep.specs.Stores.{released_at};
ghost use Rattle.upkeep.specs.TablesParts.{AreLiveParts, live_with};
ghost use Rattle.upkeep.specs.Touched.{OpensShown, built_of};
ghost use Rattle.upkeep.specs.ViewStates.{width_at, width_in};
ghost use Rattle.upkeep.specs.ViewedRows.{IsViewed, ShowsView, rows_shown};

use crate::all_views::{count_stale, follow_last, follow_scattered, fresh_states, replace_state};
use crate::arrivals::arrivals_for;
use crate::follow::rebuild;
use crate::lookup_views::follow_lookups;
use crate::parts::LiveTablesParts;
use crate::reading::{lend_materialized, show_materialized};
use crate::shown::Shown;
use crate::swaps::swap;
use crate::view_parts::{make_states, take_states};
use crate::view_state::{Turn, ViewState};
use crate::viewed::viewed_law;
use arrays::Column;
use body_writer::RowRange;
use group_state::GroupRow;
use row_keys::{EditFault, RowStore, StoredLocations, TableChange, Visits, numbers_law};
use std::alloc::{AllocError, Global};
use std::marker::Model;
use view_lang::{Role, View};

fn table_of(role: Role, tables: usize) -> usize
    requires { table_of role < tables }
    ensures { result ≡ table_of role }
{
    match role {
        Role::Append | Role::Retract => 0,
        Role::Put(side) | Role::Drop(side) => side + 1,
    }
}

/// The rows of a main table and of side tables, and views of them that are kept current by the edits.
///
/// A view is stale when memory for keeping it current was refused; it is built anew when it is read next.
///
/// Contracts see `LiveParts` of `specs/LiveParts.antt`.
pub struct LiveTables {
    alloc: Global,
    // The store of the main table comes first.
    stores: Vec<RowStore>,
    views: Vec<View>,
    // What is stored for each view.
    states: Vec<ViewState>,
}

// Written out, so that what it drops is proved here, and not in each crate that drops such tables.
impl Drop for LiveTables {
    fn drop(self) {
        let LiveTables {
            alloc: _,
            stores: _,
            views: _,
            states: _,
        } = self;
    }
}

impl Model for LiveTables {
    ghost use Rattle.upkeep.specs.LiveParts.{AreLive, LiveParts, live_code};
    ghost use Rattle.upkeep.specs.ViewStates.{stale_in};

    ghost Value = { LiveParts };

    ghost coded = { live_code };

    ghost view = { λ t. record {
      stores = t.stores.items;
      views = t.views.items;
      stale = stale_in t.states.items;
    } };

    ghost invariant = { λ t. AreLive t.stores.items t.views.items t.states.items };
}

impl LiveTables {
    /// Tables without rows, and views of them.
    pub fn new(
        alloc: Global,
        stores: Vec<RowStore>,
        views: Vec<View>,
    ) -> Result<LiveTables, AllocError>
        requires right { AreOf stores.items views.items }
        requires none { rows_at (rows_in stores.items) 0 ≡ [] }
        ensures stores { IfOk result (λ tables. tables.stores ≡ stores.items) }
        ensures views { IfOk result (λ tables. tables.views ≡ views.items) }
        ensures stale { IfOk result (λ tables. tables.stale ≡ map (λ _. false) views.items) }
    {
        let width = stores[0].table().columns.len();
        let states = fresh_states(alloc, &views, width)?;
        Ok(LiveTables {
            alloc,
            stores,
            views,
            states,
        })
    }

    /// Takes the tables apart. The parts are all that is stored. If memory is refused, they are lost.
    pub fn into_parts(self) -> Result<LiveTablesParts, AllocError>
        ensures value { IfOk result (λ parts. live_with parts ≡ self) }
        ensures live { IfOk result (λ parts. AreLiveParts parts) }
    {
        let LiveTables {
            alloc,
            stores,
            views,
            states,
        } = self;
        let states = take_states(alloc, states)?;
        Ok(LiveTablesParts {
            stores,
            views,
            states,
        })
    }

    /// Makes the tables that have these parts. No row is opened, and a view is stale where it is stale in the parts.
    pub fn from_parts(alloc: Global, parts: LiveTablesParts) -> Result<LiveTables, AllocError>
        requires { AreLiveParts parts }
        ensures { IfOk result (λ tables. tables ≡ live_with parts) }
    {
        let LiveTablesParts {
            stores,
            views,
            states,
        } = parts;
        let states = make_states(alloc, states)?;
        Ok(LiveTables {
            alloc,
            stores,
            views,
            states,
        })
    }

    /// The views, by number.
    pub fn views(&self) -> &[View]
        ensures { result.now ≡ self.now.views }
    {
        &self.views
    }

    /// The number of the table that a feed of this role changes.
    pub fn table_of(&self, role: Role) -> usize
        requires { table_of role < length self.now.stores }
        ensures { result ≡ table_of role }
    {
        table_of(role, self.stores.len())
    }

    /// The number of live rows of the main table. It takes no memory.
    pub fn len(&self) -> usize
        ensures { result ≡ length (live_in (store_at self.now.stores 0)) }
    {
        self.stores[0].len()
    }

    /// How many views are stale. It takes no memory.
    pub fn stale(&self) -> usize
        ensures { result ≡ count_by (λ b. b) self.now.stale }
    {
        count_stale(&self.states)
    }

    /// How often a stored row of the main table was opened. The count stops at its greatest number. It takes no memory.
    pub fn visits(&self) -> u128
        ensures { result ≡ (store_at self.now.stores 0).visits }
    {
        self.stores[0].visits()
    }

    /// Appends the rows of a batch to the main table.
    fn append(&mut self, columns: Vec<Column>, rows: usize) -> Result<TableChange, EditFault>
        requires { IsBatchOf (table_at (tables_in self.old.stores) 0).columns columns.items rows }
        ensures { Edited 0 (change_by Append columns.items rows) self.old self.new result }
    {
        // It does nothing: the proof takes from it which rows are inserted.
        numbers_law();
        let arrivals = arrivals_for(self.alloc, &self.views, &self.states, &columns, rows)?;
        let change = self.stores[0].append_batch(columns, rows)?;
        self.stores[0].rows_law();
        match follow_last(
            self.alloc,
            &mut self.stores,
            &self.views,
            &mut self.states,
            Turn::Come,
            rows,
            &arrivals,
        ) {
            Ok(()) => Ok(change),
            Err(_refused) => {
                self.stores[0].restore(&change);
                Err(EditFault::Memory)
            }
        }
    }

    /// Retracts the rows of the main table whose keys a batch names.
    fn retract(&mut self, columns: &[Column], rows: usize) -> Result<TableChange, EditFault>
        requires { IsBatchOf (key_column (table_at (tables_in self.old.stores) 0)) columns.now rows }
        ensures { Edited 0 (change_by Retract columns.now rows) self.old self.new result }
    {
        numbers_law();
        let numbers = self.stores[0].find_rows(columns, rows)?;
        self.stores[0].rows_law();
        follow_scattered(
            self.alloc,
            &mut self.stores,
            &self.views,
            &mut self.states,
            Turn::Go,
            &numbers,
        )?;
        self.stores[0].retract(&numbers);
        Ok(TableChange::Retracted(numbers))
    }

    /// Applies an edit of a side table, and updates the views that look it up.
    fn edit_side(
        &mut self,
        role: Role,
        table: usize,
        columns: Vec<Column>,
        rows: usize,
    ) -> Result<TableChange, EditFault>
        requires side { 0 < table }
        requires there { table < length self.old.stores }
        requires role { table ≡ table_of role }
        requires batch { IsBatchOf (columns_by role (table_at (tables_in self.old.stores) table)) columns.items rows }
        ensures { Edited table (change_by role columns.items rows) self.old self.new result }
    {
        numbers_law();
        let change = self.stores[table].edit(role, columns, rows)?;
        match follow_lookups(
            self.alloc,
            &mut self.stores,
            &self.views,
            &mut self.states,
            table,
            &change,
            Turn::Come,
        ) {
            Ok(()) => Ok(change),
            Err(_refused) => {
                self.stores[table].restore(&change);
                Err(EditFault::Memory)
            }
        }
    }

    /// Applies the edit of a batch, by the role of its feed, and keeps the views current. On an error no row has
    /// changed: it is the first cause for which the edit doesn't fit, or `Memory`. After `Memory` the views that read
    /// the table may be stale.
    pub fn edit(
        &mut self,
        role: Role,
        columns: Vec<Column>,
        rows: usize,
    ) -> Result<TableChange, EditFault>
        requires there { table_of role < length self.old.stores }
        requires batch { IsBatchOf (feed_columns (tables_in self.old.stores) role) columns.items rows }
        ensures { Edited (table_of role) (change_by role columns.items rows) self.old self.new result }
    {
        let table = self.table_of(role);
        match role {
            Role::Append => self.append(columns, rows),
            Role::Retract => self.retract(&columns, rows),
            Role::Put(_) | Role::Drop(_) => self.edit_side(role, table, columns, rows),
        }
    }

    /// Undoes an append of `count` rows to the main table.
    fn revert(&mut self, count: usize) -> Result<(), AllocError>
        requires { CanRevert count (main_slots self.old.stores) }
        ensures { WentBack 0 (reverted count (main_slots self.old.stores)) count self.old self.new result }
    {
        numbers_law();
        self.stores[0].rows_law();
        follow_last(
            self.alloc,
            &mut self.stores,
            &self.views,
            &mut self.states,
            Turn::Go,
            count,
            &[],
        )?;
        self.stores[0].revert(count);
        Ok(())
    }

    /// Restores retracted rows of the main table.
    fn put_back(&mut self, numbers: &[usize]) -> Result<(), AllocError>
        requires { CanPutBack (table_at (tables_in self.old.stores) 0) numbers.now (main_slots self.old.stores) }
        ensures { WentBack 0 (put_back numbers.now (main_slots self.old.stores)) (length numbers.now) self.old self.new
            result }
    {
        numbers_law();
        self.stores[0].rows_law();
        follow_scattered(
            self.alloc,
            &mut self.stores,
            &self.views,
            &mut self.states,
            Turn::Come,
            numbers,
        )?;
        self.stores[0].put_back(numbers);
        Ok(())
    }

    /// Reverts a change of the main table.
    fn go_back_main(&mut self, change: &TableChange) -> Result<(), AllocError>
        requires kind { IsChangeOf 0 change.now }
        requires can { CanGoBack (table_at (tables_in self.old.stores) 0) change.now (main_slots self.old.stores) }
        ensures { TakesBack 0 change.now self.old self.new result }
    {
        match change {
            TableChange::Appended(count) => self.revert(*count),
            TableChange::Retracted(numbers) => self.put_back(numbers),
            TableChange::Put { .. } => unreachable!(),
        }
    }

    /// Reverts a change of a side table. The views that look it up are updated before its rows are removed.
    fn go_back_side(&mut self, table: usize, change: &TableChange) -> Result<(), AllocError>
        requires side { 0 < table }
        requires there { table < length self.old.stores }
        requires kind { IsChangeOf table change.now }
        requires can { CanGoBack (table_at (tables_in self.old.stores) table) change.now
            (rows_at (rows_in self.old.stores) table) }
        ensures { TakesBack table change.now self.old self.new result }
    {
        swap(&mut self.stores[table], change, Turn::Come);
        match follow_lookups(
            self.alloc,
            &mut self.stores,
            &self.views,
            &mut self.states,
            table,
            change,
            Turn::Go,
        ) {
            Ok(()) => {
                self.stores[table].forget(change);
                Ok(())
            }
            Err(refused) => {
                swap(&mut self.stores[table], change, Turn::Go);
                Err(refused)
            }
        }
    }

    /// Reverts a change of a table's rows, and keeps the views current as `edit` does. On an error no row has changed.
    pub fn go_back(&mut self, table: usize, change: &TableChange) -> Result<(), AllocError>
        requires there { table < length self.old.stores }
        requires kind { IsChangeOf table change.now }
        requires can { CanGoBack (table_at (tables_in self.old.stores) table) change.now
            (rows_at (rows_in self.old.stores) table) }
        ensures { TakesBack table change.now self.old self.new result }
    {
        if table == 0 {
            self.go_back_main(change)
        } else {
            self.go_back_side(table, change)
        }
    }

    /// Releases the rows of a table that reverting a change would bring back: nothing else can, and the change will
    /// never be reverted. It can't fail.
    pub fn release(&mut self, table: usize, change: &TableChange)
        requires there { table < length self.old.stores }
        requires out { AllOut (restores change.now) (rows_at (rows_in self.old.stores) table) }
        ensures rows { rows_in self.new.stores ≡ released_at table (restores change.now) (rows_in self.old.stores) }
        ensures tables { tables_in self.new.stores ≡ tables_in self.old.stores }
        ensures views { self.new.views ≡ self.old.views }
        ensures stale { self.new.stale ≡ self.old.stale }
        ensures visits { visits_in self.new.stores ≡ visits_in self.old.stores }
    {
        numbers_law();
        self.stores[table].release_replaced(change);
    }

    /// Builds a view anew if it is stale.
    pub fn refresh(&mut self, place: usize) -> Result<(), AllocError>
        requires { place < length self.old.views }
        ensures same_rows { HaveSameRows self.old.stores self.new.stores }
        ensures views { self.new.views ≡ self.old.views }
        ensures stale { OnOk result (self.new.stale ≡ slice_set self.old.stale place false) }
        ensures fresh { OnOk result (get_or self.new.stale place true ≡ false) }
        ensures err { OnErr result (self.new.stale ≡ self.old.stale) }
        ensures visits { visits_in self.new.stores ≤ visits_in self.old.stores
            + built_of (get_or self.old.stale place true) (main_slots self.old.stores) }
    {
        if self.states[place].stale {
            let state = rebuild(self.alloc, &mut self.stores, &self.views[place])?;
            replace_state(&mut self.states, place, state);
        }
        Ok(())
    }

    /// What the view at this index shows, read from its state. A stale view is built anew first.
    pub fn view_rows(&mut self, place: usize) -> Result<Shown, AllocError>
        requires { place < length self.old.views }
        ensures rows { IfOk result (ShowsView self.old.stores (view_at self.old.views place)) }
        ensures viewed { IfOk result (λ shown. IsViewed self.old.stores (view_at self.old.views place)) }
        ensures same_rows { HaveSameRows self.old.stores self.new.stores }
        ensures views { self.new.views ≡ self.old.views }
        ensures stale { OnOk result (self.new.stale ≡ slice_set self.old.stale place false) }
        ensures none_stale { NoneBecomesStale self.old.stale self.new.stale }
        ensures visits { OpensShown self.old place self.new }
    {
        self.refresh(place)?;
        let view = &self.views[place];
        viewed_law(&self.stores, view);
        show_materialized(self.alloc, &mut self.stores, view, &self.states[place])
    }

    /// The rows that a view of groups shows, where they lie. `None` for a plain view, and where the row that is shown
    /// lies nowhere. It opens no row.
    pub fn group_rows(&self, place: usize) -> Result<Option<Vec<GroupRow<'_>>>, AllocError>
        requires there { place < length self.now.views }
        requires fresh { get_or self.now.stale place true ≡ false }
        ensures rows { IfOk result (λ found. IfSome found
            (λ rows. rows.items ≡ rows_shown self.now.stores (view_at self.now.views place))) }
        ensures viewed { IfOk result (λ found. IsViewed self.now.stores (view_at self.now.views place)) }
    {
        let view = &self.views[place];
        viewed_law(&self.stores, view);
        lend_materialized(self.alloc, &self.stores, view, &self.states[place])
    }

    /// How many columns the main table has. It takes no memory.
    pub fn width(&self) -> usize
        ensures { result ≡ width_in (tables_in self.now.stores) }
    {
        self.stores[0].table().columns.len()
    }

    /// Where the visited rows of the main table lie, which are live, in ranges of consecutive rows.
    pub fn ranges(&self, visits: Visits) -> Result<Vec<RowRange<'_>>, AllocError>
        requires { All (IsLiveAt (main_slots self.now.stores)) visits }
        ensures rows { IfOk result (λ ranges. ranges_rows ranges.items
            ≡ map (row_of (main_slots self.now.stores)) visits) }
        ensures ranges { IfOk result (λ ranges. All (IsRange (width_in (tables_in self.now.stores))) ranges.items) }
    {
        self.stores[0].ranges(visits)
    }

    /// Where the visited rows of the main table lie, which are live, each by itself.
    pub fn locations(&self, visits: Visits) -> Result<StoredLocations<'_>, AllocError>
        requires { All (IsLiveAt (main_slots self.now.stores)) visits }
        ensures rows { IfOk result (λ found. located_rows found.batches.items found.locations.items
            ≡ map (row_of (main_slots self.now.stores)) visits) }
        ensures placed { IfOk result (λ found.
            All (IsRowAt (width_in (tables_in self.now.stores)) found.batches.items) found.locations.items) }
    {
        self.stores[0].locations(visits)
    }

    /// Where live rows of a side table lie, each by itself. Where there is no number, the location is in no batch.
    pub fn locations_if(
        &self,
        table: usize,
        numbers: &[Option<usize>],
    ) -> Result<StoredLocations<'_>, AllocError>
        requires side { 0 < table }
        requires there { table < length self.now.stores }
        requires live { All (λ o. IfSome o (IsLiveAt (slots_in self.now.stores table))) numbers.now }
        ensures rows { IfOk result (λ found. located_rows found.batches.items found.locations.items
            ≡ map (row_if (row_of (slots_in self.now.stores table))) numbers.now) }
        ensures placed { IfOk result (λ found.
            All (IsLocated (width_at (tables_in self.now.stores) table) found.batches.items) found.locations.items) }
    {
        self.stores[table].locations_if(numbers)
    }
}
