//! Updates the states of views for changes of a side table that they look up.

ghost use Rattle.std.specs.Prelude.{◌≡◌, ◌<◌, ◌≤◌, ◌+◌, ◌*◌, All, length, map, true, OnErr, OnOk};
ghost use Rattle.values.specs.Keys.{datum_of_key};
ghost use Rattle.view_lang.specs.ConfigRules.{IsView};
ghost use Rattle.view_lang.specs.TableRules.{IsSideTable};
ghost use Rattle.view_lang.specs.World.{table_at};
ghost use Rattle.row_keys.specs.Slots.{row_of};
ghost use Rattle.upkeep.specs.Following.{CanFollow, MaterializedFollows};
ghost use Rattle.upkeep.specs.LiveParts.{AreOf};
ghost use Rattle.upkeep.specs.Stores.{HaveSameRows, Rows, main_slots, rows_at, rows_in, tables_in, visits_in};
ghost use Rattle.upkeep.specs.Swaps.{CanSwap};
ghost use Rattle.row_keys.specs.HiddenChanges.{named_keys};
ghost use Rattle.upkeep.specs.Touched.{count_opened, count_referring, refers_by};
ghost use Rattle.upkeep.specs.ViewStates.{
  AreCurrent,
  AreLeftCurrent,
  BecomeCurrent,
  BecomesCurrent,
  IsBefore,
  IsCurrentWith,
  IsMaterialized,
  looks_up,
  lookups_stale,
  reprojected_change,
  stale_in,
};

use crate::remaking::remake_numbers;
use crate::side_rows::side_rows;
use crate::sub_group_moves::move_sub_groups;
use crate::view_state::{Links, Materialized, Turn, ViewState};
use row_keys::{RowStore, TableChange, numbers_law};
use std::alloc::{AllocError, Global};
use values::{Key, key_law};
use view_lang::{View, image_law};

/// Whether a view looks up the table of this number.
fn looks_up(view: &View, table: usize) -> bool
    ensures { result ≡ looks_up view.now.lookup table }
{
    match view.lookup {
        Some(lookup) => table > 0 && lookup.side == table - 1,
        None => false,
    }
}

/// Marks the views stale that look up a table.
fn mark_lookups_stale(views: &[View], states: &mut Vec<ViewState>, table: usize)
    requires alike { length states.old.items ≡ length views.now }
    ensures { states.new.items ≡ lookups_stale table views.now states.old.items }
{
    for place in 0..views.len() {
        states[place].stale |= looks_up(&views[place], table);
    }
}

/// Updates the state of a view for a change of a side table that names `keys`, by the rows of the main table with these
/// numbers, which refer to these keys: each old projected row is removed and the new one is added, unless the same is
/// stored for both. After an error the state is meaningless.
fn remake_rows(
    alloc: Global,
    stores: &mut Vec<RowStore>,
    view: &View,
    kept: &mut Materialized,
    table: usize,
    change: &TableChange,
    turn: Turn,
    keys: &[Key],
    numbers: &[usize],
) -> Result<(), AllocError>
    requires main { 0 < length stores.old.items }
    requires there { table < length stores.old.items }
    requires side { IsSideTable (table_at (tables_in stores.old.items) table) }
    requires swaps { CanSwap turn (table_at (tables_in stores.old.items) table) change.now
        (rows_at (rows_in stores.old.items) table) }
    requires numbers { All (λ n. n < length (main_slots stores.old.items)) numbers.now }
    requires refer { All (λ n. refers_by view.now.lookup table (map datum_of_key keys.now)
        (row_of (main_slots stores.old.items) n) ≡ true) numbers.now }
    requires fits { CanFollow (IsMaterialized view.now kept.old) (reprojected_change (tables_in stores.old.items)
        (rows_in stores.old.items) view.now table turn change.now numbers.now) }
    ensures kept { OnOk result (MaterializedFollows view.now kept.old kept.new
        (reprojected_change (tables_in stores.old.items) (rows_in stores.old.items) view.now table turn change.now
        numbers.now)) }
    ensures same_rows { HaveSameRows stores.old.items stores.new.items }
    ensures visits { visits_in stores.new.items ≤ visits_in stores.old.items + length numbers.now }
{
    if let Materialized::Live = kept {
        return Ok(());
    }
    if numbers.is_empty() {
        return Ok(());
    }
    let sides = side_rows(alloc, &mut stores[table], change, turn, keys)?;
    remake_numbers(alloc, stores, view, kept, &sides, numbers)
}

/// Updates the state of a view for a change of a side table that it looks up. Only rows of the main table are opened
/// that refer to one of `keys`, those that the change names. A stale view is left as it is. After an error the state is
/// as it was, or stale.
fn follow_lookup(
    alloc: Global,
    stores: &mut Vec<RowStore>,
    view: &View,
    state: &mut ViewState,
    table: usize,
    change: &TableChange,
    turn: Turn,
    keys: &[Key],
) -> Result<(), AllocError>
    requires view { IsView (tables_in stores.old.items) view.now }
    requires main { 0 < length stores.old.items }
    requires side { 0 < table }
    requires there { table < length stores.old.items }
    requires swaps { CanSwap turn (table_at (tables_in stores.old.items) table) change.now
        (rows_at (rows_in stores.old.items) table) }
    requires keys { map datum_of_key keys.now ≡ named_keys (table_at (tables_in stores.old.items) table) change.now
        (rows_at (rows_in stores.old.items) table) }
    requires current { (old : Rows) × IsBefore table turn change.now old (rows_in stores.old.items)
        × IsCurrentWith (tables_in stores.old.items) old view.now state.old }
    ensures kept { OnOk result (BecomesCurrent table turn change.now stores.old.items view.now state.old state.new) }
    ensures stale { OnOk result (state.new.stale ≡ state.old.stale) }
    ensures err { OnErr result (looks_up view.now.lookup table ≡ true) }
    ensures same_rows { HaveSameRows stores.old.items stores.new.items }
    ensures visits { visits_in stores.new.items ≤ visits_in stores.old.items
        + count_opened stores.old.items view.now table change.now }
{
    // They do nothing: the proof takes from them what a view makes of the rows that refer to the keys.
    image_law();
    key_law();
    numbers_law();
    stores[0].rows_law();
    if state.stale | !looks_up(view, table) {
        return Ok(());
    }
    match &state.links {
        Links::Rows(referrers) => {
            let numbers = referrers.of_keys(alloc, keys)?;
            remake_rows(
                alloc,
                stores,
                view,
                &mut state.kept,
                table,
                change,
                turn,
                keys,
                &numbers,
            )
        }
        Links::SubGroups(sub_groups) => move_sub_groups(
            alloc,
            stores,
            view,
            &mut state.kept,
            sub_groups,
            table,
            change,
            turn,
        ),
    }
}

/// Updates the views' states for a change of a side table that names `keys`. After an error all views that look the
/// table up are stale.
fn follow_lookups_of(
    alloc: Global,
    stores: &mut Vec<RowStore>,
    views: &[View],
    states: &mut Vec<ViewState>,
    table: usize,
    change: &TableChange,
    turn: Turn,
    keys: &[Key],
) -> Result<(), AllocError>
    requires of { AreOf stores.old.items views.now }
    requires side { 0 < table }
    requires there { table < length stores.old.items }
    requires swaps { CanSwap turn (table_at (tables_in stores.old.items) table) change.now
        (rows_at (rows_in stores.old.items) table) }
    requires keys { map datum_of_key keys.now ≡ named_keys (table_at (tables_in stores.old.items) table) change.now
        (rows_at (rows_in stores.old.items) table) }
    requires current { (old : Rows) × IsBefore table turn change.now old (rows_in stores.old.items)
        × AreCurrent (tables_in stores.old.items) old views.now states.old.items }
    ensures kept { OnOk result (BecomeCurrent table turn change.now stores.old.items views.now states.old.items
        states.new.items) }
    ensures stale { OnOk result (stale_in states.new.items ≡ stale_in states.old.items) }
    ensures err { OnErr result (AreLeftCurrent table turn change.now stores.old.items views.now states.old.items
        states.new.items) }
    ensures err_stale { OnErr result (stale_in states.new.items
        ≡ stale_in (lookups_stale table views.now states.old.items)) }
    ensures many { length states.new.items ≡ length states.old.items }
    ensures same_rows { HaveSameRows stores.old.items stores.new.items }
    ensures visits { visits_in stores.new.items ≤ visits_in stores.old.items + length views.now
        * count_referring stores.old.items views.now table change.now }
{
    for place in 0..views.len() {
        let view = &views[place];
        if let Err(refused) = follow_lookup(
            alloc,
            stores,
            view,
            &mut states[place],
            table,
            change,
            turn,
            keys,
        ) {
            mark_lookups_stale(views, states, table);
            return Err(refused);
        }
    }
    Ok(())
}

/// Updates the views' states for a change of a side table that was made or reverted, as `turn` says. Stale views are
/// left as they are. After an error all views that look the table up are stale.
pub(crate) fn follow_lookups(
    alloc: Global,
    stores: &mut Vec<RowStore>,
    views: &[View],
    states: &mut Vec<ViewState>,
    table: usize,
    change: &TableChange,
    turn: Turn,
) -> Result<(), AllocError>
    requires of { AreOf stores.old.items views.now }
    requires side { 0 < table }
    requires there { table < length stores.old.items }
    requires swaps { CanSwap turn (table_at (tables_in stores.old.items) table) change.now
        (rows_at (rows_in stores.old.items) table) }
    requires current { (old : Rows) × IsBefore table turn change.now old (rows_in stores.old.items)
        × AreCurrent (tables_in stores.old.items) old views.now states.old.items }
    ensures kept { OnOk result (BecomeCurrent table turn change.now stores.old.items views.now states.old.items
        states.new.items) }
    ensures stale { OnOk result (stale_in states.new.items ≡ stale_in states.old.items) }
    ensures err { OnErr result (AreLeftCurrent table turn change.now stores.old.items views.now states.old.items
        states.new.items) }
    ensures err_stale { OnErr result (stale_in states.new.items
        ≡ stale_in (lookups_stale table views.now states.old.items)) }
    ensures many { length states.new.items ≡ length states.old.items }
    ensures same_rows { HaveSameRows stores.old.items stores.new.items }
    ensures visits { visits_in stores.new.items ≤ visits_in stores.old.items + length views.now
        * count_referring stores.old.items views.now table change.now }
{
    let keys = match stores[table].named_keys(change) {
        Ok(keys) => keys,
        Err(refused) => {
            mark_lookups_stale(views, states, table);
            return Err(refused);
        }
    };
    follow_lookups_of(alloc, stores, views, states, table, change, turn, &keys)
}
