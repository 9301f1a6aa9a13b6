//! Updates the states of all views for rows of the main table that are inserted or deleted.

ghost use Rattle.std.specs.Prelude.{◌≡◌, ◌<◌, ◌≤◌, ◌+◌, ◌*◌, ◌∷◌, [], All, IfOk, List, OnErr, OnOk};
ghost use Rattle.std.specs.Prelude.{count_by, false, length, map, slice_set, true};
ghost use Rattle.row_keys.specs.Slots.{IsLiveAt, last_numbers, row_of};
ghost use Rattle.view_lang.specs.Config.{Table};
ghost use Rattle.view_lang.specs.Shifts.{NumberedRows};
ghost use Rattle.upkeep.specs.Arrivals.{EachDescribes, last_rows, rows_of_numbers};
ghost use Rattle.upkeep.specs.Following.{CanFollow, CanFollowMain, ViewsFollow};
ghost use Rattle.upkeep.specs.LiveParts.{AreOf};
ghost use Rattle.upkeep.specs.Stores.{HaveSameRows, Rows, main_slots, visits_in};
ghost use Rattle.upkeep.specs.ViewStates.{
  AreCurrentFor,
  AreIdle,
  EachIsCurrent,
  stale_in,
  turned,
  turned_last,
  width_in,
};
ghost use Rattle.upkeep.specs.declared.view_state.Turn.TheVariants as turn_is;

use crate::arrivals::{Arrival, arrival_at};
use crate::follow::{follow, follow_one, is_followed, visit};
use crate::view_state::{Turn, ViewState};
use row_keys::{RowStore, StoredRow};
use std::alloc::{AllocError, Global};
use values::KeyBuffer;
use view_lang::View;

/// The states of these views of tables without rows. The main table has `width` columns.
pub(crate) fn fresh_states(
    alloc: Global,
    views: &[View],
    width: usize,
) -> Result<Vec<ViewState>, AllocError>
    ensures current { IfOk result (λ states.
        (tables : List Table) → (rows : Rows) → width ≡ width_in tables
        → EachIsCurrent tables rows [] views.now states.items) }
    ensures stale { IfOk result (λ states. stale_in states.items ≡ map (λ _. false) views.now) }
{
    let mut states = Vec::with_capacity(alloc, views.len())?;
    for view in views {
        let state = ViewState::new(alloc, view, width)?;
        states.push(state)?;
    }
    Ok(states)
}

/// How many views are stale.
pub(crate) fn count_stale(states: &[ViewState]) -> usize
    ensures { result ≡ count_by (λ b. b) (stale_in states.now) }
{
    let mut count = 0;
    for state in states {
        if state.stale {
            count += 1;
        }
    }
    count
}

/// Replaces a state by another.
pub(crate) fn replace_state(states: &mut Vec<ViewState>, place: usize, state: ViewState)
    requires { place < length states.old.items }
    ensures { states.new.items ≡ slice_set states.old.items place state }
{
    states[place] = state;
}

/// Marks all views stale.
fn mark_all_stale(states: &mut Vec<ViewState>)
    ensures stale { All (λ s. s.stale ≡ true) states.new.items }
    ensures many { length states.new.items ≡ length states.old.items }
{
    for place in 0..states.len() {
        states[place].stale = true;
    }
}

/// Updates each view's state for rows of the main table that are inserted or deleted. If memory is refused, the states
/// of some views may still be those of the rows before.
fn follow_each(
    alloc: Global,
    stores: &mut Vec<RowStore>,
    views: &[View],
    states: &mut Vec<ViewState>,
    turn: Turn,
    numbers: &[usize],
    arrivals: &[Option<Arrival>],
) -> Result<(), AllocError>
    requires these { AreOf stores.old.items views.now }
    requires alike { length states.old.items ≡ length views.now }
    requires there { All (λ n. n < length (main_slots stores.old.items)) numbers.now }
    requires known { EachDescribes views.now (rows_of_numbers (main_slots stores.old.items) numbers.now) arrivals.now }
    requires fits { CanFollow (AreCurrentFor stores.old.items views.now states.old.items)
        (turned turn (main_slots stores.old.items) numbers.now) }
    ensures kept { OnOk result (ViewsFollow stores.old.items views.now states.old.items states.new.items
        (turned turn (main_slots stores.old.items) numbers.now)) }
    ensures stale { OnOk result (stale_in states.new.items ≡ stale_in states.old.items) }
    ensures many { length states.new.items ≡ length states.old.items }
    ensures same_rows { HaveSameRows stores.old.items stores.new.items }
    ensures visits { visits_in stores.new.items
        ≤ visits_in stores.old.items + length views.now * length numbers.now }
{
    for place in 0..views.len() {
        follow(
            alloc,
            stores,
            &views[place],
            &mut states[place],
            turn,
            numbers,
            arrival_at(arrivals, place, &None),
        )?;
    }
    Ok(())
}

/// Updates the views' states for rows of the main table that are inserted or deleted. After an error all are stale.
fn follow_all(
    alloc: Global,
    stores: &mut Vec<RowStore>,
    views: &[View],
    states: &mut Vec<ViewState>,
    turn: Turn,
    numbers: &[usize],
    arrivals: &[Option<Arrival>],
) -> Result<(), AllocError>
    requires these { AreOf stores.old.items views.now }
    requires there { All (λ n. n < length (main_slots stores.old.items)) numbers.now }
    requires known { EachDescribes views.now (rows_of_numbers (main_slots stores.old.items) numbers.now) arrivals.now }
    requires fits { CanFollow (AreCurrentFor stores.old.items views.now states.old.items)
        (turned turn (main_slots stores.old.items) numbers.now) }
    ensures kept { OnOk result (ViewsFollow stores.old.items views.now states.old.items states.new.items
        (turned turn (main_slots stores.old.items) numbers.now)) }
    ensures stale { OnOk result (stale_in states.new.items ≡ stale_in states.old.items) }
    ensures err { OnErr result ((tables : List Table) → (rows : Rows) → (live : NumberedRows)
        → EachIsCurrent tables rows live views.now states.new.items) }
    ensures same_rows { HaveSameRows stores.old.items stores.new.items }
    ensures visits { visits_in stores.new.items
        ≤ visits_in stores.old.items + length views.now * length numbers.now }
{
    match follow_each(alloc, stores, views, states, turn, numbers, arrivals) {
        Ok(()) => Ok(()),
        Err(refused) => {
            mark_all_stale(states);
            Err(refused)
        }
    }
}

/// Whether the state of one of these views is updated where rows are inserted or deleted.
fn is_any_followed(views: &[View], states: &[ViewState]) -> bool
    requires { length states.now ≡ length views.now }
    ensures idle { result ≡ false → AreIdle views.now states.now }
    ensures some { result ≡ true → 0 < length views.now }
{
    for place in 0..views.len() {
        if is_followed(&views[place], &states[place]) {
            return true;
        }
    }
    false
}

/// Updates each view's state for this row, which has this number, and is inserted, or live and deleted. If memory is
/// refused, the states are meaningless.
fn follow_stored(
    stores: &[RowStore],
    views: &[View],
    states: &mut Vec<ViewState>,
    turn: Turn,
    number: usize,
    row: &StoredRow<'_>,
    keys: &mut KeyBuffer,
) -> Result<(), AllocError>
    requires these { AreOf stores.now views.now }
    requires alike { length states.old.items ≡ length views.now }
    requires there { number < length (main_slots stores.now) }
    requires row { row.now ≡ row_of (main_slots stores.now) number }
    requires live { turn ≡ turn_is.Go → IsLiveAt (main_slots stores.now) number }
    requires fits { CanFollow (AreCurrentFor stores.now views.now states.old.items)
        (turned turn (main_slots stores.now) (number ∷ [])) }
    ensures kept { OnOk result (ViewsFollow stores.now views.now states.old.items states.new.items
        (turned turn (main_slots stores.now) (number ∷ []))) }
    ensures stale { OnOk result (stale_in states.new.items ≡ stale_in states.old.items) }
    ensures many { length states.new.items ≡ length states.old.items }
{
    for place in 0..views.len() {
        follow_one(
            stores,
            &views[place],
            &mut states[place],
            turn,
            number,
            row,
            keys,
        )?;
    }
    Ok(())
}

/// Updates each view's state for the row of this number, which is inserted, or live and deleted. It is visited once,
/// and not at all where no state is updated. If memory is refused, the states are meaningless.
fn follow_row(
    stores: &mut Vec<RowStore>,
    views: &[View],
    states: &mut Vec<ViewState>,
    turn: Turn,
    number: usize,
    keys: &mut KeyBuffer,
) -> Result<(), AllocError>
    requires these { AreOf stores.old.items views.now }
    requires alike { length states.old.items ≡ length views.now }
    requires there { number < length (main_slots stores.old.items) }
    requires live { turn ≡ turn_is.Go → IsLiveAt (main_slots stores.old.items) number }
    requires fits { CanFollow (AreCurrentFor stores.old.items views.now states.old.items)
        (turned turn (main_slots stores.old.items) (number ∷ [])) }
    ensures kept { OnOk result (ViewsFollow stores.old.items views.now states.old.items states.new.items
        (turned turn (main_slots stores.old.items) (number ∷ []))) }
    ensures stale { OnOk result (stale_in states.new.items ≡ stale_in states.old.items) }
    ensures many { length states.new.items ≡ length states.old.items }
    ensures same_rows { HaveSameRows stores.old.items stores.new.items }
    ensures visits { visits_in stores.new.items ≤ visits_in stores.old.items + length views.now }
{
    if !is_any_followed(views, states) {
        return Ok(());
    }
    let visit = visit(stores, number);
    let row = stores[0].row(visit);
    follow_stored(stores, views, states, turn, number, &row, keys)
}

/// Updates each view's state for the rows of these numbers, which are inserted, or live and deleted, row by row, so that
/// a row is looked for once. If memory is refused, the states are meaningless.
fn follow_each_row(
    alloc: Global,
    stores: &mut Vec<RowStore>,
    views: &[View],
    states: &mut Vec<ViewState>,
    turn: Turn,
    numbers: &[usize],
) -> Result<(), AllocError>
    requires these { AreOf stores.old.items views.now }
    requires alike { length states.old.items ≡ length views.now }
    requires there { All (λ n. n < length (main_slots stores.old.items)) numbers.now }
    requires live { turn ≡ turn_is.Go → All (IsLiveAt (main_slots stores.old.items)) numbers.now }
    requires fits { CanFollow (AreCurrentFor stores.old.items views.now states.old.items)
        (turned turn (main_slots stores.old.items) numbers.now) }
    ensures kept { OnOk result (ViewsFollow stores.old.items views.now states.old.items states.new.items
        (turned turn (main_slots stores.old.items) numbers.now)) }
    ensures stale { OnOk result (stale_in states.new.items ≡ stale_in states.old.items) }
    ensures many { length states.new.items ≡ length states.old.items }
    ensures same_rows { HaveSameRows stores.old.items stores.new.items }
    ensures visits { visits_in stores.new.items
        ≤ visits_in stores.old.items + length views.now * length numbers.now }
{
    let mut keys = KeyBuffer::new(alloc);
    for number in numbers {
        follow_row(stores, views, states, turn, *number, &mut keys)?;
    }
    Ok(())
}

/// Updates the views' states for the rows of these numbers, which are inserted, or live and deleted, and may lie far
/// from one another. After an error all are stale.
pub(crate) fn follow_scattered(
    alloc: Global,
    stores: &mut Vec<RowStore>,
    views: &[View],
    states: &mut Vec<ViewState>,
    turn: Turn,
    numbers: &[usize],
) -> Result<(), AllocError>
    requires these { AreOf stores.old.items views.now }
    requires there { All (λ n. n < length (main_slots stores.old.items)) numbers.now }
    requires live { turn ≡ turn_is.Go → All (IsLiveAt (main_slots stores.old.items)) numbers.now }
    requires fits { CanFollow (AreCurrentFor stores.old.items views.now states.old.items)
        (turned turn (main_slots stores.old.items) numbers.now) }
    ensures kept { OnOk result (ViewsFollow stores.old.items views.now states.old.items states.new.items
        (turned turn (main_slots stores.old.items) numbers.now)) }
    ensures stale { OnOk result (stale_in states.new.items ≡ stale_in states.old.items) }
    ensures err { OnErr result ((tables : List Table) → (rows : Rows) → (live : NumberedRows)
        → EachIsCurrent tables rows live views.now states.new.items) }
    ensures same_rows { HaveSameRows stores.old.items stores.new.items }
    ensures visits { visits_in stores.new.items
        ≤ visits_in stores.old.items + length views.now * length numbers.now }
{
    match follow_each_row(alloc, stores, views, states, turn, numbers) {
        Ok(()) => Ok(()),
        Err(refused) => {
            mark_all_stale(states);
            Err(refused)
        }
    }
}

/// Updates the views' states for the last rows of the main table, which are inserted or deleted and have these numbers.
/// After an error all are stale.
fn follow_these(
    alloc: Global,
    stores: &mut Vec<RowStore>,
    views: &[View],
    states: &mut Vec<ViewState>,
    turn: Turn,
    count: usize,
    numbers: &[usize],
    arrivals: &[Option<Arrival>],
) -> Result<(), AllocError>
    requires these { AreOf stores.old.items views.now }
    requires last { numbers.now ≡ last_numbers count (main_slots stores.old.items) }
    requires there { count ≤ length (main_slots stores.old.items) }
    requires known { EachDescribes views.now (last_rows count (main_slots stores.old.items)) arrivals.now }
    requires fits { CanFollowMain (AreCurrentFor stores.old.items views.now states.old.items)
        (turned_last turn (main_slots stores.old.items) count) }
    ensures kept { OnOk result (ViewsFollow stores.old.items views.now states.old.items states.new.items
        (turned_last turn (main_slots stores.old.items) count)) }
    ensures stale { OnOk result (stale_in states.new.items ≡ stale_in states.old.items) }
    ensures err { OnErr result ((tables : List Table) → (rows : Rows) → (live : NumberedRows)
        → EachIsCurrent tables rows live views.now states.new.items) }
    ensures same_rows { HaveSameRows stores.old.items stores.new.items }
    ensures visits { visits_in stores.new.items ≤ visits_in stores.old.items + length views.now * count }
{
    follow_all(alloc, stores, views, states, turn, numbers, arrivals)
}

/// Updates the views' states for the last rows of the main table, which are inserted or deleted. After an error all are
/// stale.
pub(crate) fn follow_last(
    alloc: Global,
    stores: &mut Vec<RowStore>,
    views: &[View],
    states: &mut Vec<ViewState>,
    turn: Turn,
    count: usize,
    arrivals: &[Option<Arrival>],
) -> Result<(), AllocError>
    requires these { AreOf stores.old.items views.now }
    requires there { count ≤ length (main_slots stores.old.items) }
    requires known { EachDescribes views.now (last_rows count (main_slots stores.old.items)) arrivals.now }
    requires fits { CanFollowMain (AreCurrentFor stores.old.items views.now states.old.items)
        (turned_last turn (main_slots stores.old.items) count) }
    ensures kept { OnOk result (ViewsFollow stores.old.items views.now states.old.items states.new.items
        (turned_last turn (main_slots stores.old.items) count)) }
    ensures stale { OnOk result (stale_in states.new.items ≡ stale_in states.old.items) }
    ensures err { OnErr result ((tables : List Table) → (rows : Rows) → (live : NumberedRows)
        → EachIsCurrent tables rows live views.now states.new.items) }
    ensures same_rows { HaveSameRows stores.old.items stores.new.items }
    ensures visits { visits_in stores.new.items ≤ visits_in stores.old.items + length views.now * count }
{
    // One number takes no memory.
    if count == 1 {
        let first = stores[0].appended() - count;
        return follow_these(
            alloc,
            stores,
            views,
            states,
            turn,
            count,
            &[first],
            arrivals,
        );
    }
    match stores[0].last_numbers(count) {
        Ok(numbers) => follow_these(
            alloc, stores, views, states, turn, count, &numbers, arrivals,
        ),
        Err(refused) => {
            mark_all_stale(states);
            Err(refused)
        }
    }
}
