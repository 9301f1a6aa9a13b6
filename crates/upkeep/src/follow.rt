//! Updates the state of a view for rows of the main table that are inserted or deleted.

ghost use Rattle.std.specs.Prelude.{
  ◌≡◌,
  ◌<◌,
  ◌≤◌,
  ◌+◌,
  [],
  ◌∷◌,
  All,
  false,
  get_or,
  IfOk,
  List,
  OnErr,
  OnOk,
  Option,
  length,
  true,
};
ghost use Rattle.std.specs.Option.{option_copied};
ghost use Rattle.values.specs.Datum.{Datum};
ghost use Rattle.view_lang.specs.ConfigRules.{IsView};
ghost use Rattle.row_keys.specs.Numbered.{numbered};
ghost use Rattle.row_keys.specs.Slots.{live, no_slot, row_of};
ghost use Rattle.upkeep.specs.Arrivals.{Describes, DescribesSome, opened_at, opened_first, rows_of_numbers};
ghost use Rattle.upkeep.specs.Following.{CanFollow, CanTurn, LinksFollow, MaterializedFollows, ViewFollows};
ghost use Rattle.upkeep.specs.Inputs.{side_from};
ghost use Rattle.upkeep.specs.Stores.{HaveSameRows, main_slots, rows_in, tables_in, visits_in};
ghost use Rattle.upkeep.specs.ViewStates.{
  IsCurrentFor,
  IsDroppedLink,
  IsIdle,
  IsMaterialized,
  KeepsLinks,
  columns_in,
  form_of,
  link_change,
  projected_change,
  projected_row,
  turned,
  turned_by,
};
ghost use Rattle.upkeep.specs.declared.view_state.Turn.TheVariants as turn_is;

use crate::arrivals::Arrival;
use crate::inputs::{join_row, keep_row};
use crate::turning::{turn_joined, turn_link, turn_referrer};
use crate::view_state::{Links, Materialized, Turn, ViewState, materializes_nothing};
use row_keys::{RowStore, StoredRow, Visit, numbers_law};
use std::alloc::{AllocError, Global};
use values::{KeyBuffer, Value};
use view_lang::{View, image_law};

/// Updates the state of a view for a row of the main table that is inserted or deleted: the row is joined, filtered and
/// projected where it lies. After an error the state is meaningless.
fn turn_main_row(
    stores: &[RowStore],
    view: &View,
    kept: &mut Materialized,
    turn: Turn,
    number: usize,
    row: StoredRow<'_>,
    keys: &mut KeyBuffer,
) -> Result<(), AllocError>
    requires view { IsView (tables_in stores.now) view.now }
    requires fits { CanTurn (IsMaterialized view.now kept.old) (turned_by turn number
        (projected_row view.now (side_from stores.now view.now) row) ∷ []) }
    ensures columns { OnOk result (columns_in kept.new ≡ columns_in kept.old) }
    ensures kept { OnOk result (MaterializedFollows view.now kept.old kept.new
        (turned_by turn number (projected_row view.now (side_from stores.now view.now) row.entry) ∷ [])) }
{
    if let Materialized::Live = kept {
        return Ok(());
    }
    if view.lookup.is_none() {
        return turn_joined(view, kept, turn, number, &keep_row(view, row));
    }
    let joined = join_row(stores, view, row, keys)?;
    turn_joined(view, kept, turn, number, &joined)
}

/// Whether the row of this number is to be deleted and isn't live: then nothing is to be done.
fn is_gone(stores: &[RowStore], turn: Turn, number: usize) -> bool
    requires main { 0 < length stores.now }
    requires there { number < length (main_slots stores.now) }
    ensures gone { result ≡ true → (turn ≡ turn_is.Go) × ((get_or (main_slots stores.now) number no_slot).live
        ≡ false) }
    ensures there { result ≡ false → turn ≡ turn_is.Go → (get_or (main_slots stores.now) number no_slot).live ≡ true }
{
    match turn {
        Turn::Come => false,
        Turn::Go => !stores[0].is_live(number),
    }
}

/// Updates links for a row that the filter drops, whose looked-up cell this is. Such a row is in no sub-group.
fn turn_dropped(
    links: &mut Links,
    turn: Turn,
    number: usize,
    looked_up: Option<&Value>,
) -> Result<(), AllocError>
    ensures kept { OnOk result ((row : Option (List Datum))
        → IsDroppedLink links.old (option_copied looked_up.entry) row
        → LinksFollow links.old links.new (turned_by turn number row ∷ [])) }
    ensures form { OnOk result (form_of links.new ≡ form_of links.old) }
{
    match links {
        Links::Rows(referrers) => {
            let Some(cell) = looked_up else {
                return Ok(());
            };
            turn_referrer(referrers, turn, number, cell.view())?;
            return Ok(());
        }
        Links::SubGroups(_) => return Ok(()),
    }
}

/// Updates the state of a view for this row, which has this number, and is inserted, or live and deleted.
fn turn_stored(
    stores: &[RowStore],
    view: &View,
    state: &mut ViewState,
    turn: Turn,
    number: usize,
    row: &StoredRow<'_>,
    keys: &mut KeyBuffer,
) -> Result<(), AllocError>
    requires view { IsView (tables_in stores.now) view.now }
    requires main { 0 < length stores.now }
    requires there { number < length (main_slots stores.now) }
    requires row { row.now ≡ row_of (main_slots stores.now) number }
    requires live { turn ≡ turn_is.Go → (get_or (main_slots stores.now) number no_slot).live ≡ true }
    requires fits { CanTurn (IsMaterialized view.now state.old.kept)
        (projected_change (tables_in stores.now) (rows_in stores.now) view.now turn (number ∷ [])) }
    requires links { CanTurn (KeepsLinks state.old.links)
        (link_change (main_slots stores.now) state.old.links view.now turn (number ∷ [])) }
    ensures kept { OnOk result (MaterializedFollows view.now state.old.kept state.new.kept
        (projected_change (tables_in stores.now) (rows_in stores.now) view.now turn (number ∷ []))) }
    ensures columns { OnOk result (columns_in state.new.kept ≡ columns_in state.old.kept) }
    ensures links { OnOk result (LinksFollow state.old.links state.new.links
        (link_change (main_slots stores.now) state.old.links view.now turn (number ∷ []))) }
    ensures form { OnOk result (form_of state.new.links ≡ form_of state.old.links) }
    ensures stale { state.new.stale ≡ state.old.stale }
{
    turn_link(&mut state.links, view, turn, number, row)?;
    turn_main_row(
        stores,
        view,
        &mut state.kept,
        turn,
        number,
        row.again(),
        keys,
    )
}

/// Visits the row of this number of the main table.
pub(crate) fn visit(stores: &mut Vec<RowStore>, number: usize) -> Visit
    requires { 0 < length stores.old.items }
    ensures number { result ≡ number }
    ensures same_rows { HaveSameRows stores.old.items stores.new.items }
    ensures counted { visits_in stores.new.items ≤ visits_in stores.old.items + 1 }
{
    stores[0].visit(number)
}

/// Updates the state of a view for the row of this number, which is inserted, or live and deleted. It is visited.
fn turn_visited(
    stores: &mut Vec<RowStore>,
    view: &View,
    state: &mut ViewState,
    turn: Turn,
    number: usize,
    keys: &mut KeyBuffer,
) -> Result<(), AllocError>
    requires view { IsView (tables_in stores.old.items) view.now }
    requires main { 0 < length stores.old.items }
    requires there { number < length (main_slots stores.old.items) }
    requires live { turn ≡ turn_is.Go → (get_or (main_slots stores.old.items) number no_slot).live ≡ true }
    requires fits { CanTurn (IsMaterialized view.now state.old.kept)
        (projected_change (tables_in stores.old.items) (rows_in stores.old.items) view.now turn (number ∷ [])) }
    requires links { CanTurn (KeepsLinks state.old.links)
        (link_change (main_slots stores.old.items) state.old.links view.now turn (number ∷ [])) }
    ensures kept { OnOk result (MaterializedFollows view.now state.old.kept state.new.kept
        (projected_change (tables_in stores.old.items) (rows_in stores.old.items) view.now turn (number ∷ []))) }
    ensures columns { OnOk result (columns_in state.new.kept ≡ columns_in state.old.kept) }
    ensures links { OnOk result (LinksFollow state.old.links state.new.links
        (link_change (main_slots stores.old.items) state.old.links view.now turn (number ∷ []))) }
    ensures form { OnOk result (form_of state.new.links ≡ form_of state.old.links) }
    ensures stale { state.new.stale ≡ state.old.stale }
    ensures same_rows { HaveSameRows stores.old.items stores.new.items }
    ensures visits { visits_in stores.new.items ≤ visits_in stores.old.items + 1 }
{
    let visit = visit(stores, number);
    let row = stores[0].row(visit);
    turn_stored(stores, view, state, turn, number, &row, keys)
}

/// Updates the state of a view for the row of this number, which is inserted or deleted as row `index` of a list. It
/// isn't visited where it is known that the view drops it. A row that isn't live isn't deleted.
fn follow_number(
    stores: &mut Vec<RowStore>,
    view: &View,
    state: &mut ViewState,
    turn: Turn,
    number: usize,
    arrival: &Option<Arrival>,
    index: usize,
    keys: &mut KeyBuffer,
) -> Result<(), AllocError>
    requires view { IsView (tables_in stores.old.items) view.now }
    requires main { 0 < length stores.old.items }
    requires there { number < length (main_slots stores.old.items) }
    requires known { DescribesSome view.now arrival.now index (row_of (main_slots stores.old.items) number) }
    requires fits { CanTurn (IsMaterialized view.now state.old.kept)
        (projected_change (tables_in stores.old.items) (rows_in stores.old.items) view.now turn (number ∷ [])) }
    requires links { CanTurn (KeepsLinks state.old.links)
        (link_change (main_slots stores.old.items) state.old.links view.now turn (number ∷ [])) }
    ensures kept { OnOk result (MaterializedFollows view.now state.old.kept state.new.kept
        (projected_change (tables_in stores.old.items) (rows_in stores.old.items) view.now turn (number ∷ []))) }
    ensures columns { OnOk result (columns_in state.new.kept ≡ columns_in state.old.kept) }
    ensures links { OnOk result (LinksFollow state.old.links state.new.links
        (link_change (main_slots stores.old.items) state.old.links view.now turn (number ∷ []))) }
    ensures form { OnOk result (form_of state.new.links ≡ form_of state.old.links) }
    ensures stale { state.new.stale ≡ state.old.stale }
    ensures same_rows { HaveSameRows stores.old.items stores.new.items }
    ensures visits { visits_in stores.new.items ≤ visits_in stores.old.items + opened_at arrival.now index }
{
    if is_gone(stores, turn, number) {
        return Ok(());
    }
    if let Some(arrival) = arrival {
        if arrival.drops(index) {
            return turn_dropped(&mut state.links, turn, number, arrival.looked_up(index));
        }
    }
    turn_visited(stores, view, state, turn, number, keys)
}

/// Whether the state of a view is updated where rows are inserted or deleted: it isn't stale, and something is stored
/// for it.
pub(crate) fn is_followed(view: &View, state: &ViewState) -> bool
    ensures idle { result ≡ false → IsIdle view.now state.now }
    ensures fresh { result ≡ true → state.now.stale ≡ false }
{
    !state.stale && !materializes_nothing(view, state)
}

/// Updates the state of a view for this row, which has this number, and is inserted, or live and deleted. A stale view
/// is left as it is; after an error its state is meaningless.
pub(crate) fn follow_one(
    stores: &[RowStore],
    view: &View,
    state: &mut ViewState,
    turn: Turn,
    number: usize,
    row: &StoredRow<'_>,
    keys: &mut KeyBuffer,
) -> Result<(), AllocError>
    requires view { IsView (tables_in stores.now) view.now }
    requires main { 0 < length stores.now }
    requires there { number < length (main_slots stores.now) }
    requires row { row.now ≡ row_of (main_slots stores.now) number }
    requires live { turn ≡ turn_is.Go → (get_or (main_slots stores.now) number no_slot).live ≡ true }
    requires fits { CanFollow (IsCurrentFor stores.now view.now state.old)
        (turned turn (main_slots stores.now) (number ∷ [])) }
    ensures kept { OnOk result (ViewFollows stores.now view.now state.old state.new
        (turned turn (main_slots stores.now) (number ∷ []))) }
    ensures stale { state.new.stale ≡ state.old.stale }
{
    image_law();
    if !is_followed(view, state) {
        return Ok(());
    }
    turn_stored(stores, view, state, turn, number, row, keys)
}

/// Updates the state of a view for the rows of these numbers, which are inserted or deleted. Each is visited at most
/// once, and not at all where it is known that the view drops it.
fn follow_numbers(
    alloc: Global,
    stores: &mut Vec<RowStore>,
    view: &View,
    state: &mut ViewState,
    turn: Turn,
    numbers: &[usize],
    arrival: &Option<Arrival>,
) -> Result<(), AllocError>
    requires view { IsView (tables_in stores.old.items) view.now }
    requires main { 0 < length stores.old.items }
    requires there { All (λ n. n < length (main_slots stores.old.items)) numbers.now }
    requires known { Describes view.now (rows_of_numbers (main_slots stores.old.items) numbers.now) arrival.now }
    requires fits { CanFollow (IsMaterialized view.now state.old.kept)
        (projected_change (tables_in stores.old.items) (rows_in stores.old.items) view.now turn numbers.now) }
    requires links { CanFollow (KeepsLinks state.old.links)
        (link_change (main_slots stores.old.items) state.old.links view.now turn numbers.now) }
    ensures kept { OnOk result (MaterializedFollows view.now state.old.kept state.new.kept
        (projected_change (tables_in stores.old.items) (rows_in stores.old.items) view.now turn numbers.now)) }
    ensures columns { OnOk result (columns_in state.new.kept ≡ columns_in state.old.kept) }
    ensures links { OnOk result (LinksFollow state.old.links state.new.links
        (link_change (main_slots stores.old.items) state.old.links view.now turn numbers.now)) }
    ensures form { OnOk result (form_of state.new.links ≡ form_of state.old.links) }
    ensures stale { state.new.stale ≡ state.old.stale }
    ensures same_rows { HaveSameRows stores.old.items stores.new.items }
    ensures visits { visits_in stores.new.items
        ≤ visits_in stores.old.items + opened_first arrival.now (length numbers.now) }
{
    let mut keys = KeyBuffer::new(alloc);
    for index in 0..numbers.len() {
        follow_number(
            stores,
            view,
            state,
            turn,
            numbers[index],
            arrival,
            index,
            &mut keys,
        )?;
    }
    Ok(())
}

/// Updates the state of a view for rows of the main table that are inserted or deleted. No row is opened of which it is
/// known that the view drops it. A stale view is left as it is; after an error it is stale.
#[tactic(auto, using(crate::proofs::ArrivalRows::opened_laws))]
pub(crate) fn follow(
    alloc: Global,
    stores: &mut Vec<RowStore>,
    view: &View,
    state: &mut ViewState,
    turn: Turn,
    numbers: &[usize],
    arrival: &Option<Arrival>,
) -> Result<(), AllocError>
    requires view { IsView (tables_in stores.old.items) view.now }
    requires main { 0 < length stores.old.items }
    requires there { All (λ n. n < length (main_slots stores.old.items)) numbers.now }
    requires known { Describes view.now (rows_of_numbers (main_slots stores.old.items) numbers.now) arrival.now }
    requires fits { CanFollow (IsCurrentFor stores.old.items view.now state.old)
        (turned turn (main_slots stores.old.items) numbers.now) }
    ensures kept { OnOk result (ViewFollows stores.old.items view.now state.old state.new
        (turned turn (main_slots stores.old.items) numbers.now)) }
    ensures stale { OnOk result (state.new.stale ≡ state.old.stale) }
    ensures left { state.old.stale ≡ true → state.new ≡ state.old }
    ensures err { OnErr result (state.new.stale ≡ true) }
    ensures same_rows { HaveSameRows stores.old.items stores.new.items }
    ensures visits { visits_in stores.new.items ≤ visits_in stores.old.items + length numbers.now }
    ensures opened { visits_in stores.new.items
        ≤ visits_in stores.old.items + opened_first arrival.now (length numbers.now) }
    ensures stale_visits { state.old.stale ≡ true → visits_in stores.new.items ≡ visits_in stores.old.items }
{
    image_law();
    if state.stale {
        return Ok(());
    }
    if materializes_nothing(view, state) {
        return Ok(());
    }
    let followed = follow_numbers(alloc, stores, view, state, turn, numbers, arrival);
    if followed.is_err() {
        state.stale = true;
    }
    followed
}

/// Builds the state of a view anew from all live rows of the main table.
pub(crate) fn rebuild(
    alloc: Global,
    stores: &mut Vec<RowStore>,
    view: &View,
) -> Result<ViewState, AllocError>
    requires view { IsView (tables_in stores.old.items) view.now }
    requires main { 0 < length stores.old.items }
    ensures fresh { IfOk result (λ state. state.stale ≡ false) }
    ensures current { IfOk result (λ state. IsCurrentFor stores.old.items view.now state
        (numbered (main_slots stores.old.items))) }
    ensures same_rows { HaveSameRows stores.old.items stores.new.items }
    ensures visits { visits_in stores.new.items ≤ visits_in stores.old.items
        + length (live (main_slots stores.old.items)) }
{
    numbers_law();
    let numbers = stores[0].live_numbers()?;
    let width = stores[0].table().columns.len();
    let mut state = ViewState::new(alloc, view, width)?;
    follow(alloc, stores, view, &mut state, Turn::Come, &numbers, &None)?;
    Ok(state)
}
