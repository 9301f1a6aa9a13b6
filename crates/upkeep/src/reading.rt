//! Reads what a view shows from its state.

ghost use Rattle.std.specs.Prelude.{
  ◌≡◌,
  ◌<◌,
  ◌≤◌,
  ◌+◌,
  ◌++◌,
  All,
  false,
  IfOk,
  IfSome,
  OnOk,
  Some,
  [],
  length,
  List,
  map,
  suc,
  true,
};
ghost use Rattle.std.specs.Option.{option_map};
ghost use Rattle.view_lang.specs.Cells.{rows_of};
ghost use Rattle.view_lang.specs.Config.{Table};
ghost use Rattle.view_lang.specs.ConfigRules.{IsLookup, IsView};
ghost use Rattle.view_lang.specs.Joined.{Side};
ghost use Rattle.view_lang.specs.TableRules.{IsTable};
ghost use Rattle.view_lang.specs.Outputs.{columns};
ghost use Rattle.view_lang.specs.Views.{shown_row, view_rows};
ghost use Rattle.row_keys.specs.Numbered.{numbered};
ghost use Rattle.row_keys.specs.Slots.{IsLiveAt, live, row_of};
ghost use Rattle.upkeep.specs.Inputs.{listed, side_from};
ghost use Rattle.upkeep.specs.JoinedRows.{AreLookedUp, JoinsWith, joined_cells, row_beside};
ghost use Rattle.upkeep.specs.Reading.{
  AreShown,
  FirstsAreShown,
  GroupsAreShown,
  IsReadable,
  LiveAreShown,
  WhereReadable,
  projected_at,
};
ghost use Rattle.upkeep.specs.Stores.{
  HaveSameRows,
  main_slots,
  slots_in,
  tables_in,
  visits_in,
};
ghost use Rattle.upkeep.specs.Touched.{opened_of};
ghost use Rattle.upkeep.specs.ViewStates.{IsCurrentFor, is_plain, projected_row};
ghost use Rattle.upkeep.specs.ViewedRows.{IsViewed, ShowsView, rows_shown};
ghost use Rattle.upkeep.specs.declared.view_state.Materialized.TheVariants as kept;

use crate::inputs::join_row;
use crate::joined_row::JoinedRow;
use crate::shown::{JoinedColumns, Shown, StoredColumns, are_many, shown_columns, shows_stored};
use crate::view_state::{Materialized, ViewState};
use group_order::RankedGroups;
use group_state::GroupRow;
use row_keys::{RowStore, Visits, numbers_law};
use std::alloc::{AllocError, Global};
use top_rows::Ordered;
use values::limits::MAX_MAIN_ROWS;
use values::{KeyBuffer, Row};
use view_lang::{
    Lookup, Output, Outputs, RowView, View, image_law, one_by_one_law, project, rows_law,
};

/// What can be read from a view's state. It does nothing: its contract is the theorem.
fn reading_law()
    ensures groups { GroupsAreShown }
    ensures live { LiveAreShown }
    ensures first { FirstsAreShown }
{
    image_law();
    numbers_law();
    one_by_one_law();
    rows_law();
}

/// The output row of a plain view with these outputs for the row of this number, which is visited.
fn make_row(
    alloc: Global,
    stores: &mut Vec<RowStore>,
    view: &View,
    outputs: &[Output],
    number: usize,
    keys: &mut KeyBuffer,
) -> Result<Option<Row>, AllocError>
    requires plain { view.now.outputs ≡ columns outputs.now }
    requires view { IsView (tables_in stores.old.items) view.now }
    requires main { 0 < length stores.old.items }
    requires there { number < length (main_slots stores.old.items) }
    ensures row { IfOk result (λ made. option_map (λ r. r.items) made
        ≡ projected_row view.now (side_from stores.old.items view.now) (row_of (main_slots stores.old.items) number)) }
    ensures same_rows { HaveSameRows stores.old.items stores.new.items }
    ensures visits { visits_in stores.new.items ≤ visits_in stores.old.items + 1 }
{
    let visit = stores[0].visit(number);
    let row = stores[0].row(visit);
    let joined = join_row(stores, view, row, keys)?;
    project_some(alloc, outputs, joined)
}

/// The output row of a joined row, if there is one.
fn project_some(
    alloc: Global,
    outputs: &[Output],
    joined: Option<JoinedRow<'_>>,
) -> Result<Option<Row>, AllocError>
    ensures { IfOk result (λ made. option_map (λ r. r.items) made
        ≡ option_map (shown_row outputs.now) (option_map joined_cells joined.entry)) }
{
    match joined {
        Some(row) => Ok(Some(project(alloc, outputs, &row)?)),
        None => Ok(None),
    }
}

/// The output rows of a plain view with these outputs for the rows of these numbers. Each is visited once.
fn make_rows(
    alloc: Global,
    stores: &mut Vec<RowStore>,
    view: &View,
    outputs: &[Output],
    numbers: &[usize],
) -> Result<Vec<Row>, AllocError>
    requires plain { view.now.outputs ≡ columns outputs.now }
    requires view { IsView (tables_in stores.old.items) view.now }
    requires main { 0 < length stores.old.items }
    requires there { All (λ n. n < length (main_slots stores.old.items)) numbers.now }
    ensures rows { IfOk result (λ made. rows_of made.items
        ≡ projected_at view.now (side_from stores.old.items view.now) (main_slots stores.old.items) numbers.now) }
    ensures same_rows { HaveSameRows stores.old.items stores.new.items }
    ensures visits { visits_in stores.new.items ≤ visits_in stores.old.items + length numbers.now }
{
    let mut keys = KeyBuffer::new(alloc);
    let mut made = Vec::with_capacity(alloc, numbers.len())?;
    for number in numbers {
        let row = make_row(alloc, stores, view, outputs, *number, &mut keys)?;
        push_some(&mut made, row)?;
    }
    Ok(made)
}

/// The numbers of the rows that a plain view shows where it shows each row in the order of row numbers.
fn first_live(alloc: Global, stores: &[RowStore], view: &View) -> Result<Vec<usize>, AllocError>
    requires { 0 < length stores.now }
    ensures { IfOk result (λ first. (tables : List Table) (side : Side)
        → IsReadable tables view.now side (main_slots stores.now) kept.Live
        → AreShown view.now side (main_slots stores.now) first.items) }
{
    reading_law();
    stores[0].first_live_numbers(alloc, view.first.unwrap_or(MAX_MAIN_ROWS))
}

/// The numbers of the rows that a plain view shows, in their order.
fn first_numbers(alloc: Global, view: &View, order: &Ordered) -> Result<Vec<usize>, AllocError>
    ensures { IfOk result (λ numbers. WhereReadable view.now (kept.Order order.now)
        (λ side slots. AreShown view.now side slots numbers.items)) }
{
    reading_law();
    order.first_of_view(alloc, view.first.unwrap_or(MAX_MAIN_ROWS))
}

/// Adds a row, if there is one.
#[tactic(auto, using(crate::proofs::InputRows::pushing))]
fn push_some(rows: &mut Vec<Row>, row: Option<Row>) -> Result<(), AllocError>
    ensures { OnOk result (rows_of rows.new.items ≡ rows_of rows.old.items ++ listed (option_map (λ r. r.items) row)) }
{
    match row {
        Some(row) => {
            rows.push(row)?;
            Ok(())
        }
        None => Ok(()),
    }
}

/// The numbers of the side table's rows that are looked up for visited rows, which are live, where there are such rows.
fn side_numbers(
    stores: &[RowStore],
    lookup: Lookup,
    visits: &Visits,
) -> Result<Vec<Option<usize>>, AllocError>
    requires main { 0 < length stores.now }
    requires lookup { IsLookup (tables_in stores.now) (Some lookup) }
    requires live { All (IsLiveAt (main_slots stores.now)) visits.now }
    ensures rows { IfOk result (λ numbers. AreLookedUp stores.now lookup visits.now numbers.items) }
    ensures live { IfOk result
        (λ numbers. All (λ o. IfSome o (IsLiveAt (slots_in stores.now (suc lookup.side)))) numbers.items) }
{
    stores[0].look_up(visits, lookup.on, &stores[lookup.side + 1])
}

/// Whether a view that looks up rows of a side table is written column by column for this many rows, from where they
/// are stored.
fn shows_joined(stores: &[RowStore], view: &View, lookup: Lookup, count: usize) -> bool
    requires { suc lookup.side < length stores.now }
    ensures { result ≡ true → view.now.coded_outputs ≡ [] }
{
    view.coded_outputs.is_empty()
        && are_many(count, stores[0].len())
        && are_many(count, stores[lookup.side + 1].len())
}

/// Visits the rows of these numbers.
fn visit_all(stores: &mut Vec<RowStore>, numbers: Vec<usize>) -> Visits
    requires { 0 < length stores.old.items }
    ensures numbers { result ≡ numbers.items }
    ensures same_rows { HaveSameRows stores.old.items stores.new.items }
    ensures visits { visits_in stores.new.items ≤ visits_in stores.old.items + length numbers.items }
{
    stores[0].visit_all(numbers)
}

/// The columns of joined rows that a plain view with these outputs shows for the rows of these numbers, which are live.
/// Only these are visited.
fn show_joined(
    alloc: Global,
    stores: &mut Vec<RowStore>,
    lookup: Lookup,
    outputs: &[Output],
    numbers: Vec<usize>,
) -> Result<JoinedColumns, AllocError>
    requires main { 0 < length stores.old.items }
    requires lookup { IsLookup (tables_in stores.old.items) (Some lookup) }
    requires live { All (IsLiveAt (main_slots stores.old.items)) numbers.items }
    ensures joined { IfOk result (JoinsWith stores.old.items lookup outputs.now numbers.items) }
    ensures same_rows { HaveSameRows stores.old.items stores.new.items }
    ensures visits { visits_in stores.new.items ≤ visits_in stores.old.items + length numbers.items }
{
    let columns = shown_columns(alloc, outputs)?;
    let visits = visit_all(stores, numbers);
    let side_numbers = side_numbers(stores, lookup, &visits)?;
    Ok(JoinedColumns {
        columns,
        visits,
        table: lookup.side + 1,
        side_numbers,
    })
}

/// The columns of the main table that a plain view with these outputs shows for the rows of these numbers. Only these
/// are visited.
fn show_stored(
    alloc: Global,
    stores: &mut Vec<RowStore>,
    outputs: &[Output],
    numbers: Vec<usize>,
) -> Result<StoredColumns, AllocError>
    requires { 0 < length stores.old.items }
    ensures columns { IfOk result (λ stored. stored.columns.items ≡ map (λ o. o.column) outputs.now) }
    ensures visits { IfOk result (λ stored. stored.visits ≡ numbers.items) }
    ensures same_rows { HaveSameRows stores.old.items stores.new.items }
    ensures counted { visits_in stores.new.items ≤ visits_in stores.old.items + length numbers.items }
{
    let columns = shown_columns(alloc, outputs)?;
    let visits = visit_all(stores, numbers);
    Ok(StoredColumns { columns, visits })
}

/// What a plain view with these outputs shows for the rows of these numbers. Only these are visited.
fn show_columns(
    alloc: Global,
    stores: &mut Vec<RowStore>,
    view: &View,
    outputs: &[Output],
    numbers: Vec<usize>,
) -> Result<Shown, AllocError>
    requires main { 0 < length stores.old.items }
    requires view { IsView (tables_in stores.old.items) view.now }
    requires plain { view.now.outputs ≡ columns outputs.now }
    requires shown { AreShown view.now (side_from stores.old.items view.now) (main_slots stores.old.items)
        numbers.items }
    ensures rows { IfOk result (ShowsView stores.old.items view.now) }
    ensures same_rows { HaveSameRows stores.old.items stores.new.items }
    ensures visits { visits_in stores.new.items ≤ visits_in stores.old.items + length numbers.items }
{
    if shows_stored(view, outputs, stores[0].table().columns.len()) {
        // It does nothing: the proof takes from it that live rows have a cell in each column.
        stores[0].rows_law();
        let stored = show_stored(alloc, stores, outputs, numbers)?;
        return Ok(Shown::Stored(stored));
    }
    if let Some(lookup) = view.lookup {
        if shows_joined(stores, view, lookup, numbers.len()) {
            let joined = show_joined(alloc, stores, lookup, outputs, numbers)?;
            return Ok(Shown::Joined(joined));
        }
    }
    let rows = make_rows(alloc, stores, view, outputs, &numbers)?;
    Ok(Shown::Rows(rows))
}

/// What a plain view shows for the rows of these numbers. Only these are visited.
fn show_numbers(
    alloc: Global,
    stores: &mut Vec<RowStore>,
    view: &View,
    numbers: Vec<usize>,
) -> Result<Shown, AllocError>
    requires main { 0 < length stores.old.items }
    requires view { IsView (tables_in stores.old.items) view.now }
    requires plain { is_plain view.now.outputs ≡ true }
    requires shown { AreShown view.now (side_from stores.old.items view.now) (main_slots stores.old.items)
        numbers.items }
    ensures rows { IfOk result (ShowsView stores.old.items view.now) }
    ensures same_rows { HaveSameRows stores.old.items stores.new.items }
    ensures visits { visits_in stores.new.items
        ≤ visits_in stores.old.items + length (rows_shown stores.old.items view.now) }
{
    match &view.outputs {
        Outputs::Columns(outputs) => show_columns(alloc, stores, view, outputs, numbers),
        Outputs::Groups { .. } => unreachable!(),
    }
}

/// What a plain view shows whose order is materialized.
fn show_first(
    alloc: Global,
    stores: &mut Vec<RowStore>,
    view: &View,
    order: &Ordered,
) -> Result<Shown, AllocError>
    requires main { 0 < length stores.old.items }
    requires kept { IsReadable (tables_in stores.old.items) view.now (side_from stores.old.items view.now)
        (main_slots stores.old.items) (kept.Order order.now) }
    ensures rows { IfOk result (ShowsView stores.old.items view.now) }
    ensures same_rows { HaveSameRows stores.old.items stores.new.items }
    ensures visits { visits_in stores.new.items
        ≤ visits_in stores.old.items + length (rows_shown stores.old.items view.now) }
{
    let numbers = first_numbers(alloc, view, order)?;
    show_numbers(alloc, stores, view, numbers)
}

/// What a plain view shows where it shows each row in the order of row numbers.
fn show_live(alloc: Global, stores: &mut Vec<RowStore>, view: &View) -> Result<Shown, AllocError>
    requires main { 0 < length stores.old.items }
    requires kept { IsReadable (tables_in stores.old.items) view.now (side_from stores.old.items view.now)
        (main_slots stores.old.items) kept.Live }
    ensures rows { IfOk result (ShowsView stores.old.items view.now) }
    ensures same_rows { HaveSameRows stores.old.items stores.new.items }
    ensures visits { visits_in stores.new.items
        ≤ visits_in stores.old.items + length (rows_shown stores.old.items view.now) }
{
    let numbers = first_live(alloc, stores, view)?;
    show_numbers(alloc, stores, view, numbers)
}

/// The rows that a view of groups shows. No other group is read.
fn group_rows(alloc: Global, view: &View, groups: &RankedGroups) -> Result<Vec<Row>, AllocError>
    ensures { IfOk result (λ rows. WhereReadable view.now (kept.Groups groups.now) (λ side slots. rows_of rows.items
        ≡ view_rows view.now side (live slots))) }
{
    reading_law();
    groups.first_rows(alloc, view.first.unwrap_or(MAX_MAIN_ROWS))
}

/// The rows that a view of groups shows, where they lie. `None` where the row that is shown lies nowhere. No other group
/// is read.
fn lend_groups<'a>(
    alloc: Global,
    view: &View,
    groups: &'a RankedGroups,
) -> Result<Option<Vec<GroupRow<'a>>>, AllocError>
    ensures { IfOk result (λ found. IfSome found (λ rows. WhereReadable view.now (kept.Groups groups.now)
        (λ side slots. rows.items ≡ view_rows view.now side (live slots)))) }
{
    reading_law();
    groups.first_group_rows(alloc, view.first.unwrap_or(MAX_MAIN_ROWS))
}

/// The rows that a view shows from its materialized groups, which aren't stale, where they lie. `None` where no groups
/// are materialized, and where the row that is shown lies nowhere.
pub(crate) fn lend_materialized<'a>(
    alloc: Global,
    stores: &[RowStore],
    view: &View,
    state: &'a ViewState,
) -> Result<Option<Vec<GroupRow<'a>>>, AllocError>
    requires viewed { IsViewed stores.now view.now }
    requires fresh { state.now.stale ≡ false }
    requires current { IsCurrentFor stores.now view.now state.now (numbered (main_slots stores.now)) }
    ensures { IfOk result (λ found. IfSome found (λ rows. rows.items ≡ rows_shown stores.now view.now)) }
{
    match &state.kept {
        Materialized::Groups(groups) => lend_groups(alloc, view, groups),
        Materialized::Live | Materialized::Order(_) => Ok(None),
    }
}

/// What a view shows, from its materialized rows, which aren't stale. A view of groups opens no row.
pub(crate) fn show_materialized(
    alloc: Global,
    stores: &mut Vec<RowStore>,
    view: &View,
    state: &ViewState,
) -> Result<Shown, AllocError>
    requires right { All IsTable (tables_in stores.old.items) }
    requires view { IsView (tables_in stores.old.items) view.now }
    requires main { 0 < length stores.old.items }
    requires viewed { IsViewed stores.old.items view.now }
    requires fresh { state.now.stale ≡ false }
    requires current { IsCurrentFor stores.old.items view.now state.now (numbered (main_slots stores.old.items)) }
    ensures rows { IfOk result (ShowsView stores.old.items view.now) }
    ensures same_rows { HaveSameRows stores.old.items stores.new.items }
    ensures visits { visits_in stores.new.items ≤ visits_in stores.old.items
        + opened_of view.now (side_from stores.old.items view.now) (main_slots stores.old.items) }
{
    match &state.kept {
        Materialized::Live => show_live(alloc, stores, view),
        Materialized::Order(order) => show_first(alloc, stores, view, order),
        Materialized::Groups(groups) => Ok(Shown::Rows(group_rows(alloc, view, groups)?)),
    }
}
