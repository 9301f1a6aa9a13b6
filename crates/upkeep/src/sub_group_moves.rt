//! Moves sub-groups of a view from group to group, where rows of the side table change that they look up.

ghost use Rattle.std.specs.Prelude.{◌≡◌, ◌++◌, ◌<◌, IfOk, OnOk, length, replicate, true};
ghost use Rattle.std.specs.List.Sorted.{IsStrictlySortedBy};
ghost use Rattle.std.specs.Option.{option_map};
ghost use Rattle.values.specs.Datum.{null};
ghost use Rattle.view_lang.specs.ConfigRules.{IsLookup, IsView};
ghost use Rattle.view_lang.specs.Images.{image};
ghost use Rattle.view_lang.specs.Joined.{joined_row, or_missing};
ghost use Rattle.view_lang.specs.Views.{side_in};
ghost use Rattle.view_lang.specs.World.{table_at};
ghost use Rattle.group_state.specs.Keys.{tuple_cmp};
ghost use Rattle.group_state.specs.Tuples.{tuple_of as tuple_by};
ghost use Rattle.row_keys.specs.Numbered.{numbered};
ghost use Rattle.upkeep.specs.Inputs.{side_by, side_from};
ghost use Rattle.upkeep.specs.Moves.{
  CanMove,
  CanTurnSubGroup,
  CanTurnSubGroups,
  TurnsSubGroup,
  TurnsSubGroups,
  representative_row_of,
};
ghost use Rattle.upkeep.specs.Stores.{HaveSameRows, main_slots, rows_at, rows_in, tables_in, visits_in, world_of};
ghost use Rattle.upkeep.specs.Swaps.{CanSwap};
ghost use Rattle.upkeep.specs.ViewStates.{
  AreLinks,
  IsMaterializedLive,
  KeepsLinks,
  columns_in,
  looks_up,
  sub_row_of,
  swapped_at,
};
ghost use Rattle.upkeep.specs.declared.view_state.Links.TheVariants as links;

use crate::inputs::look_up;
use crate::swaps::swap;
use crate::view_state::{Materialized, Turn};
use group_order::RankedGroups;
use group_state::Tuple;
use row_keys::{RowStore, StoredRow, TableChange, numbers_law};
use std::alloc::{AllocError, Global};
use sub_groups::{SubGroups, passes_others, sub_group_law};
use values::{KeyBuffer, Kind, Row, Value};
use view_lang::{Lookup, Missing, View, image_law};

/// Appends cells to a row.
fn extend(row: &mut Row, more: Row) -> Result<(), AllocError>
    ensures { OnOk result (row.new.items ≡ row.old.items ++ more.items) }
{
    for cell in more {
        row.push(cell)?;
    }
    Ok(())
}

/// This many nulls.
fn nulls(alloc: Global, count: usize) -> Result<Row, AllocError>
    ensures { IfOk result (λ row. row.items ≡ replicate count null) }
{
    let mut row = Vec::with_capacity(alloc, count)?;
    for _ in 0..count {
        row.push(Value { kind: Kind::Null })?;
    }
    Ok(row)
}

/// The cells of a side table's row, or nulls in their place; `None` where a row without one is left out.
fn side_cells(
    alloc: Global,
    lookup: Lookup,
    side: Option<StoredRow<'_>>,
) -> Result<Option<Row>, AllocError>
    ensures { IfOk result
        (λ cells. option_map (λ c. c.items) cells ≡ or_missing lookup.missing lookup.columns side.entry) }
{
    match (side, lookup.missing) {
        (Some(side), _) => Ok(Some(side.copy(alloc)?)),
        (None, Missing::Null) => Ok(Some(nulls(alloc, lookup.columns)?)),
        (None, Missing::Drop) => Ok(None),
    }
}

/// A row of the main table, joined with the side table's row for it; `None` where it is left out.
fn joined(
    alloc: Global,
    stores: &[RowStore],
    lookup: Option<Lookup>,
    row: Row,
    keys: &mut KeyBuffer,
) -> Result<Option<Row>, AllocError>
    requires { IsLookup (tables_in stores.now) lookup }
    ensures { IfOk result (λ made. option_map (λ r. r.items) made
        ≡ joined_row lookup (side_in (tables_in stores.now) (world_of (rows_in stores.now)) lookup) row.items) }
{
    let side = look_up(stores, lookup, &row.as_slice(), keys)?;
    let Some(lookup) = lookup else {
        return Ok(Some(row));
    };
    let Some(cells) = side_cells(alloc, lookup, side)? else {
        return Ok(None);
    };
    let mut row = row;
    extend(&mut row, cells)?;
    Ok(Some(row))
}

/// The tuple of the group to which the rows of a sub-group belong; `None` where the view leaves them out.
fn place_of(
    alloc: Global,
    stores: &[RowStore],
    view: &View,
    groups: &RankedGroups,
    sub_groups: &SubGroups,
    tuple: &Tuple,
    keys: &mut KeyBuffer,
) -> Result<Option<Tuple>, AllocError>
    requires view { IsView (tables_in stores.now) view.now }
    requires main { 0 < length stores.now }
    ensures { IfOk result (λ place. place ≡ option_map (tuple_by groups.now.groups.keys)
        (representative_row_of stores.now view.now sub_groups.now tuple.now)) }
{
    let width = stores[0].table().columns.len();
    let representative = sub_groups.representative(alloc, width, tuple)?;
    let Some(row) = joined(alloc, stores, view.lookup, representative, keys)? else {
        return Ok(None);
    };
    if !passes_others(&view.filter, width, &row.as_slice()) {
        return Ok(None);
    }
    let place = groups.tuple_of(&row.as_slice())?;
    Ok(Some(place))
}

/// Removes the rows of a sub-group from the group to which they belong, or adds them to it.
fn turn_sub_group(
    alloc: Global,
    stores: &[RowStore],
    view: &View,
    groups: &mut RankedGroups,
    sub_groups: &SubGroups,
    turn: Turn,
    tuple: &Tuple,
    keys: &mut KeyBuffer,
) -> Result<(), AllocError>
    requires view { IsView (tables_in stores.now) view.now }
    requires main { 0 < length stores.now }
    requires can { CanMove (tables_in stores.now) view.now sub_groups.now groups.old }
    requires parted { CanTurnSubGroup stores.now view.now sub_groups.now tuple.now turn groups.old }
    ensures kept { OnOk result (TurnsSubGroup stores.now view.now sub_groups.now tuple.now turn groups.old groups.new) }
    ensures keys { OnOk result (groups.new.groups.keys ≡ groups.old.groups.keys) }
    ensures columns { OnOk result (groups.new.groups.columns ≡ groups.old.groups.columns) }
    ensures ranking { groups.new.ranking ≡ groups.old.ranking }
{
    // It does nothing: the proof takes from it to which group the rows of a sub-group belong.
    sub_group_law();
    let Some(group) = sub_groups.group(tuple) else {
        return Ok(());
    };
    let Some(place) = place_of(alloc, stores, view, groups, sub_groups, tuple, keys)? else {
        return Ok(());
    };
    match turn {
        Turn::Come => {
            groups.take_in(&place, group)?;
            return Ok(());
        }
        Turn::Go => {
            groups.give_up(&place, group)?;
            return Ok(());
        }
    }
}

/// Removes the rows of these sub-groups from the groups to which they belong, or adds them to these.
fn turn_sub_groups(
    alloc: Global,
    stores: &[RowStore],
    view: &View,
    groups: &mut RankedGroups,
    sub_groups: &SubGroups,
    turn: Turn,
    tuples: &[Tuple],
) -> Result<(), AllocError>
    requires view { IsView (tables_in stores.now) view.now }
    requires main { 0 < length stores.now }
    requires can { CanMove (tables_in stores.now) view.now sub_groups.now groups.old }
    requires ascending { IsStrictlySortedBy tuple_cmp tuples.now }
    requires kept { CanTurnSubGroups stores.now view.now sub_groups.now tuples.now turn groups.old }
    ensures kept { OnOk result (TurnsSubGroups stores.now view.now sub_groups.now tuples.now turn groups.old
        groups.new) }
    ensures keys { OnOk result (groups.new.groups.keys ≡ groups.old.groups.keys) }
    ensures columns { OnOk result (groups.new.groups.columns ≡ groups.old.groups.columns) }
    ensures ranking { groups.new.ranking ≡ groups.old.ranking }
{
    // It does nothing: the proof takes from it how rows are counted by sub-groups.
    sub_group_law();
    let mut keys = KeyBuffer::new(alloc);
    for index in 0..tuples.len() {
        turn_sub_group(
            alloc,
            stores,
            view,
            groups,
            sub_groups,
            turn,
            &tuples[index],
            &mut keys,
        )?;
    }
    Ok(())
}

/// Updates the groups of a view for a change of a side table that it looks up: each sub-group of rows that refer to a
/// key that the change names is removed from the group to which it belonged, and added to the one to which it belongs
/// now. No row is opened. After an error the groups are meaningless.
pub(crate) fn move_sub_groups(
    alloc: Global,
    stores: &mut Vec<RowStore>,
    view: &View,
    kept: &mut Materialized,
    sub_groups: &SubGroups,
    table: usize,
    change: &TableChange,
    turn: Turn,
) -> Result<(), AllocError>
    requires view { IsView (tables_in stores.old.items) view.now }
    requires main { 0 < length stores.old.items }
    requires side { 0 < table }
    requires there { table < length stores.old.items }
    requires looks { looks_up view.now.lookup table ≡ true }
    requires swaps { CanSwap turn (table_at (tables_in stores.old.items) table) change.now
        (rows_at (rows_in stores.old.items) table) }
    requires right { AreLinks (tables_in stores.old.items) view.now kept.old (links.SubGroups sub_groups.now) }
    requires kept { IsMaterializedLive view.now kept.old (side_by (tables_in stores.old.items)
        (swapped_at table turn change.now (rows_in stores.old.items)) view.now) (main_slots stores.old.items) }
    requires links { KeepsLinks (links.SubGroups sub_groups.now)
        (image (sub_row_of view.now) (numbered (main_slots stores.old.items))) }
    ensures kept { OnOk result (IsMaterializedLive view.now kept.new (side_from stores.old.items view.now)
        (main_slots stores.old.items)) }
    ensures columns { OnOk result (columns_in kept.new ≡ columns_in kept.old) }
    ensures same_rows { HaveSameRows stores.old.items stores.new.items }
    ensures visits { visits_in stores.new.items ≡ visits_in stores.old.items }
{
    // They do nothing: the proof takes from them what the rows of the main table are.
    image_law();
    numbers_law();
    sub_group_law();
    stores[0].rows_law();
    let Materialized::Groups(groups) = kept else {
        unreachable!()
    };
    let cells = stores[table].named_cells(change)?;
    let tuples = sub_groups.tuples_under(&cells)?;
    swap(&mut stores[table], change, turn);
    let gone = turn_sub_groups(alloc, stores, view, groups, sub_groups, Turn::Go, &tuples);
    swap(&mut stores[table], change, turn.opposite());
    gone?;
    turn_sub_groups(alloc, stores, view, groups, sub_groups, Turn::Come, &tuples)
}
