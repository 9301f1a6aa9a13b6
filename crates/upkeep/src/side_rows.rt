//! Copies of the rows of a side table that have the keys which a change names.

ghost use Rattle.std.specs.Prelude.{◌≡◌, IfOk, map};
ghost use Rattle.std.specs.Option.{option_map};
ghost use Rattle.values.specs.Keys.{datum_of_key};
ghost use Rattle.view_lang.specs.Joined.{looked_up, side_of};
ghost use Rattle.view_lang.specs.TableRules.{IsSideTable};
ghost use Rattle.row_keys.specs.Slots.{contents_of};
ghost use Rattle.upkeep.specs.SideRows.{AreOfKeys, side_of_rows};
ghost use Rattle.upkeep.specs.Swaps.{CanSwap, swapped};

use crate::swaps::swap;
use crate::view_state::Turn;
use row_keys::{RowStore, StoredRow, TableChange};
use std::alloc::{AllocError, Global};
use std::collections::BTreeMap;
use values::{Key, KeyBuffer, Row, Value, key_law};
use view_lang::{Lookup, RowView};

/// The rows of a side table by the keys that a change names, without the change and with it; `None` for a key that no
/// row has.
#[derive(Drop)]
pub(crate) struct SideRows {
    pub before: BTreeMap<Key, Option<Row>>,
    pub after: BTreeMap<Key, Option<Row>>,
}

/// A copy of the live row of a side table with this key, if there is one.
fn row_with_key(alloc: Global, store: &RowStore, key: &Key) -> Result<Option<Row>, AllocError>
    requires { IsSideTable store.now.table }
    ensures { IfOk result (λ row. option_map (λ r. r.items) row
        ≡ side_of store.now.table (contents_of store.now.slots) (datum_of_key key.now)) }
{
    match store.get(key) {
        Some(row) => Ok(Some(row.copy(alloc)?)),
        None => Ok(None),
    }
}

/// Copies of the live rows of a side table with these keys.
fn rows_with_keys(
    alloc: Global,
    store: &RowStore,
    keys: &[Key],
) -> Result<BTreeMap<Key, Option<Row>>, AllocError>
    requires { IsSideTable store.now.table }
    ensures { IfOk result (λ rows. AreOfKeys (map datum_of_key keys.now)
        (side_of store.now.table (contents_of store.now.slots)) rows.entries) }
{
    // It does nothing: the proof takes from it that keys are equal as the values that they are.
    key_law();
    let mut rows = BTreeMap::new(alloc);
    for key in keys {
        let row = row_with_key(alloc, store, key)?;
        rows.insert(key.copy(alloc)?, row)?;
    }
    Ok(rows)
}

/// The rows of a side table with these keys, before the change that `turn` made or reverted, and now. The store is left
/// as it was.
pub(crate) fn side_rows(
    alloc: Global,
    store: &mut RowStore,
    change: &TableChange,
    turn: Turn,
    keys: &[Key],
) -> Result<SideRows, AllocError>
    requires side { IsSideTable store.old.table }
    requires swaps { CanSwap turn store.old.table change.now store.old.slots }
    ensures before { IfOk result (λ rows. AreOfKeys (map datum_of_key keys.now)
        (side_of store.old.table (contents_of (swapped turn change.now store.old.slots))) rows.before.entries) }
    ensures after { IfOk result (λ rows. AreOfKeys (map datum_of_key keys.now)
        (side_of store.old.table (contents_of store.old.slots)) rows.after.entries) }
    ensures same { store.new ≡ store.old }
{
    swap(store, change, turn);
    let before = rows_with_keys(alloc, store, keys);
    swap(store, change, turn.opposite());
    let before = before?;
    let after = rows_with_keys(alloc, store, keys)?;
    Ok(SideRows { before, after })
}

/// The cells of a row, if there is one.
fn cells_of(row: &Option<Row>) -> Option<&[Value]>
    ensures { option_map (λ cells. cells.now) result ≡ option_map (λ r. r.items) row.now }
{
    match row {
        Some(row) => Some(row.as_slice()),
        None => None,
    }
}

/// The row among these that a row of the main table looks up, if there is one.
pub(crate) fn row_for<'a>(
    rows: &'a BTreeMap<Key, Option<Row>>,
    lookup: Option<Lookup>,
    row: &StoredRow<'_>,
    keys: &mut KeyBuffer,
) -> Result<Option<&'a [Value]>, AllocError>
    ensures { IfOk result (λ found. option_map (λ cells. cells.now) found
        ≡ looked_up lookup (side_of_rows rows.now.entries) row.now) }
{
    let Some(lookup) = lookup else {
        return Ok(None);
    };
    let Some(key) = keys.key_of(row.cell(lookup.on))? else {
        return Ok(None);
    };
    match rows.get(key) {
        Some(row) => Ok(cells_of(row)),
        None => Ok(None),
    }
}
