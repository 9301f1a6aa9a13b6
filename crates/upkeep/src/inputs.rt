//! Joins and filters rows of the main table for a view, where they lie.

ghost use Rattle.std.specs.Prelude.{◌≡◌, IfOk, None};
ghost use Rattle.std.specs.Option.{option_map};
ghost use Rattle.view_lang.specs.ConfigRules.{IsLookup, IsView};
ghost use Rattle.view_lang.specs.Joined.{Side, looked_up};
ghost use Rattle.view_lang.specs.Views.{passing_row, side_in};
ghost use Rattle.upkeep.specs.Inputs.{side_from};
ghost use Rattle.upkeep.specs.JoinedRows.{joined_cells};
ghost use Rattle.upkeep.specs.Stores.{rows_in, tables_in, world_of};

use crate::joined_row::{JoinedRow, join};
use row_keys::{RowStore, StoredRow};
use std::alloc::AllocError;
use values::KeyBuffer;
use view_lang::{Lookup, RowView, View};

/// The row of a side table that is looked up for a row of the main table, if there is one.
pub(crate) fn look_up<'a, R: RowView>(
    stores: &'a [RowStore],
    lookup: Option<Lookup>,
    row: &R,
    keys: &mut KeyBuffer,
) -> Result<Option<StoredRow<'a>>, AllocError>
    requires { IsLookup (tables_in stores.now) lookup }
    ensures { IfOk result (λ found. found
        ≡ looked_up lookup (side_in (tables_in stores.now) (world_of (rows_in stores.now)) lookup) (R.cells row.now)) }
{
    let Some(lookup) = lookup else {
        return Ok(None);
    };
    stores[lookup.side + 1].row_with_key(keys, row.cell(lookup.on))
}

/// A row of the main table, joined with the side table's row for it; `None` where the view leaves it out or its filter
/// isn't true.
pub(crate) fn join_row<'a>(
    stores: &'a [RowStore],
    view: &View,
    row: StoredRow<'a>,
    keys: &mut KeyBuffer,
) -> Result<Option<JoinedRow<'a>>, AllocError>
    requires { IsView (tables_in stores.now) view.now }
    ensures { IfOk result (λ kept. option_map joined_cells kept
        ≡ passing_row view.now (side_from stores.now view.now) row.entry) }
{
    let side_row = look_up(stores, view.lookup, &row, keys)?;
    let Some(joined) = join(view.lookup, row, side_row) else {
        return Ok(None);
    };
    if view.keeps(&joined) {
        Ok(Some(joined))
    } else {
        Ok(None)
    }
}

/// A row of the main table for a view that looks nothing up, where it lies; `None` where the view's filter isn't true.
pub(crate) fn keep_row<'a>(view: &View, row: StoredRow<'a>) -> Option<StoredRow<'a>>
    requires { view.now.lookup ≡ None }
    ensures { (side : Side) → option_map (λ r. r) result ≡ passing_row view.now side row.entry }
{
    if view.keeps(&row) { Some(row) } else { None }
}
