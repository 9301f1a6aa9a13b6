//! Updates the state of a view for rows of the main table for which another row of a side table is looked up.

ghost use Rattle.std.specs.Prelude.{◌≡◌, ◌<◌, ◌≤◌, ◌+◌, [], ◌∷◌, All, OnOk, length, true};
ghost use Rattle.std.specs.Option.{option_map};
ghost use Rattle.upkeep.specs.AlikeRows.{are_reprojected_alike};
ghost use Rattle.upkeep.specs.Following.{CanFollow, CanTurn, MaterializedFollows};
ghost use Rattle.upkeep.specs.SideRows.{sided_cells, sided_change, sided_shift};
ghost use Rattle.upkeep.specs.Stores.{HaveSameRows, main_slots, visits_in};
ghost use Rattle.upkeep.specs.ViewStates.{IsMaterialized};

use crate::alike::is_materialized_alike;
use crate::side_rows::{SideRows, row_for};
use crate::sided_row::{SidedRow, keep_row};
use crate::turning::turn_joined;
use crate::view_state::{Materialized, Turn};
use row_keys::RowStore;
use std::alloc::{AllocError, Global};
use values::KeyBuffer;
use view_lang::View;

/// Whether a view stores the same for the old and the new joined row of a row of the main table; each is `None` where
/// the view leaves the row out.
fn is_reprojected_alike(
    view: &View,
    kept: &Materialized,
    before: &Option<SidedRow<'_>>,
    after: &Option<SidedRow<'_>>,
) -> bool
    ensures { result ≡ are_reprojected_alike view.now kept.now (option_map sided_cells before.now)
        (option_map sided_cells after.now) }
{
    match (before, after) {
        (None, None) => true,
        (Some(before), Some(after)) => is_materialized_alike(view, kept, before, after),
        _ => false,
    }
}

/// Updates what a view stores for a row of the main table whose joined row changes from one to the other; each is
/// `None` where the view leaves the row out. Where the same is stored for both, nothing is touched. After an error what
/// is stored is meaningless.
fn remake_row(
    view: &View,
    kept: &mut Materialized,
    number: usize,
    before: &Option<SidedRow<'_>>,
    after: &Option<SidedRow<'_>>,
) -> Result<(), AllocError>
    requires { CanTurn (IsMaterialized view.now kept.old) (sided_shift view.now number before.now after.now ∷ []) }
    ensures kept { OnOk result (MaterializedFollows view.now kept.old kept.new
        (sided_shift view.now number before.now after.now ∷ [])) }
    ensures left { are_reprojected_alike view.now kept.old (option_map sided_cells before.now)
        (option_map sided_cells after.now) ≡ true → kept.new ≡ kept.old }
{
    if is_reprojected_alike(view, kept, before, after) {
        return Ok(());
    }
    turn_joined(view, kept, Turn::Go, number, before)?;
    turn_joined(view, kept, Turn::Come, number, after)
}

/// Updates the state of a view for the row of this number, for which another row of a side table is looked up. The row
/// is visited once.
fn remake_number(
    stores: &mut Vec<RowStore>,
    view: &View,
    kept: &mut Materialized,
    sides: &SideRows,
    number: usize,
    keys: &mut KeyBuffer,
) -> Result<(), AllocError>
    requires main { 0 < length stores.old.items }
    requires there { number < length (main_slots stores.old.items) }
    requires fits { CanTurn (IsMaterialized view.now kept.old)
        (sided_change (main_slots stores.old.items) view.now sides.now (number ∷ [])) }
    ensures kept { OnOk result (MaterializedFollows view.now kept.old kept.new
        (sided_change (main_slots stores.old.items) view.now sides.now (number ∷ []))) }
    ensures same_rows { HaveSameRows stores.old.items stores.new.items }
    ensures visits { visits_in stores.new.items ≤ visits_in stores.old.items + 1 }
{
    let visit = stores[0].visit(number);
    let row = stores[0].row(visit);
    let side_before = row_for(&sides.before, view.lookup, &row, keys)?;
    let side_after = row_for(&sides.after, view.lookup, &row, keys)?;
    let before = keep_row(view, &row, side_before);
    let after = keep_row(view, &row, side_after);
    remake_row(view, kept, number, &before, &after)
}

/// Updates the state of a view for the rows of these numbers, for which other rows of a side table are looked up. Each
/// is visited at most once. After an error the state is meaningless.
pub(crate) fn remake_numbers(
    alloc: Global,
    stores: &mut Vec<RowStore>,
    view: &View,
    kept: &mut Materialized,
    sides: &SideRows,
    numbers: &[usize],
) -> Result<(), AllocError>
    requires main { 0 < length stores.old.items }
    requires there { All (λ n. n < length (main_slots stores.old.items)) numbers.now }
    requires fits { CanFollow (IsMaterialized view.now kept.old)
        (sided_change (main_slots stores.old.items) view.now sides.now numbers.now) }
    ensures kept { OnOk result (MaterializedFollows view.now kept.old kept.new
        (sided_change (main_slots stores.old.items) view.now sides.now numbers.now)) }
    ensures same_rows { HaveSameRows stores.old.items stores.new.items }
    ensures visits { visits_in stores.new.items ≤ visits_in stores.old.items + length numbers.now }
{
    let mut keys = KeyBuffer::new(alloc);
    for index in 0..numbers.len() {
        remake_number(stores, view, kept, sides, numbers[index], &mut keys)?;
    }
    Ok(())
}
