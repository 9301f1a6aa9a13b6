//! Hides changes of side tables for a while, and shows them again.

ghost use Rattle.std.specs.Prelude.{◌≡◌};
ghost use Rattle.row_keys.specs.Store.{with_slots};
ghost use Rattle.upkeep.specs.Swaps.{CanSwap, opposite, swapped};

use crate::view_state::Turn;
use row_keys::{RowStore, TableChange};

impl Turn {
    pub(crate) fn opposite(self) -> Turn
        ensures { result ≡ opposite self }
    {
        match self {
            Turn::Come => Turn::Go,
            Turn::Go => Turn::Come,
        }
    }
}

/// Hides a change of a side table that was made (`Come`), or shows one that was hidden (`Go`). It takes no memory.
pub(crate) fn swap(store: &mut RowStore, change: &TableChange, turn: Turn)
    requires { CanSwap turn store.old.table change.now store.old.slots }
    ensures slots { store.new ≡ with_slots store.old (swapped turn change.now store.old.slots) }
    ensures again { CanSwap (opposite turn) store.old.table change.now store.new.slots }
    ensures back { swapped (opposite turn) change.now store.new.slots ≡ store.old.slots }
{
    match turn {
        Turn::Come => store.hide(change),
        Turn::Go => store.show(change),
    }
}
