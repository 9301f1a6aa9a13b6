//! States that are computed from rows, and follow their changes.

ghost use Rattle.std.specs.Prelude.{OnOk};
ghost use Rattle.view_lang.specs.Shifts.{Fits, IsFew, NumberedRows, patched};

use crate::change::Change;
use std::alloc::AllocError;

/// A state that is computed from numbered rows, and is kept current by the changes of these rows.
pub trait Upkeep {
    /// The state is that of these rows.
    ghost keeps: { Self → NumberedRows → Type 0 };

    /// Updates the state from the rows before a change to those after it. After an error it may be the state of no rows
    /// at all, neither of those before nor of those after.
    fn apply(&mut self, change: &Change) -> Result<(), AllocError>
        requires { (rows : NumberedRows)
            × (keeps self.old rows × (Fits rows change.now × IsFew rows change.now)) }
        ensures { OnOk result ((rows : NumberedRows) → Fits rows change.now → keeps self.old rows
            → keeps self.new (patched rows change.now)) };
}
