//! Why an edit is refused.

use std::alloc::{AllocError, AllocFailed};
use thiserror::Error;
use values::Cause;
use view_lang::Unfit;

/// Why a store refuses an edit. The store is then as it was.
#[derive(Clone, Copy, Debug, PartialEq, Eq, Error)]
#[error("{cause}", cause = Cause::from(*self))]
pub enum EditFault {
    /// The edit doesn't fit; of several causes this is the one with the lowest number.
    Unfit(Unfit),
    /// Memory was refused.
    Memory,
}

impl From<AllocError> for EditFault {
    ghost use Rattle.std.specs.Prelude.{◌≡◌};
    ghost use Rattle.row_keys.specs.declared.faults.EditFault.TheVariants.{Memory};

    ghost from_gives = { λ _ e. e ≡ Memory };

    fn from(_refused: AllocError) -> EditFault {
        EditFault::Memory
    }
}

impl<T: Drop> From<AllocFailed<T>> for EditFault {
    ghost use Rattle.std.specs.Prelude.{◌≡◌};
    ghost use Rattle.row_keys.specs.declared.faults.EditFault.TheVariants.{Memory};

    ghost from_gives = { λ _ e. e ≡ Memory };

    fn from(_refused: AllocFailed<T>) -> EditFault {
        EditFault::Memory
    }
}

impl From<EditFault> for Cause {
    ghost use Rattle.std.specs.Prelude.{◌≡◌};
    ghost use Rattle.row_keys.specs.FaultCauses.{named};

    ghost from_gives = { λ fault cause. cause ≡ named fault };

    fn from(fault: EditFault) -> Cause {
        match fault {
            EditFault::Unfit(unfit) => Cause::from(unfit),
            EditFault::Memory => Cause::Memory,
        }
    }
}
