//! Why an edit is refused.

use thiserror::Error;
use values::Cause;

/// Why an edit doesn't fit its table, in the order of the causes' numbers, 41 to 45. Where several apply, the first is
/// reported.
#[derive(Clone, Copy, Debug, PartialEq, Eq, Error)]
#[error("{cause}", cause = Cause::from(*self))]
pub enum Unfit {
    /// A key is null.
    NullKey,
    /// A key is there twice in the batch, or an appended key is live.
    DuplicateKey,
    /// A retracted key isn't live.
    UnknownKey,
    /// The main table would have more than 2^24 live rows, or a side table more than 2^20, or more than 2^62 rows would
    /// have been added to a table in all.
    TooManyRows,
    /// A cell weighs more than 2^20, or a row more than 2^26.
    CellTooHeavy,
}

impl From<Unfit> for Cause {
    ghost use Rattle.std.specs.Prelude.{◌≡◌};
    ghost use Rattle.view_lang.specs.UnfitCauses.{named};

    ghost from_gives = { λ unfit cause. cause ≡ named unfit };

    fn from(unfit: Unfit) -> Cause {
        match unfit {
            Unfit::NullKey => Cause::NullKey,
            Unfit::DuplicateKey => Cause::DuplicateKey,
            Unfit::UnknownKey => Cause::UnknownKey,
            Unfit::TooManyRows => Cause::TooManyRows,
            Unfit::CellTooHeavy => Cause::CellTooHeavy,
        }
    }
}
