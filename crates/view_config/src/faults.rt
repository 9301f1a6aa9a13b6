//! The faults of a configuration.

use std::alloc::{AllocError, AllocFailed};
use thiserror::Error;
use values::Cause;

/// Why a configuration is refused: a fault of its text, or want of memory. The cause of the same name describes each.
#[derive(Clone, Copy, Debug, PartialEq, Eq, Error)]
#[error("{cause}", cause = Cause::from(*self))]
pub enum ConfigFault {
    NotToml,
    UnknownName,
    DuplicateColumn,
    TypeText,
    ConstantType,
    SumType,
    OrderType,
    OverLimit,
    Shape,
    DictType,
    Memory,
}

impl From<ConfigFault> for Cause {
    ghost use Rattle.std.specs.Prelude.{◌≡◌};
    ghost use Rattle.view_config.specs.ConfigCauses.{cause_of};

    ghost from_gives = { λ fault cause. cause ≡ cause_of fault };

    fn from(fault: ConfigFault) -> Cause {
        match fault {
            ConfigFault::NotToml => Cause::NotToml,
            ConfigFault::UnknownName => Cause::UnknownName,
            ConfigFault::DuplicateColumn => Cause::DuplicateColumn,
            ConfigFault::TypeText => Cause::TypeText,
            ConfigFault::ConstantType => Cause::ConstantType,
            ConfigFault::SumType => Cause::SumType,
            ConfigFault::OrderType => Cause::OrderType,
            ConfigFault::OverLimit => Cause::OverLimit,
            ConfigFault::Shape => Cause::Shape,
            ConfigFault::DictType => Cause::DictType,
            ConfigFault::Memory => Cause::Memory,
        }
    }
}

impl From<AllocError> for ConfigFault {
    ghost use Rattle.std.specs.Prelude.{◌≡◌};
    ghost use Rattle.view_config.specs.declared.faults.ConfigFault.TheVariants.{Memory};

    ghost from_gives = { λ _ e. e ≡ Memory };

    fn from(_refused: AllocError) -> ConfigFault {
        ConfigFault::Memory
    }
}

impl<T: Drop> From<AllocFailed<T>> for ConfigFault {
    ghost use Rattle.std.specs.Prelude.{◌≡◌};
    ghost use Rattle.view_config.specs.declared.faults.ConfigFault.TheVariants.{Memory};

    ghost from_gives = { λ _ e. e ≡ Memory };

    fn from(_refused: AllocFailed<T>) -> ConfigFault {
        ConfigFault::Memory
    }
}
