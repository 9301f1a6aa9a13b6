//! The faults of a stream.

use crate::causes::Cause;
use std::alloc::{AllocError, AllocFailed};
use thiserror::Error;

/// Why a stream is refused: a fault of its bytes, or want of memory. The cause of the same name says what each is.
#[derive(Clone, Copy, Debug, PartialEq, Eq, Error)]
#[error("{cause}", cause = Cause::from(*self))]
pub enum StreamFault {
    NoContinuation,
    BadSize,
    BadTable,
    BadName,
    Version,
    HeaderKind,
    BodySize,
    NoSchema,
    SecondSchema,
    BigEndian,
    UnsupportedType,
    BadType,
    TooManyFields,
    Compressed,
    DictionaryClash,
    UnknownDictionary,
    DictionaryTooLarge,
    NodeCount,
    BufferCount,
    BadLength,
    BufferRange,
    BufferShort,
    NullCount,
    Offsets,
    NotUtf8,
    DictionaryIndex,
    DecimalRange,
    SchemaMismatch,
    AfterEnd,
    Truncated,
    Memory,
}

impl From<StreamFault> for Cause {
    ghost use Rattle.std.specs.Prelude.{◌≡◌};
    ghost use Rattle.values.specs.StreamCauses.{cause_of};

    ghost from_gives = { λ fault cause. cause ≡ cause_of fault };

    fn from(fault: StreamFault) -> Cause {
        match fault {
            StreamFault::NoContinuation => Cause::NoContinuation,
            StreamFault::BadSize => Cause::BadSize,
            StreamFault::BadTable => Cause::BadTable,
            StreamFault::BadName => Cause::BadName,
            StreamFault::Version => Cause::Version,
            StreamFault::HeaderKind => Cause::HeaderKind,
            StreamFault::BodySize => Cause::BodySize,
            StreamFault::NoSchema => Cause::NoSchema,
            StreamFault::SecondSchema => Cause::SecondSchema,
            StreamFault::BigEndian => Cause::BigEndian,
            StreamFault::UnsupportedType => Cause::UnsupportedType,
            StreamFault::BadType => Cause::BadType,
            StreamFault::TooManyFields => Cause::TooManyFields,
            StreamFault::Compressed => Cause::Compressed,
            StreamFault::DictionaryClash => Cause::DictionaryClash,
            StreamFault::UnknownDictionary => Cause::UnknownDictionary,
            StreamFault::DictionaryTooLarge => Cause::DictionaryTooLarge,
            StreamFault::NodeCount => Cause::NodeCount,
            StreamFault::BufferCount => Cause::BufferCount,
            StreamFault::BadLength => Cause::BadLength,
            StreamFault::BufferRange => Cause::BufferRange,
            StreamFault::BufferShort => Cause::BufferShort,
            StreamFault::NullCount => Cause::NullCount,
            StreamFault::Offsets => Cause::Offsets,
            StreamFault::NotUtf8 => Cause::NotUtf8,
            StreamFault::DictionaryIndex => Cause::DictionaryIndex,
            StreamFault::DecimalRange => Cause::DecimalRange,
            StreamFault::SchemaMismatch => Cause::SchemaMismatch,
            StreamFault::AfterEnd => Cause::AfterEnd,
            StreamFault::Truncated => Cause::Truncated,
            StreamFault::Memory => Cause::Memory,
        }
    }
}

impl From<AllocError> for StreamFault {
    ghost use Rattle.std.specs.Prelude.{◌≡◌};
    ghost use Rattle.values.specs.declared.faults.StreamFault.TheVariants.{Memory};

    ghost from_gives = { λ _ e. e ≡ Memory };

    fn from(_refused: AllocError) -> StreamFault {
        StreamFault::Memory
    }
}

impl<T: Drop> From<AllocFailed<T>> for StreamFault {
    ghost use Rattle.std.specs.Prelude.{◌≡◌};
    ghost use Rattle.values.specs.declared.faults.StreamFault.TheVariants.{Memory};

    ghost from_gives = { λ _ e. e ≡ Memory };

    fn from(_refused: AllocFailed<T>) -> StreamFault {
        StreamFault::Memory
    }
}
