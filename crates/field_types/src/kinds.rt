//! The kinds of types: Schema.fbs, union `Type`.

ghost use Rattle.std.specs.Prelude.{◌≡◌};
ghost use Rattle.values.specs.Reading.{Yields};
ghost use Rattle.field_types.specs.Kinds.{kind_of, kind_of_type, may_have as may_have_children};

use crate::reads::read_byte;
use crate::schema_fbs::{
    FIELD_TYPE_KIND, TYPE_BINARY, TYPE_BOOL, TYPE_DATE, TYPE_DECIMAL, TYPE_DURATION,
    TYPE_FIXED_SIZE_BINARY, TYPE_INT, TYPE_LARGE_BINARY, TYPE_LARGE_LIST, TYPE_LARGE_UTF8,
    TYPE_LIST, TYPE_STRUCT, TYPE_TIME, TYPE_TIMESTAMP, TYPE_UTF8,
};
use flatbuf::TableRef;
use values::{ColType, OffsetWidth, StreamFault};

/// The kind of a field's type: which table of the union `Type` has its parameters.
#[derive(Clone, Copy, Debug, PartialEq, Eq)]
pub enum TypeKind {
    Bool,
    Int,
    Decimal,
    Date,
    Time,
    Timestamp,
    Duration,
    Utf8 { offsets: OffsetWidth },
    Binary { offsets: OffsetWidth },
    FixedSizeBinary,
    List { offsets: OffsetWidth },
    Struct,
}

impl TypeKind {
    /// The kind of this type.
    pub fn of(col_type: &ColType) -> TypeKind
        ensures { result ≡ kind_of_type col_type.now }
    {
        match col_type {
            ColType::Bool => TypeKind::Bool,
            ColType::Int { .. } => TypeKind::Int,
            ColType::Decimal { .. } => TypeKind::Decimal,
            ColType::Date { .. } => TypeKind::Date,
            ColType::Time { .. } => TypeKind::Time,
            ColType::Timestamp { .. } => TypeKind::Timestamp,
            ColType::Duration { .. } => TypeKind::Duration,
            ColType::Utf8 { offsets } => TypeKind::Utf8 { offsets: *offsets },
            ColType::Binary { offsets } => TypeKind::Binary { offsets: *offsets },
            ColType::FixedSizeBinary { .. } => TypeKind::FixedSizeBinary,
            ColType::List { offsets } => TypeKind::List { offsets: *offsets },
            ColType::Struct => TypeKind::Struct,
        }
    }
}

/// Reads the kind of a field's type. A kind that is not supported is `UnsupportedType`, an unreadable one `BadTable`.
#[tactic(auto, unfolding(crate::specs::Kinds::kind_of, crate::specs::Kinds::kind_numbered))]
pub fn read_kind(field: &TableRef) -> Result<TypeKind, StreamFault>
    ensures { Yields (λ k. k) result (kind_of field.now) }
{
    let (small, large) = (OffsetWidth::Bits32, OffsetWidth::Bits64);
    match read_byte(field, FIELD_TYPE_KIND)? {
        TYPE_INT => Ok(TypeKind::Int),
        TYPE_BINARY => Ok(TypeKind::Binary { offsets: small }),
        TYPE_UTF8 => Ok(TypeKind::Utf8 { offsets: small }),
        TYPE_BOOL => Ok(TypeKind::Bool),
        TYPE_DECIMAL => Ok(TypeKind::Decimal),
        TYPE_DATE => Ok(TypeKind::Date),
        TYPE_TIME => Ok(TypeKind::Time),
        TYPE_TIMESTAMP => Ok(TypeKind::Timestamp),
        TYPE_LIST => Ok(TypeKind::List { offsets: small }),
        TYPE_STRUCT => Ok(TypeKind::Struct),
        TYPE_FIXED_SIZE_BINARY => Ok(TypeKind::FixedSizeBinary),
        TYPE_DURATION => Ok(TypeKind::Duration),
        TYPE_LARGE_BINARY => Ok(TypeKind::Binary { offsets: large }),
        TYPE_LARGE_UTF8 => Ok(TypeKind::Utf8 { offsets: large }),
        TYPE_LARGE_LIST => Ok(TypeKind::List { offsets: large }),
        _ => Err(StreamFault::UnsupportedType),
    }
}

/// Whether a field of this kind may have this number of children.
pub fn may_have(kind: TypeKind, children: usize) -> bool
    ensures { result ≡ may_have_children kind children }
{
    match kind {
        TypeKind::List { .. } => children == 1,
        TypeKind::Struct => true,
        _ => children == 0,
    }
}
