//! The causes of a refusal.

ghost use Rattle.std.specs.Prelude.{◌≡◌};
ghost use Rattle.values.specs.Causes.{name_of, number_of};

use std::alloc::{AllocError, AllocFailed};
use thiserror::Error;

/// Why a call is refused: its number, its name and what it says. `lv` prints a refusal as `refused NUMBER NAME`.
#[derive(Clone, Copy, Debug, PartialEq, Eq, Error)]
pub enum Cause {
    // 1 to 30 are faults of a stream.
    /// *framing*: the first four bytes aren't `FF FF FF FF`.
    #[error("the first four bytes of a message aren't FF FF FF FF")]
    NoContinuation = 1,
    /// *framing*: the metadata size is negative or above 2^24.
    #[error("the metadata size is negative or above 2^24")]
    BadSize = 2,
    /// *metadata*: a position that must be read lies outside the metadata, a vtable's own size is under 4, or a header
    /// table that its kind requires is absent.
    #[error("a place that must be read lies outside the metadata, a vtable's own size is under 4, or a table that must be there is absent")]
    BadTable = 3,
    /// *metadata*: a field name isn't UTF-8 or is longer than 4,096 bytes.
    #[error("a field's name isn't UTF-8 or is longer than 4,096 bytes")]
    BadName = 4,
    /// *metadata*: the version is neither 3 (V4) nor 4 (V5); an absent one is 0.
    #[error("the metadata version is neither V4 nor V5")]
    Version = 5,
    /// *metadata*: the header kind isn't 1, 2 or 3.
    #[error("the header is neither a Schema nor a DictionaryBatch nor a RecordBatch")]
    HeaderKind = 6,
    /// *metadata*: `bodyLength` is negative or above 2^28.
    #[error("the body's length is negative or above 2^28")]
    BodySize = 7,
    /// *framing, metadata*: an end mark or a batch comes before a Schema, or the input ends before one.
    #[error("an end mark or a batch comes before a Schema, or the input ends without one")]
    NoSchema = 8,
    /// *metadata*: a Schema comes after a Schema.
    #[error("a Schema comes after a Schema")]
    SecondSchema = 9,
    /// *metadata*: `endianness` isn't 0.
    #[error("the schema's endianness isn't little")]
    BigEndian = 10,
    /// *metadata*: a field's type isn't one that docs/FORMAT.md, section 3, lists.
    #[error("a column has a type that isn't read")]
    UnsupportedType = 11,
    /// *metadata*: a type's table is absent, or its parameter, its children or the weight of its null are out of the
    /// ranges that docs/FORMAT.md, section 3, lists.
    #[error("a type's table is absent, or its parameter, its children or the weight of its null are out of range")]
    BadType = 12,
    /// *metadata*: more than 1,024 fields, by the counts of their vectors, also where entries can't be read; or depth
    /// above 16.
    #[error("there are more than 1,024 fields at all levels, or a field is deeper than 16")]
    TooManyFields = 13,
    /// *metadata*: a RecordBatch, also that of a DictionaryBatch, has its compression slot.
    #[error("a RecordBatch is compressed")]
    Compressed = 14,
    /// *metadata*: two fields use one dictionary id, and their values' stored types differ.
    #[error("two fields use one dictionary with different types of values")]
    DictionaryClash = 15,
    /// *metadata*: a DictionaryBatch has an id that no field has.
    #[error("a DictionaryBatch's dictionary is in no field of the schema")]
    UnknownDictionary = 16,
    /// *metadata*: a dictionary would have more than 2^20 values after the batch.
    #[error("a dictionary would have more than 2^20 values")]
    DictionaryTooLarge = 17,
    /// *metadata*: the number of nodes isn't one for each field; in a DictionaryBatch, isn't 1.
    #[error("the number of nodes isn't that of the schema's fields")]
    NodeCount = 18,
    /// *metadata*: the number of buffers isn't the one that docs/FORMAT.md, section 4, counts for the schema's fields.
    #[error("the number of buffers isn't that of the schema's fields")]
    BufferCount = 19,
    /// *metadata*: a batch's length is negative or above 2^24, a node's is negative or above 2^31 - 1, a column's node
    /// has another length than the batch, or a struct's child is shorter than the struct.
    #[error("a batch's or a node's length is out of range, or a node's length doesn't fit the one above it")]
    BadLength = 20,
    /// *metadata*: a buffer's offset or length is negative, or it ends past `bodyLength`.
    #[error("a buffer's offset or length is negative, or it ends past the body")]
    BufferRange = 21,
    /// *body*: a validity buffer that isn't of length 0, or a values or offsets buffer, is shorter than its array
    /// needs; an array of length 0 needs none.
    #[error("a buffer is shorter than its array needs")]
    BufferShort = 22,
    /// *body*: a node's null_count isn't the number of zero bits among its first `length` validity bits, or isn't 0
    /// where the validity buffer has length 0.
    #[error("a null count isn't the number of nulls in the validity bits")]
    NullCount = 23,
    /// *body*: in an array of length above 0 an offset is negative or below the one before it (also over null slots),
    /// or the last is above the length of the data or of the child.
    #[error("offsets fall, are negative, or end past what they point into")]
    Offsets = 24,
    /// *body*: a text of a reached valid slot isn't UTF-8 by itself.
    #[error("a text isn't UTF-8")]
    NotUtf8 = 25,
    /// *body*: the index of a reached valid slot is negative, or not below the number of values that its dictionary has
    /// now.
    #[error("a dictionary index is outside its dictionary")]
    DictionaryIndex = 26,
    /// *body*: a decimal of a reached valid slot isn't strictly between -10^precision and 10^precision.
    #[error("a decimal has more digits than its precision")]
    DecimalRange = 27,
    /// *metadata*: a schema was declared for the stream, and the stream's logical columns aren't its columns.
    #[error("a feed's schema isn't the declared one")]
    SchemaMismatch = 28,
    /// *any*: bytes come after the end mark, or after `finish`.
    #[error("bytes come after the end mark, or after the feed was finished")]
    AfterEnd = 29,
    /// *at the end*: the input ends within a message.
    #[error("the input ends within a message")]
    Truncated = 30,

    // 41 to 45: an edit doesn't fit its table, or a table would exceed its limits.
    /// a key is null.
    #[error("a key is null")]
    NullKey = 41,
    /// a key stands twice in the batch, or an append names a live key.
    #[error("a key stands twice in a batch, or an appended key is live")]
    DuplicateKey = 42,
    /// a retract or a drop names a key that isn't there.
    #[error("a retract or a drop names a key that no live row has")]
    UnknownKey = 43,
    /// the main table would have more than 2^24 live rows, or a side table more than 2^20; or more than 2^62 rows would
    /// have come to a table in all accepted edits that aren't undone.
    #[error("a table would have more rows than its limit")]
    TooManyRows = 44,
    /// a cell weighs more than 2^20, or a row more than 2^26.
    #[error("a cell or a row is above its weight limit")]
    CellTooHeavy = 45,

    // 51 to 56: a call can't be done.
    /// an undo where no accepted edit is left that can be undone.
    #[error("there is no edit to undo")]
    NothingToUndo = 51,
    /// a push or a finish of a feed that a fault of its stream broke.
    #[error("the feed was broken by an earlier fault")]
    FeedBroken = 52,
    /// a call that names a feed which isn't declared.
    #[error("there is no feed of that name")]
    UnknownFeed = 53,
    /// a write of a view that isn't declared.
    #[error("there is no view of that name")]
    UnknownView = 54,
    /// memory was refused; what was called for isn't done.
    #[error("memory ran out")]
    Memory = 55,
    /// the sink answered with a failure.
    #[error("the sink failed")]
    Device = 56,

    // 61 to 70: a configuration isn't accepted.
    /// the text isn't TOML 1.1, a value in it nests arrays and inline tables to more than 80 levels, a key has more
    /// than 80 parts, a number is out of range (64 bits with a sign for whole ones, a double for others), or a file's
    /// bytes aren't UTF-8.
    #[error("the configuration isn't TOML")]
    NotToml = 61,
    /// a column, a side table or an output of that name isn't declared; a reference to a side table where the view
    /// looks none up; a `col` of a grouped view that isn't among its grouping columns.
    #[error("a column, a side table or an output of this name isn't declared, or a column isn't among those that rows are grouped by")]
    UnknownName = 62,
    /// a name stands twice among a table's columns, the children of a struct, a view's outputs, its order or its
    /// `dict`, or a column twice among the grouping columns.
    #[error("a column, a child of a struct, an output, a coded output, or a column of an order or of the grouping stands twice")]
    DuplicateColumn = 63,
    /// what stands in a type's place is no type, or has a parameter out of its range.
    #[error("what is written for a type is none, or has a parameter out of its range")]
    TypeText = 64,
    /// a constant isn't of its column's form or range; two columns that are compared, or `on` and the side table's key,
    /// have different types.
    #[error("a constant isn't of its column's type or is out of its range, or two columns that are compared, or `on` of a lookup and the side table's key, have different types")]
    ConstantType = 65,
    /// a sum over something else than integers or decimals of at most 28 digits.
    #[error("a sum is of other values than integers or decimals of at most 28 digits")]
    SumType = 66,
    /// a list or a struct as key, as `on` of a lookup, in a comparison, as grouping or order column, or under
    /// `distinct`, `least` or `greatest`.
    #[error("a list or a struct stands where values must have an order: as a key, as `on` of a lookup, in a comparison, a group or an order, or under `distinct`, `least` or `greatest`")]
    OrderType = 67,
    /// more than 4 side tables, 16 feeds or 32 views; no column or more than 64; columns or outputs with more than
    /// 1,024 fields at all levels, or nested to more than 16; a type whose null weighs more than 2^20; a name of a
    /// column, an output or a struct's child of 0 or more than 255 bytes; a filter of more than 256 parts, itself and
    /// all filters in it, or nested to more than 16; `first` out of its range.
    #[error("a count, a depth, the weight of a type's null, the length of a name or how many rows a view has is out of its limits")]
    OverLimit = 68,
    /// `[main]` or an entry is missing, an entry is unknown, a NAME is of another form, a view without `group` counts
    /// or sums or has `having`, or a value is of another kind or form.
    #[error("an entry is missing or unknown, or a value isn't of the form that its place wants")]
    Shape = 69,
    /// a name in `dict` is that of an output of another type than utf8.
    #[error("an output that is to be written with a dictionary doesn't hold texts")]
    DictType = 70,
}

impl Cause {
    /// The cause's number, as it is printed.
    pub fn number(self) -> u8
        ensures { result ≡ number_of self }
    {
        self as u8
    }

    /// The cause's name, as it is printed.
    pub fn name(self) -> &'static str
        ensures { result.now ≡ name_of self }
    {
        match self {
            Cause::NoContinuation => "NoContinuation",
            Cause::BadSize => "BadSize",
            Cause::BadTable => "BadTable",
            Cause::BadName => "BadName",
            Cause::Version => "Version",
            Cause::HeaderKind => "HeaderKind",
            Cause::BodySize => "BodySize",
            Cause::NoSchema => "NoSchema",
            Cause::SecondSchema => "SecondSchema",
            Cause::BigEndian => "BigEndian",
            Cause::UnsupportedType => "UnsupportedType",
            Cause::BadType => "BadType",
            Cause::TooManyFields => "TooManyFields",
            Cause::Compressed => "Compressed",
            Cause::DictionaryClash => "DictionaryClash",
            Cause::UnknownDictionary => "UnknownDictionary",
            Cause::DictionaryTooLarge => "DictionaryTooLarge",
            Cause::NodeCount => "NodeCount",
            Cause::BufferCount => "BufferCount",
            Cause::BadLength => "BadLength",
            Cause::BufferRange => "BufferRange",
            Cause::BufferShort => "BufferShort",
            Cause::NullCount => "NullCount",
            Cause::Offsets => "Offsets",
            Cause::NotUtf8 => "NotUtf8",
            Cause::DictionaryIndex => "DictionaryIndex",
            Cause::DecimalRange => "DecimalRange",
            Cause::SchemaMismatch => "SchemaMismatch",
            Cause::AfterEnd => "AfterEnd",
            Cause::Truncated => "Truncated",
            Cause::NullKey => "NullKey",
            Cause::DuplicateKey => "DuplicateKey",
            Cause::UnknownKey => "UnknownKey",
            Cause::TooManyRows => "TooManyRows",
            Cause::CellTooHeavy => "CellTooHeavy",
            Cause::NothingToUndo => "NothingToUndo",
            Cause::FeedBroken => "FeedBroken",
            Cause::UnknownFeed => "UnknownFeed",
            Cause::UnknownView => "UnknownView",
            Cause::Memory => "Memory",
            Cause::Device => "Device",
            Cause::NotToml => "NotToml",
            Cause::UnknownName => "UnknownName",
            Cause::DuplicateColumn => "DuplicateColumn",
            Cause::TypeText => "TypeText",
            Cause::ConstantType => "ConstantType",
            Cause::SumType => "SumType",
            Cause::OrderType => "OrderType",
            Cause::OverLimit => "OverLimit",
            Cause::Shape => "Shape",
            Cause::DictType => "DictType",
        }
    }
}

impl From<AllocError> for Cause {
    ghost use Rattle.std.specs.Prelude.{◌≡◌};
    ghost use Rattle.values.specs.declared.causes.Cause.TheVariants.{Memory};

    ghost from_gives = { λ _ e. e ≡ Memory };

    fn from(_refused: AllocError) -> Cause {
        Cause::Memory
    }
}

impl<T: Drop> From<AllocFailed<T>> for Cause {
    ghost use Rattle.std.specs.Prelude.{◌≡◌};
    ghost use Rattle.values.specs.declared.causes.Cause.TheVariants.{Memory};

    ghost from_gives = { λ _ e. e ≡ Memory };

    fn from(_refused: AllocFailed<T>) -> Cause {
        Cause::Memory
    }
}

#[cfg(test)]
mod tests {
    use super::*;
    use crate::faults::StreamFault;
    use std::test::Fail;

    #[test]
    fn has_a_number_and_a_name(rt: HostRuntime) {
        assert_eq!(rt; Cause::Offsets.number(), 24);
        assert_eq!(rt; Cause::Offsets.name(), "Offsets");
    }

    #[test]
    fn says_what_was_wrong(rt: HostRuntime) -> Result<(), Fail> {
        let cause = format!(in rt.alloc(); "{}", Cause::NullKey)?;
        assert_eq!(rt; cause.as_str(), "a key is null");
        let fault = format!(in rt.alloc(); "{}", StreamFault::Truncated)?;
        assert_eq!(rt; fault.as_str(), "the input ends within a message");
        Ok(())
    }
}
