//! The types of columns.

ghost use Rattle.std.specs.Prelude.{◌≡◌, IfOk};
ghost use Rattle.values.specs.ColTypes.{layout_of};

use crate::layout::{IntWidth, Layout, OffsetWidth};
use crate::units::{DateUnit, TimeUnit};
use crate::zone::Zone;
use std::alloc::{AllocError, Global};

/// The type of a column, or of a part of one: Schema.fbs, union `Type`. Types that the union has and this enum lacks
/// are not supported.
///
/// It includes the width of stored offsets: Utf8 and LargeUtf8 are one variant. A logical type has offsets of 32 bits,
/// whatever its values are stored with.
#[derive(Debug, Drop, PartialEq, Eq)]
pub enum ColType {
    Bool,
    Int { width: IntWidth, signed: bool },
    /// Of 128 bits: at most `precision` decimal digits, `scale` of them after the point.
    Decimal { precision: u8, scale: u8 },
    /// Days of 32 bits, or milliseconds of 64, since the beginning of 1970.
    Date { unit: DateUnit },
    /// Time since midnight: seconds and milliseconds of 32 bits, microseconds and nanoseconds of 64.
    Time { unit: TimeUnit },
    /// Time since the beginning of 1970, of 64 bits.
    Timestamp { unit: TimeUnit, zone: Zone },
    /// Of 64 bits.
    Duration { unit: TimeUnit },
    Utf8 { offsets: OffsetWidth },
    Binary { offsets: OffsetWidth },
    /// `width` bytes for each value.
    FixedSizeBinary { width: u32 },
    /// With one child.
    List { offsets: OffsetWidth },
    /// With any number of children.
    Struct,
}

fn number(width: IntWidth, signed: bool) -> Layout
    ensures { result ≡ Layout.Int width signed }
{
    Layout::Int { width, signed }
}

impl ColType {
    /// The layout of an array of this type.
    pub fn layout(&self) -> Layout
        ensures { result ≡ layout_of self.now }
    {
        match self {
            ColType::Bool => Layout::Bool,
            ColType::Int { width, signed } => number(*width, *signed),
            ColType::Decimal { precision, .. } => Layout::Decimal {
                precision: *precision,
            },
            ColType::Date { unit } => number(unit.width(), true),
            ColType::Time { unit } => number(unit.width(), true),
            ColType::Timestamp { .. } => number(IntWidth::Bits64, true),
            ColType::Duration { .. } => number(IntWidth::Bits64, true),
            ColType::Utf8 { offsets } => Layout::Utf8 { offsets: *offsets },
            ColType::Binary { offsets } => Layout::Binary { offsets: *offsets },
            ColType::FixedSizeBinary { width } => Layout::FixedSizeBinary { width: *width },
            ColType::List { offsets } => Layout::List { offsets: *offsets },
            ColType::Struct => Layout::Struct,
        }
    }

    /// An equal type with memory of its own.
    pub fn copy(&self, alloc: Global) -> Result<ColType, AllocError>
        ensures { IfOk result (λ copied. copied ≡ self.now) }
    {
        Ok(match self {
            ColType::Bool => ColType::Bool,
            ColType::Int { width, signed } => ColType::Int {
                width: *width,
                signed: *signed,
            },
            ColType::Decimal { precision, scale } => ColType::Decimal {
                precision: *precision,
                scale: *scale,
            },
            ColType::Date { unit } => ColType::Date { unit: *unit },
            ColType::Time { unit } => ColType::Time { unit: *unit },
            ColType::Timestamp { unit, zone } => ColType::Timestamp {
                unit: *unit,
                zone: zone.copy(alloc)?,
            },
            ColType::Duration { unit } => ColType::Duration { unit: *unit },
            ColType::Utf8 { offsets } => ColType::Utf8 { offsets: *offsets },
            ColType::Binary { offsets } => ColType::Binary { offsets: *offsets },
            ColType::FixedSizeBinary { width } => ColType::FixedSizeBinary { width: *width },
            ColType::List { offsets } => ColType::List { offsets: *offsets },
            ColType::Struct => ColType::Struct,
        })
    }
}
