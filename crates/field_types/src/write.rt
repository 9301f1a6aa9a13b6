//! Writes the type of a field: Schema.fbs, union `Type`.

ghost use Rattle.std.specs.Prelude.{◌≡◌, IfOk};
ghost use Rattle.flatbuf.specs.Built.{slots};
ghost use Rattle.field_types.specs.TypeTree.{
  bool_number,
  by_offsets,
  date_unit_number,
  time_unit_number,
  type_number as number_in_union,
  type_slots,
};

use crate::schema_fbs::{
    TYPE_BINARY, TYPE_BOOL, TYPE_DATE, TYPE_DECIMAL, TYPE_DURATION, TYPE_FIXED_SIZE_BINARY,
    TYPE_INT, TYPE_LARGE_BINARY, TYPE_LARGE_LIST, TYPE_LARGE_UTF8, TYPE_LIST, TYPE_STRUCT,
    TYPE_TIME, TYPE_TIMESTAMP, TYPE_UTF8,
};
use flatbuf::Builder;
use std::alloc::{AllocError, Global};
use values::{ColType, DateUnit, OffsetWidth, TimeUnit};

fn with_offsets(offsets: OffsetWidth, small: u8, large: u8) -> u8
    ensures { result ≡ by_offsets offsets small large }
{
    match offsets {
        OffsetWidth::Bits32 => small,
        OffsetWidth::Bits64 => large,
    }
}

/// The number of a type in Schema.fbs, union `Type`.
pub fn type_number(stored: &ColType) -> u8
    ensures { result ≡ number_in_union stored.now }
{
    match stored {
        ColType::Bool => TYPE_BOOL,
        ColType::Int { .. } => TYPE_INT,
        ColType::Decimal { .. } => TYPE_DECIMAL,
        ColType::Date { .. } => TYPE_DATE,
        ColType::Time { .. } => TYPE_TIME,
        ColType::Timestamp { .. } => TYPE_TIMESTAMP,
        ColType::Duration { .. } => TYPE_DURATION,
        ColType::Utf8 { offsets } => with_offsets(*offsets, TYPE_UTF8, TYPE_LARGE_UTF8),
        ColType::Binary { offsets } => with_offsets(*offsets, TYPE_BINARY, TYPE_LARGE_BINARY),
        ColType::FixedSizeBinary { .. } => TYPE_FIXED_SIZE_BINARY,
        ColType::List { offsets } => with_offsets(*offsets, TYPE_LIST, TYPE_LARGE_LIST),
        ColType::Struct => TYPE_STRUCT,
    }
}

fn date_number(unit: DateUnit) -> u16
    ensures { result ≡ date_unit_number unit }
{
    match unit {
        DateUnit::Day => 0,
        DateUnit::Millisecond => 1,
    }
}

fn time_number(unit: TimeUnit) -> u16
    ensures { result ≡ time_unit_number unit }
{
    match unit {
        TimeUnit::Second => 0,
        TimeUnit::Millisecond => 1,
        TimeUnit::Microsecond => 2,
        TimeUnit::Nanosecond => 3,
    }
}

fn bit(set: bool) -> u8
    ensures { result ≡ bool_number set }
{
    if set { 1 } else { 0 }
}

/// A type's own table, with each of its slots, also where it holds the default; a time zone only where there is one.
pub fn type_table(alloc: Global, stored: &ColType) -> Result<Builder, AllocError>
    ensures { IfOk result (λ table. slots table ≡ type_slots stored.now) }
{
    let mut table = Builder::new(alloc);
    match stored {
        ColType::Int { width, signed } => {
            table.u32(width.bits())?;
            table.u8(bit(*signed))?;
        }
        ColType::Decimal { precision, scale } => {
            table.u32(*precision as u32)?;
            table.u32(*scale as u32)?;
            table.u32(128)?;
        }
        ColType::Date { unit } => table.u16(date_number(*unit))?,
        ColType::Time { unit } => {
            table.u16(time_number(*unit))?;
            table.u32(unit.bits())?;
        }
        ColType::Timestamp { unit, zone } => {
            table.u16(time_number(*unit))?;
            if zone.as_str().is_empty() {
                table.absent()?;
            } else {
                table.text(zone.as_str().as_bytes())?;
            }
        }
        ColType::Duration { unit } => table.u16(time_number(*unit))?,
        ColType::FixedSizeBinary { width } => table.u32(*width)?,
        ColType::Bool
        | ColType::Utf8 { .. }
        | ColType::Binary { .. }
        | ColType::List { .. }
        | ColType::Struct => {}
    }
    Ok(table)
}
