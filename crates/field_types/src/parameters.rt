//! Checks of type parameters: widths, units, precision, scale, time zones.

ghost use Rattle.std.specs.Prelude.{◌≤◌, pos, ◌≤ℤ◌, IfOk};
ghost use Rattle.values.specs.Limits.{max_precision};
ghost use Rattle.values.specs.Reading.{Yields};
ghost use Rattle.field_types.specs.Types.{
  checked_zone,
  date_unit_numbered,
  precision_of,
  ranged as ranged_between,
  time_unit_of,
  time_unit_numbered,
  wide_of,
  width_of,
  zone_of,
};

use crate::reads::{read_i32, read_short, readable};
use crate::schema_fbs::{
    DECIMAL_BIT_WIDTH, DECIMAL_PRECISION, INT_BIT_WIDTH, TIMESTAMP_ZONE, UNIT,
};
use flatbuf::TableRef;
use values::limits::{MAX_NAME_LEN, MAX_PRECISION};
use values::{DateUnit, IntWidth, StreamFault, TimeUnit};

/// The number, where it is from `low` to `high`; otherwise `BadType`.
pub(crate) fn ranged(low: i32, high: i32, number: i32) -> Result<u32, StreamFault>
    requires { pos 0 ≤ℤ low }
    ensures exact { Yields (λ n. n) result (ranged_between low high number) }
    ensures within { IfOk result (λ n. pos n ≤ℤ high) }
{
    if low <= number && number <= high {
        Ok(number as u32)
    } else {
        Err(StreamFault::BadType)
    }
}

#[tactic(auto, using(crate::proofs::Faults::faults), unfolding(crate::specs::Types::width_of))]
pub(crate) fn read_width(table: &TableRef) -> Result<IntWidth, StreamFault>
    ensures { Yields (λ w. w) result (width_of table.now) }
{
    match read_i32(table, INT_BIT_WIDTH, 0)? {
        8 => Ok(IntWidth::Bits8),
        16 => Ok(IntWidth::Bits16),
        32 => Ok(IntWidth::Bits32),
        64 => Ok(IntWidth::Bits64),
        _ => Err(StreamFault::BadType),
    }
}

#[tactic(auto, using(crate::proofs::Faults::faults), unfolding(crate::specs::Types::precision_of))]
pub(crate) fn read_precision(table: &TableRef) -> Result<u8, StreamFault>
    ensures exact { Yields (λ n. n) result (precision_of table.now) }
    ensures within { IfOk result (λ n. n ≤ max_precision) }
{
    let precision = read_i32(table, DECIMAL_PRECISION, 0)?;
    let precision = ranged(1, MAX_PRECISION as i32, precision)?;
    Ok(precision as u8)
}

/// Refuses decimals of a width other than 128 bits, as `UnsupportedType`.
#[tactic(auto, using(crate::proofs::Faults::faults), unfolding(crate::specs::Types::wide_of))]
pub(crate) fn check_decimal_bits(table: &TableRef) -> Result<(), StreamFault>
    ensures { Yields (λ u. u) result (wide_of table.now) }
{
    if read_i32(table, DECIMAL_BIT_WIDTH, 128)? == 128 {
        Ok(())
    } else {
        Err(StreamFault::UnsupportedType)
    }
}

pub(crate) fn date_unit(number: i16) -> Result<DateUnit, StreamFault>
    ensures { Yields (λ u. u) result (date_unit_numbered number) }
{
    match number {
        0 => Ok(DateUnit::Day),
        1 => Ok(DateUnit::Millisecond),
        _ => Err(StreamFault::BadType),
    }
}

fn time_unit(number: i16) -> Result<TimeUnit, StreamFault>
    ensures { Yields (λ u. u) result (time_unit_numbered number) }
{
    match number {
        0 => Ok(TimeUnit::Second),
        1 => Ok(TimeUnit::Millisecond),
        2 => Ok(TimeUnit::Microsecond),
        3 => Ok(TimeUnit::Nanosecond),
        _ => Err(StreamFault::BadType),
    }
}

/// The unit of a time, a timestamp or a duration: each has it in its first slot.
#[tactic(auto, using(crate::proofs::Faults::faults), unfolding(crate::specs::Types::time_unit_of))]
pub(crate) fn read_time_unit(table: &TableRef, default: i16) -> Result<TimeUnit, StreamFault>
    ensures { Yields (λ u. u) result (time_unit_of table.now default) }
{
    time_unit(read_short(table, UNIT, default)?)
}

/// The name of a timestamp's zone, empty where it is absent, borrowed from the buffer.
#[tactic(auto, using(crate::proofs::Faults::faults), unfolding(crate::specs::Types::zone_of))]
pub(crate) fn read_zone<'a>(table: &TableRef<'a>) -> Result<&'a str, StreamFault>
    ensures { Yields (λ name. name.now) result (zone_of table.now) }
{
    match readable(table.text(TIMESTAMP_ZONE))? {
        None => Ok(""),
        Some(bytes) => check_zone(bytes),
    }
}

#[tactic(auto, using(crate::proofs::Texts::texts))]
fn check_zone(bytes: &[u8]) -> Result<&str, StreamFault>
    ensures { Yields (λ name. name.now) result (checked_zone bytes.now) }
{
    if bytes.len() > MAX_NAME_LEN {
        return Err(StreamFault::BadType);
    }
    match simdutf8::basic::from_utf8(bytes) {
        Ok(name) => Ok(name),
        Err(_) => Err(StreamFault::BadType),
    }
}
