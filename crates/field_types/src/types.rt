//! Reads the type of a field: Schema.fbs, union `Type`.

ghost use Rattle.values.specs.Reading.{Answers, Yields};
ghost use Rattle.values.specs.ColTypes.{IsType};
ghost use Rattle.field_types.specs.Types.{
  date_of,
  decimal_of,
  digits_of,
  duration_of,
  fixed_of,
  int_of,
  stored_by,
  time_of,
  timestamp_of,
  type_of,
};
ghost use Rattle.std.specs.Prelude.{IfOk};

use crate::kinds::TypeKind;
use crate::parameters::{
    check_decimal_bits, date_unit, ranged, read_precision, read_time_unit, read_width, read_zone,
};
use crate::reads::{read_bool, read_i32, read_short, readable};
use crate::schema_fbs::{
    DECIMAL_SCALE, FIELD_TYPE, FIXED_BYTE_WIDTH, INT_IS_SIGNED, TIME_BIT_WIDTH, UNIT,
};
use flatbuf::TableRef;
use std::alloc::Global;
use values::limits::MAX_FIXED_WIDTH;
use values::{ColType, StreamFault, Zone};

/// Reads a field's type, whose kind was read before.
///
/// A type whose table is absent, or whose parameters are out of range, is `BadType`; a table that isn't readable is
/// `BadTable`, and a decimal of a width other than 128 bits `UnsupportedType`.
#[tactic(auto, using(crate::proofs::Faults::faults, crate::proofs::TypeFacts::type_facts), unfolding(crate::specs::Types::type_of))]
pub fn read_type(alloc: Global, kind: TypeKind, field: &TableRef) -> Result<ColType, StreamFault>
    ensures exact { Answers (λ t. t) result (type_of kind field.now) }
    ensures within { IfOk result IsType }
{
    let Some(table) = readable(field.table(FIELD_TYPE))? else {
        return Err(StreamFault::BadType);
    };
    read_parameters(alloc, kind, &table)
}

fn read_parameters(alloc: Global, kind: TypeKind, table: &TableRef) -> Result<ColType, StreamFault>
    ensures { Answers (λ t. t) result (stored_by kind table.now) }
{
    match kind {
        TypeKind::Bool => Ok(ColType::Bool),
        TypeKind::Int => read_int(table),
        TypeKind::Decimal => read_decimal(table),
        TypeKind::Date => read_date(table),
        TypeKind::Time => read_time(table),
        TypeKind::Timestamp => read_timestamp(alloc, table),
        TypeKind::Duration => read_duration(table),
        TypeKind::Utf8 { offsets } => Ok(ColType::Utf8 { offsets }),
        TypeKind::Binary { offsets } => Ok(ColType::Binary { offsets }),
        TypeKind::FixedSizeBinary => read_fixed(table),
        TypeKind::List { offsets } => Ok(ColType::List { offsets }),
        TypeKind::Struct => Ok(ColType::Struct),
    }
}

#[tactic(auto, using(crate::proofs::Faults::faults), unfolding(crate::specs::Types::int_of))]
fn read_int(table: &TableRef) -> Result<ColType, StreamFault>
    ensures { Yields (λ t. t) result (int_of table.now) }
{
    let width = read_width(table)?;
    let signed = read_bool(table, INT_IS_SIGNED)?;
    Ok(ColType::Int { width, signed })
}

#[tactic(auto, using(crate::proofs::Faults::faults), unfolding(crate::specs::Types::decimal_of))]
fn read_decimal(table: &TableRef) -> Result<ColType, StreamFault>
    ensures { Yields (λ t. t) result (decimal_of table.now) }
{
    let stored = read_digits(table)?;
    check_decimal_bits(table)?;
    Ok(stored)
}

#[tactic(auto, using(crate::proofs::Faults::faults), unfolding(crate::specs::Types::digits_of))]
fn read_digits(table: &TableRef) -> Result<ColType, StreamFault>
    ensures { Yields (λ t. t) result (digits_of table.now) }
{
    let precision = read_precision(table)?;
    let scale = ranged(0, precision as i32, read_i32(table, DECIMAL_SCALE, 0)?)?;
    Ok(ColType::Decimal {
        precision,
        scale: scale as u8,
    })
}

#[tactic(auto, using(crate::proofs::Faults::faults), unfolding(crate::specs::Types::date_of))]
fn read_date(table: &TableRef) -> Result<ColType, StreamFault>
    ensures { Yields (λ t. t) result (date_of table.now) }
{
    let unit = date_unit(read_short(table, UNIT, 1)?)?;
    Ok(ColType::Date { unit })
}

#[tactic(auto, using(crate::proofs::Faults::faults), unfolding(crate::specs::Types::time_of))]
fn read_time(table: &TableRef) -> Result<ColType, StreamFault>
    ensures { Yields (λ t. t) result (time_of table.now) }
{
    let unit = read_time_unit(table, 1)?;
    let bits = read_i32(table, TIME_BIT_WIDTH, 32)?;
    if bits == unit.bits() as i32 {
        Ok(ColType::Time { unit })
    } else {
        Err(StreamFault::BadType)
    }
}

#[tactic(auto, using(crate::proofs::Faults::faults), unfolding(crate::specs::Types::timestamp_of))]
fn read_timestamp(alloc: Global, table: &TableRef) -> Result<ColType, StreamFault>
    ensures { Answers (λ t. t) result (timestamp_of table.now) }
{
    let unit = read_time_unit(table, 0)?;
    let name = read_zone(table)?;
    Ok(ColType::Timestamp {
        unit,
        zone: Zone::new(alloc, name)?,
    })
}

#[tactic(auto, using(crate::proofs::Faults::faults), unfolding(crate::specs::Types::duration_of))]
fn read_duration(table: &TableRef) -> Result<ColType, StreamFault>
    ensures { Yields (λ t. t) result (duration_of table.now) }
{
    let unit = read_time_unit(table, 1)?;
    Ok(ColType::Duration { unit })
}

#[tactic(auto, using(crate::proofs::Faults::faults), unfolding(crate::specs::Types::fixed_of))]
fn read_fixed(table: &TableRef) -> Result<ColType, StreamFault>
    ensures { Yields (λ t. t) result (fixed_of table.now) }
{
    let width = read_i32(table, FIXED_BYTE_WIDTH, 0)?;
    let width = ranged(0, MAX_FIXED_WIDTH as i32, width)?;
    Ok(ColType::FixedSizeBinary { width })
}
