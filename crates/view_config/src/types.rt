//! Reads the types of columns. What isn't a type is `TypeText`.

ghost use Rattle.std.specs.Prelude.{◌≡◌, ◌≤◌, ◌<◌, IfOk};
ghost use Rattle.values.specs.Reading.{Yields};
ghost use Rattle.toml.specs.View.{items_view, view};
ghost use Rattle.view_config.specs.Reading.{Answers};
ghost use Rattle.view_config.specs.Tree.{each_item};
ghost use Rattle.view_config.specs.ColumnTypes.{array_of, child_of, decimal_of, field_of, list_of, number_in};
ghost use Rattle.view_config.specs.ColumnTypes.{plain_type, simple_of, struct_of, timestamp_of, type_by, unit_in};
ghost use Rattle.view_config.specs.ColumnTypes.{unit_of, zone_in};

use crate::faults::ConfigFault;
use crate::limits::{MAX_ZONE_LEN, check_count, check_distinct, check_name};
use crate::tree::{headed, pair, pair_in, sole};
use std::alloc::Global;
use toml::Value;
use values::limits::{MAX_FIXED_WIDTH, MAX_PRECISION};
use values::{ColType, DateUnit, IntWidth, LogicalField, OffsetWidth, TimeUnit, Zone};

fn int(width: IntWidth, signed: bool) -> ColType
    ensures { result ≡ ColType.Int width signed }
{
    ColType::Int { width, signed }
}

/// The type that is written as this one word.
fn plain_type(word: &str) -> Option<ColType>
    ensures { result ≡ plain_type word.now }
{
    if word == "bool" {
        Some(ColType::Bool)
    } else if word == "int8" {
        Some(int(IntWidth::Bits8, true))
    } else if word == "int16" {
        Some(int(IntWidth::Bits16, true))
    } else if word == "int32" {
        Some(int(IntWidth::Bits32, true))
    } else if word == "int64" {
        Some(int(IntWidth::Bits64, true))
    } else if word == "uint8" {
        Some(int(IntWidth::Bits8, false))
    } else if word == "uint16" {
        Some(int(IntWidth::Bits16, false))
    } else if word == "uint32" {
        Some(int(IntWidth::Bits32, false))
    } else if word == "uint64" {
        Some(int(IntWidth::Bits64, false))
    } else if word == "date32" {
        Some(ColType::Date {
            unit: DateUnit::Day,
        })
    } else if word == "date64" {
        Some(ColType::Date {
            unit: DateUnit::Millisecond,
        })
    } else if word == "utf8" {
        Some(ColType::Utf8 {
            offsets: OffsetWidth::Bits32,
        })
    } else if word == "binary" {
        Some(ColType::Binary {
            offsets: OffsetWidth::Bits32,
        })
    } else {
        None
    }
}

fn unit_of(word: &str) -> Option<TimeUnit>
    ensures { result ≡ unit_of word.now }
{
    if word == "s" {
        Some(TimeUnit::Second)
    } else if word == "ms" {
        Some(TimeUnit::Millisecond)
    } else if word == "us" {
        Some(TimeUnit::Microsecond)
    } else if word == "ns" {
        Some(TimeUnit::Nanosecond)
    } else {
        None
    }
}

fn unit_in(value: &Value) -> Result<TimeUnit, ConfigFault>
    ensures { Yields (λ u. u) result (unit_in (view value.now)) }
{
    match value {
        Value::String(word) => unit_of(word.as_str()).ok_or(ConfigFault::TypeText),
        _ => Err(ConfigFault::TypeText),
    }
}

/// Reads a whole number from `low` to `high`.
fn number_in(low: u32, high: u32, value: &Value) -> Result<u32, ConfigFault>
    ensures exact { Yields (λ n. n) result (number_in low high (view value.now)) }
    ensures bound { IfOk result (λ n. n ≤ high) }
{
    match value {
        Value::Integer(number) if low as i64 <= *number && *number <= high as i64 => {
            Ok(*number as u32)
        }
        _ => Err(ConfigFault::TypeText),
    }
}

fn zone_in(value: &Value) -> Result<&str, ConfigFault>
    ensures { Yields (λ z. z.now) result (zone_in (view value.now)) }
{
    match value {
        Value::String(zone) if 1 <= zone.len() && zone.len() <= MAX_ZONE_LEN => Ok(zone.as_str()),
        _ => Err(ConfigFault::TypeText),
    }
}

#[tactic(auto, using(crate::proofs::Causes::causes), unfolding(crate::specs::ColumnTypes::decimal_of))]
fn decimal_of(values: &[Value]) -> Result<ColType, ConfigFault>
    ensures { Yields (λ t. t) result (decimal_of (items_view values.now)) }
{
    let (precision, scale) = pair(values).ok_or(ConfigFault::TypeText)?;
    let precision = number_in(1, u32::from(MAX_PRECISION), precision)?;
    let scale = number_in(0, precision, scale)?;
    Ok(ColType::Decimal {
        precision: precision as u8,
        scale: scale as u8,
    })
}

#[tactic(auto, using(crate::proofs::Causes::causes), unfolding(crate::specs::ColumnTypes::timestamp_of))]
fn timestamp_of(alloc: Global, values: &[Value]) -> Result<ColType, ConfigFault>
    ensures { Answers (λ t. t) result (timestamp_of (items_view values.now)) }
{
    if let Some(unit) = sole(values) {
        let unit = unit_in(unit)?;
        return Ok(ColType::Timestamp {
            unit,
            zone: Zone::new(alloc, "")?,
        });
    }
    let (unit, zone) = pair(values).ok_or(ConfigFault::TypeText)?;
    let unit = unit_in(unit)?;
    let zone = zone_in(zone)?;
    Ok(ColType::Timestamp {
        unit,
        zone: Zone::new(alloc, zone)?,
    })
}

#[tactic(auto, using(crate::proofs::Causes::causes), unfolding(crate::specs::ColumnTypes::simple_of))]
fn simple_of(alloc: Global, word: &str, values: &[Value]) -> Result<ColType, ConfigFault>
    ensures { Answers (λ t. t) result (simple_of word.now (items_view values.now)) }
{
    if word == "decimal" {
        decimal_of(values)
    } else if word == "time" {
        let unit = unit_in(sole(values).ok_or(ConfigFault::TypeText)?)?;
        Ok(ColType::Time { unit })
    } else if word == "timestamp" {
        timestamp_of(alloc, values)
    } else if word == "duration" {
        let unit = unit_in(sole(values).ok_or(ConfigFault::TypeText)?)?;
        Ok(ColType::Duration { unit })
    } else if word == "fixed" {
        let width = number_in(
            0,
            MAX_FIXED_WIDTH,
            sole(values).ok_or(ConfigFault::TypeText)?,
        )?;
        Ok(ColType::FixedSizeBinary { width })
    } else {
        Err(ConfigFault::TypeText)
    }
}

/// Reads a type, and makes a field of this name with it, nested to at most `depth` levels.
#[cycle(types)]
#[tactic(auto, using(crate::proofs::Causes::causes, crate::proofs::Fields::fields))]
pub(crate) fn read_field(
    alloc: Global,
    name: &str,
    value: &Value,
    depth: u8,
) -> Result<LogicalField, ConfigFault>
    ensures { Answers (λ n. n) result (field_of depth name.now (view value.now)) }
{
    if depth == 0 {
        return Err(ConfigFault::OverLimit);
    }
    read_type(alloc, name, value, depth - 1)
}

#[cycle(types)]
#[tactic(auto, using(crate::proofs::Causes::failing), unfolding(crate::specs::ColumnTypes::type_by))]
fn read_type(
    alloc: Global,
    name: &str,
    value: &Value,
    depth: u8,
) -> Result<LogicalField, ConfigFault>
    ensures { Answers (λ n. n) result (type_by (field_of depth) name.now (view value.now)) }
{
    match value {
        Value::String(word) => {
            let col_type = plain_type(word.as_str()).ok_or(ConfigFault::TypeText)?;
            Ok(LogicalField {
                name: String::from_str(alloc, name)?,
                col_type,
                children: Vec::new(alloc),
            })
        }
        Value::Array(values) => {
            let (word, values) = headed(values.as_slice()).ok_or(ConfigFault::TypeText)?;
            read_array(alloc, name, word, values, depth)
        }
        _ => Err(ConfigFault::TypeText),
    }
}

#[cycle(types)]
#[tactic(auto, using(crate::proofs::Causes::failing), unfolding(crate::specs::ColumnTypes::array_of))]
fn read_array(
    alloc: Global,
    name: &str,
    word: &str,
    values: &[Value],
    depth: u8,
) -> Result<LogicalField, ConfigFault>
    ensures { Answers (λ n. n) result (array_of (field_of depth) name.now word.now (items_view values.now)) }
{
    if word == "list" {
        read_list(alloc, name, values, depth)
    } else if word == "struct" {
        read_struct(alloc, name, values, depth)
    } else {
        let col_type = simple_of(alloc, word, values)?;
        Ok(LogicalField {
            name: String::from_str(alloc, name)?,
            col_type,
            children: Vec::new(alloc),
        })
    }
}

#[cycle(types)]
#[tactic(auto, using(crate::proofs::Causes::failing), unfolding(crate::specs::ColumnTypes::list_of))]
fn read_list(
    alloc: Global,
    name: &str,
    values: &[Value],
    depth: u8,
) -> Result<LogicalField, ConfigFault>
    ensures { Answers (λ n. n) result (list_of (field_of depth) name.now (items_view values.now)) }
{
    let value = sole(values).ok_or(ConfigFault::TypeText)?;
    let item = read_field(alloc, "item", value, depth)?;
    Ok(LogicalField {
        name: String::from_str(alloc, name)?,
        col_type: ColType::List {
            offsets: OffsetWidth::Bits32,
        },
        children: vec![in alloc; item]?,
    })
}

#[cycle(types)]
#[tactic(auto, using(crate::proofs::Causes::failing), unfolding(crate::specs::ColumnTypes::struct_of))]
fn read_struct(
    alloc: Global,
    name: &str,
    values: &[Value],
    depth: u8,
) -> Result<LogicalField, ConfigFault>
    ensures { Answers (λ n. n) result (struct_of (field_of depth) name.now (items_view values.now)) }
{
    let children = read_children(alloc, values, depth)?;
    check_count(&children)?;
    check_distinct(&children)?;
    Ok(LogicalField {
        name: String::from_str(alloc, name)?,
        col_type: ColType::Struct,
        children,
    })
}

#[cycle(types)]
#[tactic(auto, using(crate::proofs::GatheredItems::gathering))]
fn read_children(
    alloc: Global,
    values: &[Value],
    depth: u8,
) -> Result<Vec<LogicalField>, ConfigFault>
    ensures { Answers (λ ns. ns.items) result (each_item (child_of (field_of depth)) (items_view values.now)) }
{
    let mut children = Vec::new(alloc);
    for value in values {
        children.push(read_child(alloc, value, depth)?)?;
    }
    Ok(children)
}

#[cycle(types)]
#[tactic(auto, using(crate::proofs::Causes::failing), unfolding(crate::specs::ColumnTypes::child_of))]
fn read_child(alloc: Global, value: &Value, depth: u8) -> Result<LogicalField, ConfigFault>
    ensures { Answers (λ n. n) result (child_of (field_of depth) (view value.now)) }
{
    let (name, value) = pair_in(value).ok_or(ConfigFault::TypeText)?;
    let name = name.as_str().ok_or(ConfigFault::TypeText)?;
    let name = check_name(name)?;
    read_field(alloc, name, value, depth)
}
