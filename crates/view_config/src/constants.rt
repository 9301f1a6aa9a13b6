//! Reads constants of filters, each by the type of the column that it is compared with.

ghost use Rattle.std.specs.Prelude.{◌≡◌, ◌<◌, ◌≤◌, ◌^◌, IfSome, length, min};
ghost use Rattle.toml.specs.View.{view};
ghost use Rattle.values.specs.Limits.{max_precision};
ghost use Rattle.values.specs.Reading.{must};
ghost use Rattle.view_config.specs.Constants.{binary_in, byte_of, bytes_in_pairs, constant_of, decimal};
ghost use Rattle.view_config.specs.Constants.{
  decimal_in,
  digits_after,
  fixed_in,
  held,
  magnitude,
};
ghost use Rattle.view_config.specs.Constants.{nibble, pairs, pointed, some_digits, text_constant, truth_in, unscaled};
ghost use Rattle.view_config.specs.Constants.{whole_in};
ghost use Rattle.view_config.specs.Reading.{Answers};

use crate::faults::ConfigFault;
use std::alloc::Global;
use toml::Value;
use values::limits::MAX_PRECISION;
use values::{ColType, IntWidth, Kind, Value as Constant};

fn truth_in(value: &Value) -> Option<Constant>
    ensures { result ≡ truth_in (view value.now) }
{
    match value {
        Value::Boolean(truth) => Some(Constant {
            kind: Kind::Bool(*truth),
        }),
        _ => None,
    }
}

fn whole_in(width: IntWidth, signed: bool, value: &Value) -> Option<Constant>
    ensures { result ≡ whole_in width signed (view value.now) }
{
    match value {
        Value::Integer(number) => {
            let number = i128::from(*number);
            if width.least(signed) <= number && number <= width.greatest(signed) {
                Some(Constant {
                    kind: Kind::Int(number),
                })
            } else {
                None
            }
        }
        _ => None,
    }
}

/// The number whose decimal digits are those of `start` and then these, at most `u128::MAX`; `None` where one of these
/// is no digit.
#[tactic(auto, using(crate::proofs::Digits::digits))]
fn digits_after(start: u128, digits: &[u8]) -> Option<u128>
    ensures { result ≡ held (digits_after start digits.now) }
{
    let mut number = start;
    for digit in digits {
        if !(b'0' <= *digit && *digit <= b'9') {
            return None;
        }
        number = number
            .saturating_mul(10)
            .saturating_add(u128::from(*digit - b'0'));
    }
    Some(number)
}

#[tactic(auto, using(crate::proofs::Digits::numbers))]
fn some_digits(digits: &[u8]) -> Option<u128>
    ensures { result ≡ held (some_digits digits.now) }
{
    if digits.is_empty() {
        return None;
    }
    digits_after(0, digits)
}

/// The number of the digits on both sides of the point at index `point`, which is skipped.
#[tactic(auto, using(crate::proofs::Digits::numbers), unfolding(crate::specs::Constants::pointed))]
fn pointed(point: usize, text: &[u8]) -> Option<u128>
    requires { point < length text.now }
    ensures { result ≡ held (pointed point text.now) }
{
    if text[point] != b'.' {
        return None;
    }
    digits_after(some_digits(&text[..point])?, &text[point + 1..])
}

/// The unscaled number of a text without a sign that has exactly `scale` digits after the point.
#[tactic(auto, using(crate::proofs::Digits::scales))]
fn unscaled(scale: u8, text: &[u8]) -> Option<u128>
    ensures { result ≡ held (unscaled scale text.now) }
{
    if scale == 0 {
        return some_digits(text);
    }
    let behind = usize::from(scale) + 1;
    if text.len() < behind {
        return None;
    }
    pointed(text.len() - behind, text)
}

/// The least unscaled number that has more than `precision` digits.
#[tactic(auto, using(crate::proofs::Digits::powers))]
fn limit_of(precision: u8) -> u128
    ensures value { result ≡ 10 ^ min precision max_precision }
    ensures bound { result ≤ 10 ^ max_precision }
{
    10u128.pow(u32::from(precision.min(MAX_PRECISION)))
}

#[tactic(auto, using(crate::proofs::Digits::magnitudes))]
fn magnitude(precision: u8, scale: u8, text: &[u8]) -> Option<u128>
    ensures value { result ≡ magnitude precision scale text.now }
    ensures bound { IfSome result (λ m. m < 10 ^ max_precision) }
{
    let number = unscaled(scale, text)?;
    if number < limit_of(precision) {
        Some(number)
    } else {
        None
    }
}

#[tactic(auto, unfolding(crate::specs::Constants::decimal))]
fn decimal(precision: u8, scale: u8, text: &[u8]) -> Option<Constant>
    ensures { result ≡ decimal precision scale text.now }
{
    let (first, rest) = text.split_first()?;
    let number = if *first == b'-' {
        -(magnitude(precision, scale, rest)? as i128)
    } else {
        magnitude(precision, scale, text)? as i128
    };
    Some(Constant {
        kind: Kind::Int(number),
    })
}

fn decimal_in(precision: u8, scale: u8, value: &Value) -> Option<Constant>
    ensures { result ≡ decimal_in precision scale (view value.now) }
{
    match value {
        Value::String(text) => decimal(precision, scale, text.as_bytes()),
        _ => None,
    }
}

fn text_in(alloc: Global, value: &Value) -> Result<Constant, ConfigFault>
    ensures { Answers (λ c. c) result (must ConfigFault.ConstantType (text_constant (view value.now))) }
{
    match value {
        Value::String(text) => Ok(Constant {
            kind: Kind::Utf8(String::from_str(alloc, text.as_str())?),
        }),
        _ => Err(ConfigFault::ConstantType),
    }
}

/// The value of a hexadecimal digit in lower case.
fn nibble(digit: u8) -> Option<u8>
    ensures value { result ≡ nibble digit }
    ensures bound { IfSome result (λ n. n < 16) }
{
    match digit {
        b'0'..=b'9' => Some(digit - b'0'),
        b'a'..=b'f' => Some(digit - b'a' + 10),
        _ => None,
    }
}

fn byte_of(high: u8, low: u8) -> Option<u8>
    ensures { result ≡ byte_of high low }
{
    Some(16 * nibble(high)? + nibble(low)?)
}

/// The bytes of a text of pairs of lower case hexadecimal digits; another text is `ConstantType`.
#[tactic(auto, using(crate::proofs::Pairs::paired))]
fn pairs(alloc: Global, text: &[u8]) -> Result<Vec<u8>, ConfigFault>
    ensures { Answers (λ b. b.items) result (must ConfigFault.ConstantType (pairs text.now)) }
{
    if text.len() % 2 != 0 {
        return Err(ConfigFault::ConstantType);
    }
    let mut bytes = Vec::new(alloc);
    for index in 0..text.len() / 2 {
        let byte = byte_of(text[2 * index], text[2 * index + 1]);
        bytes.push(byte.ok_or(ConfigFault::ConstantType)?)?;
    }
    Ok(bytes)
}

fn bytes_in(alloc: Global, value: &Value) -> Result<Vec<u8>, ConfigFault>
    ensures { Answers (λ b. b.items) result (must ConfigFault.ConstantType (bytes_in_pairs (view value.now))) }
{
    match value {
        Value::String(text) => pairs(alloc, text.as_bytes()),
        _ => Err(ConfigFault::ConstantType),
    }
}

#[tactic(auto, using(crate::proofs::Pairs::made))]
fn binary_in(alloc: Global, value: &Value) -> Result<Constant, ConfigFault>
    ensures { Answers (λ c. c) result (must ConfigFault.ConstantType (binary_in (view value.now))) }
{
    Ok(Constant {
        kind: Kind::Binary(bytes_in(alloc, value)?),
    })
}

#[tactic(auto, using(crate::proofs::Pairs::made))]
fn fixed_in(alloc: Global, width: u32, value: &Value) -> Result<Constant, ConfigFault>
    ensures { Answers (λ c. c) result (must ConfigFault.ConstantType (fixed_in width (view value.now))) }
{
    let bytes = bytes_in(alloc, value)?;
    if bytes.len() != width as usize {
        return Err(ConfigFault::ConstantType);
    }
    Ok(Constant {
        kind: Kind::Binary(bytes),
    })
}

/// Reads a constant that is compared with a column of this type; another value is `ConstantType`.
#[tactic(auto, unfolding(crate::specs::Constants::constant_in))]
pub(crate) fn read_constant(
    alloc: Global,
    col_type: &ColType,
    value: &Value,
) -> Result<Constant, ConfigFault>
    ensures { Answers (λ c. c) result (constant_of col_type.now (view value.now)) }
{
    let constant = match col_type {
        ColType::Bool => truth_in(value),
        ColType::Int { width, signed } => whole_in(*width, *signed, value),
        ColType::Decimal { precision, scale } => decimal_in(*precision, *scale, value),
        ColType::Date { unit } => whole_in(unit.width(), true, value),
        ColType::Time { unit } => whole_in(unit.width(), true, value),
        ColType::Timestamp { .. } | ColType::Duration { .. } => {
            whole_in(IntWidth::Bits64, true, value)
        }
        ColType::Utf8 { .. } => return text_in(alloc, value),
        ColType::Binary { .. } => return binary_in(alloc, value),
        ColType::FixedSizeBinary { width } => return fixed_in(alloc, *width, value),
        ColType::List { .. } | ColType::Struct => None,
    };
    constant.ok_or(ConfigFault::ConstantType)
}
