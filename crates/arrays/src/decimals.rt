//! Validates decimals by ranges of slots. 27 DecimalRange.

ghost use Rattle.std.specs.Prelude.{◌≡◌, ◌*◌, ◌-◌, ◌<◌, ◌≤◌, ◌^◌, length, true};
ghost use Rattle.bitmaps.specs.Bits.{HasBits};
ghost use Rattle.values.specs.Limits.{max_precision};
ghost use Rattle.values.specs.Reading.{Passes, each};
ghost use Rattle.array_layout.specs.Buffers.{number_at};
ghost use Rattle.array_layout.specs.Cells.{decimal_of};
ghost use Rattle.arrays.specs.Ranges.{where_valid};

use array_layout::{decimal, is_null_at};
use values::StreamFault;

/// Validates a decimal whose digits are below `bound`.
fn validate_decimal(number: i128, precision: u8, bound: u128) -> Result<(), StreamFault>
    requires { bound ≡ 10 ^ precision }
    ensures { Passes result (decimal_of precision number) }
{
    if number.unsigned_abs() < bound {
        Ok(())
    } else {
        Err(StreamFault::DecimalRange)
    }
}

/// Validates the decimals of the slots from `from` to `to`.
#[tactic(auto, using(values::proofs::Readings::deciding, crate::proofs::RangeLemmas::slot_laws, crate::proofs::Powers::powers))]
pub(crate) fn validate_decimals(
    bits: &[u8],
    values: &[u8],
    precision: u8,
    from: usize,
    to: usize,
) -> Result<(), StreamFault>
    requires order { from ≤ to }
    requires bits { 0 < length bits.now → HasBits bits.now to }
    requires room { 16 * to ≤ length values.now }
    requires digits { precision ≤ max_precision }
    ensures { Passes result
        (each (where_valid bits.now (λ i. decimal_of precision (number_at true 16 values.now i))) from (to - from)) }
{
    let bound = 10u128.pow(u32::from(precision));
    for i in from..to {
        if !is_null_at(bits, i) {
            validate_decimal(decimal(values, i), precision, bound)?;
        }
    }
    Ok(())
}
