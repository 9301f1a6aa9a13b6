//! Checks of numbers in metadata tables, with the fault for each.

ghost use Rattle.std.specs.Prelude.{◌≤◌, ◌^◌, IfOk};
ghost use Rattle.values.specs.Reading.{Yields};
ghost use Rattle.schema_meta.specs.Counts.{within};

use values::StreamFault;

/// The number as a count, or `fault` where it isn't from 0 to `most`.
pub fn checked(fault: StreamFault, most: usize, number: i64) -> Result<usize, StreamFault>
    requires { most ≤ 2 ^ 31 }
    ensures value { Yields (λ x. x) result (within fault most number) }
    ensures small { IfOk result (λ n. n ≤ most) }
{
    if number < 0 || number > most as i64 {
        return Err(fault);
    }
    Ok(number as usize)
}
