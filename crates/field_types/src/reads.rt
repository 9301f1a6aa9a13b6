//! Reads scalars of FlatBuffers tables, with their defaults.

ghost use Rattle.std.specs.Result.{result_ok};
ghost use Rattle.values.specs.Reading.{Yields, must};
ghost use Rattle.field_types.specs.Reads.{bool_of, byte_of, long_of, short_of, i32_of};

use flatbuf::{BadTable, TableRef};
use values::StreamFault;

/// What was read from a table, with `BadTable` as a fault of the stream.
pub fn readable<T: Drop>(found: Result<T, BadTable>) -> Result<T, StreamFault>
    ensures { Yields (λ x. x) result (must StreamFault.BadTable (result_ok found)) }
{
    match found {
        Ok(value) => Ok(value),
        Err(BadTable) => Err(StreamFault::BadTable),
    }
}

/// The bool in a slot, `false` where it is absent; a slot that isn't readable is `BadTable`, here and below.
#[tactic(auto, unfolding(crate::specs::Reads::bool_of))]
pub fn read_bool(table: &TableRef, slot: u16) -> Result<bool, StreamFault>
    ensures { Yields (λ b. b) result (bool_of table.now slot) }
{
    Ok(read_byte(table, slot)? != 0)
}

/// The number of 8 bits in a slot, 0 where it is absent.
pub fn read_byte(table: &TableRef, slot: u16) -> Result<u8, StreamFault>
    ensures { Yields (λ n. n) result (byte_of table.now slot) }
{
    Ok(readable(table.u8(slot))?.unwrap_or(0))
}

/// The number of 16 bits in a slot, `default` where it is absent.
#[tactic(auto, unfolding(crate::specs::Reads::short_of))]
pub fn read_short(table: &TableRef, slot: u16, default: i16) -> Result<i16, StreamFault>
    ensures { Yields (λ n. n) result (short_of table.now slot default) }
{
    Ok(readable(table.i16(slot))?.unwrap_or(default))
}

/// The number of 32 bits in a slot, `default` where it is absent.
#[tactic(auto, unfolding(crate::specs::Reads::i32_of))]
pub(crate) fn read_i32(table: &TableRef, slot: u16, default: i32) -> Result<i32, StreamFault>
    ensures { Yields (λ n. n) result (i32_of table.now slot default) }
{
    Ok(readable(table.i32(slot))?.unwrap_or(default))
}

/// The number of 64 bits in a slot, 0 where it is absent.
pub fn read_long(table: &TableRef, slot: u16) -> Result<i64, StreamFault>
    ensures { Yields (λ n. n) result (long_of table.now slot) }
{
    Ok(readable(table.i64(slot))?.unwrap_or(0))
}
