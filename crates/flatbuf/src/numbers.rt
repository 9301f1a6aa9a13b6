//! Reads little-endian numbers, offsets and byte ranges at a position of the buffer.
ghost use Rattle.std.specs.Prelude.{◌≡◌, ◌↔◌, ◌+◌, ◌≤◌, length, IsTrue};
ghost use Rattle.std.specs.Result.{result_ok};
ghost use Rattle.std.specs.Option.{option_copied};
ghost use Rattle.flatbuf.specs.Layout.{block_at, number_at, target_at};

use crate::bad_table::BadTable;
use byteorder::{ByteOrder, LittleEndian};

/// Whether the buffer has `len` bytes from position `place` on.
fn is_readable(bytes: &[u8], place: usize, len: usize) -> bool
    ensures { IsTrue result ↔ (place + len ≤ length bytes.now) }
{
    place <= bytes.len() && len <= bytes.len() - place
}

pub(crate) fn u8_at(bytes: &[u8], place: usize) -> Result<u8, BadTable>
    ensures { result_ok result ≡ number_at 1 bytes.now place }
{
    bytes.get(place).copied().ok_or(BadTable)
}

pub(crate) fn u16_at(bytes: &[u8], place: usize) -> Result<u16, BadTable>
    ensures { result_ok result ≡ number_at 2 bytes.now place }
{
    if !is_readable(bytes, place, 2) {
        return Err(BadTable);
    }
    Ok(LittleEndian::read_u16(&bytes[place..]))
}

pub(crate) fn u32_at(bytes: &[u8], place: usize) -> Result<u32, BadTable>
    ensures { result_ok result ≡ number_at 4 bytes.now place }
{
    if !is_readable(bytes, place, 4) {
        return Err(BadTable);
    }
    Ok(LittleEndian::read_u32(&bytes[place..]))
}

pub(crate) fn u64_at(bytes: &[u8], place: usize) -> Result<u64, BadTable>
    ensures { result_ok result ≡ number_at 8 bytes.now place }
{
    if !is_readable(bytes, place, 8) {
        return Err(BadTable);
    }
    Ok(LittleEndian::read_u64(&bytes[place..]))
}

/// The position to which the offset at `place` points. It may lie outside the buffer.
pub(crate) fn target(bytes: &[u8], place: usize) -> Result<usize, BadTable>
    ensures { result_ok result ≡ target_at bytes.now place }
{
    let distance = u32_at(bytes, place)?;
    Ok(place + distance as usize)
}

/// The elements of the vector at position `place`, each `width` bytes long.
pub(crate) fn block(bytes: &[u8], place: usize, width: usize) -> Result<&[u8], BadTable>
    ensures { option_copied (result_ok result) ≡ block_at width bytes.now place }
{
    let count = u32_at(bytes, place)? as usize;
    let start = place + 4;
    let len = count.checked_mul(width).ok_or(BadTable)?;
    if !is_readable(bytes, start, len) {
        return Err(BadTable);
    }
    Ok(&bytes[start..start + len])
}
