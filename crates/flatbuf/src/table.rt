//! Reads tables: slots are found through the vtable.
ghost use Rattle.std.specs.Prelude.{◌≡◌, ◌<◌, ◌^◌, is_some};
ghost use Rattle.std.specs.Int.{w16, w32, w64};
ghost use Rattle.std.specs.Option.{option_copied, option_map};
ghost use Rattle.std.specs.Result.{result_ok};
ghost use Rattle.flatbuf.specs.Layout.{
  number_of,
  place_of_vtable,
  root_of,
  signed_of,
  slot_of,
  structs_of,
  subtable_of,
  table_at,
  text_of,
  vector_of,
};

use crate::bad_table::BadTable;
use crate::numbers::{block, target, u8_at, u16_at, u32_at, u64_at};
use crate::vector::VectorRef;
use std::marker::Model;

/// A whole buffer: where reading starts.
pub enum Buf {}

impl Buf {
    /// The root table.
    pub fn root(bytes: &[u8]) -> Result<TableRef<'_>, BadTable>
        ensures { result_ok result ≡ root_of bytes.now }
    {
        TableRef::at(bytes, target(bytes, 0)?)
    }
}

/// A table of the buffer. Contracts see the buffer's bytes and the table's position in them.
///
/// Each call reads the field of one slot. `Ok(None)` is a field that is absent: its default is up to the caller. What
/// is read is the slot in the vtable, the field, and the object to which the field's offset points.
#[derive(Drop)]
pub struct TableRef<'a> {
    bytes: &'a [u8],
    place: usize,
    vtable: usize,
    vtable_size: usize,
}

impl<'a> Model for TableRef<'a> {
    ghost use Rattle.std.specs.Prelude.{◌≡◌, Some};
    ghost use Rattle.flatbuf.specs.Layout.{Table, vtable_at};

    ghost Value = { Table };

    ghost view = { λ t. record { bytes = t.bytes.now; place = t.place } };

    ghost invariant = { λ t. vtable_at t.bytes.now t.place ≡ Some (record { place = t.vtable; size = t.vtable_size }) };
}

impl<'a> TableRef<'a> {
    /// The table at position `place`.
    pub(crate) fn at(bytes: &'a [u8], place: usize) -> Result<TableRef<'a>, BadTable>
        ensures { result_ok result ≡ table_at bytes.now place }
    {
        let distance = u32_at(bytes, place)?;
        let vtable = vtable_place(place, distance).ok_or(BadTable)?;
        let vtable_size = u16_at(bytes, vtable)? as usize;
        if vtable_size < 4 {
            return Err(BadTable);
        }
        Ok(TableRef {
            bytes,
            place,
            vtable,
            vtable_size,
        })
    }

    /// The position of the field in `slot`, if it is present.
    fn field(&self, slot: u16) -> Result<Option<usize>, BadTable>
        ensures { result_ok result ≡ slot_of self.now slot }
    {
        let from = 4 + 2 * slot as usize;
        if self.vtable_size < from + 2 {
            return Ok(None);
        }
        let offset = u16_at(self.bytes, self.vtable + from)?;
        if offset == 0 {
            return Ok(None);
        }
        Ok(Some(self.place + offset as usize))
    }

    /// Whether the field in `slot` is present. The field itself is not read.
    pub fn has(&self, slot: u16) -> Result<bool, BadTable>
        ensures { result_ok result ≡ option_map is_some (slot_of self.now slot) }
    {
        Ok(self.field(slot)?.is_some())
    }

    /// An unsigned number of 8 bits.
    pub fn u8(&self, slot: u16) -> Result<Option<u8>, BadTable>
        ensures { result_ok result ≡ number_of 1 self.now slot }
    {
        match self.field(slot)? {
            None => Ok(None),
            Some(place) => Ok(Some(u8_at(self.bytes, place)?)),
        }
    }

    /// A signed number of 16 bits.
    pub fn i16(&self, slot: u16) -> Result<Option<i16>, BadTable>
        ensures { result_ok result ≡ signed_of w16 self.now slot }
    {
        match self.field(slot)? {
            None => Ok(None),
            Some(place) => Ok(Some(u16_at(self.bytes, place)?.cast_signed())),
        }
    }

    /// A signed number of 32 bits.
    pub fn i32(&self, slot: u16) -> Result<Option<i32>, BadTable>
        ensures { result_ok result ≡ signed_of w32 self.now slot }
    {
        match self.field(slot)? {
            None => Ok(None),
            Some(place) => Ok(Some(u32_at(self.bytes, place)?.cast_signed())),
        }
    }

    /// A signed number of 64 bits.
    pub fn i64(&self, slot: u16) -> Result<Option<i64>, BadTable>
        ensures { result_ok result ≡ signed_of w64 self.now slot }
    {
        match self.field(slot)? {
            None => Ok(None),
            Some(place) => Ok(Some(u64_at(self.bytes, place)?.cast_signed())),
        }
    }

    /// The bytes of a string. They need not be UTF-8, and the zero byte after them is not read.
    pub fn text(&self, slot: u16) -> Result<Option<&'a [u8]>, BadTable>
        ensures { option_map option_copied (result_ok result) ≡ text_of self.now slot }
    {
        self.structs(slot, 1)
    }

    /// The bytes of a vector of structs of `width` bytes each: `width` times the vector's count.
    pub fn structs(&self, slot: u16, width: usize) -> Result<Option<&'a [u8]>, BadTable>
        ensures { option_map option_copied (result_ok result) ≡ structs_of width self.now slot }
    {
        match self.field(slot)? {
            None => Ok(None),
            Some(place) => {
                let start = target(self.bytes, place)?;
                Ok(Some(block(self.bytes, start, width)?))
            }
        }
    }

    /// A table below this one, or the table of a union.
    pub fn table(&self, slot: u16) -> Result<Option<TableRef<'a>>, BadTable>
        ensures { result_ok result ≡ subtable_of self.now slot }
    {
        match self.field(slot)? {
            None => Ok(None),
            Some(place) => {
                let start = target(self.bytes, place)?;
                Ok(Some(TableRef::at(self.bytes, start)?))
            }
        }
    }

    /// A vector of tables. Its count is read, and none of its elements.
    pub fn vector(&self, slot: u16) -> Result<Option<VectorRef<'a>>, BadTable>
        ensures { result_ok result ≡ vector_of self.now slot }
    {
        match self.field(slot)? {
            None => Ok(None),
            Some(place) => {
                let start = target(self.bytes, place)?;
                Ok(Some(VectorRef::at(self.bytes, start)?))
            }
        }
    }
}

/// `place` less the signed offset whose bits are `distance`; `None` where that is negative.
fn vtable_place(place: usize, distance: u32) -> Option<usize>
    requires { place < 2 ^ 63 }
    ensures { result ≡ place_of_vtable place distance }
{
    if distance >= 1 << 31 {
        return Some(place + ((1 << 32) - distance as usize));
    }
    place.checked_sub(distance as usize)
}
