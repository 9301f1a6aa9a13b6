//! Reads vectors of tables.
ghost use Rattle.std.specs.Prelude.{◌≡◌, ◌<◌, ◌==◌};
ghost use Rattle.std.specs.Result.{result_ok};
ghost use Rattle.flatbuf.specs.Layout.{entry_of, vector_at};

use crate::bad_table::BadTable;
use crate::numbers::{target, u32_at};
use crate::table::TableRef;
use std::marker::Model;

/// A vector of tables. Contracts see the buffer's bytes, the position of the first element and the count. The count is
/// what the buffer says: the elements need not all lie in the buffer.
#[derive(Drop)]
pub struct VectorRef<'a> {
    bytes: &'a [u8],
    start: usize,
    count: u32,
}

impl<'a> Model for VectorRef<'a> {
    ghost use Rattle.std.specs.Prelude.{◌≤◌, ◌<◌, length};
    ghost use Rattle.flatbuf.specs.Layout.{Vector};

    ghost Value = { Vector };

    ghost view = { λ v. record { bytes = v.bytes.now; start = v.start; count = v.count } };

    ghost invariant = { λ v. v.start ≤ length v.bytes.now };
}

impl<'a> VectorRef<'a> {
    /// The vector at position `place`.
    pub(crate) fn at(bytes: &'a [u8], place: usize) -> Result<VectorRef<'a>, BadTable>
        ensures { result_ok result ≡ vector_at bytes.now place }
    {
        let count = u32_at(bytes, place)?;
        Ok(VectorRef {
            bytes,
            start: place + 4,
            count,
        })
    }

    /// The count of the vector.
    pub fn len(&self) -> usize
        ensures { result ≡ self.now.count }
    {
        self.count as usize
    }

    /// Whether the vector's count is 0.
    pub fn is_empty(&self) -> bool
        ensures { result ≡ (self.now.count == 0) }
    {
        self.count == 0
    }

    /// The table to which element `index` points.
    pub fn table(&self, index: usize) -> Result<TableRef<'a>, BadTable>
        requires { index < self.now.count }
        ensures { result_ok result ≡ entry_of self.now index }
    {
        let start = target(self.bytes, self.start + 4 * index)?;
        TableRef::at(self.bytes, start)
    }
}
