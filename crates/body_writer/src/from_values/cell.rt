//! Cells as a column is written from them: references to values, or cells where they lie.

use crate::bytes::push_zeros;
use crate::from_values::slots;
use std::alloc::AllocError;
use values::{CellView, Value};

/// A cell, of which a column stores a bit, a number or bytes.
pub(crate) trait Cell {
    ghost use Rattle.std.specs.Prelude.{◌≡◌, ◌++◌, OnOk};
    ghost use Rattle.values.specs.Datum.{Datum};
    ghost use Rattle.body_writer.specs.Slots.{
      is_valid,
      truth_in,
      whole_in,
      bytes_in,
      fixed_in,
      length_in,
    };

    /// What the cell holds.
    ghost datum: { Self → Datum };

    /// Whether the cell is not null.
    fn is_set(&self) -> bool
        ensures { result ≡ is_valid (datum self.now) };

    /// The bool in the cell; `false` where it holds none.
    fn truth(&self) -> bool
        ensures { result ≡ truth_in (datum self.now) };

    /// The whole number in the cell; 0 where it holds none.
    fn whole(&self) -> i128
        ensures { result ≡ whole_in (datum self.now) };

    /// The bytes of a text or of bytes; empty for any other cell.
    fn bytes(&self) -> &[u8]
        ensures { result.now ≡ bytes_in (datum self.now) };

    /// How many bytes a text or bytes have, or how many items a list has; 0 for any other cell.
    fn length(&self) -> usize
        ensures { result ≡ length_in (datum self.now) };

    /// Appends the cell of a column of bytes that are all `width` long: the bytes, and zeros for any other cell.
    fn push_fixed(&self, buffer: &mut Vec<u8>, width: usize) -> Result<(), AllocError>
        ensures { OnOk result (buffer.new.items ≡ buffer.old.items ++ fixed_in width (datum self.now)) };
}

impl<'a> Cell for Option<&'a Value> {
    ghost use Rattle.body_writer.specs.Slots.{cell_of};

    ghost datum = { cell_of };

    fn is_set(&self) -> bool {
        slots::is_set(*self)
    }

    fn truth(&self) -> bool {
        slots::truth_in(*self)
    }

    fn whole(&self) -> i128 {
        slots::whole_in(*self)
    }

    fn bytes(&self) -> &[u8] {
        slots::bytes_in(*self)
    }

    fn length(&self) -> usize {
        slots::length_in(*self)
    }

    fn push_fixed(&self, buffer: &mut Vec<u8>, width: usize) -> Result<(), AllocError> {
        slots::push_fixed(buffer, *self, width)
    }
}

/// Of a list or a struct a view gives no items.
impl<'a> Cell for CellView<'a> {
    ghost use Rattle.values.specs.CellViews.{viewed};

    ghost datum = { viewed };

    fn is_set(&self) -> bool {
        !matches!(self, CellView::Null)
    }

    fn truth(&self) -> bool {
        match self {
            CellView::Bool(truth) => *truth,
            _ => false,
        }
    }

    fn whole(&self) -> i128 {
        match self {
            CellView::Int(number) => *number,
            _ => 0,
        }
    }

    fn bytes(&self) -> &[u8] {
        match self {
            CellView::Utf8(text) => text.as_bytes(),
            CellView::Binary(bytes) => bytes,
            _ => &[],
        }
    }

    fn length(&self) -> usize {
        match self {
            CellView::Utf8(text) => text.len(),
            CellView::Binary(bytes) => bytes.len(),
            _ => 0,
        }
    }

    fn push_fixed(&self, buffer: &mut Vec<u8>, width: usize) -> Result<(), AllocError> {
        match self {
            CellView::Binary(bytes) => buffer.extend_from_slice(bytes),
            _ => push_zeros(buffer, width),
        }
    }
}
