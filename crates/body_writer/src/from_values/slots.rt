//! Reads from a reference to a value what its column stores of it: a bit, a number, bytes, a length, a child cell.

ghost use Rattle.std.specs.Prelude.{◌≡◌, ◌++◌, OnOk};
ghost use Rattle.body_writer.specs.Slots.{
  cell_of,
  is_valid,
  truth_in as truth_of,
  whole_in as whole_of,
  bytes_in as bytes_of,
  fixed_in,
  length_in as length_of,
  part as part_of,
};

use crate::bytes::push_zeros;
use std::alloc::AllocError;
use values::{Kind, Value};

/// Whether a cell is not null. `None` is a cell below a null struct, which is null.
pub fn is_set(cell: Option<&Value>) -> bool
    ensures { result ≡ is_valid (cell_of cell.entry) }
{
    let Some(value) = cell else {
        return false;
    };
    match &value.kind {
        Kind::Null => false,
        _ => true,
    }
}

/// The bool in a cell; `false` where it holds none.
pub fn truth_in(cell: Option<&Value>) -> bool
    ensures { result ≡ truth_of (cell_of cell.entry) }
{
    let Some(value) = cell else {
        return false;
    };
    match &value.kind {
        Kind::Bool(truth) => *truth,
        _ => false,
    }
}

/// The whole number in a cell; 0 where it holds none.
pub fn whole_in(cell: Option<&Value>) -> i128
    ensures { result ≡ whole_of (cell_of cell.entry) }
{
    let Some(value) = cell else {
        return 0;
    };
    match &value.kind {
        Kind::Int(number) => *number,
        _ => 0,
    }
}

/// The bytes of a text or of bytes; empty for any other cell.
pub fn bytes_in<'a>(cell: Option<&'a Value>) -> &'a [u8]
    ensures { result.now ≡ bytes_of (cell_of cell.entry) }
{
    let Some(value) = cell else {
        return &[];
    };
    match &value.kind {
        Kind::Utf8(text) => text.as_bytes(),
        Kind::Binary(bytes) => bytes,
        _ => &[],
    }
}

/// How many bytes a text or bytes have, or how many items a list has; 0 for any other cell.
#[tactic(auto, using(crate::proofs::Cells::reading))]
pub fn length_in(cell: Option<&Value>) -> usize
    ensures { result ≡ length_of (cell_of cell.entry) }
{
    let Some(value) = cell else {
        return 0;
    };
    match &value.kind {
        Kind::Utf8(text) => text.len(),
        Kind::Binary(bytes) => bytes.len(),
        Kind::List(items) => items.len(),
        _ => 0,
    }
}

/// Appends the cell of a column of bytes that are all `width` long: the bytes, and zeros for any other cell.
pub fn push_fixed(
    buffer: &mut Vec<u8>,
    cell: Option<&Value>,
    width: usize,
) -> Result<(), AllocError>
    ensures { OnOk result (buffer.new.items ≡ buffer.old.items ++ fixed_in width (cell_of cell.entry)) }
{
    let Some(value) = cell else {
        return push_zeros(buffer, width);
    };
    match &value.kind {
        Kind::Binary(bytes) => buffer.extend_from_slice(bytes),
        _ => push_zeros(buffer, width),
    }
}

/// Child `j` of a struct; `None`, which is a null, for any other cell.
#[tactic(auto, using(crate::proofs::Cells::reading))]
pub fn part<'a>(cell: Option<&'a Value>, j: usize) -> Option<&'a Value>
    ensures { cell_of result ≡ part_of j (cell_of cell.entry) }
{
    let Some(value) = cell else {
        return None;
    };
    match &value.kind {
        Kind::Struct(children) => children.get(j),
        _ => None,
    }
}
