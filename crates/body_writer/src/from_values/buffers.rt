//! The buffers of one array, each built whole, and the cells of its children.

ghost use Rattle.std.specs.Prelude.{◌≡◌, ◌+◌, ◌*◌, ◌<◌, ◌≤◌, ◌++◌, IfOk, OnOk, length, map};
ghost use Rattle.std.specs.Int.{w128};
ghost use Rattle.values.specs.Layouts.{offset_bound};
ghost use Rattle.byteorder.specs.Endian.{little_bytes, low_bytes};
ghost use Rattle.body_writer.specs.Slots.{
  part as part_of,
  cell_of,
  cells_of,
  null_count,
  items_in,
  total_length,
};
ghost use Rattle.bitmaps.specs.Packed.{bytes_of};
ghost use Rattle.body_writer.specs.Columns.{
  validity as validity_of,
  truths as truths_of,
  numbers as numbers_of,
  fixed as fixed_of,
  offsets as offsets_of,
  joined as joined_of,
  items as items_of,
  child_cells as cells_of_child,
};

use crate::bytes::push_offset;
use crate::from_values::cell::Cell;
use crate::from_values::slots;
use bitmaps::Bitmap;
use byteorder::{ByteOrder, LittleEndian};
use std::alloc::{AllocError, Global};
use values::{Kind, Layout, OffsetWidth, Value};

/// How many cells are null.
#[tactic(auto, using(crate::proofs::Cells::steps))]
pub fn count_nulls<C: Cell>(cells: &[C]) -> usize
    ensures value { result ≡ null_count (map C.datum cells.now) }
    ensures bound { result ≤ length cells.now }
{
    let mut nulls = 0;
    for cell in cells {
        if !cell.is_set() {
            nulls += 1;
        }
    }
    nulls
}

/// The validity buffer: a bit a cell, or no bits where no cell is null.
#[tactic(auto, using(crate::proofs::Cells::bits))]
pub fn validity<C: Cell>(alloc: Global, cells: &[C]) -> Result<Bitmap, AllocError>
    requires { length cells.now < offset_bound }
    ensures { IfOk result (λ bits. bytes_of bits ≡ validity_of (map C.datum cells.now)) }
{
    let mut bits = Bitmap::new(alloc);
    if count_nulls(cells) == 0 {
        return Ok(bits);
    }
    for cell in cells {
        bits.push(cell.is_set())?;
    }
    Ok(bits)
}

/// The values of a column of bools: a bit a cell, 0 for a null.
#[tactic(auto, using(crate::proofs::Cells::steps), unfolding(crate::specs::Columns::truths))]
pub fn truths<C: Cell>(alloc: Global, cells: &[C]) -> Result<Bitmap, AllocError>
    requires { length cells.now < offset_bound }
    ensures { IfOk result (λ bits. bytes_of bits ≡ truths_of (map C.datum cells.now)) }
{
    let mut bits = Bitmap::new(alloc);
    for cell in cells {
        bits.push(cell.truth())?;
    }
    Ok(bits)
}

/// Appends a number. Most have 64 bits, and are written as such.
fn push_number(buffer: &mut Vec<u8>, number: i128, width: usize) -> Result<(), AllocError>
    requires some { 1 ≤ width }
    requires few { width ≤ 16 }
    ensures { OnOk result (buffer.new.items ≡ buffer.old.items ++ little_bytes width (low_bytes w128 width number)) }
{
    if width == 8 {
        if let Ok(number) = i64::try_from(number) {
            return buffer.extend_from_slice(&number.to_le_bytes());
        }
    }
    let mut bytes = [0u8; 16];
    LittleEndian::write_int128(&mut bytes, number, width);
    buffer.extend_from_slice(&bytes[..width])
}

/// Appends the numbers of the cells, `width` bytes each; 0 for a null.
#[tactic(auto, using(crate::proofs::Cells::steps), unfolding(crate::specs::Columns::numbers))]
pub fn push_numbers<C: Cell>(
    buffer: &mut Vec<u8>,
    cells: &[C],
    width: usize,
) -> Result<(), AllocError>
    requires some { 1 ≤ width }
    requires few { width ≤ 16 }
    ensures { OnOk result (buffer.new.items ≡ buffer.old.items ++ numbers_of width (map C.datum cells.now)) }
{
    buffer.reserve(width.saturating_mul(cells.len()))?;
    for cell in cells {
        push_number(buffer, cell.whole(), width)?;
    }
    Ok(())
}

/// Appends the bytes of each cell, and `width` zeros for a null.
#[tactic(auto, using(crate::proofs::Cells::steps), unfolding(crate::specs::Columns::fixed))]
pub fn push_all_fixed<C: Cell>(
    buffer: &mut Vec<u8>,
    cells: &[C],
    width: usize,
) -> Result<(), AllocError>
    ensures { OnOk result (buffer.new.items ≡ buffer.old.items ++ fixed_of width (map C.datum cells.now)) }
{
    for cell in cells {
        cell.push_fixed(buffer, width)?;
    }
    Ok(())
}

/// Appends the bytes of all cells, one after the other.
#[tactic(auto, using(crate::proofs::Cells::steps), unfolding(crate::specs::Columns::joined))]
pub fn push_joined<C: Cell>(buffer: &mut Vec<u8>, cells: &[C]) -> Result<(), AllocError>
    ensures { OnOk result (buffer.new.items ≡ buffer.old.items ++ joined_of (map C.datum cells.now)) }
{
    for cell in cells {
        buffer.extend_from_slice(cell.bytes())?;
    }
    Ok(())
}

/// Appends the offsets: where the bytes or the items of each cell start, and where the last ones end.
#[tactic(auto, using(crate::proofs::Cells::steps), unfolding(crate::specs::Columns::offsets, crate::specs::Columns::offsets_from))]
pub fn push_offsets<C: Cell>(
    buffer: &mut Vec<u8>,
    cells: &[C],
    width: OffsetWidth,
) -> Result<(), AllocError>
    requires { total_length (map C.datum cells.now) < offset_bound }
    ensures { OnOk result (buffer.new.items ≡ buffer.old.items ++ offsets_of width (map C.datum cells.now)) }
{
    buffer.reserve(width.bytes().saturating_mul(cells.len()))?;
    let mut end = 0;
    for cell in cells {
        push_offset(buffer, width, end)?;
        end += cell.length() as u64;
    }
    push_offset(buffer, width, end)
}

/// Appends the items of a list.
#[tactic(auto, using(crate::proofs::Cells::reading))]
fn push_items<'a>(
    all: &mut Vec<Option<&'a Value>>,
    cell: Option<&'a Value>,
) -> Result<(), AllocError>
    ensures { OnOk result (cells_of all.new.items ≡ cells_of all.old.items ++ items_in (cell_of cell.entry)) }
{
    let Some(value) = cell else {
        return Ok(());
    };
    if let Kind::List(items) = &value.kind {
        for item in items {
            all.push(Some(item))?;
        }
    }
    Ok(())
}

#[tactic(auto, using(crate::proofs::Cells::steps), unfolding(crate::specs::Columns::items))]
fn items<'a>(
    alloc: Global,
    cells: &[Option<&'a Value>],
) -> Result<Vec<Option<&'a Value>>, AllocError>
    ensures { IfOk result (λ all. cells_of all.items ≡ items_of (cells_of cells.now)) }
{
    let mut all = Vec::new(alloc);
    for cell in cells {
        push_items(&mut all, *cell)?;
    }
    Ok(all)
}

#[tactic(auto, using(crate::proofs::Cells::steps))]
fn parts<'a>(
    alloc: Global,
    cells: &[Option<&'a Value>],
    j: usize,
) -> Result<Vec<Option<&'a Value>>, AllocError>
    ensures { IfOk result (λ all. cells_of all.items ≡ map (part_of j) (cells_of cells.now)) }
{
    let mut all = Vec::with_capacity(alloc, cells.len())?;
    for cell in cells {
        all.push(slots::part(*cell, j))?;
    }
    Ok(all)
}

/// The cells of child `j`.
pub fn child_cells<'a>(
    alloc: Global,
    layout: Layout,
    cells: &[Option<&'a Value>],
    j: usize,
) -> Result<Vec<Option<&'a Value>>, AllocError>
    ensures { IfOk result (λ all. cells_of all.items ≡ cells_of_child layout j (cells_of cells.now)) }
{
    match layout {
        Layout::List { .. } => items(alloc, cells),
        Layout::Struct => parts(alloc, cells, j),
        _ => Ok(Vec::new(alloc)),
    }
}
