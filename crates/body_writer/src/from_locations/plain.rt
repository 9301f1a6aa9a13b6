//! The arrays of one column of many batches, found once.

ghost use Rattle.std.specs.Prelude.{◌≡◌, ℕ, ◌<◌, ◌≤◌, IfOk, IfSome, List, Ok, Some, length, slice_get, slice_index};
ghost use Rattle.values.specs.Datum.{Datum};
ghost use Rattle.array_layout.specs.Placing.{bytes_of};
ghost use Rattle.array_layout.specs.Sound.{IsSound, LiesIn};
ghost use Rattle.array_layout.specs.Cells.{cells};
ghost use Rattle.body_writer.specs.Segments.{array_of};
ghost use Rattle.arrays.specs.Checked.{CheckedColumn};
ghost use Rattle.body_writer.specs.Locations.{AreFound, ArePlain, HasCells, HasCellsAt};

use crate::from_columns::batch::Batch;
use crate::from_columns::kinds::is_alike;
use crate::from_columns::segment::{SlotRange, offset_width};
use array_layout::{BufferRange, buffer};
use arrays::{Column, ColumnParts};
use std::alloc::{AllocError, Global};
use values::Layout;

/// The slots of an array without a dictionary, and its buffers.
#[derive(Clone, Copy)]
pub(crate) struct PlainArray<'a> {
    pub bits: &'a [u8],
    pub offsets: &'a [u8],
    pub values: &'a [u8],
    pub slots: SlotRange<'a>,
}

/// The arrays in which the cells of one column of many batches lie, if all are of one layout and have no dictionary. It
/// is made once and used for all rows that are written.
#[derive(Drop)]
pub struct BatchArrays<'a> {
    pub(crate) column: usize,
    pub(crate) layout: Layout,
    pub(crate) is_plain: bool,
    /// Those of the batches, in order; none for a batch without this column.
    pub(crate) arrays: Vec<Option<PlainArray<'a>>>,
}

/// The bytes of a buffer.
fn bytes_in<'a>(body: &'a [u8], range: &BufferRange) -> &'a [u8]
    requires { LiesIn body.now range.now }
    ensures bytes { result.now ≡ bytes_of body.now range.now }
    ensures small { (n : ℕ) → slice_index result.now n < 256 }
{
    buffer(body, range)
}

/// The array of these parts, if it has no dictionary and is of this layout but for the width of offsets.
fn plain_of<'a>(parts: ColumnParts<'a>, layout: Layout) -> Option<PlainArray<'a>>
    requires sound { IsSound parts.body.now (array_of parts) }
    requires cells { (ds : List Datum) × (cells parts.body.now (array_of parts) ≡ Ok ds) }
    ensures { IfSome result (λ a. (ds : List Datum)
        → cells parts.entry.body.now (array_of parts.entry) ≡ Ok ds → HasCells layout ds a) }
{
    let own = parts.own;
    if own.dictionary.is_some() || !is_alike(layout, own.layout) {
        return None;
    }
    Some(PlainArray {
        bits: buffer(parts.body, &own.validity),
        offsets: buffer(parts.body, &own.offsets),
        values: bytes_in(parts.body, &own.values),
        slots: SlotRange {
            parts,
            offsets: offset_width(own.layout),
            from: 0,
            to: own.len,
        },
    })
}

/// The array of a column, if it has no dictionary and is of this layout but for the width of offsets.
fn plain_array<'a>(column: &'a Column, layout: Layout) -> Option<PlainArray<'a>>
    ensures { IfSome result (HasCells layout column.now.cells) }
{
    plain_of(column.parts(), layout)
}

/// The array of column `j` of a batch, if it is plain. For a batch without such a column it is `Some(None)`.
fn array_in<'a>(batch: &'a Batch, j: usize, layout: Layout) -> Option<Option<PlainArray<'a>>>
    ensures { IfSome result (λ found. (c : CheckedColumn) → slice_get batch.now.columns.items j ≡ Some c
        → HasCellsAt layout c.cells (Some found)) }
{
    match batch.columns.get(j) {
        Some(column) => Some(Some(plain_array(column, layout)?)),
        None => Some(None),
    }
}

/// The arrays of column `j` of these batches, if all are plain.
fn arrays_in<'a>(
    alloc: Global,
    batches: &[&'a Batch],
    j: usize,
    layout: Layout,
) -> Result<Option<Vec<Option<PlainArray<'a>>>>, AllocError>
    ensures plain { IfOk result (λ found. IfSome found (λ arrays. ArePlain layout j batches.now arrays.items)) }
    ensures few { IfOk result (λ found. IfSome found (λ arrays. length arrays.items ≤ length batches.now)) }
{
    let mut arrays = Vec::with_capacity(alloc, batches.len())?;
    for batch in batches {
        let Some(array) = array_in(batch, j, layout) else {
            return Ok(None);
        };
        arrays.push(array)?;
    }
    Ok(Some(arrays))
}

impl<'a> BatchArrays<'a> {
    /// The arrays of the column at this position in these batches, where they are of this layout.
    pub fn find(
        alloc: Global,
        batches: &[&'a Batch],
        column: usize,
        layout: Layout,
    ) -> Result<BatchArrays<'a>, AllocError>
        ensures column { IfOk result (λ arrays. arrays.column ≡ column) }
        ensures found { IfOk result (AreFound batches.now) }
    {
        let found = arrays_in(alloc, batches, column, layout)?;
        let is_plain = found.is_some();
        Ok(BatchArrays {
            column,
            layout,
            is_plain,
            arrays: found.unwrap_or(Vec::new(alloc)),
        })
    }
}
