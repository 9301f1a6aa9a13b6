//! The columns of rows that lie in several batches.

ghost use Rattle.std.specs.Prelude.{◌≡◌, ◌≤◌, All, IfOk, Ok, length, map};
ghost use Rattle.values.specs.Rose.{kids_of, roses_size};
ghost use Rattle.array_layout.specs.Cells.{column_of};
ghost use Rattle.array_layout.specs.Placing.{layout_of, placed_all, ranges_below};
ghost use Rattle.array_layout.specs.Sound.{ArePlaced, IsPlaced};
ghost use Rattle.array_layout.specs.Typed.{IsTyped};
ghost use Rattle.schema_meta.specs.Rows.{columns_in, rows_in};
ghost use Rattle.body_writer.specs.Batch.{IsBatch};
ghost use Rattle.body_writer.specs.RowRanges.{IsRange, cells_in, ranges_rows};

use crate::laws::written_law;
use crate::place::place;
use array_layout::{Array, ArrayCursor};
use arrays::Column;
use body_writer::{Body, RowRange, write_body_from_columns};
use std::alloc::{AllocError, Global};
use std::rc::Rc;
use values::LayoutTree;

/// Checks a column of a body.
fn check_column(bytes: &Rc<Vec<u8>>, array: Array) -> Result<Column, AllocError>
    requires placed { IsPlaced bytes.now.value.items array }
    requires dictionary { IsTyped array }
    ensures reading { IfOk result (λ c. column_of bytes.now.value.items array ≡ Ok c.cells) }
    ensures typed { IfOk result (λ c. c.layouts ≡ layout_of array) }
{
    match Column::check(bytes.clone()?, array) {
        Ok(column) => Ok(column),
        // What was written has no fault, so memory was refused.
        Err(_) => Err(AllocError),
    }
}

/// The columns of a body.
#[tactic(auto, using(crate::proofs::BodyColumns::reading))]
fn read_columns(
    alloc: Global,
    layouts: &[LayoutTree],
    body: Body,
) -> Result<Vec<Column>, AllocError>
    requires nodes { roses_size (kids_of layouts.now) ≤ length body.nodes.items }
    requires ranges { ranges_below (kids_of layouts.now) ≤ length body.ranges.items }
    requires placed { ArePlaced body.bytes.items
        (placed_all body.nodes.items body.ranges.items 0 0 (kids_of layouts.now)) }
    ensures reading { IfOk result
        (λ cs. columns_in body.bytes.items (placed_all body.nodes.items body.ranges.items 0 0 (kids_of layouts.now))
        ≡ Ok (cells_in cs.items)) }
    ensures typed { IfOk result (λ cs. map (λ c. c.layouts) cs.items ≡ layouts.now) }
{
    let Body {
        nodes,
        ranges,
        bytes,
    } = body;
    let bytes = Rc::new(alloc, bytes)?;
    let body = Body {
        nodes,
        ranges,
        bytes: Vec::new(alloc),
    };
    let mut at = ArrayCursor { node: 0, range: 0 };
    let mut columns = Vec::with_capacity(alloc, layouts.len())?;
    for tree in layouts {
        let array = place(alloc, tree, &body, &mut at)?;
        columns.push(check_column(&bytes, array)?)?;
    }
    Ok(columns)
}

/// The columns of these layouts that have these rows, in order. No column has a dictionary: where one of a batch had,
/// each of its cells is now a value of its own, so that they can take more bytes than the batches did. The error is
/// that memory was refused.
pub fn merge_rows(
    alloc: Global,
    layouts: &[LayoutTree],
    ranges: &[RowRange],
) -> Result<Vec<Column>, AllocError>
    requires ranges { All (IsRange (length layouts.now)) ranges.now }
    requires batch { IsBatch (kids_of layouts.now) (ranges_rows ranges.now) }
    ensures rows { IfOk result (λ cs.
        rows_in (length (ranges_rows ranges.now)) (cells_in cs.items) ≡ ranges_rows ranges.now) }
    ensures long { IfOk result (λ cs. All (λ c. length c.cells ≡ length (ranges_rows ranges.now)) cs.items) }
    ensures typed { IfOk result (λ cs. map (λ c. c.layouts) cs.items ≡ layouts.now) }
{
    // It does nothing: the proof takes from it what is read from the body.
    written_law();
    let body = write_body_from_columns(alloc, layouts, ranges, 0)?;
    read_columns(alloc, layouts, body)
}
