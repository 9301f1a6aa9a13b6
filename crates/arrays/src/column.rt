//! A column of a record batch: validated once, then read cell by cell.

ghost use Rattle.std.specs.Prelude.{
  ◌≡◌,
  ◌+◌,
  ◌<◌,
  ◌≤◌,
  All,
  [],
  get_or,
  length,
  replicate,
  slice_get,
  Some,
  IfOk,
  IfSome,
  Ok,
  true,
};
ghost use Rattle.values.specs.CellViews.{shallow, viewed};
ghost use Rattle.values.specs.Datum.{bytes, is_null, null};
ghost use Rattle.values.specs.Limits.{max_cell_weight};
ghost use Rattle.values.specs.Reading.{Yields, Passes, IsValid};
ghost use Rattle.values.specs.Layouts.{Holds, weight};
ghost use Rattle.values.specs.Rose.{node, kids_of};
ghost use Rattle.array_layout.specs.Placing.{layout_of};
ghost use Rattle.array_layout.specs.Sound.{IsPlaced, IsSound};
ghost use Rattle.array_layout.specs.Cells.{cell, cells, column_of, len_of};
ghost use Rattle.array_layout.specs.Typed.{IsTyped};
ghost use Rattle.arrays.specs.Checked.{valid_of};
ghost use Rattle.arrays.specs.Weights.{Says};

use crate::bounds::weight_bound;
use crate::cell_views::view_slot;
use crate::no_bytes::has_no_bytes;
use crate::read::read;
use crate::validate::validate_items;
use crate::weigh::weigh;
use array_layout::{Array, ArrayData, check_layout};
use std::alloc::{AllocError, Global};
use std::marker::Model;
use std::rc::Rc;
use values::{CellView, StreamFault, Value};

/// A column of a record batch whose buffers were checked and whose cells were validated. Contracts see its layouts and
/// the list of its cells.
///
/// It shares the body of its message with the other columns of the batch.
#[derive(Drop)]
pub struct Column {
    body: Rc<Vec<u8>>,
    root: Array,
}

impl Model for Column {
    ghost use Rattle.values.specs.Reading.{IsValid};
    ghost use Rattle.array_layout.specs.Placing.{layout_of};
    ghost use Rattle.array_layout.specs.Sound.{IsSound};
    ghost use Rattle.array_layout.specs.Cells.{cells};
    ghost use Rattle.array_layout.specs.Typed.{IsTyped};
    ghost use Rattle.arrays.specs.Checked.{CheckedColumn, column_code, valid_of};

    ghost Value = { CheckedColumn };

    ghost coded = { column_code };

    ghost view = { λ c. record { layouts = layout_of c.root; cells = valid_of (cells c.body.value.items c.root) } };

    ghost invariant = { λ c. IsSound c.body.value.items c.root × IsValid (cells c.body.value.items c.root)
        × IsTyped c.root };
}

/// Where the cells of a column lie: its array, and the body that the array's buffers lie in.
#[derive(Clone, Copy)]
pub struct ColumnParts<'a> {
    pub body: &'a [u8],
    pub own: &'a ArrayData,
    pub children: &'a [Array],
}

fn parts_of<'a>(body: &'a [u8], array: &'a Array) -> ColumnParts<'a>
    ensures body { result.body.now ≡ body.now }
    ensures array { node result.own.now (kids_of result.children.now) ≡ array.now }
{
    ColumnParts {
        body,
        own: &array.own,
        children: &array.children,
    }
}

/// Validates all cells of an array.
#[tactic(auto, using(crate::proofs::ColumnCells::validated_all))]
fn validate_cells(body: &[u8], array: &Array) -> Result<(), StreamFault>
    requires { IsSound body.now array.now }
    ensures { Passes result (cells body.now array.now) }
{
    validate_items(body, array, 0, array.own.len)
}

/// Copies a cell.
#[tactic(auto, using(crate::proofs::TypeLemmas::typing))]
fn read_cell(alloc: Global, body: &[u8], array: &Array, i: usize) -> Result<Value, AllocError>
    requires sound { IsSound body.now array.now }
    requires below { i < len_of array.now }
    requires valid { IsValid (cell body.now array.now i) }
    requires dictionary { IsTyped array.now }
    ensures value { IfOk result (λ v. cell body.now array.now i ≡ Ok v) }
    ensures typed { IfOk result (λ v. Holds (layout_of array.now) v) }
{
    read(alloc, body, array, i)
}

/// Each cell is a value of the column's layout. It does nothing: its contract is the theorem.
fn cells_law(body: &[u8], array: &Array)
    requires sound { IsSound body.now array.now }
    requires valid { IsValid (cells body.now array.now) }
    requires dictionary { IsTyped array.now }
    ensures { All (λ d. Holds (layout_of array.now) d) (valid_of (cells body.now array.now)) }
{}

#[tactic(auto, using(crate::proofs::ColumnCells::column_laws))]
impl Column {
    /// Checks the buffers and validates the cells of one column. The error is `BufferShort`, `NullCount` or `Offsets`,
    /// or where the buffers have no fault `NotUtf8`, `DictionaryIndex` or `DecimalRange`.
    pub fn check(body: Rc<Vec<u8>>, array: Array) -> Result<Column, StreamFault>
        requires placed { IsPlaced body.value.items array }
        requires dictionary { IsTyped array }
        ensures reading { Yields (λ c. c.cells) result (column_of body.value.items array) }
        ensures typed { IfOk result (λ c. c.layouts ≡ layout_of array) }
    {
        check_layout(&body, &array)?;
        validate_cells(&body, &array)?;
        Ok(Column { body, root: array })
    }

    /// The number of cells.
    pub fn len(&self) -> usize
        ensures { result ≡ length self.now.cells }
    {
        self.root.own.len
    }

    /// Each cell is a value of the column's layout. It does nothing: its contract is the theorem.
    pub fn law(&self)
        ensures { All (λ d. Holds self.now.layouts d) self.now.cells }
    {
        cells_law(&self.body, &self.root);
    }

    /// Copies cell `i`.
    pub fn cell(&self, alloc: Global, i: usize) -> Result<Value, AllocError>
        requires { i < length self.now.cells }
        ensures value { IfOk result (λ v. slice_get self.now.cells i ≡ Some v) }
        ensures typed { IfOk result (λ v. Holds self.now.layouts v) }
    {
        read_cell(alloc, &self.body, &self.root, i)
    }

    /// Cell `i` where it lies.
    #[tactic(auto, using(crate::proofs::ViewLemmas::column_laws))]
    pub fn view(&self, i: usize) -> CellView<'_>
        requires { i < length self.now.cells }
        ensures { viewed result ≡ shallow (get_or self.now.cells i null) }
    {
        let parts = self.parts();
        view_slot(parts.body, parts.own, parts.children, i)
    }

    /// Whether cell `i` is null.
    #[tactic(auto, using(values::proofs::ShallowLemmas::shallow_laws))]
    pub fn is_null(&self, i: usize) -> bool
        requires { i < length self.now.cells }
        ensures { result ≡ is_null (get_or self.now.cells i null) }
    {
        self.view(i).is_null()
    }

    /// The array and the body in which its cells lie.
    pub fn parts(&self) -> ColumnParts<'_>
        ensures sound { IsSound result.body.now (node result.own.now (kids_of result.children.now)) }
        ensures cells { cells result.body.now (node result.own.now (kids_of result.children.now)) ≡ Ok self.now.cells }
    {
        parts_of(&self.body, &self.root)
    }

    /// Whether no cell has a byte in the body, so that a header may claim any number of them: all are bytes of width 0,
    /// and none is null.
    pub fn has_no_bytes(&self) -> bool
        ensures { result ≡ true → self.now.cells ≡ replicate (length self.now.cells) (bytes []) }
    {
        has_no_bytes(&self.root)
    }

    /// The weight of cell `i`, without copying it: exact up to the limit of a cell, and the limit plus 1 above it.
    pub fn weight(&self, i: usize) -> u64
        requires { i < length self.now.cells }
        ensures { IfSome (slice_get self.now.cells i) (λ d. Says result (weight self.now.layouts d)) }
    {
        weigh(&self.body, &self.root, i)
    }

    /// An upper bound on the weights of the cells, exact or too large; the limit of a cell plus 1 where nothing is
    /// known. It reads no buffer more than once.
    pub fn weight_bound(&self) -> u64
        ensures each { result ≤ max_cell_weight → All (λ d. weight self.now.layouts d ≤ result) self.now.cells }
        ensures most { result ≤ max_cell_weight + 1 }
    {
        weight_bound(&self.body, &self.root)
    }
}
