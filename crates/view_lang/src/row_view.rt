//! Rows that are read where they lie.

ghost use Rattle.std.specs.Prelude.{◌≡◌};

use crate::cells::no_value;
use crate::view::Output;
use std::alloc::{AllocError, Global};
use values::{CellView, Value};

/// A row whose cells are read where they lie, in columns or in values.
pub trait RowView {
    ghost use Rattle.std.specs.Prelude.{◌≡◌, IfOk, List};
    ghost use Rattle.values.specs.CellViews.{shallow, viewed};
    ghost use Rattle.values.specs.Datum.{Datum};
    ghost use Rattle.view_lang.specs.Cells.{cell_at};

    /// The cells of the row.
    ghost cells: { Self → List Datum };

    /// The cell of a column; null where the row has no such column.
    fn cell(&self, column: usize) -> CellView<'_>
        ensures { viewed result ≡ shallow (cell_at (cells self.now) column) };

    /// A copy of the cell of a column.
    fn copy_cell(&self, alloc: Global, column: usize) -> Result<Value, AllocError>
        ensures { IfOk result (λ cell. cell ≡ cell_at (cells self.now) column) };
}

impl<'a> RowView for &'a [Value] {
    ghost cells = { λ r. r.now };

    fn cell(&self, column: usize) -> CellView<'_> {
        match self.get(column) {
            Some(value) => value.view(),
            None => CellView::Null,
        }
    }

    fn copy_cell(&self, alloc: Global, column: usize) -> Result<Value, AllocError> {
        match self.get(column) {
            Some(value) => value.copy(alloc),
            None => Ok(no_value()),
        }
    }
}

/// The row that a view with these outputs shows of a row, of which no cell is copied.
#[derive(Clone, Copy)]
pub struct ShownRow<'a, R: RowView> {
    pub outputs: &'a [Output],
    pub row: &'a R,
}

#[tactic(auto, using(crate::proofs::ShownCells::shown_cells))]
impl<'a, R: RowView> RowView for ShownRow<'a, R> {
    ghost use Rattle.view_lang.specs.Views.{shown_row};

    ghost cells = { λ s. shown_row s.outputs.now (R.cells s.row.now) };

    fn cell(&self, column: usize) -> CellView<'_> {
        match self.outputs.get(column) {
            Some(output) => self.row.cell(output.column),
            None => CellView::Null,
        }
    }

    fn copy_cell(&self, alloc: Global, column: usize) -> Result<Value, AllocError> {
        match self.outputs.get(column) {
            Some(output) => self.row.copy_cell(alloc, output.column),
            None => Ok(no_value()),
        }
    }
}
