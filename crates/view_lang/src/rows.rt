//! Projects and filters rows.

ghost use Rattle.std.specs.Prelude.{◌≡◌, IfOk, filter};
ghost use Rattle.view_lang.specs.Cells.{rows_of};
ghost use Rattle.view_lang.specs.Truth.{passes as passes_by};
ghost use Rattle.view_lang.specs.Views.{shown_row};

use crate::filter::{Filter, passes};
use crate::row_view::RowView;
use crate::view::Output;
use std::alloc::{AllocError, Global};
use values::Row;

/// The output row of a view with these outputs for a joined row.
#[tactic(auto, using(crate::proofs::ShownRows::cell_steps))]
pub fn project<R: RowView>(alloc: Global, outputs: &[Output], row: &R) -> Result<Row, AllocError>
    ensures { IfOk result (λ shown. shown.items ≡ shown_row outputs.now (R.cells row.now)) }
{
    let mut shown = Vec::with_capacity(alloc, outputs.len())?;
    for output in outputs {
        shown.push(row.copy_cell(alloc, output.column)?)?;
    }
    Ok(shown)
}

/// The rows of which a filter, if there is one, is true, in their order.
#[tactic(auto, using(crate::proofs::PassingRows::passing_steps))]
pub fn passing_rows(
    alloc: Global,
    test: &Option<Filter>,
    rows: Vec<Row>,
) -> Result<Vec<Row>, AllocError>
    ensures { IfOk result (λ kept. rows_of kept.items ≡ filter (passes_by test.now) (rows_of rows.items)) }
{
    let mut kept = Vec::new(alloc);
    for row in rows {
        if passes(test, &row.as_slice()) {
            kept.push(row)?;
        }
    }
    Ok(kept)
}
