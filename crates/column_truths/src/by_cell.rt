//! Comparisons cell by cell, for columns of any layout.

ghost use Rattle.std.specs.Prelude.{◌≡◌, IfOk};
ghost use Rattle.column_truths.specs.Compared.{compared_with};

use crate::compared::{compared, push_truth};
use arrays::Column;
use bitmaps::{Bitmap, Truths};
use std::alloc::{AllocError, Global};
use values::Value;
use view_lang::Comparison;

/// The truth of a comparison of each cell with a constant.
pub(crate) fn compare_cells(
    alloc: Global,
    column: &Column,
    comparison: Comparison,
    constant: &Value,
) -> Result<Truths, AllocError>
    ensures { IfOk result (λ ts. ts ≡ compared_with comparison constant.now column.now.cells) }
{
    let mut known = Bitmap::with_capacity(alloc, column.len())?;
    let mut unknown = Bitmap::with_capacity(alloc, column.len())?;
    for i in 0..column.len() {
        let cell = column.cell(alloc, i)?;
        push_truth(
            &mut known,
            &mut unknown,
            compared(comparison, &cell, constant),
        )?;
    }
    let truths = Truths::new(alloc, &known.bits(), unknown)?;
    Ok(truths)
}
