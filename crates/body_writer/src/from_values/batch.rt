//! The columns of rows.

ghost use Rattle.std.specs.Prelude.{◌≡◌, ◌≤◌, IfOk, length, map};
ghost use Rattle.values.specs.Limits.{max_body_size};
ghost use Rattle.values.specs.Rose.{kids_of};
ghost use Rattle.body_writer.specs.Slots.{part, cells_of};
ghost use Rattle.body_writer.specs.Batch.{IsBatch, body_bytes, body_nodes, body_ranges, row_cells};

use std::alloc::{AllocError, Global};
use values::{Row, Value};

/// The cells of column `j`.
#[tactic(auto, using(crate::proofs::Rows::gathering))]
pub fn column_cells<'a>(
    alloc: Global,
    rows: &'a [Row],
    j: usize,
) -> Result<Vec<Option<&'a Value>>, AllocError>
    ensures { IfOk result (λ cells. cells_of cells.items ≡ map (part j) (row_cells (map (λ r. r.items) rows.now))) }
{
    let mut cells = Vec::with_capacity(alloc, rows.len())?;
    for row in rows {
        cells.push(row.get(j))?;
    }
    Ok(cells)
}
