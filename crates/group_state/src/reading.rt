//! Group rows, read from groups.

ghost use Rattle.std.specs.Prelude.{◌≡◌, IfOk};
ghost use Rattle.group_state.specs.Aggregates.{seen_row};

use crate::accumulated_columns::AccumulatedColumn;
use crate::aggregates::read_cell;
use crate::group::Group;
use crate::tuple::Tuple;
use std::alloc::{AllocError, Global};
use values::Row;
use view_lang::GroupOutput;

/// The row of a group.
pub(crate) fn read_row(
    alloc: Global,
    outputs: &[GroupOutput],
    tuple: &Tuple,
    group: &Group,
    columns: &[AccumulatedColumn],
) -> Result<Row, AllocError>
    ensures { IfOk result (λ cells. cells.items ≡ seen_row columns.now outputs.now (tuple.now, group.now)) }
{
    let mut cells = Vec::with_capacity(alloc, outputs.len())?;
    for output in outputs {
        cells.push(read_cell(alloc, output.aggregate, tuple, group, columns)?)?;
    }
    Ok(cells)
}
