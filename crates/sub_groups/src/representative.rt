//! Representatives of sub-groups.

ghost use Rattle.std.specs.Prelude.{◌≡◌, ◌<◌, IfOk};
ghost use Rattle.sub_groups.specs.Places.{place_in, representative, representative_cell};
ghost use Rattle.group_state.specs.Keys.{data_of};

use group_state::Tuple;
use std::alloc::{AllocError, Global};
use values::{Kind, Row, Value};

/// The index of a column among others, if it is one of them.
fn place_in(columns: &[usize], column: usize) -> Option<usize>
    ensures { result ≡ place_in 0 columns.now column }
{
    for place in 0..columns.len() {
        if columns[place] == column {
            return Some(place);
        }
    }
    None
}

/// The cell of a column in a row that has the cells of a tuple in the columns `keys`; null in the others.
#[tactic(auto, using(crate::proofs::RepresentativeCells::representative_laws))]
fn representative_cell(
    alloc: Global,
    keys: &[usize],
    tuple: &Tuple,
    column: usize,
) -> Result<Value, AllocError>
    ensures { IfOk result (λ cell. cell ≡ representative_cell keys.now (data_of tuple.now) column) }
{
    match place_in(keys, column) {
        Some(place) => {
            let cell = tuple.cell(alloc, place)?;
            Ok(cell)
        }
        None => Ok(Value { kind: Kind::Null }),
    }
}

/// The representative of a sub-group: a row of the main table, which has `width` columns, with the cells of the
/// sub-group's rows in the columns `keys`, by which sub-groups are made, and null in the others.
#[tactic(auto, using(crate::proofs::RepresentativeCells::representative_laws))]
pub(crate) fn representative(
    alloc: Global,
    keys: &[usize],
    width: usize,
    tuple: &Tuple,
) -> Result<Row, AllocError>
    ensures { IfOk result (λ row. row.items ≡ representative width keys.now tuple.now) }
{
    let mut row = Vec::with_capacity(alloc, width)?;
    for column in 0..width {
        row.push(representative_cell(alloc, keys, tuple, column)?)?;
    }
    Ok(row)
}
