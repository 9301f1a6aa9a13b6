//! What is read from a view: its rows, or where they are stored.

ghost use Rattle.std.specs.Prelude.{◌≡◌, ◌/◌, ◌<◌, All, IfOk, [], map, nat_le, true};

use row_keys::Visits;
use std::alloc::{AllocError, Global};
use values::Row;
use view_lang::{Output, View};

/// What a view shows.
#[derive(Drop)]
pub enum Shown {
    /// Its rows.
    Rows(Vec<Row>),
    /// Columns of the main table as they are stored, none of which is coded.
    Stored(StoredColumns),
    /// Columns of the main table and of a side table, as they are stored, none of which is coded.
    Joined(JoinedColumns),
}

/// Columns of the main table, by their positions, and visits of the rows of which they are shown.
#[derive(Drop)]
pub struct StoredColumns {
    pub columns: Vec<usize>,
    pub visits: Visits,
}

/// Columns of joined rows, by their positions: the main table's come first, then the side table's. The rows are those
/// that are visited, each with the row of this number in this side table, or with none.
#[derive(Drop)]
pub struct JoinedColumns {
    pub columns: Vec<usize>,
    pub visits: Visits,
    pub table: usize,
    pub side_numbers: Vec<Option<usize>>,
}

/// A view that shows at least one in this many rows of a table is written column by column.
const ONE_IN: usize = 8;

/// Whether `count` of `all` rows of a table are written faster column by column, each from where it is stored, than row
/// by row: the work for each of the table's batches pays for many rows only.
pub fn are_many(count: usize, all: usize) -> bool
    ensures { result ≡ nat_le (all / 8) count }
{
    count >= all / ONE_IN
}

/// Whether a plain view with these outputs shows no more than columns of the main table, of which it has `width`, as
/// they are stored.
pub(crate) fn shows_stored(view: &View, outputs: &[Output], width: usize) -> bool
    ensures coded { result ≡ true → view.now.coded_outputs ≡ [] }
    ensures below { result ≡ true → All (λ o. o.column < width) outputs.now }
{
    if !view.coded_outputs.is_empty() {
        return false;
    }
    for output in outputs {
        if output.column >= width {
            return false;
        }
    }
    true
}

/// The columns that these outputs show.
pub(crate) fn shown_columns(alloc: Global, outputs: &[Output]) -> Result<Vec<usize>, AllocError>
    ensures { IfOk result (λ columns. columns.items ≡ map (λ o. o.column) outputs.now) }
{
    let mut columns = Vec::with_capacity(alloc, outputs.len())?;
    for output in outputs {
        columns.push(output.column)?;
    }
    Ok(columns)
}
