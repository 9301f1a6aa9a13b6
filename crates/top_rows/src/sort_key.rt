//! Sort keys: what a row is ordered by in one column.

ghost use Rattle.std.specs.Prelude.{◌≡◌, IfOk};
ghost use Rattle.view_lang.specs.Cells.{cell_at};
ghost use Rattle.top_rows.specs.SortKeys.{sort_key_of};

use std::alloc::{AllocError, Global};
use std::cmp::Reverse;
use values::Key;
use view_lang::{Direction, OrderBy, RowView};

/// What a row is ordered by in one column of an order. A missing value comes last in both directions.
#[derive(Debug, Drop, PartialEq, Eq, PartialOrd, Ord)]
pub enum SortKey {
    Ascending(Key),
    Descending(Reverse<Key>),
    /// Null, a list or a struct.
    Missing,
}

impl SortKey {
    /// The sort key of a row for one column of an order.
    #[tactic(auto, using(values::proofs::ShallowLemmas::shallow_laws))]
    pub fn of<R: RowView>(alloc: Global, row: &R, by: &OrderBy) -> Result<SortKey, AllocError>
        ensures { IfOk result (λ key. key
            ≡ sort_key_of by.now.direction (cell_at (R.cells row.now) by.now.column)) }
    {
        match Key::of_cell(alloc, row.cell(by.column))? {
            None => Ok(SortKey::Missing),
            Some(Key::Null) => Ok(SortKey::Missing),
            Some(key) => match by.direction {
                Direction::Ascending => Ok(SortKey::Ascending(key)),
                Direction::Descending => Ok(SortKey::Descending(Reverse(key))),
            },
        }
    }
}
