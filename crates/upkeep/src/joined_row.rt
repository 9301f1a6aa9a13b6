//! Rows of the main table with what is looked up for them, where they lie.

ghost use Rattle.std.specs.Prelude.{◌≡◌};
ghost use Rattle.std.specs.Option.{option_map};
ghost use Rattle.view_lang.specs.Joined.{joined_by};
ghost use Rattle.upkeep.specs.JoinedRows.{joined_cells};

use row_keys::StoredRow;
use std::alloc::{AllocError, Global};
use values::{CellView, Kind, Value};
use view_lang::{Lookup, Missing, RowView};

/// A row of the main table with the cells of a side table's row, or with as many nulls where there is none.
#[derive(Drop)]
pub(crate) struct JoinedRow<'a> {
    pub main: StoredRow<'a>,
    pub side: Option<StoredRow<'a>>,
    pub nulls: usize,
}

#[tactic(auto, using(crate::proofs::JoinedCells::joined_parts))]
impl<'a> RowView for JoinedRow<'a> {
    ghost use Rattle.upkeep.specs.JoinedRows.{joined_cells};

    ghost cells = { joined_cells };

    fn cell(&self, column: usize) -> CellView<'_> {
        let width = self.main.len();
        if column < width {
            return self.main.cell(column);
        }
        match &self.side {
            Some(side) => side.cell(column - width),
            None => CellView::Null,
        }
    }

    fn copy_cell(&self, alloc: Global, column: usize) -> Result<Value, AllocError> {
        let width = self.main.len();
        if column < width {
            return self.main.copy_cell(alloc, column);
        }
        match &self.side {
            Some(side) => side.copy_cell(alloc, column - width),
            None => Ok(Value { kind: Kind::Null }),
        }
    }
}

/// Joins a row of the main table with the side table's row for it. Without one the side cells are null, or the row is
/// left out, which is `None`.
#[tactic(auto, using(crate::proofs::JoinedCells::no_side))]
pub(crate) fn join<'a>(
    lookup: Option<Lookup>,
    main: StoredRow<'a>,
    side: Option<StoredRow<'a>>,
) -> Option<JoinedRow<'a>>
    ensures { option_map joined_cells result ≡ joined_by lookup main.entry side.entry }
{
    let Some(lookup) = lookup else {
        return Some(JoinedRow {
            main,
            side: None,
            nulls: 0,
        });
    };
    match (side, lookup.missing) {
        (Some(side), _) => Some(JoinedRow {
            main,
            side: Some(side),
            nulls: 0,
        }),
        (None, Missing::Null) => Some(JoinedRow {
            main,
            side: None,
            nulls: lookup.columns,
        }),
        (None, Missing::Drop) => None,
    }
}
