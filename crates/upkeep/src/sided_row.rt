//! Rows of the main table with a copy of the row of a side table that is looked up for them.

ghost use Rattle.std.specs.Prelude.{◌≡◌};
ghost use Rattle.std.specs.Option.{option_map};
ghost use Rattle.view_lang.specs.Joined.{joined_by};
ghost use Rattle.upkeep.specs.SideRows.{kept_with, sided_cells};

use row_keys::StoredRow;
use std::alloc::{AllocError, Global};
use values::{CellView, Kind, Value};
use view_lang::{Lookup, Missing, RowView, View};

/// A row of the main table with the cells of a side table's row, or with as many nulls where there is none.
#[derive(Clone, Copy)]
pub(crate) struct SidedRow<'a> {
    pub main: &'a StoredRow<'a>,
    pub side: Option<&'a [Value]>,
    pub nulls: usize,
}

#[tactic(auto, using(crate::proofs::JoinedCells::joined_parts))]
impl<'a> RowView for SidedRow<'a> {
    ghost use Rattle.upkeep.specs.SideRows.{sided_cells};

    ghost cells = { sided_cells };

    fn cell(&self, column: usize) -> CellView<'_> {
        let width = self.main.len();
        if column < width {
            return self.main.cell(column);
        }
        match &self.side {
            Some(side) => side.cell(column - width),
            None => CellView::Null,
        }
    }

    fn copy_cell(&self, alloc: Global, column: usize) -> Result<Value, AllocError> {
        let width = self.main.len();
        if column < width {
            return self.main.copy_cell(alloc, column);
        }
        match &self.side {
            Some(side) => side.copy_cell(alloc, column - width),
            None => Ok(Value { kind: Kind::Null }),
        }
    }
}

/// Joins a row of the main table with a copy of the side table's row for it. Without one the side cells are null, or
/// the row is left out, which is `None`.
#[tactic(auto, using(crate::proofs::JoinedCells::no_side))]
fn join_copy<'a>(
    lookup: Option<Lookup>,
    main: &'a StoredRow<'a>,
    side: Option<&'a [Value]>,
) -> Option<SidedRow<'a>>
    ensures { option_map sided_cells result
        ≡ joined_by lookup main.now (option_map (λ cells. cells.now) side.entry) }
{
    let Some(lookup) = lookup else {
        return Some(SidedRow {
            main,
            side: None,
            nulls: 0,
        });
    };
    match (side, lookup.missing) {
        (Some(side), _) => Some(SidedRow {
            main,
            side: Some(side),
            nulls: 0,
        }),
        (None, Missing::Null) => Some(SidedRow {
            main,
            side: None,
            nulls: lookup.columns,
        }),
        (None, Missing::Drop) => None,
    }
}

/// A row of the main table, joined with a copy of the side table's row for it; `None` where the view leaves it out or
/// its filter isn't true.
pub(crate) fn keep_row<'a>(
    view: &View,
    main: &'a StoredRow<'a>,
    side: Option<&'a [Value]>,
) -> Option<SidedRow<'a>>
    ensures { option_map sided_cells result
        ≡ kept_with view.now main.now (option_map (λ cells. cells.now) side.entry) }
{
    let Some(row) = join_copy(view.lookup, main, side) else {
        return None;
    };
    if view.keeps(&row) { Some(row) } else { None }
}
