//! Rows of groups where they lie: in the grouping tuple and in the tallies of the group.

ghost use Rattle.std.specs.Prelude.{◌≡◌, IfOk, map, take};
ghost use Rattle.std.specs.List.Sorted.{IsStrictlySortedBy};
ghost use Rattle.std.specs.Map.{keys_of};
ghost use Rattle.group_state.specs.Aggregates.{seen_row};
ghost use Rattle.group_state.specs.Keys.{tuple_cmp};

use crate::accumulated_columns::AccumulatedColumn;
use crate::aggregates::{read_cell, view_cell};
use crate::cells::no_value;
use crate::group::Group;
use crate::reading::read_row;
use crate::tuple::Tuple;
use std::alloc::{AllocError, Global};
use std::collections::BTreeMap;
use std::marker::Model;
use values::{CellView, Row, Value};
use view_lang::{GroupOutput, RowView};

/// The row that outputs show of a group, of which no cell is copied. Contracts see the list of its cells.
#[derive(Drop)]
pub struct GroupRow<'a> {
    outputs: &'a [GroupOutput],
    columns: &'a [AccumulatedColumn],
    tuple: &'a Tuple,
    group: &'a Group,
}

impl<'a> Model for GroupRow<'a> {
    ghost use Rattle.std.specs.Prelude.{List};
    ghost use Rattle.std.specs.Coded.{coded_list};
    ghost use Rattle.values.specs.Datum.{Datum, datum_code};
    ghost use Rattle.group_state.specs.Aggregates.{seen_row};

    ghost Value = { List Datum };

    ghost coded = { coded_list datum_code };

    ghost view = { λ r. seen_row r.columns.now r.outputs.now (r.tuple.now, r.group.now) };
}

impl<'a> GroupRow<'a> {
    /// The row that outputs show of a group with this tuple and tallies of these columns.
    pub(crate) fn new(
        outputs: &'a [GroupOutput],
        columns: &'a [AccumulatedColumn],
        tuple: &'a Tuple,
        group: &'a Group,
    ) -> GroupRow<'a>
        ensures { result ≡ seen_row columns.now outputs.now (tuple.now, group.now) }
    {
        GroupRow {
            outputs,
            columns,
            tuple,
            group,
        }
    }

    /// A copy of the row.
    pub fn copy(&self, alloc: Global) -> Result<Row, AllocError>
        ensures { IfOk result (λ row. row.items ≡ self.now) }
    {
        read_row(alloc, self.outputs, self.tuple, self.group, self.columns)
    }
}

#[tactic(auto, using(crate::proofs::SeenCells::seen_cells))]
impl<'a> RowView for GroupRow<'a> {
    ghost cells = { λ r. r };

    fn cell(&self, column: usize) -> CellView<'_> {
        match self.outputs.get(column) {
            Some(output) => view_cell(output.aggregate, self.tuple, self.group, self.columns),
            None => CellView::Null,
        }
    }

    fn copy_cell(&self, alloc: Global, column: usize) -> Result<Value, AllocError> {
        match self.outputs.get(column) {
            Some(output) => read_cell(
                alloc,
                output.aggregate,
                self.tuple,
                self.group,
                self.columns,
            ),
            None => Ok(no_value()),
        }
    }
}

/// The rows of the first groups where they lie, at most `most` of them.
pub(crate) fn rows_of_first<'a>(
    alloc: Global,
    outputs: &'a [GroupOutput],
    groups: &'a BTreeMap<Tuple, Group>,
    columns: &'a [AccumulatedColumn],
    most: usize,
) -> Result<Vec<GroupRow<'a>>, AllocError>
    ensures read { IfOk result (λ made. made.items
        ≡ map (seen_row columns.now outputs.now) (take most groups.now.entries)) }
    ensures ordered { IsStrictlySortedBy tuple_cmp (keys_of groups.now.entries) }
{
    let mut made = Vec::with_capacity(alloc, groups.len().min(most))?;
    for (tuple, group) in groups.iter() {
        if made.len() == most {
            break;
        }
        made.push(GroupRow::new(outputs, columns, tuple, group))?;
    }
    Ok(made)
}
