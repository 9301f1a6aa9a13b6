//! The types of a view.
//!
//! Columns are named by their numbers in a joined row: first come those of the main table, then those of the side table
//! that is looked up.

use crate::aggregate::Aggregate;
use crate::filter::Filter;
use std::marker::Model;

/// A view: the rows of the main table are joined with a side table's, filtered, projected or grouped, sorted, and
/// limited to the first, in this order. Group rows may be filtered once more before they are sorted.
#[derive(Debug, Drop)]
pub struct View {
    pub name: String,
    pub lookup: Option<Lookup>,
    pub filter: Option<Filter>,
    pub outputs: Outputs,
    /// The columns of the output by which rows are sorted, the first counting most. Rows that tie stay in their order.
    pub order: Vec<OrderBy>,
    /// How many rows the view shows at most; all where there is no number.
    pub first: Option<usize>,
    /// The outputs that are written with dictionaries, by their positions, in ascending order.
    pub coded_outputs: Vec<usize>,
}

impl Model for View {
    ghost use Rattle.std.specs.Prelude.{string_bytes};
    ghost use Rattle.view_lang.specs.Config as seen;

    ghost Value = { seen.View };

    ghost coded = { seen.view_code };

    ghost use Rattle.view_lang.specs.OutputsSeen.{outputs_of};

    ghost view = { λ v. record {
      name = string_bytes v.name;
      lookup = v.lookup;
      filter = v.filter;
      outputs = outputs_of v.outputs;
      order = v.order.items;
      first = v.first;
      coded_outputs = v.coded_outputs.items;
    } };
}

/// Which row of a side table a row is joined with: the one whose key is the cell of a column.
#[derive(Clone, Copy, Debug)]
pub struct Lookup {
    /// The number of the side table, counted from 0.
    pub side: usize,
    /// The number of the main table's column whose cells are looked up.
    pub on: usize,
    pub missing: Missing,
    /// How many columns the side table has.
    pub columns: usize,
}

/// What is shown for a row of the main table for which the side table has no row.
#[derive(Clone, Copy, Debug, PartialEq, Eq)]
pub enum Missing {
    /// The columns of the side table are null.
    Null,
    /// The row is left out.
    Drop,
}

/// The columns of a view.
#[derive(Debug, Drop)]
pub enum Outputs {
    /// A row for each joined row, with these columns of it.
    Columns(Vec<Output>),
    /// A row for each group of joined rows that are alike in the columns `by`. Without such columns all rows are one
    /// group, also where there are none.
    Groups {
        by: Vec<usize>,
        columns: Vec<GroupOutput>,
        /// Only rows are shown of which it is true. Its columns are positions in `columns`.
        having: Option<Filter>,
    },
}

/// A column of a view without groups.
#[derive(Debug, Drop)]
pub struct Output {
    pub name: String,
    /// The number of the column of joined rows that it shows.
    pub column: usize,
}

impl Model for Output {
    ghost use Rattle.std.specs.Prelude.{string_bytes};
    ghost use Rattle.view_lang.specs.Outputs as seen;

    ghost Value = { seen.Output };

    ghost coded = { seen.output_code };

    ghost view = { λ o. record { name = string_bytes o.name; column = o.column } };
}

/// A column of a view of groups: its name, and what it shows of a group.
#[derive(Debug, Drop)]
pub struct GroupOutput {
    pub name: String,
    pub aggregate: Aggregate,
}

impl Model for GroupOutput {
    ghost use Rattle.std.specs.Prelude.{string_bytes};
    ghost use Rattle.view_lang.specs.Outputs as seen;

    ghost Value = { seen.GroupOutput };

    ghost coded = { seen.group_output_code };

    ghost view = { λ o. record { name = string_bytes o.name; aggregate = o.aggregate } };
}

/// A column of the output by which rows are sorted.
#[derive(Clone, Copy, Debug)]
pub struct OrderBy {
    /// The position of the column among the view's outputs.
    pub column: usize,
    pub direction: Direction,
}

/// Nulls are last in both directions.
#[derive(Clone, Copy, Debug, PartialEq, Eq)]
pub enum Direction {
    Ascending,
    Descending,
}
