//! Borrowed views of stored rows.

ghost use Rattle.std.specs.Prelude.{◌≡◌, ◌+◌, ◌<◌, All, IfOk, length, nat_eq};
ghost use Rattle.schema_meta.specs.Rows.{row_at};
ghost use Rattle.values.specs.CellViews.{shallow, viewed};
ghost use Rattle.view_lang.specs.Cells.{cell_at as cell_by};
ghost use Rattle.row_keys.specs.Batches.{cells_in};
ghost use Rattle.row_keys.specs.Runs.{runs_in};

use crate::batches::read_row;
use arrays::Column;
use std::alloc::{AllocError, Global};
use std::marker::Model;
use values::{CellView, Kind, Row, Value};
use view_lang::RowView;

/// A row of a store where it lies: the columns of its batch, and its index in them.
///
/// Contracts see the list of its cells.
#[derive(Drop)]
pub struct StoredRow<'a> {
    columns: &'a [Column],
    index: usize,
}

impl<'a> Model for StoredRow<'a> {
    ghost use Rattle.std.specs.Prelude.{◌<◌, All, List, length};
    ghost use Rattle.std.specs.Coded.{coded_list};
    ghost use Rattle.values.specs.Datum.{Datum, datum_code};
    ghost use Rattle.schema_meta.specs.Rows.{row_at};
    ghost use Rattle.row_keys.specs.Batches.{cells_in};

    ghost Value = { List Datum };

    ghost coded = { coded_list datum_code };

    ghost view = { λ r. row_at (cells_in r.columns.now) r.index };

    ghost invariant = { λ r. All (λ c. r.index < length c.cells) r.columns.now };
}

impl<'a> StoredRow<'a> {
    /// Row `index` of these columns.
    pub(crate) fn new(columns: &'a [Column], index: usize) -> StoredRow<'a>
        requires { All (λ c. index < length c.cells) columns.now }
        ensures { result ≡ row_at (cells_in columns.now) index }
    {
        StoredRow { columns, index }
    }

    /// The same row, borrowed once more.
    pub fn again(&self) -> StoredRow<'a>
        ensures { result ≡ self.now }
    {
        StoredRow {
            columns: self.columns,
            index: self.index,
        }
    }

    /// How many cells the row has.
    pub fn len(&self) -> usize
        ensures { result ≡ length self.now }
    {
        self.columns.len()
    }

    /// A copy of the row.
    pub fn copy(&self, alloc: Global) -> Result<Row, AllocError>
        ensures { IfOk result (λ row. row.items ≡ self.now) }
    {
        read_row(alloc, self.columns, self.index)
    }
}

impl<'a> RowView for StoredRow<'a> {
    ghost cells = { λ r. r };

    fn cell(&self, column: usize) -> CellView<'_> {
        cell_at(self.columns, column, self.index)
    }

    fn copy_cell(&self, alloc: Global, column: usize) -> Result<Value, AllocError> {
        copy_at(alloc, self.columns, column, self.index)
    }
}

/// Cell `index` of a column; null where there is no such column.
#[tactic(auto, using(crate::proofs::CellsInPlace::cells_in_place))]
pub(crate) fn cell_at(columns: &[Column], column: usize, index: usize) -> CellView<'_>
    requires { All (λ c. index < length c.cells) columns.now }
    ensures { viewed result ≡ shallow (cell_by (row_at (cells_in columns.now) index) column) }
{
    match columns.get(column) {
        Some(column) => column.view(index),
        None => CellView::Null,
    }
}

/// A copy of cell `index` of a column; null where there is no such column.
#[tactic(auto, using(crate::proofs::CellsInPlace::cells_in_place))]
fn copy_at(
    alloc: Global,
    columns: &[Column],
    column: usize,
    index: usize,
) -> Result<Value, AllocError>
    requires { All (λ c. index < length c.cells) columns.now }
    ensures { IfOk result (λ cell. cell ≡ cell_by (row_at (cells_in columns.now) index) column) }
{
    match columns.get(column) {
        Some(column) => column.cell(alloc, index),
        None => Ok(Value { kind: Kind::Null }),
    }
}

/// The right to read one stored row of the main table: a visit of it, which is counted. Contracts see the row's number.
#[derive(Debug, Drop)]
pub struct Visit {
    number: usize,
}

impl Model for Visit {
    ghost use Rattle.std.specs.Prelude.{ℕ};

    ghost Value = { ℕ };

    ghost view = { λ v. v.number };
}

impl Visit {
    pub(crate) fn new(number: usize) -> Visit
        ensures { result ≡ number }
    {
        Visit { number }
    }

    /// The number of the row.
    pub fn number(&self) -> usize
        ensures { result ≡ self.now }
    {
        self.number
    }
}

/// Whether a number is the one after another.
fn follows(last: usize, number: usize) -> bool
    ensures { result ≡ nat_eq number (last + 1) }
{
    number > 0 && number - 1 == last
}

/// How many runs of consecutive numbers there are.
fn count_runs(numbers: &[usize]) -> usize
    ensures { result ≡ runs_in numbers.now }
{
    let [first, rest @ ..] = numbers else {
        return 0;
    };
    let mut runs = 1;
    let mut last = *first;
    for number in rest {
        if !follows(last, *number) {
            runs += 1;
        }
        last = *number;
    }
    runs
}

/// The right to read some stored rows of the main table: a visit of each, which is counted. Contracts see the rows'
/// numbers, in order.
#[derive(Debug, Drop)]
pub struct Visits {
    numbers: Vec<usize>,
}

impl Model for Visits {
    ghost use Rattle.std.specs.Prelude.{List, ℕ};
    ghost use Rattle.std.specs.Coded.{coded_list, coded_ℕ};

    ghost Value = { List ℕ };

    ghost coded = { coded_list coded_ℕ };

    ghost view = { λ v. v.numbers.items };
}

impl Visits {
    pub(crate) fn new(numbers: Vec<usize>) -> Visits
        ensures { result ≡ numbers.items }
    {
        Visits { numbers }
    }

    /// How many rows are visited.
    pub fn len(&self) -> usize
        ensures { result ≡ length self.now }
    {
        self.numbers.len()
    }

    /// How many runs of rows with consecutive numbers there are.
    pub fn count_runs(&self) -> usize
        ensures { result ≡ runs_in self.now }
    {
        count_runs(&self.numbers)
    }

    /// The numbers of the rows.
    pub(crate) fn numbers(&self) -> &[usize]
        ensures { result.now ≡ self.now }
    {
        &self.numbers
    }
}
