//! Rows of a main table with rows of a side table beside them.

ghost use Rattle.std.specs.Prelude.{◌≡◌, ℕ, ◌≤◌, List, drop, length, take};
ghost use Rattle.body_writer.specs.Locations.{rows_at};
ghost use Rattle.stream_writer.specs.JoinedRows.{
  HaveAlone,
  HaveJoined,
  IsFirst,
  IsRest,
  half,
  joined_rows,
  place_of,
};

use body_writer::LocatedRows;

/// Rows of a main table, which have `width` cells, each followed by the cells of the row of a side table beside it.
/// There are as many locations in the side table. Where one is in no batch, the cells of the side table are null.
#[derive(Clone, Copy)]
pub struct JoinedRows<'a> {
    pub width: usize,
    pub main: LocatedRows<'a>,
    pub side: LocatedRows<'a>,
}

/// The first `count` rows.
fn first_of<'a>(rows: &LocatedRows<'a>, count: usize) -> LocatedRows<'a>
    requires { count ≤ length rows.now.locations.now }
    ensures batches { result.batches ≡ rows.now.batches }
    ensures locations { result.locations.now ≡ take count rows.now.locations.now }
{
    LocatedRows {
        batches: rows.batches,
        locations: &rows.locations[..count],
    }
}

/// The rows after the first `count`.
fn rest_of<'a>(rows: &LocatedRows<'a>, count: usize) -> LocatedRows<'a>
    requires { count ≤ length rows.now.locations.now }
    ensures batches { result.batches ≡ rows.now.batches }
    ensures locations { result.locations.now ≡ drop count rows.now.locations.now }
{
    LocatedRows {
        batches: rows.batches,
        locations: &rows.locations[count..],
    }
}

impl<'a> JoinedRows<'a> {
    /// These rows, which have `width` cells, without rows of a side table.
    pub fn alone(width: usize, main: LocatedRows<'a>) -> JoinedRows<'a>
        ensures rows { joined_rows result ≡ rows_at main.entry }
        ensures have { (columns : List ℕ) → HaveAlone columns width main.entry → HaveJoined columns result }
    {
        JoinedRows {
            width,
            main,
            side: LocatedRows {
                batches: &[],
                locations: main.locations,
            },
        }
    }

    /// The rows of the table that has column `j`.
    pub(crate) fn half(&self, j: usize) -> &LocatedRows<'a>
        ensures { result.now ≡ half self.now j }
    {
        if j < self.width {
            return &self.main;
        }
        &self.side
    }

    /// The position of column `j` in that table.
    pub(crate) fn place_of(&self, j: usize) -> usize
        ensures { result ≡ place_of self.now j }
    {
        if j < self.width {
            return j;
        }
        j - self.width
    }

    /// The first `count` rows.
    pub(crate) fn first(&self, count: usize) -> JoinedRows<'a>
        requires main { count ≤ length self.now.main.locations.now }
        requires side { count ≤ length self.now.side.locations.now }
        ensures { IsFirst count self.now result }
    {
        JoinedRows {
            width: self.width,
            main: first_of(&self.main, count),
            side: first_of(&self.side, count),
        }
    }

    /// The rows after the first `count`.
    pub(crate) fn rest(&self, count: usize) -> JoinedRows<'a>
        requires main { count ≤ length self.now.main.locations.now }
        requires side { count ≤ length self.now.side.locations.now }
        ensures { IsRest count self.now result }
    {
        JoinedRows {
            width: self.width,
            main: rest_of(&self.main, count),
            side: rest_of(&self.side, count),
        }
    }
}
