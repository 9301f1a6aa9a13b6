//! How many cells of a column aren't null, and their sum.

ghost use Rattle.std.specs.Prelude.{◌≡◌, ◌<◌, ◌∷◌, ◌++◌, ◌+◌, ◌+ℤ◌, ◌-ℤ◌, List, length};
ghost use Rattle.std.specs.Int.{int_wrap};
ghost use Rattle.view_lang.specs.Limits.{max_appended_rows};
ghost use mir.Syntax.{w128};
ghost use Rattle.values.specs.Datum.{Datum};
ghost use Rattle.group_state.specs.Cells.{KeepsTotal};
ghost use Rattle.group_state.specs.Rows.{cell};

use crate::row_cells::number_at;
use view_lang::RowView;

/// Of the cells of a column: how many aren't null, and the sum of those that are whole numbers. The sum wraps around
/// 128 bits.
#[derive(Debug, Drop)]
pub struct Total {
    pub filled: u64,
    pub total: i128,
}

impl Total {
    /// Adds a row's cell. It isn't copied.
    pub(crate) fn add<R: RowView>(&mut self, row: &R, column: usize)
        requires { (cells : List Datum) × (KeepsTotal self.old cells × (length cells < max_appended_rows)) }
        ensures { (cells : List Datum) → KeepsTotal self.old cells
            → KeepsTotal self.new (cell column (R.cells row.now) ∷ cells) }
    {
        let Some(number) = number_at(row, column) else {
            return;
        };
        raise(&mut self.total, &number);
        self.filled += 1;
    }

    /// Removes a row's cell.
    pub(crate) fn remove<R: RowView>(&mut self, row: &R, column: usize)
        ensures { (cells : List Datum) → KeepsTotal self.old (cell column (R.cells row.now) ∷ cells)
            → KeepsTotal self.new cells }
    {
        let Some(number) = number_at(row, column) else {
            return;
        };
        lower(&mut self.total, &number);
        self.filled = self.filled.saturating_sub(1);
    }

    /// Adds the cells of another total.
    pub(crate) fn take_in(&mut self, other: &Total)
        requires { (rest : List Datum) × (moved : List Datum)
            × (KeepsTotal self.old rest × (KeepsTotal other.now moved
            × (length rest + length moved < max_appended_rows))) }
        ensures { (rest moved : List Datum) → KeepsTotal self.old rest → KeepsTotal other.now moved
            → KeepsTotal self.new (moved ++ rest) }
    {
        raise(&mut self.total, &other.total);
        self.filled += other.filled;
    }

    /// Removes the cells of another total.
    pub(crate) fn give_up(&mut self, other: &Total)
        ensures { (rest moved : List Datum) → KeepsTotal self.old (moved ++ rest) → KeepsTotal other.now moved
            → KeepsTotal self.new rest }
    {
        lower(&mut self.total, &other.total);
        self.filled = self.filled.saturating_sub(other.filled);
    }
}

fn raise(total: &mut i128, number: &i128)
    ensures { total.new ≡ int_wrap w128 (total.old +ℤ number.now) }
{
    *total = total.wrapping_add(*number);
}

fn lower(total: &mut i128, number: &i128)
    ensures { total.new ≡ int_wrap w128 (total.old -ℤ number.now) }
{
    *total = total.wrapping_sub(*number);
}
