//! The parts of a `RowStore`: chunks of columns, keys and counts, and no row.

ghost use Rattle.std.specs.Prelude.{◌≡◌, ◌<◌, ◌^◌, IfOk, length};
ghost use Rattle.row_keys.specs.Numbers.{AreDistinct};
ghost use Rattle.row_keys.specs.Parts.{AreNumbered, numbers_in, retracted_in};
ghost use Rattle.row_keys.specs.Stored.{AreGiven};

use crate::numbers::Numbers;
use crate::stored_chunk::StoredChunk;
use std::alloc::{AllocError, Global};
use values::Key;
use view_lang::Table;

/// All that a `RowStore` stores.
#[derive(Drop)]
pub struct StoreParts {
    pub table: Table,
    /// Where the rows lie, by their numbers.
    pub chunks: Vec<StoredChunk>,
    /// What is stored for the rows besides their cells, by their numbers. Released rows need not be among them.
    pub rows: Vec<RowParts>,
    /// How many rows were appended: the next number.
    pub appended: usize,
    /// How many rows were opened.
    pub visits: u128,
}

/// What is stored for a row besides its cells: its number, its key, and whether it is live.
#[derive(Drop)]
pub struct RowParts {
    pub number: usize,
    pub key: Key,
    pub is_live: bool,
}

/// Numbers the rows below `len` as if all were retracted.
fn number_rows(alloc: Global, rows: &[RowParts], len: usize) -> Result<Numbers, AllocError>
    requires order { AreNumbered 0 rows.now len }
    requires bound { len < 2 ^ 63 }
    ensures { IfOk result (λ numbers. numbers ≡ retracted_in rows.now len) }
{
    let mut numbers = Numbers::new(alloc);
    for row in rows {
        numbers.skip_to(row.number)?;
        // No row is live, so each is added.
        numbers.push(row.key.copy(alloc)?)?;
        numbers.retract(row.number);
    }
    numbers.skip_to(len)?;
    Ok(numbers)
}

/// Makes those rows live that are live in the parts.
fn revive_rows(numbers: &mut Numbers, rows: &[RowParts], len: usize)
    requires order { AreNumbered 0 rows.now len }
    requires retracted { numbers.old ≡ retracted_in rows.now len }
    requires distinct { AreDistinct (numbers_in rows.now len) }
    requires given { AreGiven (numbers_in rows.now len) }
    ensures { numbers.new ≡ numbers_in rows.now len }
{
    for row in rows {
        if row.is_live {
            numbers.revive(row.number);
        }
    }
}

/// Numbers the rows below `len`, of which these are retained.
pub(crate) fn make_numbers(
    alloc: Global,
    rows: &[RowParts],
    len: usize,
) -> Result<Numbers, AllocError>
    requires order { AreNumbered 0 rows.now len }
    requires bound { len < 2 ^ 63 }
    requires distinct { AreDistinct (numbers_in rows.now len) }
    requires given { AreGiven (numbers_in rows.now len) }
    ensures { IfOk result (λ numbers. numbers ≡ numbers_in rows.now len) }
{
    let mut numbers = number_rows(alloc, rows, len)?;
    revive_rows(&mut numbers, rows, len);
    Ok(numbers)
}

/// The same numbers, without the keys that no retained row has.
pub(crate) fn renumbered(alloc: Global, numbers: &Numbers) -> Result<Numbers, AllocError>
    requires { AreGiven numbers.now }
    ensures { IfOk result (λ made. made ≡ numbers.now) }
{
    numbers.distinct_law();
    let rows = numbers.retained_rows(alloc)?;
    make_numbers(alloc, &rows, numbers.len())
}
