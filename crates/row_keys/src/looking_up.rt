//! Looks rows of a side table up for rows of the main table, where these lie.

ghost use Rattle.std.specs.Prelude.{◌≡◌, ℕ, ◌++◌, All, IfOk, OnOk, map};
ghost use Rattle.values.specs.CellViews.{shallow, viewed};
ghost use Rattle.values.specs.Datum.{Datum, whole};
ghost use Rattle.body_writer.specs.RowRanges.{IsRange, range_rows, ranges_rows};
ghost use Rattle.view_lang.specs.TableRules.{IsSideTable};
ghost use Rattle.row_keys.specs.LookedUp.{AreFound, AreLive, Finds, found_rows, row_for};

use crate::store::RowStore;
use crate::stored_row::cell_at;
use body_writer::RowRange;
use std::alloc::{AllocError, Global};
use values::{CellView, Key, KeyBuffer};

/// A whole number that was looked up, and the number of the live row whose key it is, if there is one.
#[derive(Clone, Copy)]
pub(crate) struct Found {
    pub(crate) key: i128,
    pub(crate) number: Option<usize>,
}

/// How many whole numbers are remembered.
const REMEMBERED: usize = 1024;

/// What looking up the whole number 0 finds, as often as whole numbers are remembered where `count` cells are looked
/// up: not at all where they are few.
fn start(alloc: Global, side: &RowStore, count: usize) -> Result<Vec<Found>, AllocError>
    ensures { IfOk result (λ found. AreFound side.now found.items) }
{
    let zero = Found {
        key: 0,
        number: side.number_with(&Key::Int(0)),
    };
    let places = if count < REMEMBERED { 0 } else { REMEMBERED };
    Vec::from_elem(alloc, zero, places)
}

/// The number of the live row whose key is a whole number, if there is one. It is remembered.
fn find_whole(side: &RowStore, key: i128, found: &mut Vec<Found>) -> Option<usize>
    requires { AreFound side.now found.old.items }
    ensures found { AreFound side.now found.new.items }
    ensures number { Finds side.now (whole key) result }
{
    let place = (key.unsigned_abs() % REMEMBERED as u128) as usize;
    if place >= found.len() {
        return side.number_with(&Key::Int(key));
    }
    let last = found[place];
    if last.key == key {
        return last.number;
    }
    let number = side.number_with(&Key::Int(key));
    found[place] = Found { key, number };
    number
}

/// The number of the live row of a side table whose key equals a cell, if there is one. Whole numbers are remembered.
fn find_cell(
    side: &RowStore,
    cell: CellView<'_>,
    keys: &mut KeyBuffer,
    found: &mut Vec<Found>,
) -> Result<Option<usize>, AllocError>
    requires side { IsSideTable side.now.table }
    requires found { AreFound side.now found.old.items }
    ensures found { AreFound side.now found.new.items }
    ensures number { IfOk result
        (λ number. (d : Datum) → viewed cell.entry ≡ shallow d → Finds side.now d number) }
{
    match cell {
        CellView::Int(key) => Ok(find_whole(side, key, found)),
        _ => side.number_with_key(keys, cell),
    }
}

/// Adds the numbers of the side table's rows that the rows of a range look up by their cells of column `on`.
fn push_numbers(
    side: &RowStore,
    on: usize,
    range: &RowRange,
    keys: &mut KeyBuffer,
    found: &mut Vec<Found>,
    numbers: &mut Vec<Option<usize>>,
) -> Result<(), AllocError>
    requires side { IsSideTable side.now.table }
    requires range { (n : ℕ) × IsRange n range.now }
    requires found { AreFound side.now found.old.items }
    ensures found { AreFound side.now found.new.items }
    ensures rows { OnOk result (found_rows side.now numbers.new.items
        ≡ found_rows side.now numbers.old.items ++ map (row_for side.now on) (range_rows range.now)) }
    ensures live { OnOk result (AreLive side.now numbers.old.items → AreLive side.now numbers.new.items) }
{
    for index in range.from..range.to {
        let cell = cell_at(&range.batch.columns, on, index);
        numbers.push(find_cell(side, cell, keys, found)?)?;
    }
    Ok(())
}

/// The numbers of the side table's rows that the rows of some ranges, `count` in all, look up by their cells of column
/// `on`, where there are such rows.
pub(crate) fn look_up_all(
    alloc: Global,
    side: &RowStore,
    on: usize,
    ranges: &[RowRange],
    count: usize,
) -> Result<Vec<Option<usize>>, AllocError>
    requires side { IsSideTable side.now.table }
    requires ranges { (n : ℕ) × All (IsRange n) ranges.now }
    ensures rows { IfOk result (λ numbers.
        found_rows side.now numbers.items ≡ map (row_for side.now on) (ranges_rows ranges.now)) }
    ensures live { IfOk result (λ numbers. AreLive side.now numbers.items) }
{
    let mut keys = KeyBuffer::new(alloc);
    let mut found = start(alloc, side, count)?;
    let mut numbers = Vec::with_capacity(alloc, count)?;
    for range in ranges {
        push_numbers(side, on, range, &mut keys, &mut found, &mut numbers)?;
    }
    Ok(numbers)
}
