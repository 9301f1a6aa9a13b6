//! Chunks of stored rows.

ghost use Rattle.std.specs.Prelude.{
  ◌≡◌,
  ◌<◌,
  ◌≤◌,
  All,
  IfOk,
  MatchOption,
  false,
  get_or,
  length,
  min,
  nat_lt,
  replicate,
  true,
  ℕ,
};
ghost use Rattle.row_keys.specs.Chunks.{
  AreBelow,
  AreRising,
  IsLong,
  IsNoneOf,
  IsPlaceOf,
  IsShortened,
  Releases,
  chunk_row,
  in_turn,
  numbers_by,
};

use crate::stored_row::StoredRow;
use body_writer::Batch;
use smallvec::SmallVec;
use std::alloc::{AllocError, Global};
use std::marker::Model;

/// The flags of up to this many rows take no memory of their own.
const FEW_ROWS: usize = 16;

/// Some rows in the order of their numbers: the checked columns in which they lie, and which of them are released.
/// Where all are there are no columns.
///
/// Contracts see a `Chunk`.
#[derive(Drop)]
pub struct StoredChunk {
    /// The least number that a row of the chunk may have.
    pub first: usize,
    /// The chunk has the numbers from `first` to before `first + span`. A number whose row isn't retained has no row.
    pub span: usize,
    /// The numbers of the rows; none where they are consecutive, with `first` as the first.
    pub numbers: Vec<usize>,
    /// The columns may hold more rows than there are flags: the others were removed.
    pub batch: Batch,
    /// The flags of a few rows lie in the chunk itself.
    pub gone: SmallVec<bool, FEW_ROWS>,
    /// An upper bound on the number of rows that aren't released.
    pub left: usize,
    /// With fewer rows remaining, the chunk is rewritten.
    pub enough: usize,
}

impl Model for StoredChunk {
    ghost use Rattle.std.specs.Prelude.{length};
    ghost use Rattle.row_keys.specs.Chunks.{Chunk, chunk, chunk_code, numbers_by};

    ghost Value = { Chunk };

    ghost coded = { chunk_code };

    ghost view = { λ c. chunk c.first c.span (numbers_by c.numbers.items c.first (length c.gone.items)) c.batch.rows
        c.batch.columns.items c.gone.items };
}

/// Flags of `rows` rows of which none is released.
pub(crate) fn flags(alloc: Global, rows: usize) -> Result<SmallVec<bool, FEW_ROWS>, AllocError>
    ensures { IfOk result (λ flags. flags.items ≡ replicate rows false) }
{
    SmallVec::from_elem(alloc, false, rows)
}

/// How many of these numbers are below this one.
fn count_below(numbers: &[usize], number: usize) -> usize
    requires { (from : ℕ) × (end : ℕ) × AreRising from numbers.now end }
    ensures { AreBelow number numbers.now result }
{
    numbers.partition_point(
        |one: &usize| -> bool
            ensures { result ≡ nat_lt one.now number }
        { *one < number },
    )
}

/// Whether the number at an index is this one.
fn is_number_at(numbers: &[usize], index: usize, number: usize) -> bool
    ensures yes { result ≡ true → (index < length numbers.now) × (get_or numbers.now index number ≡ number) }
    ensures no { result ≡ false → index < length numbers.now → (get_or numbers.now index number ≡ number) → ⊥ }
{
    match numbers.get(index) {
        Some(one) => *one == number,
        None => false,
    }
}

/// The index of a number among these. Index `near` is tried first.
fn place_among(numbers: &[usize], near: usize, number: usize) -> Option<usize>
    requires { (from : ℕ) × (end : ℕ) × AreRising from numbers.now end }
    ensures { MatchOption result (IsNoneOf numbers.now number) (IsPlaceOf numbers.now number) }
{
    if is_number_at(numbers, near, number) {
        return Some(near);
    }
    let place = count_below(numbers, number);
    if is_number_at(numbers, place, number) {
        Some(place)
    } else {
        None
    }
}

/// The index of a number among `count` consecutive ones.
fn place_in_turn(first: usize, count: usize, number: usize) -> Option<usize>
    ensures { MatchOption result (IsNoneOf (in_turn first count) number) (IsPlaceOf (in_turn first count) number) }
{
    if number < first || number - first >= count {
        return None;
    }
    Some(number - first)
}

/// The index of the row of this number in a chunk, if it has one. Index `near` is tried first.
pub(crate) fn index_near(chunk: &StoredChunk, near: usize, number: usize) -> Option<usize>
    requires { IsLong chunk.now }
    ensures { MatchOption result (IsNoneOf chunk.now.numbers number) (IsPlaceOf chunk.now.numbers number) }
{
    if chunk.numbers.is_empty() {
        return place_in_turn(chunk.first, chunk.gone.len(), number);
    }
    place_among(&chunk.numbers, near, number)
}

/// Row `index` of a chunk: without cells where it is released.
pub(crate) fn row_of(chunk: &StoredChunk, index: usize) -> StoredRow<'_>
    requires within { index < length chunk.now.gone }
    requires long { IsLong chunk.now }
    ensures { result ≡ chunk_row chunk.now index }
{
    if chunk.gone.as_slice()[index] {
        return StoredRow::new(&[], 0);
    }
    StoredRow::new(&chunk.batch.columns, index)
}

/// Whether all rows are released.
fn are_gone(gone: &[bool]) -> bool
    ensures { result ≡ true → All (λ g. g ≡ true) gone.now }
{
    for one in gone {
        if !*one {
            return false;
        }
    }
    true
}

/// Releases row `index` of a chunk, and with the last one its columns. It returns whether the columns were released.
pub(crate) fn release_in(alloc: Global, chunk: &mut StoredChunk, index: usize) -> bool
    requires { index < length chunk.old.gone }
    ensures { Releases chunk.old index chunk.new }
{
    if !chunk.gone.as_slice()[index] {
        chunk.left = chunk.left.saturating_sub(1);
    }
    chunk.gone.as_mut_slice()[index] = true;
    if chunk.left > 0 || !are_gone(chunk.gone.as_slice()) {
        return false;
    }
    chunk.batch.columns = Vec::new(alloc);
    true
}

/// How many of `count` consecutive numbers are below this one.
fn count_in_turn(first: usize, count: usize, number: usize) -> usize
    ensures { AreBelow number (in_turn first count) result }
{
    number.saturating_sub(first).min(count)
}

/// How many rows of a chunk have numbers below this one.
fn rows_below(chunk: &StoredChunk, number: usize) -> usize
    requires { IsLong chunk.now }
    ensures { AreBelow number chunk.now.numbers result }
{
    if chunk.numbers.is_empty() {
        return count_in_turn(chunk.first, chunk.gone.len(), number);
    }
    count_below(&chunk.numbers, number)
}

/// Removes the rows of a chunk from this number on.
pub(crate) fn shorten(chunk: &mut StoredChunk, len: usize)
    requires below { chunk.old.first < len }
    requires long { IsLong chunk.old }
    ensures { IsShortened len chunk.old chunk.new }
{
    let rows = rows_below(chunk, len);
    chunk.numbers.truncate(rows);
    chunk.gone.truncate(rows);
    chunk.span = chunk.span.min(len - chunk.first);
}
