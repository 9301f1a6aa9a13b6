//! Rewrites chunks of rows: without the released rows, and several of them as one.

ghost use Rattle.std.specs.Prelude.{
  ◌≡◌,
  ℕ,
  ◌+◌,
  ◌-◌,
  ◌<◌,
  ◌≤◌,
  ◌^◌,
  ◌++◌,
  ◌∷◌,
  [],
  All,
  IfOk,
  IfSome,
  OnOk,
  drop,
  false,
  get_or,
  length,
  take,
  true,
};
ghost use Rattle.std.specs.List.{range_with_len};
ghost use Rattle.values.specs.Datum.{items_of};
ghost use Rattle.values.specs.Layouts.{AreLayouts, HoldsEach};
ghost use Rattle.values.specs.Limits.{max_batch_rows, max_batch_weight, max_fields};
ghost use Rattle.values.specs.Rose.{kids_of, roses_size};
ghost use Rattle.body_writer.specs.Batch.{rows_weight};
ghost use Rattle.body_writer.specs.RowRanges.{IsRange, IsSized, batch_rows as rows_in_batch, range_rows, ranges_rows};
ghost use Rattle.row_keys.specs.Batches.{batch_rows};
ghost use Rattle.row_keys.specs.Chunks.{AreChunks, Chunk, IsLong, in_turn, numbers_by, row_in};
ghost use Rattle.row_keys.specs.RowsLeft.{
  Bounds,
  IsHeld,
  IsMade,
  IsMadeIn,
  IsMerged,
  IsPart,
  IsTail,
  IsWide,
  all_numbers,
  all_rows,
  end_of,
  tail_numbers,
  tail_rows,
  unflagged,
};

use crate::stored_chunk::{StoredChunk, flags};
use crate::weighing::{weigh_nested_columns, weigh_row};
use arrays::Column;
use body_writer::{Batch, RowRange};
use column_merge::merge_rows;
use std::alloc::{AllocError, Global};
use values::LayoutTree;
use values::limits::{MAX_BATCH_ROWS, MAX_BATCH_WEIGHT};

/// About how many bytes a chunk takes besides its rows.
const CHUNK_WEIGHT: u64 = 512;

/// The index of the first row from `at` on that isn't released; the number of rows where there is none.
fn next_left(gone: &[bool], at: usize) -> usize
    requires { at ≤ length gone.now }
    ensures from { at ≤ result }
    ensures within { result ≤ length gone.now }
    ensures gone { (k : ℕ) → at ≤ k → k < result → get_or gone.now k false ≡ true }
    ensures left { result < length gone.now → get_or gone.now result true ≡ false }
{
    for index in at..gone.len() {
        if !gone[index] {
            return index;
        }
    }
    gone.len()
}

/// The index of the first row from `at` on that is released; the number of rows where there is none.
fn next_gone(gone: &[bool], at: usize) -> usize
    requires { at ≤ length gone.now }
    ensures from { at ≤ result }
    ensures within { result ≤ length gone.now }
    ensures left { (k : ℕ) → at ≤ k → k < result → get_or gone.now k true ≡ false }
    ensures gone { result < length gone.now → get_or gone.now result false ≡ true }
{
    for index in at..gone.len() {
        if gone[index] {
            return index;
        }
    }
    gone.len()
}

/// Adds the rows of a batch from row `from` on that aren't released, in ranges of consecutive rows.
fn push_ranges<'a>(
    batch: &'a Batch,
    gone: &[bool],
    from: usize,
    ranges: &mut Vec<RowRange<'a>>,
) -> Result<(), AllocError>
    requires rows { length gone.now ≤ batch.now.rows }
    requires within { from ≤ length gone.now }
    ensures rows { OnOk result (ranges_rows ranges.new.items
        ≡ ranges_rows ranges.old.items ++ unflagged (drop from gone.now) (drop from (rows_in_batch batch.now))) }
    ensures ranges { OnOk result ((n : ℕ) → IsSized n batch.now → All (IsRange n) ranges.old.items
        → All (IsRange n) ranges.new.items) }
{
    let mut at = next_left(gone, from);
    while at < gone.len() {
        let to = next_gone(gone, at);
        ranges.push(RowRange {
            batch,
            from: at,
            to,
        })?;
        at = next_left(gone, to);
    }
    Ok(())
}

/// The number of row `index` of a chunk.
fn number_at(chunk: &StoredChunk, index: usize) -> usize
    requires within { index < length chunk.now.gone }
    requires long { IsLong chunk.now }
    requires bound { chunk.now.first + chunk.now.span < 2 ^ 64 }
    ensures { result ≡ get_or chunk.now.numbers index 0 }
{
    if chunk.numbers.is_empty() {
        return chunk.first + index;
    }
    chunk.numbers[index]
}

/// Adds the number of row `index` of a chunk, unless it is released.
fn push_number(
    chunk: &StoredChunk,
    index: usize,
    numbers: &mut Vec<usize>,
) -> Result<(), AllocError>
    requires within { index < length chunk.now.gone }
    requires long { IsLong chunk.now }
    requires bound { chunk.now.first + chunk.now.span < 2 ^ 64 }
    ensures gone { get_or chunk.now.gone index true ≡ true → numbers.new.items ≡ numbers.old.items }
    ensures left { get_or chunk.now.gone index true ≡ false
        → OnOk result (numbers.new.items ≡ numbers.old.items ++ get_or chunk.now.numbers index 0 ∷ []) }
{
    if !chunk.gone.as_slice()[index] {
        numbers.push(number_at(chunk, index))?;
    }
    Ok(())
}

/// Adds the numbers of the rows of a chunk from row `from` on that aren't released.
fn push_numbers(
    chunk: &StoredChunk,
    from: usize,
    numbers: &mut Vec<usize>,
) -> Result<(), AllocError>
    requires within { from ≤ length chunk.now.gone }
    requires long { IsLong chunk.now }
    requires bound { chunk.now.first + chunk.now.span < 2 ^ 64 }
    ensures { OnOk result (numbers.new.items
        ≡ numbers.old.items ++ unflagged (drop from chunk.now.gone) (drop from chunk.now.numbers)) }
{
    for index in from..chunk.gone.len() {
        push_number(chunk, index, numbers)?;
    }
    Ok(())
}

/// The rows of some chunks that aren't released: where they lie, and their numbers.
#[derive(Drop)]
struct RowsLeft<'a> {
    ranges: Vec<RowRange<'a>>,
    numbers: Vec<usize>,
}

/// The rows of these chunks that aren't released, in order.
fn gather(alloc: Global, part: &[StoredChunk]) -> Result<RowsLeft<'_>, AllocError>
    requires { IsPart part.now }
    ensures rows { IfOk result (λ left. ranges_rows left.ranges.items ≡ all_rows part.now) }
    ensures numbers { IfOk result (λ left. left.numbers.items ≡ all_numbers part.now) }
    ensures ranges { IfOk result (λ left. (n : ℕ) → All (IsWide n) part.now → All (IsRange n) left.ranges.items) }
{
    let mut ranges = Vec::with_capacity(alloc, part.len())?;
    let mut numbers = Vec::with_capacity(alloc, part.len())?;
    for chunk in part {
        push_ranges(&chunk.batch, chunk.gone.as_slice(), 0, &mut ranges)?;
        push_numbers(chunk, 0, &mut numbers)?;
    }
    Ok(RowsLeft { ranges, numbers })
}

/// Whether a chunk has this many columns.
fn is_wide(chunk: &StoredChunk, columns: usize) -> bool
    ensures { result ≡ true → IsWide columns chunk.now }
{
    chunk.batch.columns.len() == columns
}

/// Whether each of these chunks has this many columns.
fn are_wide(part: &[StoredChunk], columns: usize) -> bool
    ensures { result ≡ true → All (IsWide columns) part.now }
{
    for chunk in part {
        if !is_wide(chunk, columns) {
            return false;
        }
    }
    true
}

/// What the lists and structs of rows weigh where they lie.
fn weigh_nested(ranges: &[RowRange]) -> u64
    requires { (n : ℕ) × All (IsRange n) ranges.now }
{
    let mut sum = 0u64;
    for range in ranges {
        sum = sum.saturating_add(weigh_nested_columns(range));
    }
    sum
}

/// A bound on the weight of some rows.
fn weigh_range(alloc: Global, layouts: &[LayoutTree], range: &RowRange) -> Result<u64, AllocError>
    requires { (n : ℕ) × IsRange n range.now }
    ensures { IfOk result (λ weight. Bounds weight (rows_weight (kids_of layouts.now) (range_rows range.now))) }
{
    let mut sum = 0u64;
    for index in range.from..range.to {
        sum = sum.saturating_add(weigh_row(alloc, layouts, &range.batch.columns, index)?);
    }
    Ok(sum)
}

/// A bound on the weight of rows, as values of these layouts.
fn weigh(alloc: Global, layouts: &[LayoutTree], ranges: &[RowRange]) -> Result<u64, AllocError>
    requires { (n : ℕ) × All (IsRange n) ranges.now }
    ensures { IfOk result (λ weight. Bounds weight (rows_weight (kids_of layouts.now) (ranges_rows ranges.now))) }
{
    let mut sum = 0u64;
    for range in ranges {
        sum = sum.saturating_add(weigh_range(alloc, layouts, range)?);
    }
    Ok(sum)
}

/// The bytes in which the columns of a batch lie, without those of dictionaries.
fn bytes_of(batch: &Batch) -> u64 {
    match batch.columns.first() {
        Some(column) => column.parts().body.len() as u64,
        None => 0,
    }
}

/// The most that may be written for some chunks, so that it takes no more memory than they do. Each cell of a
/// dictionary is written as a value of its own, which can be more.
fn most_weight(part: &[StoredChunk]) -> u64
    ensures { result ≤ max_batch_weight }
{
    let mut sum = 0u64;
    for chunk in part {
        let bytes = bytes_of(&chunk.batch).saturating_mul(2);
        sum = sum.saturating_add(CHUNK_WEIGHT).saturating_add(bytes);
    }
    sum.min(MAX_BATCH_WEIGHT)
}

/// How many numbers some consecutive chunks span.
fn span_of(part: &[StoredChunk]) -> usize
    requires part { IsPart part.now }
    requires some { 0 < length part.now }
    ensures { (first : Chunk) → first ≡ get_or part.now 0 first
        → (from : ℕ) → first.first + result ≡ end_of from part.now }
{
    let head = &part[0];
    let last = &part[part.len() - 1];
    last.first + last.span - head.first
}

/// Whether these numbers are consecutive, with `first` as the first.
fn are_in_turn(numbers: &[usize], first: usize) -> bool
    ensures { result ≡ true → numbers.now ≡ in_turn first (length numbers.now) }
{
    for index in 0..numbers.len() {
        if numbers[index] < first || numbers[index] - first != index {
            return false;
        }
    }
    true
}

/// These numbers, or none where they are consecutive, with `first` as the first.
fn shorten_numbers(alloc: Global, numbers: Vec<usize>, first: usize) -> Vec<usize>
    ensures { numbers_by result.items first (length numbers.items) ≡ numbers.items }
{
    if are_in_turn(&numbers, first) {
        return Vec::new(alloc);
    }
    numbers
}

/// A chunk of these columns, whose rows have these numbers.
fn make_chunk(
    alloc: Global,
    first: usize,
    span: usize,
    columns: Vec<Column>,
    numbers: Vec<usize>,
) -> Result<StoredChunk, AllocError>
    requires { All (λ c. length c.cells ≡ length numbers.items) columns.items }
    ensures first { IfOk result (λ c. c.first ≡ first) }
    ensures span { IfOk result (λ c. c.span ≡ span) }
    ensures made { IfOk result (λ c. IsMade numbers.items (batch_rows (length numbers.items) columns.items) c) }
{
    let rows = numbers.len();
    let gone = flags(alloc, rows)?;
    Ok(StoredChunk {
        first,
        span,
        numbers: shorten_numbers(alloc, numbers, first),
        batch: Batch { columns, rows },
        gone,
        left: rows,
        enough: rows / 2,
    })
}

/// The most that may be written for the last `rows` rows of a chunk, so that all of it takes no more memory than the
/// chunk.
fn most_for(batch: &Batch, rows: usize) -> u64
    ensures { result ≤ max_batch_weight }
{
    let each = bytes_of(batch) / (batch.rows as u64).max(1);
    let sum = each
        .saturating_mul(2)
        .saturating_mul(rows as u64)
        .saturating_add(CHUNK_WEIGHT);
    sum.min(MAX_BATCH_WEIGHT)
}

/// Whether the rows are few enough to be written as one batch, and weigh no more than `most`. Lists and structs that
/// weigh more where they lie aren't copied for it.
fn are_few(
    alloc: Global,
    layouts: &[LayoutTree],
    most: u64,
    left: &RowsLeft,
) -> Result<bool, AllocError>
    requires ranges { (n : ℕ) × All (IsRange n) left.now.ranges.items }
    requires most { most ≤ max_batch_weight }
    ensures few { IfOk result (λ fits. fits ≡ true → length left.now.numbers.items ≤ max_batch_rows) }
    ensures light { IfOk result (λ fits. fits ≡ true
        → rows_weight (kids_of layouts.now) (ranges_rows left.now.ranges.items) ≤ max_batch_weight) }
{
    if left.numbers.len() > MAX_BATCH_ROWS || weigh_nested(&left.ranges) > most {
        return Ok(false);
    }
    let weight = weigh(alloc, layouts, &left.ranges)?;
    Ok(weight <= most)
}

/// A chunk of these rows, whose numbers are among `span` from `first` on; `None` where they are too many or weigh more
/// than `most`.
fn write_left(
    alloc: Global,
    layouts: &[LayoutTree],
    first: usize,
    span: usize,
    most: u64,
    left: RowsLeft<'_>,
) -> Result<Option<StoredChunk>, AllocError>
    requires ranges { All (IsRange (length layouts.now)) left.ranges.items }
    requires many { length left.numbers.items ≡ length (ranges_rows left.ranges.items) }
    requires held { All (λ row. HoldsEach (kids_of layouts.now) (items_of row)) (ranges_rows left.ranges.items) }
    requires narrow { roses_size (kids_of layouts.now) ≤ max_fields }
    requires layouts { AreLayouts (kids_of layouts.now) }
    requires most { most ≤ max_batch_weight }
    ensures { IfOk result (λ made. IfSome made (IsMadeIn first span left.entry.numbers.items
        (ranges_rows left.entry.ranges.items))) }
{
    if !are_few(alloc, layouts, most, &left)? {
        return Ok(None);
    }
    let columns = merge_rows(alloc, layouts, &left.ranges)?;
    let chunk = make_chunk(alloc, first, span, columns, left.numbers)?;
    Ok(Some(chunk))
}

/// One chunk with the rows of these that aren't released; `None` where they are too many, or would take more memory
/// than these chunks do.
pub(crate) fn merge(
    alloc: Global,
    layouts: &[LayoutTree],
    part: &[StoredChunk],
) -> Result<Option<StoredChunk>, AllocError>
    requires part { IsPart part.now }
    requires some { 0 < length part.now }
    requires held { (n : ℕ) → IsHeld (kids_of layouts.now) (row_in part.now n) }
    requires narrow { roses_size (kids_of layouts.now) ≤ max_fields }
    requires layouts { AreLayouts (kids_of layouts.now) }
    ensures { IfOk result (λ made. IfSome made (λ c. (from : ℕ) (len : ℕ) → AreChunks from part.now len
        → IsMerged from part.now c)) }
{
    if !are_wide(part, layouts.len()) {
        return Ok(None);
    }
    let left = gather(alloc, part)?;
    let head = &part[0];
    write_left(
        alloc,
        layouts,
        head.first,
        span_of(part),
        most_weight(part),
        left,
    )
}

/// The last rows of a chunk, from row `from` on, that aren't released.
fn gather_tail(alloc: Global, chunk: &StoredChunk, from: usize) -> Result<RowsLeft<'_>, AllocError>
    requires within { from ≤ length chunk.now.gone }
    requires long { IsLong chunk.now }
    requires bound { chunk.now.first + chunk.now.span < 2 ^ 64 }
    ensures rows { IfOk result (λ left. ranges_rows left.ranges.items ≡ tail_rows chunk.now from) }
    ensures numbers { IfOk result (λ left. left.numbers.items ≡ tail_numbers chunk.now from) }
    ensures ranges { IfOk result (λ left. (n : ℕ) → IsWide n chunk.now → All (IsRange n) left.ranges.items) }
{
    let mut ranges = Vec::new(alloc);
    let mut numbers = Vec::new(alloc);
    push_ranges(&chunk.batch, chunk.gone.as_slice(), from, &mut ranges)?;
    push_numbers(chunk, from, &mut numbers)?;
    Ok(RowsLeft { ranges, numbers })
}

/// A chunk with the last rows of this one, from row `from` on, that aren't released; `None` where they are too many, or
/// would take more memory than their share of this one.
pub(crate) fn write_tail(
    alloc: Global,
    layouts: &[LayoutTree],
    chunk: &StoredChunk,
    from: usize,
) -> Result<Option<StoredChunk>, AllocError>
    requires within { from < length chunk.now.gone }
    requires long { IsLong chunk.now }
    requires bound { chunk.now.first + chunk.now.span < 2 ^ 64 }
    requires held { (n : ℕ) → IsHeld (kids_of layouts.now) (row_in (chunk.now ∷ []) n) }
    requires narrow { roses_size (kids_of layouts.now) ≤ max_fields }
    requires layouts { AreLayouts (kids_of layouts.now) }
    ensures { IfOk result (λ made. IfSome made (IsTail chunk.now from)) }
{
    if !is_wide(chunk, layouts.len()) {
        return Ok(None);
    }
    let left = gather_tail(alloc, chunk, from)?;
    let first = number_at(chunk, from);
    let most = most_for(&chunk.batch, left.numbers.len());
    write_left(
        alloc,
        layouts,
        first,
        chunk.first + chunk.span - first,
        most,
        left,
    )
}
