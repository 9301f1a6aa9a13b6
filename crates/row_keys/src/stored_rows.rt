//! The rows of a store by number, in the columns of their batches or those into which they were merged.

ghost use Rattle.std.specs.Prelude.{
  ◌≡◌,
  ℕ,
  ◌<◌,
  ◌≤◌,
  ◌++◌,
  ◌∷◌,
  [],
  All,
  IfOk,
  IfSome,
  drop,
  map,
  MatchOption,
  OnErr,
  OnOk,
  false,
  filter,
  get_or,
  length,
  nat_le,
  slice_set,
  take,
  true,
};
ghost use Rattle.std.specs.List.Sorted.{IsPartitionPoint};
ghost use Rattle.values.specs.Layouts.{AreLayouts};
ghost use Rattle.values.specs.Limits.{max_fields};
ghost use Rattle.values.specs.Rose.{kids_of, roses_size};
ghost use Rattle.body_writer.specs.Locations.{IsLocated, IsRowAt, located_rows};
ghost use Rattle.body_writer.specs.RowRanges.{IsRange, ranges_rows};
ghost use Rattle.row_keys.specs.Batches.{batch_rows};
ghost use Rattle.row_keys.specs.Chunks.{
  AreChunks,
  EndsAbove,
  IsCut,
  IsLong,
  IsShortened,
  LiesAt,
  LiesIn,
  ReleasesAt,
  has_columns,
  row_in,
  stored_rows,
};
ghost use Rattle.row_keys.specs.Locations.{row_if};
ghost use Rattle.row_keys.specs.RowsLeft.{IsHeld, IsSplit};

use crate::locating::{StoredLocations, locate_rows, locate_rows_if};
use crate::rewriting::{merge, write_tail};
use crate::runs::{find_ranges, locate_near};
use crate::stored_chunk::{StoredChunk, flags, index_near, release_in, row_of, shorten};
use crate::stored_row::StoredRow;
use arrays::Column;
use body_writer::{Batch, RowRange};
use std::alloc::{AllocError, Global};
use std::marker::Model;
use values::LayoutTree;
use values::limits::MAX_BATCH_ROWS;

/// How many small chunks are merged at once. Together they have no more rows than a batch may have.
const SMALL_CHUNKS: usize = 32;

/// Chunks with fewer rows are small.
const SMALL_CHUNK: usize = 32;

/// How many chunks are merged at once where the last is of medium size, and the others are of medium size or small.
const MEDIUM_CHUNKS: usize = 16;

/// Chunks with fewer rows that aren't small are of medium size.
const MEDIUM_CHUNK: usize = 64;

/// A chunk of which few rows remain is rewritten together with a neighbor where both have no more rows than this.
const JOINED_ROWS: usize = 256;

/// The rows of all numbers: released ones have no cells.
///
/// Contracts see the list of the rows' cells.
#[derive(Drop)]
pub(crate) struct StoredRows {
    alloc: Global,
    // By their first numbers.
    chunks: Vec<StoredChunk>,
    len: usize,
    // How many chunks have no columns.
    spent: usize,
    // Where the row that was visited last lies: a row is looked for there first.
    near: Location,
}

impl Model for StoredRows {
    ghost use Rattle.std.specs.Prelude.{List};
    ghost use Rattle.std.specs.Coded.{coded_list};
    ghost use Rattle.values.specs.Datum.{Datum, datum_code};
    ghost use Rattle.row_keys.specs.Chunks.{AreChunks, stored_rows};

    ghost Value = { List (List Datum) };

    ghost coded = { coded_list (coded_list datum_code) };

    ghost view = { λ s. stored_rows s.chunks.items s.len };

    ghost invariant = { λ s. AreChunks 0 s.chunks.items s.len };
}

/// How many chunks begin at this number or below it.
fn count_from(chunks: &[StoredChunk], number: usize) -> usize
    requires { (len : ℕ) × AreChunks 0 chunks.now len }
    ensures within { result ≤ length chunks.now }
    ensures parted { IsPartitionPoint (λ c. nat_le c.first number ≡ true) (λ c. nat_le c.first number ≡ false)
        chunks.now result }
{
    chunks.partition_point(
        |chunk: &StoredChunk| -> bool
            ensures { result ≡ nat_le chunk.now.first number }
        { chunk.first <= number },
    )
}

/// The index of the chunk that has this number, if there is one.
pub(crate) fn chunk_of(chunks: &[StoredChunk], number: usize) -> Option<usize>
    requires { (len : ℕ) × AreChunks 0 chunks.now len }
    ensures { MatchOption result (row_in chunks.now number ≡ []) (LiesIn chunks.now number) }
{
    let place = count_from(chunks, number).checked_sub(1)?;
    let chunk = &chunks[place];
    if number - chunk.first < chunk.span {
        Some(place)
    } else {
        None
    }
}

/// Where the row of a number lies: the index of its chunk, and its index there.
#[derive(Clone, Copy, Debug)]
pub(crate) struct Location {
    pub(crate) chunk: usize,
    pub(crate) index: usize,
}

/// The first row of the first chunk.
const FIRST_ROW: Location = Location { chunk: 0, index: 0 };

/// Where the row of this number lies, if it is retained: in the chunk at this index, which spans the number. Row `near`
/// of the chunk is tried first.
pub(crate) fn index_in(
    chunks: &[StoredChunk],
    place: usize,
    near: usize,
    number: usize,
) -> Option<Location>
    requires { LiesIn chunks.now number place }
    ensures { MatchOption result (row_in chunks.now number ≡ []) (λ at. LiesAt chunks.now number at.chunk at.index) }
{
    let index = index_near(&chunks[place], near, number)?;
    Some(Location {
        chunk: place,
        index,
    })
}

/// Releases row `index` of the chunk at this index. It returns whether the chunk's columns were released.
fn release_at(alloc: Global, chunks: &mut Vec<StoredChunk>, place: usize, index: usize) -> bool
    requires { (number : ℕ) × LiesAt chunks.old.items number place index }
    ensures { ReleasesAt chunks.old.items place index chunks.new.items }
{
    release_in(alloc, &mut chunks[place], index)
}

/// Replaces a chunk by another.
fn put_chunk(place: &mut StoredChunk, chunk: StoredChunk)
    ensures { place.new ≡ chunk }
{
    *place = chunk;
}

/// Replaces the chunks from index `from` up to, and without, `to` by one chunk.
fn replace(chunks: &mut Vec<StoredChunk>, from: usize, to: usize, chunk: StoredChunk)
    requires order { from < to }
    requires within { to ≤ length chunks.old.items }
    ensures { chunks.new.items ≡ take from chunks.old.items ++ chunk ∷ drop to chunks.old.items }
{
    let mut last = to - 1;
    while last > from {
        chunks.remove(last);
        last -= 1;
    }
    put_chunk(&mut chunks[from], chunk);
}

/// Whether the last `count` chunks have fewer rows than this each.
fn end_small(chunks: &[StoredChunk], count: usize, rows: usize) -> bool
    ensures { result ≡ true → count ≤ length chunks.now }
{
    if chunks.len() < count {
        return false;
    }
    for chunk in &chunks[chunks.len() - count..] {
        if chunk.gone.len() >= rows {
            return false;
        }
    }
    true
}

/// Whether the last chunk isn't small.
fn ends_medium(chunks: &[StoredChunk]) -> bool {
    match chunks.last() {
        Some(chunk) => chunk.gone.len() >= SMALL_CHUNK,
        None => false,
    }
}

/// How many of the last chunks have so few rows that they are merged; 0 where none are.
fn count_small(chunks: &[StoredChunk]) -> usize
    ensures { result ≤ length chunks.now }
{
    if end_small(chunks, SMALL_CHUNKS, SMALL_CHUNK) {
        return SMALL_CHUNKS;
    }
    if ends_medium(chunks) && end_small(chunks, MEDIUM_CHUNKS, MEDIUM_CHUNK) {
        return MEDIUM_CHUNKS;
    }
    0
}

/// Whether a chunk has fewer remaining rows than justify its memory.
fn is_thin(chunk: &StoredChunk) -> bool {
    chunk.left < chunk.enough
}

/// Lets a chunk that couldn't be rewritten wait until half of its rows remain.
fn ease(chunk: &mut StoredChunk)
    ensures { chunk.new ≡ chunk.old }
{
    if chunk.left < chunk.enough {
        chunk.enough = chunk.left / 2;
    }
}

/// Whether a chunk is rewritten together with a neighbor, which has no more than twice as many rows.
fn joins(beside: &StoredChunk, chunk: &StoredChunk) -> bool {
    beside.left > 0
        && beside.left / 2 <= chunk.left
        && beside.left.saturating_add(chunk.left) <= JOINED_ROWS
}

/// The chunks that are rewritten with the one at this index: the index of the first, and the one after the last.
fn joined(chunks: &[StoredChunk], place: usize) -> (usize, usize)
    requires { place < length chunks.now }
{
    let chunk = &chunks[place];
    if place > 0 {
        let before = &chunks[place - 1];
        if joins(before, chunk) {
            return (place - 1, place + 1);
        }
    }
    if place + 1 < chunks.len() {
        let after = &chunks[place + 1];
        if joins(after, chunk) {
            return (place, place + 2);
        }
    }
    (place, place + 1)
}

/// The row of a chunk from which on no more rows remain than a batch may have; 0 where that is the first.
fn tail_start(gone: &[bool]) -> usize {
    let mut at = gone.len();
    let mut count = 0;
    while at > 0 && count < MAX_BATCH_ROWS {
        at -= 1;
        if !gone[at] {
            count += 1;
        }
    }
    at
}

/// Removes the rows of a chunk from this number on, of which `rows` aren't released.
fn drop_tail(chunk: &mut StoredChunk, number: usize, rows: usize)
    requires below { chunk.old.first < number }
    requires long { IsLong chunk.old }
    ensures { IsShortened number chunk.old chunk.new }
{
    shorten(chunk, number);
    chunk.left = chunk.left.saturating_sub(rows);
}

/// Inserts the last rows of the chunk at this index, which were rewritten, after it. It returns whether memory was
/// given.
fn split(chunks: &mut Vec<StoredChunk>, place: usize, tail: StoredChunk) -> bool
    requires place { place < length chunks.old.items }
    requires below { (get_or chunks.old.items place tail).first < tail.first }
    requires long { IsLong (get_or chunks.old.items place tail) }
    ensures done { result ≡ true → IsSplit chunks.old.items place tail chunks.new.items }
    ensures refused { result ≡ false → chunks.new.items ≡ chunks.old.items }
{
    let number = tail.first;
    let rows = tail.left;
    let Ok(()) = chunks.insert(place + 1, tail) else {
        return false;
    };
    drop_tail(&mut chunks[place], number, rows);
    true
}

/// Removes the chunks without columns.
fn sweep(chunks: &mut Vec<StoredChunk>)
    ensures { chunks.new.items ≡ filter has_columns chunks.old.items }
{
    chunks.retain(
        |chunk: &StoredChunk| -> bool
            ensures { result ≡ has_columns chunk.now }
        { !chunk.batch.columns.is_empty() },
    );
}

/// Whether the last chunk begins with this number or above it.
fn ends_above(chunks: &[StoredChunk], len: usize) -> bool
    ensures { EndsAbove chunks.now len result }
{
    match chunks.last() {
        Some(chunk) => chunk.first >= len,
        None => false,
    }
}

/// Removes the rows from this number on.
fn cut(chunks: &mut Vec<StoredChunk>, len: usize)
    requires { (end : ℕ) × AreChunks 0 chunks.old.items end × (len ≤ end) }
    ensures { IsCut chunks.old.items len chunks.new.items }
{
    while ends_above(chunks, len) {
        drop(chunks.pop());
    }
    if !chunks.is_empty() {
        let last = chunks.len() - 1;
        shorten(&mut chunks[last], len);
    }
}

impl StoredRows {
    pub(crate) fn new(alloc: Global) -> StoredRows
        ensures { result ≡ [] }
    {
        StoredRows {
            alloc,
            chunks: Vec::new(alloc),
            len: 0,
            spent: 0,
            near: FIRST_ROW,
        }
    }

    /// The rows of these chunks, which have numbers below `len`.
    pub(crate) fn from_chunks(alloc: Global, chunks: Vec<StoredChunk>, len: usize) -> StoredRows
        requires { AreChunks 0 chunks.items len }
        ensures { result ≡ stored_rows chunks.items len }
    {
        StoredRows {
            alloc,
            chunks,
            len,
            spent: 0,
            near: FIRST_ROW,
        }
    }

    /// The chunks of the rows.
    pub(crate) fn into_chunks(self) -> Vec<StoredChunk>
        ensures chunks { AreChunks 0 result.items (length self) }
        ensures rows { stored_rows result.items (length self) ≡ self }
    {
        let StoredRows {
            alloc: _,
            chunks,
            len: _,
            spent: _,
            near: _,
        } = self;
        chunks
    }

    /// Adds the `rows` rows of a batch after all rows. If memory is refused, nothing has changed.
    pub(crate) fn append(&mut self, columns: Vec<Column>, rows: usize) -> Result<(), AllocError>
        requires { All (λ c. length c.cells ≡ rows) columns.items }
        ensures ok { OnOk result (self.new ≡ self.old ++ batch_rows rows columns.items) }
        ensures err { OnErr result (self.new ≡ self.old) }
    {
        if rows == 0 {
            return Ok(());
        }
        let len = self.len.checked_add(rows).ok_or(AllocError)?;
        let gone = flags(self.alloc, rows)?;
        self.chunks.push(StoredChunk {
            first: self.len,
            span: rows,
            numbers: Vec::new(self.alloc),
            batch: Batch { columns, rows },
            gone,
            left: rows,
            enough: rows / 2,
        })?;
        self.len = len;
        Ok(())
    }

    /// Removes all rows but the first `len`. It takes no memory.
    pub(crate) fn truncate(&mut self, len: usize)
        ensures { self.new ≡ take len self.old }
    {
        if len < self.len {
            cut(&mut self.chunks, len);
            self.len = len;
        }
    }

    /// Releases the cells of a row, and with the last row of a batch its columns. It takes no memory.
    pub(crate) fn release(&mut self, number: usize)
        ensures { self.new ≡ slice_set self.old number [] }
    {
        let Some(at) = locate_near(&self.chunks, self.near, number) else {
            return;
        };
        if release_at(self.alloc, &mut self.chunks, at.chunk, at.index) {
            self.spent = self.spent.saturating_add(1);
        }
    }

    /// Removes the chunks that have no rows, where they are many. It takes no memory.
    pub(crate) fn tidy(&mut self)
        ensures { self.new ≡ self.old }
    {
        if self.spent > self.chunks.len() / 2 {
            sweep(&mut self.chunks);
            self.spent = 0;
        }
    }

    /// Rewrites the chunks from index `from` up to, and without, `to` as one, if it takes no more memory than they do.
    /// Where memory for it is refused, they stay.
    fn rewrite(&mut self, layouts: &[LayoutTree], from: usize, to: usize)
        requires held { All (IsHeld (kids_of layouts.now)) self.old }
        requires narrow { roses_size (kids_of layouts.now) ≤ max_fields }
        requires layouts { AreLayouts (kids_of layouts.now) }
        ensures { self.new ≡ self.old }
    {
        if from >= to || to > self.chunks.len() {
            return;
        }
        if let Ok(Some(chunk)) = merge(self.alloc, layouts, &self.chunks[from..to]) {
            replace(&mut self.chunks, from, to, chunk);
        }
    }

    /// Rewrites the last rows of a chunk as one of their own, if more remain than a batch may have. It returns whether
    /// that was done.
    fn shed(&mut self, layouts: &[LayoutTree], place: usize) -> bool
        requires held { All (IsHeld (kids_of layouts.now)) self.old }
        requires narrow { roses_size (kids_of layouts.now) ≤ max_fields }
        requires layouts { AreLayouts (kids_of layouts.now) }
        ensures { self.new ≡ self.old }
    {
        if place >= self.chunks.len() {
            return false;
        }
        let chunk = &self.chunks[place];
        let from = tail_start(chunk.gone.as_slice());
        if from == 0 || from >= chunk.gone.len() {
            return false;
        }
        match write_tail(self.alloc, layouts, chunk, from) {
            Ok(Some(tail)) => split(&mut self.chunks, place, tail),
            _ => false,
        }
    }

    /// Rewrites the last rows of a chunk, as many as a batch may have, until no more remain in it.
    fn shed_all(&mut self, layouts: &[LayoutTree], place: usize)
        requires held { All (IsHeld (kids_of layouts.now)) self.old }
        requires narrow { roses_size (kids_of layouts.now) ≤ max_fields }
        requires layouts { AreLayouts (kids_of layouts.now) }
        ensures { self.new ≡ self.old }
    {
        // No chunk has more rows than are stored.
        for _ in 0..self.len / MAX_BATCH_ROWS {
            if !self.shed(layouts, place) {
                return;
            }
        }
    }

    /// Whether the last chunks are so small that they are merged.
    pub(crate) fn is_scattered(&self) -> bool {
        count_small(&self.chunks) > 0
    }

    /// Merges the last chunks where they are small, once.
    fn merge_small(&mut self, layouts: &[LayoutTree])
        requires held { All (IsHeld (kids_of layouts.now)) self.old }
        requires narrow { roses_size (kids_of layouts.now) ≤ max_fields }
        requires layouts { AreLayouts (kids_of layouts.now) }
        ensures { self.new ≡ self.old }
    {
        let count = count_small(&self.chunks);
        let len = self.chunks.len();
        self.rewrite(layouts, len - count, len);
    }

    /// Merges the last chunks where they are small, and the result once more.
    pub(crate) fn merge_last(&mut self, layouts: &[LayoutTree])
        requires held { All (IsHeld (kids_of layouts.now)) self.old }
        requires narrow { roses_size (kids_of layouts.now) ≤ max_fields }
        requires layouts { AreLayouts (kids_of layouts.now) }
        ensures { self.new ≡ self.old }
    {
        let before = self.chunks.len();
        self.merge_small(layouts);
        if self.chunks.len() < before {
            self.merge_small(layouts);
        }
    }

    /// Whether few rows remain in the chunk in which this number lies.
    pub(crate) fn is_thin_at(&self, number: usize) -> bool {
        match chunk_of(&self.chunks, number) {
            Some(place) => is_thin(&self.chunks[place]),
            None => false,
        }
    }

    /// Lets the chunk of this number wait to be rewritten, where it still has few rows.
    fn ease_at(&mut self, number: usize)
        ensures { self.new ≡ self.old }
    {
        if let Some(place) = chunk_of(&self.chunks, number) {
            ease(&mut self.chunks[place]);
        }
    }

    /// Rewrites the chunk of this number where few of its rows remain, together with a neighbor if that is small too.
    pub(crate) fn renew(&mut self, layouts: &[LayoutTree], number: usize)
        requires held { All (IsHeld (kids_of layouts.now)) self.old }
        requires narrow { roses_size (kids_of layouts.now) ≤ max_fields }
        requires layouts { AreLayouts (kids_of layouts.now) }
        ensures { self.new ≡ self.old }
    {
        let Some(place) = chunk_of(&self.chunks, number) else {
            return;
        };
        if !is_thin(&self.chunks[place]) {
            return;
        }
        self.shed_all(layouts, place);
        if place < self.chunks.len() {
            let (from, to) = joined(&self.chunks, place);
            self.rewrite(layouts, from, to);
        }
        self.ease_at(number);
    }

    /// Looks for rows first where the row of this number lies, from now on.
    pub(crate) fn seek(&mut self, number: usize)
        ensures { self.new ≡ self.old }
    {
        self.near = locate_near(&self.chunks, self.near, number).unwrap_or(self.near);
    }

    /// The row of this number: without cells where it is released, or was never added.
    pub(crate) fn row(&self, number: usize) -> StoredRow<'_>
        ensures { result ≡ get_or self.now number [] }
    {
        let Some(at) = locate_near(&self.chunks, self.near, number) else {
            return StoredRow::new(&[], 0);
        };
        row_of(&self.chunks[at.chunk], at.index)
    }

    /// Where the rows of these numbers lie, which are retained, in ranges of consecutive rows.
    pub(crate) fn ranges(
        &self,
        alloc: Global,
        numbers: &[usize],
    ) -> Result<Vec<RowRange<'_>>, AllocError>
        requires { All (λ n. 0 < length (get_or self.now n [])) numbers.now }
        ensures rows { IfOk result (λ ranges.
            ranges_rows ranges.items ≡ map (λ n. get_or self.now n []) numbers.now) }
        ensures ranges { IfOk result (λ ranges. (w : ℕ) → All (λ n. length (get_or self.now n []) ≡ w) numbers.now
            → All (IsRange w) ranges.items) }
    {
        let _len = self.len;
        find_ranges(alloc, &self.chunks, numbers)
    }

    /// Where the rows of these numbers lie, which are retained: each by itself.
    pub(crate) fn locations(
        &self,
        alloc: Global,
        numbers: &[usize],
    ) -> Result<StoredLocations<'_>, AllocError>
        requires { All (λ n. 0 < length (get_or self.now n [])) numbers.now }
        ensures rows { IfOk result (λ found.
            located_rows found.batches.items found.locations.items ≡ map (λ n. get_or self.now n []) numbers.now) }
        ensures placed { IfOk result (λ found. (w : ℕ)
            → All (λ n. length (get_or self.now n []) ≡ w) numbers.now
            → All (IsRowAt w found.batches.items) found.locations.items) }
    {
        let _len = self.len;
        locate_rows(alloc, &self.chunks, numbers)
    }

    /// Where the rows of these numbers lie, which are retained: each by itself. Where there is no number, the location
    /// is in no batch.
    pub(crate) fn locations_if(
        &self,
        alloc: Global,
        numbers: &[Option<usize>],
    ) -> Result<StoredLocations<'_>, AllocError>
        requires { All (λ o. IfSome o (λ n. 0 < length (get_or self.now n []))) numbers.now }
        ensures rows { IfOk result (λ found. located_rows found.batches.items found.locations.items
            ≡ map (row_if (λ n. get_or self.now n [])) numbers.now) }
        ensures placed { IfOk result (λ found. (w : ℕ)
            → All (λ o. IfSome o (λ n. length (get_or self.now n []) ≡ w)) numbers.now
            → All (IsLocated w found.batches.items) found.locations.items) }
    {
        let _len = self.len;
        locate_rows_if(alloc, &self.chunks, numbers)
    }
}
