//! Where single rows lie in chunks, each found by its number.

ghost use Rattle.std.specs.Prelude.{◌≡◌, ℕ, ◌<◌, All, IfOk, IfSome, length, map};
ghost use Rattle.body_writer.specs.Locations.{IsLocated, IsRowAt, located_rows};
ghost use Rattle.row_keys.specs.Chunks.{AreChunks, row_in};
ghost use Rattle.row_keys.specs.Locations.{AreAtLocations, AreBatches, IsAtLocation, MayBeAtLocations, row_if};
ghost use Rattle.row_keys.specs.Stretches.{HasNumber, IsStretch, IsStretchWith};

use crate::stored_chunk::StoredChunk;
use crate::stored_rows::Location;
use crate::stretches::{NO_NUMBERS, Stretch, has_number, row_of, stretch_near};
use body_writer::{Batch, RowLocation};
use std::alloc::{AllocError, Global};

/// Batches, and the locations of some rows in them.
#[derive(Drop)]
pub struct StoredLocations<'a> {
    pub batches: Vec<&'a Batch>,
    pub locations: Vec<RowLocation>,
}

/// How many numbers a chunk has on average, and no less than 1.
fn mean_span(chunks: &[StoredChunk]) -> usize
    ensures { 0 < result }
{
    let [.., last] = chunks else {
        return 1;
    };
    let numbers = last.first.saturating_add(last.span);
    numbers.div_ceil(chunks.len().max(1)).max(1)
}

/// Where the row of this number is looked for first: in the chunk at index `near` if that spans the number, and
/// otherwise where it would be if each chunk had this many numbers.
fn likely_location(chunks: &[StoredChunk], near: usize, span: usize, number: usize) -> Location
    requires span { 0 < span }
{
    match chunks.get(near) {
        Some(chunk) if chunk.first <= number && number - chunk.first < chunk.span => Location {
            chunk: near,
            index: number - chunk.first,
        },
        _ => Location {
            chunk: number / span,
            index: number % span,
        },
    }
}

/// A stretch that has this number, whose row is retained: this one, if it has it.
#[inline(always)]
fn step(chunks: &[StoredChunk], stretch: Stretch, span: usize, number: usize) -> Stretch
    requires chunks { (len : ℕ) × AreChunks 0 chunks.now len }
    requires span { 0 < span }
    requires stretch { IsStretch chunks.now stretch }
    requires kept { 0 < length (row_in chunks.now number) }
    ensures { IsStretchWith chunks.now number result }
{
    if has_number(stretch, number) {
        return stretch;
    }
    let near = likely_location(chunks, stretch.chunk, span, number);
    stretch_near(chunks, near, number).unwrap()
}

/// The locations of the rows of these numbers, which are retained.
fn find_locations(
    alloc: Global,
    chunks: &[StoredChunk],
    numbers: &[usize],
) -> Result<Vec<RowLocation>, AllocError>
    requires chunks { (len : ℕ) × AreChunks 0 chunks.now len }
    requires kept { All (λ n. 0 < length (row_in chunks.now n)) numbers.now }
    ensures { IfOk result (λ locations. AreAtLocations chunks.now numbers.now locations.items) }
{
    let span = mean_span(chunks);
    let mut stretch = NO_NUMBERS;
    let mut locations = Vec::with_capacity(alloc, numbers.len())?;
    for number in numbers {
        stretch = step(chunks, stretch, span, *number);
        locations.push(RowLocation {
            batch: stretch.chunk,
            row: row_of(stretch, *number),
        })?;
    }
    Ok(locations)
}

/// The batches of all chunks.
fn batches_of<'a>(alloc: Global, chunks: &'a [StoredChunk]) -> Result<Vec<&'a Batch>, AllocError>
    ensures { IfOk result (λ batches. AreBatches chunks.now batches.items) }
{
    let mut batches = Vec::with_capacity(alloc, chunks.len())?;
    for chunk in chunks {
        batches.push(&chunk.batch)?;
    }
    Ok(batches)
}

/// Where the rows of these numbers lie, which are retained: each by itself.
pub(crate) fn locate_rows<'a>(
    alloc: Global,
    chunks: &'a [StoredChunk],
    numbers: &[usize],
) -> Result<StoredLocations<'a>, AllocError>
    requires chunks { (len : ℕ) × AreChunks 0 chunks.now len }
    requires kept { All (λ n. 0 < length (row_in chunks.now n)) numbers.now }
    ensures rows { IfOk result (λ found.
        located_rows found.batches.items found.locations.items ≡ map (row_in chunks.now) numbers.now) }
    ensures placed { IfOk result (λ found. (w : ℕ) → All (λ n. length (row_in chunks.now n) ≡ w) numbers.now
        → All (IsRowAt w found.batches.items) found.locations.items) }
{
    let batches = batches_of(alloc, chunks)?;
    let locations = find_locations(alloc, chunks, numbers)?;
    Ok(StoredLocations { batches, locations })
}

/// A stretch that has this number, if there is one, whose row is retained: this one, if it has it.
#[inline(always)]
fn step_if(chunks: &[StoredChunk], stretch: Stretch, span: usize, number: Option<usize>) -> Stretch
    requires chunks { (len : ℕ) × AreChunks 0 chunks.now len }
    requires span { 0 < span }
    requires stretch { IsStretch chunks.now stretch }
    requires kept { IfSome number (λ n. 0 < length (row_in chunks.now n)) }
    ensures stretch { IsStretch chunks.now result }
    ensures number { IfSome number (HasNumber result) }
{
    match number {
        Some(number) => step(chunks, stretch, span, number),
        None => stretch,
    }
}

/// The location of the row of this number, which the stretch has; one in no chunk where there is no number.
#[inline(always)]
fn place_if(chunks: &[StoredChunk], stretch: Stretch, number: Option<usize>) -> RowLocation
    requires stretch { IsStretch chunks.now stretch }
    requires number { IfSome number (HasNumber stretch) }
    ensures { IsAtLocation chunks.now number result }
{
    match number {
        Some(number) => RowLocation {
            batch: stretch.chunk,
            row: row_of(stretch, number),
        },
        None => RowLocation {
            batch: chunks.len(),
            row: 0,
        },
    }
}

/// The locations of the rows of these numbers, which are retained; where there is no number, one in no chunk.
fn find_locations_if(
    alloc: Global,
    chunks: &[StoredChunk],
    numbers: &[Option<usize>],
) -> Result<Vec<RowLocation>, AllocError>
    requires chunks { (len : ℕ) × AreChunks 0 chunks.now len }
    requires kept { All (λ o. IfSome o (λ n. 0 < length (row_in chunks.now n))) numbers.now }
    ensures { IfOk result (λ locations. MayBeAtLocations chunks.now numbers.now locations.items) }
{
    let span = mean_span(chunks);
    let mut stretch = NO_NUMBERS;
    let mut locations = Vec::with_capacity(alloc, numbers.len())?;
    for number in numbers {
        stretch = step_if(chunks, stretch, span, *number);
        locations.push(place_if(chunks, stretch, *number))?;
    }
    Ok(locations)
}

/// Where the rows of these numbers lie, which are retained: each by itself. Where there is no number, the location is
/// in no batch.
pub(crate) fn locate_rows_if<'a>(
    alloc: Global,
    chunks: &'a [StoredChunk],
    numbers: &[Option<usize>],
) -> Result<StoredLocations<'a>, AllocError>
    requires chunks { (len : ℕ) × AreChunks 0 chunks.now len }
    requires kept { All (λ o. IfSome o (λ n. 0 < length (row_in chunks.now n))) numbers.now }
    ensures rows { IfOk result (λ found.
        located_rows found.batches.items found.locations.items ≡ map (row_if (row_in chunks.now)) numbers.now) }
    ensures placed { IfOk result (λ found. (w : ℕ)
        → All (λ o. IfSome o (λ n. length (row_in chunks.now n) ≡ w)) numbers.now
        → All (IsLocated w found.batches.items) found.locations.items) }
{
    let batches = batches_of(alloc, chunks)?;
    let locations = find_locations_if(alloc, chunks, numbers)?;
    Ok(StoredLocations { batches, locations })
}
