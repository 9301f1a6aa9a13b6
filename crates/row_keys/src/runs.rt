//! Where rows lie in chunks, in runs of consecutive rows.

ghost use Rattle.std.specs.Prelude.{◌≡◌, ℕ, ◌^◌, ◌<◌, ◌≤◌, ◌++◌, All, IfOk, MatchOption, OnOk, [], length, map};
ghost use Rattle.body_writer.specs.RowRanges.{IsRange, ranges_rows};
ghost use Rattle.row_keys.specs.Chunks.{AreChunks, LiesAt, LiesIn, row_in};
ghost use Rattle.row_keys.specs.Runs.{HasRun, IsWideAt, run_rows};
ghost use Rattle.row_keys.specs.Stretches.{IsStretch, IsStretchWith};

use crate::stored_chunk::StoredChunk;
use crate::stored_rows::{Location, chunk_of, index_in};
use crate::stretches::{NO_NUMBERS, Stretch, has_number, row_of, stretch_near};
use body_writer::RowRange;
use std::alloc::{AllocError, Global};

/// Consecutive rows of a chunk: the chunk's index, the first row, and the one after the last.
#[derive(Clone, Copy)]
struct Run {
    chunk: usize,
    from: usize,
    to: usize,
}

/// The index of the chunk that has this number, if there is one. The chunk at index `near` is tried first.
pub(crate) fn chunk_near(chunks: &[StoredChunk], near: usize, number: usize) -> Option<usize>
    requires { (len : ℕ) × AreChunks 0 chunks.now len }
    ensures { MatchOption result (row_in chunks.now number ≡ []) (LiesIn chunks.now number) }
{
    if near < chunks.len() {
        let chunk = &chunks[near];
        if number >= chunk.first && number - chunk.first < chunk.span {
            return Some(near);
        }
    }
    chunk_of(chunks, number)
}

/// Where the row of this number lies, if it is retained. It is looked for at `near` first.
pub(crate) fn locate_near(chunks: &[StoredChunk], near: Location, number: usize) -> Option<Location>
    requires { (len : ℕ) × AreChunks 0 chunks.now len }
    ensures { MatchOption result (row_in chunks.now number ≡ []) (λ at. LiesAt chunks.now number at.chunk at.index) }
{
    let place = chunk_near(chunks, near.chunk, number)?;
    index_in(chunks, place, near.index, number)
}

/// Adds a run to the ranges, unless it has no rows.
fn push_run<'a>(
    chunks: &'a [StoredChunk],
    run: Run,
    ranges: &mut Vec<RowRange<'a>>,
) -> Result<(), AllocError>
    requires order { run.from ≤ run.to }
    requires there { run.from < run.to → HasRun chunks.now run.chunk run.to }
    ensures rows { OnOk result (ranges_rows ranges.new.items
        ≡ ranges_rows ranges.old.items ++ run_rows chunks.now run.chunk run.from run.to) }
    ensures ranges { OnOk result ((w : ℕ) → (run.from < run.to → IsWideAt chunks.now run.chunk w)
        → All (IsRange w) ranges.old.items → All (IsRange w) ranges.new.items) }
{
    if run.from < run.to {
        let chunk = &chunks[run.chunk];
        ranges.push(RowRange {
            batch: &chunk.batch,
            from: run.from,
            to: run.to,
        })?;
    }
    Ok(())
}

/// A stretch that has this number, whose row is retained: this one, if it has it. The row is looked for after the run
/// first.
#[inline(always)]
fn step(chunks: &[StoredChunk], stretch: Stretch, run: Run, number: usize) -> Stretch
    requires chunks { (len : ℕ) × AreChunks 0 chunks.now len }
    requires stretch { IsStretch chunks.now stretch }
    requires kept { 0 < length (row_in chunks.now number) }
    ensures { IsStretchWith chunks.now number result }
{
    if has_number(stretch, number) {
        return stretch;
    }
    let near = Location {
        chunk: run.chunk,
        index: run.to,
    };
    stretch_near(chunks, near, number).unwrap()
}

/// Where the rows of these numbers lie, which are retained, in ranges of consecutive rows.
pub(crate) fn find_ranges<'a>(
    alloc: Global,
    chunks: &'a [StoredChunk],
    numbers: &[usize],
) -> Result<Vec<RowRange<'a>>, AllocError>
    requires chunks { (len : ℕ) × AreChunks 0 chunks.now len × (len < 2 ^ 64) }
    requires kept { All (λ n. 0 < length (row_in chunks.now n)) numbers.now }
    ensures rows { IfOk result (λ ranges. ranges_rows ranges.items ≡ map (row_in chunks.now) numbers.now) }
    ensures ranges { IfOk result (λ ranges. (w : ℕ) → All (λ n. length (row_in chunks.now n) ≡ w) numbers.now
        → All (IsRange w) ranges.items) }
{
    let mut ranges = Vec::new(alloc);
    let mut run = Run {
        chunk: 0,
        from: 0,
        to: 0,
    };
    let mut stretch = NO_NUMBERS;
    for number in numbers {
        stretch = step(chunks, stretch, run, *number);
        let row = row_of(stretch, *number);
        if stretch.chunk == run.chunk && row == run.to {
            run.to += 1;
        } else {
            push_run(chunks, run, &mut ranges)?;
            run = Run {
                chunk: stretch.chunk,
                from: row,
                to: row + 1,
            };
        }
    }
    push_run(chunks, run, &mut ranges)?;
    Ok(ranges)
}
