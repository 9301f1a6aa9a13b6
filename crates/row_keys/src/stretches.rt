//! Stretches: consecutive numbers whose rows lie one after the other in a chunk.

ghost use Rattle.std.specs.Prelude.{◌≡◌, ℕ, ◌+◌, ◌<◌, ◌^◌, [], MatchOption, true, false};
ghost use Rattle.row_keys.specs.Chunks.{AreChunks, LiesAt, row_in};
ghost use Rattle.row_keys.specs.Stretches.{HasNumber, IsStretch, IsStretchWith, row_at};

use crate::runs::locate_near;
use crate::stored_chunk::StoredChunk;
use crate::stored_rows::Location;

/// So many consecutive numbers, from `first` on. Their rows lie one after the other in a chunk, from row `index` on.
#[derive(Clone, Copy)]
pub(crate) struct Stretch {
    pub(crate) chunk: usize,
    pub(crate) first: usize,
    pub(crate) index: usize,
    pub(crate) rows: usize,
}

/// No numbers.
pub(crate) const NO_NUMBERS: Stretch = Stretch {
    chunk: 0,
    first: 0,
    index: 0,
    rows: 0,
};

/// Whether a number is one of those of a stretch.
pub(crate) fn has_number(stretch: Stretch, number: usize) -> bool
    ensures yes { result ≡ true → HasNumber stretch number }
    ensures no { result ≡ false → HasNumber stretch number → ⊥ }
{
    number >= stretch.first && number - stretch.first < stretch.rows
}

/// Where the row of one of the numbers lies in the chunk.
pub(crate) fn row_of(stretch: Stretch, number: usize) -> usize
    requires among { HasNumber stretch number }
    requires small { stretch.index + stretch.rows < 2 ^ 64 }
    ensures { result ≡ row_at stretch number }
{
    stretch.index + (number - stretch.first)
}

/// The stretch around the row of a number, which lies there: all rows of the chunk where their numbers are consecutive,
/// and otherwise that row alone.
fn stretch_at(chunks: &[StoredChunk], at: Location, number: usize) -> Stretch
    requires chunks { (len : ℕ) × AreChunks 0 chunks.now len }
    requires lies { LiesAt chunks.now number at.chunk at.index }
    ensures { IsStretchWith chunks.now number result }
{
    let chunk = &chunks[at.chunk];
    let rows = chunk.gone.len();
    if chunk.numbers.is_empty() {
        Stretch {
            chunk: at.chunk,
            first: chunk.first,
            index: 0,
            rows,
        }
    } else {
        Stretch {
            chunk: at.chunk,
            first: number,
            index: at.index,
            rows: 1,
        }
    }
}

/// The stretch around the row of this number, if it is retained. It is looked for at `near` first.
pub(crate) fn stretch_near(chunks: &[StoredChunk], near: Location, number: usize) -> Option<Stretch>
    requires { (len : ℕ) × AreChunks 0 chunks.now len }
    ensures { MatchOption result (row_in chunks.now number ≡ []) (IsStretchWith chunks.now number) }
{
    let at = locate_near(chunks, near, number)?;
    Some(stretch_at(chunks, at, number))
}
