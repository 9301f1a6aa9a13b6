//! Counts fields before any is read. Elements of a vector may share a table, so that few bytes can describe very many
//! fields: counting stops as soon as they are too many.
ghost use Rattle.std.specs.Prelude.{◌≡◌, ◌+◌, ◌<◌, MatchOption};
ghost use Rattle.schema_meta.specs.Totals.{total, total_at};

use field_types::read_kind;
use field_types::schema_fbs::FIELD_CHILDREN;
use flatbuf::VectorRef;

/// `room` less the number of fields of a vector and of all below them, of at most `depth` levels; `None` where they are
/// more than `room`.
#[cycle(count)]
#[tactic(auto, using(crate::proofs::Sums::sums))]
pub(crate) fn count(vector: &VectorRef, depth: u8, room: usize) -> Option<usize>
    ensures { MatchOption result (room < total depth vector.now) (λ left. left + total depth vector.now ≡ room) }
{
    if depth == 0 {
        return Some(room);
    }
    let mut left = room.checked_sub(vector.len())?;
    for index in 0..vector.len() {
        left = count_below(vector, index, depth - 1, left)?;
    }
    Some(left)
}

/// The same for the fields below field `index` alone.
#[cycle(count)]
#[tactic(auto, unfolding(crate::specs::Totals::total_at, crate::specs::Fields::child_at))]
fn count_below(vector: &VectorRef, index: usize, depth: u8, room: usize) -> Option<usize>
    requires { index < vector.now.count }
    ensures { MatchOption result (room < total_at (total depth) vector.now index)
        (λ left. left + total_at (total depth) vector.now index ≡ room) }
{
    let Ok(table) = vector.table(index) else {
        return Some(room);
    };
    if read_kind(&table).is_err() {
        return Some(room);
    }
    match table.vector(FIELD_CHILDREN) {
        Ok(Some(children)) => count(&children, depth, room),
        _ => Some(room),
    }
}
