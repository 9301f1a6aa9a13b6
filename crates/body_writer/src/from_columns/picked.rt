//! Writes some columns of rows.

ghost use Rattle.std.specs.Prelude.{◌≡◌, ℕ, ◌≤◌, IfOk, length};
ghost use Rattle.values.specs.Limits.{max_body_size};
ghost use Rattle.values.specs.Rose.{kids_of};
ghost use Rattle.body_writer.specs.Batch.{IsBatch, body_bytes, body_nodes, body_ranges};
ghost use Rattle.body_writer.specs.RowRanges.{ranges_rows};
ghost use Rattle.body_writer.specs.Picked.{HaveColumns, picked_rows};

use crate::body::Body;
use crate::from_columns::batch::RowRange;
use crate::from_columns::write::write_column;
use std::alloc::{AllocError, Global};
use values::LayoutTree;

/// The body of a record batch of the cells of these rows in the columns at these positions, which have these layouts.
/// No other column is read. Capacity for `room` bytes of it is reserved at once.
#[tactic(auto, using(crate::proofs::Rows::batch), unfolding(crate::specs::Batch::body_nodes, crate::specs::Batch::body_ranges, crate::specs::Batch::body_bytes))]
pub fn write_body_from_picked_columns(
    alloc: Global,
    layouts: &[LayoutTree],
    columns: &[usize],
    ranges: &[RowRange],
    room: usize,
) -> Result<Body, AllocError>
    requires many { length columns.now ≡ length layouts.now }
    requires ranges { (n : ℕ) × HaveColumns n columns.now ranges.now }
    requires batch { IsBatch (kids_of layouts.now) (picked_rows columns.now (ranges_rows ranges.now)) }
    ensures nodes { IfOk result (λ body.
        body.nodes.items ≡ body_nodes (kids_of layouts.now) (picked_rows columns.now (ranges_rows ranges.now))) }
    ensures ranges { IfOk result (λ body.
        body.ranges.items ≡ body_ranges (kids_of layouts.now) (picked_rows columns.now (ranges_rows ranges.now))) }
    ensures bytes { IfOk result (λ body.
        body.bytes.items ≡ body_bytes (kids_of layouts.now) (picked_rows columns.now (ranges_rows ranges.now))) }
    ensures size { IfOk result (λ body. length body.bytes.items ≤ max_body_size) }
{
    let mut body = Body::with_capacity(alloc, room)?;
    for j in 0..layouts.len() {
        write_column(alloc, &layouts[j], ranges, columns[j], &mut body)?;
    }
    Ok(body)
}
