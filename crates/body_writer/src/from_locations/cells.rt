//! Single cells of rows at locations: where they lie, or copies of them.

ghost use Rattle.std.specs.Prelude.{◌≡◌, ℕ, ◌+◌, ◌++◌, ◌<◌, All, IfOk, OnOk, get_or};
ghost use Rattle.values.specs.Datum.{null};
ghost use Rattle.body_writer.specs.Segments.{HasWidth, OfSlots, segment_cells, segments_cells};
ghost use Rattle.body_writer.specs.Locations.{HaveCells, IsLocated, cells_at, located_row};
ghost use Rattle.body_writer.specs.RowRuns.{places_in};

use crate::from_columns::batch::{Batch, RowRange};
use crate::from_columns::gather::slots_in;
use crate::from_columns::segment::Segment;
use crate::from_locations::location::RowLocation;
use std::alloc::{AllocError, Global};
use values::{Kind, Value};

/// Consecutive rows of the batch at an index in a list of batches: from row `from` up to, and without, row `to`.
#[derive(Clone, Copy)]
struct RowRun {
    batch: usize,
    from: usize,
    to: usize,
}

/// The row after the one at a location.
fn row_after(place: &RowLocation) -> Result<usize, AllocError>
    ensures { IfOk result (λ row. row ≡ place.now.row + 1) }
{
    place.row.checked_add(1).ok_or(AllocError)
}

/// Where the cells of column `j` of a run of rows lie; nulls where there is no such batch.
fn segment_of<'a>(batches: &[&'a Batch], run: RowRun, j: usize) -> Segment<'a>
    requires rows { run.from < run.to }
    requires have { HaveCells j batches.now (places_in run) }
    ensures width { OfSlots HasWidth result }
    ensures cells { segment_cells result ≡ cells_at j batches.now (places_in run) }
{
    let RowRun { batch, from, to } = run;
    match batches.get(batch) {
        Some(batch) => Segment::Slots(slots_in(&RowRange { batch, from, to }, j)),
        None => Segment::Nulls(to - from),
    }
}

/// Adds where the cells of column `j` of a run lie, unless it has no rows.
fn push_run<'a>(
    batches: &[&'a Batch],
    run: RowRun,
    j: usize,
    segments: &mut Vec<Segment<'a>>,
) -> Result<(), AllocError>
    requires { HaveCells j batches.now (places_in run) }
    ensures cells { OnOk result
        (segments_cells segments.new.items ≡ segments_cells segments.old.items ++ cells_at j batches.now (places_in run)) }
    ensures width { OnOk result
        (All (OfSlots HasWidth) segments.old.items → All (OfSlots HasWidth) segments.new.items) }
{
    if run.from < run.to {
        segments.push(segment_of(batches, run, j))?;
    }
    Ok(())
}

/// Where the cells of column `j` lie, those of consecutive rows together.
pub(crate) fn segments_at<'a>(
    alloc: Global,
    batches: &[&'a Batch],
    locations: &[RowLocation],
    j: usize,
) -> Result<Vec<Segment<'a>>, AllocError>
    requires { HaveCells j batches.now locations.now }
    ensures segments { IfOk result (λ segments. All (OfSlots HasWidth) segments.items) }
    ensures cells { IfOk result (λ segments. segments_cells segments.items ≡ cells_at j batches.now locations.now) }
{
    let mut segments = Vec::new(alloc);
    let mut run = RowRun {
        batch: 0,
        from: 0,
        to: 0,
    };
    for place in locations {
        let next = row_after(place)?;
        if place.batch == run.batch && place.row == run.to {
            run.to = next;
        } else {
            push_run(batches, run, j, &mut segments)?;
            run = RowRun {
                batch: place.batch,
                from: place.row,
                to: next,
            };
        }
    }
    push_run(batches, run, j, &mut segments)?;
    Ok(segments)
}

/// A copy of the cell in column `j` of the row at a location; a null where there is no such batch.
pub fn copy_cell(
    alloc: Global,
    batches: &[&Batch],
    place: &RowLocation,
    j: usize,
) -> Result<Value, AllocError>
    requires { (n : ℕ) × (j < n) × IsLocated n batches.now place.now }
    ensures { IfOk result (λ cell. cell ≡ get_or (located_row batches.now place.now) j null) }
{
    match batches.get(place.batch) {
        Some(batch) => batch.columns[j].cell(alloc, place.row),
        None => Ok(Value { kind: Kind::Null }),
    }
}

/// Copies of the cells of column `j`.
pub(crate) fn copies_at(
    alloc: Global,
    batches: &[&Batch],
    locations: &[RowLocation],
    j: usize,
) -> Result<Vec<Value>, AllocError>
    requires { HaveCells j batches.now locations.now }
    ensures { IfOk result (λ cells. cells.items ≡ cells_at j batches.now locations.now) }
{
    let mut cells = Vec::with_capacity(alloc, locations.len())?;
    for place in locations {
        cells.push(copy_cell(alloc, batches, place, j)?)?;
    }
    Ok(cells)
}
