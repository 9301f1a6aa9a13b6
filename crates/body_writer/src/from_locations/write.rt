//! Writes columns of rows at single locations.

ghost use Rattle.std.specs.Prelude.{◌≡◌, ℕ, ◌<◌, ◌≤◌, All, IfOk, List, OnOk, [], ◌∷◌, length, map, true};
ghost use Rattle.std.specs.List.{flat_map};
ghost use Rattle.values.specs.Datum.{Datum};
ghost use Rattle.values.specs.Limits.{max_body_size};
ghost use Rattle.values.specs.Rose.{kids_of};
ghost use Rattle.values.specs.Layouts.{Holds, IsLayout, offset_bound};
ghost use Rattle.values.specs.Weights.{weights};
ghost use Rattle.values.specs.declared.layout.Layout.{Layout as Layouts};
ghost use Rattle.values.specs.declared.layout.Layout.TheVariants.{Binary as Bytes, Bool as Booleans};
ghost use Rattle.body_writer.specs.Slots.{total_length};
ghost use Rattle.body_writer.specs.Columns.{
  buffers,
  nodes,
  own_buffers,
  own_node,
  validity as validity_of,
};
ghost use Rattle.body_writer.specs.Grows.{Appends, Grows};
ghost use Rattle.body_writer.specs.Runs.{fixed_buffers, slot_bytes};
ghost use Rattle.body_writer.specs.Batch.{body_bytes, body_nodes, body_ranges};
ghost use Rattle.body_writer.specs.Texts.{as_bytes};
ghost use Rattle.body_writer.specs.Locations.{
  Fits,
  HaveColumn,
  IsLeaf,
  IsReady,
  IsTexts,
  IsWritable,
  MakeBatch,
  column_at,
  column_cells,
  layout_of,
  located_cells,
};

use crate::body::Body;
use crate::from_columns::gather::refs_of;
use crate::from_columns::kinds::model_of;
use crate::from_columns::slot_runs::slot_width;
use crate::from_columns::texts::write_texts;
use crate::from_columns::write::write_segments;
use crate::from_locations::cells::{copies_at, segments_at};
use crate::from_locations::gather::{count_nulls, push_slots, texts, truths, validity};
use crate::from_locations::location::{LocatedRows, RowLocation};
use crate::from_locations::plain::{BatchArrays, PlainArray};
use crate::from_values::column::write_column_from_values;
use array_layout::FieldNode;
use std::alloc::{AllocError, Global};
use values::{Layout, LayoutTree, OffsetWidth};

/// A column of rows at single locations, and the arrays in which its cells lie.
#[derive(Clone, Copy)]
pub struct LocatedColumn<'a> {
    pub arrays: &'a BatchArrays<'a>,
    pub rows: LocatedRows<'a>,
}

/// Appends the node and the validity of these cells.
fn write_validity(
    alloc: Global,
    arrays: &[Option<PlainArray>],
    locations: &[RowLocation],
    body: &mut Body,
) -> Result<(), AllocError>
    requires fits { (l : Layouts) × All (Fits l arrays.now) locations.now }
    requires few { length locations.now < offset_bound }
    ensures { OnOk result
        (Grows body.old body.new (own_node (located_cells arrays.now locations.now) ∷ [])
        (validity_of (located_cells arrays.now locations.now) ∷ [])) }
{
    let nulls = count_nulls(arrays, locations);
    body.nodes.push(FieldNode {
        length: locations.len(),
        nulls: nulls as i64,
    })?;
    body.append(validity(alloc, arrays, locations, nulls)?.as_bytes())
}

/// Appends the buffer of cells of a fixed width.
fn append_slots(
    alloc: Global,
    layout: Layout,
    arrays: &[Option<PlainArray>],
    locations: &[RowLocation],
    body: &mut Body,
) -> Result<(), AllocError>
    requires { All (Fits layout arrays.now) locations.now }
    ensures { OnOk result
        (Appends body.old body.new (flat_map (slot_bytes layout) (located_cells arrays.now locations.now) ∷ [])) }
{
    let from = body.bytes.len();
    body.bytes
        .reserve(slot_width(layout).saturating_mul(locations.len()))?;
    push_slots(alloc, &mut body.bytes, layout, arrays, locations)?;
    body.end_buffer(from)
}

/// Appends the column of cells of a fixed width.
fn write_slots(
    alloc: Global,
    layout: Layout,
    arrays: &[Option<PlainArray>],
    locations: &[RowLocation],
    body: &mut Body,
) -> Result<(), AllocError>
    requires fits { All (Fits layout arrays.now) locations.now }
    requires few { length locations.now < offset_bound }
    ensures { OnOk result
        (Grows body.old body.new (own_node (located_cells arrays.now locations.now) ∷ [])
        (fixed_buffers layout (located_cells arrays.now locations.now))) }
{
    write_validity(alloc, arrays, locations, body)?;
    append_slots(alloc, layout, arrays, locations, body)
}

/// Appends the column of these bools.
fn write_bits(
    alloc: Global,
    arrays: &[Option<PlainArray>],
    locations: &[RowLocation],
    body: &mut Body,
) -> Result<(), AllocError>
    requires fits { All (Fits Booleans arrays.now) locations.now }
    requires few { length locations.now < offset_bound }
    ensures { OnOk result
        (Grows body.old body.new (own_node (located_cells arrays.now locations.now) ∷ [])
        (own_buffers Booleans (located_cells arrays.now locations.now))) }
{
    write_validity(alloc, arrays, locations, body)?;
    body.append(truths(alloc, arrays, locations)?.as_bytes())
}

/// Appends the column of these texts or bytes, from slices of them.
fn write_slices(
    alloc: Global,
    width: OffsetWidth,
    arrays: &[Option<PlainArray>],
    locations: &[RowLocation],
    body: &mut Body,
) -> Result<(), AllocError>
    requires fits { (l : Layouts) × IsTexts l × All (Fits l arrays.now) locations.now }
    requires few { length locations.now < offset_bound }
    requires short { total_length (map as_bytes (located_cells arrays.now locations.now)) < offset_bound }
    ensures { OnOk result
        (Grows body.old body.new (own_node (map as_bytes (located_cells arrays.now locations.now)) ∷ [])
        (own_buffers (Bytes width) (map as_bytes (located_cells arrays.now locations.now)))) }
{
    let slices = texts(alloc, arrays, locations)?;
    write_texts(alloc, width, &slices, body)
}

/// Appends column `j` of these rows from copies of its cells.
fn write_copies(
    alloc: Global,
    layout: &LayoutTree,
    j: usize,
    rows: &LocatedRows,
    body: &mut Body,
) -> Result<(), AllocError>
    requires have { HaveColumn j rows.now }
    requires layouts { IsLayout layout.now }
    requires held { All (Holds layout.now) (column_at j rows.now) }
    requires light { weights layout.now (column_at j rows.now) < offset_bound }
    ensures { OnOk result
        (Grows body.old body.new (nodes layout.now (column_at j rows.now))
        (buffers layout.now (column_at j rows.now))) }
{
    let values = copies_at(alloc, rows.batches, rows.locations, j)?;
    let cells = refs_of(alloc, &values)?;
    write_column_from_values(alloc, layout, &cells, body)
}

/// Appends column `j` of these rows, run by run.
fn write_cells(
    alloc: Global,
    layout: &LayoutTree,
    j: usize,
    rows: &LocatedRows,
    body: &mut Body,
) -> Result<(), AllocError>
    requires have { HaveColumn j rows.now }
    requires layouts { IsLayout layout.now }
    requires held { All (Holds layout.now) (column_at j rows.now) }
    requires light { weights layout.now (column_at j rows.now) < offset_bound }
    ensures { OnOk result
        (Grows body.old body.new (nodes layout.now (column_at j rows.now))
        (buffers layout.now (column_at j rows.now))) }
{
    let segments = segments_at(alloc, rows.batches, rows.locations, j)?;
    match model_of(&segments, layout) {
        Some(model) => write_segments(alloc, layout, model.own, model.children, &segments, body),
        None => write_copies(alloc, layout, j, rows, body),
    }
}

/// Whether arrays of this layout have no children.
fn is_leaf(layout: Layout) -> bool
    ensures { result ≡ true → IsLeaf layout }
{
    !matches!(layout, Layout::List { .. } | Layout::Struct)
}

/// Whether the arrays are plain ones of this layout, and have no children.
fn is_ready(arrays: &BatchArrays, layout: &LayoutTree) -> bool
    ensures { result ≡ true → IsReady layout.now arrays.now }
{
    arrays.is_plain && arrays.layout == layout.layout && is_leaf(arrays.layout)
}

/// How many rows a run of consecutive rows has at least, on average, where cells are written run by run.
const RUN_ROWS: usize = 16;

/// Whether a row is the one after another in the same batch.
fn follows(place: &RowLocation, before: &RowLocation) -> bool {
    place.batch == before.batch && before.row.checked_add(1) == Some(place.row)
}

/// Whether rows at these locations lie in few runs of consecutive rows.
fn are_in_runs(locations: &[RowLocation]) -> bool {
    let most = locations.len() / RUN_ROWS;
    let mut turns = 0usize;
    for i in 1..locations.len() {
        if !follows(&locations[i], &locations[i - 1]) {
            turns = turns.saturating_add(1);
            if turns > most {
                return false;
            }
        }
    }
    true
}

/// Whether the cells are gathered one by one: the arrays are plain ones of this layout, without children, and the rows
/// lie scattered.
fn is_gathered(arrays: &BatchArrays, layout: &LayoutTree, locations: &[RowLocation]) -> bool
    ensures { result ≡ true → IsReady layout.now arrays.now }
{
    is_ready(arrays, layout) && !are_in_runs(locations)
}

/// Appends the column of these cells, which have no children.
fn write_gathered(
    alloc: Global,
    layout: &LayoutTree,
    arrays: &[Option<PlainArray>],
    locations: &[RowLocation],
    body: &mut Body,
) -> Result<(), AllocError>
    requires leaf { IsLeaf (layout_of layout.now) }
    requires fits { All (Fits (layout_of layout.now) arrays.now) locations.now }
    requires layouts { IsLayout layout.now }
    requires held { All (Holds layout.now) (located_cells arrays.now locations.now) }
    requires light { weights layout.now (located_cells arrays.now locations.now) < offset_bound }
    ensures { OnOk result
        (Grows body.old body.new (nodes layout.now (located_cells arrays.now locations.now))
        (buffers layout.now (located_cells arrays.now locations.now))) }
{
    match layout.layout {
        Layout::Utf8 { offsets } => write_slices(alloc, offsets, arrays, locations, body),
        Layout::Binary { offsets } => write_slices(alloc, offsets, arrays, locations, body),
        Layout::Bool => write_bits(alloc, arrays, locations, body),
        Layout::Int { .. } => write_slots(alloc, layout.layout, arrays, locations, body),
        Layout::Decimal { .. } => write_slots(alloc, layout.layout, arrays, locations, body),
        Layout::FixedSizeBinary { .. } => write_slots(
            alloc,
            layout.layout,
            arrays,
            locations,
            body,
        ),
        Layout::List { .. } | Layout::Struct => unreachable!(),
    }
}

/// Appends a column.
fn write_located(
    alloc: Global,
    layout: &LayoutTree,
    column: &LocatedColumn,
    body: &mut Body,
) -> Result<(), AllocError>
    requires column { IsWritable column.now }
    requires layouts { IsLayout layout.now }
    requires held { All (Holds layout.now) (column_cells column.now) }
    requires light { weights layout.now (column_cells column.now) < offset_bound }
    ensures { OnOk result
        (Grows body.old body.new (nodes layout.now (column_cells column.now))
        (buffers layout.now (column_cells column.now))) }
{
    let arrays = column.arrays;
    if is_gathered(arrays, layout, column.rows.locations) {
        return write_gathered(alloc, layout, &arrays.arrays, column.rows.locations, body);
    }
    write_cells(alloc, layout, arrays.column, &column.rows, body)
}

/// The body of a record batch of these columns, which have these layouts and as many cells each. No other column of the
/// batches is read. Capacity for `room` bytes of it is reserved at once.
pub fn write_body_from_locations(
    alloc: Global,
    layouts: &[LayoutTree],
    columns: &[LocatedColumn],
    room: usize,
) -> Result<Body, AllocError>
    requires many { length columns.now ≡ length layouts.now }
    requires columns { All IsWritable columns.now }
    requires rows { (rows : List (List Datum)) × MakeBatch (kids_of layouts.now) columns.now rows }
    ensures nodes { IfOk result (λ body. (rows : List (List Datum)) → MakeBatch (kids_of layouts.now) columns.now rows
        → body.nodes.items ≡ body_nodes (kids_of layouts.now) rows) }
    ensures ranges { IfOk result (λ body. (rows : List (List Datum)) → MakeBatch (kids_of layouts.now) columns.now rows
        → body.ranges.items ≡ body_ranges (kids_of layouts.now) rows) }
    ensures bytes { IfOk result (λ body. (rows : List (List Datum)) → MakeBatch (kids_of layouts.now) columns.now rows
        → body.bytes.items ≡ body_bytes (kids_of layouts.now) rows) }
    ensures size { IfOk result (λ body. length body.bytes.items ≤ max_body_size) }
{
    let mut body = Body::with_capacity(alloc, room)?;
    for j in 0..layouts.len() {
        write_located(alloc, &layouts[j], &columns[j], &mut body)?;
    }
    Ok(body)
}
