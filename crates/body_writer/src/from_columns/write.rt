//! Writes the body of a record batch straight from checked columns.

ghost use Rattle.std.specs.Prelude.{◌≡◌, ◌<◌, ◌≤◌, All, IfOk, OnOk, [], ◌∷◌, length, map};
ghost use Rattle.values.specs.Limits.{max_body_size};
ghost use Rattle.values.specs.Rose.{node, kids_of};
ghost use Rattle.values.specs.Layouts.{AreLayouts, Holds, IsLayout, IsNode, offset_bound};
ghost use Rattle.values.specs.Weights.{weights};
ghost use Rattle.values.specs.declared.layout.Layout.TheVariants.{Binary as Bytes};
ghost use Rattle.body_writer.specs.Slots.{total_length};
ghost use Rattle.body_writer.specs.Columns.{nodes, nodes_below, buffers, buffers_below, own_buffers, own_node};
ghost use Rattle.body_writer.specs.Grows.{Grows};
ghost use Rattle.body_writer.specs.Batch.{IsBatch, body_bytes, body_nodes, body_ranges};
ghost use Rattle.body_writer.specs.Segments.{AllLie, IsEncoded, Lies, LiesAs, LiesBelow, OfSlots, segments_cells};
ghost use Rattle.body_writer.specs.RowRanges.{HasColumn, IsRange, column_in, ranges_rows};
ghost use Rattle.body_writer.specs.Texts.{as_bytes};

use crate::body::Body;
use crate::from_columns::batch::RowRange;
use crate::from_columns::children::{child_at, child_segments};
use crate::from_columns::encoded::encoded_cells;
use crate::from_columns::encoded_texts::encoded_texts;
use crate::from_columns::gather::{refs_of, segments_of, values_of};
use crate::from_columns::kinds::model_of;
use crate::from_columns::own::{count_cells, write_own};
use crate::from_columns::segment::Segment;
use crate::from_columns::texts::write_texts;
use crate::from_values::column::write_column_from_values;
use array_layout::{Array, ArrayData};
use std::alloc::{AllocError, Global};
use values::{Layout, LayoutTree, OffsetWidth};

/// Appends column `j` of these rows from copies of its cells.
fn write_copies(
    alloc: Global,
    layout: &LayoutTree,
    ranges: &[RowRange],
    j: usize,
    body: &mut Body,
) -> Result<(), AllocError>
    requires ranges { All (HasColumn j) ranges.now }
    requires layouts { IsLayout layout.now }
    requires held { All (Holds layout.now) (column_in j ranges.now) }
    requires light { weights layout.now (column_in j ranges.now) < offset_bound }
    ensures { OnOk result
        (Grows body.old body.new (nodes layout.now (column_in j ranges.now))
        (buffers layout.now (column_in j ranges.now))) }
{
    let values = values_of(alloc, ranges, j)?;
    let cells = refs_of(alloc, &values)?;
    write_column_from_values(alloc, layout, &cells, body)
}

/// Appends the column of these texts or bytes, which are indices into dictionaries, from slices of the values.
fn write_encoded_texts(
    alloc: Global,
    width: OffsetWidth,
    segments: &[Segment],
    body: &mut Body,
) -> Result<(), AllocError>
    requires encoded { All (OfSlots IsEncoded) segments.now }
    requires few { length (segments_cells segments.now) < offset_bound }
    requires short { total_length (map as_bytes (segments_cells segments.now)) < offset_bound }
    ensures { OnOk result (Grows body.old body.new (own_node (map as_bytes (segments_cells segments.now)) ∷ [])
        (own_buffers (Bytes width) (map as_bytes (segments_cells segments.now)))) }
{
    let texts = encoded_texts(alloc, segments, count_cells(segments))?;
    write_texts(alloc, width, &texts, body)
}

/// Appends the column of these cells, which are indices into dictionaries, from references to the values.
fn write_encoded_values(
    alloc: Global,
    layout: &LayoutTree,
    segments: &[Segment],
    body: &mut Body,
) -> Result<(), AllocError>
    requires layouts { IsLayout layout.now }
    requires encoded { All (OfSlots IsEncoded) segments.now }
    requires held { All (Holds layout.now) (segments_cells segments.now) }
    requires light { weights layout.now (segments_cells segments.now) < offset_bound }
    ensures { OnOk result (Grows body.old body.new (nodes layout.now (segments_cells segments.now))
        (buffers layout.now (segments_cells segments.now))) }
{
    let cells = encoded_cells(alloc, segments, count_cells(segments))?;
    write_column_from_values(alloc, layout, &cells, body)
}

/// Appends the column of these cells, which are indices into dictionaries.
fn write_encoded(
    alloc: Global,
    layout: &LayoutTree,
    segments: &[Segment],
    body: &mut Body,
) -> Result<(), AllocError>
    requires layouts { IsLayout layout.now }
    requires encoded { All (OfSlots IsEncoded) segments.now }
    requires held { All (Holds layout.now) (segments_cells segments.now) }
    requires light { weights layout.now (segments_cells segments.now) < offset_bound }
    ensures { OnOk result (Grows body.old body.new (nodes layout.now (segments_cells segments.now))
        (buffers layout.now (segments_cells segments.now))) }
{
    match layout.layout {
        Layout::Utf8 { offsets } => write_encoded_texts(alloc, offsets, segments, body),
        Layout::Binary { offsets } => write_encoded_texts(alloc, offsets, segments, body),
        Layout::Bool
        | Layout::Int { .. }
        | Layout::Decimal { .. }
        | Layout::FixedSizeBinary { .. }
        | Layout::List { .. }
        | Layout::Struct => write_encoded_values(alloc, layout, segments, body),
    }
}

/// Appends the columns of the children of an array with this layout and these cells. The children's arrays are of the
/// forms of `models`.
#[cycle(column)]
fn write_children(
    alloc: Global,
    layout: Layout,
    children: &[LayoutTree],
    models: &[Array],
    segments: &[Segment],
    body: &mut Body,
) -> Result<(), AllocError>
    requires own { IsNode layout (kids_of children.now) }
    requires layouts { AreLayouts (kids_of children.now) }
    requires models { AllLie (kids_of children.now) (kids_of models.now) (kids_of models.now) }
    requires lie { All (OfSlots (LiesBelow layout (kids_of children.now) (kids_of models.now))) segments.now }
    requires held { All (Holds (node layout (kids_of children.now))) (segments_cells segments.now) }
    requires light { weights (node layout (kids_of children.now)) (segments_cells segments.now) < offset_bound }
    ensures { OnOk result
        (Grows body.old body.new (nodes_below layout 0 (kids_of children.now) (segments_cells segments.now))
        (buffers_below layout 0 (kids_of children.now) (segments_cells segments.now))) }
{
    for j in 0..children.len() {
        let child = &children[j];
        let model = child_at(models, j);
        let below = child_segments(alloc, layout, segments, j)?;
        write_segments(alloc, child, &model.own, &model.children, &below, body)?;
    }
    Ok(())
}

/// Appends the column whose cells lie in these segments, with its children. Their arrays are of the form of `model`,
/// with `models` below it.
#[cycle(column)]
pub(crate) fn write_segments(
    alloc: Global,
    layout: &LayoutTree,
    model: &ArrayData,
    models: &[Array],
    segments: &[Segment],
    body: &mut Body,
) -> Result<(), AllocError>
    requires layouts { IsLayout layout.now }
    requires model { Lies layout.now (node model.now (kids_of models.now)) (node model.now (kids_of models.now)) }
    requires lie { All (LiesAs layout.now (node model.now (kids_of models.now))) segments.now }
    requires held { All (Holds layout.now) (segments_cells segments.now) }
    requires light { weights layout.now (segments_cells segments.now) < offset_bound }
    ensures { OnOk result
        (Grows body.old body.new (nodes layout.now (segments_cells segments.now))
        (buffers layout.now (segments_cells segments.now))) }
{
    if model.dictionary.is_some() {
        return write_encoded(alloc, layout, segments, body);
    }
    write_own(alloc, layout.layout, segments, body)?;
    write_children(
        alloc,
        layout.layout,
        &layout.children,
        models,
        segments,
        body,
    )
}

/// Appends column `j` of these rows.
pub(crate) fn write_column(
    alloc: Global,
    layout: &LayoutTree,
    ranges: &[RowRange],
    j: usize,
    body: &mut Body,
) -> Result<(), AllocError>
    requires ranges { All (HasColumn j) ranges.now }
    requires layouts { IsLayout layout.now }
    requires held { All (Holds layout.now) (column_in j ranges.now) }
    requires light { weights layout.now (column_in j ranges.now) < offset_bound }
    ensures { OnOk result
        (Grows body.old body.new (nodes layout.now (column_in j ranges.now))
        (buffers layout.now (column_in j ranges.now))) }
{
    let segments = segments_of(alloc, ranges, j)?;
    match model_of(&segments, layout) {
        Some(model) => write_segments(alloc, layout, model.own, model.children, &segments, body),
        None => write_copies(alloc, layout, ranges, j, body),
    }
}

/// The body of a record batch of these rows, in columns of these layouts: the same as that of the rows' values, but no
/// values are made. Capacity for `room` bytes of it is reserved at once.
#[tactic(auto, using(crate::proofs::Rows::batch), unfolding(crate::specs::Batch::body_nodes, crate::specs::Batch::body_ranges, crate::specs::Batch::body_bytes))]
pub fn write_body_from_columns(
    alloc: Global,
    layouts: &[LayoutTree],
    ranges: &[RowRange],
    room: usize,
) -> Result<Body, AllocError>
    requires ranges { All (IsRange (length layouts.now)) ranges.now }
    requires batch { IsBatch (kids_of layouts.now) (ranges_rows ranges.now) }
    ensures nodes { IfOk result (λ body. body.nodes.items ≡ body_nodes (kids_of layouts.now) (ranges_rows ranges.now)) }
    ensures ranges { IfOk result
        (λ body. body.ranges.items ≡ body_ranges (kids_of layouts.now) (ranges_rows ranges.now)) }
    ensures bytes { IfOk result (λ body. body.bytes.items ≡ body_bytes (kids_of layouts.now) (ranges_rows ranges.now)) }
    ensures size { IfOk result (λ body. length body.bytes.items ≤ max_body_size) }
{
    let mut body = Body::with_capacity(alloc, room)?;
    for j in 0..layouts.len() {
        write_column(alloc, &layouts[j], ranges, j, &mut body)?;
    }
    Ok(body)
}
