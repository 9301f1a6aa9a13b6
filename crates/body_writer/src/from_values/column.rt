//! Writes one column of any layout, with its children.

ghost use Rattle.std.specs.Prelude.{◌<◌, ◌≤◌, OnOk, All, length, map, [], ◌∷◌};
ghost use Rattle.values.specs.Rose.{node, none, kids_of};
ghost use Rattle.values.specs.Layouts.{AreLayouts, Holds, IsLayout, IsNode, offset_bound};
ghost use Rattle.values.specs.CellViews.{viewed};
ghost use Rattle.body_writer.specs.Slots.{cells_of, total_length};
ghost use Rattle.body_writer.specs.Columns.{
  value_buffers,
  own_node,
  own_buffers,
  nodes,
  nodes_below,
  buffers,
  buffers_below,
  numbers as numbers_of,
  fixed as fixed_of,
  offsets as offsets_of,
  joined as joined_of,
};
ghost use Rattle.values.specs.Weights.{weights};
ghost use Rattle.body_writer.specs.Grows.{Appends, Grows};

use crate::body::Body;
use crate::from_values::buffers;
use crate::from_values::cell::Cell;
use array_layout::FieldNode;
use std::alloc::{AllocError, Global};
use values::{CellView, Layout, LayoutTree, OffsetWidth, Value};

/// Appends the buffer of whole numbers of `width` bytes.
fn append_numbers<C: Cell>(cells: &[C], width: usize, body: &mut Body) -> Result<(), AllocError>
    requires some { 1 ≤ width }
    requires few { width ≤ 16 }
    ensures { OnOk result (Appends body.old body.new (numbers_of width (map C.datum cells.now) ∷ [])) }
{
    let from = body.bytes.len();
    buffers::push_numbers(&mut body.bytes, cells, width)?;
    body.end_buffer(from)
}

/// Appends the buffer of bytes of a fixed width.
fn append_fixed<C: Cell>(cells: &[C], width: usize, body: &mut Body) -> Result<(), AllocError>
    ensures { OnOk result (Appends body.old body.new (fixed_of width (map C.datum cells.now) ∷ [])) }
{
    let from = body.bytes.len();
    buffers::push_all_fixed(&mut body.bytes, cells, width)?;
    body.end_buffer(from)
}

/// Appends the buffer of offsets.
fn append_offsets<C: Cell>(
    cells: &[C],
    offsets: OffsetWidth,
    body: &mut Body,
) -> Result<(), AllocError>
    requires { total_length (map C.datum cells.now) < offset_bound }
    ensures { OnOk result (Appends body.old body.new (offsets_of offsets (map C.datum cells.now) ∷ [])) }
{
    let from = body.bytes.len();
    buffers::push_offsets(&mut body.bytes, cells, offsets)?;
    body.end_buffer(from)
}

/// Appends the buffer of the bytes of all cells.
fn append_joined<C: Cell>(cells: &[C], body: &mut Body) -> Result<(), AllocError>
    ensures { OnOk result (Appends body.old body.new (joined_of (map C.datum cells.now) ∷ [])) }
{
    let from = body.bytes.len();
    buffers::push_joined(&mut body.bytes, cells)?;
    body.end_buffer(from)
}

/// Appends the offsets and the bytes of texts or of bytes.
fn append_runs<C: Cell>(
    offsets: OffsetWidth,
    cells: &[C],
    body: &mut Body,
) -> Result<(), AllocError>
    requires { total_length (map C.datum cells.now) < offset_bound }
    ensures { OnOk result (Appends body.old body.new
        (offsets_of offsets (map C.datum cells.now) ∷ joined_of (map C.datum cells.now) ∷ [])) }
{
    append_offsets(cells, offsets, body)?;
    append_joined(cells, body)
}

/// Appends the offsets and values of these cells, by layout.
fn append_values<C: Cell>(
    alloc: Global,
    layout: Layout,
    cells: &[C],
    body: &mut Body,
) -> Result<(), AllocError>
    requires few { length cells.now < offset_bound }
    requires short { total_length (map C.datum cells.now) < offset_bound }
    ensures { OnOk result (Appends body.old body.new (value_buffers layout (map C.datum cells.now))) }
{
    match layout {
        Layout::Bool => body.append(buffers::truths(alloc, cells)?.as_bytes()),
        Layout::Int { width, .. } => append_numbers(cells, width.bytes(), body),
        Layout::Decimal { .. } => append_numbers(cells, 16, body),
        Layout::FixedSizeBinary { width } => append_fixed(cells, width as usize, body),
        Layout::Utf8 { offsets } => append_runs(offsets, cells, body),
        Layout::Binary { offsets } => append_runs(offsets, cells, body),
        Layout::List { offsets } => append_offsets(cells, offsets, body),
        Layout::Struct => Ok(()),
    }
}

/// Appends the node and the buffers of an array of these cells, without those of its children.
fn write_own<C: Cell>(
    alloc: Global,
    layout: Layout,
    cells: &[C],
    body: &mut Body,
) -> Result<(), AllocError>
    requires few { length cells.now < offset_bound }
    requires short { total_length (map C.datum cells.now) < offset_bound }
    ensures { OnOk result (Grows body.old body.new
        (own_node (map C.datum cells.now) ∷ []) (own_buffers layout (map C.datum cells.now))) }
{
    body.nodes.push(FieldNode {
        length: cells.len(),
        nulls: buffers::count_nulls(cells) as i64,
    })?;
    body.append(buffers::validity(alloc, cells)?.as_bytes())?;
    append_values(alloc, layout, cells, body)
}

/// Appends the columns of the children of an array with this layout and these cells.
#[cycle(column)]
fn write_children(
    alloc: Global,
    layout: Layout,
    children: &[LayoutTree],
    cells: &[Option<&Value>],
    body: &mut Body,
) -> Result<(), AllocError>
    requires own { IsNode layout (kids_of children.now) }
    requires layouts { AreLayouts (kids_of children.now) }
    requires held { All (Holds (node layout (kids_of children.now))) (cells_of cells.now) }
    requires light { weights (node layout (kids_of children.now)) (cells_of cells.now) < offset_bound }
    ensures { OnOk result (Grows body.old body.new (nodes_below layout 0 (kids_of children.now) (cells_of cells.now))
        (buffers_below layout 0 (kids_of children.now) (cells_of cells.now))) }
{
    for j in 0..children.len() {
        let child = &children[j];
        let below = buffers::child_cells(alloc, layout, cells, j)?;
        write_column_from_values(alloc, child, &below, body)?;
    }
    Ok(())
}

/// Appends the column of these cells: its nodes, and its buffers, each with zeros up to a multiple of 8. `None` is a
/// null cell, as below a null struct.
///
/// Where memory is refused the body may hold a part of the column, and must not be used.
#[cycle(column)]
pub fn write_column_from_values(
    alloc: Global,
    layout: &LayoutTree,
    cells: &[Option<&Value>],
    body: &mut Body,
) -> Result<(), AllocError>
    requires layouts { IsLayout layout.now }
    requires held { All (Holds layout.now) (cells_of cells.now) }
    requires light { weights layout.now (cells_of cells.now) < offset_bound }
    ensures { OnOk result
        (Grows body.old body.new (nodes layout.now (cells_of cells.now)) (buffers layout.now (cells_of cells.now))) }
{
    write_own(alloc, layout.layout, cells, body)?;
    write_children(alloc, layout.layout, &layout.children, cells, body)
}

/// Appends the column of these cells, which are read where they lie, of a layout without children: its node, and its
/// buffers, each with zeros up to a multiple of 8.
///
/// Where memory is refused the body may hold a part of the column, and must not be used.
pub fn write_column_from_cells(
    alloc: Global,
    layout: Layout,
    cells: &[CellView<'_>],
    body: &mut Body,
) -> Result<(), AllocError>
    requires layouts { IsLayout (node layout none) }
    requires held { All (Holds (node layout none)) (map viewed cells.now) }
    requires light { weights (node layout none) (map viewed cells.now) < offset_bound }
    ensures { OnOk result (Grows body.old body.new (nodes (node layout none) (map viewed cells.now))
        (buffers (node layout none) (map viewed cells.now))) }
{
    write_own(alloc, layout, cells, body)
}
