//! A batch of a table of which some columns are coded.

ghost use Rattle.std.specs.Prelude.{◌≡◌, ◌==◌, ◌*◌, ◌^◌, ◌<◌, ◌≤◌, if◌then◌else◌, IfOk, get_or, length, map};
ghost use Rattle.std.specs.List.{position};
ghost use Rattle.values.specs.Coded.{is_coded};
ghost use Rattle.values.specs.Rose.{kids_of, node, none};
ghost use Rattle.body_writer.specs.Batch.{IsBatch, body_bytes, body_nodes, body_ranges};
ghost use Rattle.body_writer.specs.Slots.{cells_of};
ghost use Rattle.stream_writer.specs.Coding.{
  AreTextsIn,
  cells_shown,
  index_layout,
  indexed_layouts,
  indexed_rows,
  indices_at,
};
ghost use Rattle.stream_writer.specs.Stream.{batch_messages};

use crate::dictionary_batch::write_dictionaries;
use crate::encoded::Encoded;
use crate::messages::record_message;
use body_writer::{Body, column_cells, write_column_from_values};
use std::alloc::{AllocError, Global};
use values::{IntWidth, Layout, LayoutTree, Row, Value};

/// The layout of indices.
fn index_tree(alloc: Global) -> LayoutTree
    ensures { result ≡ node index_layout none }
{
    LayoutTree {
        layout: Layout::Int {
            width: IntWidth::Bits32,
            signed: true,
        },
        children: Vec::new(alloc),
    }
}

/// The layout of column `j` as it is written: that of indices where it is coded.
fn layout_shown<'a>(
    layouts: &'a [LayoutTree],
    coded: &[usize],
    indices: &'a LayoutTree,
    j: usize,
) -> &'a LayoutTree
    requires { j < length layouts.now }
    ensures { result.now ≡ (if is_coded coded.now j then indices.now else get_or layouts.now j indices.now) }
{
    if coded.contains(&j) {
        indices
    } else {
        &layouts[j]
    }
}

fn refs_of<'a>(alloc: Global, values: &'a [Value]) -> Result<Vec<Option<&'a Value>>, AllocError>
    ensures { IfOk result (λ cells. cells_of cells.items ≡ values.now) }
{
    let mut cells = Vec::with_capacity(alloc, values.len())?;
    for value in values {
        cells.push(Some(value))?;
    }
    Ok(cells)
}

/// The index of column `j` among the coded ones.
fn place_of(coded: &[usize], j: usize) -> Option<usize>
    ensures { result ≡ position (λ k. k == j) coded.now }
{
    coded.iter().position(|k| *k == j)
}

/// The cells of column `j` as they are written: their indices where it is coded.
fn column_shown<'a>(
    alloc: Global,
    rows: &'a [Row],
    coded: &[usize],
    columns: &'a [Vec<Value>],
    j: usize,
) -> Result<Vec<Option<&'a Value>>, AllocError>
    requires { map (λ column. column.items) columns.now
        ≡ map (λ k. indices_at k (map (λ row. row.items) rows.now)) coded.now }
    ensures { IfOk result
        (λ cells. cells_of cells.items ≡ cells_shown (is_coded coded.now j) j (map (λ row. row.items) rows.now)) }
{
    match place_of(coded, j) {
        Some(place) => refs_of(alloc, &columns[place]),
        None => column_cells(alloc, rows, j),
    }
}

/// The body of a batch of these rows, with indices in the coded columns. Capacity for `room` bytes of it is reserved at
/// once.
fn write_indexed_body(
    alloc: Global,
    layouts: &[LayoutTree],
    rows: &[Row],
    coded: &[usize],
    columns: &[Vec<Value>],
    room: usize,
) -> Result<Body, AllocError>
    requires columns { map (λ column. column.items) columns.now
        ≡ map (λ j. indices_at j (map (λ row. row.items) rows.now)) coded.now }
    requires batch { IsBatch (indexed_layouts coded.now 0 (kids_of layouts.now))
        (indexed_rows coded.now (map (λ row. row.items) rows.now)) }
    ensures nodes { IfOk result (λ body. body.nodes.items
        ≡ body_nodes (indexed_layouts coded.now 0 (kids_of layouts.now))
        (indexed_rows coded.now (map (λ row. row.items) rows.now))) }
    ensures ranges { IfOk result (λ body. body.ranges.items
        ≡ body_ranges (indexed_layouts coded.now 0 (kids_of layouts.now))
        (indexed_rows coded.now (map (λ row. row.items) rows.now))) }
    ensures bytes { IfOk result (λ body. body.bytes.items
        ≡ body_bytes (indexed_layouts coded.now 0 (kids_of layouts.now))
        (indexed_rows coded.now (map (λ row. row.items) rows.now))) }
{
    let indices = index_tree(alloc);
    let mut body = Body::with_capacity(alloc, room)?;
    for j in 0..layouts.len() {
        let layout = layout_shown(layouts, coded, &indices, j);
        let cells = column_shown(alloc, rows, coded, columns, j)?;
        write_column_from_values(alloc, layout, &cells, &mut body)?;
    }
    Ok(body)
}

/// The messages of a batch of these rows: the dictionaries of the coded columns, and the record batch.
pub(crate) fn coded_batch(
    alloc: Global,
    layouts: &[LayoutTree],
    coded: &[usize],
    rows: &[Row],
    room: usize,
) -> Result<Encoded, AllocError>
    requires texts { AreTextsIn coded.now (kids_of layouts.now) }
    requires batch { IsBatch (kids_of layouts.now) (map (λ row. row.items) rows.now) }
    ensures bytes { IfOk result (λ bytes. bytes
        ≡ batch_messages coded.now (kids_of layouts.now) (map (λ row. row.items) rows.now)) }
    ensures size { IfOk result (λ bytes. length bytes ≤ 3 * 2 ^ 38) }
{
    let mut bytes = Vec::new(alloc);
    let columns = write_dictionaries(alloc, coded, rows, &mut bytes)?;
    let body = write_indexed_body(alloc, layouts, rows, coded, &columns, room)?;
    let message = record_message(alloc, rows.len(), body, bytes)?;
    Ok(message)
}
