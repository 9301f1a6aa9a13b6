//! The dictionaries of a batch's coded columns, as messages.

ghost use Rattle.std.specs.Prelude.{◌≡◌, ◌++◌, ◌+◌, ◌*◌, ◌^◌, ◌≤◌, All, IfOk, OnOk, length, map};
ghost use Rattle.values.specs.Limits.{max_body_size, max_fields};
ghost use Rattle.values.specs.Rose.{node, none};
ghost use Rattle.body_writer.specs.Batch.{IsBatch, body_bytes, body_nodes, body_ranges};
ghost use Rattle.body_writer.specs.Slots.{cells_of};
ghost use Rattle.stream_writer.specs.Coding.{
  AreTextCells,
  cells_at,
  indices_at,
  single_rows,
  text_layout,
  value_rows,
  values_at,
};
ghost use Rattle.stream_writer.specs.DictionaryBatch.{text_layouts};
ghost use Rattle.stream_writer.specs.Stream as stream;

use crate::dictionary_builder::code_column;
use crate::messages::append_dictionary;
use body_writer::{Body, column_cells, write_column_from_values};
use std::alloc::{AllocError, Global};
use values::{Layout, LayoutTree, OffsetWidth, Row, Value};

/// The layout of texts.
fn text_tree(alloc: Global) -> LayoutTree
    ensures { result ≡ node text_layout none }
{
    LayoutTree {
        layout: Layout::Utf8 {
            offsets: OffsetWidth::Bits32,
        },
        children: Vec::new(alloc),
    }
}

/// The body of a dictionary batch of these values.
fn write_values(alloc: Global, values: &[Option<&Value>]) -> Result<Body, AllocError>
    requires { IsBatch text_layouts (single_rows (cells_of values.now)) }
    ensures nodes { IfOk result
        (λ body. body.nodes.items ≡ body_nodes text_layouts (single_rows (cells_of values.now))) }
    ensures ranges { IfOk result
        (λ body. body.ranges.items ≡ body_ranges text_layouts (single_rows (cells_of values.now))) }
    ensures bytes { IfOk result
        (λ body. body.bytes.items ≡ body_bytes text_layouts (single_rows (cells_of values.now))) }
    ensures few_nodes { IfOk result (λ body. length body.nodes.items ≤ max_fields) }
    ensures few_ranges { IfOk result (λ body. length body.ranges.items ≤ 3 * max_fields) }
    ensures size { IfOk result (λ body. length body.bytes.items ≤ max_body_size) }
{
    let layout = text_tree(alloc);
    let mut body = Body::new(alloc);
    write_column_from_values(alloc, &layout, values, &mut body)?;
    Ok(body)
}

/// Appends the DictionaryBatch message of column `j` for a batch of these rows, and returns the indices of the column's
/// cells.
fn write_dictionary(
    alloc: Global,
    rows: &[Row],
    j: usize,
    bytes: &mut Vec<u8>,
) -> Result<Vec<Value>, AllocError>
    requires texts { AreTextCells (cells_at j (map (λ row. row.items) rows.now)) }
    requires batch { IsBatch text_layouts (value_rows (values_at j (map (λ row. row.items) rows.now))) }
    ensures indices { IfOk result (λ indices. indices.items ≡ indices_at j (map (λ row. row.items) rows.now)) }
    ensures bytes { OnOk result (bytes.new.items
        ≡ bytes.old.items ++ stream.dictionary_message j (values_at j (map (λ row. row.items) rows.now))) }
    ensures size { OnOk result (length bytes.new.items ≤ length bytes.old.items + 2 ^ 29) }
{
    let cells = column_cells(alloc, rows, j)?;
    let column = code_column(alloc, &cells)?;
    let body = write_values(alloc, &column.values)?;
    append_dictionary(alloc, j, column.values.len(), &body, bytes)?;
    Ok(column.indices)
}

/// Appends the messages of the dictionaries of the coded columns, for a batch of these rows, and returns the indices of
/// each column's cells.
pub(crate) fn write_dictionaries(
    alloc: Global,
    coded: &[usize],
    rows: &[Row],
    bytes: &mut Vec<u8>,
) -> Result<Vec<Vec<Value>>, AllocError>
    requires few { length coded.now ≤ max_fields }
    requires texts { All (λ j. AreTextCells (cells_at j (map (λ row. row.items) rows.now))) coded.now }
    requires batches { All
        (λ j. IsBatch text_layouts (value_rows (values_at j (map (λ row. row.items) rows.now)))) coded.now }
    ensures indices { IfOk result (λ columns. map (λ column. column.items) columns.items
        ≡ map (λ j. indices_at j (map (λ row. row.items) rows.now)) coded.now) }
    ensures bytes { OnOk result (bytes.new.items
        ≡ bytes.old.items ++ stream.dictionary_messages coded.now (map (λ row. row.items) rows.now)) }
    ensures size { OnOk result (length bytes.new.items ≤ length bytes.old.items + 2 ^ 29 * max_fields) }
{
    let mut columns = Vec::with_capacity(alloc, coded.len())?;
    for j in coded {
        columns.push(write_dictionary(alloc, rows, *j, bytes)?)?;
    }
    Ok(columns)
}
