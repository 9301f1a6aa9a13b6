//! Rows whose cells lie elsewhere, column by column.

ghost use Rattle.std.specs.Prelude.{◌≡◌, ℕ, ◌+◌, ◌*◌, ◌^◌, ◌<◌, ◌≤◌, [], All, IfOk, length, map, take, true};
ghost use Rattle.values.specs.CellViews.{viewed};
ghost use Rattle.values.specs.Layouts.{weight as weight_by};
ghost use Rattle.values.specs.Limits.{max_body_size, max_fields, max_row_weight};
ghost use Rattle.values.specs.Rose.{kids_of, node, none};
ghost use Rattle.schema_meta.specs.Rows.{row_at};
ghost use Rattle.body_writer.specs.Batch.{IsBatch, body_bytes, body_nodes, body_ranges, row_weight};
ghost use Rattle.stream_writer.specs.BatchRows.{max_light_row};
ghost use Rattle.stream_writer.specs.Stream.{batch_len, batch_messages, trees};
ghost use Rattle.stream_writer.specs.ViewedRows.{AreFlat, FitsViews, viewed_columns, views_left};

use crate::encoded::Encoded;
use crate::encoded_schema::EncodedSchema;
use crate::messages::record_message;
use crate::rows::RowSource;
use body_writer::{Body, MAX_LIGHT_ROW, write_column_from_cells};
use std::alloc::{AllocError, Global};
use values::limits::{MAX_BATCH_ROWS, MAX_BATCH_WEIGHT};
use values::{CellView, Layout, LayoutTree};

/// The `left` rows of these columns from row `from` on. There are neither lists nor structs among their cells.
#[derive(Drop)]
pub(crate) struct ViewedRows<'a, 'b> {
    pub columns: &'a [Vec<CellView<'b>>],
    pub from: usize,
    pub left: usize,
}

/// Whether no column of a schema is of lists or of structs with fields.
#[tactic(auto, using(crate::proofs::ViewLemmas::flat))]
pub fn has_flat_columns(schema: &EncodedSchema) -> bool
    ensures { result ≡ true → AreFlat (trees schema.now.fields.items) }
{
    let schema = schema.schema();
    for field in &schema.fields {
        if !field.children.is_empty() {
            return false;
        }
    }
    true
}

/// The weight of a cell of a layout without children.
fn weigh_cell(layout: Layout, cell: CellView<'_>) -> u64
    ensures { result ≡ weight_by (node layout none) (viewed cell.entry) }
{
    match (layout, cell) {
        (Layout::Utf8 { .. }, CellView::Utf8(text)) => 5 + text.len() as u64,
        (Layout::Binary { .. }, CellView::Binary(bytes)) => 5 + bytes.len() as u64,
        _ => layout.own_null_weight(),
    }
}

/// The weight of row `index`, which isn't too heavy.
fn weigh_row(layouts: &[LayoutTree], columns: &[Vec<CellView<'_>>], index: usize) -> u64
    requires flat { AreFlat (kids_of layouts.now) }
    requires many { length columns.now ≡ length layouts.now }
    requires there { All (λ c. index < length c.items) columns.now }
    requires light { row_weight (kids_of layouts.now) (row_at (viewed_columns columns.now) index) ≤ max_row_weight }
    ensures { result ≡ row_weight (kids_of layouts.now) (row_at (viewed_columns columns.now) index) }
{
    let mut sum = 0;
    for j in 0..layouts.len() {
        let tree = &layouts[j];
        sum += weigh_cell(tree.layout, columns[j][index]);
    }
    sum
}

/// An upper bound on the weights of these cells in a layout without children.
fn bound_cells(layout: Layout, cells: &[CellView<'_>]) -> u64
    ensures { All (λ cell. weight_by (node layout none) (viewed cell) ≤ result) cells.now }
{
    let mut most = 0u64;
    for cell in cells {
        most = most.max(weigh_cell(layout, *cell));
    }
    most
}

/// Whether each of the next `count` rows is so light that a batch of 1,024 of them is within the limit on weight. Each
/// column is read once.
fn are_light(layouts: &[LayoutTree], rows: &ViewedRows<'_, '_>, count: usize) -> bool
    requires fits { FitsViews layouts.now rows.now }
    requires within { count ≤ rows.now.left }
    ensures { result ≡ true → (k : ℕ) → k < count
        → row_weight (kids_of layouts.now) (row_at (viewed_columns rows.now.columns.now) (rows.now.from + k))
        ≤ max_light_row }
{
    let to = rows.from + count;
    let mut sum = 0u64;
    for j in 0..layouts.len() {
        let cells = &rows.columns[j][rows.from..to];
        let tree = &layouts[j];
        sum = sum.saturating_add(bound_cells(tree.layout, cells));
        if sum > MAX_LIGHT_ROW {
            return false;
        }
    }
    true
}

/// How many rows the next batch has: as many as are within the limits on rows and on weight.
fn count_fitting(layouts: &[LayoutTree], rows: &ViewedRows<'_, '_>) -> usize
    requires fits { FitsViews layouts.now rows.now }
    requires light { All (λ row. row_weight (kids_of layouts.now) row ≤ max_row_weight) (views_left rows.now) }
    ensures value { result ≡ batch_len (kids_of layouts.now) (views_left rows.now) }
    ensures bound { result ≤ length (views_left rows.now) }
{
    let most = rows.left.min(MAX_BATCH_ROWS);
    if are_light(layouts, rows, most) {
        return most;
    }
    let mut room = MAX_BATCH_WEIGHT;
    for count in 0..most {
        let weight = weigh_row(layouts, rows.columns, rows.from + count);
        if room < weight {
            return count;
        }
        room -= weight;
    }
    most
}

/// The body of a batch of the first `count` of these rows. Capacity for `room` bytes of it is reserved at once.
fn write_body(
    alloc: Global,
    layouts: &[LayoutTree],
    rows: &ViewedRows<'_, '_>,
    count: usize,
    room: usize,
) -> Result<Body, AllocError>
    requires fits { FitsViews layouts.now rows.now }
    requires within { count ≤ length (views_left rows.now) }
    requires batch { IsBatch (kids_of layouts.now) (take count (views_left rows.now)) }
    ensures nodes { IfOk result (λ body.
        body.nodes.items ≡ body_nodes (kids_of layouts.now) (take count (views_left rows.now))) }
    ensures ranges { IfOk result (λ body.
        body.ranges.items ≡ body_ranges (kids_of layouts.now) (take count (views_left rows.now))) }
    ensures bytes { IfOk result (λ body.
        body.bytes.items ≡ body_bytes (kids_of layouts.now) (take count (views_left rows.now))) }
{
    let to = rows.from + count;
    let mut body = Body::with_capacity(alloc, room)?;
    for j in 0..layouts.len() {
        let cells = &rows.columns[j][rows.from..to];
        let tree = &layouts[j];
        write_column_from_cells(alloc, tree.layout, cells, &mut body)?;
    }
    Ok(body)
}

/// The RecordBatch message of the first `count` of these rows. Capacity for `room` bytes of its body is reserved at
/// once.
fn encode_views(
    alloc: Global,
    layouts: &[LayoutTree],
    rows: &ViewedRows<'_, '_>,
    count: usize,
    room: usize,
) -> Result<Encoded, AllocError>
    requires fits { FitsViews layouts.now rows.now }
    requires within { count ≤ length (views_left rows.now) }
    requires batch { IsBatch (kids_of layouts.now) (take count (views_left rows.now)) }
    ensures bytes { IfOk result (λ bytes. bytes
        ≡ batch_messages [] (kids_of layouts.now) (take count (views_left rows.now))) }
    ensures size { IfOk result (λ bytes. length bytes ≤ 2 ^ 29) }
{
    let body = write_body(alloc, layouts, rows, count, room)?;
    let message = record_message(alloc, count, body, Vec::new(alloc))?;
    Ok(message)
}

impl<'a, 'b> RowSource for ViewedRows<'a, 'b> {
    ghost use Rattle.std.specs.Prelude.{[]};
    ghost use Rattle.stream_writer.specs.ViewedRows.{FitsViews, views_left};

    ghost rows = { views_left };

    ghost coded = { λ r. [] };

    ghost fits = { λ r ls. FitsViews ls r };

    fn is_empty(&self) -> bool {
        self.left == 0
    }

    fn len(&self) -> usize {
        self.left
    }

    fn len_of_batch(&self, layouts: &[LayoutTree]) -> usize {
        count_fitting(layouts, self)
    }

    fn encode_batch(
        &self,
        alloc: Global,
        layouts: &[LayoutTree],
        count: usize,
        room: usize,
    ) -> Result<Encoded, AllocError> {
        encode_views(alloc, layouts, self, count, room)
    }

    fn skip(&mut self, count: usize) {
        self.from += count;
        self.left -= count;
    }
}
