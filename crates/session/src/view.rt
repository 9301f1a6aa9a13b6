//! Writes views.

ghost use Rattle.std.specs.Prelude.{
  ◌≡◌,
  ◌<◌,
  [],
  All,
  IfOk,
  IfSome,
  List,
  false,
  get_or,
  OnOk,
  length,
  map,
  slice_set,
  true,
};
ghost use Rattle.values.specs.CellViews.{viewed};
ghost use Rattle.values.specs.Datum.{Datum};
ghost use Rattle.body_writer.specs.Picked.{picked_rows};
ghost use Rattle.stream_writer.specs.Sinks.{Writes};
ghost use Rattle.stream_writer.specs.Stream.{canon, trees};
ghost use Rattle.stream_writer.specs.Table.{IsTable};
ghost use Rattle.stream_writer.specs.ViewedRows.{AreFlat, viewed_columns};
ghost use Rattle.view_lang.specs.Config.{View};
ghost use Rattle.view_lang.specs.ViewColumns.{view_columns};
ghost use Rattle.row_keys.specs.Slots.{IsLiveAt, row_of};
ghost use Rattle.upkeep.specs.LiveEdits.{NoneBecomesStale};
ghost use Rattle.upkeep.specs.LiveParts.{view_at};
ghost use Rattle.upkeep.specs.Shown.{AreJoined, joined_in};
ghost use Rattle.upkeep.specs.Stores.{HaveSameRows, main_slots, rows_in, tables_in};
ghost use Rattle.upkeep.specs.Touched.{OpensShown};
ghost use Rattle.upkeep.specs.ViewStates.{width_in};
ghost use Rattle.upkeep.specs.ViewedRows.{IsViewed, ShowsView, rows_shown};
ghost use Rattle.session.specs.LentRows.{lent_column, lent_columns};
ghost use Rattle.session.specs.WrittenViews.{IsReadBack, stream_at};

use body_writer::LocatedRows;
use group_state::GroupRow;
use row_keys::Visits;
use std::alloc::{AllocError, Global};
use stream_writer::{
    EncodedSchema, JoinedRows, Sink, WriteFault, coded_law, has_flat_columns, write_cells,
    write_coded, write_locations, write_ranges,
};
use upkeep::{JoinedColumns, LiveTables, Shown, StoredColumns, are_many};
use values::CellView;
use view_lang::{RowView, config_law, rows_law};

/// Rows count as scattered where runs of consecutive rows have no more than this many rows on average.
const SHORT_RUNS: usize = 4;

/// Whether `count` of `all` rows of a table, which lie in these runs, are written faster one by one than run by run.
fn are_scattered(runs: usize, count: usize, all: usize) -> bool {
    runs > count / SHORT_RUNS && are_many(count, all)
}

/// Writes the canonical stream of columns of the main table from where they are stored, row by row, and returns its
/// length in bytes.
fn write_scattered<S: Sink>(
    alloc: Global,
    tables: &LiveTables,
    schema: &EncodedSchema,
    columns: &[usize],
    visits: Visits,
    sink: &mut S,
) -> Result<u64, WriteFault>
    requires live { All (IsLiveAt (main_slots tables.now.stores)) visits }
    requires below { All (λ j. j < width_in (tables_in tables.now.stores)) columns.now }
    requires many { length columns.now ≡ length schema.now.fields.items }
    requires table { IsTable schema.now.fields.items
        (picked_rows columns.now (map (row_of (main_slots tables.now.stores)) visits)) }
    ensures { Writes (S.sunk sink.old) (S.sunk sink.new) result (canon schema.now.fields.items
        (picked_rows columns.now (map (row_of (main_slots tables.now.stores)) visits))) }
{
    let found = tables.locations(visits)?;
    let main = LocatedRows {
        batches: &found.batches,
        locations: &found.locations,
    };
    let rows = JoinedRows::alone(tables.width(), main);
    write_locations(alloc, sink, schema, columns, &rows)
}

/// Writes the canonical stream of columns of the main table from where they are stored, and returns its length in
/// bytes.
fn write_stored<S: Sink>(
    alloc: Global,
    tables: &LiveTables,
    schema: &EncodedSchema,
    stored: StoredColumns,
    sink: &mut S,
) -> Result<u64, WriteFault>
    requires live { All (IsLiveAt (main_slots tables.now.stores)) stored.visits }
    requires below { All (λ j. j < width_in (tables_in tables.now.stores)) stored.columns.items }
    requires many { length stored.columns.items ≡ length schema.now.fields.items }
    requires table { IsTable schema.now.fields.items (picked_rows stored.columns.items
        (map (row_of (main_slots tables.now.stores)) stored.visits)) }
    ensures { Writes (S.sunk sink.old) (S.sunk sink.new) result
        (canon schema.now.fields.items (picked_rows stored.columns.items
        (map (row_of (main_slots tables.now.stores)) stored.visits))) }
{
    let StoredColumns { columns, visits } = stored;
    let count = visits.len();
    if are_scattered(visits.count_runs(), count, tables.len()) {
        return write_scattered(alloc, tables, schema, &columns, visits, sink);
    }
    let ranges = tables.ranges(visits)?;
    write_ranges(alloc, sink, schema, &columns, &ranges, count)
}

/// Writes the canonical stream of columns of joined rows from where they are stored, and returns its length in bytes.
fn write_joined<S: Sink>(
    alloc: Global,
    tables: &LiveTables,
    schema: &EncodedSchema,
    joined: JoinedColumns,
    sink: &mut S,
) -> Result<u64, WriteFault>
    requires joined { (v : View) × (rows : List (List Datum))
        × AreJoined v (tables_in tables.now.stores) (rows_in tables.now.stores) joined rows }
    requires many { length joined.columns.items ≡ length schema.now.fields.items }
    requires table { IsTable schema.now.fields.items
        (picked_rows joined.columns.items (joined_in (rows_in tables.now.stores) joined)) }
    ensures { Writes (S.sunk sink.old) (S.sunk sink.new) result
        (canon schema.now.fields.items
        (picked_rows joined.columns.items (joined_in (rows_in tables.now.stores) joined))) }
{
    let JoinedColumns {
        columns,
        visits,
        table,
        side_numbers,
    } = joined;
    let main = tables.locations(visits)?;
    let side = tables.locations_if(table, &side_numbers)?;
    let rows = JoinedRows {
        width: tables.width(),
        main: LocatedRows {
            batches: &main.batches,
            locations: &main.locations,
        },
        side: LocatedRows {
            batches: &side.batches,
            locations: &side.locations,
        },
    };
    write_locations(alloc, sink, schema, &columns, &rows)
}

/// Writes the canonical stream of what the view at this index shows, and returns its length in bytes.
fn write_shown<S: Sink>(
    alloc: Global,
    tables: &LiveTables,
    place: usize,
    schema: &EncodedSchema,
    shown: Shown,
    sink: &mut S,
) -> Result<u64, WriteFault>
    requires main { 0 < length tables.now.stores }
    requires there { place < length tables.now.views }
    requires schema { schema.now.fields.items
        ≡ view_columns (tables_in tables.now.stores) (view_at tables.now.views place) }
    requires viewed { IsViewed tables.now.stores (view_at tables.now.views place) }
    requires shown { ShowsView tables.now.stores (view_at tables.now.views place) shown }
    ensures { Writes (S.sunk sink.old) (S.sunk sink.new) result (stream_at tables.now place) }
{
    // They do nothing: the proof takes from them that the rows of a view can be written.
    config_law();
    rows_law();
    let view = &tables.views()[place];
    match shown {
        Shown::Rows(rows) => write_coded(alloc, sink, schema, &view.coded_outputs, &rows),
        Shown::Stored(stored) => write_stored(alloc, tables, schema, stored, sink),
        Shown::Joined(joined) => write_joined(alloc, tables, schema, joined, sink),
    }
}

/// The cells of a column of rows, where they lie.
fn column_of<'a>(
    alloc: Global,
    rows: &'a [GroupRow<'_>],
    column: usize,
) -> Result<Vec<CellView<'a>>, AllocError>
    ensures { IfOk result (λ cells. map viewed cells.items ≡ lent_column column rows.now) }
{
    let mut cells = Vec::with_capacity(alloc, rows.len())?;
    for row in rows {
        cells.push(row.cell(column))?;
    }
    Ok(cells)
}

/// The cells of the first `count` columns of rows, where they lie.
fn columns_of<'a>(
    alloc: Global,
    rows: &'a [GroupRow<'_>],
    count: usize,
) -> Result<Vec<Vec<CellView<'a>>>, AllocError>
    ensures { IfOk result (λ columns. viewed_columns columns.items ≡ lent_columns count rows.now) }
{
    let mut columns = Vec::with_capacity(alloc, count)?;
    for column in 0..count {
        let cells = column_of(alloc, rows, column)?;
        columns.push(cells)?;
    }
    Ok(columns)
}

/// Writes the canonical stream of rows from where they lie, and returns its length in bytes.
fn write_lent<S: Sink>(
    alloc: Global,
    schema: &EncodedSchema,
    rows: &[GroupRow<'_>],
    sink: &mut S,
) -> Result<u64, WriteFault>
    requires flat { AreFlat (trees schema.now.fields.items) }
    requires table { IsTable schema.now.fields.items rows.now }
    ensures { Writes (S.sunk sink.old) (S.sunk sink.new) result (canon schema.now.fields.items rows.now) }
{
    let columns = columns_of(alloc, rows, schema.schema().fields.len())?;
    write_cells(alloc, sink, schema, &columns, rows.len())
}

/// The rows that a view of groups shows, where they lie. `None` where they can't be written from there: where an output
/// is coded, a column is of lists or of structs with fields, or the row that is shown lies nowhere.
fn lent_rows<'a>(
    tables: &'a LiveTables,
    place: usize,
    schema: &EncodedSchema,
) -> Result<Option<Vec<GroupRow<'a>>>, AllocError>
    requires there { place < length tables.now.views }
    requires fresh { get_or tables.now.stale place true ≡ false }
    ensures rows { IfOk result (λ found. IfSome found
        (λ rows. rows.items ≡ rows_shown tables.now.stores (view_at tables.now.views place))) }
    ensures viewed { IfOk result (λ found. IfSome found
        (λ rows. IsViewed tables.now.stores (view_at tables.now.views place))) }
    ensures plain { IfOk result (λ found. IfSome found
        (λ rows. (view_at tables.now.views place).coded_outputs ≡ [])) }
    ensures flat { IfOk result (λ found. IfSome found (λ rows. AreFlat (trees schema.now.fields.items))) }
{
    let view = &tables.views()[place];
    if !view.coded_outputs.is_empty() || !has_flat_columns(schema) {
        return Ok(None);
    }
    let found = tables.group_rows(place)?;
    Ok(found)
}

/// Writes the canonical stream of what a view shows of the live rows, and returns its length in bytes.
pub(crate) fn write_rows<S: Sink>(
    alloc: Global,
    tables: &mut LiveTables,
    place: usize,
    schema: &EncodedSchema,
    sink: &mut S,
) -> Result<u64, WriteFault>
    requires main { 0 < length tables.old.stores }
    requires there { place < length tables.old.views }
    requires schema { schema.now.fields.items
        ≡ view_columns (tables_in tables.old.stores) (view_at tables.old.views place) }
    ensures writes { Writes (S.sunk sink.old) (S.sunk sink.new) result (stream_at tables.old place) }
    ensures read { OnOk result (IsReadBack tables.old place) }
    ensures same_rows { HaveSameRows tables.old.stores tables.new.stores }
    ensures views { tables.new.views ≡ tables.old.views }
    ensures stale { OnOk result (tables.new.stale ≡ slice_set tables.old.stale place false) }
    ensures none_stale { NoneBecomesStale tables.old.stale tables.new.stale }
    ensures visits { OpensShown tables.old place tables.new }
{
    // They do nothing: the proof takes from them that the rows of a view can be written, and are read as they were.
    config_law();
    rows_law();
    coded_law();
    tables.refresh(place)?;
    if let Some(rows) = lent_rows(tables, place, schema)? {
        return write_lent(alloc, schema, &rows, sink);
    }
    let shown = tables.view_rows(place)?;
    write_shown(alloc, tables, place, schema, shown, sink)
}
