//! Applies the edits of record batches to the tables.

ghost use Rattle.std.specs.Prelude.{◌≡◌, ◌<◌, length};
ghost use Rattle.feed.specs.Shown.{event_seen};
ghost use Rattle.view_lang.specs.Edits.{table_of};
ghost use Rattle.view_lang.specs.Limits.{max_undo_depth};
ghost use Rattle.view_lang.specs.ViewColumns.{feed_columns};
ghost use Rattle.upkeep.specs.LiveEdits.{StaleByMemory};
ghost use Rattle.upkeep.specs.Stores.{rows_in, tables_in};
ghost use Rattle.row_keys.specs.TableChanges.{IsBatchOf};
ghost use Rattle.session.specs.Changes.{Edits, IsBatchEvent, Takes, edit_by};
ghost use Rattle.session.specs.Shows.{ShowsPast};
ghost use Rattle.session.specs.Steps.{Past};
ghost use Rattle.session.specs.Visits.{EditOpens, MessageOpens};

use crate::calls::Event;
use crate::records::record_change;
use crate::undo::UndoRecord;
use arrays::Column;
use circular_buffer::HeapCircularBuffer;
use feed::FeedEvent;
use row_keys::EditFault;
use upkeep::LiveTables;
use view_lang::Role;

/// Applies the edit of a batch, and records how to undo it. On an error no row and no record has changed.
fn edit(
    role: Role,
    tables: &mut LiveTables,
    records: &mut HeapCircularBuffer<UndoRecord>,
    columns: Vec<Column>,
    rows: usize,
) -> Result<(), EditFault>
    requires there { table_of role < length tables.old.stores }
    requires batch { IsBatchOf (feed_columns (tables_in tables.old.stores) role) columns.items rows }
    requires capacity { records.old.capacity ≡ max_undo_depth }
    requires past { (past : Past)
        × ShowsPast (tables_in tables.old.stores) (rows_in tables.old.stores) records.old.items past }
    ensures edits { Edits (tables_in tables.old.stores) (edit_by role columns.items rows)
        (rows_in tables.old.stores) records.old.items (rows_in tables.new.stores) records.new.items result }
    ensures tables { tables_in tables.new.stores ≡ tables_in tables.old.stores }
    ensures views { tables.new.views ≡ tables.old.views }
    ensures capacity { records.new.capacity ≡ max_undo_depth }
    ensures stale { StaleByMemory tables.old.stale result tables.new.stale }
    ensures visits { EditOpens tables.old result records.new.items tables.new }
{
    let table = tables.table_of(role);
    let change = tables.edit(role, columns, rows)?;
    record_change(tables, records, UndoRecord { table, change });
    Ok(())
}

/// Does what a feed's message asks for, and returns the message's kind. On an error no row and no record has changed.
pub(crate) fn respond(
    role: Role,
    tables: &mut LiveTables,
    records: &mut HeapCircularBuffer<UndoRecord>,
    event: FeedEvent,
) -> Result<Event, EditFault>
    requires there { table_of role < length tables.old.stores }
    requires batch { IsBatchEvent (tables_in tables.old.stores) role event }
    requires capacity { records.old.capacity ≡ max_undo_depth }
    requires past { (past : Past)
        × ShowsPast (tables_in tables.old.stores) (rows_in tables.old.stores) records.old.items past }
    ensures takes { Takes (tables_in tables.old.stores) role (event_seen event) (rows_in tables.old.stores)
        records.old.items (rows_in tables.new.stores) records.new.items result }
    ensures tables { tables_in tables.new.stores ≡ tables_in tables.old.stores }
    ensures views { tables.new.views ≡ tables.old.views }
    ensures capacity { records.new.capacity ≡ max_undo_depth }
    ensures stale { StaleByMemory tables.old.stale result tables.new.stale }
    ensures visits { MessageOpens tables.old result records.new.items tables.new }
{
    match event {
        FeedEvent::Schema(_) => Ok(Event::Schema),
        FeedEvent::Dictionary { .. } => Ok(Event::Dictionary),
        FeedEvent::Batch { columns, rows, .. } => {
            edit(role, tables, records, columns, rows)?;
            Ok(Event::Batch)
        }
        FeedEvent::End => Ok(Event::End),
    }
}
