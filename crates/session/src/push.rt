//! Pushes pieces to a feed of a session.

ghost use Rattle.std.specs.Prelude.{◌≡◌};
ghost use Rattle.view_lang.specs.Limits.{max_undo_depth};
ghost use Rattle.upkeep.specs.Stores.{rows_in, tables_in};
ghost use Rattle.session.specs.Shows.{ShowsChannel, ShowsPast};
ghost use Rattle.session.specs.Changes.{PushesTo};
ghost use Rattle.session.specs.Stale.{StaleByMemory};
ghost use Rattle.session.specs.Steps.{Channel, Past};
ghost use Rattle.session.specs.Visits.{PushOpens};

use crate::calls::{Fault, Pushed};
use crate::edit::respond;
use crate::link::Link;
use crate::undo::UndoRecord;
use circular_buffer::HeapCircularBuffer;
use feed::Fed;
use row_keys::EditFault;
use schema_meta::logical_law;
use upkeep::LiveTables;
use values::Cause;

/// Consumes a piece up to the end of the first message that it completes, or all of it. The edit of a batch is applied
/// where it fits.
pub(crate) fn push_to(
    link: &mut Link,
    tables: &mut LiveTables,
    records: &mut HeapCircularBuffer<UndoRecord>,
    piece: &[u8],
) -> Result<Pushed, Fault>
    requires link { (c : Channel) × ShowsChannel (tables_in tables.old.stores) link.old c }
    requires capacity { records.old.capacity ≡ max_undo_depth }
    requires past { (past : Past)
        × ShowsPast (tables_in tables.old.stores) (rows_in tables.old.stores) records.old.items past }
    ensures pushes { PushesTo (tables_in tables.old.stores) link.old (rows_in tables.old.stores) records.old.items
        piece.now result link.new (rows_in tables.new.stores) records.new.items }
    ensures tables { tables_in tables.new.stores ≡ tables_in tables.old.stores }
    ensures views { tables.new.views ≡ tables.old.views }
    ensures capacity { records.new.capacity ≡ max_undo_depth }
    ensures stale { StaleByMemory tables.old.stale result tables.new.stale }
    ensures visits { PushOpens tables.old result records.new.items tables.new }
{
    // It does nothing: the proof takes from it that a batch holds what was declared for its feed.
    logical_law();
    if link.feed.is_broken() {
        return Err(Fault::of(Cause::FeedBroken));
    }
    if piece.is_empty() {
        return Ok(Pushed {
            used: 0,
            event: None,
        });
    }
    let fed = link.feed.prepare(piece)?;
    let Fed { used, event } = fed;
    let Some(event) = event else {
        link.feed.commit();
        return Ok(Pushed { used, event: None });
    };
    match respond(link.role, tables, records, event) {
        Ok(kind) => {
            link.feed.commit();
            Ok(Pushed {
                used,
                event: Some(kind),
            })
        }
        Err(EditFault::Unfit(unfit)) => {
            link.feed.commit();
            Err(Fault {
                cause: Cause::from(unfit),
                used,
            })
        }
        Err(EditFault::Memory) => Err(Fault::of(Cause::Memory)),
    }
}
