//! Undo records, as a list and in the session's buffer.

ghost use Rattle.std.specs.Prelude.{◌≡◌, ◌≤◌, ◌++◌, [], ◌∷◌, None, IfOk, IfSome, List, length, take};
ghost use Rattle.circular_buffer.specs.Buffer.{buffer};
ghost use Rattle.view_lang.specs.Edits.{Edit};
ghost use Rattle.view_lang.specs.Limits.{max_undo_depth};
ghost use Rattle.upkeep.specs.Stores.{rows_in, tables_in, visits_in};
ghost use Rattle.session.specs.Released.{TouchesAlike};
ghost use Rattle.session.specs.Shows.{HoldsBack, StillHolds};

use crate::releases::release_law;
use crate::undo::UndoRecord;
use circular_buffer::HeapCircularBuffer;
use std::alloc::{AllocError, Global};
use upkeep::LiveTables;
use values::limits::MAX_UNDO_DEPTH;

/// The records of a session as a list, the newest first.
pub(crate) fn take_records(
    alloc: Global,
    records: HeapCircularBuffer<UndoRecord>,
) -> Result<Vec<UndoRecord>, AllocError>
    ensures records { IfOk result (λ taken. taken.items ≡ records.items) }
    ensures few { length records.items ≤ records.capacity }
{
    let mut taken = Vec::with_capacity(alloc, records.len())?;
    for record in records {
        taken.push(record)?;
    }
    Ok(taken)
}

/// A session's buffer with these records, which come the newest first.
pub(crate) fn make_records(
    alloc: Global,
    records: Vec<UndoRecord>,
) -> Result<HeapCircularBuffer<UndoRecord>, AllocError>
    requires { length records.items ≤ max_undo_depth }
    ensures { IfOk result (λ made. made ≡ buffer records.items max_undo_depth) }
{
    let mut made = HeapCircularBuffer::with_capacity(alloc, MAX_UNDO_DEPTH)?;
    for record in records {
        drop(made.push_back(record));
    }
    Ok(made)
}

/// Adds a record as the newest, and returns the oldest if it is dropped: where there were as many as can be undone.
fn push_record(
    records: &mut HeapCircularBuffer<UndoRecord>,
    newest: UndoRecord,
) -> Option<UndoRecord>
    requires { records.old.capacity ≡ max_undo_depth }
    ensures records { records.new.items ≡ take max_undo_depth (newest ∷ records.old.items) }
    ensures capacity { records.new.capacity ≡ max_undo_depth }
    ensures oldest { IfSome result (λ oldest. newest ∷ records.old.items ≡ records.new.items ++ oldest ∷ []) }
    ensures all { result ≡ None → records.new.items ≡ newest ∷ records.old.items }
{
    // No more are stored than there is capacity for.
    let _room = records.capacity();
    records.push_front(newest)
}

/// Records how the newest edit is undone. Where the oldest record is dropped, the rows that it alone could bring back
/// are released. It takes no memory.
pub(crate) fn record_change(
    tables: &mut LiveTables,
    records: &mut HeapCircularBuffer<UndoRecord>,
    newest: UndoRecord,
)
    requires capacity { records.old.capacity ≡ max_undo_depth }
    requires holds { (edits : List Edit) × HoldsBack (tables_in tables.old.stores) (rows_in tables.old.stores)
        (newest ∷ records.old.items) edits }
    ensures records { records.new.items ≡ take max_undo_depth (newest ∷ records.old.items) }
    ensures capacity { records.new.capacity ≡ max_undo_depth }
    ensures holds { StillHolds (tables_in tables.old.stores) (rows_in tables.old.stores)
        (newest ∷ records.old.items) (rows_in tables.new.stores) records.new.items }
    ensures tables { tables_in tables.new.stores ≡ tables_in tables.old.stores }
    ensures views { tables.new.views ≡ tables.old.views }
    ensures stale { tables.new.stale ≡ tables.old.stale }
    ensures visits { visits_in tables.new.stores ≡ visits_in tables.old.stores }
    ensures touched { TouchesAlike (tables_in tables.old.stores) tables.old.views newest
        (rows_in tables.new.stores) (rows_in tables.old.stores) }
{
    // It does nothing: the proof takes from it which rows can be released.
    release_law();
    if let Some(oldest) = push_record(records, newest) {
        tables.release(oldest.table, &oldest.change);
    }
}
