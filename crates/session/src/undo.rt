//! Undoes accepted edits.

ghost use Rattle.std.specs.Prelude.{◌≡◌};
ghost use Rattle.upkeep.specs.Stores.{rows_in, tables_in};
ghost use Rattle.session.specs.Changes.{UndoesTo};
ghost use Rattle.session.specs.Shows.{ShowsPast};
ghost use Rattle.session.specs.Stale.{StaleByMemory};
ghost use Rattle.session.specs.Steps.{Past};
ghost use Rattle.session.specs.Visits.{UndoOpens};

use crate::calls::Fault;
use circular_buffer::HeapCircularBuffer;
use row_keys::TableChange;
use upkeep::LiveTables;
use values::Cause;

/// How an accepted edit is undone: the number of its table, and how the table's rows were changed. It holds the numbers
/// of rows, but no rows.
#[derive(Drop)]
pub struct UndoRecord {
    pub table: usize,
    pub change: TableChange,
}

/// Undoes the latest edit, whose record comes first.
pub(crate) fn go_back(
    tables: &mut LiveTables,
    records: &mut HeapCircularBuffer<UndoRecord>,
) -> Result<(), Fault>
    requires { (past : Past)
        × ShowsPast (tables_in tables.old.stores) (rows_in tables.old.stores) records.old.items past }
    ensures undoes { UndoesTo (tables_in tables.old.stores) (rows_in tables.old.stores) records.old.items result
        (rows_in tables.new.stores) records.new.items }
    ensures tables { tables_in tables.new.stores ≡ tables_in tables.old.stores }
    ensures views { tables.new.views ≡ tables.old.views }
    ensures capacity { records.new.capacity ≡ records.old.capacity }
    ensures stale { StaleByMemory tables.old.stale result tables.new.stale }
    ensures visits { UndoOpens tables.old records.old.items result tables.new }
{
    let Some(latest) = records.front() else {
        return Err(Fault::of(Cause::NothingToUndo));
    };
    tables.go_back(latest.table, &latest.change)?;
    records.pop_front();
    Ok(())
}
