//! Applies the edits of batches, and reverts them.

ghost use Rattle.std.specs.Prelude.{◌≡◌, ℕ, suc, IfErr, IfOk, None, OnOk};
ghost use Rattle.view_lang.specs.Causes.{cause_of};
ghost use Rattle.view_lang.specs.Edits.{retract, table_of};
ghost use Rattle.view_lang.specs.ViewColumns.{columns_by, key_column};
ghost use Rattle.view_lang.specs.declared.config.Role.TheVariants.{Append, Put, Retract};
ghost use Rattle.row_keys.specs.Batches.{batch_rows};
ghost use Rattle.row_keys.specs.NumberLaws.{with_new};
ghost use Rattle.row_keys.specs.Slots.{CanRetract, contents_of, keys_at};
ghost use Rattle.row_keys.specs.Store.{Refuses, with_slots};
ghost use Rattle.row_keys.specs.declared.table_change.TableChange.TheVariants.{Appended};
ghost use Rattle.row_keys.specs.TableChanges.{CanGoBack, IsBatchOf, IsChangeOf, Makes, back, change_by};

use crate::faults::EditFault;
use crate::store::RowStore;
use crate::table_change::TableChange;
use arrays::Column;
use view_lang::Role;

impl RowStore {
    /// Appends the rows of a batch.
    pub fn append_batch(
        &mut self,
        columns: Vec<Column>,
        rows: usize,
    ) -> Result<TableChange, EditFault>
        requires { IsBatchOf self.old.table.columns columns.items rows }
        ensures makes { Makes self.old.table (change_by Append columns.items rows)
            self.old.slots self.new.slots result }
        ensures table { self.new.table ≡ self.old.table }
        ensures slots { IfOk result (λ change. (change ≡ Appended rows)
            × (self.new.slots ≡ with_new self.old.slots (batch_rows rows columns.items))) }
        ensures visits { self.new.visits ≡ self.old.visits }
    {
        self.append(columns, rows)?;
        Ok(TableChange::Appended(rows))
    }

    /// The numbers of the rows whose keys a batch names, or why they can't be retracted.
    pub fn find_rows(&self, columns: &[Column], rows: usize) -> Result<Vec<usize>, EditFault>
        requires { IsBatchOf (key_column self.now.table) columns.now rows }
        ensures numbers { IfOk result (λ ns. CanRetract ns.items self.now.slots) }
        ensures keys { IfOk result (λ ns.
            retract (keys_at self.now.table ns.items self.now.slots) ≡ change_by Retract columns.now rows) }
        ensures fits { OnOk result
            (cause_of self.now.table (contents_of self.now.slots) (change_by Retract columns.now rows) ≡ None) }
        ensures refused { IfErr result
            (Refuses (cause_of self.now.table (contents_of self.now.slots) (change_by Retract columns.now rows))) }
    {
        let numbers = self.find_all(&columns[0])?;
        Ok(numbers)
    }

    /// Retracts the rows whose keys a batch names.
    fn retract_batch(&mut self, columns: &[Column], rows: usize) -> Result<TableChange, EditFault>
        requires { IsBatchOf (key_column self.old.table) columns.now rows }
        ensures makes { Makes self.old.table (change_by Retract columns.now rows) self.old.slots self.new.slots result }
        ensures table { self.new.table ≡ self.old.table }
        ensures kind { IfOk result (λ change. IsChangeOf 0 change × ((side : ℕ) → IsChangeOf (suc side) change)) }
    {
        let numbers = self.find_rows(columns, rows)?;
        self.retract(&numbers);
        Ok(TableChange::Retracted(numbers))
    }

    /// Puts the rows of a batch: those with the same keys are retracted, and they are added after all others.
    fn put_batch(&mut self, columns: Vec<Column>, rows: usize) -> Result<TableChange, EditFault>
        requires { IsBatchOf self.old.table.columns columns.items rows }
        ensures makes { Makes self.old.table (change_by (Put 0) columns.items rows)
            self.old.slots self.new.slots result }
        ensures table { self.new.table ≡ self.old.table }
        ensures kind { IfOk result (λ change. (side : ℕ) → IsChangeOf (suc side) change) }
    {
        let replaced = self.put(columns, rows)?;
        Ok(TableChange::Put { rows, replaced })
    }

    /// Applies the edit of a batch, by the role of its feed.
    pub fn edit(
        &mut self,
        role: Role,
        columns: Vec<Column>,
        rows: usize,
    ) -> Result<TableChange, EditFault>
        requires { IsBatchOf (columns_by role self.old.table) columns.items rows }
        ensures makes { Makes self.old.table (change_by role columns.items rows) self.old.slots self.new.slots result }
        ensures table { self.new.table ≡ self.old.table }
        ensures kind { IfOk result (IsChangeOf (table_of role)) }
    {
        match role {
            Role::Append => self.append_batch(columns, rows),
            Role::Put(_) => self.put_batch(columns, rows),
            Role::Retract | Role::Drop(_) => self.retract_batch(&columns, rows),
        }
    }

    /// Reverts a change of a store's rows. It takes no memory.
    pub fn restore(&mut self, change: &TableChange)
        requires { CanGoBack self.old.table change.now self.old.slots }
        ensures { self.new ≡ with_slots self.old (back change.now self.old.slots) }
    {
        match change {
            TableChange::Appended(count) => self.revert(*count),
            TableChange::Retracted(numbers) => self.put_back(numbers),
            TableChange::Put { rows, replaced } => self.undo_put(*rows, replaced),
        }
    }
}
