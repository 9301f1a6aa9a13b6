//! Hides changes of a side table for a while, and shows them again; releases what they retracted.

ghost use Rattle.std.specs.Prelude.{◌≡◌, ◌<◌, ◌≤◌, ◌+◌, ◌^◌, All, IfOk, length, map};
ghost use Rattle.std.specs.List.{range_with_len};
ghost use Rattle.values.specs.Keys.{datum_of_key};
ghost use Rattle.view_lang.specs.TableRules.{IsSideTable};
ghost use Rattle.row_keys.specs.HiddenChanges.{
  CanShow,
  NamesRows,
  forgotten,
  hidden,
  named_keys,
  named_numbers,
  shown,
};
ghost use Rattle.row_keys.specs.Slots.{AllOut, last_numbers, live, released};
ghost use Rattle.row_keys.specs.Store.{with_slots};
ghost use Rattle.row_keys.specs.TableChanges.{CanGoBack, IsChangeOf, back, restores};

use crate::store::RowStore;
use crate::table_change::TableChange;
use std::alloc::{AllocError, Global};
use values::{Key, Row};

/// The `count` numbers from `first` on.
fn numbers_from(alloc: Global, first: usize, count: usize) -> Result<Vec<usize>, AllocError>
    requires { first + count < 2 ^ 64 }
    ensures { IfOk result (λ numbers. numbers.items ≡ range_with_len first count) }
{
    let mut numbers = Vec::with_capacity(alloc, count)?;
    for index in 0..count {
        numbers.push(first + index)?;
    }
    Ok(numbers)
}

impl RowStore {
    /// The numbers of the last `count` rows, of which none need be live.
    pub fn last_numbers(&self, count: usize) -> Result<Vec<usize>, AllocError>
        requires { count ≤ length self.now.slots }
        ensures { IfOk result (λ numbers. numbers.items ≡ last_numbers count self.now.slots) }
    {
        numbers_from(self.alloc(), self.appended() - count, count)
    }

    /// Hides a change of a side table: it is reverted so that it can be made again, since its rows keep their numbers.
    /// It takes no memory.
    pub fn hide(&mut self, change: &TableChange)
        requires side { IsChangeOf 1 change.now }
        requires can { CanGoBack self.old.table change.now self.old.slots }
        ensures slots { self.new ≡ with_slots self.old (hidden change.now self.old.slots) }
        ensures can_show { CanShow self.old.table change.now self.new.slots }
        ensures again { shown change.now self.new.slots ≡ self.old.slots }
        ensures live { live self.new.slots ≡ live (back change.now self.old.slots) }
        ensures forgets { forgotten change.now self.new.slots ≡ back change.now self.old.slots }
    {
        match change {
            TableChange::Appended(_) => unreachable!(),
            TableChange::Retracted(numbers) => self.put_back(numbers),
            TableChange::Put { rows, replaced } => self.hide_put(*rows, replaced),
        }
    }

    /// Makes a change of a side table again that `hide` reverted. It takes no memory.
    pub fn show(&mut self, change: &TableChange)
        requires side { IsChangeOf 1 change.now }
        requires can { CanShow self.old.table change.now self.old.slots }
        ensures { self.new ≡ with_slots self.old (shown change.now self.old.slots) }
    {
        match change {
            TableChange::Appended(_) => unreachable!(),
            TableChange::Retracted(numbers) => self.retract(numbers),
            TableChange::Put { rows, replaced } => self.show_put(*rows, replaced),
        }
    }

    /// Removes the rows of a change of a side table that `hide` reverted, and frees their numbers.
    pub fn forget(&mut self, change: &TableChange)
        requires { IsChangeOf 1 change.now × CanShow self.old.table change.now self.old.slots }
        ensures { self.new ≡ with_slots self.old (forgotten change.now self.old.slots) }
    {
        match change {
            TableChange::Appended(_) => unreachable!(),
            TableChange::Retracted(_) => {}
            TableChange::Put { rows, .. } => self.revert(*rows),
        }
    }

    /// Releases the rows that reverting a change would bring back, as `release` does: the change can't be reverted any
    /// more.
    pub fn release_replaced(&mut self, change: &TableChange)
        requires { AllOut (restores change.now) self.old.slots }
        ensures { self.new ≡ with_slots self.old (released (restores change.now) self.old.slots) }
    {
        match change {
            TableChange::Appended(_) => {}
            TableChange::Retracted(numbers) => self.release(numbers),
            TableChange::Put { replaced, .. } => self.release(replaced),
        }
    }

    /// The numbers of the rows that a change of a side table names.
    fn named_numbers(&self, change: &TableChange) -> Result<Vec<usize>, AllocError>
        requires { NamesRows change.now self.now.slots }
        ensures numbers { IfOk result (λ numbers. numbers.items ≡ named_numbers change.now self.now.slots) }
        ensures there { IfOk result (λ numbers. All (λ n. n < length self.now.slots) numbers.items) }
    {
        match change {
            TableChange::Appended(_) => unreachable!(),
            TableChange::Retracted(numbers) => Vec::from_slice(self.alloc(), numbers),
            TableChange::Put { rows, replaced } => {
                let mut numbers = self.last_numbers(*rows)?;
                numbers.extend_from_slice(replaced)?;
                Ok(numbers)
            }
        }
    }

    /// The keys of the rows that a change of a side table names: of those that it retracted, and of those that it put.
    pub fn named_keys(&self, change: &TableChange) -> Result<Vec<Key>, AllocError>
        requires side { IsSideTable self.now.table }
        requires names { NamesRows change.now self.now.slots }
        ensures { IfOk result (λ keys.
            map datum_of_key keys.items ≡ named_keys self.now.table change.now self.now.slots) }
    {
        let numbers = self.named_numbers(change)?;
        self.keys_of(&numbers)
    }

    /// The same keys as values.
    pub fn named_cells(&self, change: &TableChange) -> Result<Row, AllocError>
        requires side { IsSideTable self.now.table }
        requires names { NamesRows change.now self.now.slots }
        ensures { IfOk result (λ cells. cells.items ≡ named_keys self.now.table change.now self.now.slots) }
    {
        let numbers = self.named_numbers(change)?;
        self.key_cells(&numbers)
    }
}
