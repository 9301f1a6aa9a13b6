//! The order of some rows, kept current by changes of the rows.

ghost use Rattle.std.specs.Prelude.{◌≡◌, [], None, Some, cond, false, IfOk, map, OnErr, OnOk, take, true};
ghost use Rattle.std.specs.List.Sorted.{IsStrictlySortedBy};
ghost use Rattle.view_lang.specs.Shifts.{FollowsShift, NumberedRows, shift};
ghost use Rattle.top_rows.specs.Keeping.{Keeps};
ghost use Rattle.top_rows.specs.OrderParts.{AreAscending, ordered_with};
ghost use Rattle.top_rows.specs.EntryOrder.{RowEntry, entry_cmp};
ghost use Rattle.top_rows.specs.Places.{is_entry, is_entry_of, stands};
ghost use Rattle.top_rows.specs.ViewOrder.{AreFirst, IsKeptFor};

use crate::entry::OrderEntry;
use crate::parts::OrderedParts;
use crate::row_entries::RowEntries;
use std::alloc::{AllocError, Global};
use std::marker::Model;
use view_lang::{Change, OrderBy, RowChange, RowView, Upkeep};

/// The numbers of rows, sorted by some of the rows' columns. Rows that tie are in the order of their numbers.
#[derive(Debug, Drop)]
pub struct Ordered {
    alloc: Global,
    order: Vec<OrderBy>,
    order_entries: RowEntries,
}

impl Model for Ordered {
    ghost use Rattle.top_rows.specs.OrderedEntries.{OrderedEntries};

    ghost Value = { OrderedEntries };

    ghost view = { λ o. record { order = o.order.items; order_entries = o.order_entries } };
}

impl Ordered {
    /// The order of no rows.
    pub fn new(alloc: Global, order: &[OrderBy]) -> Result<Ordered, AllocError>
        ensures order { IfOk result (λ ordered. ordered.order ≡ order.now) }
        ensures none { IfOk result (λ ordered. ordered.order_entries ≡ []) }
        ensures kept { IfOk result (λ ordered. Keeps ordered []) }
    {
        let mut columns = Vec::new(alloc);
        columns.extend_from_slice(order)?;
        Ok(Ordered {
            alloc,
            order: columns,
            order_entries: RowEntries::new(alloc, order),
        })
    }

    /// Takes the order apart. The parts are all that it stores. If memory is refused, it is lost.
    pub fn into_parts(self) -> Result<OrderedParts, AllocError>
        ensures value { IfOk result (λ parts. ordered_with parts ≡ self) }
        ensures ascending { IfOk result (λ parts. AreAscending parts) }
    {
        let Ordered {
            alloc,
            order,
            order_entries,
        } = self;
        order_entries.ascending_law();
        Ok(OrderedParts {
            order,
            order_entries: order_entries.into_parts(alloc)?,
        })
    }

    /// Makes the `Ordered` that has these parts.
    pub fn from_parts(alloc: Global, parts: OrderedParts) -> Result<Ordered, AllocError>
        requires { AreAscending parts }
        ensures { IfOk result (λ ordered. ordered ≡ ordered_with parts) }
    {
        let OrderedParts {
            order,
            order_entries,
        } = parts;
        let mut placed = RowEntries::new(alloc, &order);
        for entry in order_entries {
            placed.insert_entry(alloc, OrderEntry::from_parts(alloc, entry))?;
        }
        Ok(Ordered {
            alloc,
            order,
            order_entries: placed,
        })
    }

    /// Inserts a row with its number. If memory is refused, nothing has changed.
    pub fn insert<R: RowView>(&mut self, number: usize, row: &R) -> Result<(), AllocError>
        ensures order { self.new.order ≡ self.old.order }
        ensures order_entries { OnOk result ((p : RowEntry) → stands self.new.order_entries p
            ≡ cond (is_entry self.old.order number (R.cells row.now) p) true (stands self.old.order_entries p)) }
        ensures err { OnErr result (self.new ≡ self.old) }
    {
        self.order_entries
            .insert(self.alloc, self.order.as_slice(), number, row)?;
        Ok(())
    }

    /// Removes a row, if it is there. The look-up takes memory; if that is refused, nothing has changed.
    pub fn remove<R: RowView>(&mut self, number: usize, row: &R) -> Result<(), AllocError>
        ensures order { self.new.order ≡ self.old.order }
        ensures order_entries { OnOk result ((p : RowEntry) → stands self.new.order_entries p
            ≡ cond (is_entry self.old.order number (R.cells row.now) p) false (stands self.old.order_entries p)) }
        ensures err { OnErr result (self.new ≡ self.old) }
    {
        self.order_entries.ascending_law();
        self.order_entries
            .remove(self.alloc, self.order.as_slice(), number, row)?;
        Ok(())
    }

    fn remove_before(&mut self, changed: &RowChange) -> Result<(), AllocError>
        ensures order { self.new.order ≡ self.old.order }
        ensures order_entries { OnOk result ((p : RowEntry) → stands self.new.order_entries p
            ≡ cond (is_entry_of self.old.order changed.now.number changed.now.before p) false
            (stands self.old.order_entries p)) }
    {
        match changed.before() {
            Some(row) => self.remove(changed.number(), &row),
            None => Ok(()),
        }
    }

    fn insert_after(&mut self, changed: &RowChange) -> Result<(), AllocError>
        ensures order { self.new.order ≡ self.old.order }
        ensures order_entries { OnOk result ((p : RowEntry) → stands self.new.order_entries p
            ≡ cond (is_entry_of self.old.order changed.now.number changed.now.after p) true
            (stands self.old.order_entries p)) }
    {
        match changed.after() {
            Some(row) => self.insert(changed.number(), &row),
            None => Ok(()),
        }
    }

    /// Applies the change of one row. It is removed before it is inserted, so that a row whose entry stays the same is
    /// there in the end.
    fn change_row(&mut self, changed: &RowChange) -> Result<(), AllocError>
        ensures order { self.new.order ≡ self.old.order }
        ensures kept { OnOk result ((rows : NumberedRows) → FollowsShift (Keeps self.old) (Keeps self.new) changed.now
            rows) }
    {
        self.remove_before(changed)?;
        self.insert_after(changed)?;
        Ok(())
    }

    /// Inserts a row with a number that no row has. If memory is refused, nothing has changed.
    pub fn come<R: RowView>(&mut self, number: usize, row: &R) -> Result<(), AllocError>
        ensures order { self.new.order ≡ self.old.order }
        ensures kept { OnOk result ((rows : NumberedRows) → FollowsShift (Keeps self.old) (Keeps self.new)
            (shift number None (Some (R.cells row.now))) rows) }
        ensures err { OnErr result (self.new ≡ self.old) }
    {
        self.insert(number, row)?;
        Ok(())
    }

    /// Deletes the row of a number. If memory is refused, nothing has changed.
    pub fn go<R: RowView>(&mut self, number: usize, row: &R) -> Result<(), AllocError>
        ensures order { self.new.order ≡ self.old.order }
        ensures kept { OnOk result ((rows : NumberedRows) → FollowsShift (Keeps self.old) (Keeps self.new)
            (shift number (Some (R.cells row.now)) None) rows) }
        ensures err { OnErr result (self.new ≡ self.old) }
    {
        self.remove(number, row)?;
        Ok(())
    }

    /// The numbers of the first rows, at most `most` of them.
    pub fn first(&self, alloc: Global, most: usize) -> Result<Vec<usize>, AllocError>
        ensures ascending { IsStrictlySortedBy entry_cmp self.now.order_entries }
        ensures numbers { IfOk result (λ numbers.
            numbers.items ≡ map (λ (p : RowEntry). p.1) (take most self.now.order_entries)) }
    {
        self.order_entries.ascending_law();
        let numbers = self.order_entries.first(alloc, most)?;
        Ok(numbers)
    }

    /// The numbers of the first rows of a view that is sorted by this order, at most `most` of them.
    pub fn first_of_view(&self, alloc: Global, most: usize) -> Result<Vec<usize>, AllocError>
        ensures { IfOk result (λ numbers.
            (rows : NumberedRows) → IsKeptFor self.now rows → AreFirst self.now.order most rows numbers.items) }
    {
        let numbers = self.first(alloc, most)?;
        Ok(numbers)
    }
}

/// The columns of the order stay as they are, also where memory is refused.
impl Upkeep for Ordered {
    ghost use Rattle.std.specs.Prelude.{◌≡◌, OnOk};
    ghost use Rattle.view_lang.specs.Shifts.{Fits, NumberedRows, patched};
    ghost use Rattle.top_rows.specs.Keeping.{Keeps};

    ghost keeps = { Keeps };

    fn apply(&mut self, change: &Change) -> Result<(), AllocError>
        ensures order { self.new.order ≡ self.old.order }
        ensures kept { OnOk result ((rows : NumberedRows) → Fits rows change.now → Keeps self.old rows
            → Keeps self.new (patched rows change.now)) }
    {
        for changed in change.rows() {
            self.change_row(changed)?;
        }
        Ok(())
    }
}
