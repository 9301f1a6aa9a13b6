//! The entries of an order.

ghost use Rattle.std.specs.Prelude.{◌≡◌, [], IfOk, map, OnErr, OnOk, take, true, false};
ghost use Rattle.std.specs.BTreeMap.{is_at};
ghost use Rattle.std.specs.BTreeSet.{insert_key};
ghost use Rattle.std.specs.List.Sorted.{IsStrictlySortedBy};
ghost use Rattle.std.specs.Set.{remove_key};
ghost use Rattle.top_rows.specs.EntryForms.{entries_in};
ghost use Rattle.top_rows.specs.EntryOrder.{RowEntry, entry_cmp};
ghost use Rattle.top_rows.specs.OrderParts.{entry_with};
ghost use Rattle.top_rows.specs.Places.{place_of};

use crate::entry::OrderEntry;
use crate::parts::OrderEntryParts;
use crate::short_entries::ShortEntries;
use crate::short_key::ShortKey;
use std::alloc::{AllocError, Global};
use std::collections::BTreeSet;
use std::marker::Model;
use view_lang::{OrderBy, RowView};

/// How entries are stored.
#[derive(Debug, Drop)]
enum Form {
    /// Of an order by one column, as long as all sort keys are short.
    OneKey(ShortEntries<ShortKey>),
    /// Of an order by two columns, as long as all sort keys are short.
    TwoKeys(ShortEntries<(ShortKey, ShortKey)>),
    Entries(BTreeSet<OrderEntry>),
}

/// The entries of an order, ascending.
#[derive(Debug, Drop)]
pub(crate) struct RowEntries {
    form: Form,
}

impl Model for RowEntries {
    ghost use Rattle.std.specs.Prelude.{List};
    ghost use Rattle.top_rows.specs.EntryForms.{entries_in};
    ghost use Rattle.top_rows.specs.EntryOrder.{RowEntry};

    ghost Value = { List RowEntry };

    ghost view = { λ r. entries_in r.form };
}

/// Inserts the entry of a row, if it is stored as a short one, and returns whether it is. If memory is refused, nothing
/// has changed.
fn insert_short<R: RowView>(
    form: &mut Form,
    order: &[OrderBy],
    number: usize,
    row: &R,
) -> Result<bool, AllocError>
    ensures done { IfOk result (λ done. done ≡ true
        → entries_in form.new ≡ insert_key entry_cmp (entries_in form.old)
        (place_of order.now number (R.cells row.now))) }
    ensures left { IfOk result (λ done. done ≡ false → entries_in form.new ≡ entries_in form.old) }
    ensures err { OnErr result (entries_in form.new ≡ entries_in form.old) }
{
    match form {
        Form::OneKey(entries) => entries.insert(order, number, row),
        Form::TwoKeys(entries) => entries.insert(order, number, row),
        Form::Entries(_entries) => Ok(false),
    }
}

/// Removes the entry of a row, if it is stored as a short one, and returns whether it is.
fn remove_short<R: RowView>(form: &mut Form, order: &[OrderBy], number: usize, row: &R) -> bool
    ensures done { result ≡ true → entries_in form.new
        ≡ remove_key (is_at (entry_cmp (place_of order.now number (R.cells row.now)))) (entries_in form.old) }
    ensures left { result ≡ false → entries_in form.new ≡ entries_in form.old }
{
    match form {
        Form::OneKey(entries) => entries.remove(order, number, row),
        Form::TwoKeys(entries) => entries.remove(order, number, row),
        Form::Entries(_entries) => false,
    }
}

/// Inserts an entry as it is. If memory is refused, nothing has changed.
fn insert_entry(form: &mut Form, alloc: Global, entry: OrderEntry) -> Result<(), AllocError>
    ensures ok { OnOk result (entries_in form.new ≡ insert_key entry_cmp (entries_in form.old) entry) }
    ensures err { OnErr result (entries_in form.new ≡ entries_in form.old) }
{
    let mut widened = match form {
        Form::Entries(entries) => {
            entries.insert(entry)?;
            return Ok(());
        }
        Form::OneKey(entries) => entries.widened(alloc)?,
        Form::TwoKeys(entries) => entries.widened(alloc)?,
    };
    widened.insert(entry)?;
    *form = Form::Entries(widened);
    Ok(())
}

/// Removes an entry as it is. If memory is refused, nothing has changed.
fn remove_entry(form: &mut Form, alloc: Global, entry: &OrderEntry) -> Result<(), AllocError>
    ensures ok { OnOk result (entries_in form.new ≡ remove_key (is_at (entry_cmp entry.now)) (entries_in form.old)) }
    ensures err { OnErr result (entries_in form.new ≡ entries_in form.old) }
{
    let mut widened = match form {
        Form::Entries(entries) => {
            let _there = entries.remove(entry);
            return Ok(());
        }
        Form::OneKey(entries) => entries.widened(alloc)?,
        Form::TwoKeys(entries) => entries.widened(alloc)?,
    };
    let _there = widened.remove(entry);
    *form = Form::Entries(widened);
    Ok(())
}

/// The numbers of the first rows, at most `most` of them.
fn first_numbers(
    entries: &BTreeSet<OrderEntry>,
    alloc: Global,
    most: usize,
) -> Result<Vec<usize>, AllocError>
    ensures { IfOk result (λ numbers. numbers.items ≡ map (λ (p : RowEntry). p.1) (take most entries.now.keys)) }
{
    let mut numbers = Vec::new(alloc);
    for entry in entries.iter() {
        if numbers.len() == most {
            break;
        }
        numbers.push(entry.number())?;
    }
    Ok(numbers)
}

/// The parts of entries.
fn parts_of(
    entries: BTreeSet<OrderEntry>,
    alloc: Global,
) -> Result<Vec<OrderEntryParts>, AllocError>
    ensures { IfOk result (λ parts. map entry_with parts.items ≡ entries.keys) }
{
    let mut parts = Vec::with_capacity(alloc, entries.len())?;
    for entry in entries {
        parts.push(entry.into_parts()?)?;
    }
    Ok(parts)
}

impl RowEntries {
    /// No entries, of an order by these columns.
    pub(crate) fn new(alloc: Global, order: &[OrderBy]) -> RowEntries
        ensures { result ≡ [] }
    {
        let form = match order {
            [_] => Form::OneKey(ShortEntries::new(alloc)),
            [_, _] => Form::TwoKeys(ShortEntries::new(alloc)),
            _ => Form::Entries(BTreeSet::new(alloc)),
        };
        RowEntries { form }
    }

    /// The parts of the entries. If memory is refused, they are lost.
    pub(crate) fn into_parts(self, alloc: Global) -> Result<Vec<OrderEntryParts>, AllocError>
        ensures { IfOk result (λ parts. map entry_with parts.items ≡ self) }
    {
        match self.form {
            Form::OneKey(entries) => parts_of(entries.widened(alloc)?, alloc),
            Form::TwoKeys(entries) => parts_of(entries.widened(alloc)?, alloc),
            Form::Entries(entries) => parts_of(entries, alloc),
        }
    }

    /// Inserts an entry, and stores all as they are. If memory is refused, nothing has changed.
    pub(crate) fn insert_entry(
        &mut self,
        alloc: Global,
        entry: OrderEntry,
    ) -> Result<(), AllocError>
        ensures ok { OnOk result (self.new ≡ insert_key entry_cmp self.old entry) }
        ensures err { OnErr result (self.new ≡ self.old) }
    {
        insert_entry(&mut self.form, alloc, entry)
    }

    /// Inserts the entry of a row in this order. If memory is refused, nothing has changed.
    pub(crate) fn insert<R: RowView>(
        &mut self,
        alloc: Global,
        order: &[OrderBy],
        number: usize,
        row: &R,
    ) -> Result<(), AllocError>
        ensures ok { OnOk result
            (self.new ≡ insert_key entry_cmp self.old (place_of order.now number (R.cells row.now))) }
        ensures err { OnErr result (self.new ≡ self.old) }
    {
        if insert_short(&mut self.form, order, number, row)? {
            return Ok(());
        }
        let entry = OrderEntry::of(alloc, order, number, row)?;
        insert_entry(&mut self.form, alloc, entry)
    }

    /// Removes the entry of a row in this order, if it is there. If memory is refused, nothing has changed.
    pub(crate) fn remove<R: RowView>(
        &mut self,
        alloc: Global,
        order: &[OrderBy],
        number: usize,
        row: &R,
    ) -> Result<(), AllocError>
        ensures ok { OnOk result (self.new
            ≡ remove_key (is_at (entry_cmp (place_of order.now number (R.cells row.now)))) self.old) }
        ensures err { OnErr result (self.new ≡ self.old) }
    {
        if remove_short(&mut self.form, order, number, row) {
            return Ok(());
        }
        let entry = OrderEntry::of(alloc, order, number, row)?;
        remove_entry(&mut self.form, alloc, &entry)
    }

    /// The entries ascend. It does nothing: its contract is the theorem.
    pub(crate) fn ascending_law(&self)
        ensures { IsStrictlySortedBy entry_cmp self.now }
    {
        match &self.form {
            Form::OneKey(entries) => entries.ascending_law(),
            Form::TwoKeys(entries) => entries.ascending_law(),
            Form::Entries(entries) => {
                let _size = entries.len();
            }
        }
    }

    /// The numbers of the first rows, at most `most` of them.
    pub(crate) fn first(&self, alloc: Global, most: usize) -> Result<Vec<usize>, AllocError>
        ensures { IfOk result (λ numbers. numbers.items ≡ map (λ (p : RowEntry). p.1) (take most self.now)) }
    {
        match &self.form {
            Form::OneKey(entries) => entries.first(alloc, most),
            Form::TwoKeys(entries) => entries.first(alloc, most),
            Form::Entries(entries) => first_numbers(entries, alloc, most),
        }
    }
}
