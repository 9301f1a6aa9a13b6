//! The entries of group rows in an order.

ghost use Rattle.std.specs.Prelude.{◌≡◌, ◌++◌, [], IfOk, map, OnOk, take};
ghost use Rattle.std.specs.BTreeMap.{is_at};
ghost use Rattle.std.specs.BTreeSet.{insert_key};
ghost use Rattle.std.specs.List.{cons_option, filter_map};
ghost use Rattle.std.specs.List.Sorted.{IsStrictlySortedBy};
ghost use Rattle.std.specs.Set.{remove_key};
ghost use Rattle.group_state.specs.Aggregates.{seen_at};
ghost use Rattle.top_rows.specs.ShortEntries.{short_entry, sort_keys_of_one};
ghost use Rattle.group_order.specs.EntryForms.{ShortPair, entries_in};
ghost use Rattle.group_order.specs.GroupEntries.{GroupEntry as EntrySeen, group_entry_cmp};
ghost use Rattle.group_order.specs.RankedParts.{entry_with};

use crate::entry::GroupEntry;
use crate::parts::GroupEntryParts;
use group_state::{GroupRow, Groups, Tuple};
use std::alloc::{AllocError, Global};
use std::collections::BTreeSet;
use std::marker::Model;
use top_rows::{ShortKey, SortKeyList};
use view_lang::GroupOutput;

/// How entries are stored.
#[derive(Debug, Drop)]
enum Form {
    /// By a short key and the tuple of the group, as long as each entry has one sort key, and that is short.
    Short(BTreeSet<(ShortKey, Tuple)>),
    Entries(BTreeSet<GroupEntry>),
}

/// The entries of group rows, ascending.
#[derive(Debug, Drop)]
pub(crate) struct GroupEntries {
    form: Form,
}

impl Model for GroupEntries {
    ghost use Rattle.std.specs.Prelude.{List};
    ghost use Rattle.group_order.specs.EntryForms.{entries_in};
    ghost use Rattle.group_order.specs.GroupEntries as seen;

    ghost Value = { List seen.GroupEntry };

    ghost view = { λ e. entries_in e.form };
}

/// The entries that are stored by short keys, as they are.
fn widened(
    alloc: Global,
    pairs: &BTreeSet<(ShortKey, Tuple)>,
) -> Result<BTreeSet<GroupEntry>, AllocError>
    ensures { IfOk result (λ entries. entries.keys ≡ map (short_entry sort_keys_of_one) pairs.now.keys) }
{
    let _size = pairs.len();
    let mut entries = BTreeSet::new(alloc);
    for (key, tuple) in pairs.iter() {
        let sort_keys = SortKeyList::of_short(alloc, key)?;
        entries.insert(GroupEntry::new(sort_keys, tuple.copy(alloc)?))?;
    }
    Ok(entries)
}

/// Adds the row of a tuple's group where it lies, if it has one.
fn push_row<'a>(
    rows: &mut Vec<GroupRow<'a>>,
    groups: &'a Groups,
    outputs: &'a [GroupOutput],
    tuple: &'a Tuple,
) -> Result<(), AllocError>
    ensures { OnOk result
        (rows.new.items ≡ rows.old.items ++ cons_option (seen_at outputs.now groups.now tuple.now) []) }
{
    if let Some(row) = groups.row(outputs, tuple) {
        rows.push(row)?;
    }
    Ok(())
}

/// The rows of the groups of the first pairs where they lie, at most `most` of them.
fn rows_of_pairs<'a>(
    alloc: Global,
    groups: &'a Groups,
    outputs: &'a [GroupOutput],
    pairs: &'a BTreeSet<(ShortKey, Tuple)>,
    most: usize,
) -> Result<Vec<GroupRow<'a>>, AllocError>
    ensures { IfOk result (λ made. made.items
        ≡ take most (filter_map (λ (p : ShortPair). seen_at outputs.now groups.now p.1) pairs.now.keys)) }
{
    let mut made = Vec::with_capacity(alloc, pairs.len().min(most))?;
    for (_key, tuple) in pairs.iter() {
        if made.len() == most {
            break;
        }
        push_row(&mut made, groups, outputs, tuple)?;
    }
    Ok(made)
}

/// The rows of the groups of the first entries where they lie, at most `most` of them.
fn rows_of_entries<'a>(
    alloc: Global,
    groups: &'a Groups,
    outputs: &'a [GroupOutput],
    entries: &'a BTreeSet<GroupEntry>,
    most: usize,
) -> Result<Vec<GroupRow<'a>>, AllocError>
    ensures { IfOk result (λ made. made.items
        ≡ take most (filter_map (λ (p : EntrySeen). seen_at outputs.now groups.now p.1) entries.now.keys)) }
{
    let mut made = Vec::with_capacity(alloc, entries.len().min(most))?;
    for entry in entries.iter() {
        if made.len() == most {
            break;
        }
        push_row(&mut made, groups, outputs, entry.tuple())?;
    }
    Ok(made)
}

/// The parts of entries.
fn parts_of(
    alloc: Global,
    entries: BTreeSet<GroupEntry>,
) -> Result<Vec<GroupEntryParts>, AllocError>
    ensures { IfOk result (λ parts. map entry_with parts.items ≡ entries.keys) }
{
    let mut parts = Vec::with_capacity(alloc, entries.len())?;
    for entry in entries {
        parts.push(entry.into_parts(alloc)?)?;
    }
    Ok(parts)
}

/// Inserts the entry of a tuple's row with these sort keys. If memory is refused, it may be lost.
fn insert(
    form: &mut Form,
    alloc: Global,
    sort_keys: SortKeyList,
    tuple: Tuple,
) -> Result<(), AllocError>
    ensures { OnOk result
        (entries_in form.new ≡ insert_key group_entry_cmp (entries_in form.old) (sort_keys, tuple)) }
{
    let mut wide = match form {
        Form::Short(pairs) => match sort_keys.short() {
            Some(key) => {
                pairs.insert((key, tuple))?;
                return Ok(());
            }
            None => widened(alloc, pairs)?,
        },
        Form::Entries(entries) => {
            entries.insert(GroupEntry::new(sort_keys, tuple))?;
            return Ok(());
        }
    };
    wide.insert(GroupEntry::new(sort_keys, tuple))?;
    *form = Form::Entries(wide);
    Ok(())
}

/// Removes an entry, and returns its tuple.
fn remove_entry(entries: &mut BTreeSet<GroupEntry>, entry: GroupEntry) -> Tuple
    ensures removed { entries.new.keys ≡ remove_key (is_at (group_entry_cmp entry)) entries.old.keys }
    ensures tuple { result ≡ entry.1 }
{
    let _there = entries.remove(&entry);
    entry.into_tuple()
}

/// Removes the entry of a tuple's row with these sort keys, if it is there, and returns the tuple.
fn remove(
    form: &mut Form,
    alloc: Global,
    sort_keys: SortKeyList,
    tuple: Tuple,
) -> Result<Tuple, AllocError>
    ensures removed { OnOk result
        (entries_in form.new ≡ remove_key (is_at (group_entry_cmp (sort_keys, tuple))) (entries_in form.old)) }
    ensures tuple { IfOk result (λ t. t ≡ tuple) }
{
    let mut wide = match form {
        Form::Short(pairs) => match sort_keys.short() {
            Some(key) => {
                let pair = (key, tuple);
                let _there = pairs.remove(&pair);
                return Ok(pair.1);
            }
            None => widened(alloc, pairs)?,
        },
        Form::Entries(entries) => {
            return Ok(remove_entry(entries, GroupEntry::new(sort_keys, tuple)));
        }
    };
    let tuple = remove_entry(&mut wide, GroupEntry::new(sort_keys, tuple));
    *form = Form::Entries(wide);
    Ok(tuple)
}

impl GroupEntries {
    /// No entries.
    pub(crate) fn new(alloc: Global) -> GroupEntries
        ensures empty { result ≡ [] }
    {
        GroupEntries {
            form: Form::Short(BTreeSet::new(alloc)),
        }
    }

    /// The parts of the entries. If memory is refused, they are lost.
    pub(crate) fn into_parts(self, alloc: Global) -> Result<Vec<GroupEntryParts>, AllocError>
        ensures { IfOk result (λ parts. map entry_with parts.items ≡ self) }
    {
        match self.form {
            Form::Short(pairs) => parts_of(alloc, widened(alloc, &pairs)?),
            Form::Entries(entries) => parts_of(alloc, entries),
        }
    }

    /// The entries that have these parts.
    pub(crate) fn from_parts(
        alloc: Global,
        parts: Vec<GroupEntryParts>,
    ) -> Result<GroupEntries, AllocError>
        requires { IsStrictlySortedBy group_entry_cmp (map entry_with parts.items) }
        ensures { IfOk result (λ entries. entries ≡ map entry_with parts.items) }
    {
        let mut entries = BTreeSet::new(alloc);
        for entry in parts {
            entries.insert(GroupEntry::from_parts(alloc, entry)?)?;
        }
        Ok(GroupEntries {
            form: Form::Entries(entries),
        })
    }

    /// Inserts the entry of a tuple's row with these sort keys. If memory is refused, it may be lost.
    pub(crate) fn insert(
        &mut self,
        alloc: Global,
        sort_keys: SortKeyList,
        tuple: Tuple,
    ) -> Result<(), AllocError>
        ensures { OnOk result (self.new ≡ insert_key group_entry_cmp self.old (sort_keys, tuple)) }
    {
        insert(&mut self.form, alloc, sort_keys, tuple)
    }

    /// Removes the entry of a tuple's row with these sort keys, if it is there, and returns the tuple.
    pub(crate) fn remove(
        &mut self,
        alloc: Global,
        sort_keys: SortKeyList,
        tuple: Tuple,
    ) -> Result<Tuple, AllocError>
        ensures removed { OnOk result
            (self.new ≡ remove_key (is_at (group_entry_cmp (sort_keys, tuple))) self.old) }
        ensures tuple { IfOk result (λ t. t ≡ tuple) }
    {
        remove(&mut self.form, alloc, sort_keys, tuple)
    }

    /// The entries ascend. It does nothing: its contract is the theorem.
    pub(crate) fn ascending_law(&self)
        ensures { IsStrictlySortedBy group_entry_cmp self.now }
    {
        match &self.form {
            Form::Short(pairs) => {
                let _size = pairs.len();
            }
            Form::Entries(entries) => {
                let _size = entries.len();
            }
        }
    }

    /// The rows of the groups of the first entries where they lie, at most `most` of them.
    pub(crate) fn first_rows<'a>(
        &'a self,
        alloc: Global,
        groups: &'a Groups,
        outputs: &'a [GroupOutput],
        most: usize,
    ) -> Result<Vec<GroupRow<'a>>, AllocError>
        ensures { IfOk result (λ made. made.items
            ≡ take most (filter_map (λ (p : EntrySeen). seen_at outputs.now groups.now p.1) self.now)) }
    {
        match &self.form {
            Form::Short(pairs) => {
                let made = rows_of_pairs(alloc, groups, outputs, pairs, most)?;
                Ok(made)
            }
            Form::Entries(entries) => rows_of_entries(alloc, groups, outputs, entries, most),
        }
    }
}
