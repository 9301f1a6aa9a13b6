//! Groups of rows, with the order of the rows that are shown of them.

ghost use Rattle.std.specs.Prelude.{
  ◌≡◌,
  ◌<◌,
  [],
  All,
  length,
  take,
  false,
  IfOk,
  IfSome,
  None,
  OnOk,
  Option,
  Some,
  true,
  ℕ,
};
ghost use Rattle.std.specs.BTreeMap.{is_at};
ghost use Rattle.std.specs.List.Sorted.{IsStrictlySortedBy};
ghost use Rattle.std.specs.Map.{keys_of, values_of};
ghost use Rattle.std.specs.Ordering.{nat_cmp};
ghost use Rattle.std.specs.Option.{option_map};
ghost use Rattle.view_lang.specs.Cells.{rows_of};
ghost use Rattle.view_lang.specs.Limits.{max_appended_rows};
ghost use Rattle.view_lang.specs.Shifts.{Fits, FollowsShift, IsFew, NumberedRows, patched, row_at, shift};
ghost use Rattle.group_state.specs.Keys.{tuple_cmp};
ghost use Rattle.group_state.specs.Aggregates.{AreReadBy, IsAccumulated};
ghost use Rattle.group_state.specs.Moves.{CanGiveUp, CanTakeIn, GivesUp, TakesIn};
ghost use Rattle.group_state.specs.Reading.{WhereRead};
ghost use Rattle.group_state.specs.Tuples.{tuple_of as tuple_by};
ghost use Rattle.top_rows.specs.Ties.{KeepsBy, entry_by, without};
ghost use Rattle.group_order.specs.GroupEntries.{group_entry_cmp};
ghost use Rattle.group_order.specs.Ranked.{
  AreExchanged,
  AreWithAll,
  AreWithEntry,
  IsRanked,
  Keeps,
  has_entries,
  is_there,
  named,
  placed_at,
  ranked_rows,
};
ghost use Rattle.group_order.specs.RankedParts.{AreRanked, ranked_with};

use crate::group_entries::GroupEntries;
use crate::parts::RankedParts;
use crate::ranking::Ranking;
use group_state::{AccumulatedColumn, Group, GroupReader, GroupRow, Groups, NoReader, Tuple};
use std::alloc::{AllocError, Global};
use std::marker::Model;
use top_rows::SortKeyList;
use values::Row;
use view_lang::{Change, RowView, Upkeep, group_law, passing_rows};

/// Groups of rows, and the entries of their rows in an order. Rows that tie are in the order of their tuples.
#[derive(Debug, Drop)]
pub struct RankedGroups {
    alloc: Global,
    groups: Groups,
    ranking: Ranking,
    entries: GroupEntries,
}

impl Model for RankedGroups {
    ghost use Rattle.group_order.specs.Ranked.{Ranked};

    ghost Value = { Ranked };

    ghost use Rattle.std.specs.Coded.{codes};
    ghost use Rattle.view_lang.specs.Filter.{filter_code};

    ghost coded = { Prim.hlevel (codes, filter_code) };

    ghost view = { λ r. record {
      groups = r.groups;
      ranking = r.ranking;
      entries = r.entries;
    } };
}

impl RankedGroups {
    /// The groups of no rows, by the columns `by`, of which rows are shown by the ranking.
    pub fn new(alloc: Global, by: &[usize], ranking: Ranking) -> Result<RankedGroups, AllocError>
        ensures keys { IfOk result (λ ranked. ranked.groups.keys ≡ by.now) }
        ensures columns { IfOk result
            (λ ranked. All (λ o. IsAccumulated ranked.groups.columns o.aggregate) ranking.outputs) }
        ensures read { IfOk result (λ ranked. AreReadBy ranking.outputs ranked.groups.columns) }
        ensures ranking { IfOk result (λ ranked. ranked.ranking ≡ ranking) }
        ensures kept { IfOk result (λ ranked. Keeps ranked []) }
    {
        let groups = Groups::of(alloc, by, ranking.outputs())?;
        Ok(RankedGroups {
            alloc,
            groups,
            ranking,
            entries: GroupEntries::new(alloc),
        })
    }

    /// Takes them apart. The parts are all that they store. If memory is refused, they are lost.
    pub fn into_parts(self) -> Result<RankedParts, AllocError>
        ensures value { IfOk result (λ parts. ranked_with parts ≡ self) }
        ensures kept { IfOk result (λ parts. AreRanked parts) }
    {
        let RankedGroups {
            alloc,
            groups,
            ranking,
            entries,
        } = self;
        entries.ascending_law();
        Ok(RankedParts {
            groups: groups.into_parts()?,
            ranking,
            entries: entries.into_parts(alloc)?,
        })
    }

    /// Makes the groups that have these parts.
    pub fn from_parts(alloc: Global, parts: RankedParts) -> Result<RankedGroups, AllocError>
        requires { AreRanked parts }
        ensures { IfOk result (λ ranked. ranked ≡ ranked_with parts) }
    {
        let RankedParts {
            groups,
            ranking,
            entries,
        } = parts;
        Ok(RankedGroups {
            alloc,
            groups: Groups::from_parts(alloc, groups)?,
            ranking,
            entries: GroupEntries::from_parts(alloc, entries)?,
        })
    }

    /// The sort keys of the row that is shown of a tuple's group, if there is one and there are entries.
    fn sort_keys_of(&self, tuple: &Tuple) -> Result<Option<SortKeyList>, AllocError>
        ensures { IfOk result (λ keys. named tuple.now keys ≡ option_map
            (entry_by tuple_cmp self.now.ranking.order tuple.now)
            (placed_at self.now.ranking self.now.groups tuple.now)) }
    {
        match self.groups.row(self.ranking.outputs(), tuple) {
            Some(row) => self.ranking.read(self.alloc, &row),
            None => Ok(None),
        }
    }

    /// Replaces the entry of a tuple's row, where there is one before or after.
    fn replace(
        &mut self,
        tuple: Tuple,
        before: Option<SortKeyList>,
        after: Option<SortKeyList>,
    ) -> Result<(), AllocError>
        ensures groups { self.new.groups ≡ self.old.groups }
        ensures ranking { self.new.ranking ≡ self.old.ranking }
        ensures entries { OnOk result (AreExchanged (is_there (named tuple before)) (is_there (named tuple after))
            self.old.entries self.new.entries) }
    {
        match (before, after) {
            (Some(before), Some(after)) => {
                exchange(&mut self.entries, self.alloc, tuple, before, after)?;
                Ok(())
            }
            (Some(before), None) => {
                self.entries.ascending_law();
                drop(self.entries.remove(self.alloc, before, tuple)?);
                Ok(())
            }
            (None, Some(after)) => {
                self.entries.insert(self.alloc, after, tuple)?;
                Ok(())
            }
            (None, None) => Ok(()),
        }
    }

    /// Removes the entry of a tuple's row, if there is one.
    fn take_out(&mut self, tuple: &Tuple) -> Result<(), AllocError>
        ensures groups { self.new.groups ≡ self.old.groups }
        ensures ranking { self.new.ranking ≡ self.old.ranking }
        ensures entries { OnOk result (AreWithEntry false self.old tuple.now self.new.entries) }
    {
        if let Some(sort_keys) = self.sort_keys_of(tuple)? {
            let tuple = tuple.copy(self.alloc)?;
            self.entries.ascending_law();
            drop(self.entries.remove(self.alloc, sort_keys, tuple)?);
        }
        Ok(())
    }

    /// Inserts the entry of a tuple's row, if it is to have one.
    fn put_in(&mut self, tuple: &Tuple) -> Result<(), AllocError>
        ensures groups { self.new.groups ≡ self.old.groups }
        ensures ranking { self.new.ranking ≡ self.old.ranking }
        ensures entries { OnOk result (AreWithEntry true self.old tuple.now self.new.entries) }
    {
        if let Some(sort_keys) = self.sort_keys_of(tuple)? {
            let tuple = tuple.copy(self.alloc)?;
            self.entries.insert(self.alloc, sort_keys, tuple)?;
        }
        Ok(())
    }

    /// Removes the entries of these tuples' rows.
    fn take_all(&mut self, tuples: &[Tuple]) -> Result<(), AllocError>
        ensures groups { self.new.groups ≡ self.old.groups }
        ensures ranking { self.new.ranking ≡ self.old.ranking }
        ensures entries { OnOk result (IsRanked self.old → KeepsBy tuple_cmp self.old.ranking.order self.new.entries
            (without tuple_cmp tuples.now (placed_at self.old.ranking self.old.groups))) }
    {
        for tuple in tuples {
            self.take_out(tuple)?;
        }
        Ok(())
    }

    /// Inserts the entries of these tuples' rows.
    fn put_all(&mut self, tuples: &[Tuple]) -> Result<(), AllocError>
        ensures groups { self.new.groups ≡ self.old.groups }
        ensures ranking { self.new.ranking ≡ self.old.ranking }
        ensures entries { OnOk result (AreWithAll self.old tuples.now self.new.entries) }
    {
        for tuple in tuples {
            self.put_in(tuple)?;
        }
        Ok(())
    }

    /// Applies a change of rows: the order is changed at the tuples that the change touches, and nowhere else. After an
    /// error groups and order are meaningless.
    pub fn apply_change(&mut self, change: &Change) -> Result<(), AllocError>
        requires { (rows : NumberedRows)
            × (Keeps self.old (values_of rows) × (Fits rows change.now × IsFew rows change.now)) }
        ensures kept { OnOk result ((rows : NumberedRows) → Fits rows change.now → Keeps self.old (values_of rows)
            → Keeps self.new (values_of (patched rows change.now))) }
        ensures keys { OnOk result (self.new.groups.keys ≡ self.old.groups.keys) }
        ensures columns { OnOk result (self.new.groups.columns ≡ self.old.groups.columns) }
        ensures ranking { self.new.ranking ≡ self.old.ranking }
    {
        if self.ranking.has_entries() {
            self.change_entries(change)?;
        } else {
            self.groups.apply_change(change)?;
        }
        Ok(())
    }

    /// Applies a change of rows, and changes the entries of the tuples that it touches.
    fn change_entries(&mut self, change: &Change) -> Result<(), AllocError>
        requires { (rows : NumberedRows)
            × (Keeps self.old (values_of rows) × (Fits rows change.now × IsFew rows change.now)) }
        ensures kept { OnOk result ((rows : NumberedRows) → Fits rows change.now → Keeps self.old (values_of rows)
            → Keeps self.new (values_of (patched rows change.now))) }
        ensures keys { OnOk result (self.new.groups.keys ≡ self.old.groups.keys) }
        ensures columns { OnOk result (self.new.groups.columns ≡ self.old.groups.columns) }
        ensures ranking { self.new.ranking ≡ self.old.ranking }
    {
        let touched = self.groups.touched(change)?;
        self.take_all(touched.as_slice())?;
        self.groups.apply_change(change)?;
        self.put_all(touched.as_slice())?;
        Ok(())
    }

    /// Inserts a row with a number that no row has. After an error groups and order are meaningless.
    pub fn come<R: RowView>(&mut self, row: &R) -> Result<(), AllocError>
        requires { (rows : NumberedRows) × (Keeps self.old (values_of rows) × (length rows < max_appended_rows)) }
        ensures kept { OnOk result ((rows : NumberedRows) (n : ℕ)
            → FollowsShift (λ rs. Keeps self.old (values_of rs)) (λ rs. Keeps self.new (values_of rs))
            (shift n None (Some (R.cells row.now))) rows) }
        ensures keys { OnOk result (self.new.groups.keys ≡ self.old.groups.keys) }
        ensures columns { OnOk result (self.new.groups.columns ≡ self.old.groups.columns) }
        ensures ranking { self.new.ranking ≡ self.old.ranking }
    {
        if self.ranking.has_entries() {
            self.come_to_entry(row)?;
        } else {
            self.groups.come(row)?;
        }
        Ok(())
    }

    /// Inserts a row, and replaces the entry of its group.
    fn come_to_entry<R: RowView>(&mut self, row: &R) -> Result<(), AllocError>
        requires { (rows : NumberedRows) × (Keeps self.old (values_of rows) × (length rows < max_appended_rows)) }
        ensures kept { OnOk result ((rows : NumberedRows) (n : ℕ)
            → FollowsShift (λ rs. Keeps self.old (values_of rs)) (λ rs. Keeps self.new (values_of rs))
            (shift n None (Some (R.cells row.now))) rows) }
        ensures keys { OnOk result (self.new.groups.keys ≡ self.old.groups.keys) }
        ensures columns { OnOk result (self.new.groups.columns ≡ self.old.groups.columns) }
        ensures ranking { self.new.ranking ≡ self.old.ranking }
    {
        let tuple = self.groups.tuple_of(row)?;
        let ranking = &self.ranking;
        let keys = self
            .groups
            .come_to(&tuple, row, ranking.outputs(), ranking)?;
        self.replace(tuple, keys.before, keys.after)?;
        Ok(())
    }

    /// Deletes the row of a number. After an error groups and order are meaningless.
    pub fn go<R: RowView>(&mut self, row: &R) -> Result<(), AllocError>
        requires { (rows : NumberedRows) × (n : ℕ) × (Keeps self.old (values_of rows)
            × (IsStrictlySortedBy nat_cmp (keys_of rows) × (row_at n rows ≡ Some (R.cells row.now)))) }
        ensures kept { OnOk result ((rows : NumberedRows) (n : ℕ)
            → FollowsShift (λ rs. Keeps self.old (values_of rs)) (λ rs. Keeps self.new (values_of rs))
            (shift n (Some (R.cells row.now)) None) rows) }
        ensures keys { OnOk result (self.new.groups.keys ≡ self.old.groups.keys) }
        ensures columns { OnOk result (self.new.groups.columns ≡ self.old.groups.columns) }
        ensures ranking { self.new.ranking ≡ self.old.ranking }
    {
        if self.ranking.has_entries() {
            self.go_from_entry(row)?;
        } else {
            self.groups.go(row)?;
        }
        Ok(())
    }

    /// Deletes a row, and replaces the entry of its group.
    fn go_from_entry<R: RowView>(&mut self, row: &R) -> Result<(), AllocError>
        requires { (rows : NumberedRows) × (n : ℕ) × (Keeps self.old (values_of rows)
            × (IsStrictlySortedBy nat_cmp (keys_of rows) × (row_at n rows ≡ Some (R.cells row.now)))) }
        ensures kept { OnOk result ((rows : NumberedRows) (n : ℕ)
            → FollowsShift (λ rs. Keeps self.old (values_of rs)) (λ rs. Keeps self.new (values_of rs))
            (shift n (Some (R.cells row.now)) None) rows) }
        ensures keys { OnOk result (self.new.groups.keys ≡ self.old.groups.keys) }
        ensures columns { OnOk result (self.new.groups.columns ≡ self.old.groups.columns) }
        ensures ranking { self.new.ranking ≡ self.old.ranking }
    {
        let tuple = self.groups.tuple_of(row)?;
        let ranking = &self.ranking;
        let keys = self
            .groups
            .go_from(&tuple, row, ranking.outputs(), ranking)?;
        self.replace(tuple, keys.before, keys.after)?;
        Ok(())
    }

    /// Adds the rows of a group, all at once: they have this tuple. After an error groups and order are meaningless.
    pub fn take_in(&mut self, tuple: &Tuple, group: &Group) -> Result<(), AllocError>
        requires part { CanTakeIn (Keeps self.old) self.old.groups tuple.now group.now }
        ensures kept { OnOk result (TakesIn (Keeps self.old) (Keeps self.new) self.old.groups tuple.now group.now) }
        ensures keys { OnOk result (self.new.groups.keys ≡ self.old.groups.keys) }
        ensures columns { OnOk result (self.new.groups.columns ≡ self.old.groups.columns) }
        ensures ranking { self.new.ranking ≡ self.old.ranking }
    {
        if self.ranking.has_entries() {
            self.take_in_at_entry(tuple, group)?;
        } else {
            self.groups.take_in(tuple, group, &[], &NoReader)?;
        }
        Ok(())
    }

    /// Adds the rows of a group, and replaces the entry of their tuple's group.
    fn take_in_at_entry(&mut self, tuple: &Tuple, group: &Group) -> Result<(), AllocError>
        requires part { CanTakeIn (Keeps self.old) self.old.groups tuple.now group.now }
        ensures kept { OnOk result (TakesIn (Keeps self.old) (Keeps self.new) self.old.groups tuple.now group.now) }
        ensures keys { OnOk result (self.new.groups.keys ≡ self.old.groups.keys) }
        ensures columns { OnOk result (self.new.groups.columns ≡ self.old.groups.columns) }
        ensures ranking { self.new.ranking ≡ self.old.ranking }
    {
        let ranking = &self.ranking;
        let keys = self
            .groups
            .take_in(tuple, group, ranking.outputs(), ranking)?;
        self.replace(tuple.copy(self.alloc)?, keys.before, keys.after)?;
        Ok(())
    }

    /// Removes the rows of a group, all at once: they have this tuple. After an error groups and order are meaningless.
    pub fn give_up(&mut self, tuple: &Tuple, group: &Group) -> Result<(), AllocError>
        requires part { CanGiveUp (Keeps self.old) self.old.groups tuple.now group.now }
        ensures kept { OnOk result (GivesUp (Keeps self.old) (Keeps self.new) self.old.groups tuple.now group.now) }
        ensures keys { OnOk result (self.new.groups.keys ≡ self.old.groups.keys) }
        ensures columns { OnOk result (self.new.groups.columns ≡ self.old.groups.columns) }
        ensures ranking { self.new.ranking ≡ self.old.ranking }
    {
        if self.ranking.has_entries() {
            self.give_up_from_entry(tuple, group)?;
        } else {
            self.groups.give_up(tuple, group, &[], &NoReader)?;
        }
        Ok(())
    }

    /// Removes the rows of a group, and replaces the entry of their tuple's group.
    fn give_up_from_entry(&mut self, tuple: &Tuple, group: &Group) -> Result<(), AllocError>
        requires part { CanGiveUp (Keeps self.old) self.old.groups tuple.now group.now }
        ensures kept { OnOk result (GivesUp (Keeps self.old) (Keeps self.new) self.old.groups tuple.now group.now) }
        ensures keys { OnOk result (self.new.groups.keys ≡ self.old.groups.keys) }
        ensures columns { OnOk result (self.new.groups.columns ≡ self.old.groups.columns) }
        ensures ranking { self.new.ranking ≡ self.old.ranking }
    {
        let ranking = &self.ranking;
        let keys = self
            .groups
            .give_up(tuple, group, ranking.outputs(), ranking)?;
        self.replace(tuple.copy(self.alloc)?, keys.before, keys.after)?;
        Ok(())
    }

    /// The columns that the groups accumulate.
    pub fn columns(&self) -> &[AccumulatedColumn]
        ensures { result.now ≡ self.now.groups.columns }
    {
        self.groups.columns()
    }

    /// The tuple of a row.
    pub fn tuple_of<R: RowView>(&self, row: &R) -> Result<Tuple, AllocError>
        ensures { IfOk result (λ t. t ≡ tuple_by self.now.groups.keys (R.cells row.now)) }
    {
        self.groups.tuple_of(row)
    }

    /// The first rows that are shown of the groups, at most `most` of them, where they lie. `None` where the row that
    /// is shown lies nowhere: without grouping columns there is one row, also where there are no rows to group. No
    /// other group is read.
    pub fn first_group_rows(
        &self,
        alloc: Global,
        most: usize,
    ) -> Result<Option<Vec<GroupRow<'_>>>, AllocError>
        ensures { IfOk result (λ found. IfSome found (λ made.
            WhereRead (Keeps self.now) self.now.groups self.now.ranking.outputs
            (λ rows. made.items ≡ take most (ranked_rows self.now.groups.keys self.now.ranking rows)))) }
    {
        if self.groups.is_bare() {
            return Ok(None);
        }
        let made = self.lent_rows(alloc, most)?;
        Ok(Some(made))
    }

    /// The first rows that are shown of the groups, at most `most` of them. No other group is read.
    pub fn first_rows(&self, alloc: Global, most: usize) -> Result<Vec<Row>, AllocError>
        ensures { IfOk result (λ made. WhereRead (Keeps self.now) self.now.groups self.now.ranking.outputs
            (λ rows. rows_of made.items ≡ take most (ranked_rows self.now.groups.keys self.now.ranking rows))) }
    {
        if self.groups.is_bare() {
            let made = self.groups.bare_rows(alloc, self.ranking.outputs())?;
            let mut shown = passing_rows(alloc, self.ranking.having(), made)?;
            shown.truncate(most);
            return Ok(shown);
        }
        let lent = self.lent_rows(alloc, most)?;
        let made = copies_of(alloc, lent.as_slice())?;
        Ok(made)
    }

    /// The first rows that are shown of groups that aren't bare, at most `most` of them, where they lie.
    fn lent_rows(&self, alloc: Global, most: usize) -> Result<Vec<GroupRow<'_>>, AllocError>
        requires { (length self.now.groups.keys ≡ 0) × (length self.now.groups.groups ≡ 0) → ⊥ }
        ensures { IfOk result (λ made. WhereRead (Keeps self.now) self.now.groups self.now.ranking.outputs
            (λ rows. made.items ≡ take most (ranked_rows self.now.groups.keys self.now.ranking rows))) }
    {
        let outputs = self.ranking.outputs();
        if !self.ranking.has_entries() {
            let made = self.groups.first_rows(alloc, outputs, most)?;
            return Ok(made);
        }
        group_law();
        self.groups.tuples_ascend();
        self.entries.ascending_law();
        let made = self.entries.first_rows(alloc, &self.groups, outputs, most)?;
        Ok(made)
    }
}

impl Upkeep for RankedGroups {
    ghost use Rattle.group_order.specs.Ranked.{Keeps};
    ghost use Rattle.std.specs.Map.{values_of};

    ghost keeps = { λ s rows. Keeps s (values_of rows) };

    fn apply(&mut self, change: &Change) -> Result<(), AllocError> {
        self.apply_change(change)?;
        Ok(())
    }
}

/// Replaces the entry of a tuple's row by another.
fn exchange(
    entries: &mut GroupEntries,
    alloc: Global,
    tuple: Tuple,
    before: SortKeyList,
    after: SortKeyList,
) -> Result<(), AllocError>
    ensures { OnOk result (AreExchanged (is_at (group_entry_cmp (before, tuple)))
        (is_at (group_entry_cmp (after, tuple))) entries.old entries.new) }
{
    if before == after {
        return Ok(());
    }
    entries.ascending_law();
    let tuple = entries.remove(alloc, before, tuple)?;
    entries.insert(alloc, after, tuple)?;
    Ok(())
}

/// Copies of rows.
fn copies_of(alloc: Global, rows: &[GroupRow<'_>]) -> Result<Vec<Row>, AllocError>
    ensures { IfOk result (λ copies. rows_of copies.items ≡ rows.now) }
{
    let mut copies = Vec::with_capacity(alloc, rows.len())?;
    for row in rows {
        copies.push(row.copy(alloc)?)?;
    }
    Ok(copies)
}
