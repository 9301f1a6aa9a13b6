//! Groups of rows, kept current by changes of the rows.

ghost use Rattle.group_state.specs.GroupParts.{AreGroups, grouped_with};
ghost use Rattle.group_state.specs.Groups.{Keeps, KeepsUnder, group_at};
ghost use Rattle.group_state.specs.Keys.{key_cmp, key_in, tuple_cmp};
ghost use Rattle.group_state.specs.Aggregates.{AreReadBy, IsAccumulated, seen_at};
ghost use Rattle.group_state.specs.Moves.{
  AddsAt,
  CanAddAt,
  CanGiveUp,
  CanRemoveAt,
  CanTakeIn,
  GivesUp,
  RemovesAt,
  TakesIn,
  begins_with,
  begins_with_one,
  is_tuple_among,
};
ghost use Rattle.group_state.specs.Readers.{read_at, read_under};
ghost use Rattle.group_state.specs.Reading.{WhereRead};
ghost use Rattle.group_state.specs.Touched.{StayBut, comes, goes, is_of, touches};
ghost use Rattle.group_state.specs.Tuples.{has_tuple, tuple_of as tuple_by};
ghost use Rattle.std.proofs.Common.{option_map};
ghost use Rattle.std.specs.List.{list_any};
ghost use Rattle.std.specs.BTreeMap.{is_at};
ghost use Rattle.std.specs.List.Sorted.{IsStrictlySortedBy};
ghost use Rattle.std.specs.Map.{keys_of, lookup, values_of};
ghost use Rattle.std.specs.Ordering.{nat_cmp};
ghost use Rattle.std.specs.Prelude.{
  ◌≡◌,
  ◌<◌,
  ◌∷◌,
  ◌+◌,
  ◌↔◌,
  ◌&&◌,
  ◌||◌,
  All,
  IfOk,
  IsTrue,
  List,
  None,
  OnOk,
  Some,
  [],
  false,
  length,
  take,
  ℕ,
};
ghost use Rattle.values.specs.Datum.{Datum};
ghost use Rattle.values.specs.declared.key.Key.{Key};
ghost use Rattle.view_lang.specs.Cells.{rows_of};
ghost use Rattle.group_state.specs.declared.accumulated_columns.AccumulatedColumn.{AccumulatedColumn};
ghost use Rattle.view_lang.specs.Groups.{group_rows};
ghost use Rattle.view_lang.specs.Limits.{max_appended_rows};
ghost use Rattle.view_lang.specs.Shifts.{
  Fits,
  FollowsShift,
  IsFew,
  NumberedRows,
  patched,
  push_some,
  row_at,
  shift,
  with_afters,
  with_befores,
};

use crate::accumulated_columns::AccumulatedColumn;
use crate::aggregates::accumulated_columns;
use crate::group::Group;
use crate::group_reader::{GroupReader, NoReader, Readings};
use crate::group_row::{GroupRow, rows_of_first};
use crate::parts::GroupsParts;
use crate::reading::read_row;
use crate::tuple::Tuple;
use std::alloc::{AllocError, Global};
use std::collections::{BTreeMap, BTreeSet};
use std::marker::Model;
use values::{Key, Row, Value};
use view_lang::{Change, GroupOutput, RowChange, RowView, Upkeep, group_law};

/// The groups of rows that are alike in the grouping columns, each with tallies of other columns. Without grouping
/// columns all rows are one group.
#[derive(Debug, Drop)]
pub struct Groups {
    alloc: Global,
    keys: Vec<usize>,
    columns: Vec<AccumulatedColumn>,
    groups: BTreeMap<Tuple, Group>,
}

impl Model for Groups {
    ghost use Rattle.group_state.specs.Grouped.{Grouped};

    ghost Value = { Grouped };

    ghost view = { λ g. record { keys = g.keys.items; columns = g.columns.items; groups = g.groups.entries } };
}

impl Groups {
    /// The groups of no rows, by the columns `by`, with tallies of the columns `columns`.
    pub fn new(
        alloc: Global,
        by: &[usize],
        columns: &[AccumulatedColumn],
    ) -> Result<Groups, AllocError>
        ensures keys { IfOk result (λ groups. groups.keys ≡ by.now) }
        ensures columns { IfOk result (λ groups. groups.columns ≡ columns.now) }
        ensures kept { IfOk result (λ groups. Keeps groups []) }
    {
        Ok(Groups {
            alloc,
            keys: Vec::from_slice(alloc, by)?,
            columns: Vec::from_slice(alloc, columns)?,
            groups: BTreeMap::new(alloc),
        })
    }

    /// Takes the groups apart. The parts are all that they store. If memory is refused, they are lost.
    pub fn into_parts(self) -> Result<GroupsParts, AllocError>
        ensures value { IfOk result (λ parts. grouped_with parts ≡ self) }
        ensures kept { IfOk result (λ parts. AreGroups parts) }
    {
        let Groups {
            alloc,
            keys,
            columns,
            groups,
        } = self;
        let mut taken = Vec::with_capacity(alloc, groups.len())?;
        for (tuple, group) in groups {
            taken.push(group.into_parts(alloc, tuple)?)?;
        }
        Ok(GroupsParts {
            keys,
            columns,
            groups: taken,
        })
    }

    /// Makes the `Groups` that have these parts.
    pub fn from_parts(alloc: Global, parts: GroupsParts) -> Result<Groups, AllocError>
        requires { AreGroups parts }
        ensures { IfOk result (λ groups. groups ≡ grouped_with parts) }
    {
        let GroupsParts {
            keys,
            columns,
            groups,
        } = parts;
        let mut made = BTreeMap::new(alloc);
        for group in groups {
            let (tuple, group) = Group::from_parts(alloc, group)?;
            made.insert(tuple, group)?;
        }
        Ok(Groups {
            alloc,
            keys,
            columns,
            groups: made,
        })
    }

    /// The groups of no rows, by the columns `by`, with tallies of all columns that these outputs read.
    pub fn of(alloc: Global, by: &[usize], outputs: &[GroupOutput]) -> Result<Groups, AllocError>
        ensures keys { IfOk result (λ groups. groups.keys ≡ by.now) }
        ensures columns { IfOk result (λ groups. All (λ o. IsAccumulated groups.columns o.aggregate) outputs.now) }
        ensures read { IfOk result (λ groups. AreReadBy outputs.now groups.columns) }
        ensures kept { IfOk result (λ groups. Keeps groups []) }
    {
        let columns = accumulated_columns(alloc, outputs)?;
        Ok(Groups::new(alloc, by, columns.as_slice())?)
    }

    /// The rows of the first groups where they lie, ascending by their tuples, at most `most` of them. No other group
    /// is read. Of bare groups the one row lies nowhere: `bare_rows` makes it.
    pub fn first_rows<'a>(
        &'a self,
        alloc: Global,
        outputs: &'a [GroupOutput],
        most: usize,
    ) -> Result<Vec<GroupRow<'a>>, AllocError>
        requires { (length self.now.keys ≡ 0) × (length self.now.groups ≡ 0) → ⊥ }
        ensures { IfOk result (λ made. WhereRead (Keeps self.now) self.now outputs.now (λ rows. made.items
            ≡ take most (group_rows self.now.keys outputs.now rows))) }
    {
        group_law();
        Ok(rows_of_first(alloc, outputs, &self.groups, self.columns.as_slice(), most)?)
    }

    /// The rows of bare groups, thus one: without grouping columns there is one row, also where there are no rows to
    /// group.
    pub fn bare_rows(&self, alloc: Global, outputs: &[GroupOutput]) -> Result<Vec<Row>, AllocError>
        requires { (length self.now.keys ≡ 0) × (length self.now.groups ≡ 0) }
        ensures { IfOk result (λ made. WhereRead (Keeps self.now) self.now outputs.now (λ rows. rows_of made.items
            ≡ group_rows self.now.keys outputs.now rows)) }
    {
        let none = Group::new(alloc, self.columns.as_slice())?;
        let mut made = Vec::new(alloc);
        made.push(read_row(
            alloc,
            outputs,
            &Tuple::none(alloc),
            &none,
            self.columns.as_slice(),
        )?)?;
        Ok(made)
    }

    /// The row of a tuple's group, if it has one.
    pub fn row<'a>(&'a self, outputs: &'a [GroupOutput], tuple: &'a Tuple) -> Option<GroupRow<'a>>
        ensures { result ≡ seen_at outputs.now self.now tuple.now }
    {
        let columns = self.columns.as_slice();
        match self.groups.get(tuple) {
            Some(group) => Some(GroupRow::new(outputs, columns, tuple, group)),
            None => None,
        }
    }

    /// The columns that the groups accumulate.
    pub fn columns(&self) -> &[AccumulatedColumn]
        ensures { result.now ≡ self.now.columns }
    {
        &self.columns
    }

    /// The grouping columns.
    pub fn keys(&self) -> &[usize]
        ensures { result.now ≡ self.now.keys }
    {
        &self.keys
    }

    /// The group of a tuple, if it has one.
    pub fn group(&self, tuple: &Tuple) -> Option<&Group>
        ensures { option_map (λ g. g.now) result ≡ lookup (is_at (tuple_cmp tuple.now)) self.now.groups }
    {
        self.groups.get(tuple)
    }

    /// The tuple of a row.
    pub fn tuple_of<R: RowView>(&self, row: &R) -> Result<Tuple, AllocError>
        ensures { IfOk result (λ t. t ≡ tuple_by self.now.keys (R.cells row.now)) }
    {
        Tuple::of(self.alloc, self.keys.as_slice(), row)
    }

    /// The tuples of the rows of a change, those before and those after it, each once.
    pub fn touched(&self, change: &Change) -> Result<Vec<Tuple>, AllocError>
        ensures { IfOk result (λ tuples. (t : List Key) → is_tuple_among t tuples.items
            ≡ list_any (touches self.now.keys t) change.now) }
    {
        let mut tuples = BTreeSet::new(self.alloc);
        for changed in change.rows() {
            insert_tuple(
                &mut tuples,
                self.alloc,
                self.keys.as_slice(),
                changed.before(),
            )?;
            insert_tuple(
                &mut tuples,
                self.alloc,
                self.keys.as_slice(),
                changed.after(),
            )?;
        }
        in_order(self.alloc, tuples)
    }

    /// The tuples of the groups that begin with one of these values, each once, in ascending order. A list or a struct
    /// counts as a null. For each value at most one other group is visited.
    pub fn tuples_under(&self, values: &[Value]) -> Result<Vec<Tuple>, AllocError>
        ensures tuples { IfOk result (λ tuples. (t : List Key) → is_tuple_among t tuples.items
            ≡ (begins_with_one values.now t && is_tuple_among t (keys_of self.now.groups))) }
        ensures ascending { IfOk result (λ tuples. IsStrictlySortedBy tuple_cmp tuples.items) }
    {
        let firsts = keys_among(self.alloc, values)?;
        let mut tuples = BTreeSet::new(self.alloc);
        for first in firsts {
            self.insert_under(&mut tuples, &first)?;
        }
        let listed = in_order(self.alloc, tuples)?;
        Ok(listed)
    }

    /// Adds the tuples of the groups that begin with a key.
    fn insert_under(&self, tuples: &mut BTreeSet<Tuple>, first: &Key) -> Result<(), AllocError>
        ensures { OnOk result ((t : List Key) → is_tuple_among t tuples.new.keys
            ≡ (is_tuple_among t tuples.old.keys || (begins_with first.now t && is_tuple_among t
            (keys_of self.now.groups)))) }
    {
        let start = Tuple::one(first.copy(self.alloc)?);
        for (tuple, _group) in self.groups.range(&start..) {
            if !tuple.begins_with(first) {
                break;
            }
            tuples.insert(tuple.copy(self.alloc)?)?;
        }
        Ok(())
    }

    /// That the groups ascend by their tuples. It does nothing else.
    pub fn tuples_ascend(&self)
        ensures { IsStrictlySortedBy tuple_cmp (keys_of self.now.groups) }
    {
        let _size = self.groups.len();
    }

    /// Whether the groups are bare: there are neither grouping columns nor groups.
    pub fn is_bare(&self) -> bool
        ensures { IsTrue result ↔ ((length self.now.keys ≡ 0) × (length self.now.groups ≡ 0)) }
    {
        self.keys.is_empty() && self.groups.is_empty()
    }
}

impl Groups {
    /// Applies a change of rows: additions before removals.
    pub fn apply_change(&mut self, change: &Change) -> Result<(), AllocError>
        requires { (rows : NumberedRows)
            × (Keeps self.old (values_of rows) × (Fits rows change.now × IsFew rows change.now)) }
        ensures kept { OnOk result ((rows : NumberedRows) → Fits rows change.now → Keeps self.old (values_of rows)
            → Keeps self.new (values_of (patched rows change.now))) }
        ensures keys { self.new.keys ≡ self.old.keys }
        ensures columns { self.new.columns ≡ self.old.columns }
        ensures others { OnOk result (StayBut (λ t. list_any (touches self.old.keys t) change.now) self.old self.new) }
    {
        self.add_all(change.rows())?;
        self.remove_all(change.rows())?;
        Ok(())
    }

    fn add_all(&mut self, changes: &[RowChange]) -> Result<(), AllocError>
        requires { (rows : List (List Datum)) × (Keeps self.old rows
            × (length rows + length changes.now < max_appended_rows)) }
        ensures kept { OnOk result ((rows : List (List Datum)) → Keeps self.old rows
            → Keeps self.new (with_afters changes.now rows)) }
        ensures keys { self.new.keys ≡ self.old.keys }
        ensures columns { self.new.columns ≡ self.old.columns }
        ensures others { OnOk result (StayBut (λ t. list_any (comes self.old.keys t) changes.now) self.old self.new) }
    {
        for changed in changes {
            self.add_after(changed)?;
        }
        Ok(())
    }

    fn remove_all(&mut self, changes: &[RowChange]) -> Result<(), AllocError>
        requires { (rows : List (List Datum)) × Keeps self.old (with_befores changes.now rows) }
        ensures kept { OnOk result ((rows : List (List Datum)) → Keeps self.old (with_befores changes.now rows)
            → Keeps self.new rows) }
        ensures keys { self.new.keys ≡ self.old.keys }
        ensures columns { self.new.columns ≡ self.old.columns }
        ensures others { OnOk result (StayBut (λ t. list_any (goes self.old.keys t) changes.now) self.old self.new) }
    {
        for changed in changes {
            self.remove_before(changed)?;
        }
        Ok(())
    }

    /// Adds the row after a change, if there is one.
    fn add_after(&mut self, changed: &RowChange) -> Result<(), AllocError>
        requires { (rows : List (List Datum)) × (Keeps self.old rows × (length rows < max_appended_rows)) }
        ensures kept { OnOk result ((rows : List (List Datum)) → Keeps self.old rows
            → Keeps self.new (push_some changed.now.after rows)) }
        ensures keys { self.new.keys ≡ self.old.keys }
        ensures columns { self.new.columns ≡ self.old.columns }
        ensures others { OnOk result (StayBut (λ t. comes self.old.keys t changed.now) self.old self.new) }
    {
        if let Some(row) = changed.after() {
            self.add(&row)?;
        }
        Ok(())
    }

    /// Removes the row before a change, if there was one.
    fn remove_before(&mut self, changed: &RowChange) -> Result<(), AllocError>
        requires { (rows : List (List Datum)) × Keeps self.old (push_some changed.now.before rows) }
        ensures kept { OnOk result ((rows : List (List Datum)) → Keeps self.old (push_some changed.now.before rows)
            → Keeps self.new rows) }
        ensures keys { self.new.keys ≡ self.old.keys }
        ensures columns { self.new.columns ≡ self.old.columns }
        ensures others { OnOk result (StayBut (λ t. goes self.old.keys t changed.now) self.old self.new) }
    {
        if let Some(row) = changed.before() {
            self.remove(&row)?;
        }
        Ok(())
    }

    /// Inserts a row with a number that no row has. After an error the groups are meaningless.
    pub fn come<R: RowView>(&mut self, row: &R) -> Result<(), AllocError>
        requires { (rows : NumberedRows) × (Keeps self.old (values_of rows) × (length rows < max_appended_rows)) }
        ensures kept { OnOk result ((rows : NumberedRows) (n : ℕ)
            → FollowsShift (λ rs. Keeps self.old (values_of rs)) (λ rs. Keeps self.new (values_of rs))
            (shift n None (Some (R.cells row.now))) rows) }
        ensures keys { self.new.keys ≡ self.old.keys }
        ensures columns { self.new.columns ≡ self.old.columns }
        ensures others { OnOk result (StayBut (λ t. has_tuple self.old.keys t (R.cells row.now)) self.old self.new) }
    {
        let tuple = self.tuple_of(row)?;
        self.come_to(&tuple, row, &[], &NoReader)?;
        Ok(())
    }

    /// Inserts a row, of which this is the tuple, with a number that no row has. Returns what is read from the group of
    /// the tuple before and after that. After an error the groups are meaningless.
    pub fn come_to<R: RowView, S: GroupReader>(
        &mut self,
        tuple: &Tuple,
        row: &R,
        outputs: &[GroupOutput],
        reader: &S,
    ) -> Result<Readings<S::Read>, AllocError>
        requires tuple { tuple.now ≡ tuple_by self.old.keys (R.cells row.now) }
        requires rows { (rows : NumberedRows) × (Keeps self.old (values_of rows) × (length rows < max_appended_rows)) }
        ensures kept { OnOk result ((rows : NumberedRows) (n : ℕ)
            → FollowsShift (λ rs. Keeps self.old (values_of rs)) (λ rs. Keeps self.new (values_of rs))
            (shift n None (Some (R.cells row.now))) rows) }
        ensures keys { self.new.keys ≡ self.old.keys }
        ensures columns { self.new.columns ≡ self.old.columns }
        ensures others { OnOk result (StayBut (λ t. has_tuple self.old.keys t (R.cells row.now)) self.old self.new) }
        ensures before { IfOk result (λ readings.
            readings.before ≡ read_at (S.reads reader.now) outputs.now self.old tuple.now) }
        ensures after { IfOk result (λ readings.
            readings.after ≡ read_at (S.reads reader.now) outputs.now self.new tuple.now) }
    {
        Ok(self.add_to(tuple, row, outputs, reader)?)
    }

    /// Deletes the row of a number. After an error the groups are meaningless.
    pub fn go<R: RowView>(&mut self, row: &R) -> Result<(), AllocError>
        requires { (rows : NumberedRows) × (n : ℕ) × (Keeps self.old (values_of rows)
            × (IsStrictlySortedBy nat_cmp (keys_of rows) × (row_at n rows ≡ Some (R.cells row.now)))) }
        ensures kept { OnOk result ((rows : NumberedRows) (n : ℕ)
            → FollowsShift (λ rs. Keeps self.old (values_of rs)) (λ rs. Keeps self.new (values_of rs))
            (shift n (Some (R.cells row.now)) None) rows) }
        ensures keys { self.new.keys ≡ self.old.keys }
        ensures columns { self.new.columns ≡ self.old.columns }
        ensures others { OnOk result (StayBut (λ t. has_tuple self.old.keys t (R.cells row.now)) self.old self.new) }
    {
        let tuple = self.tuple_of(row)?;
        self.go_from(&tuple, row, &[], &NoReader)?;
        Ok(())
    }

    /// Deletes the row of a number, of which this is the tuple. Returns what is read from the group of the tuple before
    /// and after that. After an error the groups are meaningless.
    pub fn go_from<R: RowView, S: GroupReader>(
        &mut self,
        tuple: &Tuple,
        row: &R,
        outputs: &[GroupOutput],
        reader: &S,
    ) -> Result<Readings<S::Read>, AllocError>
        requires tuple { tuple.now ≡ tuple_by self.old.keys (R.cells row.now) }
        requires rows { (rows : NumberedRows) × (n : ℕ) × (Keeps self.old (values_of rows)
            × (IsStrictlySortedBy nat_cmp (keys_of rows) × (row_at n rows ≡ Some (R.cells row.now)))) }
        ensures kept { OnOk result ((rows : NumberedRows) (n : ℕ)
            → FollowsShift (λ rs. Keeps self.old (values_of rs)) (λ rs. Keeps self.new (values_of rs))
            (shift n (Some (R.cells row.now)) None) rows) }
        ensures keys { self.new.keys ≡ self.old.keys }
        ensures columns { self.new.columns ≡ self.old.columns }
        ensures others { OnOk result (StayBut (λ t. has_tuple self.old.keys t (R.cells row.now)) self.old self.new) }
        ensures before { IfOk result (λ readings.
            readings.before ≡ read_at (S.reads reader.now) outputs.now self.old tuple.now) }
        ensures after { IfOk result (λ readings.
            readings.after ≡ read_at (S.reads reader.now) outputs.now self.new tuple.now) }
    {
        Ok(self.remove_from(tuple, row, outputs, reader)?)
    }

    /// Adds a row.
    fn add<R: RowView>(&mut self, row: &R) -> Result<(), AllocError>
        requires { (rows : List (List Datum)) × (Keeps self.old rows × (length rows < max_appended_rows)) }
        ensures kept { OnOk result ((rows : List (List Datum)) → Keeps self.old rows
            → Keeps self.new (R.cells row.now ∷ rows)) }
        ensures keys { self.new.keys ≡ self.old.keys }
        ensures columns { self.new.columns ≡ self.old.columns }
        ensures others { OnOk result (StayBut (λ t. has_tuple self.old.keys t (R.cells row.now)) self.old self.new) }
    {
        let tuple = self.tuple_of(row)?;
        self.add_to(&tuple, row, &[], &NoReader)?;
        Ok(())
    }

    /// Adds a row of which this is the tuple. Returns what is read from the group of the tuple before and after that.
    fn add_to<R: RowView, S: GroupReader>(
        &mut self,
        tuple: &Tuple,
        row: &R,
        outputs: &[GroupOutput],
        reader: &S,
    ) -> Result<Readings<S::Read>, AllocError>
        requires tuple { tuple.now ≡ tuple_by self.old.keys (R.cells row.now) }
        requires rows { (rows : List (List Datum)) × (Keeps self.old rows × (length rows < max_appended_rows)) }
        ensures kept { OnOk result ((rows : List (List Datum)) → Keeps self.old rows
            → Keeps self.new (R.cells row.now ∷ rows)) }
        ensures keys { self.new.keys ≡ self.old.keys }
        ensures columns { self.new.columns ≡ self.old.columns }
        ensures others { OnOk result (StayBut (λ t. has_tuple self.old.keys t (R.cells row.now)) self.old self.new) }
        ensures before { IfOk result (λ readings.
            readings.before ≡ read_at (S.reads reader.now) outputs.now self.old tuple.now) }
        ensures after { IfOk result (λ readings.
            readings.after ≡ read_at (S.reads reader.now) outputs.now self.new tuple.now) }
    {
        Ok(put_row(
            &mut self.groups,
            self.alloc,
            self.columns.as_slice(),
            tuple,
            row,
            outputs,
            reader,
        )?)
    }

    /// Removes a row.
    fn remove<R: RowView>(&mut self, row: &R) -> Result<(), AllocError>
        requires { (rows : List (List Datum)) × Keeps self.old (R.cells row.now ∷ rows) }
        ensures kept { OnOk result ((rows : List (List Datum)) → Keeps self.old (R.cells row.now ∷ rows)
            → Keeps self.new rows) }
        ensures keys { self.new.keys ≡ self.old.keys }
        ensures columns { self.new.columns ≡ self.old.columns }
        ensures others { OnOk result (StayBut (λ t. has_tuple self.old.keys t (R.cells row.now)) self.old self.new) }
    {
        let tuple = self.tuple_of(row)?;
        self.remove_from(&tuple, row, &[], &NoReader)?;
        Ok(())
    }

    /// Removes a row of which this is the tuple. Returns what is read from the group of the tuple before and after
    /// that.
    fn remove_from<R: RowView, S: GroupReader>(
        &mut self,
        tuple: &Tuple,
        row: &R,
        outputs: &[GroupOutput],
        reader: &S,
    ) -> Result<Readings<S::Read>, AllocError>
        requires tuple { tuple.now ≡ tuple_by self.old.keys (R.cells row.now) }
        requires rows { (rows : List (List Datum)) × Keeps self.old (R.cells row.now ∷ rows) }
        ensures kept { OnOk result ((rows : List (List Datum)) → Keeps self.old (R.cells row.now ∷ rows)
            → Keeps self.new rows) }
        ensures keys { self.new.keys ≡ self.old.keys }
        ensures columns { self.new.columns ≡ self.old.columns }
        ensures others { OnOk result (StayBut (λ t. has_tuple self.old.keys t (R.cells row.now)) self.old self.new) }
        ensures before { IfOk result (λ readings.
            readings.before ≡ read_at (S.reads reader.now) outputs.now self.old tuple.now) }
        ensures after { IfOk result (λ readings.
            readings.after ≡ read_at (S.reads reader.now) outputs.now self.new tuple.now) }
    {
        Ok(take_row(
            &mut self.groups,
            self.alloc,
            self.columns.as_slice(),
            tuple,
            row,
            outputs,
            reader,
        )?)
    }
}

impl Groups {
    /// Adds the rows of a group, all at once: they have this tuple. Returns what is read from the group of the tuple
    /// before and after that. After an error the groups are meaningless.
    pub fn take_in<S: GroupReader>(
        &mut self,
        tuple: &Tuple,
        group: &Group,
        outputs: &[GroupOutput],
        reader: &S,
    ) -> Result<Readings<S::Read>, AllocError>
        requires part { CanTakeIn (Keeps self.old) self.old tuple.now group.now }
        ensures kept { OnOk result (TakesIn (Keeps self.old) (Keeps self.new) self.old tuple.now group.now) }
        ensures keys { self.new.keys ≡ self.old.keys }
        ensures columns { self.new.columns ≡ self.old.columns }
        ensures others { OnOk result (StayBut (λ t. is_at (tuple_cmp tuple.now) t) self.old self.new) }
        ensures before { IfOk result (λ readings.
            readings.before ≡ read_at (S.reads reader.now) outputs.now self.old tuple.now) }
        ensures after { IfOk result (λ readings.
            readings.after ≡ read_at (S.reads reader.now) outputs.now self.new tuple.now) }
    {
        Ok(put_group(
            &mut self.groups,
            self.alloc,
            self.columns.as_slice(),
            tuple,
            group,
            outputs,
            reader,
        )?)
    }

    /// Removes the rows of a group, all at once: they have this tuple. Returns what is read from the group of the tuple
    /// before and after that. The rows are removed also where that can't be read.
    pub fn give_up<S: GroupReader>(
        &mut self,
        tuple: &Tuple,
        group: &Group,
        outputs: &[GroupOutput],
        reader: &S,
    ) -> Result<Readings<S::Read>, AllocError>
        requires part { CanGiveUp (Keeps self.old) self.old tuple.now group.now }
        ensures kept { GivesUp (Keeps self.old) (Keeps self.new) self.old tuple.now group.now }
        ensures keys { self.new.keys ≡ self.old.keys }
        ensures columns { self.new.columns ≡ self.old.columns }
        ensures others { StayBut (λ t. is_at (tuple_cmp tuple.now) t) self.old self.new }
        ensures before { IfOk result (λ readings.
            readings.before ≡ read_at (S.reads reader.now) outputs.now self.old tuple.now) }
        ensures after { IfOk result (λ readings.
            readings.after ≡ read_at (S.reads reader.now) outputs.now self.new tuple.now) }
    {
        take_group(
            &mut self.groups,
            self.alloc,
            self.columns.as_slice(),
            tuple,
            group,
            outputs,
            reader,
        )
    }
}

impl Upkeep for Groups {
    ghost use Rattle.group_state.specs.Groups.{Keeps};
    ghost use Rattle.std.specs.Map.{values_of};

    ghost keeps = { λ s rows. Keeps s (values_of rows) };

    fn apply(&mut self, change: &Change) -> Result<(), AllocError> {
        self.apply_change(change)?;
        Ok(())
    }
}

/// Adds the tuple of a row, if there is a row.
fn insert_tuple(
    tuples: &mut BTreeSet<Tuple>,
    alloc: Global,
    keys: &[usize],
    row: Option<&[Value]>,
) -> Result<(), AllocError>
    ensures { OnOk result ((t : List Key) → is_tuple_among t tuples.new.keys
        ≡ (is_tuple_among t tuples.old.keys || is_of keys.now t (option_map (λ r. r.now) row.entry))) }
{
    if let Some(row) = row {
        tuples.insert(Tuple::of(alloc, keys, &row)?)?;
    }
    Ok(())
}

/// The keys among values, each once.
fn keys_among(alloc: Global, values: &[Value]) -> Result<BTreeSet<Key>, AllocError>
    ensures { IfOk result (λ keys. (k : Key) → list_any (is_at (key_cmp k)) keys.keys
        ≡ list_any (λ d. is_at (key_cmp k) (key_in d)) values.now) }
{
    let mut keys = BTreeSet::new(alloc);
    for value in values {
        keys.insert(Key::of(alloc, value)?.unwrap_or(Key::Null))?;
    }
    Ok(keys)
}

/// The tuples of a set, in ascending order.
fn in_order(alloc: Global, tuples: BTreeSet<Tuple>) -> Result<Vec<Tuple>, AllocError>
    ensures value { IfOk result (λ listed. listed.items ≡ tuples.keys) }
    ensures ascending { IfOk result (λ listed. IsStrictlySortedBy tuple_cmp listed.items) }
{
    let mut listed = Vec::with_capacity(alloc, tuples.len())?;
    for tuple in tuples {
        listed.push(tuple)?;
    }
    Ok(listed)
}

/// Adds a row to the group of its tuple. Returns what is read from the group before and after that.
fn put_row<R: RowView, S: GroupReader>(
    groups: &mut BTreeMap<Tuple, Group>,
    alloc: Global,
    columns: &[AccumulatedColumn],
    tuple: &Tuple,
    row: &R,
    outputs: &[GroupOutput],
    reader: &S,
) -> Result<Readings<S::Read>, AllocError>
    requires { (rows : List (List Datum)) × (KeepsUnder columns.now groups.old.entries tuple.now rows
        × (length rows < max_appended_rows)) }
    ensures here { OnOk result ((rows : List (List Datum)) → KeepsUnder columns.now groups.old.entries tuple.now rows
        → KeepsUnder columns.now groups.new.entries tuple.now (R.cells row.now ∷ rows)) }
    ensures others { OnOk result ((t : List Key) → is_at (tuple_cmp tuple.now) t ≡ false → group_at groups.new.entries t
        ≡ group_at groups.old.entries t) }
    ensures before { IfOk result (λ readings. readings.before
        ≡ read_under (S.reads reader.now) columns.now outputs.now groups.old.entries tuple.now) }
    ensures after { IfOk result (λ readings. readings.after
        ≡ read_under (S.reads reader.now) columns.now outputs.now groups.new.entries tuple.now) }
{
    if let Some(group) = groups.get_mut(tuple) {
        let before = reader.read(alloc, &GroupRow::new(outputs, columns, tuple, group))?;
        group.add(alloc, columns, row)?;
        let after = reader.read(alloc, &GroupRow::new(outputs, columns, tuple, group))?;
        return Ok(Readings { before, after });
    }
    let after = put_first_row(groups, alloc, columns, tuple, row, outputs, reader)?;
    Ok(Readings {
        before: None,
        after,
    })
}

/// Makes the group of a row that is the first of its tuple. Returns what is read from the group.
#[inline(never)]
fn put_first_row<R: RowView, S: GroupReader>(
    groups: &mut BTreeMap<Tuple, Group>,
    alloc: Global,
    columns: &[AccumulatedColumn],
    tuple: &Tuple,
    row: &R,
    outputs: &[GroupOutput],
    reader: &S,
) -> Result<Option<S::Read>, AllocError>
    requires { group_at groups.old.entries tuple.now ≡ None }
    ensures here { OnOk result (KeepsUnder columns.now groups.new.entries tuple.now (R.cells row.now ∷ [])) }
    ensures others { OnOk result ((t : List Key) → is_at (tuple_cmp tuple.now) t ≡ false → group_at groups.new.entries t
        ≡ group_at groups.old.entries t) }
    ensures after { IfOk result (λ read. read
        ≡ read_under (S.reads reader.now) columns.now outputs.now groups.new.entries tuple.now) }
{
    let mut group = Group::new(alloc, columns)?;
    group.add(alloc, columns, row)?;
    let after = reader.read(alloc, &GroupRow::new(outputs, columns, tuple, &group))?;
    let copy = tuple.copy(alloc)?;
    groups.insert(copy, group)?;
    Ok(after)
}

/// Removes a row from the group of its tuple, and the group with its last row. Returns what is read from the group
/// before and after that.
fn take_row<R: RowView, S: GroupReader>(
    groups: &mut BTreeMap<Tuple, Group>,
    alloc: Global,
    columns: &[AccumulatedColumn],
    tuple: &Tuple,
    row: &R,
    outputs: &[GroupOutput],
    reader: &S,
) -> Result<Readings<S::Read>, AllocError>
    requires { (rows : List (List Datum)) × KeepsUnder columns.now groups.old.entries tuple.now
        (R.cells row.now ∷ rows) }
    ensures here { OnOk result ((rows : List (List Datum))
        → KeepsUnder columns.now groups.old.entries tuple.now (R.cells row.now ∷ rows)
        → KeepsUnder columns.now groups.new.entries tuple.now rows) }
    ensures others { OnOk result ((t : List Key) → is_at (tuple_cmp tuple.now) t ≡ false → group_at groups.new.entries t
        ≡ group_at groups.old.entries t) }
    ensures before { IfOk result (λ readings. readings.before
        ≡ read_under (S.reads reader.now) columns.now outputs.now groups.old.entries tuple.now) }
    ensures after { IfOk result (λ readings. readings.after
        ≡ read_under (S.reads reader.now) columns.now outputs.now groups.new.entries tuple.now) }
{
    let Some(group) = groups.get_mut(tuple) else {
        return Ok(Readings {
            before: None,
            after: None,
        });
    };
    let before = reader.read(alloc, &GroupRow::new(outputs, columns, tuple, group))?;
    if group.rows() > 1 {
        group.remove(alloc, columns, row)?;
        let after = reader.read(alloc, &GroupRow::new(outputs, columns, tuple, group))?;
        return Ok(Readings { before, after });
    }
    drop(groups.remove(tuple));
    Ok(Readings {
        before,
        after: None,
    })
}

/// Adds the rows of a group to the group of their tuple. Returns what is read from that group before and after that.
fn put_group<S: GroupReader>(
    groups: &mut BTreeMap<Tuple, Group>,
    alloc: Global,
    columns: &[AccumulatedColumn],
    tuple: &Tuple,
    group: &Group,
    outputs: &[GroupOutput],
    reader: &S,
) -> Result<Readings<S::Read>, AllocError>
    requires { CanAddAt columns.now (group_at groups.old.entries tuple.now) group.now }
    ensures here { OnOk result (AddsAt columns.now (group_at groups.old.entries tuple.now) group.now
        (group_at groups.new.entries tuple.now)) }
    ensures others { OnOk result ((t : List Key) → is_at (tuple_cmp tuple.now) t ≡ false → group_at groups.new.entries t
        ≡ group_at groups.old.entries t) }
    ensures before { IfOk result (λ readings. readings.before
        ≡ read_under (S.reads reader.now) columns.now outputs.now groups.old.entries tuple.now) }
    ensures after { IfOk result (λ readings. readings.after
        ≡ read_under (S.reads reader.now) columns.now outputs.now groups.new.entries tuple.now) }
{
    if let Some(kept) = groups.get_mut(tuple) {
        let before = reader.read(alloc, &GroupRow::new(outputs, columns, tuple, kept))?;
        kept.take_in(alloc, group)?;
        let after = reader.read(alloc, &GroupRow::new(outputs, columns, tuple, kept))?;
        return Ok(Readings { before, after });
    }
    let mut kept = Group::new(alloc, columns)?;
    kept.take_in(alloc, group)?;
    let after = reader.read(alloc, &GroupRow::new(outputs, columns, tuple, &kept))?;
    groups.insert(tuple.copy(alloc)?, kept)?;
    Ok(Readings {
        before: None,
        after,
    })
}

/// Removes the rows of a group from the group of their tuple, and that group with its last row. Returns what is read
/// from that group before and after that.
#[tactic(auto, using(crate::proofs::Moves::none_left))]
fn take_group<S: GroupReader>(
    groups: &mut BTreeMap<Tuple, Group>,
    alloc: Global,
    columns: &[AccumulatedColumn],
    tuple: &Tuple,
    group: &Group,
    outputs: &[GroupOutput],
    reader: &S,
) -> Result<Readings<S::Read>, AllocError>
    requires { CanRemoveAt (group_at groups.old.entries tuple.now) group.now }
    ensures here { RemovesAt (group_at groups.old.entries tuple.now) group.now (group_at groups.new.entries tuple.now) }
    ensures others { (t : List Key) → is_at (tuple_cmp tuple.now) t ≡ false → group_at groups.new.entries t
        ≡ group_at groups.old.entries t }
    ensures before { IfOk result (λ readings. readings.before
        ≡ read_under (S.reads reader.now) columns.now outputs.now groups.old.entries tuple.now) }
    ensures after { IfOk result (λ readings. readings.after
        ≡ read_under (S.reads reader.now) columns.now outputs.now groups.new.entries tuple.now) }
{
    let Some(kept) = groups.get_mut(tuple) else {
        return Ok(Readings {
            before: None,
            after: None,
        });
    };
    let before = reader.read(alloc, &GroupRow::new(outputs, columns, tuple, kept));
    if kept.rows() > group.rows() {
        kept.give_up(group);
        let after = reader.read(alloc, &GroupRow::new(outputs, columns, tuple, kept))?;
        return Ok(Readings {
            before: before?,
            after,
        });
    }
    drop(groups.remove(tuple));
    Ok(Readings {
        before: before?,
        after: None,
    })
}
