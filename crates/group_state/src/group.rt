//! A group: the number of its rows, and a tally for each column that outputs read.

ghost use Rattle.std.specs.Prelude.{◌≡◌, ◌<◌, ◌∷◌, ◌++◌, ◌+◌, ◌-◌, List, OnOk, IfOk, length, []};
ghost use Rattle.values.specs.Datum.{Datum};
ghost use Rattle.std.proofs.Common.{option_map};
ghost use Rattle.group_state.specs.GroupParts.{IsGroup, group_with};
ghost use Rattle.group_state.specs.Moves.{Adds, CanAdd};
ghost use Rattle.group_state.specs.Rows.{KeepsRows, KeepsEach};
ghost use Rattle.group_state.specs.Seen.{index_from, tally_at};
ghost use Rattle.group_state.specs.declared.accumulated_columns.AccumulatedColumn.{AccumulatedColumn};
ghost use Rattle.view_lang.specs.Limits.{max_appended_rows};

use crate::accumulated_columns::AccumulatedColumn;
use crate::parts::GroupParts;
use crate::tally::Tally;
use crate::tuple::Tuple;
use std::alloc::{AllocError, Global};
use std::marker::Model;
use view_lang::RowView;

/// What is stored for a group: the number of its rows, and a tally of each column that outputs read.
#[derive(Debug, Drop)]
pub struct Group {
    rows: u64,
    tallies: Vec<Tally>,
}

impl Model for Group {
    ghost use Rattle.group_state.specs.GroupCounts.{GroupCounts};

    ghost Value = { GroupCounts };

    ghost view = { λ g. record { rows = g.rows; tallies = g.tallies.items } };
}

impl Group {
    /// A group without rows.
    pub(crate) fn new(alloc: Global, columns: &[AccumulatedColumn]) -> Result<Group, AllocError>
        ensures { IfOk result (λ g. KeepsRows columns.now g []) }
    {
        let mut tallies = Vec::with_capacity(alloc, columns.len())?;
        for column in columns {
            tallies.push(Tally::new(column.form))?;
        }
        Ok(Group { rows: 0, tallies })
    }

    /// Takes the group apart, together with the tuple that its rows have. If memory is refused, it is lost.
    pub(crate) fn into_parts(self, alloc: Global, tuple: Tuple) -> Result<GroupParts, AllocError>
        ensures value { IfOk result (λ parts. group_with parts ≡ (tuple, self)) }
        ensures kept { IfOk result (λ parts. IsGroup parts) }
    {
        let Group { rows, tallies } = self;
        let tuple = tuple.into_keys(alloc)?;
        let mut taken = Vec::with_capacity(alloc, tallies.len())?;
        for tally in tallies {
            taken.push(tally.into_parts(alloc)?)?;
        }
        Ok(GroupParts {
            tuple,
            rows,
            tallies: taken,
        })
    }

    /// Makes the group that has these parts, and the tuple that its rows have.
    pub(crate) fn from_parts(alloc: Global, parts: GroupParts) -> Result<(Tuple, Group), AllocError>
        requires { IsGroup parts }
        ensures { IfOk result (λ made. made ≡ group_with parts) }
    {
        let GroupParts {
            tuple,
            rows,
            tallies,
        } = parts;
        let tuple = Tuple::from_keys(alloc, tuple)?;
        let mut made = Vec::with_capacity(alloc, tallies.len())?;
        for tally in tallies {
            made.push(Tally::from_parts(alloc, tally)?)?;
        }
        let group = Group {
            rows,
            tallies: made,
        };
        Ok((tuple, group))
    }

    /// How many rows it has.
    pub(crate) fn rows(&self) -> u64
        ensures { result ≡ self.now.rows }
    {
        self.rows
    }

    /// The tally of a column in a form; `None` if the group has none.
    pub(crate) fn tally(
        &self,
        columns: &[AccumulatedColumn],
        column: AccumulatedColumn,
    ) -> Option<&Tally>
        ensures { option_map (λ t. t.now) result ≡ tally_at columns.now self.now.tallies column }
    {
        match place(columns, column) {
            Some(i) => self.tallies.get(i),
            None => None,
        }
    }

    /// Adds a row.
    pub(crate) fn add<R: RowView>(
        &mut self,
        alloc: Global,
        columns: &[AccumulatedColumn],
        row: &R,
    ) -> Result<(), AllocError>
        requires { (rows : List (List Datum)) × (KeepsRows columns.now self.old rows
            × (length rows < max_appended_rows)) }
        ensures { OnOk result ((rows : List (List Datum)) → KeepsRows columns.now self.old rows
            → KeepsRows columns.now self.new (R.cells row.now ∷ rows)) }
    {
        add_each(self.tallies.as_mut_slice(), alloc, columns, row)?;
        self.rows += 1;
        Ok(())
    }

    /// Removes a row.
    pub(crate) fn remove<R: RowView>(
        &mut self,
        alloc: Global,
        columns: &[AccumulatedColumn],
        row: &R,
    ) -> Result<(), AllocError>
        requires { (rows : List (List Datum)) × KeepsRows columns.now self.old (R.cells row.now ∷ rows) }
        ensures { OnOk result ((rows : List (List Datum)) → KeepsRows columns.now self.old (R.cells row.now ∷ rows)
            → KeepsRows columns.now self.new rows) }
    {
        remove_each(self.tallies.as_mut_slice(), alloc, columns, row)?;
        self.rows -= 1;
        Ok(())
    }

    /// Adds the rows of another group of the same columns.
    pub(crate) fn take_in(&mut self, alloc: Global, other: &Group) -> Result<(), AllocError>
        requires { CanAdd (λ cs. KeepsRows cs self.old) (λ cs. KeepsRows cs other.now) }
        ensures kept { OnOk result (Adds (λ cs. KeepsRows cs self.old) (λ cs. KeepsRows cs other.now)
            (λ cs. KeepsRows cs self.new)) }
        ensures rows { OnOk result (self.new.rows ≡ self.old.rows + other.now.rows) }
    {
        take_in_each(self.tallies.as_mut_slice(), alloc, other.tallies.as_slice())?;
        self.rows += other.rows;
        Ok(())
    }

    /// Removes the rows of another group of the same columns.
    pub(crate) fn give_up(&mut self, other: &Group)
        requires { (columns : List AccumulatedColumn) × (rest : List (List Datum)) × (moved : List (List Datum))
            × (KeepsRows columns self.old (moved ++ rest) × KeepsRows columns other.now moved) }
        ensures kept { (columns : List AccumulatedColumn) (rest moved : List (List Datum))
            → KeepsRows columns self.old (moved ++ rest) → KeepsRows columns other.now moved
            → KeepsRows columns self.new rest }
        ensures rows { self.new.rows ≡ self.old.rows - other.now.rows }
    {
        give_up_each(self.tallies.as_mut_slice(), other.tallies.as_slice());
        self.rows -= other.rows;
    }
}

fn take_in_each(tallies: &mut [Tally], alloc: Global, others: &[Tally]) -> Result<(), AllocError>
    requires { CanAdd (λ cs. KeepsEach cs tallies.old) (λ cs. KeepsEach cs others.now) }
    ensures { OnOk result (Adds (λ cs. KeepsEach cs tallies.old) (λ cs. KeepsEach cs others.now)
        (λ cs. KeepsEach cs tallies.new)) }
{
    for i in 0..others.len() {
        tallies[i].take_in(alloc, &others[i])?;
    }
    Ok(())
}

fn give_up_each(tallies: &mut [Tally], others: &[Tally])
    requires { (columns : List AccumulatedColumn) × (rest : List (List Datum)) × (moved : List (List Datum))
        × (KeepsEach columns tallies.old (moved ++ rest) × KeepsEach columns others.now moved) }
    ensures { (columns : List AccumulatedColumn) (rest moved : List (List Datum))
        → KeepsEach columns tallies.old (moved ++ rest) → KeepsEach columns others.now moved
        → KeepsEach columns tallies.new rest }
{
    for i in 0..others.len() {
        tallies[i].give_up(&others[i]);
    }
}

fn add_each<R: RowView>(
    tallies: &mut [Tally],
    alloc: Global,
    columns: &[AccumulatedColumn],
    row: &R,
) -> Result<(), AllocError>
    requires { (rows : List (List Datum)) × (KeepsEach columns.now tallies.old rows
        × (length rows < max_appended_rows)) }
    ensures { OnOk result ((rows : List (List Datum)) → KeepsEach columns.now tallies.old rows
        → KeepsEach columns.now tallies.new (R.cells row.now ∷ rows)) }
{
    for i in 0..columns.len() {
        tallies[i].add(alloc, row, columns[i].column)?;
    }
    Ok(())
}

fn remove_each<R: RowView>(
    tallies: &mut [Tally],
    alloc: Global,
    columns: &[AccumulatedColumn],
    row: &R,
) -> Result<(), AllocError>
    requires { (rows : List (List Datum)) × KeepsEach columns.now tallies.old (R.cells row.now ∷ rows) }
    ensures { OnOk result ((rows : List (List Datum)) → KeepsEach columns.now tallies.old (R.cells row.now ∷ rows)
        → KeepsEach columns.now tallies.new rows) }
{
    for i in 0..columns.len() {
        tallies[i].remove(alloc, row, columns[i].column)?;
    }
    Ok(())
}

/// The index of a column in a form among others.
fn place(columns: &[AccumulatedColumn], column: AccumulatedColumn) -> Option<usize>
    ensures { result ≡ index_from 0 columns.now column }
{
    for i in 0..columns.len() {
        if columns[i].is_same(column) {
            return Some(i);
        }
    }
    None
}
