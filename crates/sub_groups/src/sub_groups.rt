//! Groups of the rows of a main table by what a view looks up.

ghost use Rattle.std.specs.Prelude.{
  ◌≡◌,
  ◌&&◌,
  ◌<◌,
  [],
  IfOk,
  IfSome,
  None,
  OnOk,
  false,
  length,
  nat_lt,
  true,
  List,
  ℕ,
};
ghost use Rattle.std.specs.BTreeMap.{is_at};
ghost use Rattle.std.specs.List.Sorted.{IsStrictlySortedBy};
ghost use Rattle.std.specs.Map.{keys_of, lookup};
ghost use Rattle.std.specs.Option.{option_map};
ghost use Rattle.std.specs.Ordering.{nat_cmp};
ghost use Rattle.values.specs.declared.key.Key.{Key};
ghost use Rattle.view_lang.specs.Limits.{max_appended_rows};
ghost use Rattle.view_lang.specs.Shifts.{FollowsShift, NumberedRows, row_at, shift};
ghost use Rattle.group_state.specs.GroupParts.{AreGroups};
ghost use Rattle.group_state.specs.Groups.{Keeps};
ghost use Rattle.group_state.specs.Keys.{tuple_cmp};
ghost use Rattle.group_state.specs.Moves.{begins_with_one, is_tuple_among};
ghost use Rattle.sub_groups.specs.FilterParts.{are_decided, conjuncts};
ghost use Rattle.sub_groups.specs.Places.{representative};
ghost use Rattle.sub_groups.specs.Moved.{KeepRead, is_moved};
ghost use Rattle.sub_groups.specs.SubGroups.{
  AreSubGroups,
  IsSame,
  KeepsSubGroups,
  are_main,
  sub_groups_with,
  sub_keys,
  sub_row,
};

use crate::columns::is_among;
use crate::filter_parts::{is_filter_decided, passes_main};
use crate::representative::representative;
use group_state::{AccumulatedColumn, Group, Groups, GroupsParts, Tuple};
use std::alloc::{AllocError, Global};
use values::{Row, Value};
use view_lang::{Lookup, Outputs, RowView, View};

/// The rows of a main table that pass the part of a view's filter that it decides alone, in groups: by the cell that
/// the view looks up, and by the view's grouping columns of the main table. Each group stores what the view's own
/// groups do.
#[derive(Debug, Drop)]
pub struct SubGroups {
    groups: Groups,
}

/// The columns of the main table by which sub-groups are made.
fn sub_keys(
    alloc: Global,
    width: usize,
    lookup: Lookup,
    by: &[usize],
) -> Result<Vec<usize>, AllocError>
    ensures { IfOk result (λ keys. keys.items ≡ sub_keys width lookup by.now) }
{
    let mut keys = Vec::new(alloc);
    keys.push(lookup.on)?;
    for column in by {
        if *column < width && *column != lookup.on {
            keys.push(*column)?;
        }
    }
    Ok(keys)
}

/// Whether all of these columns are the main table's.
fn are_main(columns: &[AccumulatedColumn], width: usize) -> bool
    ensures { result ≡ are_main width columns.now }
{
    for column in columns {
        if column.column >= width {
            return false;
        }
    }
    true
}

/// Whether a view whose groups accumulate these columns can be kept by sub-groups by these keys.
fn can_sub_group(
    view: &View,
    lookup: Lookup,
    width: usize,
    columns: &[AccumulatedColumn],
    keys: &[usize],
) -> bool
    ensures on { result ≡ true → lookup.on < width }
    ensures of_main { result ≡ true → are_main width columns.now ≡ true }
    ensures decided { result ≡ true → are_decided width keys.now (conjuncts view.now.filter) ≡ true }
    ensures value { result ≡ (nat_lt lookup.on width
        && (are_main width columns.now && are_decided width keys.now (conjuncts view.now.filter))) }
{
    lookup.on < width && are_main(columns, width) && is_filter_decided(&view.filter, width, keys)
}

impl SubGroups {
    /// The sub-groups of no rows of a main table with `width` columns, for a view whose groups accumulate these
    /// columns; `None` where the view can't be kept by sub-groups.
    pub fn of(
        alloc: Global,
        view: &View,
        width: usize,
        columns: &[AccumulatedColumn],
    ) -> Result<Option<SubGroups>, AllocError>
        ensures right { IfOk result (λ made. IfSome made (AreSubGroups width view.now)) }
        ensures none { IfOk result (λ made.
            made ≡ None → KeepRead view.now.outputs columns.now → is_moved width view.now ≡ false) }
        ensures columns { IfOk result (λ made. IfSome made (λ s. s.groups.columns ≡ columns.now)) }
        ensures kept { IfOk result (λ made. IfSome made (λ s. Keeps s.groups [])) }
    {
        let (Some(lookup), Outputs::Groups { by, .. }) = (view.lookup, &view.outputs) else {
            return Ok(None);
        };
        let keys = sub_keys(alloc, width, lookup, by)?;
        if !can_sub_group(view, lookup, width, columns, &keys) {
            return Ok(None);
        }
        let groups = Groups::new(alloc, &keys, columns)?;
        Ok(Some(SubGroups { groups }))
    }

    /// Takes them apart. The parts are all that they store. If memory is refused, they are lost.
    pub fn into_parts(self) -> Result<GroupsParts, AllocError>
        ensures value { IfOk result (λ parts. sub_groups_with parts ≡ self) }
        ensures kept { IfOk result (λ parts. AreGroups parts) }
    {
        let parts = self.groups.into_parts()?;
        Ok(parts)
    }

    /// Makes the sub-groups that have these parts.
    pub fn from_parts(alloc: Global, parts: GroupsParts) -> Result<SubGroups, AllocError>
        requires { AreGroups parts }
        ensures { IfOk result (λ made. made ≡ sub_groups_with parts) }
    {
        let groups = Groups::from_parts(alloc, parts)?;
        Ok(SubGroups { groups })
    }

    /// Inserts a row of the main table, which has `width` columns, with a number that no row has. After an error the
    /// sub-groups are meaningless.
    #[tactic(auto, using(crate::proofs::Absent::absent_laws))]
    pub fn come<R: RowView>(&mut self, view: &View, width: usize, row: &R) -> Result<(), AllocError>
        requires { (rows : NumberedRows)
            × (KeepsSubGroups self.old rows × (length rows < max_appended_rows)) }
        ensures kept { OnOk result ((rows : NumberedRows) (n : ℕ)
            → FollowsShift (KeepsSubGroups self.old) (KeepsSubGroups self.new)
            (shift n None (sub_row width view.now (R.cells row.now))) rows) }
        ensures same { IsSame self.old self.new }
    {
        if passes_main(&view.filter, width, row) {
            self.groups.come(row)?;
        }
        Ok(())
    }

    /// Deletes the row of a number of the main table, which has `width` columns. After an error the sub-groups are
    /// meaningless.
    #[tactic(auto, using(crate::proofs::Absent::absent_laws))]
    pub fn go<R: RowView>(&mut self, view: &View, width: usize, row: &R) -> Result<(), AllocError>
        requires { (rows : NumberedRows) × (n : ℕ) × (KeepsSubGroups self.old rows
            × (IsStrictlySortedBy nat_cmp (keys_of rows)
            × (row_at n rows ≡ sub_row width view.now (R.cells row.now)))) }
        ensures kept { OnOk result ((rows : NumberedRows) (n : ℕ)
            → FollowsShift (KeepsSubGroups self.old) (KeepsSubGroups self.new)
            (shift n (sub_row width view.now (R.cells row.now)) None) rows) }
        ensures same { IsSame self.old self.new }
    {
        if passes_main(&view.filter, width, row) {
            self.groups.go(row)?;
        }
        Ok(())
    }

    /// The sub-group of a tuple, if it has one.
    pub fn group(&self, tuple: &Tuple) -> Option<&Group>
        ensures { option_map (λ g. g.now) result ≡ lookup (is_at (tuple_cmp tuple.now)) self.now.groups.groups }
    {
        self.groups.group(tuple)
    }

    /// The tuples of the sub-groups of the rows that look up one of these values, each once, in ascending order. No
    /// other sub-group is visited.
    pub fn tuples_under(&self, values: &[Value]) -> Result<Vec<Tuple>, AllocError>
        ensures tuples { IfOk result (λ tuples. (t : List Key) → is_tuple_among t tuples.items
            ≡ (begins_with_one values.now t && is_tuple_among t (keys_of self.now.groups.groups))) }
        ensures ascending { IfOk result (λ tuples. IsStrictlySortedBy tuple_cmp tuples.items) }
    {
        let tuples = self.groups.tuples_under(values)?;
        Ok(tuples)
    }

    /// The representative of the sub-group of a tuple, where the main table has `width` columns.
    pub fn representative(
        &self,
        alloc: Global,
        width: usize,
        tuple: &Tuple,
    ) -> Result<Row, AllocError>
        ensures { IfOk result (λ row. row.items ≡ representative width self.now.groups.keys tuple.now) }
    {
        let row = representative(alloc, self.groups.keys(), width, tuple)?;
        Ok(row)
    }
}
