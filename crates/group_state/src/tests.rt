//! Groups of a few rows, kept current through a change of them.

ghost use Rattle.std.specs.Prelude.{◌≡◌, ◌<◌, ◌++◌, ◌∷◌, [], IfOk, None, OnOk, Some, length};
ghost use Rattle.view_lang.specs.Shifts.{shift};
ghost use Rattle.values.specs.declared.key.Key.{Key};
ghost use Rattle.group_state.specs.Counts.{had};
ghost use Rattle.group_state.specs.Groups.{Keeps};
ghost use Rattle.group_state.specs.AccumulatedColumns.{counted, valued};
ghost use Rattle.group_state.specs.Sample.{cell_of, row_of, sample_change};

use crate::multiset::Multiset;
use crate::{AccumulatedColumn, Groups, NoReader};
use key_ranks::RankedKey;
use std::alloc::{AllocError, Global};
use std::cmp::Ordering;
use std::test::Fail;
use values::{CellView, Key, Kind, Row, Value, cmp_values};
use view_lang::{Aggregate, Change, GroupOutput, RowChange, Upkeep};

/// A number, or a null.
fn cell(number: Option<i128>) -> Value
    ensures { result ≡ cell_of number }
{
    match number {
        Some(number) => Value {
            kind: Kind::Int(number),
        },
        None => Value { kind: Kind::Null },
    }
}

fn row(alloc: Global, first: i128, second: Option<i128>) -> Result<Row, AllocError>
    ensures { IfOk result (λ row. row.items ≡ row_of first second) }
{
    let mut cells = Vec::new(alloc);
    cells.push(cell(Some(first)))?;
    cells.push(cell(second))?;
    Ok(cells)
}

/// The change in which a row is inserted.
fn add(
    alloc: Global,
    change: &mut Change,
    number: usize,
    first: i128,
    second: Option<i128>,
) -> Result<(), AllocError>
    ensures { OnOk result (change.new ≡ change.old ++ shift number None (Some (row_of first second)) ∷ []) }
{
    let row = row(alloc, first, second)?;
    change.push(RowChange::new(number, None, Some(row)))?;
    Ok(())
}

/// The change in which a row is deleted.
fn remove(
    alloc: Global,
    change: &mut Change,
    number: usize,
    first: i128,
    second: Option<i128>,
) -> Result<(), AllocError>
    ensures { OnOk result (change.new ≡ change.old ++ shift number (Some (row_of first second)) None ∷ []) }
{
    let row = row(alloc, first, second)?;
    change.push(RowChange::new(number, Some(row), None))?;
    Ok(())
}

/// Three rows of 7 and one of 5 are inserted, of which a 7 and the 5 are deleted.
fn sample(alloc: Global) -> Result<Change, AllocError>
    ensures { IfOk result (λ change. change ≡ sample_change) }
{
    let mut change = Change::new(alloc);
    add(alloc, &mut change, 0, 7, Some(3))?;
    add(alloc, &mut change, 1, 7, None)?;
    add(alloc, &mut change, 2, 5, Some(4))?;
    add(alloc, &mut change, 3, 7, Some(9))?;
    remove(alloc, &mut change, 2, 5, Some(4))?;
    remove(alloc, &mut change, 3, 7, Some(9))?;
    Ok(change)
}

fn output(alloc: Global, aggregate: Aggregate) -> Result<GroupOutput, AllocError> {
    Ok(GroupOutput {
        name: String::from_str(alloc, "shown")?,
        aggregate,
    })
}

/// The first column, the number of rows, and the other aggregates of the second column.
fn outputs(alloc: Global) -> Result<Vec<GroupOutput>, AllocError> {
    let mut outputs = Vec::new(alloc);
    outputs.push(output(alloc, Aggregate::Key(0))?)?;
    outputs.push(output(alloc, Aggregate::Count)?)?;
    outputs.push(output(alloc, Aggregate::CountOf(1))?)?;
    outputs.push(output(alloc, Aggregate::Distinct(1))?)?;
    outputs.push(output(alloc, Aggregate::Sum(1))?)?;
    outputs.push(output(alloc, Aggregate::Least(1))?)?;
    outputs.push(output(alloc, Aggregate::Greatest(1))?)?;
    Ok(outputs)
}

fn is_row(cells: &[Value], numbers: &[i128]) -> bool {
    cells.len() == numbers.len()
        && cells
            .iter()
            .zip(numbers)
            .all(|(a, b)| cmp_values(a, &cell(Some(*b))) == Ordering::Equal)
}

/// Whether this is the row of the one group.
fn is_shown(
    alloc: Global,
    groups: &Groups,
    outputs: &[GroupOutput],
    numbers: &[i128],
) -> Result<bool, AllocError> {
    if groups.is_bare() {
        return Ok(false);
    }
    let shown = groups.first_rows(alloc, outputs, 2)?;
    let [only] = shown.as_slice() else {
        return Ok(false);
    };
    let row = only.copy(alloc)?;
    Ok(is_row(row.as_slice(), numbers))
}

/// The groups by the first column that the sample leads to.
fn sample_groups(alloc: Global, outputs: &[GroupOutput]) -> Result<Groups, AllocError> {
    let mut groups = Groups::of(alloc, &[0], outputs)?;
    let change = sample(alloc)?;
    groups.apply(&change)?;
    Ok(groups)
}

#[test]
fn keeps_groups_through_a_change(rt: HostRuntime) -> Result<(), Fail> {
    let outputs = outputs(rt.alloc())?;
    let groups = sample_groups(rt.alloc(), &outputs)?;
    let shown = is_shown(rt.alloc(), &groups, &outputs, &[7, 2, 1, 1, 3, 3, 3])?;
    assert!(rt; shown);
    Ok(())
}

/// The groups by the first column of one row of 7, after another was inserted and deleted.
fn followed_groups(alloc: Global, outputs: &[GroupOutput]) -> Result<Groups, AllocError> {
    let three = row(alloc, 7, Some(3))?;
    let five = row(alloc, 7, Some(5))?;
    let mut groups = Groups::of(alloc, &[0], outputs)?;
    groups.come(&three.as_slice())?;
    groups.come(&five.as_slice())?;
    groups.go(&three.as_slice())?;
    Ok(groups)
}

#[test]
fn follows_rows_that_come_and_go(rt: HostRuntime) -> Result<(), Fail> {
    let outputs = outputs(rt.alloc())?;
    let groups = followed_groups(rt.alloc(), &outputs)?;
    let shown = is_shown(rt.alloc(), &groups, &outputs, &[7, 1, 1, 1, 5, 5, 5])?;
    assert!(rt; shown);
    Ok(())
}

#[test]
fn makes_groups_of_their_parts(rt: HostRuntime) -> Result<(), Fail> {
    let outputs = outputs(rt.alloc())?;
    let parts = sample_groups(rt.alloc(), &outputs)?.into_parts()?;
    assert_eq!(rt; parts.groups.len(), 1);
    let made = Groups::from_parts(rt.alloc(), parts)?;
    let shown = is_shown(rt.alloc(), &made, &outputs, &[7, 2, 1, 1, 3, 3, 3])?;
    assert!(rt; shown);
    Ok(())
}

/// The groups by the first column of one row.
fn one_group(alloc: Global, row: &[Value]) -> Result<Groups, AllocError>
    ensures keys { IfOk result (λ groups. groups.keys ≡ 0 ∷ []) }
    ensures columns { IfOk result (λ groups. groups.columns ≡ counted 1 ∷ valued 1 ∷ []) }
    ensures kept { IfOk result (λ groups. Keeps groups (row.now ∷ [])) }
{
    let columns = [AccumulatedColumn::counted(1), AccumulatedColumn::valued(1)];
    let mut groups = Groups::new(alloc, &[0], &columns)?;
    groups.come(&row)?;
    Ok(groups)
}

/// The group of one row is added to that of another.
fn groups_with_more(alloc: Global, row: &[Value], other: &[Value]) -> Result<Groups, AllocError> {
    let ones = one_group(alloc, other)?;
    let mut groups = one_group(alloc, row)?;
    let tuple = ones.tuple_of(&other)?;
    if let Some(group) = ones.group(&tuple) {
        groups.take_in(&tuple, group, &[], &NoReader)?;
    }
    Ok(groups)
}

#[test]
fn takes_a_group_in(rt: HostRuntime) -> Result<(), Fail> {
    let three = row(rt.alloc(), 7, Some(3))?;
    let five = row(rt.alloc(), 7, Some(5))?;
    let groups = groups_with_more(rt.alloc(), five.as_slice(), three.as_slice())?;
    let outputs = outputs(rt.alloc())?;
    let shown = is_shown(rt.alloc(), &groups, &outputs, &[7, 2, 2, 2, 8, 3, 5])?;
    assert!(rt; shown);
    Ok(())
}

/// One of two rows is removed as a group.
fn groups_with_less(alloc: Global, row: &[Value], other: &[Value]) -> Result<Groups, AllocError> {
    let ones = one_group(alloc, other)?;
    let mut groups = one_group(alloc, row)?;
    groups.come(&other)?;
    let tuple = ones.tuple_of(&other)?;
    if let Some(group) = ones.group(&tuple) {
        groups.give_up(&tuple, group, &[], &NoReader)?;
    }
    Ok(groups)
}

#[test]
fn gives_a_group_up(rt: HostRuntime) -> Result<(), Fail> {
    let three = row(rt.alloc(), 7, Some(3))?;
    let five = row(rt.alloc(), 7, Some(5))?;
    let groups = groups_with_less(rt.alloc(), five.as_slice(), three.as_slice())?;
    let outputs = outputs(rt.alloc())?;
    let shown = is_shown(rt.alloc(), &groups, &outputs, &[7, 1, 1, 1, 5, 5, 5])?;
    assert!(rt; shown);
    Ok(())
}

#[test]
fn finds_tuples_under_values(rt: HostRuntime) -> Result<(), Fail> {
    let outputs = outputs(rt.alloc())?;
    let groups = sample_groups(rt.alloc(), &outputs)?;
    let tuples = groups.tuples_under(&[cell(Some(5)), cell(Some(7)), cell(Some(7))])?;
    let [sevens] = tuples.as_slice() else {
        return Err(Fail::from("not one tuple"));
    };
    assert_eq!(rt; sevens.len(), 1);
    Ok(())
}

/// Twenty whole numbers of 64 bits.
const NUMBERS: [i128; 20] = [
    3,
    -1,
    4,
    i64::MAX as i128,
    -5,
    9,
    2,
    -6,
    i64::MIN as i128,
    8,
    -3,
    1,
    0,
    -4,
    7,
    -2,
    6,
    5,
    -8,
    -7,
];

/// The multiset of these numbers.
fn multiset_of(alloc: Global, numbers: &[i128]) -> Result<Multiset, AllocError>
    requires { length numbers.now < 100 }
    ensures { IfOk result (λ values. (q : Key) → had values q < 100) }
{
    let mut values = Multiset::new();
    for number in numbers {
        values.add(alloc, RankedKey::new(Key::Int(*number)))?;
    }
    Ok(values)
}

/// Each of these numbers is removed once.
fn remove_each(values: &mut Multiset, numbers: &[i128]) {
    for number in numbers {
        let key = RankedKey::new(Key::Int(*number));
        values.remove(&key);
    }
}

fn is_number(cell: CellView<'_>, number: i128) -> bool {
    match cell {
        CellView::Int(shown) => shown == number,
        _ => false,
    }
}

#[test]
fn keeps_many_numbers(rt: HostRuntime) -> Result<(), Fail> {
    let mut values = multiset_of(rt.alloc(), &NUMBERS)?;
    let others = multiset_of(rt.alloc(), &NUMBERS)?;
    values.take_in(rt.alloc(), &others)?;
    assert_eq!(rt; values.count_distinct(), 20);
    assert!(rt; is_number(values.view_least(), i64::MIN as i128));
    assert!(rt; is_number(values.view_greatest(), i64::MAX as i128));
    remove_each(&mut values, &NUMBERS);
    assert_eq!(rt; values.count_distinct(), 20);
    values.give_up(&others);
    assert_eq!(rt; values.count_distinct(), 0);
    assert!(rt; values.view_least().is_null());
    assert!(rt; values.view_greatest().is_null());
    Ok(())
}

#[test]
fn widens_many_numbers_for_a_longer_one(rt: HostRuntime) -> Result<(), Fail> {
    let longer = RankedKey::new(Key::Int(1 << 70));
    let mut values = multiset_of(rt.alloc(), &NUMBERS)?;
    values.remove(&longer);
    assert_eq!(rt; values.count_distinct(), 20);
    values.add(rt.alloc(), longer.copy(rt.alloc())?)?;
    assert_eq!(rt; values.count_distinct(), 21);
    assert!(rt; is_number(values.view_least(), i64::MIN as i128));
    assert!(rt; is_number(values.view_greatest(), 1 << 70));
    remove_each(&mut values, &NUMBERS);
    assert_eq!(rt; values.count_distinct(), 1);
    assert!(rt; is_number(values.view_least(), 1 << 70));
    values.remove(&longer);
    assert_eq!(rt; values.count_distinct(), 0);
    Ok(())
}

#[test]
fn widens_many_numbers_for_a_null(rt: HostRuntime) -> Result<(), Fail> {
    let mut values = multiset_of(rt.alloc(), &NUMBERS)?;
    values.add(rt.alloc(), RankedKey::new(Key::Null))?;
    let least = values.least_value(rt.alloc())?;
    let greatest = values.greatest_value(rt.alloc())?;
    assert_eq!(rt; values.count_distinct(), 21);
    assert!(rt; is_number(least.view(), i64::MIN as i128));
    assert!(rt; greatest.view().is_null());
    let parts = values.into_parts(rt.alloc())?;
    assert_eq!(rt; parts.counts.len(), 21);
    Ok(())
}
