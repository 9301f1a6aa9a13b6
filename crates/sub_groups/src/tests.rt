//! Sub-groups of a few rows, kept current while rows are inserted and deleted.

use crate::{SubGroups, passes_others};
use group_state::{AccumulatedColumn, AccumulatorForm};
use std::alloc::{AllocError, Global};
use std::cmp::Ordering;
use std::test::Fail;
use values::{Kind, Row, Value, cmp_values};
use view_lang::{Comparison, Filter, Lookup, Missing, Operand, Outputs, Test, View};

/// The main table has a key, the column that is looked up, the grouping column, and an amount. The side table has a
/// key, a zone and a limit after them.
const WIDTH: usize = 4;

const LOOKED_UP: usize = 1;

const CATEGORY: usize = 2;

const AMOUNT: usize = 3;

const ZONE: usize = 5;

const LIMIT: usize = 6;

fn int(number: i128) -> Value {
    Value {
        kind: Kind::Int(number),
    }
}

fn row(alloc: Global, numbers: &[i128]) -> Result<Row, AllocError> {
    let mut cells = Vec::new(alloc);
    for number in numbers {
        cells.push(int(*number))?;
    }
    Ok(cells)
}

fn above(column: usize, with: Operand) -> Filter {
    Filter {
        test: Test::Compare {
            comparison: Comparison::Above,
            column,
            with,
        },
    }
}

/// The zone is above 10, and the amount above this.
fn zone_and_amount(alloc: Global, with: Operand) -> Result<Filter, AllocError> {
    let mut parts = Vec::new(alloc);
    parts.push(above(ZONE, Operand::Constant(int(10))))?;
    parts.push(above(AMOUNT, with))?;
    Ok(Filter {
        test: Test::And(parts),
    })
}

/// A view of groups by the category and the zone.
fn view(alloc: Global, filter: Filter) -> Result<View, AllocError> {
    Ok(View {
        name: String::from_str(alloc, "zones")?,
        lookup: Some(Lookup {
            side: 0,
            on: LOOKED_UP,
            missing: Missing::Drop,
            columns: 3,
        }),
        filter: Some(filter),
        outputs: Outputs::Groups {
            by: Vec::from_slice(alloc, &[CATEGORY, ZONE])?,
            columns: Vec::new(alloc),
            having: None,
        },
        order: Vec::new(alloc),
        first: None,
        coded_outputs: Vec::new(alloc),
    })
}

fn summed(column: usize) -> AccumulatedColumn {
    AccumulatedColumn {
        column,
        form: AccumulatorForm::Total,
    }
}

fn is_row(cells: &[Value], expected: &[Value]) -> bool {
    cells.len() == expected.len()
        && cells
            .iter()
            .zip(expected)
            .all(|(a, b)| cmp_values(a, b) == Ordering::Equal)
}

/// Whether there are sub-groups for a view with this filter that sums a column.
fn are_made(alloc: Global, filter: Filter, column: usize) -> Result<bool, AllocError> {
    let view = view(alloc, filter)?;
    let made = SubGroups::of(alloc, &view, WIDTH, &[summed(column)])?;
    Ok(made.is_some())
}

#[test]
fn makes_sub_groups_where_rows_move_together(rt: HostRuntime) -> Result<(), Fail> {
    let alloc = rt.alloc();
    let constant = zone_and_amount(alloc, Operand::Constant(int(2)))?;
    assert_eq!(rt; are_made(alloc, constant, AMOUNT), Ok(true));
    let looked_up = above(LIMIT, Operand::Column(LOOKED_UP));
    assert_eq!(rt; are_made(alloc, looked_up, AMOUNT), Ok(true));
    // Rows that are alike in the cell that they look up and in the category may differ in the amount.
    let limited = zone_and_amount(alloc, Operand::Column(LIMIT))?;
    assert_eq!(rt; are_made(alloc, limited, AMOUNT), Ok(false));
    let constant = zone_and_amount(alloc, Operand::Constant(int(2)))?;
    assert_eq!(rt; are_made(alloc, constant, LIMIT), Ok(false));
    Ok(())
}

#[test]
fn asks_the_other_parts(rt: HostRuntime) -> Result<(), Fail> {
    let filter = Some(zone_and_amount(rt.alloc(), Operand::Constant(int(2)))?);
    // The amount isn't tested here.
    let far = row(rt.alloc(), &[1, 7, 3, 0, 7, 11, 9])?;
    assert!(rt; passes_others(&filter, WIDTH, &far.as_slice()));
    let near = row(rt.alloc(), &[1, 7, 3, 5, 7, 10, 9])?;
    assert!(rt; !passes_others(&filter, WIDTH, &near.as_slice()));
    Ok(())
}

/// The sub-groups of a row that looks up 7, after one that looks up 8 was inserted and deleted and another of 7 failed
/// the main table's part of the filter.
fn followed(alloc: Global, view: &View) -> Result<Option<SubGroups>, AllocError> {
    let gone = row(alloc, &[1, 8, 3, 9])?;
    let seven = row(alloc, &[2, 7, 3, 6])?;
    let low = row(alloc, &[3, 7, 3, 1])?;
    let Some(mut made) = SubGroups::of(alloc, view, WIDTH, &[summed(AMOUNT)])? else {
        return Ok(None);
    };
    made.come(view, WIDTH, &gone.as_slice())?;
    made.come(view, WIDTH, &seven.as_slice())?;
    made.come(view, WIDTH, &low.as_slice())?;
    made.go(view, WIDTH, &gone.as_slice())?;
    Ok(Some(made))
}

fn sample(alloc: Global) -> Result<Option<SubGroups>, AllocError> {
    let view = view(alloc, zone_and_amount(alloc, Operand::Constant(int(2)))?)?;
    followed(alloc, &view)
}

#[test]
fn follows_rows_that_come_and_go(rt: HostRuntime) -> Result<(), Fail> {
    let Some(sub_groups) = sample(rt.alloc())? else {
        return Err(Fail::from("no sub-groups"));
    };
    let tuples = sub_groups.tuples_under(&[int(7), int(8)])?;
    let [seven] = tuples.as_slice() else {
        return Err(Fail::from("not one tuple"));
    };
    assert!(rt; sub_groups.group(seven).is_some());
    let representative = sub_groups.representative(rt.alloc(), WIDTH, seven)?;
    let null = Value { kind: Kind::Null };
    let other = Value { kind: Kind::Null };
    assert!(rt; is_row(&representative, &[null, int(7), int(3), other]));
    Ok(())
}

#[test]
fn makes_sub_groups_of_their_parts(rt: HostRuntime) -> Result<(), Fail> {
    let Some(sub_groups) = sample(rt.alloc())? else {
        return Err(Fail::from("no sub-groups"));
    };
    let parts = sub_groups.into_parts()?;
    let [seven] = parts.groups.as_slice() else {
        return Err(Fail::from("not one sub-group"));
    };
    assert_eq!(rt; seven.rows, 1);
    let made = SubGroups::from_parts(rt.alloc(), parts)?;
    assert_eq!(rt; made.tuples_under(&[int(7)])?.len(), 1);
    Ok(())
}
