//! Rows that views filter, join, group, sort and limit.

ghost use Rattle.std.specs.Prelude.{◌≡◌, ◌≤◌, IfOk, List, length};
ghost use Rattle.values.specs.Datum.{Datum};
ghost use Rattle.values.specs.Limits.{max_main_rows};
ghost use Rattle.view_lang.specs.Sums.{CanSum};

use crate::{
    Aggregate, Change, Comparison, Direction, Filter, GroupOutput, Operand, OrderBy, Output,
    Outputs, RowChange, RowView, ShownRow, Test, View, project,
};
use std::alloc::{AllocError, Global};
use std::cmp::Ordering;
use std::test::Fail;
use values::{Kind, Row, Value, cmp_values};

const NULL: i128 = -1000;

/// A number, or null for `NULL`.
fn cell(number: i128) -> Value {
    if number == NULL {
        return Value { kind: Kind::Null };
    }
    Value {
        kind: Kind::Int(number),
    }
}

fn row(alloc: Global, numbers: &[i128]) -> Result<Row, AllocError> {
    let mut cells = Vec::new(alloc);
    for number in numbers {
        cells.push(cell(*number))?;
    }
    Ok(cells)
}

fn is_row(cells: &[Value], numbers: &[i128]) -> bool {
    cells.len() == numbers.len()
        && cells
            .iter()
            .zip(numbers)
            .all(|(a, b)| cmp_values(a, &cell(*b)) == Ordering::Equal)
}

/// The first column isn't below zero.
fn at_least_zero() -> Filter {
    Filter {
        test: Test::Compare {
            comparison: Comparison::AtLeast,
            column: 0,
            with: Operand::Constant(cell(0)),
        },
    }
}

fn negation(alloc: Global, filter: Filter) -> Result<Filter, AllocError> {
    Ok(Filter {
        test: Test::Not(Box::new(alloc, filter)?),
    })
}

fn output(alloc: Global, column: usize) -> Result<Output, AllocError> {
    Ok(Output {
        name: String::from_str(alloc, "shown")?,
        column,
    })
}

/// A view of the first column.
fn plain(alloc: Global) -> Result<View, AllocError> {
    let mut outputs = Vec::new(alloc);
    outputs.push(output(alloc, 0)?)?;
    Ok(View {
        name: String::from_str(alloc, "plain")?,
        lookup: None,
        filter: None,
        outputs: Outputs::Columns(outputs),
        order: Vec::new(alloc),
        first: None,
        coded_outputs: Vec::new(alloc),
    })
}

#[test]
fn a_comparison_with_null_is_unknown(rt: HostRuntime) -> Result<(), Fail> {
    let filter = negation(rt.alloc(), at_least_zero())?;
    assert_eq!(rt;
        filter.truth(&row(rt.alloc(), &[5])?.as_slice()),
        Some(false)
    );
    assert_eq!(rt; filter.truth(&row(rt.alloc(), &[NULL])?.as_slice()), None);
    assert_eq!(rt;
        filter.truth(&row(rt.alloc(), &[-1])?.as_slice()),
        Some(true)
    );
    Ok(())
}

/// Both filters, or one of them.
fn pair(alloc: Global, both: bool, a: Filter, b: Filter) -> Result<Filter, AllocError> {
    let mut parts = Vec::new(alloc);
    parts.push(a)?;
    parts.push(b)?;
    let test = if both {
        Test::And(parts)
    } else {
        Test::Or(parts)
    };
    Ok(Filter { test })
}

fn is_null(column: usize) -> Filter {
    Filter {
        test: Test::IsNull(column),
    }
}

#[test]
fn an_unknown_part_may_leave_all_known(rt: HostRuntime) -> Result<(), Fail> {
    let null = row(rt.alloc(), &[NULL])?;
    let both = pair(rt.alloc(), true, at_least_zero(), is_null(0))?;
    assert_eq!(rt; both.truth(&null.as_slice()), None);
    let one = pair(rt.alloc(), false, at_least_zero(), is_null(0))?;
    assert_eq!(rt; one.truth(&null.as_slice()), Some(true));
    let neither = negation(rt.alloc(), is_null(0))?;
    let both = pair(rt.alloc(), true, at_least_zero(), neither)?;
    assert_eq!(rt; both.truth(&null.as_slice()), Some(false));
    Ok(())
}

#[test]
fn keeps_what_is_true(rt: HostRuntime) -> Result<(), Fail> {
    let mut view = plain(rt.alloc())?;
    assert!(rt; view.keeps(&row(rt.alloc(), &[NULL])?.as_slice()));
    view.filter = Some(at_least_zero());
    assert!(rt; view.keeps(&row(rt.alloc(), &[0])?.as_slice()));
    assert!(rt; !view.keeps(&row(rt.alloc(), &[NULL])?.as_slice()));
    Ok(())
}

#[test]
fn shows_rows_where_they_lie(rt: HostRuntime) -> Result<(), Fail> {
    let cells = row(rt.alloc(), &[5, NULL])?;
    let outputs = [output(rt.alloc(), 1)?, output(rt.alloc(), 0)?];
    let shown = ShownRow {
        outputs: &outputs,
        row: &cells.as_slice(),
    };
    assert!(rt; shown.cell(0).is_null());
    assert!(rt; !shown.cell(1).is_null());
    assert!(rt; shown.cell(2).is_null());
    assert!(rt;
        is_row(
            &project(rt.alloc(), &outputs, &cells.as_slice())?,
            &[NULL, 5]
        )
    );
    Ok(())
}

#[test]
fn lists_what_changes(rt: HostRuntime) -> Result<(), Fail> {
    let mut change = Change::new(rt.alloc());
    change.push(RowChange::new(4, None, Some(row(rt.alloc(), &[1, NULL])?)))?;
    change.push(RowChange::new(2, Some(row(rt.alloc(), &[3])?), None))?;
    assert_eq!(rt; change.rows().len(), 2);
    let came = &change.rows()[0];
    assert_eq!(rt; came.number(), 4);
    assert!(rt; came.before().is_none());
    assert!(rt; is_row(came.after().unwrap_or(&[]), &[1, NULL]));
    let went = &change.rows()[1];
    assert_eq!(rt; went.number(), 2);
    assert!(rt; is_row(went.before().unwrap_or(&[]), &[3]));
    assert!(rt; went.after().is_none());
    Ok(())
}
