//! Rows of every kind of value: their copies hold the same.

use std::alloc::{AllocError, Global};
use std::cmp::Ordering;
use std::test::Fail;
use values::{Kind, Row, Value, cmp_values, copy_row};

/// A row of each kind of value; the list and the struct hold these items.
fn row_of(alloc: Global, items: &[Value]) -> Result<Row, AllocError> {
    let kinds = vec![in alloc;
        Kind::Null,
        Kind::Bool(false),
        Kind::Int(-7),
        Kind::Utf8(String::from_str(alloc, "x")?),
        Kind::Binary([0xFF].to_vec(alloc)?),
        Kind::List(copy_row(alloc, items)?),
        Kind::Struct(copy_row(alloc, items)?),
    ]?;
    let mut row = Vec::new(alloc);
    for kind in kinds {
        row.push(Value { kind })?;
    }
    Ok(row)
}

fn items(value: &Value) -> &[Value] {
    match &value.kind {
        Kind::List(items) | Kind::Struct(items) => items,
        _ => &[],
    }
}

/// Whether these are of one kind and hold the same, where their items hold no items.
fn are_same(first: &Value, second: &Value) -> bool {
    let (firsts, seconds) = (items(first), items(second));
    if cmp_values(first, second) != Ordering::Equal || firsts.len() != seconds.len() {
        return false;
    }
    for (first, second) in firsts.iter().zip(seconds.iter()) {
        if cmp_values(first, second) != Ordering::Equal {
            return false;
        }
    }
    true
}

#[test]
fn r2_rows(rt: HostRuntime) -> Result<(), Fail> {
    let alloc = rt.alloc();
    let row = row_of(alloc, &row_of(alloc, &[])?)?;
    let copies = copy_row(alloc, &row)?;
    assert_eq!(rt; copies.len(), 7);
    for (copy, value) in copies.iter().zip(row.iter()) {
        assert!(rt; are_same(copy, value));
        assert!(rt; are_same(&value.copy(alloc)?, value));
    }
    for (value, next) in row.iter().zip(row.iter().skip(1)) {
        assert!(rt; !are_same(value, next));
    }
    let others = row_of(alloc, &[])?;
    for (value, other) in row.iter().zip(others.iter()) {
        assert_eq!(rt; are_same(value, other), items(value).is_empty());
    }
    Ok(())
}
