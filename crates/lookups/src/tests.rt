//! Referrers through a change of a few rows.

use crate::Referrers;
use std::alloc::{AllocError, Global};
use std::process::Abort;
use std::test::Fail;
use values::{CellView, Key, Kind, Row, Value};
use view_lang::{Change, RowChange, Upkeep};

#[test]
fn numbers_by_key(rt: HostRuntime) -> Result<(), Fail> {
    let alloc = rt.alloc();
    let mut referrers = Referrers::new(alloc);
    referrers.add(Key::Int(7), 5)?;
    referrers.add(Key::Int(7), 2)?;
    referrers.add(Key::Null, 3)?;
    referrers.add(Key::Int(7), 9)?;
    assert_eq!(rt;
        referrers.of_key(alloc, &Key::Int(7))?.as_slice(),
        [2, 5, 9].as_slice()
    );
    referrers.remove(&Key::Int(7), 5);
    referrers.remove(&Key::Null, 3);
    assert_eq!(rt;
        referrers.of_key(alloc, &Key::Int(7))?.as_slice(),
        [2, 9].as_slice()
    );
    assert_eq!(rt; referrers.of_key(alloc, &Key::Null)?.len(), 0);
    Ok(())
}

/// A row that looks up a number.
fn row(alloc: Global, number: i128) -> Result<Row, AllocError> {
    let mut cells = Vec::new(alloc);
    cells.push(Value {
        kind: Kind::Int(number),
    })?;
    Ok(cells)
}

/// Rows 0 and 2 are inserted with 7, row 1 with 5 and row 3 without a cell. Then row 0 changes to 5, and row 1 is
/// deleted.
fn change(alloc: Global) -> Result<Change, AllocError> {
    let mut change = Change::new(alloc);
    change.push(RowChange::new(0, None, Some(row(alloc, 7)?)))?;
    change.push(RowChange::new(1, None, Some(row(alloc, 5)?)))?;
    change.push(RowChange::new(2, None, Some(row(alloc, 7)?)))?;
    change.push(RowChange::new(3, None, Some(Vec::new(alloc))))?;
    change.push(RowChange::new(0, Some(row(alloc, 7)?), Some(row(alloc, 5)?)))?;
    change.push(RowChange::new(1, Some(row(alloc, 5)?), None))?;
    Ok(change)
}

#[test]
fn numbers_through_a_change(rt: HostRuntime) -> Result<(), Fail> {
    let alloc = rt.alloc();
    let mut referrers = Referrers::new(alloc);
    referrers.apply(&change(alloc)?)?;
    assert_eq!(rt;
        referrers.of_key(alloc, &Key::Int(5))?.as_slice(),
        [0].as_slice()
    );
    assert_eq!(rt;
        referrers.of_key(alloc, &Key::Int(7))?.as_slice(),
        [2].as_slice()
    );
    let keys = [Key::Null, Key::Int(5), Key::Int(9), Key::Int(5)];
    assert_eq!(rt;
        referrers.of_keys(alloc, &keys)?.as_slice(),
        [0, 3].as_slice()
    );
    Ok(())
}

#[test]
fn makes_referrers_of_their_parts(rt: HostRuntime) -> Result<(), Fail> {
    let alloc = rt.alloc();
    let mut referrers = Referrers::new(alloc);
    referrers.apply(&change(alloc)?)?;
    let parts = referrers.into_parts()?;
    assert_eq!(rt; parts.keys.len(), 3);
    let made = Referrers::from_parts(alloc, parts)?;
    let keys = [Key::Null, Key::Int(5), Key::Int(7)];
    assert_eq!(rt;
        made.of_keys(alloc, &keys)?.as_slice(),
        [0, 2, 3].as_slice()
    );
    Ok(())
}

/// The numbers of the rows that hold a text.
fn numbers_of(alloc: Global, referrers: &Referrers, text: &str) -> Result<Vec<usize>, AllocError> {
    let Some(key) = Key::of_cell(alloc, CellView::Utf8(text))? else {
        return Ok(Vec::new(alloc));
    };
    referrers.of_key(alloc, &key)
}

#[test]
fn follows_cells_that_come_and_go(rt: HostRuntime) -> Result<(), Fail> {
    let alloc = rt.alloc();
    let mut referrers = Referrers::new(alloc);
    referrers.come(4, CellView::Utf8("north"))?;
    referrers.come(1, CellView::Utf8("north"))?;
    referrers.come(2, CellView::Null)?;
    referrers.come(3, CellView::List)?;
    referrers.go(4, CellView::Utf8("north"))?;
    referrers.come(4, CellView::Utf8("south"))?;
    assert_eq!(rt;
        numbers_of(alloc, &referrers, "north")?.as_slice(),
        [1].as_slice()
    );
    assert_eq!(rt;
        numbers_of(alloc, &referrers, "south")?.as_slice(),
        [4].as_slice()
    );
    assert_eq!(rt;
        referrers.of_key(alloc, &Key::Null)?.as_slice(),
        [2].as_slice()
    );
    Ok(())
}
