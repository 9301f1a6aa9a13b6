//! How often rows of the main table are opened.

use crate::ledger::{add, open, put, retract, undo};
use session::Session;
use std::process::Abort;
use std::test::Fail;
use stream_writer::MemorySink;

/// How many more rows were opened than before.
pub fn opened(session: &Session, before: u128) -> u128 {
    session.visits().saturating_sub(before)
}

/// Writes a view, and returns how many rows it opened.
pub fn write(rt: &impl Abort, session: &mut Session, view: &str, sink: &mut MemorySink) -> u128 {
    let before = session.visits();
    let written = session.write_view(view, sink);
    assert!(rt; written.is_ok());
    opened(session, before)
}

/// A retract opens its row for each view, and writes of groups open none.
#[test]
fn r7_rows(rt: HostRuntime) -> Result<(), Fail> {
    let mut session = open(&rt, rt.alloc())?;
    add(&rt, &mut session, 1, b'p', 9);
    add(&rt, &mut session, 2, b'p', 9);
    add(&rt, &mut session, 3, b'p', 4);
    let before = session.visits();
    retract(&rt, &mut session, 1);
    assert!(rt; opened(&session, before) <= 6);
    let mut sink = MemorySink::new(rt.alloc());
    for view in ["sums", "zone", "all"] {
        assert_eq!(rt; write(&rt, &mut session, view, &mut sink), 0);
    }
    Ok(())
}

/// The first two rows of an order: a write opens as many rows as it shows.
#[test]
fn r8_rows(rt: HostRuntime) -> Result<(), Fail> {
    let mut session = open(&rt, rt.alloc())?;
    add(&rt, &mut session, 1, b'p', 5);
    add(&rt, &mut session, 2, b'p', 7);
    add(&rt, &mut session, 3, b'p', 6);
    add(&rt, &mut session, 4, b'p', 5);
    let mut sink = MemorySink::new(rt.alloc());
    assert_eq!(rt; write(&rt, &mut session, "top", &mut sink), 2);
    retract(&rt, &mut session, 1);
    assert_eq!(rt; write(&rt, &mut session, "top", &mut sink), 2);
    undo(&rt, &mut session);
    assert_eq!(rt; write(&rt, &mut session, "top", &mut sink), 2);
    Ok(())
}

/// A thousand rows, of which each hundredth refers to the key `p`.
fn add_thousand(rt: &impl Abort, session: &mut Session) {
    for id in 0..1000u16 {
        let group = if id % 100 == 0 { b'p' } else { b'q' };
        add(rt, session, id, group, 1);
    }
}

/// A change of a side table and its undo open the rows that refer to its key, each once, and no others. The view
/// `named` shows a side column, so its rows are opened; those of `zone` move as groups. A put of the row that is there
/// changes no view.
#[test]
fn r9_rows(rt: HostRuntime) -> Result<(), Fail> {
    let mut session = open(&rt, rt.alloc())?;
    put(&rt, &mut session, b'p', b'x');
    add_thousand(&rt, &mut session);
    assert_eq!(rt; session.live_rows(), 1000);
    let before = session.visits();
    put(&rt, &mut session, b'p', b'y');
    assert_eq!(rt; opened(&session, before), 10);
    let mut moved = MemorySink::new(rt.alloc());
    write(&rt, &mut session, "named", &mut moved);
    let before = session.visits();
    put(&rt, &mut session, b'p', b'y');
    assert!(rt; opened(&session, before) <= 10);
    let mut again = MemorySink::new(rt.alloc());
    write(&rt, &mut session, "named", &mut again);
    assert_eq!(rt; again.bytes(), moved.bytes());
    undo(&rt, &mut session);
    let before = session.visits();
    undo(&rt, &mut session);
    assert_eq!(rt; opened(&session, before), 10);
    Ok(())
}

/// A group passes, fails and passes again, and another begins to pass: no write opens a row.
#[test]
fn r15_rows(rt: HostRuntime) -> Result<(), Fail> {
    let mut session = open(&rt, rt.alloc())?;
    let mut sink = MemorySink::new(rt.alloc());
    add(&rt, &mut session, 1, b'p', 9);
    add(&rt, &mut session, 2, b'p', 9);
    add(&rt, &mut session, 3, b'p', 4);
    add(&rt, &mut session, 4, b'q', 1);
    add(&rt, &mut session, 5, b'q', 1);
    assert_eq!(rt; write(&rt, &mut session, "big", &mut sink), 0);
    retract(&rt, &mut session, 3);
    assert_eq!(rt; write(&rt, &mut session, "big", &mut sink), 0);
    undo(&rt, &mut session);
    assert_eq!(rt; write(&rt, &mut session, "big", &mut sink), 0);
    add(&rt, &mut session, 6, b'q', 2);
    assert_eq!(rt; write(&rt, &mut session, "big", &mut sink), 0);
    Ok(())
}
