//! Sessions that are taken apart and made again.

use crate::ledger::{add, cut, open, push_all, put, retract, undo};
use crate::streams::REPLACED;
use crate::visits::write;
use row_keys::RowStore;
use session::{Session, SessionParts};
use std::alloc::{AllocError, Global};
use std::process::Abort;
use std::test::Fail;
use stream_writer::MemorySink;
use upkeep::LiveTablesParts;
use values::limits::MAX_UNDO_DEPTH;
use values::{Key, Value};
use view_config::read_config;

const VIEWS: [&str; 6] = ["top", "sums", "zone", "all", "big", "named"];

/// What the views show, one stream after the other, and how many rows each write opened.
#[derive(Drop)]
struct Shown {
    sink: MemorySink,
    opened: Vec<u128>,
}

fn show(rt: &impl Abort, alloc: Global, session: &mut Session) -> Result<Shown, AllocError> {
    let mut sink = MemorySink::new(alloc);
    let mut opened = Vec::new(alloc);
    for view in VIEWS {
        opened.push(write(rt, session, view, &mut sink))?;
    }
    Ok(Shown { sink, opened })
}

/// The session made again of its parts, over the same stores. It shows the same, and opens as many rows for it.
fn make_again(rt: &impl Abort, alloc: Global, session: Session) -> Result<Session, Fail> {
    let mut session = session;
    let before = show(rt, alloc, &mut session)?;
    let visits = session.visits();
    let stale = session.stale();
    let mut again = Session::from_parts(alloc, session.into_parts()?)?;
    assert_eq!(rt; again.visits(), visits);
    assert_eq!(rt; again.stale(), stale);
    let after = show(rt, alloc, &mut again)?;
    assert_eq!(rt; after.sink.bytes(), before.sink.bytes());
    assert_eq!(rt; after.opened.as_slice(), before.opened.as_slice());
    Ok(again)
}

/// Rows that tie in an order; one is deleted and inserted again.
fn ties(rt: &impl Abort, alloc: Global) -> Result<(), Fail> {
    let mut session = open(rt, alloc)?;
    for id in 1..4u16 {
        add(rt, &mut session, id, b'p', 5);
    }
    let first = show(rt, alloc, &mut session)?;
    retract(rt, &mut session, 2);
    let mut again = make_again(rt, alloc, session)?;
    undo(rt, &mut again);
    let last = show(rt, alloc, &mut again)?;
    assert_eq!(rt; last.sink.bytes(), first.sink.bytes());
    make_again(rt, alloc, again)?;
    Ok(())
}

/// A group whose rows are deleted one by one.
fn groups(rt: &impl Abort, alloc: Global) -> Result<(), Fail> {
    let mut session = open(rt, alloc)?;
    session = make_again(rt, alloc, session)?;
    add(rt, &mut session, 1, b'p', 9);
    add(rt, &mut session, 2, b'p', 9);
    add(rt, &mut session, 3, b'p', 4);
    for id in 1..4u8 {
        session = make_again(rt, alloc, session)?;
        retract(rt, &mut session, id);
    }
    make_again(rt, alloc, session)?;
    Ok(())
}

/// Rows of a side table that are put, put again and dropped.
fn lookups(rt: &impl Abort, alloc: Global) -> Result<(), Fail> {
    let mut session = open(rt, alloc)?;
    put(rt, &mut session, b'p', b'x');
    put(rt, &mut session, b'q', b'x');
    add(rt, &mut session, 1, b'p', 1);
    add(rt, &mut session, 2, b'q', 1);
    session = make_again(rt, alloc, session)?;
    put(rt, &mut session, b'q', b'y');
    session = make_again(rt, alloc, session)?;
    put(rt, &mut session, b'p', b'y');
    session = make_again(rt, alloc, session)?;
    cut(rt, &mut session, b'q');
    make_again(rt, alloc, session)?;
    Ok(())
}

#[test]
fn states_hold_no_rows(rt: HostRuntime) -> Result<(), Fail> {
    ties(&rt, rt.alloc())?;
    groups(&rt, rt.alloc())?;
    lookups(&rt, rt.alloc())?;
    Ok(())
}

const TEXTS: &str = r#"
[main]
key = "t"
columns = [["t", "utf8"]]
[feed.add]
role = "append"
[view.texts]
columns = [["t", "col", "t"]]
"#;

/// Adds the keys of a row's cells.
fn push_cells(alloc: Global, row: &[Value], keys: &mut Vec<Key>) -> Result<(), AllocError> {
    for cell in row {
        if let Some(key) = Key::of(alloc, cell)? {
            keys.push(key)?;
        }
    }
    Ok(())
}

/// The cells of all rows of a store, in order.
fn read_cells(alloc: Global, store: &mut RowStore) -> Result<Vec<Key>, AllocError> {
    let mut keys = Vec::new(alloc);
    for number in 0..store.appended() {
        let row = store.open_row(number)?;
        push_cells(alloc, &row, &mut keys)?;
    }
    Ok(keys)
}

/// A view of all rows, of which nothing is stored, opens each once. A store made again of its parts has the same rows,
/// also those whose dictionary another replaced.
#[test]
fn store_of_columns(rt: HostRuntime) -> Result<(), Fail> {
    let config = read_config(rt.alloc(), TEXTS);
    assert!(rt; config.is_ok());
    let mut session = Session::open(rt.alloc(), config.unwrap())?;
    push_all(&rt, &mut session, &REPLACED);
    assert_eq!(rt; session.live_rows(), 3);
    let mut sink = MemorySink::new(rt.alloc());
    assert_eq!(rt; write(&rt, &mut session, "texts", &mut sink), 3);
    let SessionParts { tables, .. } = session.into_parts()?;
    let LiveTablesParts { stores, .. } = tables;
    for store in stores {
        let mut store = store;
        let before = read_cells(rt.alloc(), &mut store)?;
        assert_eq!(rt; before.len(), 3);
        let visits = store.visits();
        let mut made = RowStore::from_parts(rt.alloc(), store.into_parts()?)?;
        assert_eq!(rt; made.visits(), visits);
        assert_eq!(rt; made.len(), 3);
        let first = made.first_live_numbers(rt.alloc(), 2)?;
        assert_eq!(rt; first.as_slice(), [0, 1].as_slice());
        let after = read_cells(rt.alloc(), &mut made)?;
        assert_eq!(rt; after.as_slice(), before.as_slice());
    }
    Ok(())
}

/// What the store of the main table stores: batches, and the rows in them, released ones too.
#[derive(Drop)]
struct Kept {
    batches: usize,
    rows: usize,
}

fn count_kept(session: Session) -> Result<Kept, AllocError> {
    let SessionParts { tables, .. } = session.into_parts()?;
    let LiveTablesParts { stores, .. } = tables;
    let mut kept = Kept {
        batches: 0,
        rows: 0,
    };
    for (place, store) in stores.into_iter().enumerate() {
        let parts = store.into_parts()?;
        if place == 0 {
            for chunk in &parts.chunks {
                if !chunk.batch.columns.is_empty() {
                    kept.batches = kept.batches.saturating_add(1);
                    kept.rows = kept.rows.saturating_add(chunk.batch.rows);
                }
            }
        }
    }
    Ok(kept)
}

/// Rows that no undo brings back are released, with their batches: of a hundred that were appended and retracted those
/// remain whose retracts can be undone. All of these can be restored.
#[test]
fn rows_that_went(rt: HostRuntime) -> Result<(), Fail> {
    let mut session = open(&rt, rt.alloc())?;
    for id in 1..4u16 {
        add(&rt, &mut session, id, b'p', 5);
    }
    let before = show(&rt, rt.alloc(), &mut session)?;
    for _ in 0..100 {
        add(&rt, &mut session, 9, b'p', 1);
        retract(&rt, &mut session, 9);
    }
    let mut again = make_again(&rt, rt.alloc(), session)?;
    for _ in 0..MAX_UNDO_DEPTH {
        undo(&rt, &mut again);
    }
    assert!(rt; again.undo().is_err());
    let after = show(&rt, rt.alloc(), &mut again)?;
    assert_eq!(rt; after.sink.bytes(), before.sink.bytes());
    for _ in 0..100 {
        add(&rt, &mut again, 9, b'p', 1);
        retract(&rt, &mut again, 9);
    }
    let kept = count_kept(again)?;
    assert!(rt; kept.batches <= 3 + 32 && kept.rows <= 2 * (3 + 32));
    Ok(())
}

/// Rows that were added one by one lie in few batches.
#[test]
fn rows_that_came_one_by_one(rt: HostRuntime) -> Result<(), Fail> {
    let mut session = open(&rt, rt.alloc())?;
    for id in 1..1001u16 {
        add(&rt, &mut session, id, b'p', 5);
    }
    let mut again = make_again(&rt, rt.alloc(), session)?;
    assert_eq!(rt; again.live_rows(), 1000);
    let before = show(&rt, rt.alloc(), &mut again)?;
    for _ in 0..MAX_UNDO_DEPTH {
        undo(&rt, &mut again);
    }
    for id in 937..1001u16 {
        add(&rt, &mut again, id, b'p', 5);
    }
    let after = show(&rt, rt.alloc(), &mut again)?;
    assert_eq!(rt; after.sink.bytes(), before.sink.bytes());
    assert!(rt; count_kept(again)?.batches <= 2 + 15 + 31);
    Ok(())
}

/// Most rows of the batches are released, and the remaining ones are rewritten. The views show the same, and the rows
/// that an undo brings back are there.
#[test]
fn few_rows_that_stayed(rt: HostRuntime) -> Result<(), Fail> {
    let mut session = open(&rt, rt.alloc())?;
    for id in 1..250u16 {
        add(&rt, &mut session, id, b'p', 5);
    }
    let mut few = open(&rt, rt.alloc())?;
    for id in 1..250u8 {
        if id % 8 == 0 {
            add(&rt, &mut few, id.into(), b'p', 5);
        } else {
            retract(&rt, &mut session, id);
        }
    }
    let before = show(&rt, rt.alloc(), &mut session)?;
    let wanted = show(&rt, rt.alloc(), &mut few)?;
    assert_eq!(rt; before.sink.bytes(), wanted.sink.bytes());
    for _ in 0..MAX_UNDO_DEPTH {
        undo(&rt, &mut session);
    }
    assert!(rt; session.undo().is_err());
    assert_eq!(rt; session.live_rows(), 31 + MAX_UNDO_DEPTH);
    for _ in 0..MAX_UNDO_DEPTH {
        add(&rt, &mut session, 255, b'p', 1);
        retract(&rt, &mut session, 255);
    }
    assert_eq!(rt; session.live_rows(), 31 + MAX_UNDO_DEPTH);
    assert!(rt; count_kept(session)?.batches <= MAX_UNDO_DEPTH);
    Ok(())
}

/// Keys are dropped with the last row that no undo brings back. Rows are added again with dropped keys, are found by
/// them, and are refused while they are live.
#[test]
fn keys_that_went(rt: HostRuntime) -> Result<(), Fail> {
    let mut session = open(&rt, rt.alloc())?;
    for id in 1..4u16 {
        add(&rt, &mut session, id, b'p', 5);
    }
    let before = show(&rt, rt.alloc(), &mut session)?;
    for id in 10..210u8 {
        add(&rt, &mut session, id.into(), b'p', 1);
        retract(&rt, &mut session, id);
    }
    let after = show(&rt, rt.alloc(), &mut session)?;
    assert_eq!(rt; after.sink.bytes(), before.sink.bytes());
    for id in 10..210u8 {
        add(&rt, &mut session, id.into(), b'p', 1);
    }
    assert_eq!(rt; session.live_rows(), 203);
    for id in 10..210u8 {
        retract(&rt, &mut session, id);
    }
    let mut again = make_again(&rt, rt.alloc(), session)?;
    for _ in 0..MAX_UNDO_DEPTH {
        undo(&rt, &mut again);
    }
    assert!(rt; again.undo().is_err());
    assert_eq!(rt; again.live_rows(), 67);
    Ok(())
}

/// The same rows are added in two orders, with more values in a group than a list has, and all but three are removed
/// again.
#[test]
fn many_values(rt: HostRuntime) -> Result<(), Fail> {
    let mut session = open(&rt, rt.alloc())?;
    let mut other = open(&rt, rt.alloc())?;
    for id in 1..31u8 {
        add(&rt, &mut session, id.into(), b'p', id);
        add(&rt, &mut other, (31 - id).into(), b'p', 31 - id);
    }
    let up = show(&rt, rt.alloc(), &mut session)?;
    let down = show(&rt, rt.alloc(), &mut other)?;
    assert_eq!(rt; up.sink.bytes(), down.sink.bytes());
    let mut again = make_again(&rt, rt.alloc(), session)?;
    for id in 4..31u8 {
        retract(&rt, &mut again, id);
    }
    let mut few = open(&rt, rt.alloc())?;
    for id in 1..4u8 {
        add(&rt, &mut few, id.into(), b'p', id);
    }
    let left = show(&rt, rt.alloc(), &mut again)?;
    let three = show(&rt, rt.alloc(), &mut few)?;
    assert_eq!(rt; left.sink.bytes(), three.sink.bytes());
    Ok(())
}
