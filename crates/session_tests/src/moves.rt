//! Groups of rows that move together where rows of a side table change.

use crate::ledger::{add, cut, open_of, put, retract, undo};
use crate::visits::{opened, write};
use session::Session;
use std::alloc::Global;
use std::process::Abort;
use std::test::Fail;
use stream_writer::MemorySink;

/// Each view is one of counts and sums by a column of the side table, whose filter the main table decides in part.
const CONFIG: &str = r#"
[main]
key = "id"
columns = [["id", "int64"], ["grp", "utf8"], ["amt", "int64"]]
[side.zones]
key = "grp"
columns = [["grp", "utf8"], ["zone", "utf8"]]
[feed.add]
role = "append"
[feed.del]
role = "retract"
[feed.put]
role = "put"
side = "zones"
[feed.cut]
role = "drop"
side = "zones"
[view.drop]
lookup = { side = "zones", on = "grp", missing = "drop" }
filter = ["and", ["gt", "amt", 2], ["ne", ["side", "zone"], "z"]]
group = [["side", "zone"]]
columns = [["zone", "col", ["side", "zone"]], ["n", "count"], ["s", "sum", "amt"]]
[view.null]
lookup = { side = "zones", on = "grp", missing = "null" }
filter = ["or", ["is_null", ["side", "zone"]], ["ne", ["side", "zone"], "grp"]]
group = ["amt", ["side", "zone"]]
columns = [["amt", "col", "amt"], ["zone", "col", ["side", "zone"]], ["n", "count"], ["f", "count", "grp"]]
"#;

/// Rows 1 to 4 refer to `p`, which is in this zone or in none, and 5 to `q`, which is in none. The view `drop` drops
/// row 4 by its amount.
fn filled(rt: &impl Abort, alloc: Global, zone: Option<u8>) -> Result<Session, Fail> {
    let mut session = open_of(rt, alloc, CONFIG)?;
    if let Some(zone) = zone {
        put(rt, &mut session, b'p', zone);
    }
    for id in 1..4u16 {
        add(rt, &mut session, id, b'p', 5);
    }
    add(rt, &mut session, 4, b'p', 1);
    add(rt, &mut session, 5, b'q', 7);
    Ok(session)
}

/// What both views show.
fn shown(rt: &impl Abort, alloc: Global, session: &mut Session) -> MemorySink {
    let mut sink = MemorySink::new(alloc);
    for view in ["drop", "null"] {
        assert_eq!(rt; write(rt, session, view, &mut sink), 0);
    }
    sink
}

/// What the views show where `p` is in a zone from the beginning, or in none.
fn fresh(rt: &impl Abort, alloc: Global, zone: Option<u8>) -> Result<MemorySink, Fail> {
    let mut session = filled(rt, alloc, zone)?;
    Ok(shown(rt, alloc, &mut session))
}

/// A put, its undo, a drop and its undo open no row, and the views are those of rows that were added after the change.
#[test]
fn moves_groups(rt: HostRuntime) -> Result<(), Fail> {
    let mut session = filled(&rt, rt.alloc(), Some(b'x'))?;
    let before = session.visits();
    let first = shown(&rt, rt.alloc(), &mut session);
    for zone in [b'y', b'z'] {
        put(&rt, &mut session, b'p', zone);
        let put_later = shown(&rt, rt.alloc(), &mut session);
        assert_eq!(rt;
            put_later.bytes(),
            fresh(&rt, rt.alloc(), Some(zone))?.bytes()
        );
        undo(&rt, &mut session);
        assert_eq!(rt; shown(&rt, rt.alloc(), &mut session).bytes(), first.bytes());
    }
    cut(&rt, &mut session, b'p');
    let without = shown(&rt, rt.alloc(), &mut session);
    assert_eq!(rt; without.bytes(), fresh(&rt, rt.alloc(), None)?.bytes());
    undo(&rt, &mut session);
    assert_eq!(rt; shown(&rt, rt.alloc(), &mut session).bytes(), first.bytes());
    assert_eq!(rt; opened(&session, before), 0);
    Ok(())
}

/// A row that is deleted after its group moved is removed from the group to which it moved.
#[test]
fn retracts_from_where_it_moved(rt: HostRuntime) -> Result<(), Fail> {
    let mut session = filled(&rt, rt.alloc(), Some(b'x'))?;
    put(&rt, &mut session, b'p', b'y');
    let moved = shown(&rt, rt.alloc(), &mut session);
    retract(&rt, &mut session, 2);
    put(&rt, &mut session, b'p', b'x');
    undo(&rt, &mut session);
    undo(&rt, &mut session);
    assert_eq!(rt; shown(&rt, rt.alloc(), &mut session).bytes(), moved.bytes());
    Ok(())
}
