//! Views that show columns of a side table beside those of the main table.

use crate::ledger::{add, open_of, put, retract};
use crate::visits::write;
use session::Session;
use std::alloc::Global;
use std::process::Abort;
use std::test::Fail;
use stream_writer::MemorySink;

const VIEWS: &str = r#"
[main]
key = "id"
columns = [["id", "int64"], ["grp", "utf8"], ["amt", "int64"]]
[side.zones]
key = "grp"
columns = [["grp", "utf8"], ["zone", "utf8"]]
[feed.add]
role = "append"
[feed.del]
role = "retract"
[feed.put]
role = "put"
side = "zones"
[feed.cut]
role = "drop"
side = "zones"
[view.every]
columns = [["id", "col", "id"], ["grp", "col", "grp"], ["amt", "col", "amt"]]
[view.zoned]
lookup = { side = "zones", on = "grp", missing = "drop" }
columns = [["id", "col", "id"], ["grp", "col", ["side", "zone"]], ["amt", "col", "amt"]]
[view.sorted]
lookup = { side = "zones", on = "grp", missing = "null" }
columns = [["id", "col", "id"], ["grp", "col", ["side", "zone"]], ["amt", "col", "amt"]]
filter = ["not", ["is_null", ["side", "zone"]]]
order = [["amt", "asc"]]
"#;

/// A session with two zones, and rows of which one has no zone and one is retracted.
fn filled(rt: &impl Abort, alloc: Global) -> Result<Session, Fail> {
    let mut session = open_of(rt, alloc, VIEWS)?;
    put(rt, &mut session, b'p', b'x');
    put(rt, &mut session, b'q', b'y');
    add(rt, &mut session, 1, b'p', 9);
    add(rt, &mut session, 2, b'q', 6);
    add(rt, &mut session, 3, b'r', 7);
    add(rt, &mut session, 4, b'p', 8);
    add(rt, &mut session, 5, b'q', 5);
    retract(rt, &mut session, 5);
    Ok(session)
}

/// What is written where just these rows were added.
fn wanted(rt: &impl Abort, alloc: Global, rows: &[(u16, u8, u8)]) -> Result<MemorySink, Fail> {
    let mut session = open_of(rt, alloc, VIEWS)?;
    for (id, group, amount) in rows {
        add(rt, &mut session, *id, *group, *amount);
    }
    let mut sink = MemorySink::new(alloc);
    write(rt, &mut session, "every", &mut sink);
    Ok(sink)
}

/// Rows are written with the cells of the rows that they look up, as if these had been added so. Each is opened once.
#[test]
fn zones_beside_rows(rt: HostRuntime) -> Result<(), Fail> {
    let alloc = rt.alloc();
    let mut session = filled(&rt, alloc)?;
    let mut shown = MemorySink::new(alloc);
    assert_eq!(rt; write(&rt, &mut session, "zoned", &mut shown), 3);
    let rows = [(1, b'x', 9), (2, b'y', 6), (4, b'x', 8)];
    assert_eq!(rt; shown.bytes(), wanted(&rt, alloc, &rows)?.bytes());
    Ok(())
}

/// They are written so in the view's order too.
#[test]
fn zones_beside_sorted_rows(rt: HostRuntime) -> Result<(), Fail> {
    let alloc = rt.alloc();
    let mut session = filled(&rt, alloc)?;
    put(&rt, &mut session, b'q', b'z');
    let mut shown = MemorySink::new(alloc);
    assert_eq!(rt; write(&rt, &mut session, "sorted", &mut shown), 3);
    let rows = [(2, b'z', 6), (4, b'x', 8), (1, b'x', 9)];
    assert_eq!(rt; shown.bytes(), wanted(&rt, alloc, &rows)?.bytes());
    Ok(())
}
