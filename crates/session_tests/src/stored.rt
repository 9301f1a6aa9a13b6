//! Views that are written from stored columns.

use crate::batches::{Entry, batch};
use crate::ledger::{open_of, push, retract};
use crate::visits::write;
use session::Session;
use std::alloc::Global;
use std::process::Abort;
use std::test::Fail;
use stream_writer::MemorySink;

const VIEWS: &str = r#"
[main]
key = "id"
columns = [["id", "int64"], ["grp", "utf8"], ["amt", "int64"]]
[side.zones]
key = "grp"
columns = [["grp", "utf8"], ["zone", "utf8"]]
[feed.add]
role = "append"
[feed.del]
role = "retract"
[feed.put]
role = "put"
side = "zones"
[feed.cut]
role = "drop"
side = "zones"
[view.every]
columns = [["amt", "col", "amt"], ["grp", "col", "grp"], ["id", "col", "id"]]
[view.sorted]
columns = [["amt", "col", "amt"], ["grp", "col", "grp"], ["id", "col", "id"]]
order = [["amt", "asc"]]
"#;

fn entry(id: u8, amount: Option<i64>) -> Entry {
    Entry { id, amount }
}

/// A session with these batches.
fn filled(rt: &impl Abort, alloc: Global, batches: &[&[Entry]]) -> Result<Session, Fail> {
    let mut session = open_of(rt, alloc, VIEWS)?;
    for entries in batches {
        push(rt, session.push("add", &batch(alloc, entries)?));
    }
    Ok(session)
}

/// Rows of several batches, of which one is retracted, are written in the view's order and in the order of its columns,
/// as if they had been added so. Each is opened once.
#[test]
fn rows_of_several_batches(rt: HostRuntime) -> Result<(), Fail> {
    let alloc = rt.alloc();
    let first = [entry(1, Some(7)), entry(2, None), entry(3, Some(5))];
    let second = [entry(4, Some(9)), entry(5, Some(5)), entry(6, Some(6))];
    let mut session = filled(&rt, alloc, &[&first, &second])?;
    retract(&rt, &mut session, 4);
    let sorted = [
        entry(3, Some(5)),
        entry(5, Some(5)),
        entry(6, Some(6)),
        entry(1, Some(7)),
        entry(2, None),
    ];
    let mut other = filled(&rt, alloc, &[&sorted])?;
    let mut shown = MemorySink::new(alloc);
    assert_eq!(rt; write(&rt, &mut session, "sorted", &mut shown), 5);
    let mut wanted = MemorySink::new(alloc);
    assert_eq!(rt; write(&rt, &mut other, "every", &mut wanted), 5);
    assert_eq!(rt; shown.bytes(), wanted.bytes());
    Ok(())
}
