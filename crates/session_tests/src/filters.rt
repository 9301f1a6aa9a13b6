//! Views whose filters drop rows of a batch.

use crate::batches::{Entry, batch};
use crate::ledger::{push, push_all};
use crate::streams::{CODED, FLAGS, MAIN, REPLACED};
use crate::visits::{opened, write};
use session::Session;
use std::alloc::{AllocError, Global};
use std::process::Abort;
use std::test::Fail;
use stream_writer::MemorySink;
use view_config::read_config;

const AMOUNTS: &str = r#"
[main]
key = "id"
columns = [["id", "int64"], ["grp", "utf8"], ["amt", "int64"]]
[feed.add]
role = "append"
[view.every]
columns = [["id", "col", "id"], ["amt", "col", "amt"]]
[view.some]
columns = [["id", "col", "id"], ["amt", "col", "amt"]]
filter = ["ge", "amt", 0]
[view.others]
columns = [["id", "col", "id"], ["amt", "col", "amt"]]
filter = ["not", ["ge", "amt", 0]]
"#;

fn open(rt: &impl Abort, alloc: Global, text: &str) -> Result<Session, Fail> {
    let config = read_config(alloc, text);
    assert!(rt; config.is_ok());
    Ok(Session::open(alloc, config.unwrap())?)
}

/// A session with one batch.
fn open_with(rt: &impl Abort, alloc: Global, entries: &[Entry]) -> Result<Session, Fail> {
    let mut session = open(rt, alloc, AMOUNTS)?;
    push(rt, session.push("add", &MAIN[..304]));
    push(rt, session.push("add", &batch(alloc, entries)?));
    Ok(session)
}

/// The stream of a view.
fn shown(rt: &impl Abort, alloc: Global, session: &mut Session, view: &str) -> MemorySink {
    let mut sink = MemorySink::new(alloc);
    let _opened = write(rt, session, view, &mut sink);
    sink
}

/// Checks that a view shows just these rows, as a view of all rows does in a session that has no others.
fn shows(
    rt: &impl Abort,
    alloc: Global,
    session: &mut Session,
    view: &str,
    entries: &[Entry],
) -> Result<(), Fail> {
    let mut other = open_with(rt, alloc, entries)?;
    let wanted = shown(rt, alloc, &mut other, "every");
    assert_eq!(rt; shown(rt, alloc, session, view).bytes(), wanted.bytes());
    Ok(())
}

/// Seventy rows with the amounts from -35 to 34, of which each ninth from the first on has none.
fn seventy(alloc: Global) -> Result<Vec<Entry>, AllocError> {
    let mut entries = Vec::new(alloc);
    for id in 0..70u8 {
        let amount = if id % 9 == 0 {
            None
        } else {
            Some(id as i64 - 35)
        };
        entries.push(Entry { id, amount })?;
    }
    Ok(entries)
}

/// The rows with an amount that isn't below zero, or those with one that is.
fn kept(alloc: Global, entries: &[Entry], is_below: bool) -> Result<Vec<Entry>, AllocError> {
    let mut kept = Vec::new(alloc);
    for entry in entries {
        if let Some(amount) = entry.amount {
            if (amount < 0) == is_below {
                kept.push(*entry)?;
            }
        }
    }
    Ok(kept)
}

/// 31 of 70 rows pass a filter, 31 its negation, and none without an amount; no other rows are opened for them, and
/// none for the view of all rows.
fn amounts(rt: &impl Abort, alloc: Global) -> Result<(), Fail> {
    let entries = seventy(alloc)?;
    let mut session = open_with(rt, alloc, &entries)?;
    assert_eq!(rt; opened(&session, 0), 31 + 31);
    let some = kept(alloc, &entries, false)?;
    assert_eq!(rt; some.len(), 31);
    shows(rt, alloc, &mut session, "some", &some)?;
    let others = kept(alloc, &entries, true)?;
    assert_eq!(rt; others.len(), 31);
    shows(rt, alloc, &mut session, "others", &others)?;
    Ok(())
}

/// Of an amount, none, and one below zero, the last alone passes the negation of a filter.
fn few_amounts(rt: &impl Abort, alloc: Global) -> Result<(), Fail> {
    let last = Entry {
        id: 3,
        amount: Some(-1),
    };
    let entries = [
        Entry {
            id: 1,
            amount: Some(5),
        },
        Entry {
            id: 2,
            amount: None,
        },
        last,
    ];
    let mut session = open_with(rt, alloc, &entries)?;
    shows(rt, alloc, &mut session, "others", &[last])
}

const TRUTH_VALUES: &str = r#"
[main]
key = "k"
columns = [["k", "int8"], ["f", "bool"]]
[feed.add]
role = "append"
[view.some]
columns = [["k", "col", "k"]]
filter = ["eq", "f", true]
[view.others]
columns = [["k", "col", "k"]]
filter = ["not", ["eq", "f", true]]
"#;

/// The rows whose flag is set pass, those whose flag isn't pass the negation, and one without a flag neither.
fn flags(rt: &impl Abort, alloc: Global) -> Result<(), Fail> {
    let mut session = open(rt, alloc, TRUTH_VALUES)?;
    push_all(rt, &mut session, &FLAGS);
    assert_eq!(rt; session.live_rows(), 9);
    let wanted = [0, 2, 4, 6, 0, 0, 0, 0, 0xFF, 0xFF, 0xFF, 0xFF, 0, 0, 0, 0];
    assert!(rt;
        shown(rt, alloc, &mut session, "some")
            .bytes()
            .ends_with(&wanted)
    );
    let wanted = [1, 3, 5, 7, 0, 0, 0, 0, 0xFF, 0xFF, 0xFF, 0xFF, 0, 0, 0, 0];
    assert!(rt;
        shown(rt, alloc, &mut session, "others")
            .bytes()
            .ends_with(&wanted)
    );
    Ok(())
}

const REPLACED_TEXTS: &str = r#"
[main]
key = "t"
columns = [["t", "utf8"]]
[feed.add]
role = "append"
[view.some]
columns = [["t", "col", "t"]]
filter = ["ne", "t", "b"]
"#;

/// Of the texts `a`, `b` and `c`, where `c` is from another dictionary, all pass but `b`.
fn replaced_texts(rt: &impl Abort, alloc: Global) -> Result<(), Fail> {
    let mut session = open(rt, alloc, REPLACED_TEXTS)?;
    push_all(rt, &mut session, &REPLACED);
    assert_eq!(rt; session.live_rows(), 3);
    let wanted = [
        0, 0, 0, 0, 1, 0, 0, 0, 2, 0, 0, 0, 0, 0, 0, 0, b'a', b'c', 0, 0, 0, 0, 0, 0, 0xFF, 0xFF,
        0xFF, 0xFF, 0, 0, 0, 0,
    ];
    assert!(rt;
        shown(rt, alloc, &mut session, "some")
            .bytes()
            .ends_with(&wanted)
    );
    Ok(())
}

const CODED_TEXTS: &str = r#"
[main]
key = "k"
columns = [["k", "int8"], ["t", "utf8"]]
[feed.add]
role = "append"
[view.some]
columns = [["k", "col", "k"]]
filter = ["eq", "t", "a"]
"#;

/// The rows with a text are found by the dictionary of their batch, and no others are opened.
fn coded_texts(rt: &impl Abort, alloc: Global) -> Result<(), Fail> {
    let mut session = open(rt, alloc, CODED_TEXTS)?;
    push_all(rt, &mut session, &CODED);
    assert_eq!(rt; session.live_rows(), 40);
    assert_eq!(rt; opened(&session, 0), 20);
    let wanted = [
        0, 2, 4, 6, 8, 10, 12, 14, 16, 18, 21, 23, 25, 27, 29, 31, 33, 35, 37, 39, 0, 0, 0, 0,
        0xFF, 0xFF, 0xFF, 0xFF, 0, 0, 0, 0,
    ];
    assert!(rt;
        shown(rt, alloc, &mut session, "some")
            .bytes()
            .ends_with(&wanted)
    );
    Ok(())
}

#[test]
fn r10_rows(rt: HostRuntime) -> Result<(), Fail> {
    let alloc = rt.alloc();
    amounts(&rt, alloc)?;
    few_amounts(&rt, alloc)?;
    flags(&rt, alloc)?;
    replaced_texts(&rt, alloc)?;
    coded_texts(&rt, alloc)?;
    Ok(())
}
