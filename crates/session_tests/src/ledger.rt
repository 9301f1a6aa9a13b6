//! A session of four feeds, and calls that change one row each.

use crate::streams::{GROUP, KEY, MAIN, ZONE};
use session::{Fault, Pushed, Session};
use std::alloc::Global;
use std::process::Abort;
use std::test::Fail;
use view_config::read_config;

const CONFIG: &str = r#"
[main]
key = "id"
columns = [["id", "int64"], ["grp", "utf8"], ["amt", "int64"]]
[side.zones]
key = "grp"
columns = [["grp", "utf8"], ["zone", "utf8"]]
[feed.add]
role = "append"
[feed.del]
role = "retract"
[feed.put]
role = "put"
side = "zones"
[feed.cut]
role = "drop"
side = "zones"
[view.top]
columns = [["id", "col", "id"], ["amt", "col", "amt"]]
order = [["amt", "asc"]]
first = 2
[view.sums]
group = ["grp"]
columns = [["grp", "col", "grp"], ["n", "count"], ["s", "sum", "amt"], ["hi", "greatest", "amt"]]
[view.zone]
lookup = { side = "zones", on = "grp", missing = "drop" }
group = [["side", "zone"]]
columns = [["zone", "col", ["side", "zone"]], ["n", "count"]]
[view.all]
group = []
columns = [["n", "count"], ["s", "sum", "amt"]]
[view.big]
group = ["grp"]
columns = [["grp", "col", "grp"], ["n", "count"], ["d", "distinct", "amt"]]
having = ["ge", "d", 2]
[view.named]
lookup = { side = "zones", on = "grp", missing = "drop" }
group = ["grp"]
columns = [["grp", "col", "grp"], ["d", "distinct", ["side", "zone"]]]
"#;

/// Opens a session, and pushes the schemas of its four feeds.
pub fn open(rt: &impl Abort, alloc: Global) -> Result<Session, Fail> {
    open_of(rt, alloc, CONFIG)
}

/// Opens a session over these tables and feeds with the views of a configuration.
pub fn open_of(rt: &impl Abort, alloc: Global, text: &str) -> Result<Session, Fail> {
    let config = read_config(alloc, text);
    assert!(rt; config.is_ok());
    let mut session = Session::open(alloc, config.unwrap())?;
    push(rt, session.push("add", &MAIN[..304]));
    push(rt, session.push("del", &KEY[..160]));
    push(rt, session.push("put", &ZONE[..216]));
    push(rt, session.push("cut", &GROUP[..152]));
    Ok(session)
}

pub fn push(rt: &impl Abort, pushed: Result<Pushed, Fault>) {
    assert!(rt; pushed.is_ok());
}

/// Appends a row to the main table.
pub fn add(rt: &impl Abort, session: &mut Session, id: u16, group: u8, amount: u8) {
    let mut bytes = MAIN;
    let number = id.to_le_bytes();
    bytes[576] = number[0];
    bytes[577] = number[1];
    bytes[592] = group;
    bytes[600] = amount;
    push(rt, session.push("add", &bytes[304..]));
}

/// Retracts a row of the main table.
pub fn retract(rt: &impl Abort, session: &mut Session, id: u8) {
    let mut bytes = KEY;
    bytes[320] = id;
    push(rt, session.push("del", &bytes[160..]));
}

/// Puts a row into the side table.
pub fn put(rt: &impl Abort, session: &mut Session, group: u8, zone: u8) {
    let mut bytes = ZONE;
    bytes[464] = group;
    bytes[480] = zone;
    push(rt, session.push("put", &bytes[216..]));
}

/// Drops a row of the side table.
pub fn cut(rt: &impl Abort, session: &mut Session, group: u8) {
    let mut bytes = GROUP;
    bytes[336] = group;
    push(rt, session.push("cut", &bytes[152..]));
}

/// Undoes the latest edit.
pub fn undo(rt: &impl Abort, session: &mut Session) {
    assert_eq!(rt; session.undo(), Ok(()));
}

/// Pushes a whole stream to the feed `add`, message by message.
pub fn push_all(rt: &impl Abort, session: &mut Session, bytes: &[u8]) {
    let mut left = bytes;
    for _ in 0..bytes.len() {
        let pushed = session.push("add", left);
        assert!(rt; pushed.is_ok());
        match left.get(pushed.unwrap().used..) {
            Some(more) => left = more,
            None => return,
        }
    }
}
