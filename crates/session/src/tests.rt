//! Sessions over a stream that is known from outside.

ghost use Rattle.std.specs.Prelude.{◌≡◌, [], ◌∷◌, IfOk, true};
ghost use Rattle.values.specs.Rose.{node, none};
ghost use Rattle.stream_writer.specs.Sample.{sample_fields};
ghost use Rattle.session.specs.Sample as sample;

use crate::laws::sample_law;
use crate::{Event, Fault, Pushed, Reply, Session, Step};
use std::alloc::{AllocError, Global};
use std::process::Abort;
use std::test::Fail;
use stream_writer::MemorySink;
use values::limits::{MAX_MAIN_ROWS, MAX_SIDE_ROWS};
use values::{Cause, ColType, IntWidth, LogicalField};
use view_lang::{
    Config, FeedConfig, Lookup, Missing, Output, Outputs, Role, SideTable, Table, View,
};

/// The Schema message ends at 232, the batch at 496 (its keys are at 440, 448 and 456), the end mark at 504.
const SAMPLE: [u8; 504] = [
    0xFF, 0xFF, 0xFF, 0xFF, 0xE0, 0x00, 0x00, 0x00, 0x18, 0x00, 0x00, 0x00, 0x00, 0x00, 0x00, 0x00,
    0x0C, 0x00, 0x18, 0x00, 0x04, 0x00, 0x06, 0x00, 0x08, 0x00, 0x10, 0x00, 0x00, 0x00, 0x00, 0x00,
    0x10, 0x00, 0x00, 0x00, 0x04, 0x00, 0x01, 0x00, 0x18, 0x00, 0x00, 0x00, 0x00, 0x00, 0x00, 0x00,
    0x00, 0x00, 0x00, 0x00, 0x00, 0x00, 0x00, 0x00, 0x08, 0x00, 0x0C, 0x00, 0x04, 0x00, 0x08, 0x00,
    0x08, 0x00, 0x00, 0x00, 0x00, 0x00, 0x00, 0x00, 0x04, 0x00, 0x00, 0x00, 0x02, 0x00, 0x00, 0x00,
    0x18, 0x00, 0x00, 0x00, 0x5C, 0x00, 0x00, 0x00, 0x10, 0x00, 0x14, 0x00, 0x04, 0x00, 0x08, 0x00,
    0x09, 0x00, 0x0C, 0x00, 0x00, 0x00, 0x10, 0x00, 0x10, 0x00, 0x00, 0x00, 0x10, 0x00, 0x00, 0x00,
    0x01, 0x02, 0x00, 0x00, 0x1C, 0x00, 0x00, 0x00, 0x24, 0x00, 0x00, 0x00, 0x01, 0x00, 0x00, 0x00,
    0x6B, 0x00, 0x00, 0x00, 0x00, 0x00, 0x00, 0x00, 0x08, 0x00, 0x0C, 0x00, 0x04, 0x00, 0x08, 0x00,
    0x08, 0x00, 0x00, 0x00, 0x40, 0x00, 0x00, 0x00, 0x01, 0x00, 0x00, 0x00, 0x00, 0x00, 0x00, 0x00,
    0x10, 0x00, 0x14, 0x00, 0x04, 0x00, 0x08, 0x00, 0x09, 0x00, 0x0C, 0x00, 0x00, 0x00, 0x10, 0x00,
    0x10, 0x00, 0x00, 0x00, 0x10, 0x00, 0x00, 0x00, 0x01, 0x02, 0x00, 0x00, 0x1C, 0x00, 0x00, 0x00,
    0x24, 0x00, 0x00, 0x00, 0x01, 0x00, 0x00, 0x00, 0x76, 0x00, 0x00, 0x00, 0x00, 0x00, 0x00, 0x00,
    0x08, 0x00, 0x0C, 0x00, 0x04, 0x00, 0x08, 0x00, 0x08, 0x00, 0x00, 0x00, 0x40, 0x00, 0x00, 0x00,
    0x01, 0x00, 0x00, 0x00, 0x00, 0x00, 0x00, 0x00, 0xFF, 0xFF, 0xFF, 0xFF, 0xC8, 0x00, 0x00, 0x00,
    0x18, 0x00, 0x00, 0x00, 0x00, 0x00, 0x00, 0x00, 0x0C, 0x00, 0x18, 0x00, 0x04, 0x00, 0x06, 0x00,
    0x08, 0x00, 0x10, 0x00, 0x00, 0x00, 0x00, 0x00, 0x10, 0x00, 0x00, 0x00, 0x04, 0x00, 0x03, 0x00,
    0x20, 0x00, 0x00, 0x00, 0x00, 0x00, 0x00, 0x00, 0x38, 0x00, 0x00, 0x00, 0x00, 0x00, 0x00, 0x00,
    0x0A, 0x00, 0x18, 0x00, 0x08, 0x00, 0x10, 0x00, 0x14, 0x00, 0x00, 0x00, 0x00, 0x00, 0x00, 0x00,
    0x10, 0x00, 0x00, 0x00, 0x00, 0x00, 0x00, 0x00, 0x03, 0x00, 0x00, 0x00, 0x00, 0x00, 0x00, 0x00,
    0x0C, 0x00, 0x00, 0x00, 0x30, 0x00, 0x00, 0x00, 0x00, 0x00, 0x00, 0x00, 0x02, 0x00, 0x00, 0x00,
    0x03, 0x00, 0x00, 0x00, 0x00, 0x00, 0x00, 0x00, 0x00, 0x00, 0x00, 0x00, 0x00, 0x00, 0x00, 0x00,
    0x03, 0x00, 0x00, 0x00, 0x00, 0x00, 0x00, 0x00, 0x01, 0x00, 0x00, 0x00, 0x00, 0x00, 0x00, 0x00,
    0x00, 0x00, 0x00, 0x00, 0x04, 0x00, 0x00, 0x00, 0x00, 0x00, 0x00, 0x00, 0x00, 0x00, 0x00, 0x00,
    0x00, 0x00, 0x00, 0x00, 0x00, 0x00, 0x00, 0x00, 0x00, 0x00, 0x00, 0x00, 0x00, 0x00, 0x00, 0x00,
    0x18, 0x00, 0x00, 0x00, 0x00, 0x00, 0x00, 0x00, 0x18, 0x00, 0x00, 0x00, 0x00, 0x00, 0x00, 0x00,
    0x01, 0x00, 0x00, 0x00, 0x00, 0x00, 0x00, 0x00, 0x20, 0x00, 0x00, 0x00, 0x00, 0x00, 0x00, 0x00,
    0x18, 0x00, 0x00, 0x00, 0x00, 0x00, 0x00, 0x00, 0x01, 0x00, 0x00, 0x00, 0x00, 0x00, 0x00, 0x00,
    0x02, 0x00, 0x00, 0x00, 0x00, 0x00, 0x00, 0x00, 0x03, 0x00, 0x00, 0x00, 0x00, 0x00, 0x00, 0x00,
    0x05, 0x00, 0x00, 0x00, 0x00, 0x00, 0x00, 0x00, 0x0A, 0x00, 0x00, 0x00, 0x00, 0x00, 0x00, 0x00,
    0x00, 0x00, 0x00, 0x00, 0x00, 0x00, 0x00, 0x00, 0x1E, 0x00, 0x00, 0x00, 0x00, 0x00, 0x00, 0x00,
    0xFF, 0xFF, 0xFF, 0xFF, 0x00, 0x00, 0x00, 0x00,
];

fn column(alloc: Global, name: &str) -> Result<LogicalField, AllocError>
    ensures { IfOk result (λ field.
        field ≡ node (record { name = name.now; col_type = ColType.Int IntWidth.Bits64 true }) none) }
{
    Ok(LogicalField {
        name: String::from_str(alloc, name)?,
        col_type: ColType::Int {
            width: IntWidth::Bits64,
            signed: true,
        },
        children: Vec::new(alloc),
    })
}

fn table(alloc: Global, max_rows: usize) -> Result<Table, AllocError>
    ensures { IfOk result (λ t. t ≡ record { key = 0; max_rows = max_rows; columns = sample_fields }) }
{
    let mut columns = Vec::new(alloc);
    columns.push(column(alloc, "k")?)?;
    columns.push(column(alloc, "v")?)?;
    Ok(Table {
        key: 0,
        max_rows,
        columns,
    })
}

fn side(alloc: Global) -> Result<SideTable, AllocError>
    ensures { IfOk result (λ s. s ≡ sample.sample_side) }
{
    Ok(SideTable {
        name: String::from_str(alloc, "s")?,
        table: table(alloc, MAX_SIDE_ROWS)?,
    })
}

fn feed(alloc: Global, name: &str, role: Role) -> Result<FeedConfig, AllocError>
    ensures { IfOk result (λ f. f ≡ sample.feed_named name.now role) }
{
    Ok(FeedConfig {
        name: String::from_str(alloc, name)?,
        role,
    })
}

fn output(alloc: Global, name: &str, column: usize) -> Result<Output, AllocError>
    ensures { IfOk result (λ o. o ≡ record { name = name.now; column = column }) }
{
    Ok(Output {
        name: String::from_str(alloc, name)?,
        column,
    })
}

fn view(
    alloc: Global,
    name: &str,
    lookup: Option<Lookup>,
    outputs: Vec<Output>,
) -> Result<View, AllocError>
    ensures { IfOk result (λ v. v ≡ sample.plain_view name.now lookup outputs.items) }
{
    Ok(View {
        name: String::from_str(alloc, name)?,
        lookup,
        filter: None,
        outputs: Outputs::Columns(outputs),
        order: Vec::new(alloc),
        first: None,
        coded_outputs: Vec::new(alloc),
    })
}

fn two_outputs(alloc: Global, value: usize) -> Result<Vec<Output>, AllocError>
    ensures { IfOk result (λ os. os.items ≡ sample.output 107 0 ∷ sample.output 118 value ∷ []) }
{
    let mut outputs = Vec::new(alloc);
    outputs.push(output(alloc, "k", 0)?)?;
    outputs.push(output(alloc, "v", value)?)?;
    Ok(outputs)
}

fn views(alloc: Global) -> Result<Vec<View>, AllocError>
    ensures { IfOk result (λ vs. vs.items ≡ sample.sample_views) }
{
    let lookup = Lookup {
        side: 0,
        on: 0,
        missing: Missing::Drop,
        columns: 2,
    };
    let mut keys = Vec::new(alloc);
    keys.push(output(alloc, "k", 0)?)?;
    let mut views = Vec::new(alloc);
    views.push(view(alloc, "t", None, two_outputs(alloc, 1)?)?)?;
    views.push(view(alloc, "keys", None, keys)?)?;
    views.push(view(alloc, "named", Some(lookup), two_outputs(alloc, 3)?)?)?;
    Ok(views)
}

fn config(alloc: Global) -> Result<Config, AllocError>
    ensures { IfOk result (λ c. c ≡ sample.sample_config) }
{
    let mut sides = Vec::new(alloc);
    sides.push(side(alloc)?)?;
    let mut feeds = Vec::new(alloc);
    feeds.push(feed(alloc, "add", Role::Append)?)?;
    feeds.push(feed(alloc, "put", Role::Put(0))?)?;
    feeds.push(feed(alloc, "drop", Role::Drop(0))?)?;
    Ok(Config {
        main: table(alloc, MAX_MAIN_ROWS)?,
        sides,
        feeds,
        views: views(alloc)?,
    })
}

fn open(alloc: Global) -> Result<Session, AllocError> {
    // It does nothing: the proof takes from it that the configuration is right.
    sample_law();
    Session::open(alloc, config(alloc)?)
}

/// Pushes the three messages of the stream.
fn push_sample(rt: &impl Abort, session: &mut Session) {
    let schema = session.push("add", &SAMPLE);
    assert_eq!(rt;
        schema,
        Ok(Pushed {
            used: 232,
            event: Some(Event::Schema)
        })
    );
    let batch = session.push("add", &SAMPLE[232..]);
    assert_eq!(rt;
        batch,
        Ok(Pushed {
            used: 264,
            event: Some(Event::Batch)
        })
    );
    let end = session.push("add", &SAMPLE[496..]);
    assert_eq!(rt;
        end,
        Ok(Pushed {
            used: 8,
            event: Some(Event::End)
        })
    );
}

#[test]
fn writes_what_was_appended(rt: HostRuntime) -> Result<(), Fail> {
    let mut session = open(rt.alloc())?;
    push_sample(&rt, &mut session);
    assert_eq!(rt; session.live_rows(), 3);
    let mut sink = MemorySink::new(rt.alloc());
    assert_eq!(rt; session.write_view("t", &mut sink), Ok(504));
    assert_eq!(rt; sink.bytes(), SAMPLE.as_slice());
    Ok(())
}

#[test]
fn writes_nothing_after_undo(rt: HostRuntime) -> Result<(), Fail> {
    let mut session = open(rt.alloc())?;
    push_sample(&rt, &mut session);
    assert_eq!(rt; session.undo(), Ok(()));
    let mut sink = MemorySink::new(rt.alloc());
    assert_eq!(rt; session.write_view("t", &mut sink), Ok(240));
    assert_eq!(rt;
        session.undo(),
        Err(Fault {
            cause: Cause::NothingToUndo,
            used: 0
        })
    );
    Ok(())
}

/// The batch of the stream with three other keys.
fn batch_with(first: u8) -> [u8; 504] {
    let mut bytes = SAMPLE;
    bytes[440] = first;
    bytes[448] = first.saturating_add(1);
    bytes[456] = first.saturating_add(2);
    bytes
}

#[test]
fn undoes_64_edits(rt: HostRuntime) -> Result<(), Fail> {
    let mut session = open(rt.alloc())?;
    let schema = session.push("add", &SAMPLE);
    assert!(rt; schema.is_ok());
    for count in 0..65u8 {
        let bytes = batch_with(count.saturating_mul(3));
        let batch = session.push("add", &bytes[232..496]);
        assert!(rt; batch.is_ok());
    }
    for _count in 0..64u8 {
        assert_eq!(rt; session.undo(), Ok(()));
    }
    assert_eq!(rt;
        session.undo(),
        Err(Fault {
            cause: Cause::NothingToUndo,
            used: 0
        })
    );
    assert_eq!(rt; session.live_rows(), 3);
    Ok(())
}

#[test]
fn runs_steps(rt: HostRuntime) -> Result<(), Fail> {
    let mut session = open(rt.alloc())?;
    let steps = [
        Step::Push {
            feed: "add",
            bytes: &SAMPLE,
        },
        Step::Write { view: "t", sink: 0 },
    ];
    let mut sinks = [MemorySink::new(rt.alloc())];
    let replies = session.run(&steps, &mut sinks)?;
    assert_eq!(rt; replies.len(), 2);
    assert_eq!(rt; replies[1], Reply::Write(Ok(240)));
    Ok(())
}

/// Pushes the schema of the stream, and then a batch of it.
fn push_rows(session: &mut Session, feed: &str, bytes: &[u8; 504]) {
    let _schema = session.push(feed, &bytes[..232]);
    let _batch = session.push(feed, &bytes[232..496]);
}

#[test]
fn shows_what_was_put(rt: HostRuntime) -> Result<(), Fail> {
    let mut session = open(rt.alloc())?;
    push_rows(&mut session, "add", &SAMPLE);
    let mut before = MemorySink::new(rt.alloc());
    assert_eq!(rt; session.write_view("named", &mut before), Ok(240));
    push_rows(&mut session, "put", &SAMPLE);
    assert_eq!(rt; session.live_rows(), 3);
    let mut after = MemorySink::new(rt.alloc());
    assert_eq!(rt; session.write_view("named", &mut after), Ok(504));
    assert_eq!(rt; after.bytes(), SAMPLE.as_slice());
    Ok(())
}

/// The stream with another value in the first row.
fn with_value(value: u8) -> [u8; 504] {
    let mut bytes = SAMPLE;
    bytes[472] = value;
    bytes
}

#[test]
fn undoes_what_was_put(rt: HostRuntime) -> Result<(), Fail> {
    let mut session = open(rt.alloc())?;
    push_rows(&mut session, "add", &SAMPLE);
    push_rows(&mut session, "put", &SAMPLE);
    let changed = with_value(11);
    let batch = session.push("put", &changed[232..496]);
    assert!(rt; batch.is_ok());
    let mut sinks = [
        MemorySink::new(rt.alloc()),
        MemorySink::new(rt.alloc()),
        MemorySink::new(rt.alloc()),
    ];
    let steps = [
        Step::Write {
            view: "named",
            sink: 0,
        },
        Step::Undo,
        Step::Write {
            view: "named",
            sink: 1,
        },
        Step::Undo,
        Step::Write {
            view: "named",
            sink: 2,
        },
    ];
    let replies = session.run(&steps, &mut sinks)?;
    assert_eq!(rt; replies.len(), 5);
    assert_eq!(rt; sinks[0].bytes(), changed.as_slice());
    assert_eq!(rt; sinks[1].bytes(), SAMPLE.as_slice());
    assert_eq!(rt; replies[4], Reply::Write(Ok(240)));
    Ok(())
}

#[test]
fn refuses_a_key_put_twice(rt: HostRuntime) -> Result<(), Fail> {
    let mut session = open(rt.alloc())?;
    push_rows(&mut session, "add", &SAMPLE);
    push_rows(&mut session, "put", &SAMPLE);
    let mut twice = with_value(11);
    twice[448] = 1;
    assert_eq!(rt;
        session.push("put", &twice[232..496]),
        Err(Fault {
            cause: Cause::DuplicateKey,
            used: 264
        })
    );
    let mut sink = MemorySink::new(rt.alloc());
    assert_eq!(rt; session.write_view("named", &mut sink), Ok(504));
    assert_eq!(rt; sink.bytes(), SAMPLE.as_slice());
    Ok(())
}

/// How many bytes of a piece were consumed.
fn used(pushed: Result<Pushed, Fault>) -> usize {
    match pushed {
        Ok(pushed) => pushed.used,
        Err(fault) => fault.used,
    }
}

#[test]
fn drops_and_undoes_it(rt: HostRuntime) -> Result<(), Fail> {
    let mut session = open(rt.alloc())?;
    push_rows(&mut session, "add", &SAMPLE);
    push_rows(&mut session, "put", &SAMPLE);
    let mut keys = MemorySink::new(rt.alloc());
    let written = session.write_view("keys", &mut keys);
    assert!(rt; written.is_ok());
    let schema = used(session.push("drop", keys.bytes()));
    let batch = session.push("drop", keys.bytes().get(schema..).unwrap_or(&[]));
    assert!(rt; batch.is_ok());
    let mut sinks = [MemorySink::new(rt.alloc()), MemorySink::new(rt.alloc())];
    let steps = [
        Step::Write {
            view: "named",
            sink: 0,
        },
        Step::Undo,
        Step::Write {
            view: "named",
            sink: 1,
        },
    ];
    let replies = session.run(&steps, &mut sinks)?;
    assert_eq!(rt; replies.len(), 3);
    assert_eq!(rt; replies[0], Reply::Write(Ok(240)));
    assert_eq!(rt; sinks[1].bytes(), SAMPLE.as_slice());
    Ok(())
}

#[test]
fn opens_rows_that_edits_touch(rt: HostRuntime) -> Result<(), Fail> {
    let mut session = open(rt.alloc())?;
    push_rows(&mut session, "add", &SAMPLE);
    // The view that looks rows up opens the three rows. For the other two, which show each row, nothing is stored.
    assert_eq!(rt; session.visits(), 3);
    // Of the keys 3, 4 and 5 one row of the main table refers to the first, in one view.
    push_rows(&mut session, "put", &batch_with(3));
    assert_eq!(rt; session.visits(), 4);
    assert_eq!(rt; session.undo(), Ok(()));
    assert_eq!(rt; session.visits(), 5);
    let mut sink = MemorySink::new(rt.alloc());
    assert_eq!(rt; session.write_view("named", &mut sink), Ok(240));
    assert_eq!(rt; session.visits(), 5);
    assert_eq!(rt; session.write_view("t", &mut sink), Ok(504));
    assert_eq!(rt; session.visits(), 8);
    Ok(())
}
