//! Writes of a view to sinks that fail.

use crate::ledger::push_all;
use crate::streams::SAMPLE;
use crate::visits::opened;
use session::{Fault, Session, ViewFault};
use std::alloc::Global;
use std::process::Abort;
use std::test::Fail;
use stream_writer::{DeviceFault, MemorySink, Sink, WriteFault};
use values::Cause;
use view_config::read_config;

const CONFIG: &str = r#"
[main]
key = "k"
columns = [["k", "int64"], ["v", "int64"]]
[feed.add]
role = "append"
[view.t]
columns = [["k", "col", "k"], ["v", "col", "v"]]
"#;

/// A sink that takes one byte a put, and returns 0 after `puts` puts.
#[derive(Drop)]
struct Dwindling {
    bytes: Vec<u8>,
    puts: u64,
    failed: u64,
}

impl Sink for Dwindling {
    ghost use Rattle.stream_writer.specs.Sinks.{sunk_of};

    ghost sunk = { λ s. sunk_of s.bytes.items s.failed };

    fn put(&mut self, piece: &[u8]) -> Result<usize, DeviceFault> {
        let failed = self.failed;
        if piece.is_empty() {
            return Ok(0);
        }
        if self.puts == 0 {
            self.failed = failed.wrapping_add(1);
            return Ok(0);
        }
        if self.bytes.extend_from_slice(&piece[..1]).is_err() {
            self.failed = failed.wrapping_add(1);
            return Err(DeviceFault);
        }
        self.puts -= 1;
        Ok(1)
    }
}

/// Opens a session, and pushes the sample, whose rows its view shows.
fn open(rt: &impl Abort, alloc: Global) -> Result<Session, Fail> {
    let config = read_config(alloc, CONFIG);
    assert!(rt; config.is_ok());
    let mut session = Session::open(alloc, config.unwrap())?;
    push_all(rt, &mut session, &SAMPLE);
    Ok(session)
}

/// The answer of a write whose sink failed after these bytes.
fn stopped(taken: &[u8]) -> Result<u64, ViewFault> {
    let written = taken.len() as u64;
    Err(ViewFault::Write(WriteFault::Device { written }))
}

/// Writes the view to a sink that takes one byte a put and fails after these.
fn fail_after(rt: &impl Abort, alloc: Global, session: &mut Session, taken: &[u8]) {
    let mut sink = MemorySink::with_limit(alloc, 1, taken.len() as u64);
    assert_eq!(rt; session.write_view("t", &mut sink), stopped(taken));
    assert_eq!(rt; sink.bytes(), taken);
}

/// Writes the view to a sink that takes one byte a put and returns 0 after these.
fn dwindle_after(rt: &impl Abort, alloc: Global, session: &mut Session, taken: &[u8]) {
    let mut sink = Dwindling {
        bytes: Vec::new(alloc),
        puts: taken.len() as u64,
        failed: 0,
    };
    assert_eq!(rt; session.write_view("t", &mut sink), stopped(taken));
    assert_eq!(rt; sink.bytes.as_slice(), taken);
}

/// A write to a sink that fails leaves the rows, the edit that can be undone, and no view stale.
#[test]
fn sinks(rt: HostRuntime) -> Result<(), Fail> {
    let mut session = open(&rt, rt.alloc())?;
    for puts in 0..504usize {
        fail_after(&rt, rt.alloc(), &mut session, &SAMPLE[..puts]);
        dwindle_after(&rt, rt.alloc(), &mut session, &SAMPLE[..puts]);
        assert_eq!(rt; session.live_rows(), 3);
        assert_eq!(rt; session.stale(), 0);
    }
    assert_eq!(rt; session.undo(), Ok(()));
    let nothing = Fault {
        cause: Cause::NothingToUndo,
        used: 0,
    };
    assert_eq!(rt; session.undo(), Err(nothing));
    Ok(())
}

/// A sink that takes seven bytes a put gets the whole stream.
#[test]
fn sinks_of_seven_bytes(rt: HostRuntime) -> Result<(), Fail> {
    let mut session = open(&rt, rt.alloc())?;
    let mut sink = MemorySink::with_limit(rt.alloc(), 7, u64::MAX);
    assert_eq!(rt; session.write_view("t", &mut sink), Ok(504));
    assert_eq!(rt; sink.bytes(), SAMPLE.as_slice());
    Ok(())
}

/// A write after one that failed opens the view's rows, and no more.
#[test]
fn sinks_after_failure(rt: HostRuntime) -> Result<(), Fail> {
    let mut session = open(&rt, rt.alloc())?;
    fail_after(&rt, rt.alloc(), &mut session, &SAMPLE[..9]);
    let before = session.visits();
    let mut sink = MemorySink::new(rt.alloc());
    assert_eq!(rt; session.write_view("t", &mut sink), Ok(504));
    assert_eq!(rt; sink.bytes(), SAMPLE.as_slice());
    assert!(rt; opened(&session, before) <= 3);
    Ok(())
}
