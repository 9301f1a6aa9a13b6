//! Sinks that fail.

use crate::sample::SAMPLE;
use crate::table;
use liveviews::{RecastFault, recast};
use std::alloc::Global;
use std::process::Abort;
use std::test::Fail;
use stream_writer::{DeviceFault, MemorySink, Sink, WriteFault, write_table};
use values::Cause;

/// A sink that takes one byte a put and fails at its tenth.
#[test]
#[tactic(auto, using(crate::proofs::Stored::is_table))]
fn r1_sink(rt: HostRuntime) -> Result<(), Fail> {
    let schema = table::schema(rt.alloc())?;
    let rows = table::rows(rt.alloc())?;
    let mut whole = MemorySink::new(rt.alloc());
    assert_eq!(rt;
        write_table(rt.alloc(), &mut whole, &schema, &rows),
        Ok(504)
    );
    assert_eq!(rt; whole.bytes(), SAMPLE.as_slice());
    let mut nine = MemorySink::with_limit(rt.alloc(), 1, 9);
    let answer = write_table(rt.alloc(), &mut nine, &schema, &rows);
    assert_eq!(rt; answer, Err(WriteFault::Device { written: 9 }));
    assert_eq!(rt; nine.bytes(), &SAMPLE[..9]);
    Ok(())
}

/// A sink that takes one byte a put, and returns 0 after `puts` puts.
#[derive(Drop)]
struct Dwindling {
    bytes: Vec<u8>,
    puts: u64,
    failed: u64,
}

impl Sink for Dwindling {
    ghost use Rattle.stream_writer.specs.Sinks.{sunk_of};

    ghost sunk = { λ s. sunk_of s.bytes.items s.failed };

    fn put(&mut self, piece: &[u8]) -> Result<usize, DeviceFault> {
        let failed = self.failed;
        if piece.is_empty() {
            return Ok(0);
        }
        if self.puts == 0 {
            self.failed = failed.wrapping_add(1);
            return Ok(0);
        }
        if self.bytes.extend_from_slice(&piece[..1]).is_err() {
            self.failed = failed.wrapping_add(1);
            return Err(DeviceFault);
        }
        self.puts -= 1;
        Ok(1)
    }
}

/// Recasts the sample to a sink, which stops after this many bytes.
fn recast_to<S: Sink>(rt: &impl Abort, alloc: Global, sink: &mut S, written: u64) {
    let stopped = RecastFault {
        cause: Cause::Device,
        written,
    };
    assert_eq!(rt; recast(alloc, &SAMPLE, sink), Err(stopped));
}

/// One byte a put: a sink that fails after n puts, and one that returns 0 there, hold the first n bytes.
#[test]
fn sinks(rt: HostRuntime) {
    for puts in 0..504usize {
        let written = puts as u64;
        let mut failing = MemorySink::with_limit(rt.alloc(), 1, written);
        recast_to(&rt, rt.alloc(), &mut failing, written);
        assert_eq!(rt; failing.bytes(), &SAMPLE[..puts]);
        let mut dwindling = Dwindling {
            bytes: Vec::new(rt.alloc()),
            puts: written,
            failed: 0,
        };
        recast_to(&rt, rt.alloc(), &mut dwindling, written);
        assert_eq!(rt; dwindling.bytes.as_slice(), &SAMPLE[..puts]);
    }
}

/// A sink that takes seven bytes a put gets the whole stream.
#[test]
fn sinks_of_seven_bytes(rt: HostRuntime) {
    let mut sink = MemorySink::with_limit(rt.alloc(), 7, u64::MAX);
    assert_eq!(rt; recast(rt.alloc(), &SAMPLE, &mut sink), Ok(504));
    assert_eq!(rt; sink.bytes(), SAMPLE.as_slice());
}
