//! A whole stream in memory, recast and inspected.

use crate::sample::SAMPLE;
use liveviews::{RecastFault, inspect, recast};
use std::test::Fail;
use stream_writer::MemorySink;
use values::Cause;

#[test]
fn recasts_the_sample(rt: HostRuntime) {
    let mut sink = MemorySink::new(rt.alloc());
    assert_eq!(rt; recast(rt.alloc(), &SAMPLE, &mut sink), Ok(504));
    assert_eq!(rt; sink.bytes(), SAMPLE.as_slice());
}

#[test]
fn puts_nothing_where_it_refuses(rt: HostRuntime) {
    let mut sink = MemorySink::new(rt.alloc());
    let refused = RecastFault {
        cause: Cause::Truncated,
        written: 0,
    };
    assert_eq!(rt; recast(rt.alloc(), &SAMPLE[..300], &mut sink), Err(refused));
    assert_eq!(rt; sink.bytes().len(), 0);
}

#[test]
fn inspects_up_to_the_fault(rt: HostRuntime) -> Result<(), Fail> {
    let inspected = inspect(rt.alloc(), &SAMPLE[..300])?;
    let lines = "schema fields=2\nfield k int64\nfield v int64\nrefused 30 Truncated\n";
    assert_eq!(rt; inspected.text.as_str(), lines);
    assert_eq!(rt; inspected.status, 1);
    Ok(())
}
