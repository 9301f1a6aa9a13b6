//! Each kind of damage, everywhere in each stream.

use crate::harm::{dropped, flipped};
use crate::lockstep::{Outcome, feed_both};
use crate::stream::{HexStream, Stream};
use crate::streams::{
    BOOLS, BYTES, DECIMALS, FIXED_WIDTH, GROWN, LARGE, LISTS, NESTED, NO_BATCH, NO_END_MARK,
    NO_ROWS, NULL_VALUE, NULLS_FIRST, REPLACED, SAMPLE, SCHEMA_BODY, SHARED, STRUCTS, TEXTS,
};
use std::alloc::AllocError;
use std::process::Abort;
use std::test::Fail;
use values::StreamFault;

/// The expected outcome of the first `place` bytes of a stream: it may end where a message does.
fn cut_outcome(stream: &Stream, place: usize) -> Outcome {
    if place == 0 {
        return Outcome::Broken(StreamFault::NoSchema);
    }
    if stream.ends.contains(&place) {
        return Outcome::Taken;
    }
    Outcome::Broken(StreamFault::Truncated)
}

/// Cuts the stream at each offset, also after the last byte.
fn cuts(rt: &(impl Abort + AllocGlobal), stream: &Stream) -> Result<(), AllocError> {
    let name = stream.name;
    for place in 0..=stream.bytes.len() {
        let bytes = &stream.bytes[..place];
        let outcome = feed_both(rt, bytes, bytes)?;
        assert_eq!(rt;
            outcome,
            cut_outcome(stream, place),
            "{name} cut at {place}"
        );
    }
    Ok(())
}

/// Drops each byte in turn. What comes after it is shifted, so the stream is never accepted.
fn drops(rt: &(impl Abort + AllocGlobal), stream: &Stream) -> Result<(), AllocError> {
    let name = stream.name;
    for place in 0..stream.bytes.len() {
        let bytes = dropped(rt.alloc(), &stream.bytes, place)?;
        let outcome = feed_both(rt, &bytes, &bytes)?;
        assert!(rt;
            matches!(outcome, Outcome::Broken(_)),
            "{name} without byte {place}"
        );
    }
    Ok(())
}

/// Flips each bit of one byte in turn.
fn flips_at(
    rt: &(impl Abort + AllocGlobal),
    stream: &Stream,
    place: usize,
) -> Result<(), AllocError> {
    let name = stream.name;
    assert!(rt; place < stream.bytes.len());
    for bit in 0..8 {
        let bytes = flipped(rt.alloc(), &stream.bytes, place, bit)?;
        let outcome = feed_both(rt, &bytes, &bytes)?;
        assert!(rt;
            outcome != Outcome::Apart,
            "{name} with bit {bit} of byte {place} flipped"
        );
    }
    Ok(())
}

fn flips(rt: &(impl Abort + AllocGlobal), stream: &Stream) -> Result<(), AllocError> {
    for place in 0..stream.bytes.len() {
        flips_at(rt, stream, place)?;
    }
    Ok(())
}

fn sweep(rt: &(impl Abort + AllocGlobal), streams: &[HexStream]) -> Result<(), AllocError> {
    for stream in streams {
        let stream = stream.decode(rt)?;
        cuts(rt, &stream)?;
        drops(rt, &stream)?;
        flips(rt, &stream)?;
    }
    Ok(())
}

#[test]
fn damage_16(rt: HostRuntime) -> Result<(), Fail> {
    let streams = [
        SAMPLE,
        NO_BATCH,
        NO_ROWS,
        BOOLS,
        TEXTS,
        REPLACED,
        NULL_VALUE,
        NULLS_FIRST,
        DECIMALS,
        STRUCTS,
        LISTS,
        SHARED,
        NO_END_MARK,
        SCHEMA_BODY,
        FIXED_WIDTH,
        LARGE,
    ];
    Ok(sweep(&rt, &streams)?)
}

/// Streams of forms that those sixteen don't have.
#[test]
fn other_forms(rt: HostRuntime) -> Result<(), Fail> {
    Ok(sweep(&rt, &[BYTES, NESTED, GROWN])?)
}
