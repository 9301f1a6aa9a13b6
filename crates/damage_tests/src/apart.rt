//! Checks the comparison of events: two streams that differ in one thing only, whatever it is, don't compare as the
//! same.

use crate::harm::flipped;
use crate::lockstep::{Outcome, feed_both};
use crate::stream::HexStream;
use crate::streams::{BOOLS, BYTES, DECIMALS, GROWN, LISTS, NESTED, SAMPLE, STRUCTS, TEXTS};
use std::alloc::AllocError;
use std::process::Abort;
use std::test::Fail;

/// Asserts that two streams are both accepted, and that their events differ.
fn differ(
    rt: &(impl Abort + AllocGlobal),
    valid: &[u8],
    other: &[u8],
    place: usize,
) -> Result<(), AllocError> {
    assert_eq!(rt; feed_both(rt, valid, valid)?, Outcome::Taken, "at {place}");
    assert_eq!(rt; feed_both(rt, other, other)?, Outcome::Taken, "at {place}");
    assert_eq!(rt; feed_both(rt, valid, other)?, Outcome::Apart, "at {place}");
    assert_eq!(rt; feed_both(rt, other, valid)?, Outcome::Apart, "at {place}");
    Ok(())
}

fn turned(
    rt: &(impl Abort + AllocGlobal),
    valid: &[u8],
    place: usize,
    bit: u8,
) -> Result<Vec<u8>, AllocError> {
    assert!(rt; place < valid.len() && bit < 8);
    flipped(rt.alloc(), valid, place, bit)
}

/// Asserts it of a stream and the same stream with one bit flipped.
fn differs(
    rt: &(impl Abort + AllocGlobal),
    stream: &HexStream,
    place: usize,
    bit: u8,
) -> Result<(), AllocError> {
    let valid = stream.decode(rt)?;
    let other = turned(rt, &valid.bytes, place, bit)?;
    differ(rt, &valid.bytes, &other, place)
}

/// Whatever one flipped bit changes in an event.
#[test]
fn values(rt: HostRuntime) -> Result<(), Fail> {
    let changes = [
        // A field's name, whether it is nullable, its type, its index type, and a child's name.
        (TEXTS, 120, 1),
        (TEXTS, 104, 0),
        (DECIMALS, 144, 0),
        (GROWN, 192, 0),
        (STRUCTS, 168, 1),
        // A cell of each kind of value, also inside lists and structs, and the length of a list, also inside a list.
        (BOOLS, 296, 0),
        (SAMPLE, 440, 1),
        (DECIMALS, 312, 0),
        (TEXTS, 331, 1),
        (BYTES, 328, 0),
        (STRUCTS, 496, 1),
        (LISTS, 418, 0),
        (LISTS, 404, 0),
        (NESTED, 608, 0),
        (NESTED, 596, 0),
        // An index.
        (GROWN, 792, 0),
    ];
    for (stream, place, bit) in changes {
        differs(&rt, &stream, place, bit)?;
    }
    Ok(())
}

/// The bytes from one offset of a stream to another.
fn part<'a>(rt: &impl Abort, bytes: &'a [u8], from: usize, to: usize) -> &'a [u8] {
    assert!(rt; from <= to && to <= bytes.len());
    &bytes[from..to]
}

/// Whether dictionary values are a delta, and how many they are.
fn dictionaries(rt: &(impl Abort + AllocGlobal), grown: &[u8]) -> Result<(), AllocError> {
    let with_delta = part(rt, grown, 0, 632);
    let replaced = turned(rt, with_delta, 500, 0)?;
    differ(rt, with_delta, &replaced, 500)?;
    let valid = part(rt, grown, 0, 416);
    // No row, and no slot.
    let rows = turned(rt, valid, 304, 0)?;
    let none = turned(rt, &rows, 328, 0)?;
    differ(rt, valid, &none, 304)
}

/// Another end, and another fault.
fn ends(rt: &(impl Abort + AllocGlobal), sample: &[u8]) -> Result<(), AllocError> {
    let pairs = [
        (sample, part(rt, sample, 0, 496)),
        (part(rt, sample, 0, 232), part(rt, sample, 0, 233)),
        (part(rt, sample, 1, 504), part(rt, sample, 496, 504)),
    ];
    for (whole, single) in pairs {
        assert_eq!(rt; feed_both(rt, whole, single)?, Outcome::Apart);
    }
    Ok(())
}

#[test]
fn messages(rt: HostRuntime) -> Result<(), Fail> {
    dictionaries(&rt, &GROWN.decode(&rt)?.bytes)?;
    ends(&rt, &SAMPLE.decode(&rt)?.bytes)?;
    Ok(())
}
