//! What a feed answers to given damage, and to fields at the limits of their number and depth.

use crate::harm::dropped;
use crate::lockstep::{Outcome, feed_both, push};
use crate::stream::HexStream;
use crate::streams::{LEVELS_10, LEVELS_11, LEVELS_16, LEVELS_17, SAMPLE};
use feed::{Fed, Feed};
use std::alloc::AllocError;
use std::process::Abort;
use std::test::Fail;
use values::StreamFault;

fn outcome(rt: &(impl Abort + AllocGlobal), bytes: &[u8]) -> Result<Outcome, AllocError> {
    feed_both(rt, bytes, bytes)
}

/// The end of the input after this many bytes of the sample stream.
fn cuts(rt: &(impl Abort + AllocGlobal), sample: &[u8]) -> Result<(), AllocError> {
    for place in 0..=sample.len() {
        let expected = match place {
            0 => Outcome::Broken(StreamFault::NoSchema),
            232 | 496 | 504 => Outcome::Taken,
            _ => Outcome::Broken(StreamFault::Truncated),
        };
        assert_eq!(rt; outcome(rt, &sample[..place])?, expected, "cut at {place}");
    }
    Ok(())
}

/// The front of a message: its bytes are used, and are no event.
fn is_begun(rt: &(impl Abort + AllocGlobal), front: &[u8]) -> bool {
    let mut feed = Feed::open(rt.alloc(), None);
    match push(rt, &mut feed, front) {
        Ok(Fed { used, event }) => used == front.len() && event.is_none(),
        Err(_) => false,
    }
}

/// Metadata sizes above 2^24, and one of 2^24.
fn sizes(rt: &(impl Abort + AllocGlobal), sample: &[u8]) -> Result<(), AllocError> {
    let bad = Outcome::Broken(StreamFault::BadSize);
    assert!(rt; sample.len() > 4);
    let shifted = dropped(rt.alloc(), sample, 4)?;
    assert_eq!(rt; outcome(rt, &shifted)?, bad);
    assert_eq!(rt; outcome(rt, &[255, 255, 255, 255, 1, 0, 0, 1])?, bad);
    assert!(rt; is_begun(rt, &[255, 255, 255, 255, 0, 0, 0, 1]));
    Ok(())
}

/// A count of fields that cannot be there, and a root whose vtable has no size.
fn places(rt: &(impl Abort + AllocGlobal), sample: &[u8]) -> Result<(), AllocError> {
    assert!(rt; sample.len() > 80);
    let mut bytes = sample.to_vec(rt.alloc())?;
    bytes[76..80].copy_from_slice(&[0xFF, 0xFF, 0xFF, 0x7F]);
    let counted = outcome(rt, &bytes)?;
    assert!(rt;
        matches!(
            counted,
            Outcome::Broken(StreamFault::BadTable | StreamFault::TooManyFields)
        )
    );
    let mut bytes = sample.to_vec(rt.alloc())?;
    bytes[8] = 0xDC;
    assert_eq!(rt;
        outcome(rt, &bytes)?,
        Outcome::Broken(StreamFault::BadTable)
    );
    Ok(())
}

/// The outcome of a stream as it is.
fn whole(rt: &(impl Abort + AllocGlobal), stream: &HexStream) -> Result<Outcome, AllocError> {
    let stream = stream.decode(rt)?;
    outcome(rt, &stream.bytes)
}

/// Fields at the limit of their number, 1,024, and at that of their depth, 16, and past it.
fn levels(rt: &(impl Abort + AllocGlobal)) -> Result<(), AllocError> {
    let many = Outcome::Broken(StreamFault::TooManyFields);
    assert_eq!(rt; whole(rt, &LEVELS_10)?, Outcome::Taken);
    assert_eq!(rt; whole(rt, &LEVELS_11)?, many);
    assert_eq!(rt; whole(rt, &LEVELS_16)?, Outcome::Taken);
    assert_eq!(rt; whole(rt, &LEVELS_17)?, many);
    Ok(())
}

#[test]
fn r11_rows(rt: HostRuntime) -> Result<(), Fail> {
    let sample = SAMPLE.decode(&rt)?.bytes;
    assert_eq!(rt; sample.len(), 504);
    cuts(&rt, &sample)?;
    sizes(&rt, &sample)?;
    places(&rt, &sample)?;
    levels(&rt)?;
    Ok(())
}
