//! Feeds the same bytes to two feeds: whole to one, byte by byte to the other.

use crate::events::same_event;
use feed::{Fed, Feed};
use std::alloc::{AllocError, Global};
use std::process::Abort;
use values::StreamFault;

/// How two feeds compare at the end of their streams.
#[derive(Clone, Copy, Debug, PartialEq, Eq)]
pub enum Outcome {
    /// The same events, and an end without a fault.
    Taken,
    /// The same events, and then the same fault.
    Broken(StreamFault),
    /// Something differs.
    Apart,
}

/// How two feeds compare after their next events.
#[derive(Clone, Copy)]
enum Step {
    /// The same event, for which both used this number of bytes.
    Event(usize),
    /// No event: all bytes were used.
    Rest,
    Broken(StreamFault),
    Apart,
}

/// A push to a feed that isn't broken.
pub fn push(rt: &impl Abort, feed: &mut Feed, piece: &[u8]) -> Result<Fed, StreamFault> {
    assert!(rt; !feed.is_broken());
    feed.push(piece)
}

/// Ends the input of a feed that isn't broken.
fn finish(rt: &impl Abort, feed: &mut Feed) -> Result<(), StreamFault> {
    assert!(rt; !feed.is_broken());
    feed.finish()
}

/// Pushes of one byte each, until one gives an event.
fn push_bytes(rt: &impl Abort, feed: &mut Feed, bytes: &[u8]) -> Result<Fed, StreamFault> {
    for i in 0..bytes.len() {
        let Fed { used, event } = push(rt, feed, &bytes[i..i + 1])?;
        assert_eq!(rt; used, 1);
        if event.is_some() {
            return Ok(Fed { used: i + 1, event });
        }
    }
    Ok(Fed {
        used: bytes.len(),
        event: None,
    })
}

fn compare_fed(alloc: Global, a: &Fed, b: &Fed) -> Result<Step, AllocError> {
    match (&a.event, &b.event) {
        (None, None) if a.used == b.used => Ok(Step::Rest),
        (Some(x), Some(y)) if a.used == b.used && same_event(alloc, x, y)? => {
            Ok(Step::Event(a.used))
        }
        _ => Ok(Step::Apart),
    }
}

fn compare(
    alloc: Global,
    a: &Result<Fed, StreamFault>,
    b: &Result<Fed, StreamFault>,
) -> Result<Step, AllocError> {
    match (a, b) {
        (Ok(a), Ok(b)) => compare_fed(alloc, a, b),
        (Err(a), Err(b)) if a == b => Ok(Step::Broken(*a)),
        _ => Ok(Step::Apart),
    }
}

/// One step: the next event of each, or nothing more.
fn advance(
    rt: &(impl Abort + AllocGlobal),
    whole: &mut Feed,
    single: &mut Feed,
    bytes: &[u8],
    one_by_one: &[u8],
) -> Result<Step, AllocError> {
    let a = push(rt, whole, bytes);
    let b = push_bytes(rt, single, one_by_one);
    if whole.is_broken() != single.is_broken() {
        return Ok(Step::Apart);
    }
    compare(rt.alloc(), &a, &b)
}

/// The end of the input of both.
fn finish_both(rt: &impl Abort, whole: &mut Feed, single: &mut Feed) -> Outcome {
    match (finish(rt, whole), finish(rt, single)) {
        (Ok(()), Ok(())) => Outcome::Taken,
        (Err(a), Err(b)) if a == b => Outcome::Broken(a),
        _ => Outcome::Apart,
    }
}

/// Feeds both to the end of their bytes.
fn drive(
    rt: &(impl Abort + AllocGlobal),
    whole: &mut Feed,
    single: &mut Feed,
    bytes: &[u8],
    one_by_one: &[u8],
) -> Result<Outcome, AllocError> {
    let (mut a, mut b) = (bytes, one_by_one);
    // Each event uses some bytes.
    for _ in 0..bytes.len() {
        match advance(rt, whole, single, a, b)? {
            Step::Event(used) => {
                assert!(rt; 0 < used && used <= a.len() && used <= b.len());
                (a, b) = (&a[used..], &b[used..]);
            }
            Step::Rest => break,
            Step::Broken(fault) => return Ok(Outcome::Broken(fault)),
            Step::Apart => return Ok(Outcome::Apart),
        }
    }
    Ok(finish_both(rt, whole, single))
}

/// Compares two feeds, of which the first gets its stream whole and the second byte by byte.
pub fn feed_both(
    rt: &(impl Abort + AllocGlobal),
    bytes: &[u8],
    one_by_one: &[u8],
) -> Result<Outcome, AllocError> {
    let mut whole = Feed::open(rt.alloc(), None);
    let mut single = Feed::open(rt.alloc(), None);
    drive(rt, &mut whole, &mut single, bytes, one_by_one)
}
