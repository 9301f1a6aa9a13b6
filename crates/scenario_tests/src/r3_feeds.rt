//! A stream that comes in pieces.

use crate::checks::{finish, push};
use crate::sample::SAMPLE;
use crate::{declared, table};
use feed::{Fed, Feed, FeedEvent};
use std::process::Abort;
use std::test::Fail;
use values::{OffsetWidth, StreamFault};

/// What is compared of an event.
#[derive(Clone, Copy, Debug, PartialEq, Eq)]
enum EventKind {
    Nothing,
    Schema,
    Dictionary,
    Batch {
        columns: usize,
        rows: usize,
        body: usize,
    },
    End,
}

fn kind_of_event(event: FeedEvent) -> EventKind {
    match event {
        FeedEvent::Schema(_schema) => EventKind::Schema,
        FeedEvent::Dictionary { .. } => EventKind::Dictionary,
        FeedEvent::Batch {
            columns,
            rows,
            body,
        } => EventKind::Batch {
            columns: columns.len(),
            rows,
            body,
        },
        FeedEvent::End => EventKind::End,
    }
}

fn tells(
    rt: &impl Abort,
    feed: &mut Feed,
    piece: &[u8],
) -> Result<(usize, EventKind), StreamFault> {
    let Fed { used, event } = push(rt, feed, piece)?;
    let Some(event) = event else {
        return Ok((used, EventKind::Nothing));
    };
    Ok((used, kind_of_event(event)))
}

/// The stored stream whole: its schema, its batch and its end mark.
#[test]
fn r3_whole(rt: HostRuntime) {
    let mut feed = Feed::open(rt.alloc(), None);
    assert_eq!(rt;
        tells(&rt, &mut feed, &SAMPLE),
        Ok((232, EventKind::Schema))
    );
    let batch = EventKind::Batch {
        columns: 2,
        rows: 3,
        body: 56,
    };
    assert_eq!(rt; tells(&rt, &mut feed, &SAMPLE[232..]), Ok((264, batch)));
    assert_eq!(rt;
        tells(&rt, &mut feed, &SAMPLE[496..]),
        Ok((8, EventKind::End))
    );
}

/// Nothing may come after the end, but that the input ends.
#[test]
fn r3_after_end(rt: HostRuntime) {
    let mut feed = Feed::open(rt.alloc(), None);
    for place in [0, 232, 496] {
        let came = tells(&rt, &mut feed, &SAMPLE[place..]);
        assert!(rt; came.is_ok());
    }
    assert_eq!(rt; tells(&rt, &mut feed, &[]), Ok((0, EventKind::Nothing)));
    assert_eq!(rt; finish(&rt, &mut feed), Ok(()));
    assert_eq!(rt; finish(&rt, &mut feed), Ok(()));
    assert_eq!(rt; tells(&rt, &mut feed, &[0]), Err(StreamFault::AfterEnd));
    assert!(rt; feed.is_broken());
}

/// The stored stream byte by byte: an event at the end of each message, and none before.
#[test]
fn r3_bytes(rt: HostRuntime) {
    let mut feed = Feed::open(rt.alloc(), None);
    for i in 0..504 {
        let empty = tells(&rt, &mut feed, &[]);
        assert_eq!(rt; empty, Ok((0, EventKind::Nothing)), "before {i}");
        let came = tells(&rt, &mut feed, &SAMPLE[i..i + 1]);
        if i == 231 || i == 495 || i == 503 {
            assert!(rt; came != Ok((1, EventKind::Nothing)), "at {i}");
        } else {
            assert_eq!(rt; came, Ok((1, EventKind::Nothing)), "at {i}");
        }
    }
}

/// How much of a message is missing, once its metadata is there.
#[test]
fn r3_missing(rt: HostRuntime) {
    let mut feed = Feed::open(rt.alloc(), None);
    assert_eq!(rt;
        tells(&rt, &mut feed, &SAMPLE),
        Ok((232, EventKind::Schema))
    );
    for (from, to, missing) in [(232, 439, 0), (439, 440, 56), (440, 490, 6)] {
        let came = tells(&rt, &mut feed, &SAMPLE[from..to]);
        assert_eq!(rt; came, Ok((to - from, EventKind::Nothing)));
        assert_eq!(rt; feed.missing(), missing);
    }
    assert!(rt; tells(&rt, &mut feed, &SAMPLE[490..]).is_ok());
    assert_eq!(rt; feed.missing(), 0);
}

/// The end of the input inside a message.
#[test]
fn r3_truncated(rt: HostRuntime) {
    let mut feed = Feed::open(rt.alloc(), None);
    let start = &SAMPLE[..300];
    assert_eq!(rt; tells(&rt, &mut feed, start), Ok((232, EventKind::Schema)));
    assert_eq!(rt;
        tells(&rt, &mut feed, &start[232..]),
        Ok((68, EventKind::Nothing))
    );
    assert_eq!(rt; finish(&rt, &mut feed), Err(StreamFault::Truncated));
    assert!(rt; feed.is_broken());
}

/// The end of the input before a schema, and after one.
#[test]
fn r3_finish(rt: HostRuntime) {
    let mut none = Feed::open(rt.alloc(), None);
    assert_eq!(rt; finish(&rt, &mut none), Err(StreamFault::NoSchema));
    let mut feed = Feed::open(rt.alloc(), None);
    assert_eq!(rt;
        tells(&rt, &mut feed, &SAMPLE),
        Ok((232, EventKind::Schema))
    );
    assert_eq!(rt; finish(&rt, &mut feed), Ok(()));
    assert_eq!(rt;
        tells(&rt, &mut feed, &SAMPLE[232..]),
        Err(StreamFault::AfterEnd)
    );
}

/// Prepares a piece without a commit, and returns how much of it would be used.
fn readied(rt: &impl Abort, feed: &mut Feed, piece: &[u8]) -> Result<usize, StreamFault> {
    assert!(rt; !feed.is_broken());
    Ok(feed.prepare(piece)?.used)
}

/// A prepared piece changes nothing before it is committed.
#[test]
fn r3_ready(rt: HostRuntime) {
    let mut feed = Feed::open(rt.alloc(), None);
    assert_eq!(rt; readied(&rt, &mut feed, &SAMPLE), Ok(232));
    assert!(rt; feed.schema().is_none());
    assert_eq!(rt; readied(&rt, &mut feed, &SAMPLE), Ok(232));
    feed.commit();
    assert!(rt; feed.schema().is_some());
    assert_eq!(rt; readied(&rt, &mut feed, &SAMPLE[232..]), Ok(264));
}

/// A piece that is refused breaks a feed for good: what was prepared before it is dropped, and a commit doesn't change
/// that.
#[test]
fn r3_refused_stays_broken(rt: HostRuntime) {
    let mut feed = Feed::open(rt.alloc(), None);
    assert_eq!(rt; readied(&rt, &mut feed, &SAMPLE), Ok(232));
    assert_eq!(rt;
        readied(&rt, &mut feed, &[0; 8]),
        Err(StreamFault::NoContinuation)
    );
    for turn in 0..2 {
        feed.commit();
        assert!(rt; feed.is_broken(), "after {turn}");
        assert!(rt; feed.schema().is_none(), "after {turn}");
    }
}

/// The end of the input inside a message breaks a feed for good too.
#[test]
fn r3_truncated_stays_broken(rt: HostRuntime) {
    let mut feed = Feed::open(rt.alloc(), None);
    assert_eq!(rt;
        tells(&rt, &mut feed, &SAMPLE[..68]),
        Ok((68, EventKind::Nothing))
    );
    assert_eq!(rt; readied(&rt, &mut feed, &SAMPLE[68..]), Ok(164));
    assert_eq!(rt; finish(&rt, &mut feed), Err(StreamFault::Truncated));
    for turn in 0..2 {
        feed.commit();
        assert!(rt; feed.is_broken(), "after {turn}");
        assert!(rt; feed.schema().is_none(), "after {turn}");
    }
}

/// A finished feed stays finished, also where a message was prepared.
#[test]
fn r3_stays_finished(rt: HostRuntime) {
    let mut feed = Feed::open(rt.alloc(), None);
    assert_eq!(rt;
        tells(&rt, &mut feed, &SAMPLE),
        Ok((232, EventKind::Schema))
    );
    assert_eq!(rt; readied(&rt, &mut feed, &SAMPLE[232..]), Ok(264));
    assert_eq!(rt; finish(&rt, &mut feed), Ok(()));
    feed.commit();
    assert_eq!(rt; finish(&rt, &mut feed), Ok(()));
    feed.commit();
    assert_eq!(rt; tells(&rt, &mut feed, &[]), Ok((0, EventKind::Nothing)));
    assert_eq!(rt;
        tells(&rt, &mut feed, &SAMPLE[232..]),
        Err(StreamFault::AfterEnd)
    );
    feed.commit();
    assert!(rt; feed.is_broken());
}

/// A stream whose columns are declared, and one of other columns.
#[test]
fn r3_declared(rt: HostRuntime) -> Result<(), Fail> {
    let columns = table::schema(rt.alloc())?;
    let mut same = Feed::open(rt.alloc(), Some(columns));
    assert_eq!(rt;
        tells(&rt, &mut same, &SAMPLE),
        Ok((232, EventKind::Schema))
    );
    Ok(())
}

#[test]
fn r3_mismatch(rt: HostRuntime) -> Result<(), Fail> {
    let columns = declared::schema(rt.alloc(), OffsetWidth::Bits32, "item")?;
    let mut other = Feed::open(rt.alloc(), Some(columns));
    assert_eq!(rt;
        tells(&rt, &mut other, &SAMPLE),
        Err(StreamFault::SchemaMismatch)
    );
    assert!(rt; other.is_broken());
    Ok(())
}

/// A message without the continuation bytes: its first 8 bytes reveal it, fewer do not.
#[test]
fn r1_framing(rt: HostRuntime) -> Result<(), Fail> {
    let start = [0xFE, 0xFF, 0xFF, 0xFF, 0xE0, 0, 0];
    let mut feed = Feed::open(rt.alloc(), None);
    let fed = push(&rt, &mut feed, &start)?;
    assert_eq!(rt; fed.used, 7);
    assert!(rt; fed.event.is_none());
    assert!(rt; matches!(push(&rt, &mut feed, &[0]), Err(StreamFault::NoContinuation)));
    assert!(rt; feed.is_broken());
    Ok(())
}

/// The greatest metadata size.
#[test]
fn r3_sizes(rt: HostRuntime) -> Result<(), Fail> {
    let mut feed = Feed::open(rt.alloc(), None);
    let greatest = push(&rt, &mut feed, &[255, 255, 255, 255, 0, 0, 0, 1])?;
    assert_eq!(rt; greatest.used, 8);
    assert!(rt; greatest.event.is_none());
    Ok(())
}
