//! Tests on a stored stream of two int64 columns `k` and `v` with the rows (1, 10), (2, null), (3, 30).

use crate::{Framed, Framer, Header};
use std::alloc::{AllocError, Global};
use std::test::Fail;
use values::{ColType, IntWidth, LogicalField, Schema, StreamFault};

/// The schema message ends at 232, the batch at 496, the end mark at 504.
const SAMPLE: [u8; 504] = [
    0xFF, 0xFF, 0xFF, 0xFF, 0xE0, 0x00, 0x00, 0x00, 0x18, 0x00, 0x00, 0x00, 0x00, 0x00, 0x00, 0x00,
    0x0C, 0x00, 0x18, 0x00, 0x04, 0x00, 0x06, 0x00, 0x08, 0x00, 0x10, 0x00, 0x00, 0x00, 0x00, 0x00,
    0x10, 0x00, 0x00, 0x00, 0x04, 0x00, 0x01, 0x00, 0x18, 0x00, 0x00, 0x00, 0x00, 0x00, 0x00, 0x00,
    0x00, 0x00, 0x00, 0x00, 0x00, 0x00, 0x00, 0x00, 0x08, 0x00, 0x0C, 0x00, 0x04, 0x00, 0x08, 0x00,
    0x08, 0x00, 0x00, 0x00, 0x00, 0x00, 0x00, 0x00, 0x04, 0x00, 0x00, 0x00, 0x02, 0x00, 0x00, 0x00,
    0x18, 0x00, 0x00, 0x00, 0x5C, 0x00, 0x00, 0x00, 0x10, 0x00, 0x14, 0x00, 0x04, 0x00, 0x08, 0x00,
    0x09, 0x00, 0x0C, 0x00, 0x00, 0x00, 0x10, 0x00, 0x10, 0x00, 0x00, 0x00, 0x10, 0x00, 0x00, 0x00,
    0x01, 0x02, 0x00, 0x00, 0x1C, 0x00, 0x00, 0x00, 0x24, 0x00, 0x00, 0x00, 0x01, 0x00, 0x00, 0x00,
    0x6B, 0x00, 0x00, 0x00, 0x00, 0x00, 0x00, 0x00, 0x08, 0x00, 0x0C, 0x00, 0x04, 0x00, 0x08, 0x00,
    0x08, 0x00, 0x00, 0x00, 0x40, 0x00, 0x00, 0x00, 0x01, 0x00, 0x00, 0x00, 0x00, 0x00, 0x00, 0x00,
    0x10, 0x00, 0x14, 0x00, 0x04, 0x00, 0x08, 0x00, 0x09, 0x00, 0x0C, 0x00, 0x00, 0x00, 0x10, 0x00,
    0x10, 0x00, 0x00, 0x00, 0x10, 0x00, 0x00, 0x00, 0x01, 0x02, 0x00, 0x00, 0x1C, 0x00, 0x00, 0x00,
    0x24, 0x00, 0x00, 0x00, 0x01, 0x00, 0x00, 0x00, 0x76, 0x00, 0x00, 0x00, 0x00, 0x00, 0x00, 0x00,
    0x08, 0x00, 0x0C, 0x00, 0x04, 0x00, 0x08, 0x00, 0x08, 0x00, 0x00, 0x00, 0x40, 0x00, 0x00, 0x00,
    0x01, 0x00, 0x00, 0x00, 0x00, 0x00, 0x00, 0x00, 0xFF, 0xFF, 0xFF, 0xFF, 0xC8, 0x00, 0x00, 0x00,
    0x18, 0x00, 0x00, 0x00, 0x00, 0x00, 0x00, 0x00, 0x0C, 0x00, 0x18, 0x00, 0x04, 0x00, 0x06, 0x00,
    0x08, 0x00, 0x10, 0x00, 0x00, 0x00, 0x00, 0x00, 0x10, 0x00, 0x00, 0x00, 0x04, 0x00, 0x03, 0x00,
    0x20, 0x00, 0x00, 0x00, 0x00, 0x00, 0x00, 0x00, 0x38, 0x00, 0x00, 0x00, 0x00, 0x00, 0x00, 0x00,
    0x0A, 0x00, 0x18, 0x00, 0x08, 0x00, 0x10, 0x00, 0x14, 0x00, 0x00, 0x00, 0x00, 0x00, 0x00, 0x00,
    0x10, 0x00, 0x00, 0x00, 0x00, 0x00, 0x00, 0x00, 0x03, 0x00, 0x00, 0x00, 0x00, 0x00, 0x00, 0x00,
    0x0C, 0x00, 0x00, 0x00, 0x30, 0x00, 0x00, 0x00, 0x00, 0x00, 0x00, 0x00, 0x02, 0x00, 0x00, 0x00,
    0x03, 0x00, 0x00, 0x00, 0x00, 0x00, 0x00, 0x00, 0x00, 0x00, 0x00, 0x00, 0x00, 0x00, 0x00, 0x00,
    0x03, 0x00, 0x00, 0x00, 0x00, 0x00, 0x00, 0x00, 0x01, 0x00, 0x00, 0x00, 0x00, 0x00, 0x00, 0x00,
    0x00, 0x00, 0x00, 0x00, 0x04, 0x00, 0x00, 0x00, 0x00, 0x00, 0x00, 0x00, 0x00, 0x00, 0x00, 0x00,
    0x00, 0x00, 0x00, 0x00, 0x00, 0x00, 0x00, 0x00, 0x00, 0x00, 0x00, 0x00, 0x00, 0x00, 0x00, 0x00,
    0x18, 0x00, 0x00, 0x00, 0x00, 0x00, 0x00, 0x00, 0x18, 0x00, 0x00, 0x00, 0x00, 0x00, 0x00, 0x00,
    0x01, 0x00, 0x00, 0x00, 0x00, 0x00, 0x00, 0x00, 0x20, 0x00, 0x00, 0x00, 0x00, 0x00, 0x00, 0x00,
    0x18, 0x00, 0x00, 0x00, 0x00, 0x00, 0x00, 0x00, 0x01, 0x00, 0x00, 0x00, 0x00, 0x00, 0x00, 0x00,
    0x02, 0x00, 0x00, 0x00, 0x00, 0x00, 0x00, 0x00, 0x03, 0x00, 0x00, 0x00, 0x00, 0x00, 0x00, 0x00,
    0x05, 0x00, 0x00, 0x00, 0x00, 0x00, 0x00, 0x00, 0x0A, 0x00, 0x00, 0x00, 0x00, 0x00, 0x00, 0x00,
    0x00, 0x00, 0x00, 0x00, 0x00, 0x00, 0x00, 0x00, 0x1E, 0x00, 0x00, 0x00, 0x00, 0x00, 0x00, 0x00,
    0xFF, 0xFF, 0xFF, 0xFF, 0x00, 0x00, 0x00, 0x00,
];

/// The kind of a message, as a number.
fn kind(header: &Header) -> u8 {
    match header {
        Header::Schema => 1,
        Header::Dictionary(_) => 2,
        Header::Batch(_) => 3,
        Header::End => 0,
    }
}

/// How much of a piece is used, and the kind of the message that it completes.
///
/// This and what it calls have no contract, so that what is proved of a test doesn't grow with each call.
fn told(framed: Framed) -> (usize, Option<u8>) {
    let Framed { used, message } = framed;
    let Some(message) = message else {
        return (used, None);
    };
    (used, Some(kind(&message.header)))
}

fn push(framer: &mut Framer, piece: &[u8]) -> Result<(usize, Option<u8>), StreamFault> {
    Ok(told(framer.push(piece)?))
}

fn prepare(framer: &mut Framer, piece: &[u8]) -> Result<(usize, Option<u8>), StreamFault> {
    Ok(told(framer.prepare(piece)?))
}

fn commit(framer: &mut Framer) {
    framer.commit();
}

fn discard(framer: &mut Framer) {
    framer.discard();
}

/// How many columns the message's schema has.
fn width(framed: Framed) -> Option<usize> {
    Some(framed.message?.schema.fields.len())
}

/// The length of a batch's body, and its rows, nodes and buffers.
fn batch(framed: Framed) -> Option<[usize; 4]> {
    let message = framed.message?;
    match &message.header {
        Header::Batch(header) => Some([
            message.body.len(),
            header.rows,
            header.nodes.len(),
            header.ranges.len(),
        ]),
        _ => None,
    }
}

#[test]
fn whole(rt: HostRuntime) -> Result<(), Fail> {
    let mut framer = Framer::open(rt.alloc(), None);
    assert_eq!(rt; width(framer.push(&SAMPLE)?), Some(2));
    assert_eq!(rt; batch(framer.push(&SAMPLE[232..])?), Some([56, 3, 2, 4]));
    assert_eq!(rt; push(&mut framer, &SAMPLE[496..]), Ok((8, Some(0))));
    assert_eq!(rt; framer.held(), 0);
    Ok(())
}

/// The header of the batch is read into the lists of the one before, which was returned for reuse.
#[test]
fn takes_a_header_back(rt: HostRuntime) -> Result<(), Fail> {
    let mut framer = Framer::open(rt.alloc(), None);
    assert_eq!(rt; push(&mut framer, &SAMPLE), Ok((232, Some(1))));
    for _ in 0..3 {
        let message = framer.push(&SAMPLE[232..496])?.message;
        framer.take_back(message.ok_or("no batch")?.header);
    }
    assert_eq!(rt; batch(framer.push(&SAMPLE[232..])?), Some([56, 3, 2, 4]));
    Ok(())
}

#[test]
fn in_pieces_of_one_byte(rt: HostRuntime) {
    let mut framer = Framer::open(rt.alloc(), None);
    for i in 0..504 {
        let message = match i {
            231 => Some(1),
            495 => Some(3),
            503 => Some(0),
            _ => None,
        };
        assert_eq!(rt; push(&mut framer, &SAMPLE[i..i + 1]), Ok((1, message)));
    }
    assert!(rt; framer.schema().is_some());
}

/// A body of 65,592 bytes that comes in pieces of 64 is returned whole.
#[test]
fn long_body_in_pieces(rt: HostRuntime) -> Result<(), Fail> {
    let mut bytes = SAMPLE;
    bytes[282] = 1;
    let mut framer = Framer::open(rt.alloc(), None);
    assert_eq!(rt; push(&mut framer, &bytes), Ok((232, Some(1))));
    assert_eq!(rt; push(&mut framer, &bytes[232..440]), Ok((208, None)));
    for _ in 0..1024 {
        assert_eq!(rt; push(&mut framer, &[3; 64]), Ok((64, None)));
    }
    assert_eq!(rt; framer.held(), 65_744);
    let framed = framer.push(&[7; 64])?;
    assert_eq!(rt; framed.used, 56);
    let body = framed.message.ok_or("no batch")?.body;
    assert_eq!(rt; body.len(), 65_592);
    assert_eq!(rt; body.first(), Some(&3));
    assert_eq!(rt; body.last(), Some(&7));
    Ok(())
}

/// The metadata of the batch ends at 440, its body at 496.
#[test]
fn missing_of_a_message(rt: HostRuntime) {
    let mut framer = Framer::open(rt.alloc(), None);
    assert_eq!(rt; push(&mut framer, &SAMPLE), Ok((232, Some(1))));
    assert_eq!(rt; framer.missing(), 0);
    assert_eq!(rt; push(&mut framer, &SAMPLE[232..439]), Ok((207, None)));
    assert_eq!(rt; framer.missing(), 0);
    assert_eq!(rt; push(&mut framer, &SAMPLE[439..440]), Ok((1, None)));
    assert_eq!(rt; framer.missing(), 56);
    assert_eq!(rt; push(&mut framer, &SAMPLE[440..490]), Ok((50, None)));
    assert_eq!(rt; framer.missing(), 6);
    assert_eq!(rt; push(&mut framer, &SAMPLE[490..496]), Ok((6, Some(3))));
    assert_eq!(rt; framer.missing(), 0);
}

/// A column of 64 bits with a sign.
fn int64(alloc: Global, name: &str) -> Result<LogicalField, AllocError> {
    let width = IntWidth::Bits64;
    Ok(LogicalField {
        name: String::from_str(alloc, name)?,
        col_type: ColType::Int {
            width,
            signed: true,
        },
        children: Vec::new(alloc),
    })
}

/// A schema of two columns, of which the second is named `name`.
fn declared(rt: &HostRuntime, name: &str) -> Result<Schema, Fail> {
    let mut fields = Vec::with_capacity(rt.alloc(), 2)?;
    fields.push(int64(rt.alloc(), "k")?)?;
    fields.push(int64(rt.alloc(), name)?)?;
    Ok(Schema::new(rt.alloc(), fields)?)
}

/// A framer for a stream of columns `k` and `name`.
fn framer_of(rt: &HostRuntime, name: &str) -> Result<Framer, Fail> {
    Ok(Framer::open(rt.alloc(), Some(declared(rt, name)?)))
}

#[test]
fn takes_the_declared_schema(rt: HostRuntime) -> Result<(), Fail> {
    let mut framer = framer_of(&rt, "v")?;
    assert_eq!(rt; push(&mut framer, &SAMPLE), Ok((232, Some(1))));
    Ok(())
}

#[test]
fn refuses_another_schema(rt: HostRuntime) -> Result<(), Fail> {
    let mut framer = framer_of(&rt, "w")?;
    assert_eq!(rt; push(&mut framer, &SAMPLE[..100]), Ok((100, None)));
    let rest = push(&mut framer, &SAMPLE[100..]);
    assert_eq!(rt; rest, Err(StreamFault::SchemaMismatch));
    assert_eq!(rt; framer.held(), 100);
    Ok(())
}

#[test]
fn drops_what_was_made_ready(rt: HostRuntime) {
    let mut framer = Framer::open(rt.alloc(), None);
    assert_eq!(rt; push(&mut framer, &SAMPLE[..4]), Ok((4, None)));
    assert_eq!(rt; prepare(&mut framer, &SAMPLE[4..100]), Ok((96, None)));
    assert_eq!(rt; prepare(&mut framer, &SAMPLE[4..]), Ok((228, Some(1))));
    discard(&mut framer);
    commit(&mut framer);
    assert_eq!(rt; framer.held(), 4);
    assert!(rt; framer.schema().is_none());
    assert_eq!(rt; prepare(&mut framer, &SAMPLE[4..]), Ok((228, Some(1))));
    assert_eq!(rt; prepare(&mut framer, &SAMPLE[4..6]), Ok((2, None)));
    commit(&mut framer);
    assert_eq!(rt; framer.held(), 6);
    assert!(rt; framer.schema().is_none());
    assert_eq!(rt; push(&mut framer, &SAMPLE[6..]), Ok((226, Some(1))));
    assert!(rt; framer.schema().is_some());
}
