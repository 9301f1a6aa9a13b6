//! Bytes that are stored inline where they are few.

ghost use Rattle.std.specs.Cmp.Lexicographic.{slice_cmp};
ghost use Rattle.std.specs.Ordering.{nat_cmp};
ghost use Rattle.std.specs.Prelude.{◌≡◌, ◌≤◌, [], IfOk, IfSome, OnErr, OnOk, length, take};
ghost use Rattle.values.specs.SmallBytes.{IsInline, spelled};

use std::alloc::{AllocError, Global};
use std::cmp::Ordering;
use std::marker::Model;
use std::mem;

/// How many bytes are stored inline, without memory of their own.
const INLINE: usize = 22;

/// How many of the first bytes of more are stored beside the pointer to all of them.
const HEAD: usize = 15;

/// Where bytes are stored. Both variants are as large as a `Vec`.
#[derive(Debug, Drop)]
enum Room {
    /// The first of these, as many as the number says; the others are zeros.
    Inline(u8, [u8; INLINE]),
    /// More bytes than that, and the first of them once more, so that a comparison can do without the pointer.
    Heap([u8; HEAD], Box<Vec<u8>>),
}

/// Bytes, which take no memory of their own where they are at most 22. Contracts see their list.
#[derive(Debug, Drop)]
pub(crate) struct SmallBytes {
    room: Room,
}

impl Model for SmallBytes {
    ghost use Rattle.values.specs.SmallBytes.{IsRoom, bytes_in};
    ghost use Rattle.std.specs.Prelude.{List, ℕ};

    ghost Value = { List ℕ };

    ghost view = { λ s. bytes_in s.room };

    ghost invariant = { λ s. IsRoom s.room };
}

/// The first bytes of some.
fn head(bytes: &[u8]) -> [u8; HEAD]
    requires { HEAD ≤ length bytes.now }
    ensures { result ≡ take HEAD bytes.now }
{
    let mut head = [0; HEAD];
    head.copy_from_slice(&bytes[..HEAD]);
    head
}

/// Few bytes, stored inline.
fn inline(bytes: &[u8]) -> SmallBytes
    requires { length bytes.now ≤ INLINE }
    ensures { result ≡ bytes.now }
{
    let mut room = [0; INLINE];
    room[..bytes.len()].copy_from_slice(bytes);
    SmallBytes {
        room: Room::Inline(bytes.len() as u8, room),
    }
}

/// Eight bytes as a number, the first of them its highest. Such numbers are ordered as the bytes are.
#[inline(always)]
fn word(bytes: &[u8]) -> u64
    requires { length bytes.now ≡ 8 }
    ensures { result ≡ spelled 0 bytes.now }
{
    u64::from_be_bytes([
        bytes[0], bytes[1], bytes[2], bytes[3], bytes[4], bytes[5], bytes[6], bytes[7],
    ])
}

/// Six bytes as a number, likewise.
#[inline(always)]
fn word_of_six(bytes: &[u8]) -> u64
    requires { length bytes.now ≡ 6 }
    ensures { result ≡ spelled 0 bytes.now }
{
    u64::from_be_bytes([
        0, 0, bytes[0], bytes[1], bytes[2], bytes[3], bytes[4], bytes[5],
    ])
}

/// The order of these bytes, compared eight at a time.
#[inline(always)]
fn cmp_by_words(bytes: &[u8; INLINE], other: &[u8; INLINE]) -> Ordering
    ensures { result ≡ slice_cmp nat_cmp bytes.now other.now }
{
    let first = word(&bytes[..8]).cmp(&word(&other[..8]));
    if first != Ordering::Equal {
        return first;
    }
    let second = word(&bytes[8..16]).cmp(&word(&other[8..16]));
    if second != Ordering::Equal {
        return second;
    }
    word_of_six(&bytes[16..]).cmp(&word_of_six(&other[16..]))
}

/// The order of bytes that are stored inline: by the whole arrays, which end in zeros, and then by their lengths.
#[inline(always)]
fn cmp_inline(len: u8, bytes: &[u8; INLINE], other_len: u8, other: &[u8; INLINE]) -> Ordering
    requires bytes { IsInline len bytes.now }
    requires other { IsInline other_len other.now }
    ensures { result ≡ slice_cmp nat_cmp (take len bytes.now) (take other_len other.now) }
{
    cmp_by_words(bytes, other).then(len.cmp(&other_len))
}

impl SmallBytes {
    /// A copy of some bytes.
    pub(crate) fn new(alloc: Global, bytes: &[u8]) -> Result<SmallBytes, AllocError>
        ensures { IfOk result (λ copy. copy ≡ bytes.now) }
    {
        if bytes.len() <= INLINE {
            return Ok(inline(bytes));
        }
        let copy = Box::new(alloc, Vec::from_slice(alloc, bytes)?)?;
        Ok(SmallBytes {
            room: Room::Heap(head(bytes), copy),
        })
    }

    /// The bytes.
    pub(crate) fn as_slice(&self) -> &[u8]
        ensures { result.now ≡ self.now }
    {
        match &self.room {
            Room::Inline(len, bytes) => &bytes[..*len as usize],
            Room::Heap(_, bytes) => bytes.as_slice(),
        }
    }

    /// Stores other bytes, in the memory that is there where it is large enough.
    pub(crate) fn refill(&mut self, alloc: Global, bytes: &[u8]) -> Result<(), AllocError>
        ensures ok { OnOk result (self.new ≡ bytes.now) }
        ensures err { OnErr result (self.new ≡ []) }
    {
        match mem::replace(&mut self.room, Room::Inline(0, [0; INLINE])) {
            Room::Heap(_, mut kept) if bytes.len() > INLINE => {
                kept.clear();
                kept.extend_from_slice(bytes)?;
                self.room = Room::Heap(head(bytes), kept);
            }
            _ => *self = SmallBytes::new(alloc, bytes)?,
        }
        Ok(())
    }

    /// The order of bytes that are both stored inline, or of many whose first bytes differ: no pointer is followed.
    #[inline(always)]
    pub(crate) fn cmp_in_place(&self, other: &SmallBytes) -> Option<Ordering>
        ensures { IfSome result (λ order. order ≡ slice_cmp nat_cmp self.now other.now) }
    {
        match (&self.room, &other.room) {
            (Room::Inline(len, bytes), Room::Inline(other_len, other)) => {
                Some(cmp_inline(*len, bytes, *other_len, other))
            }
            (Room::Heap(head, _), Room::Heap(other, _)) if head != other => Some(head.cmp(other)),
            _ => None,
        }
    }
}
