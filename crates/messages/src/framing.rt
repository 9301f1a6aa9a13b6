//! Parses the message at the front of some bytes: Arrow Columnar Format, "Encapsulated message format".

ghost use Rattle.std.specs.Prelude.{◌≡◌, ◌≤◌, ◌+◌, ◌++◌, Ok, None, Some, drop, length, slice_range};
ghost use Rattle.std.specs.Prelude.{IfErr, IfOk, IfSome};
ghost use Rattle.byteorder.specs.Endian.{little_number};
ghost use Rattle.values.specs.Limits.{max_metadata_size};
ghost use Rattle.values.specs.Reading.{Answers, Fails, Yields};
ghost use Rattle.schema_meta.specs.Framing.{end_mark, first, framed, message_at};
ghost use Rattle.schema_meta.specs.Message.{meta_of};
ghost use Rattle.schema_meta.specs.Stage.{Known};
ghost use Rattle.messages.specs.State.{IsRead, known_of, progress_seen, whole_seen};
ghost use Rattle.messages.specs.Wanted.{Awaits, HasMetadata, IsMissing, followed, followed_at};

use crate::lists::HeaderLists;
use crate::metadata::{Metadata, body_length, read_metadata};
use crate::state::State;
use byteorder::{ByteOrder, LittleEndian};
use schema_meta::Header;
use values::StreamFault;
use values::limits::MAX_METADATA_SIZE;

/// A complete message at the front of some bytes.
#[derive(Drop)]
pub(crate) struct Found {
    /// Where its body begins, in bytes from the front of the message.
    pub front: usize,
    pub metadata: Metadata,
}

/// Whether the first message of some bytes is complete.
#[derive(Drop)]
pub(crate) enum Progress {
    /// Bytes are missing. Fewer than `wanted` further bytes, whatever they are, neither complete it nor reveal a fault.
    Partial { wanted: usize },
    Whole(Found),
}

/// Checks the first 8 bytes of a message, given as two numbers, and returns the size of its metadata.
#[tactic(auto, unfolding(schema_meta::specs::Framing::framed))]
fn metadata_size(mark: u32, size: u32) -> Result<usize, StreamFault>
    ensures value { Yields (λ n. n) result (framed mark size) }
    ensures small { IfOk result (λ n. n ≤ max_metadata_size) }
{
    if mark != u32::MAX {
        return Err(StreamFault::NoContinuation);
    }
    if size as usize > MAX_METADATA_SIZE {
        return Err(StreamFault::BadSize);
    }
    Ok(size as usize)
}

fn end_mark(state: &State) -> Result<Found, StreamFault>
    ensures { Yields (λ f. Some (whole_seen f)) result (end_mark (known_of state.now)) }
{
    if state.schema.is_none() {
        return Err(StreamFault::NoSchema);
    }
    Ok(Found {
        front: 8,
        metadata: Metadata {
            header: Header::End,
            body: 0,
            schema: None,
        },
    })
}

/// Parses the message whose body begins at `front`, or `Partial` if bytes are missing.
#[tactic(auto, using(values::proofs::Readings::failing, crate::proofs::WantedLemmas::message_wanting), unfolding(schema_meta::specs::Framing::message_at))]
fn message_at(
    lists: &mut HeaderLists,
    state: &State,
    bytes: &[u8],
    front: usize,
) -> Result<Progress, StreamFault>
    requires in_range { 8 ≤ front }
    requires small { IsRead (known_of state.now).schema }
    ensures value { Answers progress_seen result
        (message_at (length bytes.now) front (meta_of (known_of state.now) (slice_range bytes.now 8 front))) }
    ensures wanted { IfOk result (λ p. Awaits (followed_at (known_of state.now) bytes.now front) p) }
{
    if bytes.len() < front {
        return Ok(Progress::Partial {
            wanted: front - bytes.len(),
        });
    }
    let metadata = read_metadata(lists, state, &bytes[8..front])?;
    let there = bytes.len() - front;
    if there < metadata.body {
        let wanted = metadata.body - there;
        lists.give(metadata.header);
        return Ok(Progress::Partial { wanted });
    }
    Ok(Progress::Whole(Found { front, metadata }))
}

/// Parses the first message, or `Partial` if bytes are missing. A fault is reported once the bytes that reveal it are
/// there.
#[tactic(auto, using(values::proofs::Readings::failing, crate::proofs::WantedLemmas::first_wanting), unfolding(schema_meta::specs::Framing::first, schema_meta::specs::Framing::staged))]
pub(crate) fn first(
    lists: &mut HeaderLists,
    state: &State,
    bytes: &[u8],
) -> Result<Progress, StreamFault>
    requires { IsRead (known_of state.now).schema }
    ensures value { Answers progress_seen result (first (known_of state.now) bytes.now) }
    ensures wanted { IfOk result (λ p. Awaits (followed (known_of state.now) bytes.now) p) }
{
    if bytes.len() < 8 {
        return Ok(Progress::Partial {
            wanted: 8 - bytes.len(),
        });
    }
    let size = metadata_size(
        LittleEndian::read_u32(bytes),
        LittleEndian::read_u32(&bytes[4..]),
    )?;
    if size == 0 {
        return Ok(Progress::Whole(end_mark(state)?));
    }
    message_at(lists, state, bytes, 8 + size)
}

/// How long the metadata of the first message is, if it is all there.
fn metadata_held(bytes: &[u8]) -> Option<usize>
    ensures some { IfSome result (λ n. 1 ≤ n) }
    ensures there { IfSome result (λ n. 8 + n ≤ length bytes.now) }
    ensures size { IfSome result (λ n. framed (little_number 4 bytes.now) (little_number 4 (drop 4 bytes.now)) ≡ Ok n) }
    ensures none { result ≡ None → HasMetadata bytes.now → ⊥ }
{
    if bytes.len() < 8 {
        return None;
    }
    match metadata_size(
        LittleEndian::read_u32(bytes),
        LittleEndian::read_u32(&bytes[4..]),
    ) {
        Ok(size) if 0 < size && size <= bytes.len() - 8 => Some(size),
        _ => None,
    }
}

/// How many bytes are missing of the incomplete message that these bytes begin, where they have all its metadata; 0
/// where they don't.
pub(crate) fn missing(bytes: &[u8]) -> usize
    ensures { (known : Known) → first known bytes.now ≡ Ok None → IsMissing known bytes.now result }
{
    let Some(size) = metadata_held(bytes) else {
        return 0;
    };
    let front = 8 + size;
    body_length(&bytes[8..front]).saturating_sub(bytes.len() - front)
}

/// Parses the message whose body begins at `front`, of some bytes that hold its metadata and of `more` bytes that come
/// after them. `None` where they don't complete it.
#[tactic(auto, using(values::proofs::Readings::failing, crate::proofs::AcrossLemmas::across), unfolding(schema_meta::specs::Framing::message_at))]
fn message_across(
    lists: &mut HeaderLists,
    state: &State,
    bytes: &[u8],
    more: &[u8],
    front: usize,
) -> Result<Option<Found>, StreamFault>
    requires in_range { 8 ≤ front }
    requires there { front ≤ length bytes.now }
    requires small { IsRead (known_of state.now).schema }
    ensures found { IfOk result (λ o. IfSome o
        (λ f. followed_at (known_of state.now) bytes.now front more.now ≡ Ok (Some (whole_seen f)))) }
    ensures fault { IfErr result (λ e. Fails e (followed_at (known_of state.now) bytes.now front more.now)) }
    ensures front { IfOk result (λ o. IfSome o (λ f. f.front ≡ front)) }
{
    let metadata = read_metadata(lists, state, &bytes[8..front])?;
    if bytes.len() - front + more.len() < metadata.body {
        lists.give(metadata.header);
        return Ok(None);
    }
    Ok(Some(Found { front, metadata }))
}

/// Parses the first message of some bytes that hold its metadata and of `more` bytes that come after them. `None` where
/// the metadata isn't held, or the message isn't complete.
pub(crate) fn first_across(
    lists: &mut HeaderLists,
    state: &State,
    bytes: &[u8],
    more: &[u8],
) -> Result<Option<Found>, StreamFault>
    requires { IsRead (known_of state.now).schema }
    ensures found { IfOk result (λ o. IfSome o
        (λ f. first (known_of state.now) (bytes.now ++ more.now) ≡ Ok (Some (whole_seen f)))) }
    ensures fault { IfErr result (λ e. Fails e (first (known_of state.now) (bytes.now ++ more.now))) }
    ensures front { IfOk result (λ o. IfSome o (λ f. f.front ≤ length bytes.now)) }
{
    match metadata_held(bytes) {
        Some(size) => message_across(lists, state, bytes, more, 8 + size),
        None => Ok(None),
    }
}
