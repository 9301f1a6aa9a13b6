//! Collects the bytes of a message from pieces.

ghost use Rattle.std.specs.Prelude.{
  ◌≡◌,
  ◌+◌,
  ◌≤◌,
  ◌++◌,
  Ok,
  None,
  Some,
  [],
  length,
  take,
  IfOk,
  IfErr,
  IsOk,
  IsOkAnd,
  OnOk,
  OnErr,
};
ghost use Rattle.values.specs.Reading.{Answers, Fails};
ghost use Rattle.schema_meta.specs.Framing.{first};
ghost use Rattle.messages.specs.Gather.{Gathers, IsWaiting, Steps, first_with};
ghost use Rattle.messages.specs.State.{IsRead, known_of, progress_seen, whole_seen};
ghost use Rattle.messages.specs.Wanted.{Awaits, Wants, followed};

use crate::framing::{Found, Progress, first, first_across};
use crate::lists::HeaderLists;
use crate::state::State;
use std::alloc::Global;
use values::StreamFault;

/// Appends bytes to the held ones, and parses the first message of all. Where fewer bytes come than `wanted`, nothing
/// is parsed.
#[tactic(auto, using(crate::proofs::WantedLemmas::growing))]
fn grow(
    lists: &mut HeaderLists,
    state: &State,
    held: &mut Vec<u8>,
    bytes: &[u8],
    wanted: usize,
) -> Result<Progress, StreamFault>
    requires small { IsRead (known_of state.now).schema }
    requires wants { Wants (followed (known_of state.now) held.old.items) wanted }
    ensures found { Answers progress_seen result (first_with state.now held.old.items bytes.now) }
    ensures wanted { IfOk result (λ p. Awaits (followed (known_of state.now) held.new.items) p) }
    ensures grown { OnOk result (held.new.items ≡ held.old.items ++ bytes.now) }
    ensures kept { OnErr result (take (length held.old.items) held.new.items ≡ held.old.items) }
{
    held.extend_from_slice(bytes)?;
    if bytes.len() < wanted {
        return Ok(Progress::Partial {
            wanted: wanted - bytes.len(),
        });
    }
    first(lists, state, held)
}

/// Appends the piece to the held bytes, up to the end of the first message or all of it. No more is copied than the
/// message is known to need; `wanted` is what it was known to need before.
#[tactic(auto, using(crate::proofs::GatherLemmas::gathers))]
fn gather(
    lists: &mut HeaderLists,
    state: &State,
    held: &mut Vec<u8>,
    piece: &[u8],
    mut wanted: usize,
) -> Result<Progress, StreamFault>
    requires small { IsRead (known_of state.now).schema }
    requires partial { first (known_of state.now) held.old.items ≡ Ok None }
    requires wants { Wants (followed (known_of state.now) held.old.items) wanted }
    ensures found { Answers progress_seen result (first_with state.now held.old.items piece.now) }
    ensures wanted { IfOk result (λ p. Awaits (followed (known_of state.now) held.new.items) p) }
    ensures grown { IfOk result
        (λ p. Gathers (progress_seen p) (held.old.items ++ piece.now) held.new.items) }
    ensures unchanged { OnErr result (held.new.items ≡ held.old.items) }
    ensures empty { piece.now ≡ [] → IsOk result }
{
    let before = held.len();
    let mut used = 0;
    while used < piece.len() {
        let step = wanted.min(piece.len() - used);
        match grow(lists, state, held, &piece[used..used + step], wanted) {
            Err(fault) => {
                held.truncate(before);
                return Err(fault);
            }
            Ok(Progress::Whole(found)) => return Ok(Progress::Whole(found)),
            Ok(Progress::Partial { wanted: more }) => {
                used += step;
                wanted = more;
            }
        }
    }
    Ok(Progress::Partial { wanted })
}

/// The result of appending a piece.
#[derive(Drop)]
pub(crate) enum Step {
    /// All of the piece is held, and no message is complete. Fewer than `wanted` further bytes don't change that.
    Partial {
        wanted: usize,
    },
    /// The first `used` bytes of the piece complete a message with this body.
    Whole {
        used: usize,
        found: Found,
        body: Vec<u8>,
    },
}

/// Reads the message with which a piece begins, where no bytes are held: its body is copied out of the piece.
fn take_whole(alloc: Global, state: &State, found: Found, piece: &[u8]) -> Result<Step, StreamFault>
    requires found { first (known_of state.now) piece.now ≡ Ok (Some (whole_seen found)) }
    requires within { found.front + found.metadata.body ≤ length piece.now }
    ensures ok { IfOk result (λ s. Steps (known_of state.now) [] piece.now s []) }
    ensures fault { IfErr result (λ e. Fails e (first (known_of state.now) piece.now)) }
{
    let end = found.front + found.metadata.body;
    let body = Vec::from_slice(alloc, &piece[found.front..end])?;
    Ok(Step::Whole {
        used: end,
        found,
        body,
    })
}

/// Reads the message that the piece completes, whose metadata is held: its body is copied out of both.
#[tactic(auto, using(crate::proofs::AcrossLemmas::taking))]
fn take_across(
    alloc: Global,
    state: &State,
    held: &[u8],
    found: Found,
    piece: &[u8],
) -> Result<Step, StreamFault>
    requires partial { first (known_of state.now) held.now ≡ Ok None }
    requires found { first (known_of state.now) (held.now ++ piece.now) ≡ Ok (Some (whole_seen found)) }
    requires front { found.front ≤ length held.now }
    ensures ok { IfOk result (λ s. Steps (known_of state.now) held.now piece.now s held.now) }
    ensures fault { IfErr result (λ e. Fails e (first (known_of state.now) (held.now ++ piece.now))) }
{
    let used = found.front + found.metadata.body - held.len();
    let mut body = Vec::with_capacity(alloc, found.metadata.body)?;
    body.extend_from_slice(&held[found.front..held.len()])?;
    body.extend_from_slice(&piece[..used])?;
    Ok(Step::Whole { used, found, body })
}

/// Looks for a message in the held bytes and the piece, which is copied after them.
fn advance_held(
    lists: &mut HeaderLists,
    state: &State,
    held: &mut Vec<u8>,
    piece: &[u8],
    wanted: usize,
) -> Result<Step, StreamFault>
    requires small { IsRead (known_of state.now).schema }
    requires partial { first (known_of state.now) held.old.items ≡ Ok None }
    requires wants { Wants (followed (known_of state.now) held.old.items) wanted }
    ensures ok { IfOk result (λ s. Steps (known_of state.now) held.old.items piece.now s held.new.items) }
    ensures fault { IfErr result (λ e. Fails e (first_with state.now held.old.items piece.now)) }
    ensures unchanged { OnErr result (held.new.items ≡ held.old.items) }
    ensures empty { piece.now ≡ [] → IsOkAnd result IsWaiting }
{
    let had = held.len();
    match gather(lists, state, held, piece, wanted)? {
        Progress::Partial { wanted } => Ok(Step::Partial { wanted }),
        Progress::Whole(found) => {
            let end = found.front + found.metadata.body;
            let copied = Vec::from_slice(lists.alloc, &held[found.front..end]);
            held.truncate(had);
            let body = copied?;
            Ok(Step::Whole {
                used: end - had,
                found,
                body,
            })
        }
    }
}

/// Looks for a message in the held bytes and the piece. Afterwards all of the piece is held, or nothing if it completed
/// a message. A message that the piece contains whole, where no bytes are held, is read from the piece; and where its
/// metadata is held and the piece completes it, so is the rest of its body.
#[tactic(auto, using(crate::proofs::Messages::first_within))]
pub(crate) fn advance(
    lists: &mut HeaderLists,
    state: &State,
    held: &mut Vec<u8>,
    piece: &[u8],
    wanted: usize,
) -> Result<Step, StreamFault>
    requires small { IsRead (known_of state.now).schema }
    requires partial { first (known_of state.now) held.old.items ≡ Ok None }
    requires wants { Wants (followed (known_of state.now) held.old.items) wanted }
    ensures ok { IfOk result (λ s. Steps (known_of state.now) held.old.items piece.now s held.new.items) }
    ensures fault { IfErr result (λ e. Fails e (first_with state.now held.old.items piece.now)) }
    ensures unchanged { OnErr result (held.new.items ≡ held.old.items) }
    ensures empty { piece.now ≡ [] → IsOkAnd result IsWaiting }
{
    if held.is_empty() && !piece.is_empty() {
        if let Progress::Whole(found) = first(lists, state, piece)? {
            return take_whole(lists.alloc, state, found, piece);
        }
    }
    if piece.len() >= wanted {
        if let Some(found) = first_across(lists, state, held, piece)? {
            return take_across(lists.alloc, state, held, found, piece);
        }
    }
    advance_held(lists, state, held, piece, wanted)
}
