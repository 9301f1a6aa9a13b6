//! Validates a piece: completes at most one message and prepares its effect on the feed.

ghost use Rattle.std.specs.Prelude.{◌≡◌, ◌<◌, IfOk, IfSome, OnErr, length};
ghost use Rattle.values.specs.Reading.{Answers};
ghost use Rattle.dictionaries.specs.Table.{values_in};
ghost use Rattle.feed.specs.Events.{reading};
ghost use Rattle.feed.specs.Shown.{HasRoomFor, HasValues, change_coming, validated_seen};
ghost use Rattle.feed.specs.Calls.{AtEach, GoesTo, HasNext, IsFollowed, IsTypedComing};

use crate::message::{Coming, take_message};
use dictionaries::{Dicts, batches_law};
use messages::{Framed, Framer, first_message_law};
use schema_meta::place_law;
use std::alloc::Global;
use values::StreamFault;

/// A validated piece: how many bytes are used, and the effect of the message that it completes, if it does.
#[derive(Drop)]
pub(crate) struct Validated {
    pub used: usize,
    pub coming: Option<Coming>,
}

/// Validates a piece of an open feed. It leaves the framer's change prepared, and changes no dictionary.
pub(crate) fn validate(
    alloc: Global,
    framer: &mut Framer,
    dicts: &mut Dicts,
    piece: &[u8],
) -> Result<Validated, StreamFault>
    requires { HasValues framer.old.current.known.schema (values_in dicts.old) }
    ensures answer { AtEach framer.old.current dicts.old
        (λ k. Answers validated_seen result (reading k piece.now)) }
    ensures lack { OnErr result (0 < length piece.now) }
    ensures some { IfOk result (λ j. IfSome j.coming (λ c. 0 < length piece.now)) }
    ensures same { framer.new.current ≡ framer.old.current }
    ensures entries { dicts.new.entries ≡ dicts.old.entries }
    ensures leads { IfOk result
        (GoesTo framer.old.current dicts.old piece.now framer.new.prepared dicts.new) }
    ensures has { IfOk result (HasNext framer.new.prepared.known.schema dicts.new) }
    ensures has_none { OnErr result
        (HasValues framer.new.prepared.known.schema (values_in dicts.new)) }
    ensures room { IfOk result (λ j. HasRoomFor dicts.new (change_coming j.coming)) }
    ensures next { IfOk result (λ j. IfSome j.coming IsFollowed) }
    ensures typed { IfOk result (IsTypedComing framer.new.prepared.known.schema) }
{
    // They do nothing: the proof takes from them what a message is, and what is retained of some bytes.
    first_message_law();
    batches_law();
    place_law();
    let Framed { used, message } = framer.prepare(piece)?;
    let Some(message) = message else {
        return Ok(Validated { used, coming: None });
    };
    let coming = take_message(alloc, framer, dicts, message)?;
    Ok(Validated {
        used,
        coming: Some(coming),
    })
}
