//! Applies a complete message to a feed: its dictionary change and its event.

ghost use Rattle.std.specs.Prelude.{◌≡◌, IfOk, None, OnOk, Some, length};
ghost use Rattle.values.specs.Reading.{Answers};
ghost use Rattle.dictionaries.specs.Batches.{batch as values_batch};
ghost use Rattle.dictionaries.specs.Table.{HasRoom, change_of, values_in};
ghost use Rattle.schema_meta.specs.FieldLayouts.{slot_layouts_of};
ghost use Rattle.schema_meta.specs.Rows.{values_of};
ghost use Rattle.schema_meta.specs.Sound.{Fits, FitsValues, IsFitting};
ghost use Rattle.feed.specs.Retained.{brought_by, taken};
ghost use Rattle.feed.specs.Events.{batch_event, dictionary_event, event_in};
ghost use Rattle.feed.specs.Shown.{HasRoomFor, HasValues, IsTypedEvent, event_seen, values_next};
ghost use Rattle.feed.specs.Calls.{Adds, IsFollowed, coming_seen, message_brings, message_event};

use crate::cells::take_values;
use crate::columns::take_columns;
use crate::condition::Condition;
use crate::event::FeedEvent;
use dictionaries::{Dicts, Ready, ValueRuns, batches_law};
use messages::{Framer, Message};
use schema_meta::{BatchHeader, DictionaryHeader, Header, StreamSchema};
use std::alloc::{AllocError, Global};
use std::rc::Rc;
use values::StreamFault;

/// The effect of a message: its event, its change of a dictionary, and the condition after it.
#[derive(Drop)]
pub(crate) struct Coming {
    pub event: FeedEvent,
    pub change: Option<Ready>,
    pub next: Condition,
}

/// Prepares the dictionary change of a batch with these values.
fn prepare_change(
    dicts: &mut Dicts,
    header: &DictionaryHeader,
    values: ValueRuns,
) -> Result<Ready, AllocError>
    ensures same { dicts.new.entries ≡ dicts.old.entries }
    ensures change { IfOk result
        (λ r. r ≡ change_of dicts.old (values_batch header.now.id header.now.is_delta values)) }
    ensures room { OnOk result (HasRoom dicts.new) }
{
    dicts.prepare(header.id, header.is_delta, values)
}

/// Reads a dictionary batch and prepares its change.
fn take_dictionary(
    alloc: Global,
    schema: &StreamSchema,
    header: &DictionaryHeader,
    body: Vec<u8>,
    dicts: &mut Dicts,
) -> Result<Coming, StreamFault>
    requires fits { FitsValues schema.now.fields.items (length body.items) header.now }
    requires has { HasValues (Some schema.now.fields.items) (values_in dicts.old) }
    ensures seen { Answers coming_seen result
        (dictionary_event schema.now.fields.items header.now body.items) }
    ensures same { dicts.new.entries ≡ dicts.old.entries }
    ensures change { IfOk result (λ c. Adds dicts.old dicts.new c.change
        (taken header.now (values_of schema.now.fields.items header.now body.items))) }
    ensures has { IfOk result
        (λ c. HasValues (Some schema.now.fields.items) (values_next dicts.new c.change)) }
    ensures room { IfOk result (λ c. HasRoomFor dicts.new c.change) }
    ensures next { IfOk result IsFollowed }
    ensures typed { IfOk result (λ c. IsTypedEvent (Some schema.now.fields.items) c.event) }
{
    // It does nothing: the proof takes from it the values of an id after a batch.
    batches_law();
    let values = take_values(alloc, schema, header, body)?;
    let count = values.len();
    let ready = prepare_change(dicts, header, values)?;
    Ok(Coming {
        event: FeedEvent::Dictionary {
            id: header.id,
            delta: header.is_delta,
            values: count,
        },
        change: Some(ready),
        next: Condition::Opened,
    })
}

/// Reads a record batch. Before that its rows are counted as slots of each dictionary, but no more of them than its
/// body has bytes.
fn take_batch(
    alloc: Global,
    schema: &StreamSchema,
    header: &BatchHeader,
    body: Vec<u8>,
    dicts: &mut Dicts,
) -> Result<FeedEvent, StreamFault>
    requires fits { Fits (slot_layouts_of schema.now.fields.items) (length body.items) header.now }
    requires has { HasValues (Some schema.now.fields.items) (values_in dicts.old) }
    ensures seen { Answers event_seen result
        (batch_event (values_in dicts.old) schema.now.fields.items header.now body.items) }
    ensures same { dicts.new.entries ≡ dicts.old.entries }
    ensures typed { IfOk result (IsTypedEvent (Some schema.now.fields.items)) }
{
    let rows = header.rows;
    let len = body.len();
    dicts.count_slots(rows.min(len));
    let columns = take_columns(alloc, schema, header, body, dicts)?;
    Ok(FeedEvent::Batch {
        columns,
        rows,
        body: len,
    })
}

/// The effect of a message that changes no dictionary.
fn nothing_prepared(event: FeedEvent, next: Condition) -> Coming
    ensures { result ≡ record { event = event; change = None; next = next } }
{
    Coming {
        event,
        change: None,
        next,
    }
}

/// Reads the header and the body of a message, and prepares its effect.
fn take_parts(
    alloc: Global,
    dicts: &mut Dicts,
    schema: Rc<StreamSchema>,
    header: &Header,
    body: Vec<u8>,
) -> Result<Coming, StreamFault>
    requires fits { IsFitting (Some schema.value.fields.items) header.now (length body.items) }
    requires has { HasValues (Some schema.value.fields.items) (values_in dicts.old) }
    ensures seen { Answers coming_seen result
        (event_in schema.value.fields.items (values_in dicts.old) body.items header.now) }
    ensures same { dicts.new.entries ≡ dicts.old.entries }
    ensures change { IfOk result (λ c. Adds dicts.old dicts.new c.change
        (brought_by schema.value.fields.items body.items header.now)) }
    ensures has { IfOk result
        (λ c. HasValues (Some schema.value.fields.items) (values_next dicts.new c.change)) }
    ensures room { IfOk result (λ c. HasRoomFor dicts.new c.change) }
    ensures next { IfOk result IsFollowed }
    ensures typed { IfOk result (λ c. IsTypedEvent (Some schema.value.fields.items) c.event) }
{
    match header {
        Header::Schema => Ok(nothing_prepared(FeedEvent::Schema(schema), Condition::Opened)),
        Header::Dictionary(header) => take_dictionary(alloc, &schema, header, body, dicts),
        Header::Batch(header) => Ok(nothing_prepared(
            take_batch(alloc, &schema, header, body, dicts)?,
            Condition::Opened,
        )),
        Header::End => Ok(nothing_prepared(FeedEvent::End, Condition::Ended)),
    }
}

/// Reads a complete message and prepares its effect. Its header is returned to the framer for reuse.
pub(crate) fn take_message(
    alloc: Global,
    framer: &mut Framer,
    dicts: &mut Dicts,
    message: Message,
) -> Result<Coming, StreamFault>
    requires fits { IsFitting (Some message.schema) message.header (length message.body) }
    requires has { HasValues (Some message.schema) (values_in dicts.old) }
    ensures seen { Answers coming_seen result (message_event message (values_in dicts.old)) }
    ensures framing { framer.new ≡ framer.old }
    ensures same { dicts.new.entries ≡ dicts.old.entries }
    ensures change { IfOk result (λ c. Adds dicts.old dicts.new c.change (message_brings message)) }
    ensures has { IfOk result
        (λ c. HasValues (Some message.schema) (values_next dicts.new c.change)) }
    ensures room { IfOk result (λ c. HasRoomFor dicts.new c.change) }
    ensures next { IfOk result IsFollowed }
    ensures typed { IfOk result (λ c. IsTypedEvent (Some message.schema) c.event) }
{
    let Message {
        schema,
        header,
        body,
    } = message;
    let coming = take_parts(alloc, dicts, schema, &header, body);
    framer.take_back(header);
    coming
}
