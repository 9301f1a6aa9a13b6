//! The metadata of a message: Message.fbs, table `Message`.

ghost use Rattle.std.specs.Prelude.{◌≡◌, ◌≤◌, length, IfOk, Ok};
ghost use Rattle.std.specs.Option.{option_map};
ghost use Rattle.values.specs.Limits.{max_body_size};
ghost use Rattle.values.specs.Reading.{Answers, Yields};
ghost use Rattle.schema_meta.specs.Message.{
  body_of,
  dictionary_batch,
  expected,
  header_of,
  header_table,
  kind_of,
  meta_of,
  new_schema,
  record_batch,
  version_of,
};
ghost use Rattle.schema_meta.specs.Stage.{Known, Meta};
ghost use Rattle.messages.specs.State.{IsRead, known_of, meta_seen};

use crate::batch::read_batch_header;
use crate::columns::Columns;
use crate::declared::are_same;
use crate::dictionary::read_dictionary_header;
use crate::fields::checked;
use crate::lists::HeaderLists;
use crate::state::State;
use field_types::schema_fbs::{V4, V5};
use field_types::{read_byte, read_long, read_short, readable};
use flatbuf::{Buf, TableRef};
use schema_meta::message_fbs::{
    HEADER_DICTIONARY_BATCH, HEADER_RECORD_BATCH, HEADER_SCHEMA, MESSAGE_BODY_LENGTH,
    MESSAGE_HEADER, MESSAGE_HEADER_KIND, MESSAGE_VERSION,
};
use schema_meta::{BatchHeader, DictionaryHeader, Header, MessageKind, StreamSchema, read_schema};
use std::alloc::Global;
use std::rc::Rc;
use values::limits::MAX_BODY_SIZE;
use values::{Schema, StreamFault};

/// The metadata of a message, read and checked.
#[derive(Drop)]
pub(crate) struct Metadata {
    pub header: Header,
    /// The length of the body in bytes.
    pub body: usize,
    /// The schema in the message, if it is a Schema message.
    pub schema: Option<Rc<StreamSchema>>,
}

fn check_version(message: &TableRef) -> Result<(), StreamFault>
    ensures { Yields (λ u. u) result (version_of message.now) }
{
    match read_short(message, MESSAGE_VERSION, 0)? {
        V4 | V5 => Ok(()),
        _ => Err(StreamFault::Version),
    }
}

fn kind_of(message: &TableRef) -> Result<MessageKind, StreamFault>
    ensures { Yields (λ k. k) result (kind_of message.now) }
{
    match read_byte(message, MESSAGE_HEADER_KIND)? {
        HEADER_SCHEMA => Ok(MessageKind::Schema),
        HEADER_DICTIONARY_BATCH => Ok(MessageKind::Dictionary),
        HEADER_RECORD_BATCH => Ok(MessageKind::Batch),
        _ => Err(StreamFault::HeaderKind),
    }
}

fn header_table<'a>(message: &TableRef<'a>) -> Result<TableRef<'a>, StreamFault>
    ensures { Yields (λ t. t) result (header_table message.now) }
{
    match readable(message.table(MESSAGE_HEADER))? {
        None => Err(StreamFault::BadTable),
        Some(table) => Ok(table),
    }
}

fn body_of(message: &TableRef) -> Result<usize, StreamFault>
    ensures value { Yields (λ n. n) result (body_of message.now) }
    ensures small { IfOk result (λ n. n ≤ max_body_size) }
{
    let length = read_long(message, MESSAGE_BODY_LENGTH)?;
    checked(StreamFault::BodySize, MAX_BODY_SIZE, length)
}

/// Refuses a schema without the columns that were declared, where a schema was declared, as `SchemaMismatch`.
#[tactic(auto, unfolding(schema_meta::specs::SameColumns::is_declared))]
fn check_declared(
    alloc: Global,
    declared: &Option<Schema>,
    schema: &StreamSchema,
) -> Result<(), StreamFault>
    ensures { Answers (λ u. schema.now.fields.items) result
        (expected (option_map (λ d. d.fields.items) declared.now) schema.now.fields.items) }
{
    let Some(declared) = declared else {
        return Ok(());
    };
    let logical = schema.logical(alloc)?;
    if are_same(&declared.fields, &logical.fields) {
        Ok(())
    } else {
        Err(StreamFault::SchemaMismatch)
    }
}

/// Reads the schema of a Schema message; a second one is `SecondSchema`.
fn new_schema(alloc: Global, state: &State, header: &TableRef) -> Result<StreamSchema, StreamFault>
    ensures { Answers (λ s. s.fields.items) result (new_schema (known_of state.now) header.now) }
{
    if state.schema.is_some() {
        return Err(StreamFault::SecondSchema);
    }
    let schema = read_schema(alloc, header)?;
    check_declared(alloc, &state.declared, &schema)?;
    Ok(schema)
}

fn dictionary_batch(
    lists: &mut HeaderLists,
    state: &State,
    body: usize,
    message: &TableRef,
) -> Result<DictionaryHeader, StreamFault>
    requires { body ≤ max_body_size }
    ensures { Answers (λ d. d) result (dictionary_batch (known_of state.now) body message.now) }
{
    let Some(schema) = &state.schema else {
        return Err(StreamFault::NoSchema);
    };
    let header = header_table(message)?;
    read_dictionary_header(lists, &header, schema, &state.counts, body)
}

fn record_batch(
    lists: &mut HeaderLists,
    state: &State,
    body: usize,
    message: &TableRef,
) -> Result<BatchHeader, StreamFault>
    requires in_range { body ≤ max_body_size }
    requires small { IsRead (known_of state.now).schema }
    ensures { Answers (λ b. b) result (record_batch (known_of state.now) body message.now) }
{
    let Some(schema) = &state.schema else {
        return Err(StreamFault::NoSchema);
    };
    let header = header_table(message)?;
    read_batch_header(lists, &header, Columns::Fields(schema), body)
}

#[tactic(auto, using(values::proofs::Readings::failing), unfolding(schema_meta::specs::Message::header_of))]
fn read_header(
    lists: &mut HeaderLists,
    state: &State,
    message: &TableRef,
    kind: MessageKind,
    body: usize,
) -> Result<Metadata, StreamFault>
    requires in_range { body ≤ max_body_size }
    requires small { IsRead (known_of state.now).schema }
    ensures { Answers meta_seen result (header_of (known_of state.now) message.now kind body) }
{
    match kind {
        MessageKind::Schema => {
            let header = header_table(message)?;
            let schema = new_schema(lists.alloc, state, &header)?;
            Ok(Metadata {
                header: Header::Schema,
                body,
                schema: Some(Rc::new(lists.alloc, schema)?),
            })
        }
        MessageKind::Dictionary => Ok(Metadata {
            header: Header::Dictionary(dictionary_batch(lists, state, body, message)?),
            body,
            schema: None,
        }),
        MessageKind::Batch => Ok(Metadata {
            header: Header::Batch(record_batch(lists, state, body, message)?),
            body,
            schema: None,
        }),
    }
}

/// The length of the body, by metadata that has no fault.
pub(crate) fn body_length(bytes: &[u8]) -> usize
    ensures { (known : Known) (m : Meta) → meta_of known bytes.now ≡ Ok m → result ≡ m.body }
{
    let Ok(message) = readable(Buf::root(bytes)) else {
        return 0;
    };
    match body_of(&message) {
        Ok(length) => length,
        Err(_) => 0,
    }
}

/// Reads the metadata of the message that comes after those that led to `state`.
#[tactic(auto, using(values::proofs::Readings::failing), unfolding(schema_meta::specs::Message::meta_of))]
pub(crate) fn read_metadata(
    lists: &mut HeaderLists,
    state: &State,
    bytes: &[u8],
) -> Result<Metadata, StreamFault>
    requires { IsRead (known_of state.now).schema }
    ensures { Answers meta_seen result (meta_of (known_of state.now) bytes.now) }
{
    let message = readable(Buf::root(bytes))?;
    let kind = kind_of(&message)?;
    check_version(&message)?;
    let body = body_of(&message)?;
    let metadata = read_header(lists, state, &message, kind, body)?;
    Ok(metadata)
}
