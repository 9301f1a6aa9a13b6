//! Encodes the messages of a stream.

ghost use Rattle.std.specs.Prelude.{◌≡◌, ◌+◌, ◌*◌, ◌^◌, ◌<◌, ◌≤◌, ◌++◌, [], IfOk, OnOk, length};
ghost use Rattle.std.specs.Int.{w64};
ghost use Rattle.byteorder.specs.Endian.{little_bytes, low_bytes};
ghost use Rattle.flatbuf.specs.Built.{slots};
ghost use Rattle.schema_meta.specs.SchemaTree.{AreColumns};
ghost use Rattle.values.specs.Limits.{max_body_size, max_fields, max_metadata_size};
ghost use Rattle.stream_writer.specs.Batch.{batch_slots, batch_whole, node_bytes as nodes_as, range_bytes as ranges_as};
ghost use Rattle.stream_writer.specs.DictionaryBatch.{dictionary_slots, dictionary_whole};
ghost use Rattle.stream_writer.specs.Stream as stream;

use crate::encoded::Encoded;
use array_layout::{BufferRange, FieldNode};
use body_writer::Body;
use byteorder::{ByteOrder, LittleEndian};
use flatbuf::Builder;
use schema_meta::{MessageKind, write_message, write_schema};
use std::alloc::{AllocError, Global};
use values::Schema;

/// Appends a message with this metadata, up to its body: the continuation mark, the metadata's size, and the metadata.
fn append_head(metadata: &[u8], bytes: &mut Vec<u8>) -> Result<(), AllocError>
    requires { length metadata.now < 2 ^ 32 }
    ensures { OnOk result (bytes.new.items ≡ bytes.old.items ++ stream.message metadata.now []) }
{
    let mut prefix = [255u8; 8];
    LittleEndian::write_u32(&mut prefix[4..], metadata.len() as u32);
    bytes.extend_from_slice(&prefix)?;
    bytes.extend_from_slice(metadata)
}

/// Appends a message with this metadata and this body.
#[tactic(auto, using(crate::proofs::HeadAndBody::behind))]
fn append_message(metadata: &[u8], body: &[u8], bytes: &mut Vec<u8>) -> Result<(), AllocError>
    requires { length metadata.now < 2 ^ 32 }
    ensures { OnOk result (bytes.new.items ≡ bytes.old.items ++ stream.message metadata.now body.now) }
{
    append_head(metadata, bytes)?;
    bytes.extend_from_slice(body)
}

/// The Schema message of a table, with dictionaries for the columns at some positions.
#[tactic(auto, unfolding(crate::specs::Stream::schema_message))]
pub fn schema_message(
    alloc: Global,
    schema: &Schema,
    coded: &[usize],
) -> Result<Vec<u8>, AllocError>
    requires { AreColumns schema.now.fields.items }
    ensures bytes { IfOk result (λ bytes. bytes.items ≡ stream.schema_message coded.now schema.now.fields.items) }
    ensures size { IfOk result (λ bytes. length bytes.items ≤ 2 ^ 39) }
{
    let metadata = write_schema(alloc, schema, coded)?;
    let mut bytes = Vec::new(alloc);
    append_head(&metadata, &mut bytes)?;
    Ok(bytes)
}

fn node_bytes(alloc: Global, nodes: &[FieldNode]) -> Result<Vec<u8>, AllocError>
    requires { length nodes.now ≤ 2 ^ 16 }
    ensures { IfOk result (λ bytes. bytes.items ≡ nodes_as nodes.now) }
{
    let mut bytes = Vec::with_capacity(alloc, 16 * nodes.len())?;
    for node in nodes {
        bytes.extend_from_slice(&node_pair(node))?;
    }
    Ok(bytes)
}

fn range_bytes(alloc: Global, ranges: &[BufferRange]) -> Result<Vec<u8>, AllocError>
    requires { length ranges.now ≤ 2 ^ 16 }
    ensures { IfOk result (λ bytes. bytes.items ≡ ranges_as ranges.now) }
{
    let mut bytes = Vec::with_capacity(alloc, 16 * ranges.len())?;
    for range in ranges {
        bytes.extend_from_slice(&range_pair(range))?;
    }
    Ok(bytes)
}

/// A `FieldNode` as the struct of Message.fbs: two numbers of 64 bits.
fn node_pair(node: &FieldNode) -> [u8; 16]
    ensures { result ≡ little_bytes 8 node.now.length ++ little_bytes 8 (low_bytes w64 8 node.now.nulls) }
{
    let mut bytes = [0u8; 16];
    LittleEndian::write_u64(&mut bytes, node.length as u64);
    LittleEndian::write_int(&mut bytes[8..], node.nulls, 8);
    bytes
}

/// A `Buffer` as the struct of Message.fbs: two numbers of 64 bits.
fn range_pair(range: &BufferRange) -> [u8; 16]
    ensures { result ≡ little_bytes 8 range.now.from ++ little_bytes 8 range.now.len }
{
    let mut bytes = [0u8; 16];
    LittleEndian::write_u64(&mut bytes, range.from as u64);
    LittleEndian::write_u64(&mut bytes[8..], range.len as u64);
    bytes
}

/// The RecordBatch message of `rows` rows with this body, after the messages in `head`.
pub(crate) fn record_message(
    alloc: Global,
    rows: usize,
    body: Body,
    head: Vec<u8>,
) -> Result<Encoded, AllocError>
    requires nodes { length body.nodes.items ≤ max_fields }
    requires ranges { length body.ranges.items ≤ 3 * max_fields }
    requires size { length body.bytes.items ≤ max_body_size }
    ensures bytes { IfOk result (λ e. e ≡ head.items ++ stream.batch_with rows body) }
    ensures size { IfOk result (λ e. length e ≤ length head.items + 2 ^ 29) }
{
    let mut head = head;
    let metadata = batch_metadata(alloc, rows as u64, &body)?;
    append_head(&metadata, &mut head)?;
    let Body { bytes, .. } = body;
    let message = Encoded::new(alloc, head, bytes)?;
    Ok(message)
}

/// Appends the DictionaryBatch message of this id, of `count` values with this body.
pub(crate) fn append_dictionary(
    alloc: Global,
    id: usize,
    count: usize,
    body: &Body,
    bytes: &mut Vec<u8>,
) -> Result<(), AllocError>
    requires nodes { length body.now.nodes.items ≤ max_fields }
    requires ranges { length body.now.ranges.items ≤ 3 * max_fields }
    requires size { length body.now.bytes.items ≤ max_body_size }
    ensures bytes { OnOk result (bytes.new.items ≡ bytes.old.items ++ stream.dictionary_with id count body.now) }
    ensures size { OnOk result (length bytes.new.items ≤ length bytes.old.items + 2 ^ 29) }
{
    let metadata = dictionary_metadata(alloc, id as u64, count as u64, body)?;
    append_message(&metadata, &body.bytes, bytes)
}

fn dictionary_header(alloc: Global, id: u64, count: u64, body: &Body) -> Result<Builder, AllocError>
    requires nodes { length body.now.nodes.items ≤ max_fields }
    requires ranges { length body.now.ranges.items ≤ 3 * max_fields }
    ensures { IfOk result (λ header. slots header ≡ dictionary_slots id
        (batch_slots count body.now.nodes.items body.now.ranges.items)) }
{
    let mut header = Builder::new(alloc);
    header.u64(id)?;
    header.table(batch_header(alloc, count, body)?)?;
    header.u8(0)?;
    Ok(header)
}

fn dictionary_metadata(
    alloc: Global,
    id: u64,
    count: u64,
    body: &Body,
) -> Result<Vec<u8>, AllocError>
    requires nodes { length body.now.nodes.items ≤ max_fields }
    requires ranges { length body.now.ranges.items ≤ 3 * max_fields }
    ensures bytes { IfOk result
        (λ bytes. bytes.items ≡ dictionary_whole id count body.now.nodes.items body.now.ranges.items
        (length body.now.bytes.items)) }
    ensures size { IfOk result (λ bytes. length bytes.items < max_metadata_size) }
{
    let header = dictionary_header(alloc, id, count, body)?;
    let bytes = write_message(
        alloc,
        MessageKind::Dictionary,
        header,
        body.bytes.len() as u64,
    )?;
    Ok(bytes)
}

fn batch_header(alloc: Global, rows: u64, body: &Body) -> Result<Builder, AllocError>
    requires nodes { length body.now.nodes.items ≤ max_fields }
    requires ranges { length body.now.ranges.items ≤ 3 * max_fields }
    ensures { IfOk result (λ header. slots header ≡ batch_slots rows body.now.nodes.items body.now.ranges.items) }
{
    let mut header = Builder::new(alloc);
    header.u64(rows)?;
    header.structs(16, node_bytes(alloc, &body.nodes)?)?;
    header.structs(16, range_bytes(alloc, &body.ranges)?)?;
    Ok(header)
}

fn batch_metadata(alloc: Global, rows: u64, body: &Body) -> Result<Vec<u8>, AllocError>
    requires nodes { length body.now.nodes.items ≤ max_fields }
    requires ranges { length body.now.ranges.items ≤ 3 * max_fields }
    ensures bytes { IfOk result
        (λ bytes. bytes.items ≡ batch_whole rows body.now.nodes.items body.now.ranges.items
        (length body.now.bytes.items)) }
    ensures size { IfOk result (λ bytes. length bytes.items < max_metadata_size) }
{
    let header = batch_header(alloc, rows, body)?;
    let bytes = write_message(alloc, MessageKind::Batch, header, body.bytes.len() as u64)?;
    Ok(bytes)
}
