//! The header of a record batch: Message.fbs, `RecordBatch`, `FieldNode` and `Buffer`.

ghost use Rattle.std.specs.Prelude.{◌≡◌, ◌+◌, ◌*◌, ◌<◌, ◌≤◌, [], length};
ghost use Rattle.values.specs.Limits.{max_body_size};
ghost use Rattle.values.specs.Reading.{Answers, Yields};
ghost use Rattle.messages.specs.Columns.{AreRead, layouts_wanted};
ghost use Rattle.schema_meta.specs.Batch.{
  batch_of,
  node_of,
  nodes_in,
  range_of,
  ranges_in,
  plain,
  rows_of,
  nodes_of,
  ranges_of,
  structs_in,
  long_at,
};

use crate::columns::Columns;
use crate::fields::checked;
use crate::lists::HeaderLists;
use array_layout::{BufferRange, FieldNode};
use byteorder::{ByteOrder, LittleEndian};
use field_types::{read_long, readable};
use flatbuf::{BadTable, TableRef};
use schema_meta::BatchHeader;
use schema_meta::message_fbs::{BATCH_BUFFERS, BATCH_COMPRESSION, BATCH_LENGTH, BATCH_NODES};
use values::StreamFault;
use values::limits::{MAX_BATCH_LENGTH, MAX_NODE_LENGTH};

/// The number of 64 bits at offset `place`, read without a sign.
#[tactic(auto, unfolding(schema_meta::specs::Batch::long_at))]
fn long_at(bytes: &[u8], place: usize) -> u64
    requires { place + 8 ≤ length bytes.now }
    ensures { result ≡ long_at bytes.now place }
{
    LittleEndian::read_u64(&bytes[place..])
}

/// Reads node `index`. A negative length, or one above 2^31 - 1, is `BadLength`.
fn node_at(bytes: &[u8], index: usize) -> Result<FieldNode, StreamFault>
    requires { 16 * index + 16 ≤ length bytes.now }
    ensures { Yields (λ n. n) result (node_of bytes.now index) }
{
    let place = 16 * index;
    let length = long_at(bytes, place);
    if length > MAX_NODE_LENGTH as u64 {
        return Err(StreamFault::BadLength);
    }
    let nulls = long_at(bytes, place + 8).cast_signed();
    Ok(FieldNode {
        length: length as usize,
        nulls,
    })
}

/// Reads the range of buffer `index`. One that doesn't lie within the body is `BufferRange`.
fn range_at(bytes: &[u8], index: usize, body: usize) -> Result<BufferRange, StreamFault>
    requires in_bytes { 16 * index + 16 ≤ length bytes.now }
    requires in_range { body ≤ max_body_size }
    ensures { Yields (λ s. s) result (range_of body bytes.now index) }
{
    let place = 16 * index;
    let from = long_at(bytes, place);
    let len = long_at(bytes, place + 8);
    if from > body as u64 || len > body as u64 - from {
        return Err(StreamFault::BufferRange);
    }
    Ok(BufferRange {
        from: from as usize,
        len: len as usize,
    })
}

/// Reads `count` nodes into an empty list.
#[tactic(auto, using(values::proofs::Readings::gathering), unfolding(schema_meta::specs::Batch::nodes_in))]
fn nodes_in(
    mut nodes: Vec<FieldNode>,
    bytes: &[u8],
    count: usize,
) -> Result<Vec<FieldNode>, StreamFault>
    requires empty { nodes.items ≡ [] }
    requires counted { length bytes.now ≡ 16 * count }
    ensures { Answers (λ v. v.items) result (nodes_in count bytes.now) }
{
    nodes.reserve_exact(count)?;
    for i in 0..count {
        nodes.push(node_at(bytes, i)?)?;
    }
    Ok(nodes)
}

/// Reads the ranges of `count` buffers into an empty list.
#[tactic(auto, using(values::proofs::Readings::gathering), unfolding(schema_meta::specs::Batch::ranges_in))]
fn ranges_in(
    mut ranges: Vec<BufferRange>,
    bytes: &[u8],
    count: usize,
    body: usize,
) -> Result<Vec<BufferRange>, StreamFault>
    requires empty { ranges.items ≡ [] }
    requires counted { length bytes.now ≡ 16 * count }
    requires in_range { body ≤ max_body_size }
    ensures { Answers (λ v. v.items) result (ranges_in count body bytes.now) }
{
    ranges.reserve_exact(count)?;
    for i in 0..count {
        ranges.push(range_at(bytes, i, body)?)?;
    }
    Ok(ranges)
}

/// The bytes of a vector of `count` structs of 16 bytes; any other number of bytes is `fault`. An absent vector is an
/// empty one.
fn structs<'a>(
    table: &TableRef<'a>,
    slot: u16,
    count: usize,
    fault: StreamFault,
) -> Result<&'a [u8], StreamFault>
    ensures { Yields (λ s. s.now) result (structs_in fault count table.now slot) }
{
    let bytes: &[u8] = match table.structs(slot, 16) {
        Err(BadTable) => return Err(StreamFault::BadTable),
        Ok(None) => &[],
        Ok(Some(bytes)) => bytes,
    };
    if bytes.len() % 16 != 0 || bytes.len() / 16 != count {
        return Err(fault);
    }
    Ok(bytes)
}

/// The nodes of a batch of these columns with `rows` rows.
#[tactic(auto, using(crate::proofs::LongEnough::counted), unfolding(schema_meta::specs::Batch::nodes_of))]
fn nodes_of(
    lists: &mut HeaderLists,
    table: &TableRef,
    columns: Columns,
    rows: usize,
) -> Result<Vec<FieldNode>, StreamFault>
    requires { AreRead columns }
    ensures { Answers (λ v. v.items) result (nodes_of (layouts_wanted columns.entry) rows table.now) }
{
    let count = columns.nodes();
    let bytes = structs(table, BATCH_NODES, count, StreamFault::NodeCount)?;
    let nodes = nodes_in(lists.take_nodes(), bytes, count)?;
    if columns.fit(&nodes, rows) {
        Ok(nodes)
    } else {
        Err(StreamFault::BadLength)
    }
}

fn ranges_of(
    lists: &mut HeaderLists,
    table: &TableRef,
    count: usize,
    body: usize,
) -> Result<Vec<BufferRange>, StreamFault>
    requires { body ≤ max_body_size }
    ensures { Answers (λ v. v.items) result (ranges_of count body table.now) }
{
    let bytes = structs(table, BATCH_BUFFERS, count, StreamFault::BufferCount)?;
    ranges_in(lists.take_ranges(), bytes, count, body)
}

fn rows_of(table: &TableRef) -> Result<usize, StreamFault>
    ensures { Yields (λ n. n) result (rows_of table.now) }
{
    let length = read_long(table, BATCH_LENGTH)?;
    checked(StreamFault::BadLength, MAX_BATCH_LENGTH, length)
}

fn check_uncompressed(table: &TableRef) -> Result<(), StreamFault>
    ensures { Yields (λ u. u) result (plain table.now) }
{
    if readable(table.has(BATCH_COMPRESSION))? {
        return Err(StreamFault::Compressed);
    }
    Ok(())
}

/// Reads the table `RecordBatch` of a batch of these columns, in a message with a body of `body` bytes.
#[tactic(auto, using(values::proofs::Readings::failing), unfolding(schema_meta::specs::Batch::batch_of))]
pub(crate) fn read_batch_header(
    lists: &mut HeaderLists,
    table: &TableRef,
    columns: Columns,
    body: usize,
) -> Result<BatchHeader, StreamFault>
    requires in_range { body ≤ max_body_size }
    requires read { AreRead columns }
    ensures { Answers (λ b. b) result (batch_of (layouts_wanted columns.entry) body table.now) }
{
    check_uncompressed(table)?;
    let rows = rows_of(table)?;
    let nodes = nodes_of(lists, table, columns, rows)?;
    let ranges = ranges_of(lists, table, columns.ranges(), body)?;
    Ok(BatchHeader {
        rows,
        nodes,
        ranges,
    })
}
