//! The headers of messages: Message.fbs, union `MessageHeader`, tables `DictionaryBatch` and `RecordBatch`.

use array_layout::{BufferRange, FieldNode};
use std::marker::Model;

/// The kind of a message's header: Message.fbs, union `MessageHeader`. Its other kinds are not supported.
#[derive(Clone, Copy, Debug, PartialEq, Eq)]
pub enum MessageKind {
    Schema,
    Dictionary,
    Batch,
}

/// The header of a record batch: its number of rows, and the nodes and buffers of its arrays, in preorder.
#[derive(Debug, Drop)]
pub struct BatchHeader {
    pub rows: usize,
    pub nodes: Vec<FieldNode>,
    pub ranges: Vec<BufferRange>,
}

impl Model for BatchHeader {
    ghost use Rattle.schema_meta.specs.BatchHead.{BatchHead};

    ghost Value = { BatchHead };

    ghost view = { λ b. record { rows = b.rows; nodes = b.nodes.items; ranges = b.ranges.items } };
}

/// The header of a dictionary batch.
#[derive(Debug, Drop)]
pub struct DictionaryHeader {
    pub id: i64,
    /// Whether its values are added after those that the dictionary has, and don't replace them.
    pub is_delta: bool,
    /// The header of the record batch of one column that holds the values.
    pub batch: BatchHeader,
}

/// The header of a message, or the end mark.
#[derive(Debug, Drop)]
pub enum Header {
    /// The schema of the stream.
    Schema,
    /// A dictionary batch.
    Dictionary(DictionaryHeader),
    /// A record batch.
    Batch(BatchHeader),
    /// The end mark.
    End,
}
