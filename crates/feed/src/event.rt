//! Events that a feed reports for a pushed piece.

use arrays::Column;
use schema_meta::StreamSchema;
use std::rc::Rc;

/// A complete message, as a feed reports it.
#[derive(Drop)]
pub enum FeedEvent {
    /// The schema of the stream.
    Schema(Rc<StreamSchema>),
    /// A dictionary batch, with the number of its values.
    Dictionary {
        id: i64,
        delta: bool,
        values: usize,
    },
    /// A record batch: its columns, the number of its rows, and the length of its body in bytes.
    Batch {
        columns: Vec<Column>,
        rows: usize,
        body: usize,
    },
    /// The end mark.
    End,
}

/// The result of a push.
#[derive(Drop)]
pub struct Fed {
    /// The number of bytes consumed of the piece: up to the end of the message, or all.
    pub used: usize,
    /// The message that the piece completes, if it does.
    pub event: Option<FeedEvent>,
}
