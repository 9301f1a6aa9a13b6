//! The prepared change of a framer, until it is committed or discarded.

use crate::counts::Count;
use schema_meta::StreamSchema;
use std::rc::Rc;

/// The change that `commit` makes.
#[derive(Drop)]
pub(crate) enum Pending {
    /// Nothing was prepared.
    Nothing,
    /// All of the piece is held. Fewer than `wanted` further bytes neither complete a message nor reveal a fault.
    Piece {
        wanted: usize,
    },
    /// A message was returned. It may have a schema or set the count of a dictionary's values; no bytes are held after
    /// it.
    Message {
        schema: Option<Rc<StreamSchema>>,
        count: Option<Count>,
    },
}
