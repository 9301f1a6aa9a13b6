//! Sources of bytes: they are read piece by piece, and the pieces are given to a feed until a message is whole.

pub(crate) mod next_message;
pub(crate) mod pieces;
