//! The messages of a stream as lines.

pub(crate) mod events;
mod lines;
mod types;
