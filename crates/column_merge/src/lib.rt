//! Rewrites rows that lie in several batches of checked columns as the checked columns of one batch, so that the
//! batches can be released.
//!
//! The rows are written as the body of a batch (`body_writer`), the buffers of its arrays are found in it
//! (`src/place.rt`), and each array is checked as a column of a message is. That just the written rows are read is the
//! law in `specs/Merged.antt`.
#![tactic(auto)]

mod laws;
mod merge;
mod place;
#[cfg(test)]
mod tests;

pub use laws::written_law;
pub use merge::merge_rows;
