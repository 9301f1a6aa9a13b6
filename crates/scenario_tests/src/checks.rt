//! Calls of a feed that isn't broken.

use feed::{Fed, Feed};
use std::process::Abort;
use values::StreamFault;

/// A push to a feed that isn't broken.
pub fn push(rt: &impl Abort, feed: &mut Feed, piece: &[u8]) -> Result<Fed, StreamFault> {
    assert!(rt; !feed.is_broken());
    feed.push(piece)
}

/// Ends the input of a feed that isn't broken.
pub fn finish(rt: &impl Abort, feed: &mut Feed) -> Result<(), StreamFault> {
    assert!(rt; !feed.is_broken());
    feed.finish()
}
