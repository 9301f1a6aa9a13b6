//! The feeds of a session.

use feed::Feed;
use view_lang::Role;

/// A feed of a session, and what its batches do to a table.
#[derive(Drop)]
pub struct Link {
    pub role: Role,
    pub feed: Feed,
}
