//! The parts of a session.

use crate::link::Link;
use crate::undo::UndoRecord;
use stream_writer::EncodedSchema;
use upkeep::LiveTablesParts;
use view_lang::FeedConfig;

/// The parts of a `Session`. The stores of its tables alone hold rows: what is stored for the views, and the undo
/// records, refer to rows of the main table by number.
#[derive(Drop)]
pub struct SessionParts {
    /// The names of the side tables.
    pub sides: Vec<String>,
    /// The declarations of the feeds.
    pub feeds: Vec<FeedConfig>,
    /// The schemas of the views.
    pub schemas: Vec<EncodedSchema>,
    /// The feeds, in the order of their declarations.
    pub links: Vec<Link>,
    pub tables: LiveTablesParts,
    /// The undo records of the latest edits, the newest first: at most `MAX_UNDO_DEPTH`.
    pub records: Vec<UndoRecord>,
}
