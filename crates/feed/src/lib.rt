//! One stream, from pieces to events: messages are framed, their bodies are checked, and dictionaries are stored.
//!
//! A feed is a function of the bytes that it consumed. `specs/Retained.antt` says what is retained of them,
//! `specs/Events.antt` what a piece gives then, `specs/States.antt` what each call may answer and to which state it
//! leads, and `specs/Shown.antt` which states a feed in memory represents. `specs/Transcript.antt` is what a whole
//! stream gives, event by event, however it is cut (`specs/Pieces.antt`).
#![tactic(auto)]

mod cells;
mod columns;
mod condition;
mod event;
mod feed;
mod laws;
mod message;
mod validate;

pub use condition::Condition;
pub use event::{Fed, FeedEvent};
pub use feed::Feed;
pub use laws::{cut_law, pieces_law, retained_law, story_law};
