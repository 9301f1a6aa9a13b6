//! A session: feeds that change tables, edits that can be undone, and views that are written.
//!
//! A session is a state machine. `specs/Steps.antt` says what each call may answer and to which state it leads, from
//! the edits that are accepted and not undone and from the bytes that each feed consumed, none of which it stores.
//! `specs/Shows.antt` says which states a session in memory represents; each call is a step from any of them, and
//! `Session::run` a run. `specs/Parts.antt` says of which parts a session consists.
#![tactic(auto)]

mod calls;
mod cuts;
mod edit;
mod finish;
mod laws;
mod link;
mod names;
mod parts;
mod push;
mod records;
mod releases;
mod session;
mod undo;
mod view;

pub use calls::{Event, Fault, Pushed, Reply, Step, ViewFault};
pub use cuts::cut_law;
pub use laws::{reading_law, refusal_law, sample_law};
pub use link::Link;
pub use parts::SessionParts;
pub use releases::release_law;
pub use session::Session;
pub use undo::UndoRecord;

#[cfg(test)]
mod tests;
