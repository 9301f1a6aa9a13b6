//! The commands of the program `lv`, over arguments, files and an output that its caller gives: `recast`, `inspect` and
//! `show` of a stream, `check` of a configuration, and over a session `run` of a script and `live` of lines as they
//! come. A stream can be recast whole, from a source that is read piece by piece, or in one pass, also to a new file.
#![tactic(auto)]

mod files;
mod inspecting;
mod laws;
mod program;
mod reading;
mod recasting;
mod scripting;
mod show;

pub use files::{FileFault, Files};
pub use inspecting::events::{Inspected, inspect, inspect_from};
pub use laws::{account_law, recast_law};
pub use program::lv;
pub use program::outcome::Refusal;
pub use recasting::new_file::recast_to_new;
pub use recasting::one_pass::recast_through;
pub use recasting::whole::{RecastFault, SourceFault, recast, recast_from};
