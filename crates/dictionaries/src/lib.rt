//! The values of dictionaries by id, after dictionary batches (Arrow Columnar Format, "Dictionary Messages").
//!
//! A batch that isn't a delta has new values for its id, a delta adds to those that are there. A [`Dictionary`] that
//! was handed out keeps its values. `specs/Batches.antt` says what the values are after any batches, and contracts see
//! a `Dictionary` as the list of its values.
#![tactic(auto)]

mod chunks;
mod dictionaries;
mod dictionary;
mod latest;
mod laws;
mod run_ends;
#[cfg(test)]
mod tests;
mod value_runs;

pub use dictionaries::{Dicts, Ready};
pub use dictionary::Dictionary;
pub use laws::batches_law;
pub use value_runs::ValueRuns;
