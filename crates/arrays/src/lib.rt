//! Columns of any type: their cells are validated once, and then read and weighed in place.
//!
//! A cell is a reading (`array_layout/specs/Cells.antt`): a value, or the faults of the slots that it reaches.
#![tactic(auto)]

mod always_valid;
mod bounds;
mod cell_views;
mod column;
mod decimals;
mod dictionary;
mod laws;
mod no_bytes;
mod read;
mod slots;
#[cfg(test)]
mod tests;
mod texts;
mod uniform;
mod validate;
mod weigh;

pub use column::{Column, ColumnParts};
pub use dictionary::{find_value, index_at};
pub use laws::{reached_law, weight_law};
