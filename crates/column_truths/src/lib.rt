//! Truths of filters on the rows of a batch, found column by column: a column with a dictionary is compared by its
//! codes, one of whole numbers eight at a time, each other one cell by cell, and the tests of a filter are connected as
//! bitmaps.
//!
//! `specs/Compared.antt` says what a comparison of a column gives, `specs/RowTruths.antt` what a filter does;
//! `specs/Spans.antt` has the ranges of numbers for which a comparison with a constant holds.
#![tactic(auto)]

mod by_cell;
mod by_code;
mod by_lanes;
mod compared;
mod filter;
mod spans;
#[cfg(test)]
mod tests;
mod within;

pub use filter::{compare, truths};
pub use within::{first_cells_law, is_within};
