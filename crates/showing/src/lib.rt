//! Shows rows as text: as CSV, or as a table for a terminal.
//!
//! A cell is read where it lies in its column and is written piece by piece, so neither a cell nor a claimed length
//! takes memory. `specs/` says what the text of a number, of a date, of a field and of a line is.
#![tactic(auto)]

mod cell;
mod csv;
mod date;
mod digits;
mod json;
mod laws;
mod number;
mod short;
mod table;
#[cfg(test)]
mod tests;
mod text;
mod visible;

pub use csv::{write_csv_names, write_csv_row};
pub use laws::csv_law;
pub use table::{Table, write_count};
