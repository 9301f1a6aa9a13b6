//! The rows of a table by the key that they hold in a column, kept current by changes of the rows: which of them refer
//! to a row of a side table with that key.
//!
//! `specs/Refers.antt` says what is stored, `specs/Keeping.antt` when it is that of some rows.
#![tactic(auto)]

mod laws;
mod numbers;
mod parts;
mod referrers;
#[cfg(test)]
mod tests;

pub use laws::referrers_law;
pub use parts::{KeyNumbers, ReferrersParts};
pub use referrers::Referrers;
