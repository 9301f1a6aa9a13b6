//! The types of fields, read from the tables of Schema.fbs and written to them.
//!
//! `specs/Types.antt` says what a field's type means and which faults it has, `specs/Kinds.antt` of which kind it is,
//! and `specs/TypeTree.antt` what is written for each. The types themselves are `values::ColType`.
#![tactic(auto)]

mod index;
mod kinds;
mod laws;
mod parameters;
mod reads;
pub mod schema_fbs;
#[cfg(test)]
mod tests;
mod types;
mod write;

pub use index::{IndexType, read_index_type};
pub use kinds::{TypeKind, may_have, read_kind};
pub use laws::{stored_law, type_law};
pub use reads::{read_bool, read_byte, read_long, read_short, readable};
pub use types::read_type;
pub use write::{type_number, type_table};
