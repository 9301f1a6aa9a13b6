//! The vocabulary of all layers: the types of columns, values with their order, their layouts and weights, the limits,
//! and the causes of a refusal.
//!
//! The contracts are equations on definitions of `specs/`: `ColTypes` (the types, and the layout of each), `TypeText`
//! (how a type is printed), `Logical` (a schema as contracts see it), `Datum` (a value as contracts see it), `Order`,
//! `Layouts` (what a layout holds, and what it weighs), `Causes`, `Limits`. `Reading` defines readings, in which bytes
//! mean a value or have faults, and `Rose` the tree with any number of children as which contracts see fields, layouts
//! and arrays; the crates above use both.
#![tactic(auto)]

mod causes;
mod cell_view;
mod cells;
mod col_type;
mod faults;
mod key;
mod key_buffer;
mod key_parts;
mod laws;
mod layout;
pub mod limits;
mod order;
mod schema;
mod small_bytes;
#[cfg(test)]
mod tests;
mod text;
mod units;
mod weigh;
mod zone;

pub use causes::Cause;
pub use cell_view::CellView;
pub use cells::{Kind, Row, Value, copy_row};
pub use col_type::ColType;
pub use faults::StreamFault;
pub use key::Key;
pub use key_buffer::KeyBuffer;
pub use key_parts::{KeyBytes, KeyText};
pub use laws::{equality_law, key_law, limits_law};
pub use layout::{IntWidth, Layout, LayoutTree, OffsetWidth};
pub use order::{cmp_cells, cmp_values};
pub use schema::{LogicalField, Schema};
pub use units::{DateUnit, TimeUnit};
pub use weigh::{null_weight, row_weight, weight};
pub use zone::Zone;
