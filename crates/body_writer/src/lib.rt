//! The canonical buffers of columns of any layout, and the body of a batch, written from values, from cells where they
//! lie, or straight from checked columns.
//!
//! `specs/Columns.antt` says what the nodes and buffers of a column are, `specs/Body.antt` how buffers are laid out,
//! `specs/Batch.antt` what the body of a batch is and which rows can be one, `specs/Law.antt` that a column that is
//! written is read back. The laws are the contracts of [`column_law`] and its neighbours. Functions that write are
//! named after their source: [`write_column_from_values`], [`write_column_from_cells`] for a layout without children,
//! [`write_body_from_columns`], [`write_body_from_picked_columns`] and [`write_body_from_locations`]. [`heaviest_row`]
//! and [`weigh_row`] say which rows are too heavy to be written (`specs/Heavy.antt`).
#![tactic(auto)]

mod body;
mod bytes;
mod from_columns;
mod from_locations;
mod from_values;
mod laws;
mod weighing;

pub use body::Body;
pub use from_columns::batch::{Batch, RowRange};
pub use from_columns::picked::write_body_from_picked_columns;
pub use from_columns::write::write_body_from_columns;
pub use from_locations::cells::copy_cell;
pub use from_locations::location::{LocatedRows, RowLocation};
pub use from_locations::plain::BatchArrays;
pub use from_locations::write::{LocatedColumn, write_body_from_locations};
pub use from_values::batch::column_cells;
pub use from_values::column::{write_column_from_cells, write_column_from_values};
pub use laws::{column_law, count_law, holding_law, size_law};
pub use weighing::{MAX_LIGHT_ROW, heaviest_row, weigh_row};
