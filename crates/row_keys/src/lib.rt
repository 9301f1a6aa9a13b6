//! Stores of rows: the rows of a table by number, and the numbers of the live rows by key.
//!
//! `specs/Slots.antt` says what the rows of a store are and what each call does to them, `specs/Numbered.antt` which
//! live rows have which numbers, `specs/NumberLaws.antt` how these change, `specs/Store.antt` what contracts see,
//! `specs/Batches.antt` which batches are accepted, and `specs/TableChanges.antt` and `specs/HiddenChanges.antt` how a
//! change of a table is made, reverted, hidden and shown again. What an edit means, and why it is refused, is said in
//! `view_lang`.
#![tactic(auto)]

mod batches;
mod edits;
mod faults;
mod first_live;
mod hidden_changes;
mod key_columns;
mod key_table;
mod laws;
mod layouts;
mod locating;
mod looking_up;
mod mixed_keys;
mod number_keys;
mod numbers;
mod parts;
mod rewriting;
mod runs;
mod store;
mod stored_chunk;
mod stored_row;
mod stored_rows;
mod stretches;
mod table_change;
mod turning;
mod weighing;

pub use faults::EditFault;
pub use laws::{batch_law, numbers_law};
pub use locating::StoredLocations;
pub use parts::{RowParts, StoreParts};
pub use store::RowStore;
pub use stored_chunk::StoredChunk;
pub use stored_row::{StoredRow, Visit, Visits};
pub use table_change::TableChange;
