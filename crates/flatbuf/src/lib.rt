//! FlatBuffers, as far as Arrow's metadata needs them, and exactly.
//!
//! Reading (`specs/Layout.antt`) says what the bytes mean from the root table down. A call returns `BadTable` exactly
//! where a byte that it has to read lies outside the buffer, or where a vtable's own size is under 4; everywhere else
//! it returns what the layout means. Nothing is copied.
//!
//! Writing (`specs/Tree.antt`, `specs/Written.antt`) has one layout of a tree of objects. `Builder`
//! builds a table slot by slot, each call one equation on that tree, and writes the layout's bytes.
#![tactic(auto, unfolding(crate::specs::Layout::number_at, crate::specs::Layout::signed_at, crate::specs::Layout::target_at, crate::specs::Layout::bytes_at, crate::specs::Layout::block_at, crate::specs::Layout::place_of_vtable, crate::specs::Layout::vtable_at, crate::specs::Layout::table_at, crate::specs::Layout::root_of, crate::specs::Layout::slot_of, crate::specs::Layout::number_of, crate::specs::Layout::signed_of, crate::specs::Layout::structs_of, crate::specs::Layout::subtable_of, crate::specs::Layout::vector_at, crate::specs::Layout::vector_of, crate::specs::Layout::entry_of))]

mod bad_table;
mod builder;
mod bytes;
mod laws;
mod layout;
mod numbers;
mod slot;
mod table;
mod vector;

pub use bad_table::BadTable;
pub use builder::{Builder, Tables};
pub use laws::layout_law;
pub use table::{Buf, TableRef};
pub use vector::VectorRef;
