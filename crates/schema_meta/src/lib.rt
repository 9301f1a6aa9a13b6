//! The Schema message: what its table means, and which faults it may have.
//!
//! `specs/Schema.antt` has the definition that `read_schema` is proved against; it uses `Fields` (a field with its
//! children), `Types` (the types that are supported) and `Totals` (the count of fields), `Encoding` (the dictionary of
//! a field) and `Dictionaries` (those of all fields). `Entry` is what contracts see of a field, `Logical` its name and
//! the type of its values.
//!
//! The headers of messages are here too, with their slots and numbers (`message_fbs`), the arrays of a batch with the
//! places of their buffers (`place_array`), the definitions that the crates above read messages and whole streams by,
//! and what is written of a schema.
#![tactic(auto, unfolding(field_types::specs::Reads::bool_of, field_types::specs::Kinds::kind_of, field_types::specs::Types::type_of, field_types::specs::Reads::short_of, crate::specs::Encoding::id_of, crate::specs::Encoding::index_type_of, crate::specs::Encoding::dense_of, crate::specs::Encoding::encoding_of, crate::specs::Encoding::field_encoding_of, crate::specs::Dictionaries::value_type, crate::specs::Dictionaries::are_consistent, crate::specs::Fields::name_of, crate::specs::Fields::children_of, crate::specs::Fields::label_of, crate::specs::Fields::content_of, crate::specs::Fields::field_of, crate::specs::Fields::entry_by, crate::specs::Totals::total_at, crate::specs::Schema::endianness_of, crate::specs::Schema::columns_of, crate::specs::Schema::schema_of))]

mod count;
mod encoding;
mod field;
mod fields;
mod header;
mod laws;
mod layouts;
pub mod message_fbs;
mod null_weight;
mod parts;
mod schema;
mod shape;
mod value_types;
mod write;

pub use encoding::DictionaryEncoding;
pub use field::Field;
pub use header::{BatchHeader, DictionaryHeader, Header, MessageKind};
pub use laws::{
    clash_law, fields_law, logical_law, path_law, place_law, plain_law, schema_law, sign_law,
};
pub use layouts::layout_trees;
pub use parts::{place_array, place_values};
pub use schema::{StreamSchema, read_schema};
pub use write::{write_message, write_schema};
