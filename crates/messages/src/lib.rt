//! The messages of a stream, however it is cut into pieces.
//!
//! The first message of some bytes, or the faults in them, is defined in the specs of `schema_meta`, stage by stage:
//! its first 8 bytes (`Framing`), its metadata (`Message`, `Batch`, `DictionaryBatch`), and all of it. `Framer::push`
//! is proved to answer just that (`specs/Stream.antt`), and to leave the framer as it was where it refuses;
//! `specs/Laws.antt` says that the messages don't depend on how the bytes are cut. A push is `prepare`, which checks a
//! piece and allocates all the memory, and then `commit`, which can't fail. What holds of each message that is returned
//! is `Sound` of `schema_meta`: its nodes and buffers fit the schema, or the type of the dictionary's values, and the
//! body.
#![tactic(auto, unfolding(schema_meta::specs::Batch::node_of, schema_meta::specs::Batch::range_of, schema_meta::specs::Batch::rows_of, schema_meta::specs::Batch::nodes_in, schema_meta::specs::Batch::nodes_of, schema_meta::specs::Batch::ranges_in, schema_meta::specs::Batch::ranges_of, schema_meta::specs::Batch::plain, schema_meta::specs::Batch::batch_of, schema_meta::specs::Message::version_of, schema_meta::specs::Message::kind_of, schema_meta::specs::Message::header_table, schema_meta::specs::Message::body_of, schema_meta::specs::Message::new_schema, schema_meta::specs::DictionaryBatch::id_of, schema_meta::specs::DictionaryBatch::data_of, schema_meta::specs::DictionaryBatch::values_batch, schema_meta::specs::DictionaryBatch::dictionary_of, schema_meta::specs::Message::dictionary_batch, schema_meta::specs::Message::record_batch, schema_meta::specs::Message::header_of, schema_meta::specs::Message::meta_of))]

mod batch;
mod columns;
mod counts;
mod declared;
mod dictionary;
mod fields;
mod framing;
mod gather;
mod headers;
mod laws;
mod lengths;
mod lists;
mod metadata;
mod pending;
mod state;
mod stream;
#[cfg(test)]
mod tests;

pub use headers::{Framed, Message};
pub use laws::{first_message_law, message_law, more_bytes_law, pieces_law};
pub use schema_meta::{BatchHeader, Header};
pub use stream::Framer;
