//! Writing a table as its canonical stream.
//!
//! `specs/Stream.antt` says which bytes these are, `specs/Coding.antt` which values and indices coded columns have,
//! `specs/Sinks.antt` what a writer does to a sink, `specs/Table.antt` which tables can be written, `specs/CutLaw.antt`
//! what holds of the cut into batches, `specs/ClosedBatches.antt` which batches no later row changes, and
//! `specs/TableWriters.antt` how far a table is written whose rows come batch by batch.
#![tactic(auto)]

mod batch_rows;
mod coded_batch;
mod dictionary_batch;
mod dictionary_builder;
mod encoded;
mod encoded_schema;
mod faults;
mod joined_copies;
mod joined_rows;
mod laws;
mod layouts;
mod locate_rows;
mod location_bounds;
mod memory;
mod messages;
mod progress;
mod range_bounds;
mod range_copies;
mod range_rows;
mod rows;
mod sink;
mod table;
mod table_writer;
mod viewed_rows;
mod weighing;

pub use encoded_schema::EncodedSchema;
pub use faults::WriteFault;
pub use joined_rows::JoinedRows;
pub use laws::{
    batch_law, canon_law, closed_law, coded_law, cut_law, dictionary_law, framing_law, rows_law,
    values_law,
};
pub use layouts::layouts_of;
pub use memory::MemorySink;
pub use sink::{DeviceFault, Sink, put_all};
pub use table::{
    write_batches, write_cells, write_coded, write_locations, write_ranges, write_table,
    write_weighed_batches,
};
pub use table_writer::TableWriter;
pub use viewed_rows::has_flat_columns;
pub use weighing::weights_in;

#[cfg(test)]
mod coded_tests;
#[cfg(test)]
mod table_writer_tests;
#[cfg(test)]
mod tests;
