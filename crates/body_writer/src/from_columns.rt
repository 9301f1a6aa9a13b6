//! The bodies of record batches straight from checked columns: bytes are copied where they can be, and no cell is
//! copied to a value.
//!
//! Slots that lie one after the other and are all valid are copied at once (`specs/Runs.antt`). The cells of a column
//! of a batch may lie in several arrays (`specs/Segments.antt`), since its rows may come from several batches
//! (`specs/RowRanges.antt`). The segments of a child follow from the runs of the array above it. Where arrays have a
//! dictionary, below lists and structs too, cells are written from references to its values (`encoded.rt`), texts and
//! bytes from slices of them (`encoded_texts.rt`, `specs/Texts.antt`). Columns with arrays of another layout, or with
//! dictionaries in some of their batches alone, are written from copies of their cells. Only some columns of the rows
//! may be written (`specs/Picked.antt`).

pub(crate) mod batch;
pub(crate) mod bit_runs;
pub(crate) mod byte_runs;
pub(crate) mod children;
pub(crate) mod encoded;
pub(crate) mod encoded_texts;
pub(crate) mod gather;
pub(crate) mod kinds;
pub(crate) mod own;
pub(crate) mod picked;
pub(crate) mod segment;
pub(crate) mod segments;
pub(crate) mod slot_runs;
pub(crate) mod texts;
pub(crate) mod write;
