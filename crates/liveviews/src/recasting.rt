//! The canonical stream of a stream: of one that is in memory whole, in one pass, and to a new file that replaces
//! another.

mod batch;
mod buffered_batches;
pub(crate) mod new_file;
pub(crate) mod one_pass;
mod table;
pub(crate) mod whole;
