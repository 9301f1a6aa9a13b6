//! The bodies of record batches of rows at single locations, straight from checked columns.
//!
//! What is found once for a column of all batches is not looked for at each row: [`BatchArrays`] has the buffers of the
//! arrays in which the cells lie. The cells of a column are then gathered location by location: slots of a fixed width,
//! bits, and slices of texts or bytes (`specs/Locations.antt`). Lists, structs and arrays with a dictionary are written
//! as segments of one cell each. Where a location is in no batch, its cells are null.

pub(crate) mod cells;
pub(crate) mod gather;
pub(crate) mod location;
pub(crate) mod plain;
pub(crate) mod slots;
pub(crate) mod write;
