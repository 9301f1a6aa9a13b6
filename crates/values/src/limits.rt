//! Each limit of this profile, once.

/// The greatest size of a message's metadata, in bytes.
pub const MAX_METADATA_SIZE: usize = 1 << 24;

/// The greatest size of a message's body, in bytes.
pub const MAX_BODY_SIZE: usize = 1 << 28;

/// The most fields that a schema may have, at all levels together.
pub const MAX_FIELDS: u32 = 1024;

/// The greatest depth of a field; a column has depth 1.
pub const MAX_DEPTH: u8 = 16;

/// The longest name of a field, and the longest time zone, in bytes.
pub const MAX_NAME_LEN: usize = 4096;

/// The most digits of a decimal: those that 128 bits hold.
pub const MAX_PRECISION: u8 = 38;

/// The widest value of `FixedSizeBinary`, in bytes.
pub const MAX_FIXED_WIDTH: u32 = 65_536;

/// The greatest weight of a null of a field's type.
pub const MAX_NULL_WEIGHT: u64 = 1 << 20;

/// The most values that a dictionary may hold.
pub const MAX_DICTIONARY_VALUES: usize = 1 << 20;

/// The most rows of a record batch that is read.
pub const MAX_BATCH_LENGTH: usize = 1 << 24;

/// The greatest length of an array below a column, in slots.
pub const MAX_NODE_LENGTH: usize = (1 << 31) - 1;

/// The most live rows of the main table, and of what is recast.
pub const MAX_MAIN_ROWS: usize = 1 << 24;

/// The most rows of a side table.
pub const MAX_SIDE_ROWS: usize = 1 << 20;

/// The most rows of all accepted appends that aren't undone, retracted rows too.
pub const MAX_APPENDED_ROWS: u64 = 1 << 62;

/// The most side tables of a configuration.
pub const MAX_SIDE_TABLES: usize = 4;

/// The most feeds of a configuration.
pub const MAX_FEEDS: usize = 16;

/// The most views of a configuration.
pub const MAX_VIEWS: usize = 32;

/// The most columns of a declared table or view.
pub const MAX_COLUMNS: usize = 64;

/// The greatest weight of a cell.
pub const MAX_CELL_WEIGHT: u64 = 1 << 20;

/// The greatest weight of a row.
pub const MAX_ROW_WEIGHT: u64 = 1 << 26;

/// The most rows of a record batch that is written.
pub const MAX_BATCH_ROWS: usize = 1024;

/// The greatest summed weight of the rows of a record batch that is written.
pub const MAX_BATCH_WEIGHT: u64 = 1 << 27;

/// The most accepted edits that can be undone.
pub const MAX_UNDO_DEPTH: usize = 64;
