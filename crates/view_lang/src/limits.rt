//! Limits of a configuration, in addition to those of `values`.

/// The longest name of a column of a declared table or view, in bytes.
pub const MAX_COLUMN_NAME_LEN: usize = 255;
