//! The parts of an `Ordered`, as plain lists.

use crate::sort_key::SortKey;
use view_lang::OrderBy;

/// All that an `Ordered` stores: an order, and the entries of the rows in it, ascending.
#[derive(Debug, Drop)]
pub struct OrderedParts {
    pub order: Vec<OrderBy>,
    pub order_entries: Vec<OrderEntryParts>,
}

/// The entry of a row: its sort key for each of the order's columns, and its number.
#[derive(Debug, Drop)]
pub struct OrderEntryParts {
    pub sort_keys: Vec<SortKey>,
    pub number: usize,
}
