//! Orders of rows, kept current by changes of the rows: the numbers of the rows, sorted by some of their columns.
//!
//! `specs/Keeping.antt` says when an order is that of some rows, over `Ties` (entries of rows with names of any type)
//! and `SortKeys` (what a row is ordered by), and `specs/ViewOrder.antt` that its first entries are the first rows of a
//! view.
#![tactic(auto)]

mod entry;
mod inline_kind;
mod laws;
mod ordered;
mod parts;
mod row_entries;
mod short_entries;
mod short_key;
mod short_keys;
mod short_text;
mod sort_key;
mod sort_key_list;
#[cfg(test)]
mod tests;

pub use laws::order_law;
pub use ordered::Ordered;
pub use parts::{OrderEntryParts, OrderedParts};
pub use short_key::ShortKey;
pub use sort_key::SortKey;
pub use sort_key_list::SortKeyList;
