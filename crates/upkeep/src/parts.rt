//! The parts of `LiveTables`.

use group_order::RankedParts;
use group_state::GroupsParts;
use lookups::ReferrersParts;
use row_keys::RowStore;
use top_rows::OrderedParts;
use view_lang::View;

/// What is stored for a view, and whether it is stale. It holds no row of a table, but numbers of rows.
#[derive(Debug, Drop)]
pub struct ViewParts {
    pub stale: bool,
    pub kept: MaterializedParts,
    pub links: LinksParts,
}

/// What is stored for the rows of the main table by the key that they look up.
#[derive(Debug, Drop)]
pub enum LinksParts {
    /// Their numbers; none where the view looks up no table.
    Rows(ReferrersParts),
    /// Groups of them that move together where rows of the side table change. It holds tuples and counts.
    SubGroups(GroupsParts),
}

/// What is stored for the projected rows of a view: their order, or their groups.
#[derive(Debug, Drop)]
pub enum MaterializedParts {
    /// Nothing, for a plain view that shows each live row in the order of row numbers.
    Live,
    /// The entries of the rows of a plain view in its order.
    Order(OrderedParts),
    Groups(RankedParts),
}

/// The parts of `LiveTables`. The stores, of which the main table's comes first, alone hold rows.
#[derive(Drop)]
pub struct LiveTablesParts {
    pub stores: Vec<RowStore>,
    pub views: Vec<View>,
    /// What is stored for each view.
    pub states: Vec<ViewParts>,
}
