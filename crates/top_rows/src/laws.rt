//! Laws of rows in order: functions that do nothing, whose contracts are theorems.

ghost use Rattle.top_rows.specs.SortedOrderEntries.{EntriesAreSorted};

/// The entries of some rows are stored sorted, ties by number. So an order is a function of the rows alone, and doesn't
/// depend on the changes that led to them.
#[tactic(auto, using(crate::proofs::SortedOrderEntries::sorting_laws))]
pub fn order_law()
    ensures sorted { EntriesAreSorted }
{}
