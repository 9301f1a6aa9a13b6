//! The columns of a record batch.

ghost use Rattle.std.specs.Prelude.{All};
ghost use Rattle.row_keys.specs.Batches.{HoldsCells};

use arrays::Column;

/// Each cell is a value of its column's layout. It does nothing: its contract is the theorem.
#[tactic(auto, using(crate::proofs::BufferedLemmas::holding))]
pub(crate) fn columns_law(columns: &[Column])
    ensures { All HoldsCells columns.now }
{
    for column in columns {
        column.law();
    }
}
