//! Weighs the rows of checked columns against the limits of cells and of rows.

ghost use Rattle.std.specs.Prelude.{◌≡◌, ◌<◌, All, IfSome, None, length};
ghost use Rattle.schema_meta.specs.Rows.{row_at};
ghost use Rattle.body_writer.specs.Heavy.{
  AreLightUpTo,
  HasHeavyRow,
  IsHeavy,
  IsLightAs,
  IsRowBound,
  layouts_in,
};
ghost use Rattle.body_writer.specs.RowRanges.{cells_in};

use arrays::Column;
use values::limits::{MAX_CELL_WEIGHT, MAX_ROW_WEIGHT};

/// 1,024 rows that weigh no more than this each are within the limit on a written batch's weight.
pub const MAX_LIGHT_ROW: u64 = 1 << 17;

/// The weight of row `index`, or `None` if one of its cells is above the limit of a cell, or the row is above that of a
/// row. Nothing is copied.
#[tactic(auto, using(crate::proofs::WeighedRows::weighing))]
pub fn weigh_row(columns: &[Column], index: usize) -> Option<u64>
    requires { All (λ c. index < length c.cells) columns.now }
    ensures heavy { result ≡ None → IsHeavy (layouts_in columns.now) (row_at (cells_in columns.now) index) }
    ensures light { IfSome result (IsLightAs (layouts_in columns.now) (row_at (cells_in columns.now) index)) }
{
    let mut sum = 0;
    for column in columns {
        let weight = column.weight(index);
        if weight > MAX_CELL_WEIGHT {
            return None;
        }
        sum += weight;
        if sum > MAX_ROW_WEIGHT {
            return None;
        }
    }
    Some(sum)
}

/// An upper bound on the weights of the rows, from bounds on the cells of each column, or `None` where it isn't that of
/// a light row. Rows aren't weighed one by one.
#[tactic(auto, using(crate::proofs::BoundedRows::bounding))]
fn bound_rows(columns: &[Column]) -> Option<u64>
    ensures { IfSome result (IsRowBound columns.now) }
{
    let mut sum = 0;
    for column in columns {
        sum += column.weight_bound();
        if sum > MAX_LIGHT_ROW {
            return None;
        }
    }
    Some(sum)
}

/// An upper bound on the weights of the first `count` rows, or `None` if one of them is too heavy. Rows are weighed one
/// by one only where the bounds of the columns are large.
pub fn heaviest_row(columns: &[Column], count: usize) -> Option<u64>
    requires { All (λ c. length c.cells ≡ count) columns.now }
    ensures heavy { result ≡ None → HasHeavyRow (layouts_in columns.now) (cells_in columns.now) count }
    ensures light { IfSome result (AreLightUpTo (layouts_in columns.now) (cells_in columns.now) count) }
{
    if let Some(bound) = bound_rows(columns) {
        return Some(bound);
    }
    let mut most = 0;
    for index in 0..count {
        let Some(weight) = weigh_row(columns, index) else {
            return None;
        };
        most = most.max(weight);
    }
    Some(most)
}
