//! Weighs the rows of batches of checked columns.

ghost use Rattle.std.specs.Prelude.{◌≡◌, ℕ, ◌<◌, ◌≤◌, ◌++◌, All, IfOk, OnOk, length};
ghost use Rattle.values.specs.Limits.{max_batch_rows, max_batch_weight};
ghost use Rattle.values.specs.Rose.{Roses};
ghost use Rattle.values.specs.declared.layout.Layout.{Layout};
ghost use Rattle.schema_meta.specs.Rows.{row_at, rows_in};
ghost use Rattle.body_writer.specs.Heavy.{IsLight, layouts_in};
ghost use Rattle.body_writer.specs.RowRanges.{cells_in, rows_of};
ghost use Rattle.stream_writer.specs.BatchRows.{AreWeighedToo};
ghost use Rattle.stream_writer.specs.Weights.{
  HasSizes,
  IsLightBatch,
  WeighsAs,
  fitting,
  weights_of,
};

use arrays::Column;
use body_writer::{Batch, MAX_LIGHT_ROW, weigh_row};
use std::alloc::{AllocError, Global};
use values::limits::{MAX_BATCH_ROWS, MAX_BATCH_WEIGHT};

/// Appends the weights of the first `count` rows, none of which is too heavy.
#[tactic(auto, using(crate::proofs::RowWeights::weights))]
fn push_weights(columns: &[Column], count: usize, weights: &mut Vec<u64>) -> Result<(), AllocError>
    requires sized { All (λ c. length c.cells ≡ count) columns.now }
    requires light { (k : ℕ) → k < count → IsLight (layouts_in columns.now) (row_at (cells_in columns.now) k) }
    ensures { OnOk result (weights.new.items ≡ weights.old.items
        ++ weights_of (layouts_in columns.now) (rows_in count (cells_in columns.now))) }
{
    for index in 0..count {
        let weight = weigh_row(columns, index).unwrap();
        weights.push(weight)?;
    }
    Ok(())
}

/// The weights of all rows, none of which is too heavy.
pub fn weights_in(alloc: Global, batches: &[Batch]) -> Result<Vec<u64>, AllocError>
    requires sized { All HasSizes batches.now }
    requires light { All IsLightBatch batches.now }
    ensures { IfOk result (λ weights. (ls : Roses Layout) → All (WeighsAs ls) batches.now
        → weights.items ≡ weights_of ls (rows_of batches.now)) }
{
    let mut weights = Vec::new(alloc);
    for batch in batches {
        push_weights(&batch.columns, batch.rows, &mut weights)?;
    }
    Ok(weights)
}

/// Adds the weights of a batch, none of whose rows weighs more than `heaviest`, to those of the rows from row `from` on
/// of the batches before it. No weights are stored as long as all rows are light.
pub(crate) fn add_weights(
    alloc: Global,
    before: &[Batch],
    from: usize,
    batch: &Batch,
    heaviest: u64,
    weights: &mut Vec<u64>,
) -> Result<(), AllocError>
    requires sized { All HasSizes before.now }
    requires light { All IsLightBatch before.now }
    requires batch_sized { HasSizes batch.now }
    requires batch_light { IsLightBatch batch.now }
    requires place { from ≤ length (rows_of before.now) }
    requires alike { (ls : Roses Layout) × All (WeighsAs ls) before.now }
    ensures { OnOk result
        (AreWeighedToo before.now from batch.now heaviest weights.old.items weights.new.items) }
{
    if !weights.is_empty() {
        push_weights(&batch.columns, batch.rows, weights)?;
        return Ok(());
    }
    if heaviest <= MAX_LIGHT_ROW {
        return Ok(());
    }
    let mut all = weights_in(alloc, before)?;
    *weights = all.split_off(from)?;
    push_weights(&batch.columns, batch.rows, weights)?;
    Ok(())
}

/// How many rows of these weights the next batch has: as many as are within the limits on rows and on weight.
pub(crate) fn count_fitting(weights: &[u64]) -> usize
    ensures value { result ≡ fitting max_batch_rows max_batch_weight weights.now }
    ensures bound { result ≤ length weights.now }
{
    let mut count = 0;
    let mut room = MAX_BATCH_WEIGHT;
    for weight in weights {
        if count == MAX_BATCH_ROWS {
            return count;
        }
        if room < *weight {
            return count;
        }
        room -= *weight;
        count += 1;
    }
    count
}
