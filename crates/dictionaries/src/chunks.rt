//! Chunks of values, shared between versions of a dictionary.

ghost use Rattle.std.specs.Prelude.{◌≡◌, ◌≤◌, ◌++◌, length, slice_get, IfOk, IfSome};
ghost use Rattle.std.specs.Option.{option_copied};
ghost use Rattle.dictionaries.specs.Joined.{joined};

use crate::value_runs::ValueRuns;
use std::alloc::{AllocError, Global};
use std::marker::Model;
use std::rc::Rc;
use values::Value;

/// Consecutive values of a dictionary, in shared memory. Contracts see their list.
#[derive(Drop)]
pub struct Chunk {
    values: Rc<ValueRuns>,
}

impl Model for Chunk {
    ghost use Rattle.std.specs.Prelude.{List};
    ghost use Rattle.std.specs.Coded.{coded_list};
    ghost use Rattle.values.specs.Datum.{Datum, datum_code};

    ghost Value = { List Datum };

    ghost coded = { coded_list datum_code };

    ghost view = { λ c. c.values.value };
}

impl Chunk {
    fn new(alloc: Global, values: ValueRuns) -> Result<Chunk, AllocError>
        ensures { IfOk result (λ c. c ≡ values) }
    {
        let values = Rc::new(alloc, values)?;
        Ok(Chunk { values })
    }

    fn share(&self) -> Result<Chunk, AllocError>
        ensures { IfOk result (λ c. c ≡ self.now) }
    {
        let values = self.values.clone()?;
        Ok(Chunk { values })
    }

    fn values(&self) -> &ValueRuns
        ensures { result.now ≡ self.now }
    {
        self.values.as_ref()
    }
}

/// Value `i` of the chunks in order, if there are more than `i`.
#[tactic(auto, using(crate::proofs::JoinLemmas::reading))]
pub fn value_at(chunks: &[Chunk], i: usize) -> Option<&Value>
    ensures { option_copied result ≡ slice_get (joined chunks.now) i }
{
    let mut left = i;
    for chunk in chunks {
        let values = chunk.values();
        if left < values.len() {
            return values.get(left);
        }
        left -= values.len();
    }
    None
}

/// The values of the chunks as one slice, where they lie in one chunk that stores each of them; `None` otherwise.
#[tactic(auto, using(crate::proofs::JoinLemmas::one_chunk))]
pub fn slice_of(chunks: &[Chunk]) -> Option<&[Value]>
    ensures { IfSome result (λ values. values.now ≡ joined chunks.now) }
{
    match chunks {
        [chunk] => chunk.values().as_slice(),
        _ => None,
    }
}

/// How many of the chunks stay as they are when a chunk that stores `added` values is appended. The ones after these
/// store few values, and are merged with it.
///
/// So each chunk stores more than twice as many values as the next: there are few chunks, and a stored value is copied
/// a logarithmic number of times.
fn unmerged(chunks: &[Chunk], added: usize) -> usize
    ensures { result ≤ length chunks.now }
{
    let mut unmerged = chunks.len();
    let mut merged = added;
    while unmerged > 0 {
        let held = chunks[unmerged - 1].values().held();
        if held > merged.saturating_mul(2) {
            break;
        }
        merged = merged.saturating_add(held);
        unmerged -= 1;
    }
    unmerged
}

fn share_all(alloc: Global, chunks: &[Chunk]) -> Result<Vec<Chunk>, AllocError>
    ensures { IfOk result (λ cs. cs.items ≡ chunks.now) }
{
    let mut shared = Vec::new(alloc);
    for chunk in chunks {
        shared.push(chunk.share()?)?;
    }
    Ok(shared)
}

/// The values of the chunks, followed by `values`, in one list.
#[tactic(auto, using(crate::proofs::JoinLemmas::merging))]
fn merge(alloc: Global, chunks: &[Chunk], values: ValueRuns) -> Result<ValueRuns, AllocError>
    ensures { IfOk result (λ all. all ≡ joined chunks.now ++ values) }
{
    if chunks.is_empty() {
        return Ok(values);
    }
    let mut all = ValueRuns::each(Vec::new(alloc));
    for chunk in chunks {
        all = all.join(alloc, chunk.values().copy(alloc)?)?;
    }
    all.join(alloc, values)
}

/// Chunks of the same values followed by `values`. Long chunks are shared, short ones are merged with `values`.
#[tactic(auto, using(crate::proofs::JoinLemmas::merging))]
pub fn extend(alloc: Global, chunks: &[Chunk], values: ValueRuns) -> Result<Vec<Chunk>, AllocError>
    ensures { IfOk result (λ all. joined all.items ≡ joined chunks.now ++ values) }
{
    let (unmerged, short) = chunks.split_at(unmerged(chunks, values.held()));
    let mut all = share_all(alloc, unmerged)?;
    let merged = merge(alloc, short, values)?;
    all.push(Chunk::new(alloc, merged)?)?;
    Ok(all)
}
