//! Where runs of values end.

ghost use Rattle.std.specs.Prelude.{◌≡◌, ◌+◌, ◌++◌, IfOk, OnOk, map, nat_le};
ghost use Rattle.std.specs.List.{prefix_len};
ghost use Rattle.dictionaries.specs.Runs.{IsRising, counted, ends_in, last_end};

use std::alloc::{AllocError, Global};

/// The ends of runs of equal values: for each run the number of values up to its end.
#[derive(Drop)]
pub(crate) enum RunEnds {
    /// This number of runs, each of length 1.
    Single(usize),
    /// Runs with these ends.
    At(Vec<usize>),
}

/// The ends of `count` runs of length 1.
#[tactic(auto, using(crate::proofs::RunLemmas::counting))]
fn count_ends(alloc: Global, count: usize) -> Result<Vec<usize>, AllocError>
    ensures { IfOk result (λ ends. ends.items ≡ counted 0 count) }
{
    let mut ends = Vec::with_capacity(alloc, count)?;
    for i in 0..count {
        ends.push(i + 1)?;
    }
    Ok(ends)
}

/// Appends the ends of runs that follow `before` values.
#[tactic(auto, using(crate::proofs::RunLemmas::shifting))]
fn push_ends(ends: &mut Vec<usize>, before: usize, added: &[usize]) -> Result<(), AllocError>
    ensures { OnOk result (ends.new.items ≡ ends.old.items ++ map (λ end. before + end) added.now) }
{
    for end in added {
        ends.push(before.checked_add(*end).ok_or(AllocError)?)?;
    }
    Ok(())
}

/// The number of ends that aren't above `i`.
fn count_until(ends: &[usize], i: usize) -> usize
    requires { IsRising 0 ends.now }
    ensures { result ≡ prefix_len (λ end. nat_le end i) ends.now }
{
    ends.partition_point(
        |end: &usize| -> bool
            ensures { result ≡ nat_le end.now i }
        { *end <= i },
    )
}

/// The last of the ends, 0 where there is none.
#[tactic(auto, using(crate::proofs::RunLemmas::last))]
fn last_of(ends: &[usize]) -> usize
    ensures { result ≡ last_end 0 ends.now }
{
    match ends.last() {
        Some(end) => *end,
        None => 0,
    }
}

#[tactic(auto, using(crate::proofs::RunLemmas::counting))]
impl RunEnds {
    /// The number of values.
    pub(crate) fn len(&self) -> usize
        ensures { result ≡ last_end 0 (ends_in self.now) }
    {
        match self {
            RunEnds::Single(count) => *count,
            RunEnds::At(ends) => last_of(ends),
        }
    }

    /// The number of the run that has value `i`; the number of runs where there is no value `i`.
    pub(crate) fn run_of(&self, i: usize) -> usize
        requires { IsRising 0 (ends_in self.now) }
        ensures { result ≡ prefix_len (λ end. nat_le end i) (ends_in self.now) }
    {
        match self {
            RunEnds::Single(count) => i.min(*count),
            RunEnds::At(ends) => count_until(ends, i),
        }
    }

    /// A copy, in memory of its own.
    pub(crate) fn copy(&self, alloc: Global) -> Result<RunEnds, AllocError>
        ensures { IfOk result (λ ends. ends_in ends ≡ ends_in self.now) }
    {
        match self {
            RunEnds::Single(count) => Ok(RunEnds::Single(*count)),
            RunEnds::At(ends) => Ok(RunEnds::At(Vec::from_slice(alloc, ends)?)),
        }
    }

    fn into_places(self, alloc: Global) -> Result<Vec<usize>, AllocError>
        ensures { IfOk result (λ ends. ends.items ≡ ends_in self) }
    {
        match self {
            RunEnds::Single(count) => count_ends(alloc, count),
            RunEnds::At(ends) => Ok(ends),
        }
    }

    /// The ends of these runs, followed by others.
    pub(crate) fn join(self, alloc: Global, behind: RunEnds) -> Result<RunEnds, AllocError>
        ensures { IfOk result
            (λ all. ends_in all ≡ ends_in self ++ map (λ end. last_end 0 (ends_in self) + end) (ends_in behind)) }
    {
        match (self, behind) {
            (RunEnds::Single(count), RunEnds::Single(more)) => Ok(RunEnds::Single(
                count.checked_add(more).ok_or(AllocError)?,
            )),
            (ends, behind) => ends.join_places(alloc, behind),
        }
    }

    fn join_places(self, alloc: Global, behind: RunEnds) -> Result<RunEnds, AllocError>
        ensures { IfOk result
            (λ all. ends_in all ≡ ends_in self ++ map (λ end. last_end 0 (ends_in self) + end) (ends_in behind)) }
    {
        let len = self.len();
        let mut ends = self.into_places(alloc)?;
        let behind = behind.into_places(alloc)?;
        push_ends(&mut ends, len, &behind)?;
        Ok(RunEnds::At(ends))
    }
}
