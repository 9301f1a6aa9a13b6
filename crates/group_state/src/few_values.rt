//! A few values, with how often each is there, in one allocation.

ghost use Rattle.group_state.specs.Counts.{had, keeps_none, put_times, take_times};
ghost use Rattle.group_state.specs.FewValues.{IsBefore, IsThere};
ghost use Rattle.group_state.specs.Folds.{first_of, last_of};
ghost use Rattle.group_state.specs.GroupParts.{IsMultiset, counts_with};
ghost use Rattle.group_state.specs.Keys.{key_cmp};
ghost use Rattle.std.proofs.Common.{option_map};
ghost use Rattle.std.specs.List.Sorted.{IsStrictlySortedBy};
ghost use Rattle.std.specs.List.{All};
ghost use Rattle.std.specs.Map.{keys_of, values_of};
ghost use Rattle.std.specs.Prelude.{◌≡◌, ◌<◌, ◌^◌, ◌+◌, IfOk, MatchResult, OnErr, OnOk, length, slice_index_or, ℕ};
ghost use Rattle.values.specs.declared.key.Key.{Key};

use crate::many_values::ManyValues;
use crate::parts::{MultisetParts, ValueCount};
use key_ranks::RankedKey;
use std::alloc::{AllocError, Global};
use std::cmp::Ordering;
use std::marker::Model;
use values::Key;

/// Values with how often each is there, in ascending order.
#[derive(Debug, Drop)]
pub(crate) struct FewValues {
    counts: Vec<(RankedKey, u64)>,
}

impl Model for FewValues {
    ghost use Rattle.group_state.specs.Keys.{key_cmp};
    ghost use Rattle.std.specs.List.{All};
    ghost use Rattle.std.specs.List.Sorted.{IsStrictlySortedBy};
    ghost use Rattle.std.specs.Map.{keys_of, values_of};
    ghost use Rattle.std.specs.Prelude.{◌<◌, List, ℕ};
    ghost use Rattle.values.specs.declared.key.Key.{Key};

    ghost Value = { List (Key × ℕ) };

    ghost view = { λ f. f.counts.items };

    ghost invariant = { λ f. IsStrictlySortedBy key_cmp (keys_of f.counts.items)
        × All (λ n. 0 < n) (values_of f.counts.items) };
}

impl FewValues {
    /// No values. They take no memory.
    pub(crate) fn new(alloc: Global) -> FewValues
        ensures { result ≡ keeps_none }
    {
        FewValues {
            counts: Vec::new(alloc),
        }
    }

    pub(crate) fn into_parts(self, alloc: Global) -> Result<MultisetParts, AllocError>
        ensures value { IfOk result (λ parts. counts_with parts ≡ self) }
        ensures kept { IfOk result (λ parts. IsMultiset parts) }
    {
        let FewValues { counts } = self;
        let mut taken = Vec::with_capacity(alloc, counts.len())?;
        for (value, count) in counts {
            taken.push(ValueCount {
                value: value.into_key(),
                count,
            })?;
        }
        Ok(MultisetParts { counts: taken })
    }

    pub(crate) fn from_parts(alloc: Global, parts: MultisetParts) -> Result<FewValues, AllocError>
        requires { IsMultiset parts }
        ensures { IfOk result (λ made. made ≡ counts_with parts) }
    {
        let MultisetParts { counts } = parts;
        let mut made = Vec::with_capacity(alloc, counts.len())?;
        for ValueCount { value, count } in counts {
            made.push((RankedKey::new(value), count))?;
        }
        Ok(FewValues { counts: made })
    }

    /// The same values in a tree.
    pub(crate) fn to_many(&self, alloc: Global) -> Result<ManyValues, AllocError>
        ensures { IfOk result (λ many. many ≡ self.now) }
    {
        let mut many = ManyValues::new(alloc);
        for place in 0..self.counts.len() {
            let (key, count) = &self.counts[place];
            many.put(key.copy(alloc)?, *count)?;
        }
        Ok(many)
    }

    /// How many distinct values there are.
    pub(crate) fn len(&self) -> usize
        ensures many { result ≡ length self.now }
        ensures ordered { IsStrictlySortedBy key_cmp (keys_of self.now) }
        ensures present { All (λ n. 0 < n) (values_of self.now) }
    {
        self.counts.len()
    }

    /// The least value; `None` where there is no value.
    pub(crate) fn least(&self) -> Option<&Key>
        ensures { option_map (λ k. k.now) result ≡ first_of self.now }
    {
        match self.counts.first() {
            Some((key, _count)) => Some(key.key()),
            None => None,
        }
    }

    /// The greatest value; `None` where there is no value.
    pub(crate) fn greatest(&self) -> Option<&Key>
        ensures { option_map (λ k. k.now) result ≡ last_of self.now }
    {
        match self.counts.last() {
            Some((key, _count)) => Some(key.key()),
            None => None,
        }
    }

    /// The index of a value; or, as an error, the index at which it would be inserted.
    fn place(&self, key: &RankedKey) -> Result<usize, usize>
        ensures { MatchResult result (λ n. IsThere key.now n self.now) (λ n. IsBefore key.now n self.now) }
    {
        for place in 0..self.counts.len() {
            match key.cmp(&self.counts[place].0) {
                Ordering::Greater => {}
                Ordering::Equal => return Ok(place),
                Ordering::Less => return Err(place),
            }
        }
        Err(self.counts.len())
    }

    /// The value at an index.
    pub(crate) fn key(&self, place: usize) -> &RankedKey
        requires { place < length self.now }
        ensures { (e : Key × ℕ) → result.now ≡ (slice_index_or self.now place e).0 }
    {
        &self.counts[place].0
    }

    /// The count of the value at an index.
    pub(crate) fn count(&self, place: usize) -> u64
        requires { place < length self.now }
        ensures { (e : Key × ℕ) → result ≡ (slice_index_or self.now place e).1 }
    {
        self.counts[place].1
    }

    /// Adds `times` to the count of the value at this index.
    fn raise(&mut self, place: usize, times: u64)
        requires some { 0 < times }
        requires there { (key : Key) × (IsThere key place self.old × (had self.old key + times < 2 ^ 64)) }
        ensures { (key : Key) → IsThere key place self.old → self.new ≡ put_times key times self.old }
    {
        self.counts[place].1 += times;
    }

    /// Inserts a value at its index, where it isn't yet. If memory is refused, nothing has changed.
    fn insert(&mut self, place: usize, key: RankedKey, times: u64) -> Result<(), AllocError>
        requires some { 0 < times }
        requires before { IsBefore key place self.old }
        ensures ok { OnOk result (self.new ≡ put_times key times self.old) }
        ensures err { OnErr result (self.new ≡ self.old) }
    {
        self.counts.reserve_exact(1)?;
        self.counts.insert(place, (key, times))?;
        Ok(())
    }

    /// Subtracts `times` from the count of the value at this index, and removes the value where the count becomes 0.
    fn lower(&mut self, place: usize, times: u64)
        requires { (key : Key) × IsThere key place self.old }
        ensures { (key : Key) → IsThere key place self.old → self.new ≡ take_times key times self.old }
    {
        let count = self.counts[place].1;
        if count > times {
            self.counts[place].1 = count - times;
        } else {
            drop(self.counts.remove(place));
        }
    }

    /// Adds a value `times` times. If memory is refused, nothing has changed.
    pub(crate) fn add(&mut self, key: RankedKey, times: u64) -> Result<(), AllocError>
        requires some { 0 < times }
        requires few { had self.old key + times < 2 ^ 64 }
        ensures ok { OnOk result (self.new ≡ put_times key times self.old) }
        ensures err { OnErr result (self.new ≡ self.old) }
    {
        match self.place(&key) {
            Ok(place) => {
                drop(key);
                self.raise(place, times);
                Ok(())
            }
            Err(place) => self.insert(place, key, times),
        }
    }

    /// Removes a value `times` times, or as often as it is there.
    pub(crate) fn remove(&mut self, key: &RankedKey, times: u64)
        ensures { self.new ≡ take_times key.now times self.old }
    {
        let _size = self.len();
        match self.place(key) {
            Ok(place) => self.lower(place, times),
            Err(_place) => {}
        }
    }
}
