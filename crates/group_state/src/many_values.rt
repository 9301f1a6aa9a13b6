//! Many values, with how often each is there, in a tree.

ghost use Rattle.std.specs.Prelude.{
  ◌≡◌,
  ◌<◌,
  ◌^◌,
  ◌+◌,
  ◌-◌,
  IfOk,
  OnErr,
  OnOk,
  length,
  ℕ,
};
ghost use Rattle.std.proofs.Common.{option_map};
ghost use Rattle.group_state.specs.Folds.{first_of, last_of};
ghost use Rattle.group_state.specs.GroupParts.{IsMultiset, counts_with};
ghost use Rattle.std.specs.BTreeMap.{insert_entry};
ghost use Rattle.std.specs.List.Sorted.{IsStrictlySortedBy};
ghost use Rattle.values.specs.declared.key.Key.{Key};
ghost use Rattle.group_state.specs.Keys.{key_cmp};
ghost use Rattle.std.specs.Map.{keys_of, values_of};
ghost use Rattle.std.specs.List.{All};
ghost use Rattle.group_state.specs.Counts.{put_times, take_times, had, keeps_none};

use crate::parts::{MultisetParts, ValueCount};
use key_ranks::RankedKey;
use std::alloc::{AllocError, Global};
use std::collections::BTreeMap;
use std::collections::btree_map::Iter;
use std::marker::Model;
use values::Key;

/// Values with how often each is there, in ascending order. Contracts see the entries; none has the count 0.
#[derive(Debug, Drop)]
pub(crate) struct ManyValues {
    counts: BTreeMap<RankedKey, u64>,
}

impl Model for ManyValues {
    ghost use Rattle.std.specs.Prelude.{List, ℕ};
    ghost use Rattle.values.specs.declared.key.Key.{Key};

    ghost Value = { List (Key × ℕ) };

    ghost view = { λ m. m.counts.entries };

    ghost use Rattle.std.specs.List.{All};
    ghost use Rattle.std.specs.Map.{values_of};
    ghost use Rattle.std.specs.Prelude.{◌<◌};

    ghost invariant = { λ m. All (λ n. 0 < n) (values_of m.counts.entries) };
}

impl ManyValues {
    /// No values. They take no memory.
    pub(crate) fn new(alloc: Global) -> ManyValues
        ensures { result ≡ keeps_none }
    {
        ManyValues {
            counts: BTreeMap::new(alloc),
        }
    }

    pub(crate) fn into_parts(self, alloc: Global) -> Result<MultisetParts, AllocError>
        ensures value { IfOk result (λ parts. counts_with parts ≡ self) }
        ensures kept { IfOk result (λ parts. IsMultiset parts) }
    {
        let ManyValues { counts } = self;
        let mut taken = Vec::with_capacity(alloc, counts.len())?;
        for (value, count) in counts {
            taken.push(ValueCount {
                value: value.into_key(),
                count,
            })?;
        }
        Ok(MultisetParts { counts: taken })
    }

    pub(crate) fn from_parts(alloc: Global, parts: MultisetParts) -> Result<ManyValues, AllocError>
        requires { IsMultiset parts }
        ensures { IfOk result (λ made. made ≡ counts_with parts) }
    {
        let MultisetParts { counts } = parts;
        let mut made = BTreeMap::new(alloc);
        for ValueCount { value, count } in counts {
            made.insert(RankedKey::new(value), count)?;
        }
        Ok(ManyValues { counts: made })
    }

    /// How many distinct values there are.
    pub(crate) fn len(&self) -> usize
        ensures distinct { result ≡ length self.now }
        ensures ordered { IsStrictlySortedBy key_cmp (keys_of self.now) }
        ensures present { All (λ n. 0 < n) (values_of self.now) }
    {
        self.counts.len()
    }

    /// The least value; `None` where there is no value.
    pub(crate) fn least(&self) -> Option<&Key>
        ensures least { option_map (λ k. k.now) result ≡ first_of self.now }
        ensures ordered { IsStrictlySortedBy key_cmp (keys_of self.now) }
        ensures present { All (λ n. 0 < n) (values_of self.now) }
    {
        let _size = self.counts.len();
        match self.counts.first_key_value() {
            Some((key, _count)) => Some(key.key()),
            None => None,
        }
    }

    /// The greatest value; `None` where there is no value.
    pub(crate) fn greatest(&self) -> Option<&Key>
        ensures greatest { option_map (λ k. k.now) result ≡ last_of self.now }
        ensures ordered { IsStrictlySortedBy key_cmp (keys_of self.now) }
        ensures present { All (λ n. 0 < n) (values_of self.now) }
    {
        let _size = self.counts.len();
        match self.counts.last_key_value() {
            Some((key, _count)) => Some(key.key()),
            None => None,
        }
    }

    /// Inserts a value that isn't there, with this count. If memory is refused, nothing has changed.
    pub(crate) fn put(&mut self, key: RankedKey, count: u64) -> Result<(), AllocError>
        requires { 0 < count }
        ensures ok { OnOk result (self.new ≡ insert_entry key_cmp self.old key count) }
        ensures err { OnErr result (self.new ≡ self.old) }
    {
        self.counts.insert(key, count)?;
        Ok(())
    }

    /// The values with their counts, in order.
    pub(crate) fn iter(&self) -> Iter<'_, RankedKey, u64>
        ensures { result ≡ self.now }
    {
        self.counts.iter()
    }

    /// Adds a value `times` times. If memory is refused, nothing has changed.
    pub(crate) fn add(&mut self, key: RankedKey, times: u64) -> Result<(), AllocError>
        requires some { 0 < times }
        requires few { had self.old key + times < 2 ^ 64 }
        ensures ok { OnOk result (self.new ≡ put_times key times self.old) }
        ensures err { OnErr result (self.new ≡ self.old) }
    {
        *self.counts.entry(key)?.or_insert(0) += times;
        Ok(())
    }

    /// Removes a value `times` times, or as often as it is there.
    pub(crate) fn remove(&mut self, key: &RankedKey, times: u64)
        ensures { self.new ≡ take_times key.now times self.old }
    {
        take_from(&mut self.counts, key, times);
    }
}

/// Lowers a value's count, and removes the value where it becomes 0.
fn take_from(counts: &mut BTreeMap<RankedKey, u64>, key: &RankedKey, times: u64)
    ensures entries { counts.new.entries ≡ take_times key.now times counts.old.entries }
    ensures ordered { IsStrictlySortedBy key_cmp (keys_of counts.old.entries) }
{
    let _size = counts.len();
    let Some(count) = counts.get(key).copied() else {
        return;
    };
    if count > times {
        if let Some(place) = counts.get_mut(key) {
            *place = count - times;
        }
    } else {
        drop(counts.remove(key));
    }
}
