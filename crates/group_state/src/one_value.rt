//! One value, with how often it is there, stored inline.

ghost use Rattle.group_state.specs.Counts.{had, keeps_none, put_times, take_times};
ghost use Rattle.group_state.specs.Folds.{first_of, last_of};
ghost use Rattle.group_state.specs.GroupParts.{IsMultiset, counts_with};
ghost use Rattle.group_state.specs.Keys.{key_cmp};
ghost use Rattle.group_state.specs.OneValue.{CanTake};
ghost use Rattle.std.proofs.Common.{option_map};
ghost use Rattle.std.specs.List.{All};
ghost use Rattle.std.specs.List.Sorted.{IsStrictlySortedBy};
ghost use Rattle.std.specs.Map.{keys_of, values_of};
ghost use Rattle.std.specs.Prelude.{◌≡◌, [], ◌∷◌, ◌<◌, ◌≤◌, ◌^◌, ◌+◌, IfOk, MatchOption, length, true};

use crate::few_values::FewValues;
use crate::parts::{MultisetParts, ValueCount};
use key_ranks::RankedKey;
use std::alloc::{AllocError, Global};
use std::cmp::Ordering;
use std::marker::Model;
use values::Key;

/// A value with how often it is there, or no value. It takes no memory but what the value takes. Contracts see the
/// entries: one, or none.
#[derive(Debug, Drop)]
pub(crate) struct OneValue {
    key: RankedKey,
    count: u64,
}

impl Model for OneValue {
    ghost use Rattle.group_state.specs.OneValue.{counted_once};
    ghost use Rattle.std.specs.Prelude.{List, ℕ};
    ghost use Rattle.values.specs.declared.key.Key.{Key};

    ghost Value = { List (Key × ℕ) };

    ghost view = { λ o. counted_once o.key o.count };
}

impl OneValue {
    /// No value.
    pub(crate) fn none() -> OneValue
        ensures { result ≡ keeps_none }
    {
        OneValue {
            key: RankedKey::new(Key::Null),
            count: 0,
        }
    }

    /// The value with how often it is there, if there is one.
    pub(crate) fn entry(&self) -> Option<(&RankedKey, u64)>
        ensures entry { MatchOption result (self.now ≡ []) (λ e. self.now ≡ (e.0.now, e.1) ∷ []) }
        ensures ordered { IsStrictlySortedBy key_cmp (keys_of self.now) }
        ensures present { All (λ n. 0 < n) (values_of self.now) }
    {
        if self.count == 0 {
            None
        } else {
            Some((&self.key, self.count))
        }
    }

    /// How many distinct values there are.
    pub(crate) fn len(&self) -> usize
        ensures many { result ≡ length self.now }
        ensures ordered { IsStrictlySortedBy key_cmp (keys_of self.now) }
        ensures present { All (λ n. 0 < n) (values_of self.now) }
    {
        match self.entry() {
            Some(_entry) => 1,
            None => 0,
        }
    }

    /// The value, if there is one: the least and the greatest.
    pub(crate) fn key(&self) -> Option<&Key>
        ensures least { option_map (λ k. k.now) result ≡ first_of self.now }
        ensures greatest { option_map (λ k. k.now) result ≡ last_of self.now }
    {
        match self.entry() {
            Some((key, _count)) => Some(key.key()),
            None => None,
        }
    }

    pub(crate) fn into_parts(self, alloc: Global) -> Result<MultisetParts, AllocError>
        ensures value { IfOk result (λ parts. counts_with parts ≡ self) }
        ensures kept { IfOk result (λ parts. IsMultiset parts) }
    {
        let mut counts = Vec::with_capacity(alloc, 1)?;
        let _size = self.len();
        let OneValue { key, count } = self;
        if count > 0 {
            counts.push(ValueCount {
                value: key.into_key(),
                count,
            })?;
        }
        Ok(MultisetParts { counts })
    }

    /// The same value in a list.
    pub(crate) fn to_few(&self, alloc: Global) -> Result<FewValues, AllocError>
        ensures { IfOk result (λ few. few ≡ self.now) }
    {
        let mut few = FewValues::new(alloc);
        if let Some((key, count)) = self.entry() {
            few.add(key.copy(alloc)?, count)?;
        }
        Ok(few)
    }

    /// Whether this value can be added: there is no other.
    pub(crate) fn can_take(&self, key: &RankedKey) -> bool
        ensures { result ≡ true → CanTake key.now self.now }
    {
        match key.cmp(&self.key) {
            Ordering::Equal => true,
            _ => self.count == 0,
        }
    }

    /// Adds a value `times` times. There is no other.
    pub(crate) fn add(&mut self, key: RankedKey, times: u64)
        requires some { 0 < times }
        requires alone { CanTake key self.old }
        requires few { had self.old key + times < 2 ^ 64 }
        ensures { self.new ≡ put_times key times self.old }
    {
        if self.count == 0 {
            *self = OneValue { key, count: times };
        } else {
            drop(key);
            self.count += times;
        }
    }

    /// Removes a value `times` times, or as often as it is there.
    pub(crate) fn remove(&mut self, key: &RankedKey, times: u64)
        ensures { self.new ≡ take_times key.now times self.old }
    {
        match key.cmp(&self.key) {
            Ordering::Equal => {}
            _ => return,
        }
        if self.count > times {
            self.count -= times;
        } else {
            *self = OneValue::none();
        }
    }
}
