//! Many whole numbers of 64 bits, with how often each is there, in a tree.

ghost use Rattle.group_state.specs.Counts.{had, keeps_none, put_times, take_times};
ghost use Rattle.group_state.specs.Folds.{first_of, last_of};
ghost use Rattle.group_state.specs.GroupParts.{IsMultiset, counts_with};
ghost use Rattle.group_state.specs.Keys.{key_cmp};
ghost use Rattle.group_state.specs.Numbers.{IsNumber, numbered};
ghost use Rattle.std.proofs.Common.{option_map};
ghost use Rattle.std.specs.BTreeMap.{insert_entry};
ghost use Rattle.std.specs.List.{All};
ghost use Rattle.std.specs.List.Sorted.{IsStrictlySortedBy};
ghost use Rattle.std.specs.Map.{keys_of, values_of};
ghost use Rattle.std.specs.Prelude.{◌≡◌, ◌<◌, ◌^◌, ◌+◌, IfOk, IfSome, MatchOption, OnErr, OnOk, length};
ghost use Rattle.values.specs.declared.key.Key.{Key};
ghost use Rattle.values.specs.declared.key.Key.TheVariants.{Int};

use crate::few_values::FewValues;
use crate::many_values::ManyValues;
use crate::parts::{MultisetParts, ValueCount};
use key_ranks::RankedKey;
use std::alloc::{AllocError, Global};
use std::collections::BTreeMap;
use std::collections::btree_map::Iter;
use std::marker::Model;
use values::Key;

/// Whole numbers of 64 bits with how often each is there, in ascending order. Contracts see the entries, as those of
/// keys; none has the count 0.
#[derive(Debug, Drop)]
pub(crate) struct ManyNumbers {
    counts: BTreeMap<i64, u64>,
}

impl Model for ManyNumbers {
    ghost use Rattle.group_state.specs.Numbers.{AreNumbers, numbered};
    ghost use Rattle.std.specs.Prelude.{List, ℕ};
    ghost use Rattle.values.specs.declared.key.Key.{Key};

    ghost Value = { List (Key × ℕ) };

    ghost view = { λ m. numbered m.counts.entries };

    ghost invariant = { λ m. AreNumbers (numbered m.counts.entries) };
}

/// The number of 64 bits that a key is, if it is one.
pub(crate) fn number_of(key: &Key) -> Option<i64>
    ensures number { MatchOption result (IsNumber key.now → ⊥) (λ n. key.now ≡ Int n) }
    ensures fits { IfSome result (λ n. IsNumber key.now) }
{
    match key {
        Key::Int(number) => i64::try_from(*number).ok(),
        _ => None,
    }
}

impl ManyNumbers {
    /// No numbers. They take no memory.
    pub(crate) fn new(alloc: Global) -> ManyNumbers
        ensures { result ≡ keeps_none }
    {
        ManyNumbers {
            counts: BTreeMap::new(alloc),
        }
    }

    /// The same values, if all are numbers of 64 bits.
    pub(crate) fn of(alloc: Global, values: &FewValues) -> Result<Option<ManyNumbers>, AllocError>
        ensures { IfOk result (λ found. IfSome found (λ numbers. numbers ≡ values.now)) }
    {
        let mut numbers = ManyNumbers::new(alloc);
        for place in 0..values.len() {
            let Some(number) = number_of(values.key(place).key()) else {
                return Ok(None);
            };
            numbers.put(number, values.count(place))?;
        }
        Ok(Some(numbers))
    }

    /// The same values in a tree of values.
    pub(crate) fn to_many(&self, alloc: Global) -> Result<ManyValues, AllocError>
        ensures { IfOk result (λ many. many ≡ self.now) }
    {
        let _size = self.len();
        let mut many = ManyValues::new(alloc);
        for (number, count) in self.counts.iter() {
            many.put(key_of(number), *count)?;
        }
        Ok(many)
    }

    pub(crate) fn into_parts(self, alloc: Global) -> Result<MultisetParts, AllocError>
        ensures value { IfOk result (λ parts. counts_with parts ≡ self) }
        ensures kept { IfOk result (λ parts. IsMultiset parts) }
    {
        let size = self.len();
        let mut taken = Vec::with_capacity(alloc, size)?;
        for (number, count) in self.counts.iter() {
            taken.push(ValueCount {
                value: Key::Int(wide(number)),
                count: *count,
            })?;
        }
        Ok(MultisetParts { counts: taken })
    }

    /// How many distinct numbers there are.
    pub(crate) fn len(&self) -> usize
        ensures distinct { result ≡ length self.now }
        ensures ordered { IsStrictlySortedBy key_cmp (keys_of self.now) }
        ensures present { All (λ n. 0 < n) (values_of self.now) }
    {
        self.counts.len()
    }

    /// The least number; `None` where there is none.
    pub(crate) fn least(&self) -> Option<i128>
        ensures { option_map (λ n. Int n) result ≡ first_of self.now }
    {
        match self.counts.first_key_value() {
            Some((number, _count)) => Some(wide(number)),
            None => None,
        }
    }

    /// The greatest number; `None` where there is none.
    pub(crate) fn greatest(&self) -> Option<i128>
        ensures { option_map (λ n. Int n) result ≡ last_of self.now }
    {
        match self.counts.last_key_value() {
            Some((number, _count)) => Some(wide(number)),
            None => None,
        }
    }

    /// Inserts a number that isn't there, with this count. If memory is refused, nothing has changed.
    fn put(&mut self, number: i64, count: u64) -> Result<(), AllocError>
        requires { 0 < count }
        ensures ok { OnOk result (self.new ≡ insert_entry key_cmp self.old (Int number) count) }
        ensures err { OnErr result (self.new ≡ self.old) }
    {
        self.counts.insert(number, count)?;
        Ok(())
    }

    /// The numbers with their counts, in order.
    pub(crate) fn iter(&self) -> Iter<'_, i64, u64>
        ensures { numbered result ≡ self.now }
    {
        self.counts.iter()
    }

    /// Adds a number of 64 bits `times` times. If memory is refused, nothing has changed.
    pub(crate) fn add(&mut self, key: &RankedKey, times: u64) -> Result<(), AllocError>
        requires some { 0 < times }
        requires number { IsNumber key.now }
        requires few { had self.old key.now + times < 2 ^ 64 }
        ensures ok { OnOk result (self.new ≡ put_times key.now times self.old) }
        ensures err { OnErr result (self.new ≡ self.old) }
    {
        if let Some(number) = number_of(key.key()) {
            add_to(&mut self.counts, number, times)?;
        }
        Ok(())
    }

    /// Removes a value `times` times, or as often as it is there.
    pub(crate) fn remove(&mut self, key: &RankedKey, times: u64)
        ensures { self.new ≡ take_times key.now times self.old }
    {
        if let Some(number) = number_of(key.key()) {
            take_from(&mut self.counts, number, times);
        }
    }
}

/// The number as keys hold it.
fn wide(number: &i64) -> i128
    ensures { result ≡ number.now }
{
    i128::from(*number)
}

/// The key of a number.
pub(crate) fn key_of(number: &i64) -> RankedKey
    ensures { result ≡ Int number.now }
{
    RankedKey::new(Key::Int(wide(number)))
}

/// Raises a number's count. If memory is refused, nothing has changed.
fn add_to(counts: &mut BTreeMap<i64, u64>, number: i64, times: u64) -> Result<(), AllocError>
    requires { had (numbered counts.old.entries) (Int number) + times < 2 ^ 64 }
    ensures ok { OnOk result (numbered counts.new.entries
        ≡ put_times (Int number) times (numbered counts.old.entries)) }
    ensures err { OnErr result (counts.new.entries ≡ counts.old.entries) }
{
    *counts.entry(number)?.or_insert(0) += times;
    Ok(())
}

/// Lowers a number's count, and removes the number where it becomes 0.
fn take_from(counts: &mut BTreeMap<i64, u64>, number: i64, times: u64)
    ensures { numbered counts.new.entries ≡ take_times (Int number) times (numbered counts.old.entries) }
{
    let Some(count) = counts.get_mut(&number) else {
        return;
    };
    if *count > times {
        *count -= times;
    } else {
        drop(counts.remove(&number));
    }
}
