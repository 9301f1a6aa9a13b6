//! Ordered multisets of values.

ghost use Rattle.group_state.specs.Counts.{had, keeps_none, one, put_one, put_times, take_one, take_times};
ghost use Rattle.group_state.specs.Folds.{first_of, last_of};
ghost use Rattle.group_state.specs.GroupParts.{IsMultiset, counts_with};
ghost use Rattle.group_state.specs.Keys.{datum_in, key_cmp};
ghost use Rattle.group_state.specs.Multisets.{HasRoom, counted_in};
ghost use Rattle.std.proofs.Common.{option_map};
ghost use Rattle.std.specs.List.{All};
ghost use Rattle.std.specs.List.Sorted.{IsStrictlySortedBy};
ghost use Rattle.std.specs.Map.{keys_of, values_of};
ghost use Rattle.std.specs.Prelude.{◌≡◌, ◌<◌, ◌^◌, ◌+◌, ◌-◌, IfOk, IfSome, MatchOption, OnErr, OnOk, cond, length};
ghost use Rattle.std.specs.BTreeMap.{is_at};
ghost use Rattle.values.specs.CellViews.{shallow, viewed};
ghost use Rattle.values.specs.declared.key.Key.{Key};
ghost use Rattle.values.specs.declared.key.Key.TheVariants.{Int};

use crate::cells::{no_value, whole};
use crate::few_values::FewValues;
use crate::many_numbers::{ManyNumbers, key_of, number_of};
use crate::many_values::ManyValues;
use crate::one_value::OneValue;
use crate::parts::MultisetParts;
use key_ranks::RankedKey;
use std::alloc::{AllocError, Global};
use std::marker::Model;
use values::{CellView, Key, Value};

/// More values than this are stored in a tree.
const MOST_FEW: usize = 8;

/// One value inline, a few values in one allocation, or many in a tree. Whole numbers of 64 bits have a tree of their
/// own, which takes less memory.
#[derive(Debug, Drop)]
enum Counts {
    One(OneValue),
    Few(FewValues),
    Numbers(ManyNumbers),
    Many(ManyValues),
}

/// Values with how often each is there, in ascending order. Contracts see the entries; none has the count 0.
#[derive(Debug, Drop)]
pub struct Multiset {
    counts: Counts,
}

impl Model for Multiset {
    ghost use Rattle.group_state.specs.Multisets.{counted_in};
    ghost use Rattle.std.specs.Prelude.{List, ℕ};
    ghost use Rattle.values.specs.declared.key.Key.{Key};

    ghost Value = { List (Key × ℕ) };

    ghost view = { λ m. counted_in m.counts };
}

/// The values in a wider form, where this value can't be added in theirs.
fn widened(counts: &Counts, alloc: Global, key: &RankedKey) -> Result<Option<Counts>, AllocError>
    ensures same { IfOk result (λ found. IfSome found (λ wider. counted_in wider ≡ counted_in counts.now)) }
    ensures room { IfOk result (λ found. MatchOption found (HasRoom key.now counts.now) (HasRoom key.now)) }
{
    match counts {
        Counts::One(value) => {
            if value.can_take(key) {
                return Ok(None);
            }
            Ok(Some(Counts::Few(value.to_few(alloc)?)))
        }
        Counts::Few(values) => {
            if values.len() < MOST_FEW {
                return Ok(None);
            }
            Ok(Some(in_tree(values, alloc, key)?))
        }
        Counts::Numbers(numbers) => {
            if number_of(key.key()).is_some() {
                return Ok(None);
            }
            Ok(Some(Counts::Many(numbers.to_many(alloc)?)))
        }
        Counts::Many(_values) => Ok(None),
    }
}

/// A few values in a tree: in that of numbers, if all of them and this value are numbers of 64 bits.
fn in_tree(values: &FewValues, alloc: Global, key: &RankedKey) -> Result<Counts, AllocError>
    ensures same { IfOk result (λ wider. counted_in wider ≡ values.now) }
    ensures room { IfOk result (HasRoom key.now) }
{
    if number_of(key.key()).is_some() {
        if let Some(numbers) = ManyNumbers::of(alloc, values)? {
            return Ok(Counts::Numbers(numbers));
        }
    }
    Ok(Counts::Many(values.to_many(alloc)?))
}

/// Moves the values into a wider form, where this value can't be added in theirs. If memory is refused, nothing has
/// changed.
fn make_room(counts: &mut Counts, alloc: Global, key: &RankedKey) -> Result<(), AllocError>
    ensures same { counted_in counts.new ≡ counted_in counts.old }
    ensures room { OnOk result (HasRoom key.now counts.new) }
{
    if let Some(wider) = widened(counts, alloc, key)? {
        *counts = wider;
    }
    Ok(())
}

/// Adds a value `times` times. If memory is refused, nothing has changed.
fn put(counts: &mut Counts, key: RankedKey, times: u64) -> Result<(), AllocError>
    requires some { 0 < times }
    requires room { HasRoom key counts.old }
    requires few { had (counted_in counts.old) key + times < 2 ^ 64 }
    ensures ok { OnOk result (counted_in counts.new ≡ put_times key times (counted_in counts.old)) }
    ensures err { OnErr result (counted_in counts.new ≡ counted_in counts.old) }
{
    match counts {
        Counts::One(value) => {
            value.add(key, times);
            Ok(())
        }
        Counts::Few(values) => values.add(key, times),
        Counts::Numbers(numbers) => numbers.add(&key, times),
        Counts::Many(values) => values.add(key, times),
    }
}

/// Removes a value `times` times, or as often as it is there.
fn take(counts: &mut Counts, key: &RankedKey, times: u64)
    ensures { counted_in counts.new ≡ take_times key.now times (counted_in counts.old) }
{
    match counts {
        Counts::One(value) => value.remove(key, times),
        Counts::Few(values) => values.remove(key, times),
        Counts::Numbers(numbers) => numbers.remove(key, times),
        Counts::Many(values) => values.remove(key, times),
    }
}

impl Multiset {
    /// An empty multiset. It takes no memory.
    pub fn new() -> Multiset
        ensures { result ≡ keeps_none }
    {
        Multiset {
            counts: Counts::One(OneValue::none()),
        }
    }

    pub(crate) fn into_parts(self, alloc: Global) -> Result<MultisetParts, AllocError>
        ensures value { IfOk result (λ parts. counts_with parts ≡ self) }
        ensures kept { IfOk result (λ parts. IsMultiset parts) }
    {
        match self.counts {
            Counts::One(value) => value.into_parts(alloc),
            Counts::Few(values) => values.into_parts(alloc),
            Counts::Numbers(numbers) => numbers.into_parts(alloc),
            Counts::Many(values) => values.into_parts(alloc),
        }
    }

    /// More than a few values go into the tree of values, though all be numbers.
    pub(crate) fn from_parts(alloc: Global, parts: MultisetParts) -> Result<Multiset, AllocError>
        requires { IsMultiset parts }
        ensures { IfOk result (λ made. made ≡ counts_with parts) }
    {
        let counts = if parts.counts.len() > MOST_FEW {
            Counts::Many(ManyValues::from_parts(alloc, parts)?)
        } else {
            Counts::Few(FewValues::from_parts(alloc, parts)?)
        };
        Ok(Multiset { counts })
    }

    /// How many distinct values it has.
    pub fn count_distinct(&self) -> usize
        ensures distinct { result ≡ length self.now }
        ensures ordered { IsStrictlySortedBy key_cmp (keys_of self.now) }
        ensures present { All (λ n. 0 < n) (values_of self.now) }
    {
        match &self.counts {
            Counts::One(value) => value.len(),
            Counts::Few(values) => values.len(),
            Counts::Numbers(numbers) => numbers.len(),
            Counts::Many(values) => values.len(),
        }
    }

    /// The least value where it lies; null where there is no value.
    pub fn view_least(&self) -> CellView<'_>
        ensures least { viewed result ≡ shallow (datum_in (first_of self.now)) }
        ensures ordered { IsStrictlySortedBy key_cmp (keys_of self.now) }
        ensures present { All (λ n. 0 < n) (values_of self.now) }
    {
        let _size = self.count_distinct();
        match &self.counts {
            Counts::One(value) => view_of(value.key()),
            Counts::Few(values) => view_of(values.least()),
            Counts::Numbers(numbers) => view_of_number(numbers.least()),
            Counts::Many(values) => view_of(values.least()),
        }
    }

    /// A copy of the least value; null where there is no value.
    pub fn least_value(&self, alloc: Global) -> Result<Value, AllocError>
        ensures least { IfOk result (λ value. value ≡ datum_in (first_of self.now)) }
        ensures ordered { IsStrictlySortedBy key_cmp (keys_of self.now) }
        ensures present { All (λ n. 0 < n) (values_of self.now) }
    {
        let _size = self.count_distinct();
        match &self.counts {
            Counts::One(value) => value_of(alloc, value.key()),
            Counts::Few(values) => value_of(alloc, values.least()),
            Counts::Numbers(numbers) => Ok(value_of_number(numbers.least())),
            Counts::Many(values) => value_of(alloc, values.least()),
        }
    }

    /// The greatest value where it lies; null where there is no value.
    pub fn view_greatest(&self) -> CellView<'_>
        ensures greatest { viewed result ≡ shallow (datum_in (last_of self.now)) }
        ensures ordered { IsStrictlySortedBy key_cmp (keys_of self.now) }
        ensures present { All (λ n. 0 < n) (values_of self.now) }
    {
        let _size = self.count_distinct();
        match &self.counts {
            Counts::One(value) => view_of(value.key()),
            Counts::Few(values) => view_of(values.greatest()),
            Counts::Numbers(numbers) => view_of_number(numbers.greatest()),
            Counts::Many(values) => view_of(values.greatest()),
        }
    }

    /// A copy of the greatest value; null where there is no value.
    pub fn greatest_value(&self, alloc: Global) -> Result<Value, AllocError>
        ensures greatest { IfOk result (λ value. value ≡ datum_in (last_of self.now)) }
        ensures ordered { IsStrictlySortedBy key_cmp (keys_of self.now) }
        ensures present { All (λ n. 0 < n) (values_of self.now) }
    {
        let _size = self.count_distinct();
        match &self.counts {
            Counts::One(value) => value_of(alloc, value.key()),
            Counts::Few(values) => value_of(alloc, values.greatest()),
            Counts::Numbers(numbers) => Ok(value_of_number(numbers.greatest())),
            Counts::Many(values) => value_of(alloc, values.greatest()),
        }
    }

    /// Adds a value. If memory is refused, nothing has changed.
    pub fn add(&mut self, alloc: Global, key: RankedKey) -> Result<(), AllocError>
        requires { had self.old key < 2 ^ 63 }
        ensures ok { OnOk result (self.new ≡ put_one key self.old) }
        ensures counts { OnOk result ((q : Key) → had self.new q ≡ had self.old q + one key q) }
        ensures err { OnErr result (self.new ≡ self.old) }
    {
        make_room(&mut self.counts, alloc, &key)?;
        put(&mut self.counts, key, 1)?;
        Ok(())
    }

    /// Removes one such value, if there is one.
    pub fn remove(&mut self, key: &RankedKey)
        ensures entries { self.new ≡ take_one key.now self.old }
        ensures counts { (q : Key) → had self.new q ≡ had self.old q - one key.now q }
    {
        let _size = self.count_distinct();
        take(&mut self.counts, key, 1);
    }

    /// Adds a value `times` times.
    fn add_times(&mut self, alloc: Global, key: &RankedKey, times: u64) -> Result<(), AllocError>
        requires some { 0 < times }
        requires few { had self.old key.now + times < 2 ^ 64 }
        ensures { OnOk result ((q : Key) → had self.new q
            ≡ had self.old q + cond (is_at (key_cmp key.now) q) times 0) }
    {
        make_room(&mut self.counts, alloc, key)?;
        put(&mut self.counts, key.copy(alloc)?, times)?;
        Ok(())
    }

    /// Removes a value `times` times, or as often as it is there.
    fn remove_times(&mut self, key: &RankedKey, times: u64)
        ensures { (q : Key) → had self.new q ≡ had self.old q - cond (is_at (key_cmp key.now) q) times 0 }
    {
        let _size = self.count_distinct();
        take(&mut self.counts, key, times);
    }

    /// Adds the values of another multiset, each as often as it is there.
    pub(crate) fn take_in(&mut self, alloc: Global, other: &Multiset) -> Result<(), AllocError>
        requires { (q : Key) → had self.old q + had other.now q < 2 ^ 63 }
        ensures { OnOk result ((q : Key) → had self.new q ≡ had self.old q + had other.now q) }
    {
        match &other.counts {
            Counts::One(value) => self.take_in_one(alloc, value),
            Counts::Few(values) => self.take_in_few(alloc, values),
            Counts::Numbers(numbers) => self.take_in_numbers(alloc, numbers),
            Counts::Many(values) => self.take_in_many(alloc, values),
        }
    }

    /// Removes the values of another multiset, each as often as it is there.
    pub(crate) fn give_up(&mut self, other: &Multiset)
        ensures { (q : Key) → had self.new q ≡ had self.old q - had other.now q }
    {
        match &other.counts {
            Counts::One(value) => self.give_up_one(value),
            Counts::Few(values) => self.give_up_few(values),
            Counts::Numbers(numbers) => self.give_up_numbers(numbers),
            Counts::Many(values) => self.give_up_many(values),
        }
    }

    fn take_in_one(&mut self, alloc: Global, other: &OneValue) -> Result<(), AllocError>
        requires { (q : Key) → had self.old q + had other.now q < 2 ^ 63 }
        ensures { OnOk result ((q : Key) → had self.new q ≡ had self.old q + had other.now q) }
    {
        if let Some((key, count)) = other.entry() {
            self.add_times(alloc, key, count)?;
        }
        Ok(())
    }

    fn take_in_few(&mut self, alloc: Global, other: &FewValues) -> Result<(), AllocError>
        requires { (q : Key) → had self.old q + had other.now q < 2 ^ 63 }
        ensures { OnOk result ((q : Key) → had self.new q ≡ had self.old q + had other.now q) }
    {
        let size = other.len();
        for place in 0..size {
            self.add_times(alloc, other.key(place), other.count(place))?;
        }
        Ok(())
    }

    fn take_in_numbers(&mut self, alloc: Global, other: &ManyNumbers) -> Result<(), AllocError>
        requires { (q : Key) → had self.old q + had other.now q < 2 ^ 63 }
        ensures { OnOk result ((q : Key) → had self.new q ≡ had self.old q + had other.now q) }
    {
        let _size = other.len();
        for (number, count) in other.iter() {
            let key = key_of(number);
            self.add_times(alloc, &key, *count)?;
        }
        Ok(())
    }

    fn take_in_many(&mut self, alloc: Global, other: &ManyValues) -> Result<(), AllocError>
        requires { (q : Key) → had self.old q + had other.now q < 2 ^ 63 }
        ensures { OnOk result ((q : Key) → had self.new q ≡ had self.old q + had other.now q) }
    {
        let _size = other.len();
        for (key, count) in other.iter() {
            self.add_times(alloc, key, *count)?;
        }
        Ok(())
    }

    fn give_up_one(&mut self, other: &OneValue)
        ensures { (q : Key) → had self.new q ≡ had self.old q - had other.now q }
    {
        if let Some((key, count)) = other.entry() {
            self.remove_times(key, count);
        }
    }

    fn give_up_few(&mut self, other: &FewValues)
        ensures { (q : Key) → had self.new q ≡ had self.old q - had other.now q }
    {
        let size = other.len();
        for place in 0..size {
            self.remove_times(other.key(place), other.count(place));
        }
    }

    fn give_up_numbers(&mut self, other: &ManyNumbers)
        ensures { (q : Key) → had self.new q ≡ had self.old q - had other.now q }
    {
        let _size = other.len();
        for (number, count) in other.iter() {
            let key = key_of(number);
            self.remove_times(&key, *count);
        }
    }

    fn give_up_many(&mut self, other: &ManyValues)
        ensures { (q : Key) → had self.new q ≡ had self.old q - had other.now q }
    {
        let _size = other.len();
        for (key, count) in other.iter() {
            self.remove_times(key, *count);
        }
    }
}

/// The value where it lies; null where there is none.
fn view_of<'a>(key: Option<&'a Key>) -> CellView<'a>
    ensures { viewed result ≡ shallow (datum_in (option_map (λ k. k.now) key.entry)) }
{
    match key {
        Some(key) => key.view(),
        None => CellView::Null,
    }
}

/// A copy of the value; null where there is none.
fn value_of(alloc: Global, key: Option<&Key>) -> Result<Value, AllocError>
    ensures { IfOk result (λ cell. cell ≡ datum_in (option_map (λ k. k.now) key.entry)) }
{
    match key {
        Some(key) => key.value(alloc),
        None => Ok(no_value()),
    }
}

/// The number as a cell; null where there is none.
fn view_of_number(number: Option<i128>) -> CellView<'static>
    ensures { viewed result ≡ shallow (datum_in (option_map (λ n. Int n) number)) }
{
    match number {
        Some(number) => CellView::Int(number),
        None => CellView::Null,
    }
}

/// The number as a value; null where there is none.
fn value_of_number(number: Option<i128>) -> Value
    ensures { result ≡ datum_in (option_map (λ n. Int n) number) }
{
    match number {
        Some(number) => whole(number),
        None => no_value(),
    }
}
