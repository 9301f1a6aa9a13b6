//! Distinct keys that are whole numbers of 64 bits, after null, each with its position.

ghost use Rattle.std.specs.Prelude.{
  ◌≡◌,
  ◌<◌,
  ◌∷◌,
  [],
  IfOk,
  MatchOption,
  OnErr,
  Some,
  length,
  slice_get,
  take,
};
ghost use Rattle.values.specs.declared.key.Key.TheVariants.{Int, Null};
ghost use Rattle.row_keys.specs.KeyTable.{AreApart, Inserts, IsNew};
ghost use Rattle.row_keys.specs.NumberKeys.{AreNumberKeys, IsNumber, null_and};

use crate::mixed_keys::MixedKeys;
use indexmap::IndexSet;
use std::alloc::{AllocError, Global};
use std::marker::Model;
use values::{Key, key_law};

/// Null, and after it distinct whole numbers of 64 bits, in the order in which they were inserted. Contracts see the
/// list of these keys.
#[derive(Drop)]
pub(crate) struct NumberKeys {
    numbers: IndexSet<i64>,
}

impl Model for NumberKeys {
    ghost use Rattle.std.specs.Prelude.{List};
    ghost use Rattle.values.specs.declared.key.Key.{Key};
    ghost use Rattle.row_keys.specs.KeyTable.{keys_code};
    ghost use Rattle.row_keys.specs.NumberKeys.{AreNumberKeys, null_and};

    ghost Value = { List Key };

    ghost coded = { keys_code };

    ghost view = { λ n. null_and n.numbers.keys };

    ghost invariant = { λ n. AreNumberKeys n.numbers.keys };
}

/// The number of 64 bits that a key is, if it is one.
fn number_of(key: &Key) -> Option<i64>
    ensures { MatchOption result (IsNumber key.now → ⊥) (λ n. key.now ≡ Int n) }
{
    match key {
        Key::Int(number) => i64::try_from(*number).ok(),
        _ => None,
    }
}

/// The key of a number.
fn key_of(number: &i64) -> Key
    ensures { result ≡ Int number.now }
{
    Key::Int(i128::from(*number))
}

/// The position of a number after null, if it is there.
#[tactic(auto, using(crate::proofs::NumberTables::number_tables))]
fn place_of(numbers: &IndexSet<i64>, number: i64) -> Option<usize>
    ensures { MatchOption result (IsNew (null_and numbers.now.keys) (Int number))
        (λ p. slice_get (null_and numbers.now.keys) p ≡ Some (Int number)) }
{
    key_law();
    let _count = numbers.len();
    match numbers.get_index_of(&number) {
        Some(index) => Some(index + 1),
        None => None,
    }
}

/// Adds a number at the end, unless it is there, and returns its position after null.
fn insert_number(numbers: &mut IndexSet<i64>, number: i64) -> Result<usize, AllocError>
    ensures kept { AreNumberKeys numbers.old.keys → AreNumberKeys numbers.new.keys }
    ensures place { IfOk result (λ p.
        Inserts (null_and numbers.old.keys) (Int number) p (null_and numbers.new.keys)) }
    ensures err { OnErr result (numbers.new.keys ≡ numbers.old.keys) }
{
    key_law();
    let (index, _) = numbers.insert_full(number)?;
    let _count = numbers.len();
    Ok(index + 1)
}

#[tactic(auto, using(crate::proofs::NumberTables::number_tables))]
impl NumberKeys {
    /// Null alone.
    pub(crate) fn new(alloc: Global) -> NumberKeys
        ensures { result ≡ Null ∷ [] }
    {
        NumberKeys {
            numbers: IndexSet::new(alloc),
        }
    }

    /// No key is at two positions. It does nothing: its contract is the theorem.
    pub(crate) fn distinct_law(&self)
        ensures { AreApart self.now }
    {
        let _numbers = &self.numbers;
    }

    /// The position of a key, if it is there.
    pub(crate) fn find(&self, key: &Key) -> Option<usize>
        ensures { MatchOption result (IsNew self.now key.now) (λ p. slice_get self.now p ≡ Some key.now) }
    {
        let _numbers = &self.numbers;
        if let Key::Null = key {
            return Some(0);
        }
        match number_of(key) {
            Some(number) => place_of(&self.numbers, number),
            None => None,
        }
    }

    /// The key at a position.
    pub(crate) fn key_at(&self, place: usize) -> Key
        requires { place < length self.now }
        ensures { slice_get self.now place ≡ Some result }
    {
        let numbers = &self.numbers;
        if place == 0 {
            return Key::Null;
        }
        key_of(numbers.get_index(place - 1).unwrap())
    }

    /// Adds a key at the end, unless it is there, and returns its position; `None` where it is neither null nor a
    /// number of 64 bits. If memory is refused, nothing has changed.
    pub(crate) fn insert(&mut self, key: &Key) -> Result<Option<usize>, AllocError>
        ensures place { IfOk result (λ place.
            MatchOption place (self.new ≡ self.old) (λ p. Inserts self.old key.now p self.new)) }
        ensures err { OnErr result (self.new ≡ self.old) }
    {
        let _numbers = &self.numbers;
        if let Key::Null = key {
            return Ok(Some(0));
        }
        let Some(number) = number_of(key) else {
            return Ok(None);
        };
        let place = insert_number(&mut self.numbers, number)?;
        Ok(Some(place))
    }

    /// Removes all keys but the first `len`, of which null is one. It takes no memory.
    pub(crate) fn truncate(&mut self, len: usize)
        requires { 0 < len }
        ensures { self.new ≡ take len self.old }
    {
        self.numbers.truncate(len - 1);
    }

    /// The same keys, stored as those of any kind are.
    pub(crate) fn to_mixed(&self, alloc: Global) -> Result<MixedKeys, AllocError>
        ensures { IfOk result (λ keys. keys ≡ self.now) }
    {
        let mut keys = MixedKeys::new(alloc);
        keys.insert(Key::Null)?;
        for number in self.numbers.iter() {
            keys.insert(key_of(number))?;
        }
        Ok(keys)
    }
}
