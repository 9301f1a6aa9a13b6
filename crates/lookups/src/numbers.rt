//! Sets of row numbers.

ghost use Rattle.lookups.specs.Refers.{is_among};
ghost use Rattle.std.specs.List.Sorted.{IsStrictlySortedBy};
ghost use Rattle.std.specs.Ordering.{nat_cmp};
ghost use Rattle.std.specs.Prelude.{◌≡◌, ◌==◌, ◌↔◌, ◌||◌, [], ◌∷◌, cond, false, true, IfOk, IsTrue, OnErr, OnOk, ℕ};

use std::alloc::{AllocError, Global};
use std::collections::BTreeSet;
use std::marker::Model;

/// Numbers of rows, each once. Contracts see the list of them, which ascends.
#[derive(Debug, Drop)]
pub(crate) struct NumberSet {
    numbers: BTreeSet<usize>,
}

impl Model for NumberSet {
    ghost use Rattle.std.specs.Prelude.{List, ℕ};

    ghost Value = { List ℕ };

    ghost view = { λ n. n.numbers.keys };
}

impl NumberSet {
    pub(crate) fn none(alloc: Global) -> NumberSet
        ensures { result ≡ [] }
    {
        NumberSet {
            numbers: BTreeSet::new(alloc),
        }
    }

    pub(crate) fn one(alloc: Global, number: usize) -> Result<NumberSet, AllocError>
        ensures value { IfOk result (λ numbers. numbers ≡ number ∷ []) }
        ensures ascending { IfOk result (λ numbers. IsStrictlySortedBy nat_cmp numbers) }
    {
        let mut numbers = BTreeSet::new(alloc);
        numbers.insert(number)?;
        Ok(NumberSet { numbers })
    }

    /// The set of these numbers, which must ascend.
    pub(crate) fn of(alloc: Global, numbers: Vec<usize>) -> Result<NumberSet, AllocError>
        requires { IsStrictlySortedBy nat_cmp numbers.items }
        ensures value { IfOk result (λ made. made ≡ numbers.items) }
    {
        let mut made = BTreeSet::new(alloc);
        for number in numbers {
            made.insert(number)?;
        }
        Ok(NumberSet { numbers: made })
    }

    /// Adds a number. If memory is refused, nothing has changed.
    pub(crate) fn insert(&mut self, number: usize) -> Result<(), AllocError>
        ensures ok { OnOk result ((n : ℕ) → is_among self.new n ≡ cond (n == number) true (is_among self.old n)) }
        ensures err { OnErr result (self.new ≡ self.old) }
        ensures ascending { IsStrictlySortedBy nat_cmp self.new }
    {
        self.numbers.insert(number)?;
        Ok(())
    }

    /// Adds all numbers of another set. If memory is refused, some of them may have been added.
    pub(crate) fn add_all(&mut self, others: &NumberSet) -> Result<(), AllocError>
        ensures { OnOk result ((n : ℕ) → is_among self.new n ≡ (is_among self.old n || is_among others.now n)) }
    {
        for number in others.numbers.iter() {
            self.insert(*number)?;
        }
        Ok(())
    }

    pub(crate) fn remove(&mut self, number: usize)
        ensures gone { (n : ℕ) → is_among self.new n ≡ cond (n == number) false (is_among self.old n) }
        ensures ascending { IsStrictlySortedBy nat_cmp self.new }
    {
        let _there = self.numbers.remove(&number);
    }

    pub(crate) fn is_empty(&self) -> bool
        ensures { IsTrue result ↔ (self.now ≡ []) }
    {
        self.numbers.is_empty()
    }

    /// The numbers, in ascending order.
    pub(crate) fn to_vec(&self, alloc: Global) -> Result<Vec<usize>, AllocError>
        ensures numbers { IfOk result (λ numbers. numbers.items ≡ self.now) }
        ensures ascending { IsStrictlySortedBy nat_cmp self.now }
    {
        let mut numbers = Vec::with_capacity(alloc, self.numbers.len())?;
        for number in self.numbers.iter() {
            numbers.push(*number)?;
        }
        Ok(numbers)
    }
}
