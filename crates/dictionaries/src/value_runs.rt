//! Lists of values that store a repeated value once.

ghost use Rattle.std.specs.Prelude.{◌≡◌, ◌++◌, IfOk, IfSome, length, replicate, slice_get};
ghost use Rattle.std.specs.Option.{option_copied};

use crate::run_ends::RunEnds;
use std::alloc::{AllocError, Global};
use std::marker::Model;
use values::{Kind, Value, copy_row};

/// A list of values that stores a repeated value once. Contracts see the whole list.
#[derive(Drop)]
pub struct ValueRuns {
    held: Vec<Value>,
    ends: RunEnds,
}

impl Model for ValueRuns {
    ghost use Rattle.std.specs.Prelude.{List};
    ghost use Rattle.std.specs.Coded.{coded_list};
    ghost use Rattle.values.specs.Datum.{Datum, datum_code};
    ghost use Rattle.dictionaries.specs.Runs.{AreRuns, ends_in, spread};

    ghost Value = { List Datum };

    ghost coded = { coded_list datum_code };

    ghost view = { λ r. spread 0 r.held.items (ends_in r.ends) };

    ghost invariant = { λ r. AreRuns r.held.items (ends_in r.ends) };
}

/// The bytes of a `Value` itself.
const PLACE_BYTES: usize = 32;

/// The bytes that a copy of a value takes: those of the `Value`, and its text or its bytes.
fn weight_of(value: &Value) -> usize {
    PLACE_BYTES.saturating_add(match &value.kind {
        Kind::Utf8(text) => text.len(),
        Kind::Binary(bytes) => bytes.len(),
        _ => 0,
    })
}

fn weight_of_all(values: &[Value]) -> usize {
    let mut sum = 0usize;
    for value in values {
        sum = sum.saturating_add(weight_of(value));
    }
    sum
}

fn greatest_weight(values: &[Value]) -> usize {
    let mut greatest = 0usize;
    for value in values {
        greatest = greatest.max(weight_of(value));
    }
    greatest
}

fn value_in(values: &[Value], i: usize) -> Option<&Value>
    ensures { option_copied result ≡ slice_get values.now i }
{
    values.get(i)
}

#[tactic(auto, using(crate::proofs::RunLemmas::spreading))]
impl ValueRuns {
    /// The list of these values, each of which is stored.
    pub fn each(values: Vec<Value>) -> ValueRuns
        ensures { result ≡ values.items }
    {
        let ends = RunEnds::Single(values.len());
        ValueRuns { held: values, ends }
    }

    /// The list of `count` times the same value, which is stored once.
    pub fn repeated(alloc: Global, value: Value, count: usize) -> Result<ValueRuns, AllocError>
        ensures { IfOk result (λ r. r ≡ replicate count value) }
    {
        let mut held = Vec::with_capacity(alloc, 1)?;
        held.push(value)?;
        let mut ends = Vec::with_capacity(alloc, 1)?;
        ends.push(count)?;
        Ok(ValueRuns {
            held,
            ends: RunEnds::At(ends),
        })
    }

    /// The number of values.
    pub fn len(&self) -> usize
        ensures { result ≡ length self.now }
    {
        self.ends.len()
    }

    /// The number of values that are stored, one for each run.
    pub(crate) fn held(&self) -> usize {
        self.held.len()
    }

    /// At least the bytes that a copy of each value takes, of a repeated one too.
    pub(crate) fn weight(&self) -> usize {
        match &self.ends {
            RunEnds::Single(_) => weight_of_all(&self.held),
            RunEnds::At(_) => self.len().saturating_mul(greatest_weight(&self.held)),
        }
    }

    /// Value `i`, if there are more than `i`.
    pub(crate) fn get(&self, i: usize) -> Option<&Value>
        ensures { option_copied result ≡ slice_get self.now i }
    {
        value_in(&self.held, self.ends.run_of(i))
    }

    /// The values as one slice, where each of them is stored; `None` where they are stored by runs.
    pub(crate) fn as_slice(&self) -> Option<&[Value]>
        ensures { IfSome result (λ values. values.now ≡ self.now) }
    {
        match &self.ends {
            RunEnds::Single(_) => Some(self.held.as_slice()),
            RunEnds::At(_) => None,
        }
    }

    /// A copy, in memory of its own.
    pub(crate) fn copy(&self, alloc: Global) -> Result<ValueRuns, AllocError>
        ensures { IfOk result (λ r. r ≡ self.now) }
    {
        let held = copy_row(alloc, &self.held)?;
        let ends = self.ends.copy(alloc)?;
        Ok(ValueRuns { held, ends })
    }

    /// These values, followed by others.
    pub(crate) fn join(self, alloc: Global, behind: ValueRuns) -> Result<ValueRuns, AllocError>
        ensures { IfOk result (λ all. all ≡ self ++ behind) }
    {
        let ValueRuns { mut held, ends } = self;
        let ValueRuns {
            held: mut held_behind,
            ends: ends_behind,
        } = behind;
        let ends = ends.join(alloc, ends_behind)?;
        held.append(&mut held_behind)?;
        Ok(ValueRuns { held, ends })
    }
}
