//! One version of a dictionary: a list of values.

ghost use Rattle.std.specs.Prelude.{◌≡◌, ◌++◌, length, nat_eq, slice_get, IfOk, IfSome};
ghost use Rattle.std.specs.Option.{option_copied};

use crate::chunks::{Chunk, extend, slice_of, value_at};
use crate::value_runs::ValueRuns;
use std::alloc::{AllocError, Global};
use std::marker::Model;
use std::rc::Rc;
use values::Value;

/// The values of a dictionary as they were at one time, nulls among them. They never change.
///
/// Contracts see their list.
#[derive(Drop)]
pub struct Dictionary {
    chunks: Rc<Vec<Chunk>>,
    len: usize,
    // The bytes that a copy of each value takes.
    weight: usize,
}

impl Model for Dictionary {
    ghost use Rattle.std.specs.Prelude.{◌≡◌, List, length};
    ghost use Rattle.std.specs.Coded.{coded_list};
    ghost use Rattle.values.specs.Datum.{Datum, datum_code};
    ghost use Rattle.dictionaries.specs.Joined.{joined};

    ghost Value = { List Datum };

    ghost coded = { coded_list datum_code };

    ghost view = { λ d. joined d.chunks.value.items };

    ghost invariant = { λ d. d.len ≡ length (joined d.chunks.value.items) };
}

impl Dictionary {
    /// A dictionary of these values.
    pub(crate) fn of(alloc: Global, values: ValueRuns) -> Result<Dictionary, AllocError>
        ensures { IfOk result (λ d. d ≡ values) }
    {
        let len = values.len();
        let weight = values.weight();
        let chunks = extend(alloc, &[], values)?;
        let chunks = Rc::new(alloc, chunks)?;
        Ok(Dictionary {
            chunks,
            len,
            weight,
        })
    }

    /// A dictionary of its values followed by these. It shares most of its values.
    pub(crate) fn extended(
        &self,
        alloc: Global,
        values: ValueRuns,
    ) -> Result<Dictionary, AllocError>
        ensures { IfOk result (λ d. d ≡ self.now ++ values) }
    {
        let len = self.len.checked_add(values.len()).ok_or(AllocError)?;
        let weight = self.weight.saturating_add(values.weight());
        let chunks = extend(alloc, self.chunks.as_ref().as_slice(), values)?;
        let chunks = Rc::new(alloc, chunks)?;
        Ok(Dictionary {
            chunks,
            len,
            weight,
        })
    }

    /// Copies all values.
    #[tactic(auto, using(crate::proofs::GatherLemmas::copying))]
    fn copy_values(&self, alloc: Global) -> Result<Vec<Value>, AllocError>
        ensures { IfOk result (λ values. values.items ≡ self.now) }
    {
        let mut values = Vec::with_capacity(alloc, self.len)?;
        for i in 0..self.len() {
            values.push(self.get(i).unwrap().copy(alloc)?)?;
        }
        Ok(values)
    }

    /// The same dictionary, with copies of its values, which lie in one part, each stored by itself.
    pub(crate) fn gathered(&self, alloc: Global) -> Result<Dictionary, AllocError>
        ensures { IfOk result (λ d. d ≡ self.now) }
    {
        Dictionary::of(alloc, ValueRuns::each(self.copy_values(alloc)?))
    }

    /// The bytes that a copy of each value takes.
    pub(crate) fn weight(&self) -> usize {
        self.weight
    }

    /// The same dictionary, shared. No value is copied.
    pub fn share(&self) -> Result<Dictionary, AllocError>
        ensures { IfOk result (λ d. d ≡ self.now) }
    {
        let len = self.len;
        let weight = self.weight;
        let chunks = self.chunks.clone()?;
        Ok(Dictionary {
            chunks,
            len,
            weight,
        })
    }

    /// The number of values.
    pub fn len(&self) -> usize
        ensures { result ≡ length self.now }
    {
        self.len
    }

    /// Whether there is no value.
    pub fn is_empty(&self) -> bool
        ensures { result ≡ nat_eq (length self.now) 0 }
    {
        self.len == 0
    }

    /// Value `i`, if there are more than `i`. It takes no memory.
    pub fn get(&self, i: usize) -> Option<&Value>
        ensures { option_copied result ≡ slice_get self.now i }
    {
        value_at(self.chunks.as_ref().as_slice(), i)
    }

    /// All values as one slice, which takes one look-up for any number of them; `None` for a dictionary that lies in
    /// several parts, or that stores a repeated value once, whose values `get` finds. It takes no memory.
    pub fn as_slice(&self) -> Option<&[Value]>
        ensures { IfSome result (λ values. values.now ≡ self.now) }
    {
        slice_of(self.chunks.as_ref().as_slice())
    }
}
