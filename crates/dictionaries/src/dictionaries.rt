//! The dictionaries of a stream, by id.

ghost use Rattle.std.specs.Prelude.{◌≡◌, [], IfOk, OnOk, OnErr};
ghost use Rattle.std.specs.Option.{option_copied};
ghost use Rattle.dictionaries.specs.Batches.{batch};
ghost use Rattle.dictionaries.specs.Table.{Changes, Takes, change_of, found, values_in, HasRoom};

use crate::dictionary::Dictionary;
use crate::latest::Latest;
use crate::value_runs::ValueRuns;
use indexmap::IndexMap;
use std::alloc::{AllocError, Global};
use std::marker::Model;

/// The values of the dictionaries of a stream, by id, after its dictionary batches.
///
/// Contracts see a `Table`: the values by id, and the capacity for more ids.
#[derive(Drop)]
pub struct Dicts {
    alloc: Global,
    by_id: IndexMap<i64, Latest>,
}

impl Model for Dicts {
    ghost use Rattle.indexmap.specs.IndexMap.{spare};
    ghost use Rattle.dictionaries.specs.Table.{Table, table, table_code};

    ghost Value = { Table };

    ghost coded = { table_code };

    ghost view = { λ d. table d.by_id.entries (spare d.by_id) };
}

/// A prepared change of one dictionary, with all the memory for it. Contracts see a `Change`: the id and all values
/// that it gets.
#[derive(Drop)]
pub struct Ready {
    id: i64,
    latest: Latest,
}

impl Model for Ready {
    ghost use Rattle.dictionaries.specs.Table.{Change, change, change_code};

    ghost Value = { Change };

    ghost coded = { change_code };

    ghost view = { λ r. change r.id r.latest };
}

impl Dicts {
    /// No dictionaries. It takes no memory.
    pub fn new(alloc: Global) -> Dicts
        ensures { result.entries ≡ [] }
    {
        Dicts {
            alloc,
            by_id: IndexMap::new(alloc),
        }
    }

    /// The dictionary of an id as it is now, if it had a batch. It takes no memory.
    pub fn lookup(&self, id: i64) -> Option<&Dictionary>
        ensures { option_copied result ≡ found self.now id }
    {
        match self.by_id.get(&id) {
            Some(latest) => Some(latest.dictionary()),
            None => None,
        }
    }

    /// The dictionary of an id as it is now, shared: empty where it had no batch.
    pub fn share(&self, id: i64) -> Result<Dictionary, AllocError>
        ensures { IfOk result (λ d. d ≡ values_in self.now id) }
    {
        match self.lookup(id) {
            Some(dictionary) => dictionary.share(),
            None => Dictionary::of(self.alloc, ValueRuns::each(Vec::new(self.alloc))),
        }
    }

    /// Prepares the change that a batch makes, with all the memory for it. No dictionary is changed.
    pub fn prepare(
        &mut self,
        id: i64,
        is_delta: bool,
        values: ValueRuns,
    ) -> Result<Ready, AllocError>
        ensures same { self.new.entries ≡ self.old.entries }
        ensures ready { IfOk result (λ r. r ≡ change_of self.old (batch id is_delta values)) }
        ensures room { OnOk result (HasRoom self.new) }
    {
        let latest = match self.by_id.get(&id) {
            Some(before) if is_delta => before.extended(self.alloc, values)?,
            _ => Latest::of(self.alloc, values)?,
        };
        self.by_id.reserve(1)?;
        Ok(Ready { id, latest })
    }

    /// Makes a prepared change. It takes no memory.
    pub fn commit(&mut self, ready: Ready)
        requires { HasRoom self.old }
        ensures { Changes self.old self.new ready }
    {
        let Ready { id, latest } = ready;
        self.by_id.insert(id, latest).unwrap();
    }

    /// Counts slots of a record batch, as many for each dictionary. A dictionary whose values can't be read as a slice
    /// is gathered into one part, of copies, once there were enough slots to pay for it, if there is memory for it.
    /// Each keeps its values, and one that was handed out stays as it is.
    #[tactic(auto, using(crate::proofs::GatherLemmas::replacing))]
    pub fn count_slots(&mut self, slots: usize)
        ensures { self.new.entries ≡ self.old.entries }
    {
        for i in 0..self.by_id.len() {
            if let Some(latest) = self.by_id.get_index_mut(i) {
                latest.count_slots(self.alloc, slots);
            }
        }
    }

    /// Applies a dictionary batch: `values` replace those of the id, or are added to them if `is_delta`. If memory is
    /// refused no dictionary is changed.
    pub fn apply(&mut self, id: i64, is_delta: bool, values: ValueRuns) -> Result<(), AllocError>
        ensures taken { OnOk result (Takes self.old self.new (batch id is_delta values)) }
        ensures unchanged { OnErr result (self.new.entries ≡ self.old.entries) }
    {
        let ready = self.prepare(id, is_delta, values)?;
        self.commit(ready);
        Ok(())
    }
}
