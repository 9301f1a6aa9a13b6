//! Distinct keys of any kind, each with its position.

ghost use Rattle.std.specs.Prelude.{◌≡◌, [], IfOk, MatchOption, OnErr, Some, option_copied, slice_get, take};
ghost use Rattle.row_keys.specs.KeyTable.{AreApart, Inserts, IsNew};

use indexmap::IndexSet;
use std::alloc::{AllocError, Global};
use std::marker::Model;
use values::{Key, key_law};

/// Distinct keys of any kind, in the order in which they were inserted. Contracts see their list.
#[derive(Drop)]
pub(crate) struct MixedKeys {
    keys: IndexSet<Key>,
}

impl Model for MixedKeys {
    ghost use Rattle.std.specs.Prelude.{List};
    ghost use Rattle.values.specs.declared.key.Key.{Key};
    ghost use Rattle.row_keys.specs.KeyTable.{AreApart, keys_code};

    ghost Value = { List Key };

    ghost coded = { keys_code };

    ghost view = { λ m. m.keys.keys };

    ghost invariant = { λ m. AreApart m.keys.keys };
}

#[tactic(auto, using(crate::proofs::KeyTables::key_tables))]
impl MixedKeys {
    pub(crate) fn new(alloc: Global) -> MixedKeys
        ensures { result ≡ [] }
    {
        MixedKeys {
            keys: IndexSet::new(alloc),
        }
    }

    /// No key is at two positions. It does nothing: its contract is the theorem.
    pub(crate) fn distinct_law(&self)
        ensures { AreApart self.now }
    {
        let _keys = &self.keys;
    }

    /// The position of a key, if it is there.
    pub(crate) fn find(&self, key: &Key) -> Option<usize>
        ensures { MatchOption result (IsNew self.now key.now) (λ p. slice_get self.now p ≡ Some key.now) }
    {
        key_law();
        self.keys.get_index_of(key)
    }

    /// The key at a position.
    pub(crate) fn get(&self, place: usize) -> Option<&Key>
        ensures { option_copied result ≡ slice_get self.now place }
    {
        self.keys.get_index(place)
    }

    /// Adds a key at the end, unless it is there, and returns its position.
    pub(crate) fn insert(&mut self, key: Key) -> Result<usize, AllocError>
        ensures place { IfOk result (λ p. Inserts self.old key p self.new) }
        ensures err { OnErr result (self.new ≡ self.old) }
    {
        key_law();
        let (place, _) = self.keys.insert_full(key)?;
        Ok(place)
    }

    /// Removes all keys but the first `len`. It takes no memory.
    pub(crate) fn truncate(&mut self, len: usize)
        ensures { self.new ≡ take len self.old }
    {
        self.keys.truncate(len);
    }
}
