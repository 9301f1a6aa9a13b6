//! A table of distinct keys, each with its position.

ghost use Rattle.std.specs.Prelude.{◌≡◌, ◌<◌, [], IfOk, MatchOption, OnErr, Some, length, slice_get, take};
ghost use Rattle.row_keys.specs.KeyForms.{keys_in};
ghost use Rattle.row_keys.specs.KeyTable.{AreApart, Inserts, IsNew};

use crate::mixed_keys::MixedKeys;
use crate::number_keys::NumberKeys;
use std::alloc::{AllocError, Global};
use std::marker::Model;
use values::Key;

/// How keys are stored.
#[derive(Drop)]
enum Form {
    /// No keys.
    Empty,
    /// Null, and after it whole numbers of 64 bits.
    Numbers(NumberKeys),
    /// Keys of any kind.
    Mixed(MixedKeys),
}

/// Distinct keys, in the order in which they were inserted. Contracts see their list. They are stored as whole numbers
/// of 64 bits as long as all are such numbers, but for the first, which is null.
#[derive(Drop)]
pub(crate) struct KeyTable {
    form: Form,
    alloc: Global,
}

impl Model for KeyTable {
    ghost use Rattle.std.specs.Prelude.{List};
    ghost use Rattle.values.specs.declared.key.Key.{Key};
    ghost use Rattle.row_keys.specs.KeyForms.{keys_in};
    ghost use Rattle.row_keys.specs.KeyTable.{keys_code};

    ghost Value = { List Key };

    ghost coded = { keys_code };

    ghost view = { λ t. keys_in t.form };
}

/// Adds a key at the end, unless it is there, where the keys are then null and whole numbers of 64 bits, and returns
/// its position; `None` where they aren't. If memory is refused, nothing has changed.
#[tactic(auto, using(crate::proofs::NumberTables::key_forms))]
fn insert_number(form: &mut Form, alloc: Global, key: &Key) -> Result<Option<usize>, AllocError>
    ensures place { IfOk result (λ place. MatchOption place (keys_in form.new ≡ keys_in form.old)
        (λ p. Inserts (keys_in form.old) key.now p (keys_in form.new))) }
    ensures err { OnErr result (keys_in form.new ≡ keys_in form.old) }
{
    match form {
        Form::Numbers(keys) => keys.insert(key),
        Form::Mixed(_keys) => Ok(None),
        Form::Empty => match key {
            Key::Null => {
                *form = Form::Numbers(NumberKeys::new(alloc));
                Ok(Some(0))
            }
            _ => Ok(None),
        },
    }
}

/// Adds a key at the end, unless it is there, where the keys are then of any kind, and returns its position. If memory
/// is refused, nothing has changed.
fn insert_mixed(form: &mut Form, alloc: Global, key: Key) -> Result<usize, AllocError>
    ensures place { IfOk result (λ p. Inserts (keys_in form.old) key p (keys_in form.new)) }
    ensures err { OnErr result (keys_in form.new ≡ keys_in form.old) }
{
    let mut mixed = match form {
        Form::Mixed(keys) => return keys.insert(key),
        Form::Numbers(keys) => keys.to_mixed(alloc)?,
        Form::Empty => MixedKeys::new(alloc),
    };
    let place = mixed.insert(key)?;
    *form = Form::Mixed(mixed);
    Ok(place)
}

/// Removes all keys but the first `len`. It takes no memory.
#[tactic(auto, using(crate::proofs::NumberTables::key_forms))]
fn truncate(form: &mut Form, len: usize)
    ensures { keys_in form.new ≡ take len (keys_in form.old) }
{
    if len == 0 {
        *form = Form::Empty;
        return;
    }
    match form {
        Form::Empty => {}
        Form::Numbers(keys) => keys.truncate(len),
        Form::Mixed(keys) => keys.truncate(len),
    }
}

#[tactic(auto, using(crate::proofs::NumberTables::key_forms))]
impl KeyTable {
    pub(crate) fn new(alloc: Global) -> KeyTable
        ensures { result ≡ [] }
    {
        KeyTable {
            form: Form::Empty,
            alloc,
        }
    }

    /// No key is at two positions. It does nothing: its contract is the theorem.
    pub(crate) fn distinct_law(&self)
        ensures { AreApart self.now }
    {
        match &self.form {
            Form::Empty => {}
            Form::Numbers(keys) => keys.distinct_law(),
            Form::Mixed(keys) => keys.distinct_law(),
        }
    }

    /// The position of a key, if it is there.
    pub(crate) fn find(&self, key: &Key) -> Option<usize>
        ensures { MatchOption result (IsNew self.now key.now) (λ p. slice_get self.now p ≡ Some key.now) }
    {
        match &self.form {
            Form::Empty => None,
            Form::Numbers(keys) => keys.find(key),
            Form::Mixed(keys) => keys.find(key),
        }
    }

    /// A copy of the key at a position.
    pub(crate) fn key_at(&self, alloc: Global, place: usize) -> Result<Key, AllocError>
        requires { place < length self.now }
        ensures { IfOk result (λ key. slice_get self.now place ≡ Some key) }
    {
        match &self.form {
            Form::Empty => Ok(Key::Null),
            Form::Numbers(keys) => Ok(keys.key_at(place)),
            Form::Mixed(keys) => keys.get(place).unwrap().copy(alloc),
        }
    }

    /// Adds a key at the end, unless it is there, and returns its position.
    pub(crate) fn insert(&mut self, key: Key) -> Result<usize, AllocError>
        ensures place { IfOk result (λ p. Inserts self.old key p self.new) }
        ensures err { OnErr result (self.new ≡ self.old) }
    {
        if let Some(place) = insert_number(&mut self.form, self.alloc, &key)? {
            return Ok(place);
        }
        insert_mixed(&mut self.form, self.alloc, key)
    }

    /// Removes all keys but the first `len`. It takes no memory.
    pub(crate) fn truncate(&mut self, len: usize)
        ensures { self.new ≡ take len self.old }
    {
        truncate(&mut self.form, len);
    }
}
