//! Grouping tuples.

ghost use Rattle.std.specs.Prelude.{◌≡◌, ◌≤◌, ◌∷◌, All, IfOk, MatchOption, [], Some, length, slice_get};
ghost use Rattle.values.specs.CellViews.{shallow, viewed};
ghost use Rattle.view_lang.specs.Cells.{cell_at};
ghost use Rattle.group_state.specs.Moves.{begins_with};
ghost use Rattle.group_state.specs.Keys.{data_of, key_in, tuple_cmp};
ghost use Rattle.group_state.specs.Rows.{cell};
ghost use Rattle.group_state.specs.TupleKeys.{IsTupleRank, keys_in, rank_in};
ghost use Rattle.group_state.specs.Tuples.{tuple_of};

use crate::cells::no_value;
use crate::row_cells::key_at;
use key_ranks::{RankedKey, key_rank};
use std::alloc::{AllocError, Global};
use std::cmp::Ordering;
use std::marker::Model;
use values::{CellView, Key, Value};
use view_lang::RowView;

/// One key inline, or any number of them in one allocation, after the rank of the first key, which is 0 where there is
/// none. In a variant the rank takes no space of its own.
#[derive(Debug, Drop)]
enum TupleKeys {
    One(u64, Key),
    Many(u64, Vec<RankedKey>),
}

/// A grouping tuple: the keys of a row's cells in the grouping columns, in order, with the rank of the first, by which
/// most tuples are told apart. That of one column takes no memory but what its key takes. Contracts see the list of
/// keys.
#[derive(Debug, Drop)]
pub struct Tuple {
    keys: TupleKeys,
}

impl Model for Tuple {
    ghost use Rattle.group_state.specs.TupleKeys.{IsTupleRank, keys_in, rank_in};
    ghost use Rattle.std.specs.Prelude.{List};
    ghost use Rattle.values.specs.declared.key.Key.{Key};

    ghost Value = { List Key };

    ghost view = { λ t. keys_in t.keys };

    ghost invariant = { λ t. IsTupleRank (keys_in t.keys) (rank_in t.keys) };
}

impl PartialEq for Tuple {
    ghost use Rattle.std.specs.Cmp.{eq_by_cmp_equiv, partial_equiv_from_equiv};
    ghost use Rattle.std.specs.Ordering.{eq_by_cmp};
    ghost use Rattle.group_state.specs.Keys.{tuple_cmp, tuple_total};

    ghost eq = { eq_by_cmp tuple_cmp };

    ghost laws = { partial_equiv_from_equiv (eq_by_cmp_equiv tuple_total) };

    fn eq(&self, other: &Tuple) -> bool {
        matches!(self.cmp(other), Ordering::Equal)
    }
}

impl Eq for Tuple {
    ghost use Rattle.std.specs.Cmp.{eq_by_cmp_equiv};
    ghost use Rattle.group_state.specs.Keys.{tuple_total};

    ghost laws = { eq_by_cmp_equiv tuple_total };
}

impl PartialOrd for Tuple {
    ghost use Rattle.std.specs.Cmp.{partial_order_from_total};
    ghost use Rattle.std.specs.Ordering.{as_partial_cmp};
    ghost use Rattle.group_state.specs.Keys.{tuple_cmp, tuple_total};

    ghost partial_cmp = { as_partial_cmp tuple_cmp };

    ghost laws = { partial_order_from_total tuple_total };

    fn partial_cmp(&self, other: &Tuple) -> Option<Ordering> {
        Some(self.cmp(other))
    }
}

impl Ord for Tuple {
    ghost use Rattle.std.specs.Prelude.{refl};
    ghost use Rattle.group_state.specs.Keys.{tuple_cmp, tuple_total};

    ghost cmp = { tuple_cmp };

    ghost total = { tuple_total };

    ghost matches_partial_cmp = { λ x y. refl };

    ghost matches_eq = { λ x y. refl };

    fn cmp(&self, other: &Tuple) -> Ordering {
        let rank = rank_in(&self.keys);
        let other_rank = rank_in(&other.keys);
        if rank > other_rank {
            return Ordering::Greater;
        }
        if rank < other_rank {
            return Ordering::Less;
        }
        cmp_keys(&self.keys, &other.keys)
    }
}

impl Tuple {
    /// The tuple of a row.
    pub(crate) fn of<R: RowView>(
        alloc: Global,
        columns: &[usize],
        row: &R,
    ) -> Result<Tuple, AllocError>
        ensures { IfOk result (λ t. t ≡ tuple_of columns.now (R.cells row.now)) }
    {
        let Some((first, others)) = columns.split_first() else {
            return Ok(Tuple::none(alloc));
        };
        if others.is_empty() {
            let key = key_or_null(alloc, row, *first)?;
            return Ok(Tuple::one(key));
        }
        let keys = each_key(alloc, columns, row)?;
        Ok(Tuple::many(keys))
    }

    /// Its keys, with memory of their own.
    pub fn into_keys(self, alloc: Global) -> Result<Vec<Key>, AllocError>
        ensures { IfOk result (λ keys. keys.items ≡ self) }
    {
        match self.keys {
            TupleKeys::One(_, key) => Ok(Vec::from_array(alloc, [key])?),
            TupleKeys::Many(_, keys) => Ok(keys_of(alloc, keys)?),
        }
    }

    /// The tuple of these keys.
    pub fn from_keys(alloc: Global, keys: Vec<Key>) -> Result<Tuple, AllocError>
        ensures { IfOk result (λ t. t ≡ keys.items) }
    {
        let mut others = keys;
        if others.len() != 1 {
            return Ok(Tuple::many(ranked(alloc, others)?));
        }
        Ok(Tuple::one(others.remove(0)))
    }

    /// A copy of it.
    pub fn copy(&self, alloc: Global) -> Result<Tuple, AllocError>
        ensures { IfOk result (λ t. t ≡ self.now) }
    {
        let keys = match &self.keys {
            TupleKeys::One(rank, key) => TupleKeys::One(*rank, key.copy(alloc)?),
            TupleKeys::Many(rank, keys) => {
                TupleKeys::Many(*rank, copies_of(alloc, keys.as_slice())?)
            }
        };
        Ok(Tuple { keys })
    }

    /// Key `k`, if there is one.
    fn key(&self, k: usize) -> Option<&Key>
        ensures { MatchOption result (length self.now ≤ k) (λ key. slice_get self.now k ≡ Some key.now) }
    {
        match &self.keys {
            TupleKeys::One(_, key) if k == 0 => Some(key),
            TupleKeys::One(_, _) => None,
            TupleKeys::Many(_, keys) => Some(keys.get(k)?.key()),
        }
    }

    /// How many values it has.
    pub fn len(&self) -> usize
        ensures { result ≡ length self.now }
    {
        match &self.keys {
            TupleKeys::One(_, _) => 1,
            TupleKeys::Many(_, keys) => keys.len(),
        }
    }

    /// The tuple of one column.
    pub(crate) fn one(key: Key) -> Tuple
        ensures { result ≡ key ∷ [] }
    {
        Tuple {
            keys: TupleKeys::One(key_rank(&key), key),
        }
    }

    fn many(keys: Vec<RankedKey>) -> Tuple
        ensures { result ≡ keys.items }
    {
        Tuple {
            keys: TupleKeys::Many(first_rank(&keys), keys),
        }
    }

    /// Whether its first value is this key.
    pub(crate) fn begins_with(&self, key: &Key) -> bool
        ensures { result ≡ begins_with key.now self.now }
    {
        match self.key(0) {
            Some(first) => key.cmp(first).is_eq(),
            None => false,
        }
    }

    /// The tuple of no columns.
    pub(crate) fn none(alloc: Global) -> Tuple
        ensures { result ≡ [] }
    {
        Tuple::many(Vec::new(alloc))
    }

    /// The value at index `k` where it lies; null where there is none.
    pub fn view(&self, k: usize) -> CellView<'_>
        ensures { viewed result ≡ shallow (cell_at (data_of self.now) k) }
    {
        match self.key(k) {
            Some(key) => key.view(),
            None => CellView::Null,
        }
    }

    /// A copy of the value at index `k`; null where there is none.
    pub fn cell(&self, alloc: Global, k: usize) -> Result<Value, AllocError>
        ensures { IfOk result (λ cell. cell ≡ cell_at (data_of self.now) k) }
    {
        match self.key(k) {
            Some(key) => Ok(key.value(alloc)?),
            None => Ok(no_value()),
        }
    }
}

/// The rank that keys have with them.
#[inline(always)]
fn rank_in(keys: &TupleKeys) -> u64
    ensures { result ≡ rank_in keys.now }
{
    match keys {
        TupleKeys::One(rank, _) => *rank,
        TupleKeys::Many(rank, _) => *rank,
    }
}

/// The rank of the first of these keys; 0 where there is none.
fn first_rank(keys: &[RankedKey]) -> u64
    ensures { IsTupleRank keys.now result }
{
    match keys.first() {
        Some(first) => key_rank(first.key()),
        None => 0,
    }
}

/// Compares the tuple of one key with that of these.
fn cmp_one(key: &Key, others: &[RankedKey]) -> Ordering
    ensures { result ≡ tuple_cmp (key.now ∷ []) others.now }
{
    let Some((first, rest)) = others.split_first() else {
        return Ordering::Greater;
    };
    match key.cmp(first.key()) {
        Ordering::Equal if rest.is_empty() => Ordering::Equal,
        Ordering::Equal => Ordering::Less,
        unlike => unlike,
    }
}

/// Compares tuples key by key.
fn cmp_keys(keys: &TupleKeys, others: &TupleKeys) -> Ordering
    ensures { result ≡ tuple_cmp (keys_in keys.now) (keys_in others.now) }
{
    match (keys, others) {
        (TupleKeys::One(_, key), TupleKeys::One(_, other)) => key.cmp(other),
        (TupleKeys::Many(_, keys), TupleKeys::Many(_, others)) => keys.cmp(others),
        (TupleKeys::One(_, key), TupleKeys::Many(_, others)) => cmp_one(key, others),
        (TupleKeys::Many(_, keys), TupleKeys::One(_, other)) => cmp_one(other, keys).reverse(),
    }
}

/// The keys of a row's cells in some columns.
fn each_key<R: RowView>(
    alloc: Global,
    columns: &[usize],
    row: &R,
) -> Result<Vec<RankedKey>, AllocError>
    ensures { IfOk result (λ keys. keys.items ≡ tuple_of columns.now (R.cells row.now)) }
{
    let mut keys = Vec::with_capacity(alloc, columns.len())?;
    for column in columns {
        keys.push(RankedKey::new(key_or_null(alloc, row, *column)?))?;
    }
    Ok(keys)
}

/// The keys without their ranks.
fn keys_of(alloc: Global, ranked: Vec<RankedKey>) -> Result<Vec<Key>, AllocError>
    ensures { IfOk result (λ keys. keys.items ≡ ranked.items) }
{
    let mut keys = Vec::with_capacity(alloc, ranked.len())?;
    for key in ranked {
        keys.push(key.into_key())?;
    }
    Ok(keys)
}

/// The keys with their ranks.
fn ranked(alloc: Global, keys: Vec<Key>) -> Result<Vec<RankedKey>, AllocError>
    ensures { IfOk result (λ ranked. ranked.items ≡ keys.items) }
{
    let mut ranked = Vec::with_capacity(alloc, keys.len())?;
    for key in keys {
        ranked.push(RankedKey::new(key))?;
    }
    Ok(ranked)
}

fn copies_of(alloc: Global, keys: &[RankedKey]) -> Result<Vec<RankedKey>, AllocError>
    ensures { IfOk result (λ copies. copies.items ≡ keys.now) }
{
    let mut copies = Vec::with_capacity(alloc, keys.len())?;
    for key in keys {
        copies.push(key.copy(alloc)?)?;
    }
    Ok(copies)
}

/// The key of a row's cell; that of a null where it is a list or a struct.
fn key_or_null<R: RowView>(alloc: Global, row: &R, column: usize) -> Result<Key, AllocError>
    ensures { IfOk result (λ k. k ≡ key_in (cell column (R.cells row.now))) }
{
    Ok(key_at(alloc, row, column)?.unwrap_or(Key::Null))
}
