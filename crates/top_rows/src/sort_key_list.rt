//! Sort keys of rows.

ghost use Rattle.std.specs.Prelude.{◌≡◌, [], ◌∷◌, IfOk, List, MatchOption};
ghost use Rattle.top_rows.specs.InlineKeys.{IsListed, cmp_in, inline_cmp, listed};
ghost use Rattle.top_rows.specs.Ranks.{IsRank};
ghost use Rattle.top_rows.specs.ShortEntries.{AreShort, sort_keys_of_one};
ghost use Rattle.top_rows.specs.SortKeys.{sort_keys_of};
ghost use Rattle.top_rows.specs.declared.sort_key.SortKey.{SortKey as SortKeys};

use crate::inline_kind::InlineKind;
use crate::short_key::ShortKey;
use crate::sort_key::SortKey;
use key_ranks::{KEY_RANKS, key_rank};
use std::alloc::{AllocError, Global};
use std::cmp::{Ordering, Reverse};
use std::marker::Model;
use values::Key;
use view_lang::{OrderBy, RowView};

/// The sort keys of a row, one for each of an order's columns. The first two are stored inline. Contracts see the list
/// of all.
#[derive(Debug, Drop)]
pub struct SortKeyList {
    first: Key,
    second: Key,
    others: Vec<SortKey>,
    first_kind: InlineKind,
    second_kind: InlineKind,
}

impl Model for SortKeyList {
    ghost use Rattle.std.specs.Prelude.{List};
    ghost use Rattle.top_rows.specs.InlineKeys.{IsListed, listed};
    ghost use Rattle.top_rows.specs.declared.sort_key.SortKey.{SortKey};

    ghost Value = { List SortKey };

    ghost view = { λ l. listed l.first_kind l.first (listed l.second_kind l.second l.others.items) };

    ghost invariant = { λ l. IsListed l.first_kind l.first (listed l.second_kind l.second l.others.items)
        × IsListed l.second_kind l.second l.others.items };
}

impl PartialEq for SortKeyList {
    ghost use Rattle.std.specs.Cmp.{eq_by_cmp_equiv, partial_equiv_from_equiv};
    ghost use Rattle.std.specs.Ordering.{eq_by_cmp};
    ghost use Rattle.top_rows.specs.EntryOrder.{sort_keys_cmp, sort_keys_total};

    ghost eq = { eq_by_cmp sort_keys_cmp };

    ghost laws = { partial_equiv_from_equiv (eq_by_cmp_equiv sort_keys_total) };

    fn eq(&self, other: &SortKeyList) -> bool {
        matches!(self.cmp(other), Ordering::Equal)
    }
}

impl Eq for SortKeyList {
    ghost use Rattle.std.specs.Cmp.{eq_by_cmp_equiv};
    ghost use Rattle.top_rows.specs.EntryOrder.{sort_keys_total};

    ghost laws = { eq_by_cmp_equiv sort_keys_total };
}

impl PartialOrd for SortKeyList {
    ghost use Rattle.std.specs.Cmp.{partial_order_from_total};
    ghost use Rattle.std.specs.Ordering.{as_partial_cmp};
    ghost use Rattle.top_rows.specs.EntryOrder.{sort_keys_cmp, sort_keys_total};

    ghost partial_cmp = { as_partial_cmp sort_keys_cmp };

    ghost laws = { partial_order_from_total sort_keys_total };

    fn partial_cmp(&self, other: &SortKeyList) -> Option<Ordering> {
        Some(self.cmp(other))
    }
}

#[tactic(auto, using(crate::proofs::InlineKeys::listed_cmp))]
impl Ord for SortKeyList {
    ghost use Rattle.std.specs.Prelude.{refl};
    ghost use Rattle.top_rows.specs.EntryOrder.{sort_keys_cmp, sort_keys_total};

    ghost cmp = { sort_keys_cmp };

    ghost total = { sort_keys_total };

    ghost matches_partial_cmp = { λ x y. refl };

    ghost matches_eq = { λ x y. refl };

    fn cmp(&self, other: &SortKeyList) -> Ordering {
        let first = cmp_inline(self.first_kind, &self.first, other.first_kind, &other.first);
        if first != Ordering::Equal {
            return first;
        }
        let second = cmp_inline(
            self.second_kind,
            &self.second,
            other.second_kind,
            &other.second,
        );
        match second {
            Ordering::Equal => self.others.cmp(&other.others),
            unlike => unlike,
        }
    }
}

impl SortKeyList {
    /// The sort keys of a row in an order.
    pub fn of<R: RowView>(
        alloc: Global,
        order: &[OrderBy],
        row: &R,
    ) -> Result<SortKeyList, AllocError>
        ensures { IfOk result (λ keys. keys ≡ sort_keys_of order.now (R.cells row.now)) }
    {
        let Some((by, further)) = order.split_first() else {
            return Ok(SortKeyList::empty(alloc));
        };
        let first = SortKey::of(alloc, row, by)?;
        let Some((by, further)) = further.split_first() else {
            return Ok(SortKeyList::of_one(alloc, first));
        };
        let second = SortKey::of(alloc, row, by)?;
        let others = each_key(alloc, further, row)?;
        Ok(SortKeyList::with_two(first, second, others))
    }

    /// The sort keys in a list. The list's memory is freed, unless there are more than two.
    pub fn from_list(alloc: Global, keys: Vec<SortKey>) -> SortKeyList
        ensures { result ≡ keys.items }
    {
        let mut others = keys;
        if others.is_empty() {
            return SortKeyList::empty(alloc);
        }
        let first = others.remove(0);
        if others.is_empty() {
            return SortKeyList::of_one(alloc, first);
        }
        let second = others.remove(0);
        if others.is_empty() {
            others = Vec::new(alloc);
        }
        SortKeyList::with_two(first, second, others)
    }

    /// The list of them. If memory is refused, they are lost.
    pub fn into_list(self) -> Result<Vec<SortKey>, AllocError>
        ensures { IfOk result (λ keys. keys.items ≡ self) }
    {
        let mut keys = self.others;
        keys.reserve_exact(2)?;
        if let Some(second) = joined(self.second_kind, self.second) {
            keys.insert(0, second)?;
        }
        if let Some(first) = joined(self.first_kind, self.first) {
            keys.insert(0, first)?;
        }
        Ok(keys)
    }

    /// Their rank: lists of different ranks are ordered by these.
    pub fn rank(&self) -> u64
        ensures { IsRank self.now result }
    {
        match self.first_kind {
            InlineKind::NoKey => 0,
            InlineKind::Ascending => key_rank(&self.first),
            InlineKind::Descending => 2 * KEY_RANKS - 1 - key_rank(&self.first),
            InlineKind::Missing => 2 * KEY_RANKS,
        }
    }

    fn empty(alloc: Global) -> SortKeyList
        ensures { result ≡ [] }
    {
        SortKeyList {
            first: Key::Null,
            second: Key::Null,
            others: Vec::new(alloc),
            first_kind: InlineKind::NoKey,
            second_kind: InlineKind::NoKey,
        }
    }

    /// The short key that stands for them, if there is one sort key and it is short.
    pub fn short(&self) -> Option<ShortKey>
        ensures { MatchOption result (AreShort 1 self.now → ⊥) (λ key. self.now ≡ sort_keys_of_one key) }
    {
        match self.second_kind {
            InlineKind::NoKey => ShortKey::of_kind(self.first_kind, &self.first),
            _ => None,
        }
    }

    /// The list of the sort key that a short one stands for.
    pub fn of_short(alloc: Global, key: &ShortKey) -> Result<SortKeyList, AllocError>
        ensures { IfOk result (λ keys. keys ≡ sort_keys_of_one key.now) }
    {
        Ok(SortKeyList::of_one(alloc, key.widened(alloc)?))
    }

    /// The list of one sort key.
    pub(crate) fn of_one(alloc: Global, first: SortKey) -> SortKeyList
        ensures { result ≡ first ∷ [] }
    {
        let (first_kind, first) = parted(first);
        SortKeyList {
            first,
            second: Key::Null,
            others: Vec::new(alloc),
            first_kind,
            second_kind: InlineKind::NoKey,
        }
    }

    /// The list of two sort keys and others.
    pub(crate) fn with_two(first: SortKey, second: SortKey, others: Vec<SortKey>) -> SortKeyList
        ensures { result ≡ first ∷ second ∷ others.items }
    {
        let (first_kind, first) = parted(first);
        let (second_kind, second) = parted(second);
        SortKeyList {
            first,
            second,
            others,
            first_kind,
            second_kind,
        }
    }
}

/// A sort key as its kind and its key.
fn parted(sort_key: SortKey) -> (InlineKind, Key)
    ensures listed { (others : List SortKeys) → listed result.0 result.1 others ≡ sort_key ∷ others }
    ensures given { (others : List SortKeys) → IsListed result.0 result.1 others }
{
    match sort_key {
        SortKey::Ascending(key) => (InlineKind::Ascending, key),
        SortKey::Descending(key) => (InlineKind::Descending, key.0),
        SortKey::Missing => (InlineKind::Missing, Key::Null),
    }
}

/// The sort key of a kind and a key, if there is one.
fn joined(kind: InlineKind, key: Key) -> Option<SortKey>
    ensures { MatchOption result ((others : List SortKeys) → listed kind key others ≡ others)
        (λ sort_key. (others : List SortKeys) → listed kind key others ≡ sort_key ∷ others) }
{
    match kind {
        InlineKind::NoKey => None,
        InlineKind::Ascending => Some(SortKey::Ascending(key)),
        InlineKind::Descending => Some(SortKey::Descending(Reverse(key))),
        InlineKind::Missing => Some(SortKey::Missing),
    }
}

fn each_key<R: RowView>(
    alloc: Global,
    order: &[OrderBy],
    row: &R,
) -> Result<Vec<SortKey>, AllocError>
    ensures { IfOk result (λ keys. keys.items ≡ sort_keys_of order.now (R.cells row.now)) }
{
    let mut keys = Vec::with_capacity(alloc, order.len())?;
    for by in order {
        keys.push(SortKey::of(alloc, row, by)?)?;
    }
    Ok(keys)
}

fn cmp_keys(kind: InlineKind, first: &Key, second: &Key) -> Ordering
    ensures { result ≡ cmp_in kind first.now second.now }
{
    match kind {
        InlineKind::Descending => second.cmp(first),
        _ => first.cmp(second),
    }
}

/// The order of two sort keys, by their kinds and keys.
fn cmp_inline(kind: InlineKind, key: &Key, other_kind: InlineKind, other: &Key) -> Ordering
    ensures { result ≡ inline_cmp kind key.now other_kind other.now }
{
    kind.cmp(&other_kind).then(cmp_keys(kind, key, other))
}
