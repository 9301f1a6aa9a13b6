//! Bounds on the weights of an array's cells, found without weighing each of them.
//!
//! A bound may be too large. No buffer is read more than once.

ghost use Rattle.std.specs.Prelude.{◌≡◌, ℕ, ◌+◌, ◌*◌, ◌<◌, ◌≤◌, None, length, get_or};
ghost use Rattle.values.specs.Limits.{max_cell_weight};
ghost use Rattle.values.specs.Rose.{node, none, kids_of};
ghost use Rattle.values.specs.Datum.{null};
ghost use Rattle.values.specs.declared.layout.Layout.TheVariants.{List as Listed, Struct};
ghost use Rattle.values.specs.Layouts.{null_weight, null_weights, offset_bytes, weight};
ghost use Rattle.array_layout.specs.Placing.{bytes_of, layout_of, layouts_of};
ghost use Rattle.array_layout.specs.Sound.{LiesIn, IsSound, AreSound, AreLong};
ghost use Rattle.array_layout.specs.Buffers.{offset_at};
ghost use Rattle.array_layout.specs.Cells.{len_of};
ghost use Rattle.arrays.specs.Encoded.{HasIndex};
ghost use Rattle.arrays.specs.Bounds.{IsBound};
ghost use Rattle.arrays.specs.Weights.{
  extent,
  indexed_weight,
  list_weight,
  value_weight,
  weight_at,
  weight_beside,
};

use crate::uniform::is_fixed;
use crate::validate::items_array;
use crate::weigh::{cap, null_weight_of, weigh_alike, weigh_encoded};
use array_layout::{Array, ArrayData, DictionaryValues, buffer, offset};
use values::{Layout, OffsetWidth};

/// The most bytes or items that one of the first `count` slots has.
fn longest_extent(offsets: &[u8], width: OffsetWidth, count: usize) -> usize
    requires room { 0 < count → offset_bytes width * (count + 1) ≤ length offsets.now }
    requires rising { (i : ℕ) → i < count → offset_at width offsets.now i ≤ offset_at width offsets.now (i + 1) }
    ensures { (i : ℕ) → i < count → extent width offsets.now i ≤ result }
{
    if count == 0 {
        return 0;
    }
    let mut longest = 0;
    let mut start = offset(offsets, width, 0);
    for i in 0..count {
        let end = offset(offsets, width, i + 1);
        longest = longest.max(end - start);
        start = end;
    }
    longest
}

/// A bound for slots of as many bytes or items as their offsets say, each of which weighs at most `weight`.
fn extents_bound(body: &[u8], own: &ArrayData, width: OffsetWidth, weight: u64) -> u64
    requires offsets { LiesIn body.now own.now.offsets }
    requires room { 0 < own.now.len
        → offset_bytes width * (own.now.len + 1) ≤ length (bytes_of body.now own.now.offsets) }
    requires rising { (i : ℕ) → i < own.now.len
        → offset_at width (bytes_of body.now own.now.offsets) i
        ≤ offset_at width (bytes_of body.now own.now.offsets) (i + 1) }
    ensures value { IsBound result 5 own.now.len
        (λ i. 5 + weight * extent width (bytes_of body.now own.now.offsets) i) }
    ensures bound { result ≤ max_cell_weight + 1 }
{
    weigh_alike(
        weight,
        longest_extent(buffer(body, &own.offsets), width, own.len),
    )
}

/// The weight of the heaviest value.
fn heaviest_value(dictionary: &DictionaryValues) -> u64
    ensures value { IsBound result (null_weight (node dictionary.now.layout none)) (length dictionary.now.values)
        (λ k. weight (node dictionary.now.layout none) (get_or dictionary.now.values k null)) }
    ensures bound { result ≤ max_cell_weight + 1 }
{
    let mut most = cap(dictionary.layout.own_null_weight());
    for k in 0..dictionary.values.len() {
        let value = dictionary.values.get(k).unwrap();
        most = most.max(cap(dictionary.layout.own_weight(value)));
    }
    most
}

/// The weight of the heaviest of the slots' values.
fn heaviest_slot(body: &[u8], own: &ArrayData, dictionary: &DictionaryValues) -> u64
    requires lies { LiesIn body.now own.now.values }
    requires room { (i : ℕ) → i < own.now.len → HasIndex own.now.layout own.now i }
    ensures value { IsBound result (null_weight (node dictionary.now.layout none)) own.now.len
        (indexed_weight dictionary.now body.now own.now) }
    ensures bound { result ≤ max_cell_weight + 1 }
{
    let mut most = cap(dictionary.layout.own_null_weight());
    for i in 0..own.len {
        most = most.max(weigh_encoded(body, own, dictionary, i));
    }
    most
}

/// A bound for slots that are indices into a dictionary. It reads the values or the slots, whichever are fewer.
fn encoded_bound(body: &[u8], own: &ArrayData, dictionary: &DictionaryValues) -> u64
    requires lies { LiesIn body.now own.now.values }
    requires room { (i : ℕ) → i < own.now.len → HasIndex own.now.layout own.now i }
    ensures value { IsBound result (null_weight (node dictionary.now.layout none)) own.now.len
        (indexed_weight dictionary.now body.now own.now) }
    ensures bound { result ≤ max_cell_weight + 1 }
{
    if is_fixed(dictionary.layout) {
        return cap(dictionary.layout.own_null_weight());
    }
    if dictionary.values.len() <= own.len {
        heaviest_value(dictionary)
    } else {
        heaviest_slot(body, own, dictionary)
    }
}

/// An upper bound on the weights of the array's cells.
#[cycle(bound)]
pub(crate) fn weight_bound(body: &[u8], array: &Array) -> u64
    requires { IsSound body.now array.now }
    ensures value { IsBound result (null_weight (layout_of array.now)) (len_of array.now)
        (weight_at body.now array.now) }
    ensures bound { result ≤ max_cell_weight + 1 }
{
    own_bound(body, &array.own, &array.children)
}

#[cycle(bound)]
#[tactic(auto, using(crate::proofs::BoundLemmas::own_laws))]
fn own_bound(body: &[u8], own: &ArrayData, children: &[Array]) -> u64
    requires { IsSound body.now (node own.now (kids_of children.now)) }
    ensures value { IsBound result (null_weight (layout_of (node own.now (kids_of children.now)))) own.now.len
        (weight_at body.now (node own.now (kids_of children.now))) }
    ensures bound { result ≤ max_cell_weight + 1 }
{
    match &own.dictionary {
        Some(dictionary) => {
            let null = null_weight_of(dictionary.layout, children);
            null.max(encoded_bound(body, own, dictionary))
        }
        None => value_bound(body, own, children),
    }
}

/// A bound for the valid slots of an array without a dictionary, and for its nulls.
#[cycle(bound)]
#[tactic(auto, using(crate::proofs::BoundLemmas::value_laws))]
fn value_bound(body: &[u8], own: &ArrayData, children: &[Array]) -> u64
    requires { IsSound body.now (node own.now (kids_of children.now)) }
    ensures value { IsBound result (null_weight (node own.now.layout (layouts_of (kids_of children.now)))) own.now.len
        (λ i. value_weight body.now own.now (kids_of children.now) i) }
    ensures bound { result ≤ max_cell_weight + 1 }
{
    match own.layout {
        Layout::Bool
        | Layout::Int { .. }
        | Layout::Decimal { .. }
        | Layout::FixedSizeBinary { .. } => null_weight_of(own.layout, children),
        Layout::Utf8 { offsets } | Layout::Binary { offsets } => extents_bound(
            body, own, offsets, 1,
        ),
        Layout::List { offsets } => list_bound(body, own, children, offsets),
        Layout::Struct => row_bound(body, children, own.len),
    }
}

/// A bound for lists: as if the longest list had only items that weigh as much as the heaviest.
#[cycle(bound)]
#[tactic(auto, using(crate::proofs::BoundLemmas::list_laws))]
fn list_bound(body: &[u8], own: &ArrayData, children: &[Array], width: OffsetWidth) -> u64
    requires sound { IsSound body.now (node own.now (kids_of children.now)) }
    requires listed { own.now.layout ≡ Listed width }
    ensures value { IsBound result 5 own.now.len (λ i. list_weight width body.now own.now (kids_of children.now) i) }
    ensures bound { result ≤ max_cell_weight + 1 }
{
    let items = items_array(children);
    extents_bound(body, own, width, weight_bound(body, items))
}

/// A bound for structs: as if the heaviest cells of all children were in one slot.
#[cycle(bound)]
#[tactic(auto, using(crate::proofs::BoundLemmas::row_laws))]
fn row_bound(body: &[u8], children: &[Array], count: usize) -> u64
    requires sound { AreSound body.now (kids_of children.now) }
    requires long { AreLong Struct count (kids_of children.now) }
    ensures value { IsBound result (1 + null_weights (layouts_of (kids_of children.now))) count
        (λ i. 1 + weight_beside body.now (kids_of children.now) i) }
    ensures bound { result ≤ max_cell_weight + 1 }
{
    let mut sum = cap(1);
    for child in children {
        sum = cap(sum + weight_bound(body, child));
    }
    sum
}
