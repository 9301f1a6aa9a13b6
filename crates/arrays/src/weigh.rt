//! Weights of cells, computed in place without copying a cell.

ghost use Rattle.std.specs.Prelude.{◌≡◌, ◌+◌, ◌-◌, ◌*◌, ◌<◌, ◌≤◌};
ghost use Rattle.values.specs.Limits.{max_cell_weight};
ghost use Rattle.values.specs.Rose.{node, kids_of};
ghost use Rattle.values.specs.declared.layout.Layout.TheVariants.{List as Listed, Struct};
ghost use Rattle.values.specs.Layouts.{null_weight, null_weights, weight};
ghost use Rattle.array_layout.specs.Placing.{bytes_of, layout_by, layout_of, layouts_of};
ghost use Rattle.array_layout.specs.Sound.{LiesIn, AreFit, IsSound, AreSound, AreLong};
ghost use Rattle.array_layout.specs.Cells.{coded_by, len_of};
ghost use Rattle.arrays.specs.Encoded.{HasIndex};
ghost use Rattle.arrays.specs.Weights.{
  capped,
  encoded_weight,
  extent,
  list_weight,
  sum_from,
  value_weight,
  weight_at,
  weight_beside,
};

use crate::dictionary::find_value;
use crate::slots::is_null_slot;
use crate::uniform::is_uniform;
use crate::validate::items_array;
use array_layout::{Array, ArrayData, DictionaryValues, buffer, offset};
use values::limits::MAX_CELL_WEIGHT;
use values::{Layout, OffsetWidth};

/// One more than the limit of a cell's weight. Weights above the limit are represented by this.
const TOO_HEAVY: u64 = MAX_CELL_WEIGHT + 1;

#[tactic(auto, unfolding(crate::specs::Weights::capped))]
pub(crate) fn cap(weight: u64) -> u64
    ensures value { result ≡ capped weight }
    ensures bound { result ≤ max_cell_weight + 1 }
{
    if weight < TOO_HEAVY {
        weight
    } else {
        TOO_HEAVY
    }
}

/// The layout of the array's values: those of its dictionary, where it has one.
fn value_layout(own: &ArrayData) -> Layout
    ensures { result ≡ layout_by own.now.dictionary own.now.layout }
{
    match &own.dictionary {
        Some(dictionary) => dictionary.layout,
        None => own.layout,
    }
}

/// The weight of a null.
#[cycle(null_weight)]
fn null_weight(array: &Array) -> u64
    ensures value { result ≡ capped (null_weight (layout_of array.now)) }
    ensures bound { result ≤ max_cell_weight + 1 }
{
    null_weight_of(value_layout(&array.own), &array.children)
}

#[cycle(null_weight)]
#[tactic(auto, using(crate::proofs::WeightLemmas::own_laws))]
pub(crate) fn null_weight_of(layout: Layout, children: &[Array]) -> u64
    ensures value { result ≡ capped (null_weight (node layout (layouts_of (kids_of children.now)))) }
    ensures bound { result ≤ max_cell_weight + 1 }
{
    match layout {
        Layout::Struct => null_weights(children),
        _ => cap(layout.own_null_weight()),
    }
}

#[cycle(null_weight)]
#[tactic(auto, using(crate::proofs::WeightLemmas::slot_laws))]
fn null_weights(children: &[Array]) -> u64
    ensures value { result ≡ capped (1 + null_weights (layouts_of (kids_of children.now))) }
    ensures bound { result ≤ max_cell_weight + 1 }
{
    let mut sum = cap(1);
    for child in children {
        sum = cap(sum + null_weight(child));
    }
    sum
}

/// The weight of a dictionary-encoded slot.
#[tactic(auto, using(crate::proofs::DictionaryLemmas::weight_laws))]
pub(crate) fn weigh_encoded(
    body: &[u8],
    own: &ArrayData,
    dictionary: &DictionaryValues,
    i: usize,
) -> u64
    requires lies { LiesIn body.now own.now.values }
    requires room { HasIndex own.now.layout own.now i }
    ensures value { result ≡ capped
        (encoded_weight dictionary.now.layout
        (coded_by own.now.layout dictionary.now.values (bytes_of body.now own.now.values) i)) }
    ensures bound { result ≤ max_cell_weight + 1 }
{
    match find_value(body, own, dictionary, i) {
        Some(value) => cap(dictionary.layout.own_weight(value)),
        None => cap(dictionary.layout.own_null_weight()),
    }
}

/// The weight of the cell of slot `i`.
#[cycle(weigh)]
pub(crate) fn weigh(body: &[u8], array: &Array, i: usize) -> u64
    requires sound { IsSound body.now array.now }
    requires below { i < len_of array.now }
    ensures value { result ≡ capped (weight_at body.now array.now i) }
    ensures bound { result ≤ max_cell_weight + 1 }
{
    weigh_slot(body, &array.own, &array.children, i)
}

#[cycle(weigh)]
#[tactic(auto, using(crate::proofs::WeightLemmas::weight_laws), unfolding(crate::specs::Weights::weight_in))]
fn weigh_slot(body: &[u8], own: &ArrayData, children: &[Array], i: usize) -> u64
    requires sound { IsSound body.now (node own.now (kids_of children.now)) }
    requires below { i < own.now.len }
    ensures value { result ≡ capped (weight_at body.now (node own.now (kids_of children.now)) i) }
    ensures bound { result ≤ max_cell_weight + 1 }
{
    if is_null_slot(body, own, i) {
        return null_weight_of(value_layout(own), children);
    }
    match &own.dictionary {
        Some(dictionary) => weigh_encoded(body, own, dictionary, i),
        None => weigh_value(body, own, children, i),
    }
}

/// The weight of a slot that isn't null, of an array without a dictionary.
#[cycle(weigh)]
#[tactic(auto, using(crate::proofs::WeightLemmas::value_laws))]
fn weigh_value(body: &[u8], own: &ArrayData, children: &[Array], i: usize) -> u64
    requires sound { IsSound body.now (node own.now (kids_of children.now)) }
    requires below { i < own.now.len }
    ensures value { result ≡ capped (value_weight body.now own.now (kids_of children.now) i) }
    ensures bound { result ≤ max_cell_weight + 1 }
{
    match own.layout {
        Layout::Bool
        | Layout::Int { .. }
        | Layout::Decimal { .. }
        | Layout::FixedSizeBinary { .. } => null_weight_of(own.layout, children),
        Layout::Utf8 { offsets } | Layout::Binary { offsets } => weigh_bytes(body, own, offsets, i),
        Layout::List { offsets } => weigh_list(body, own, children, offsets, i),
        Layout::Struct => weigh_row(body, children, i),
    }
}

#[tactic(auto, using(crate::proofs::WeightLemmas::bytes_laws))]
fn weigh_bytes(body: &[u8], own: &ArrayData, width: OffsetWidth, i: usize) -> u64
    requires offsets { LiesIn body.now own.now.offsets }
    requires values { LiesIn body.now own.now.values }
    requires fit { AreFit width (bytes_of body.now own.now.offsets) own.now.len own.now.values.len }
    requires below { i < own.now.len }
    ensures value { result ≡ capped (5 + extent width (bytes_of body.now own.now.offsets) i) }
    ensures bound { result ≤ max_cell_weight + 1 }
{
    let offsets = buffer(body, &own.offsets);
    cap(5 + (offset(offsets, width, i + 1) - offset(offsets, width, i)) as u64)
}

#[cycle(weigh)]
#[tactic(auto, using(crate::proofs::WeightLemmas::list_laws))]
fn weigh_list(body: &[u8], own: &ArrayData, children: &[Array], width: OffsetWidth, i: usize) -> u64
    requires sound { IsSound body.now (node own.now (kids_of children.now)) }
    requires listed { own.now.layout ≡ Listed width }
    requires below { i < own.now.len }
    ensures value { result ≡ capped (list_weight width body.now own.now (kids_of children.now) i) }
    ensures bound { result ≤ max_cell_weight + 1 }
{
    let offsets = buffer(body, &own.offsets);
    weigh_items(
        body,
        items_array(children),
        offset(offsets, width, i),
        offset(offsets, width, i + 1),
    )
}

/// The weight of a slot with `count` bytes or items of this weight each.
pub(crate) fn weigh_alike(weight: u64, count: usize) -> u64
    ensures value { result ≡ capped (weight * count + 5) }
    ensures bound { result ≤ max_cell_weight + 1 }
{
    cap(weight.saturating_mul(count as u64).saturating_add(5))
}

/// The weight of a list slot with the items `from` to `to`.
#[cycle(weigh)]
#[tactic(auto, using(crate::proofs::WeightLemmas::item_laws))]
fn weigh_items(body: &[u8], array: &Array, from: usize, to: usize) -> u64
    requires sound { IsSound body.now array.now }
    requires order { from ≤ to }
    requires within { to ≤ len_of array.now }
    ensures value { result ≡ capped (5 + sum_from (weight_at body.now array.now) from (to - from)) }
    ensures bound { result ≤ max_cell_weight + 1 }
{
    if to - from > 1 && is_uniform(array) {
        return weigh_alike(null_weight(array), to - from);
    }
    let mut sum = cap(5);
    for i in from..to {
        if sum == TOO_HEAVY {
            return sum;
        }
        sum = cap(sum + weigh(body, array, i));
    }
    sum
}

/// The weight of a struct slot with the children's cells of slot `i`.
#[cycle(weigh)]
#[tactic(auto, using(crate::proofs::WeightLemmas::row_laws))]
fn weigh_row(body: &[u8], children: &[Array], i: usize) -> u64
    requires sound { AreSound body.now (kids_of children.now) }
    requires long { AreLong Struct (i + 1) (kids_of children.now) }
    ensures value { result ≡ capped (1 + weight_beside body.now (kids_of children.now) i) }
    ensures bound { result ≤ max_cell_weight + 1 }
{
    let mut sum = cap(1);
    for child in children {
        if sum == TOO_HEAVY {
            return sum;
        }
        sum = cap(sum + weigh(body, child, i));
    }
    sum
}
