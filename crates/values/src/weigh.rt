//! Weights of values. Sums saturate at `u64::MAX`.

ghost use Rattle.std.specs.Prelude.{◌≡◌, ◌+◌, ◌<◌, ◌^◌, length};
ghost use Rattle.values.specs.Rose.{node, none, kids_of};
ghost use Rattle.values.specs.Datum.{items_of};
ghost use Rattle.values.specs.declared.layout.Layout.TheVariants.{Struct};
ghost use Rattle.values.specs.Layouts.{
  null_weight as null_weight_by,
  null_weights as null_weights_by,
  weight as weight_by,
  items_weight,
  row_weight as row_weight_by,
};
ghost use Rattle.values.specs.Weights.{blob_in, items_in, text_in, saturated, weights};

use crate::cells::{Kind, Value};
use crate::layout::{Layout, LayoutTree};

#[tactic(auto, unfolding(crate::specs::Weights::saturated))]
fn add(weight: u64, more: u64) -> u64
    ensures { result ≡ saturated (weight + more) }
{
    weight.saturating_add(more)
}

/// The weight of a null of this layout: 1, and the size of a slot in its buffers, a bit counted as 1 and an offset as
/// 4; of a struct 1, and its children's slots.
#[cycle(null_weight)]
pub fn null_weight(layout: &LayoutTree) -> u64
    ensures { result ≡ saturated (null_weight_by layout.now) }
{
    null_weight_of(layout.layout, &layout.children)
}

#[cycle(null_weight)]
#[tactic(auto, using(crate::proofs::WeightLemmas::own_null_weights))]
fn null_weight_of(layout: Layout, children: &[LayoutTree]) -> u64
    ensures { result ≡ saturated (null_weight_by (node layout (kids_of children.now))) }
{
    match layout {
        Layout::Struct => add(1, null_weights(children)),
        _ => layout.own_null_weight(),
    }
}

#[cycle(null_weight)]
#[tactic(auto, using(crate::proofs::WeightLemmas::null_weight_sums))]
fn null_weights(children: &[LayoutTree]) -> u64
    ensures { result ≡ saturated (null_weights_by (kids_of children.now)) }
{
    let mut sum = 0;
    for child in children {
        sum = add(sum, null_weight(child));
    }
    sum
}

fn text_len(value: &Value) -> usize
    ensures value { result ≡ length (text_in value.now) }
    ensures bound { result < 2 ^ 63 }
{
    match &value.kind {
        Kind::Utf8(text) => text.len(),
        _ => 0,
    }
}

fn blob_len(value: &Value) -> usize
    ensures value { result ≡ length (blob_in value.now) }
    ensures bound { result < 2 ^ 63 }
{
    match &value.kind {
        Kind::Binary(bytes) => bytes.len(),
        _ => 0,
    }
}

impl Layout {
    /// The weight of a value of this layout, without its children's.
    #[tactic(auto, using(crate::proofs::WeightLemmas::own_weights))]
    pub fn own_weight(self, value: &Value) -> u64
        ensures { result ≡ weight_by (node self none) value.now }
    {
        match self {
            Layout::Utf8 { .. } => 5 + text_len(value) as u64,
            Layout::Binary { .. } => 5 + blob_len(value) as u64,
            _ => self.own_null_weight(),
        }
    }
}

/// The items of a list.
fn list_items<'a>(value: &'a Value) -> &'a [Value]
    ensures { items_of result.now ≡ items_in value.now }
{
    match &value.kind {
        Kind::List(items) => items,
        _ => &[],
    }
}

/// The weight of a value of this layout: its slot, with the bytes of a text or of bytes, or with the weights of a
/// list's items; of a struct 1, and the weights of its children.
#[cycle(weigh)]
pub fn weight(layout: &LayoutTree, value: &Value) -> u64
    ensures { result ≡ saturated (weight_by layout.now value.now) }
{
    weigh_by(layout.layout, &layout.children, value)
}

#[cycle(weigh)]
#[tactic(auto, using(crate::proofs::WeightLemmas::layout_weights))]
fn weigh_by(layout: Layout, children: &[LayoutTree], value: &Value) -> u64
    ensures { result ≡ saturated (weight_by (node layout (kids_of children.now)) value.now) }
{
    match layout {
        Layout::List { .. } => add(5, weigh_items(children, list_items(value))),
        Layout::Struct => weigh_struct(children, value),
        _ => layout.own_weight(value),
    }
}

#[cycle(weigh)]
#[tactic(auto, using(crate::proofs::WeightLemmas::first_sums))]
fn weigh_items(children: &[LayoutTree], items: &[Value]) -> u64
    ensures { result ≡ saturated (items_weight (kids_of children.now) (items_of items.now)) }
{
    if children.is_empty() {
        return 0;
    }
    weigh_all(&children[0], items)
}

#[cycle(weigh)]
#[tactic(auto, using(crate::proofs::WeightLemmas::item_sums))]
fn weigh_all(layout: &LayoutTree, items: &[Value]) -> u64
    ensures { result ≡ saturated (weights layout.now items.now) }
{
    let mut sum = 0;
    for item in items {
        sum = add(sum, weight(layout, item));
    }
    sum
}

#[cycle(weigh)]
#[tactic(auto, using(crate::proofs::WeightLemmas::struct_sums))]
fn weigh_struct(children: &[LayoutTree], value: &Value) -> u64
    ensures { result ≡ saturated (weight_by (node Struct (kids_of children.now)) value.now) }
{
    match &value.kind {
        Kind::Struct(cells) => add(1, row_weight(children, cells)),
        _ => null_weight_of(Layout::Struct, children),
    }
}

/// The summed weight of a row's cells, each of its column's layout.
#[cycle(weigh)]
#[tactic(auto, using(crate::proofs::WeightLemmas::row_sums))]
pub fn row_weight(layouts: &[LayoutTree], row: &[Value]) -> u64
    ensures { result ≡ saturated (row_weight_by (kids_of layouts.now) (items_of row.now)) }
{
    let mut sum = 0;
    for j in 0..layouts.len().min(row.len()) {
        sum = add(sum, weight(&layouts[j], &row[j]));
    }
    sum
}
