//! Arrays whose cells need no check: no text, decimal or dictionary index in them or below them.

ghost use Rattle.std.specs.Prelude.{◌≡◌};
ghost use Rattle.arrays.specs.AlwaysValid.{is_always_valid, is_always_valid_layout, is_always_valid_data};

use array_layout::{Array, ArrayData};
use values::Layout;

fn is_always_valid_layout(layout: Layout) -> bool
    ensures { result ≡ is_always_valid_layout layout }
{
    match layout {
        Layout::Decimal { .. } | Layout::Utf8 { .. } => false,
        Layout::Bool
        | Layout::Int { .. }
        | Layout::FixedSizeBinary { .. }
        | Layout::Binary { .. }
        | Layout::List { .. }
        | Layout::Struct => true,
    }
}

fn is_always_valid_data(own: &ArrayData) -> bool
    ensures { result ≡ is_always_valid_data own.now.dictionary own.now.layout }
{
    own.dictionary.is_none() && is_always_valid_layout(own.layout)
}

/// Whether cells need no check: no text, decimal or dictionary index here or below.
#[tactic(auto, using(crate::proofs::AlwaysValidLemmas::always_valid_rules, values::proofs::Roses::kid_smaller))]
pub(crate) fn is_always_valid(array: &Array) -> bool
    ensures { result ≡ is_always_valid array.now }
{
    if !is_always_valid_data(&array.own) {
        return false;
    }
    for child in &array.children {
        if !is_always_valid(child) {
            return false;
        }
    }
    true
}
