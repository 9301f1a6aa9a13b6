//! Arrays all of whose cells weigh the same: those of a fixed width, and structs of such.

ghost use Rattle.std.specs.Prelude.{◌≡◌};
ghost use Rattle.arrays.specs.Uniform.{is_fixed, is_uniform, is_uniform_layout, is_uniform_data};

use array_layout::{Array, ArrayData};
use values::Layout;

pub(crate) fn is_fixed(layout: Layout) -> bool
    ensures { result ≡ is_fixed layout }
{
    match layout {
        Layout::Bool
        | Layout::Int { .. }
        | Layout::Decimal { .. }
        | Layout::FixedSizeBinary { .. } => true,
        Layout::Utf8 { .. } | Layout::Binary { .. } | Layout::List { .. } | Layout::Struct => false,
    }
}

fn is_uniform_layout(layout: Layout) -> bool
    ensures { result ≡ is_uniform_layout layout }
{
    match layout {
        Layout::Struct
        | Layout::Bool
        | Layout::Int { .. }
        | Layout::Decimal { .. }
        | Layout::FixedSizeBinary { .. } => true,
        Layout::Utf8 { .. } | Layout::Binary { .. } | Layout::List { .. } => false,
    }
}

fn is_uniform_data(own: &ArrayData) -> bool
    ensures { result ≡ is_uniform_data own.now.dictionary own.now.layout }
{
    match &own.dictionary {
        Some(dictionary) => is_fixed(dictionary.layout),
        None => is_uniform_layout(own.layout),
    }
}

/// Whether all cells weigh the same.
#[tactic(auto, using(crate::proofs::UniformLemmas::uniform_rules, values::proofs::Roses::kid_smaller))]
pub(crate) fn is_uniform(array: &Array) -> bool
    ensures { result ≡ is_uniform array.now }
{
    if !is_uniform_data(&array.own) {
        return false;
    }
    for child in &array.children {
        if !is_uniform(child) {
            return false;
        }
    }
    true
}
