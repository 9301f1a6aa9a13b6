//! Arrays whose slots have no byte.

ghost use Rattle.std.specs.Prelude.{◌≡◌};
ghost use Rattle.arrays.specs.NoBytes.{has_no_bytes, has_no_bytes_by, has_no_width};

use array_layout::{Array, ArrayData};
use values::Layout;

fn has_no_width(layout: Layout) -> bool
    ensures { result ≡ has_no_width layout }
{
    match layout {
        Layout::FixedSizeBinary { width } => width == 0,
        Layout::Bool
        | Layout::Int { .. }
        | Layout::Decimal { .. }
        | Layout::Utf8 { .. }
        | Layout::Binary { .. }
        | Layout::List { .. }
        | Layout::Struct => false,
    }
}

fn has_no_bytes_of_its_own(own: &ArrayData) -> bool
    ensures { result ≡ has_no_bytes_by own.now.dictionary own.now.validity.len own.now.layout }
{
    own.dictionary.is_none() && own.validity.len == 0 && has_no_width(own.layout)
}

/// Whether no slot has a byte in the body: of bytes of width 0, of which none is null.
pub(crate) fn has_no_bytes(array: &Array) -> bool
    ensures { result ≡ has_no_bytes array.now }
{
    has_no_bytes_of_its_own(&array.own)
}
