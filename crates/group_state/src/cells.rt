//! Cells of rows.

ghost use Rattle.std.specs.Prelude.{◌≡◌, pos};
ghost use Rattle.values.specs.Datum.{null, whole as whole_by};

use values::{Kind, Value};

/// A null.
pub(crate) fn no_value() -> Value
    ensures { result ≡ null }
{
    Value { kind: Kind::Null }
}

/// A whole number as a value.
pub(crate) fn whole(number: i128) -> Value
    ensures { result ≡ whole_by number }
{
    Value {
        kind: Kind::Int(number),
    }
}

/// A count as a value.
pub(crate) fn count(number: u64) -> Value
    ensures { result ≡ whole_by (pos number) }
{
    whole(number as i128)
}
