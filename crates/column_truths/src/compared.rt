//! Comparisons of cells, and the bitmaps of their truths.

ghost use Rattle.std.specs.Prelude.{◌≡◌, ◌+◌, ◌<◌, ◌^◌, ◌++◌, ◌∷◌, [], length, OnOk};
ghost use Rattle.bitmaps.specs.Truths.{is_true, is_unknown};
ghost use Rattle.values.specs.Datum.{is_null as is_null_by};
ghost use Rattle.view_lang.specs.Truth.{compared as compared_by};

use bitmaps::Bitmap;
use std::alloc::AllocError;
use values::{Kind, Value, cmp_values};
use view_lang::Comparison;

fn is_null(value: &Value) -> bool
    ensures { result ≡ is_null_by value.now }
{
    match &value.kind {
        Kind::Null => true,
        _ => false,
    }
}

/// The truth of a comparison of two cells; `None`, which is unknown, where one is null.
pub(crate) fn compared(comparison: Comparison, a: &Value, b: &Value) -> Option<bool>
    ensures { result ≡ compared_by comparison a.now b.now }
{
    if is_null(a) || is_null(b) {
        return None;
    }
    let order = cmp_values(a, b);
    Some(match comparison {
        Comparison::Equal => order.is_eq(),
        Comparison::Different => order.is_ne(),
        Comparison::Below => order.is_lt(),
        Comparison::AtMost => order.is_le(),
        Comparison::Above => order.is_gt(),
        Comparison::AtLeast => order.is_ge(),
    })
}

fn is_true(truth: Option<bool>) -> bool
    ensures { result ≡ is_true truth }
{
    match truth {
        Some(known) => known,
        None => false,
    }
}

fn is_unknown(truth: Option<bool>) -> bool
    ensures { result ≡ is_unknown truth }
{
    match truth {
        Some(_) => false,
        None => true,
    }
}

/// Adds a truth to two bitmaps: of what is true, and of what is unknown.
pub(crate) fn push_truth(
    known: &mut Bitmap,
    unknown: &mut Bitmap,
    truth: Option<bool>,
) -> Result<(), AllocError>
    requires known { length known.old + 1 < 2 ^ 64 }
    requires unknown { length unknown.old + 1 < 2 ^ 64 }
    ensures known { OnOk result (known.new ≡ known.old ++ is_true truth ∷ []) }
    ensures unknown { OnOk result (unknown.new ≡ unknown.old ++ is_unknown truth ∷ []) }
{
    known.push(is_true(truth))?;
    unknown.push(is_unknown(truth))?;
    Ok(())
}
