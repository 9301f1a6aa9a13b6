//! Validates cells by ranges of slots: 25 NotUtf8, 26 DictionaryIndex and 27 DecimalRange.
//!
//! The faults of slots, and of all slots that they reach, are looked for array by array. Arrays that can't have faults
//! are skipped, however many slots their header claims.

ghost use Rattle.std.specs.Prelude.{◌≡◌, ◌+◌, ◌-◌, ◌<◌, ◌≤◌, None, length, get_or};
ghost use Rattle.bitmaps.specs.Bits.{HasBits};
ghost use Rattle.values.specs.Reading.{Passes, each};
ghost use Rattle.values.specs.Rose.{node, kids_of};
ghost use Rattle.values.specs.declared.layout.Layout.TheVariants.{Struct};
ghost use Rattle.array_layout.specs.Sound.{IsSound, AreSound, AreLong, AreFit};
ghost use Rattle.array_layout.specs.Cells.{cell, row, len_of, list_of, structure_of, items_at};
ghost use Rattle.arrays.specs.Ranges.{where_valid};

use crate::always_valid::is_always_valid;
use crate::decimals::validate_decimals;
use crate::dictionary::validate_indices;
use crate::texts::validate_texts;
use array_layout::{Array, ArrayData, buffer, is_null_at, offset, run_end};
use values::{Layout, OffsetWidth, StreamFault};

/// The array of a list's items.
pub(crate) fn items_array(children: &[Array]) -> &Array
    requires { 0 < length children.now }
    ensures { result.now ≡ get_or children.now 0 result.now }
{
    &children[0]
}

/// Validates the cells of the slots from `from` to `to`.
#[tactic(auto, using(crate::proofs::AlwaysValidLemmas::always_valid_each))]
pub(crate) fn validate_items(
    body: &[u8],
    array: &Array,
    from: usize,
    to: usize,
) -> Result<(), StreamFault>
    requires sound { IsSound body.now array.now }
    requires order { from ≤ to }
    requires within { to ≤ len_of array.now }
    ensures { Passes result (each (cell body.now array.now) from (to - from)) }
{
    if is_always_valid(array) {
        return Ok(());
    }
    validate_slots(body, array, from, to)
}

#[cycle(validate)]
#[tactic(auto, using(crate::proofs::RangeLemmas::no_slots))]
fn validate_slots(body: &[u8], array: &Array, from: usize, to: usize) -> Result<(), StreamFault>
    requires sound { IsSound body.now array.now }
    requires order { from ≤ to }
    requires within { to ≤ len_of array.now }
    ensures { Passes result (each (cell body.now array.now) from (to - from)) }
{
    if from == to {
        return Ok(());
    }
    validate_own(body, &array.own, &array.children, from, to)
}

#[cycle(validate)]
#[tactic(auto, using(crate::proofs::ValidationLemmas::own_laws))]
fn validate_own(
    body: &[u8],
    own: &ArrayData,
    children: &[Array],
    from: usize,
    to: usize,
) -> Result<(), StreamFault>
    requires sound { IsSound body.now (node own.now (kids_of children.now)) }
    requires order { from < to }
    requires within { to ≤ own.now.len }
    ensures { Passes result (each (cell body.now (node own.now (kids_of children.now))) from (to - from)) }
{
    match &own.dictionary {
        Some(dictionary) => validate_indices(
            buffer(body, &own.validity),
            buffer(body, &own.values),
            own.layout,
            dictionary,
            from,
            to,
        ),
        None => validate_values(body, own, children, from, to),
    }
}

/// Validates slots of an array without a dictionary.
#[cycle(validate)]
#[tactic(auto, using(crate::proofs::ValidationLemmas::value_laws))]
fn validate_values(
    body: &[u8],
    own: &ArrayData,
    children: &[Array],
    from: usize,
    to: usize,
) -> Result<(), StreamFault>
    requires sound { IsSound body.now (node own.now (kids_of children.now)) }
    requires plain { own.now.dictionary ≡ None }
    requires order { from < to }
    requires within { to ≤ own.now.len }
    ensures { Passes result (each (cell body.now (node own.now (kids_of children.now))) from (to - from)) }
{
    let bits = buffer(body, &own.validity);
    let values = buffer(body, &own.values);
    let offsets = buffer(body, &own.offsets);
    match own.layout {
        Layout::Bool
        | Layout::Int { .. }
        | Layout::FixedSizeBinary { .. }
        | Layout::Binary { .. } => Ok(()),
        Layout::Decimal { precision } => validate_decimals(bits, values, precision, from, to),
        Layout::Utf8 { offsets: width } => validate_texts(bits, offsets, values, width, from, to),
        Layout::List { offsets: width } => validate_lists(
            body,
            bits,
            offsets,
            width,
            items_array(children),
            from,
            to,
        ),
        Layout::Struct => validate_rows(body, bits, children, from, to),
    }
}

/// Validates lists: the items of a run of valid slots lie one after the other.
#[cycle(validate)]
#[tactic(auto, using(crate::proofs::RangeLemmas::run_laws, crate::proofs::ValidationLemmas::list_laws))]
fn validate_lists(
    body: &[u8],
    bits: &[u8],
    offsets: &[u8],
    width: OffsetWidth,
    items: &Array,
    from: usize,
    to: usize,
) -> Result<(), StreamFault>
    requires sound { IsSound body.now items.now }
    requires order { from ≤ to }
    requires bits { 0 < length bits.now → HasBits bits.now to }
    requires fit { AreFit width offsets.now to (len_of items.now) }
    ensures { Passes result
        (each (where_valid bits.now (λ i. list_of (items_at (cell body.now items.now) width offsets.now i)))
        from (to - from)) }
{
    let mut at = from;
    while at < to {
        let end = run_end(bits, at, to);
        if !is_null_at(bits, at) {
            let first = offset(offsets, width, at);
            validate_slots(body, items, first, offset(offsets, width, end))?;
        }
        at = end;
    }
    Ok(())
}

/// Validates structs, child by child.
#[cycle(validate)]
#[tactic(auto, using(crate::proofs::ValidationLemmas::row_laws))]
fn validate_rows(
    body: &[u8],
    bits: &[u8],
    children: &[Array],
    from: usize,
    to: usize,
) -> Result<(), StreamFault>
    requires sound { AreSound body.now (kids_of children.now) }
    requires order { from ≤ to }
    requires bits { 0 < length bits.now → HasBits bits.now to }
    requires long { AreLong Struct to (kids_of children.now) }
    ensures { Passes result
        (each (where_valid bits.now (λ i. structure_of (row body.now (kids_of children.now) i))) from (to - from)) }
{
    for child in children {
        validate_child(body, bits, child, from, to)?;
    }
    Ok(())
}

/// Validates the slots of a struct's child that lie below valid slots of the struct.
#[cycle(validate)]
#[tactic(auto, using(crate::proofs::RangeLemmas::run_laws, crate::proofs::ValidationLemmas::child_laws))]
fn validate_child(
    body: &[u8],
    bits: &[u8],
    child: &Array,
    from: usize,
    to: usize,
) -> Result<(), StreamFault>
    requires sound { IsSound body.now child.now }
    requires order { from ≤ to }
    requires bits { 0 < length bits.now → HasBits bits.now to }
    requires within { to ≤ len_of child.now }
    ensures { Passes result (each (where_valid bits.now (cell body.now child.now)) from (to - from)) }
{
    if is_always_valid(child) {
        return Ok(());
    }
    let mut at = from;
    while at < to {
        let end = run_end(bits, at, to);
        if !is_null_at(bits, at) {
            validate_slots(body, child, at, end)?;
        }
        at = end;
    }
    Ok(())
}
