//! Comparisons by code: one truth for each value of a dictionary, selected by the index of each slot.

ghost use Rattle.std.specs.Prelude.{◌≡◌, ◌+◌, ◌*◌, ◌<◌, ◌≤◌, None, Ok, Some, length, map, IfOk};
ghost use Rattle.std.specs.List.{range_with_len};
ghost use Rattle.bitmaps.specs.Bits.{HasBits};
ghost use Rattle.values.specs.Layouts.{bytes_in};
ghost use Rattle.values.specs.Rose.{node, kids_of};
ghost use Rattle.values.specs.Datum.{Datum};
ghost use Rattle.values.specs.declared.layout.Layout.TheVariants.{Int};
ghost use Rattle.array_layout.specs.Buffers.{number_at};
ghost use Rattle.array_layout.specs.Cells.{cells};
ghost use Rattle.array_layout.specs.Sound.{IsSound};
ghost use Rattle.arrays.specs.Checked.{valid_of};
ghost use Rattle.values.specs.Reading.{IsValid};
ghost use Rattle.column_truths.specs.Compared.{compared_with, indexed_truth, slot_truth};

use crate::compared::{compared, push_truth};
use array_layout::{Array, ArrayData, DictionaryValues, buffer, is_null_at, number};
use bitmaps::{Bitmap, Truths};
use dictionaries::Dictionary;
use std::alloc::{AllocError, Global};
use values::{IntWidth, Value};
use view_lang::Comparison;

/// The truth of a comparison of each value of a dictionary with a constant.
fn compare_values(
    alloc: Global,
    values: &Dictionary,
    comparison: Comparison,
    constant: &Value,
) -> Result<Truths, AllocError>
    ensures { IfOk result (λ ts. ts ≡ compared_with comparison constant.now values.now) }
{
    let mut known = Bitmap::with_capacity(alloc, values.len())?;
    let mut unknown = Bitmap::with_capacity(alloc, values.len())?;
    for i in 0..values.len() {
        let value = values.get(i).unwrap();
        push_truth(
            &mut known,
            &mut unknown,
            compared(comparison, value, constant),
        )?;
    }
    let truths = Truths::new(alloc, &known.bits(), unknown)?;
    Ok(truths)
}

/// The truth of the value with this index; unknown where there is none.
#[tactic(auto, using(crate::proofs::CodeLemmas::index_laws))]
fn indexed(truths: &Truths, index: i128) -> Option<bool>
    ensures { result ≡ indexed_truth truths.now index }
{
    if index < 0 || index >= truths.len() as i128 {
        return None;
    }
    truths.at(index as usize)
}

/// The truth of slot `i`: that of the value to which it refers, and unknown where it is null.
#[tactic(auto, unfolding(crate::specs::Compared::slot_truth))]
fn slot_truth(
    bits: &[u8],
    indices: &[u8],
    width: IntWidth,
    signed: bool,
    of_values: &Truths,
    i: usize,
) -> Option<bool>
    requires bits { 0 < length bits.now → HasBits bits.now (i + 1) }
    requires room { bytes_in width * (i + 1) ≤ length indices.now }
    ensures { result ≡ slot_truth bits.now indices.now width signed of_values.now i }
{
    if is_null_at(bits, i) {
        return None;
    }
    indexed(of_values, number(indices, width, signed, i))
}

/// The truths of the first `len` slots, by those of the dictionary's values.
fn select_truths(
    alloc: Global,
    bits: &[u8],
    indices: &[u8],
    width: IntWidth,
    signed: bool,
    of_values: &Truths,
    len: usize,
) -> Result<Truths, AllocError>
    requires bits { 0 < length bits.now → HasBits bits.now len }
    requires room { bytes_in width * len ≤ length indices.now }
    ensures { IfOk result
        (λ ts. ts ≡ map (slot_truth bits.now indices.now width signed of_values.now) (range_with_len 0 len)) }
{
    let mut known = Bitmap::with_capacity(alloc, len)?;
    let mut unknown = Bitmap::with_capacity(alloc, len)?;
    for i in 0..len {
        push_truth(
            &mut known,
            &mut unknown,
            slot_truth(bits, indices, width, signed, of_values, i),
        )?;
    }
    let truths = Truths::new(alloc, &known.bits(), unknown)?;
    Ok(truths)
}

/// The truth of a comparison of each cell with a constant, of an array of indices into a dictionary. Each value of the
/// dictionary is compared once.
pub(crate) fn compare_codes(
    alloc: Global,
    body: &[u8],
    own: &ArrayData,
    children: &[Array],
    dictionary: &DictionaryValues,
    width: IntWidth,
    signed: bool,
    comparison: Comparison,
    constant: &Value,
) -> Result<Truths, AllocError>
    requires sound { IsSound body.now (node own.now (kids_of children.now)) }
    requires valid { IsValid (cells body.now (node own.now (kids_of children.now))) }
    requires dictionary { own.now.dictionary ≡ Some dictionary.now }
    requires layout { own.now.layout ≡ Int width signed }
    ensures { IfOk result (λ ts. ts ≡ compared_with comparison constant.now
        (valid_of (cells body.now (node own.now (kids_of children.now))))) }
{
    let of_values = compare_values(alloc, &dictionary.values, comparison, constant)?;
    let truths = select_truths(
        alloc,
        buffer(body, &own.validity),
        buffer(body, &own.values),
        width,
        signed,
        &of_values,
        own.len,
    )?;
    Ok(truths)
}
