//! Copies of validated cells.

ghost use Rattle.std.specs.Prelude.{◌≡◌, ◌+◌, ◌-◌, ◌<◌, ◌≤◌, IfOk, Ok};
ghost use Rattle.values.specs.Reading.{IsValid, each};
ghost use Rattle.values.specs.Rose.{node, kids_of};
ghost use Rattle.values.specs.declared.layout.Layout.TheVariants.{List as Listed, Struct};
ghost use Rattle.array_layout.specs.Placing.{bytes_of};
ghost use Rattle.array_layout.specs.Sound.{IsSound, AreSound, AreLong};
ghost use Rattle.array_layout.specs.Cells.{cell, first_cell, row, value_by, items_at, len_of};

use crate::dictionary::copy_value;
use crate::slots::{bytes_slot, is_null_slot, text_in};
use crate::validate::items_array;
use array_layout::{Array, ArrayData, bit, buffer, decimal, fixed, number, offset};
use std::alloc::{AllocError, Global};
use values::{Kind, Layout, OffsetWidth, Value};

/// The cell of slot `i`.
#[cycle(read)]
pub(crate) fn read(alloc: Global, body: &[u8], array: &Array, i: usize) -> Result<Value, AllocError>
    requires sound { IsSound body.now array.now }
    requires below { i < len_of array.now }
    requires valid { IsValid (cell body.now array.now i) }
    ensures { IfOk result (λ v. cell body.now array.now i ≡ Ok v) }
{
    read_slot(alloc, body, &array.own, &array.children, i)
}

#[cycle(read)]
#[tactic(auto, using(crate::proofs::CopyLemmas::null_laws), unfolding(array_layout::specs::Cells::cell_by))]
fn read_slot(
    alloc: Global,
    body: &[u8],
    own: &ArrayData,
    children: &[Array],
    i: usize,
) -> Result<Value, AllocError>
    requires sound { IsSound body.now (node own.now (kids_of children.now)) }
    requires below { i < own.now.len }
    requires valid { IsValid (cell body.now (node own.now (kids_of children.now)) i) }
    ensures { IfOk result (λ v. cell body.now (node own.now (kids_of children.now)) i ≡ Ok v) }
{
    if is_null_slot(body, own, i) {
        return Ok(Value { kind: Kind::Null });
    }
    match &own.dictionary {
        Some(dictionary) => copy_value(alloc, body, own, dictionary, i),
        None => read_value(alloc, body, own, children, i),
    }
}

/// The value of a slot that isn't null, of an array without a dictionary.
#[cycle(read)]
#[tactic(auto, using(crate::proofs::CopyLemmas::value_laws))]
fn read_value(
    alloc: Global,
    body: &[u8],
    own: &ArrayData,
    children: &[Array],
    i: usize,
) -> Result<Value, AllocError>
    requires sound { IsSound body.now (node own.now (kids_of children.now)) }
    requires below { i < own.now.len }
    requires valid { IsValid
        (value_by own.now.layout body.now own.now (λ j. first_cell body.now (kids_of children.now) j)
        (λ j. row body.now (kids_of children.now) j) i) }
    ensures { IfOk result
        (λ v. value_by own.now.layout body.now own.now (λ j. first_cell body.now (kids_of children.now) j)
        (λ j. row body.now (kids_of children.now) j) i ≡ Ok v) }
{
    let values = buffer(body, &own.values);
    let kind = match own.layout {
        Layout::Bool => Kind::Bool(bit(values, i)),
        Layout::Int { width, signed } => Kind::Int(number(values, width, signed, i)),
        Layout::Decimal { .. } => Kind::Int(decimal(values, i)),
        Layout::FixedSizeBinary { width } => Kind::Binary(Vec::from_slice(
            alloc,
            fixed(values, width as usize, i),
        )?),
        Layout::Utf8 { offsets } => Kind::Utf8(String::from_str(
            alloc,
            text_in(bytes_slot(body, own, offsets, i)),
        )?),
        Layout::Binary { offsets } => Kind::Binary(Vec::from_slice(
            alloc,
            bytes_slot(body, own, offsets, i),
        )?),
        Layout::List { offsets } => Kind::List(read_list(alloc, body, own, children, offsets, i)?),
        Layout::Struct => Kind::Struct(read_row(alloc, body, children, i)?),
    };
    Ok(Value { kind })
}

#[cycle(read)]
#[tactic(auto, using(crate::proofs::CopyLemmas::list_laws))]
fn read_list(
    alloc: Global,
    body: &[u8],
    own: &ArrayData,
    children: &[Array],
    width: OffsetWidth,
    i: usize,
) -> Result<Vec<Value>, AllocError>
    requires sound { IsSound body.now (node own.now (kids_of children.now)) }
    requires listed { own.now.layout ≡ Listed width }
    requires below { i < own.now.len }
    requires valid { IsValid
        (items_at (λ j. first_cell body.now (kids_of children.now) j) width (bytes_of body.now own.now.offsets) i) }
    ensures { IfOk result (λ items.
        items_at (λ j. first_cell body.now (kids_of children.now) j) width (bytes_of body.now own.now.offsets) i ≡ Ok
        items.items) }
{
    let offsets = buffer(body, &own.offsets);
    read_items(
        alloc,
        body,
        items_array(children),
        offset(offsets, width, i),
        offset(offsets, width, i + 1),
    )
}

/// The cells of the slots `from` to `to`.
#[cycle(read)]
#[tactic(auto, using(values::proofs::Readings::gathering, crate::proofs::CopyLemmas::left_laws))]
fn read_items(
    alloc: Global,
    body: &[u8],
    array: &Array,
    from: usize,
    to: usize,
) -> Result<Vec<Value>, AllocError>
    requires sound { IsSound body.now array.now }
    requires order { from ≤ to }
    requires within { to ≤ len_of array.now }
    requires valid { IsValid (each (cell body.now array.now) from (to - from)) }
    ensures { IfOk result (λ items. each (cell body.now array.now) from (to - from) ≡ Ok items.items) }
{
    let mut items = Vec::new(alloc);
    for i in from..to {
        items.push(read(alloc, body, array, i)?)?;
    }
    Ok(items)
}

/// The children's cells of slot `i`.
#[cycle(read)]
#[tactic(auto, using(crate::proofs::CopyLemmas::row_laws))]
fn read_row(
    alloc: Global,
    body: &[u8],
    children: &[Array],
    i: usize,
) -> Result<Vec<Value>, AllocError>
    requires sound { AreSound body.now (kids_of children.now) }
    requires long { AreLong Struct (i + 1) (kids_of children.now) }
    requires valid { IsValid (row body.now (kids_of children.now) i) }
    ensures { IfOk result (λ cells. row body.now (kids_of children.now) i ≡ Ok cells.items) }
{
    let mut cells = Vec::new(alloc);
    for child in children {
        cells.push(read(alloc, body, child, i)?)?;
    }
    Ok(cells)
}
