//! Validated cells where they lie.

ghost use Rattle.std.specs.Prelude.{◌≡◌, ◌<◌, Ok};
ghost use Rattle.values.specs.CellViews.{shallow, viewed};
ghost use Rattle.values.specs.Reading.{IsValid, mapped};
ghost use Rattle.values.specs.Rose.{node, kids_of};
ghost use Rattle.array_layout.specs.Placing.{bytes_of};
ghost use Rattle.array_layout.specs.Sound.{LiesIn, IsSound};
ghost use Rattle.array_layout.specs.Cells.{cell, coded_by, first_cell, row, value_by};
ghost use Rattle.arrays.specs.Encoded.{HasIndex};

use crate::dictionary::find_value;
use crate::slots::{bytes_slot, is_null_slot, text_in};
use array_layout::{Array, ArrayData, DictionaryValues, bit, buffer, decimal, fixed, number};
use values::{CellView, Layout};

/// The dictionary value that slot `i` refers to.
#[tactic(auto, using(crate::proofs::DictionaryLemmas::copy_laws))]
fn view_encoded<'a>(
    body: &[u8],
    own: &ArrayData,
    dictionary: &'a DictionaryValues,
    i: usize,
) -> CellView<'a>
    requires lies { LiesIn body.now own.now.values }
    requires room { HasIndex own.now.layout own.now i }
    requires valid { IsValid (coded_by own.now.layout dictionary.now.values (bytes_of body.now own.now.values) i) }
    ensures { mapped shallow (coded_by own.now.layout dictionary.now.values (bytes_of body.now own.now.values) i)
        ≡ Ok (viewed result) }
{
    find_value(body, own, dictionary, i).unwrap().view()
}

/// The value of a slot that isn't null, of an array without a dictionary.
#[tactic(auto, using(crate::proofs::CopyLemmas::value_laws, crate::proofs::ViewLemmas::view_laws))]
fn view_value<'a>(body: &'a [u8], own: &ArrayData, children: &[Array], i: usize) -> CellView<'a>
    requires sound { IsSound body.now (node own.now (kids_of children.now)) }
    requires below { i < own.now.len }
    requires valid { IsValid
        (value_by own.now.layout body.now own.now (λ j. first_cell body.now (kids_of children.now) j)
        (λ j. row body.now (kids_of children.now) j) i) }
    ensures { mapped shallow
        (value_by own.now.layout body.now own.now (λ j. first_cell body.now (kids_of children.now) j)
        (λ j. row body.now (kids_of children.now) j) i) ≡ Ok (viewed result) }
{
    let values = buffer(body, &own.values);
    match own.layout {
        Layout::Bool => CellView::Bool(bit(values, i)),
        Layout::Int { width, signed } => CellView::Int(number(values, width, signed, i)),
        Layout::Decimal { .. } => CellView::Int(decimal(values, i)),
        Layout::FixedSizeBinary { width } => CellView::Binary(fixed(values, width as usize, i)),
        Layout::Utf8 { offsets } => CellView::Utf8(text_in(bytes_slot(body, own, offsets, i))),
        Layout::Binary { offsets } => CellView::Binary(bytes_slot(body, own, offsets, i)),
        Layout::List { .. } => CellView::List,
        Layout::Struct => CellView::Struct,
    }
}

/// The cell of slot `i`.
#[tactic(auto, using(crate::proofs::CopyLemmas::null_laws), unfolding(array_layout::specs::Cells::cell_by))]
pub(crate) fn view_slot<'a>(
    body: &'a [u8],
    own: &'a ArrayData,
    children: &[Array],
    i: usize,
) -> CellView<'a>
    requires sound { IsSound body.now (node own.now (kids_of children.now)) }
    requires below { i < own.now.len }
    requires valid { IsValid (cell body.now (node own.now (kids_of children.now)) i) }
    ensures { mapped shallow (cell body.now (node own.now (kids_of children.now)) i) ≡ Ok (viewed result) }
{
    if is_null_slot(body, own, i) {
        return CellView::Null;
    }
    match &own.dictionary {
        Some(dictionary) => view_encoded(body, own, dictionary, i),
        None => view_value(body, own, children, i),
    }
}
