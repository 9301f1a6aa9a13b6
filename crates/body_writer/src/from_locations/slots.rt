//! Single slots of arrays without a dictionary, found by locations.

ghost use Rattle.std.specs.Prelude.{◌≡◌, ◌++◌, MatchOption, OnOk};
ghost use Rattle.values.specs.Datum.{null};
ghost use Rattle.values.specs.declared.layout.Layout.{Layout as Layouts};
ghost use Rattle.values.specs.declared.layout.Layout.TheVariants.{Bool as Booleans};
ghost use Rattle.body_writer.specs.Slots.{is_valid, truth_in};
ghost use Rattle.body_writer.specs.Runs.{slot_bytes, slot_width};
ghost use Rattle.body_writer.specs.Texts.{as_bytes, bytes_cell};
ghost use Rattle.body_writer.specs.Locations.{Fits, HasText, IsSlot, IsSlotAt, IsTexts, array_cell, located_cell};

use crate::bytes::push_zeros;
use crate::from_locations::location::RowLocation;
use crate::from_locations::plain::PlainArray;
use array_layout::{bit, fixed, is_null_at, slice};
use std::alloc::AllocError;

/// The array in which the slot at a location lies, if there is one.
#[inline(always)]
fn array_at<'a, 'b>(
    arrays: &'b [Option<PlainArray<'a>>],
    place: &RowLocation,
) -> Option<&'b PlainArray<'a>>
    ensures { MatchOption result (located_cell arrays.now place.now ≡ null)
        (λ a. (l : Layouts) → Fits l arrays.now place.now
        → IsSlotAt l a.now place.now.row (located_cell arrays.now place.now)) }
{
    match arrays.get(place.batch) {
        Some(array) => array.as_ref(),
        None => None,
    }
}

/// Whether there is a slot at a location, and it isn't null.
#[inline(always)]
pub(crate) fn is_valid_at(arrays: &[Option<PlainArray>], place: &RowLocation) -> bool
    requires { (l : Layouts) × Fits l arrays.now place.now }
    ensures { result ≡ is_valid (located_cell arrays.now place.now) }
{
    match array_at(arrays, place) {
        Some(array) => !is_null_at(array.bits, place.row),
        None => false,
    }
}

/// The bool in the slot at a location; false for a null.
#[inline(always)]
pub(crate) fn truth_at(arrays: &[Option<PlainArray>], place: &RowLocation) -> bool
    requires { Fits Booleans arrays.now place.now }
    ensures { result ≡ truth_in (located_cell arrays.now place.now) }
{
    match array_at(arrays, place) {
        Some(array) => !is_null_at(array.bits, place.row) && bit(array.values, place.row),
        None => false,
    }
}

/// The text or the bytes in slot `i`; `None` for a null.
#[inline(always)]
fn text_in<'a>(array: &PlainArray<'a>, i: usize) -> Option<&'a [u8]>
    requires { (l : Layouts) × HasText l array.now i }
    ensures { bytes_cell result ≡ as_bytes (array_cell array.now i) }
{
    if is_null_at(array.bits, i) {
        return None;
    }
    Some(slice(array.offsets, array.values, array.slots.offsets, i))
}

/// The text or the bytes in the slot at a location; `None` for a null.
#[inline(always)]
pub(crate) fn text_at<'a>(
    arrays: &[Option<PlainArray<'a>>],
    place: &RowLocation,
) -> Option<&'a [u8]>
    requires { (l : Layouts) × IsTexts l × Fits l arrays.now place.now }
    ensures { bytes_cell result ≡ as_bytes (located_cell arrays.now place.now) }
{
    match array_at(arrays, place) {
        Some(array) => text_in(array, place.row),
        None => None,
    }
}

/// The eight bytes of slot `i`: zeros for a null.
#[inline(always)]
fn word_in(array: &PlainArray, i: usize) -> [u8; 8]
    requires { (l : Layouts) × IsSlot l array.now i × (8 ≡ slot_width l) }
    ensures { (l : Layouts) → IsSlot l array.now i → 8 ≡ slot_width l → result ≡ slot_bytes l (array_cell array.now i) }
{
    if is_null_at(array.bits, i) {
        return [0; 8];
    }
    *fixed(array.values, 8, i).as_array::<8>().unwrap()
}

/// The eight bytes of the slot at a location: zeros for a null, and where there is no array.
#[inline(always)]
pub(crate) fn word_at(arrays: &[Option<PlainArray>], place: &RowLocation) -> [u8; 8]
    requires { (l : Layouts) × Fits l arrays.now place.now × (8 ≡ slot_width l) }
    ensures { (l : Layouts) → Fits l arrays.now place.now → 8 ≡ slot_width l
        → result ≡ slot_bytes l (located_cell arrays.now place.now) }
{
    match array_at(arrays, place) {
        Some(array) => word_in(array, place.row),
        None => [0; 8],
    }
}

/// Appends the `width` bytes of slot `i`: zeros for a null.
#[inline(always)]
fn push_slot(
    out: &mut Vec<u8>,
    width: usize,
    array: &PlainArray,
    i: usize,
) -> Result<(), AllocError>
    requires { (l : Layouts) × IsSlot l array.now i × (width ≡ slot_width l) }
    ensures { OnOk result ((l : Layouts) → IsSlot l array.now i → width ≡ slot_width l
        → out.new.items ≡ out.old.items ++ slot_bytes l (array_cell array.now i)) }
{
    if is_null_at(array.bits, i) {
        return push_zeros(out, width);
    }
    out.extend_from_slice(fixed(array.values, width, i))?;
    Ok(())
}

/// Appends the `width` bytes of the slot at a location: zeros for a null, and where there is no array.
#[inline(always)]
pub(crate) fn push_slot_at(
    out: &mut Vec<u8>,
    width: usize,
    arrays: &[Option<PlainArray>],
    place: &RowLocation,
) -> Result<(), AllocError>
    requires { (l : Layouts) × Fits l arrays.now place.now × (width ≡ slot_width l) }
    ensures { OnOk result ((l : Layouts) → Fits l arrays.now place.now → width ≡ slot_width l
        → out.new.items ≡ out.old.items ++ slot_bytes l (located_cell arrays.now place.now)) }
{
    match array_at(arrays, place) {
        Some(array) => push_slot(out, width, array, place.row),
        None => push_zeros(out, width),
    }
}
