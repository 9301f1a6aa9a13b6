//! Gathers the cells of a column location by location.

ghost use Rattle.std.specs.Prelude.{◌≡◌, ◌+◌, ◌<◌, ◌≤◌, ◌++◌, All, IfOk, OnOk, length, map};
ghost use Rattle.std.specs.List.{flat_map};
ghost use Rattle.bitmaps.specs.Packed.{bytes_of};
ghost use Rattle.values.specs.declared.layout.Layout.{Layout as Layouts};
ghost use Rattle.values.specs.declared.layout.Layout.TheVariants.{Bool as Booleans};
ghost use Rattle.values.specs.Layouts.{offset_bound};
ghost use Rattle.body_writer.specs.Slots.{null_count};
ghost use Rattle.body_writer.specs.Columns.{truths as truths_of, validity as validity_of};
ghost use Rattle.body_writer.specs.Runs.{slot_bytes, slot_width};
ghost use Rattle.body_writer.specs.Texts.{as_bytes, bytes_cells};
ghost use Rattle.body_writer.specs.Locations.{Fits, IsTexts, located_cells};

use crate::from_columns::slot_runs::slot_width;
use crate::from_locations::location::RowLocation;
use crate::from_locations::plain::PlainArray;
use crate::from_locations::slots::{is_valid_at, push_slot_at, text_at, truth_at, word_at};
use bitmaps::Bitmap;
use std::alloc::{AllocError, Global};
use values::Layout;

/// How many of these cells are null.
#[tactic(auto, using(crate::proofs::GatheredCells::steps))]
pub(crate) fn count_nulls(arrays: &[Option<PlainArray>], locations: &[RowLocation]) -> usize
    requires { (l : Layouts) × All (Fits l arrays.now) locations.now }
    ensures value { result ≡ null_count (located_cells arrays.now locations.now) }
    ensures bound { result ≤ length locations.now }
{
    let mut nulls = 0;
    for place in locations {
        if !is_valid_at(arrays, place) {
            nulls += 1;
        }
    }
    nulls
}

/// The validity buffer: a bit a cell, or no bits where no cell is null.
#[tactic(auto, using(crate::proofs::GatheredCells::steps))]
pub(crate) fn validity(
    alloc: Global,
    arrays: &[Option<PlainArray>],
    locations: &[RowLocation],
    nulls: usize,
) -> Result<Bitmap, AllocError>
    requires fits { (l : Layouts) × All (Fits l arrays.now) locations.now }
    requires few { length locations.now < offset_bound }
    requires nulls { nulls ≡ null_count (located_cells arrays.now locations.now) }
    ensures { IfOk result (λ bits. bytes_of bits ≡ validity_of (located_cells arrays.now locations.now)) }
{
    let mut bits = Bitmap::new(alloc);
    if nulls == 0 {
        return Ok(bits);
    }
    for place in locations {
        bits.push(is_valid_at(arrays, place))?;
    }
    Ok(bits)
}

/// The values of bools: a bit a cell, 0 for a null.
#[tactic(auto, using(crate::proofs::GatheredCells::steps))]
pub(crate) fn truths(
    alloc: Global,
    arrays: &[Option<PlainArray>],
    locations: &[RowLocation],
) -> Result<Bitmap, AllocError>
    requires fits { All (Fits Booleans arrays.now) locations.now }
    requires few { length locations.now < offset_bound }
    ensures { IfOk result (λ bits. bytes_of bits ≡ truths_of (located_cells arrays.now locations.now)) }
{
    let mut bits = Bitmap::new(alloc);
    for place in locations {
        bits.push(truth_at(arrays, place))?;
    }
    Ok(bits)
}

/// The bytes of texts or of bytes; `None` for a null.
#[tactic(auto, using(crate::proofs::GatheredCells::steps))]
pub(crate) fn texts<'a>(
    alloc: Global,
    arrays: &[Option<PlainArray<'a>>],
    locations: &[RowLocation],
) -> Result<Vec<Option<&'a [u8]>>, AllocError>
    requires { (l : Layouts) × IsTexts l × All (Fits l arrays.now) locations.now }
    ensures { IfOk result (λ texts. bytes_cells texts.items ≡ map as_bytes (located_cells arrays.now locations.now)) }
{
    let mut texts = Vec::with_capacity(alloc, locations.len())?;
    for place in locations {
        texts.push(text_at(arrays, place))?;
    }
    Ok(texts)
}

/// The bytes of cells that take eight bytes each.
fn words(
    alloc: Global,
    arrays: &[Option<PlainArray>],
    locations: &[RowLocation],
) -> Result<Vec<[u8; 8]>, AllocError>
    requires { (l : Layouts) × All (Fits l arrays.now) locations.now × (8 ≡ slot_width l) }
    ensures { IfOk result (λ words. (l : Layouts) → All (Fits l arrays.now) locations.now → 8 ≡ slot_width l
        → words.items ≡ map (slot_bytes l) (located_cells arrays.now locations.now)) }
{
    let mut words = Vec::with_capacity(alloc, locations.len())?;
    for place in locations {
        words.push(word_at(arrays, place))?;
    }
    Ok(words)
}

/// Appends the bytes of cells that take eight bytes each. They are read in a loop that does nothing else, so that the
/// processor has many of them under way at once.
fn push_words(
    alloc: Global,
    out: &mut Vec<u8>,
    arrays: &[Option<PlainArray>],
    locations: &[RowLocation],
) -> Result<(), AllocError>
    requires { (l : Layouts) × All (Fits l arrays.now) locations.now × (8 ≡ slot_width l) }
    ensures { OnOk result ((l : Layouts) → All (Fits l arrays.now) locations.now → 8 ≡ slot_width l
        → out.new.items ≡ out.old.items ++ flat_map (slot_bytes l) (located_cells arrays.now locations.now)) }
{
    let words = words(alloc, arrays, locations)?;
    out.extend_from_slice(words.as_flattened())?;
    Ok(())
}

/// Appends the bytes of cells of a fixed width: each call has a loop of its own, in which the width may be constant.
#[inline(always)]
fn push_of_width(
    out: &mut Vec<u8>,
    width: usize,
    arrays: &[Option<PlainArray>],
    locations: &[RowLocation],
) -> Result<(), AllocError>
    requires { (l : Layouts) × All (Fits l arrays.now) locations.now × (width ≡ slot_width l) }
    ensures { OnOk result ((l : Layouts) → All (Fits l arrays.now) locations.now → width ≡ slot_width l
        → out.new.items ≡ out.old.items ++ flat_map (slot_bytes l) (located_cells arrays.now locations.now)) }
{
    for place in locations {
        push_slot_at(out, width, arrays, place)?;
    }
    Ok(())
}

/// Appends the bytes of cells of a fixed width: zeros for a null.
pub(crate) fn push_slots(
    alloc: Global,
    out: &mut Vec<u8>,
    layout: Layout,
    arrays: &[Option<PlainArray>],
    locations: &[RowLocation],
) -> Result<(), AllocError>
    requires { All (Fits layout arrays.now) locations.now }
    ensures { OnOk result
        (out.new.items ≡ out.old.items ++ flat_map (slot_bytes layout) (located_cells arrays.now locations.now)) }
{
    match slot_width(layout) {
        4 => push_of_width(out, 4, arrays, locations),
        8 => push_words(alloc, out, arrays, locations),
        width => push_of_width(out, width, arrays, locations),
    }
}
