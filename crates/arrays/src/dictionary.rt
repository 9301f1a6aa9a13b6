//! Dictionary-encoded slots: the dictionary value at the index in a slot. 26 DictionaryIndex.

ghost use Rattle.std.specs.Prelude.{◌≡◌, ◌+◌, ◌*◌, ◌-◌, ◌^◌, ◌<◌, ◌≤◌, Err, IfOk, Ok, length};
ghost use Rattle.std.specs.Option.{option_copied};
ghost use Rattle.values.specs.declared.faults.StreamFault.TheVariants as fault;
ghost use Rattle.values.specs.declared.layout.Layout.TheVariants.{Int};
ghost use Rattle.values.specs.Layouts.{bytes_in};
ghost use Rattle.bitmaps.specs.Bits.{HasBits};
ghost use Rattle.values.specs.Reading.{Passes, IsValid, must, each, one};
ghost use Rattle.array_layout.specs.Placing.{bytes_of};
ghost use Rattle.array_layout.specs.Sound.{LiesIn};
ghost use Rattle.array_layout.specs.Buffers.{number_by, unsigned_at};
ghost use Rattle.array_layout.specs.Cells.{coded_by, indexed};
ghost use Rattle.arrays.specs.Encoded.{HasIndex, HasIndices, index_bound};
ghost use Rattle.arrays.specs.Ranges.{where_valid};

use array_layout::{ArrayData, DictionaryValues, buffer, is_null_at};
use byteorder::{ByteOrder, LittleEndian};
use std::alloc::{AllocError, Global};
use values::{IntWidth, Layout, StreamFault, Value};

/// Index `i`, read as a number without a sign.
#[tactic(auto, unfolding(array_layout::specs::Buffers::unsigned_at))]
pub fn index_at(indices: &[u8], width: IntWidth, i: usize) -> usize
    requires { bytes_in width * (i + 1) ≤ length indices.now }
    ensures value { result ≡ unsigned_at (bytes_in width) indices.now i }
    ensures bound { result < 2 ^ (8 * bytes_in width) }
{
    match width {
        IntWidth::Bits8 => usize::from(indices[i]),
        IntWidth::Bits16 => usize::from(LittleEndian::read_u16(&indices[2 * i..])),
        IntWidth::Bits32 => LittleEndian::read_u32(&indices[4 * i..]) as usize,
        IntWidth::Bits64 => LittleEndian::read_u64(&indices[8 * i..]) as usize,
    }
}

/// The least unsigned number that is negative when it is read with a sign.
fn sign_bit(width: IntWidth) -> usize
    ensures { result ≡ 2 ^ (8 * bytes_in width - 1) }
{
    match width {
        IntWidth::Bits8 => 1 << 7,
        IntWidth::Bits16 => 1 << 15,
        IntWidth::Bits32 => 1 << 31,
        IntWidth::Bits64 => 1 << 63,
    }
}

/// The bound below which numbers, read without their signs, are indices into `count` values.
fn index_bound(width: IntWidth, signed: bool, count: usize) -> usize
    ensures { result ≡ index_bound signed (bytes_in width) count }
{
    if signed {
        count.min(sign_bit(width))
    } else {
        count
    }
}

/// The dictionary value at an index that was read without its sign.
#[tactic(auto, using(crate::proofs::IndexLemmas::reading))]
fn value_at(
    dictionary: &DictionaryValues,
    width: IntWidth,
    signed: bool,
    index: usize,
) -> Option<&Value>
    requires { index < 2 ^ (8 * bytes_in width) }
    ensures { must fault.DictionaryIndex (option_copied result)
        ≡ indexed dictionary.now.values (number_by signed (bytes_in width) index) }
{
    if index >= index_bound(width, signed, dictionary.values.len()) {
        return None;
    }
    dictionary.values.get(index)
}

/// The dictionary value that slot `i` refers to; `None` if its index is out of range.
#[tactic(auto, using(crate::proofs::DictionaryLemmas::encoded_laws))]
pub fn find_value<'a>(
    body: &[u8],
    own: &ArrayData,
    dictionary: &'a DictionaryValues,
    i: usize,
) -> Option<&'a Value>
    requires lies { LiesIn body.now own.now.values }
    requires room { HasIndex own.now.layout own.now i }
    ensures { must fault.DictionaryIndex (option_copied result)
        ≡ coded_by own.now.layout dictionary.now.values (bytes_of body.now own.now.values) i }
{
    match own.layout {
        Layout::Int { width, signed } => value_at(
            dictionary,
            width,
            signed,
            index_at(buffer(body, &own.values), width, i),
        ),
        Layout::Bool
        | Layout::Decimal { .. }
        | Layout::FixedSizeBinary { .. }
        | Layout::Utf8 { .. }
        | Layout::Binary { .. }
        | Layout::List { .. }
        | Layout::Struct => None,
    }
}

/// Validates the indices of the slots from `from` to `to`, numbers of this width.
#[tactic(auto, using(values::proofs::Readings::deciding, crate::proofs::RangeLemmas::slot_laws, crate::proofs::IndexLemmas::judging))]
fn validate_numbers(
    bits: &[u8],
    indices: &[u8],
    width: IntWidth,
    signed: bool,
    dictionary: &DictionaryValues,
    from: usize,
    to: usize,
) -> Result<(), StreamFault>
    requires order { from ≤ to }
    requires bits { 0 < length bits.now → HasBits bits.now to }
    requires room { bytes_in width * to ≤ length indices.now }
    ensures { Passes result
        (each (where_valid bits.now (coded_by (Int width signed) dictionary.now.values indices.now)) from (to - from)) }
{
    let bound = index_bound(width, signed, dictionary.values.len());
    for i in from..to {
        if !is_null_at(bits, i) && index_at(indices, width, i) >= bound {
            return Err(StreamFault::DictionaryIndex);
        }
    }
    Ok(())
}

/// Validates slots without numbers, none of which has an index.
#[tactic(auto, using(values::proofs::Readings::deciding, crate::proofs::RangeLemmas::slot_laws))]
fn validate_nulls(bits: &[u8], from: usize, to: usize) -> Result<(), StreamFault>
    requires order { from ≤ to }
    requires bits { 0 < length bits.now → HasBits bits.now to }
    ensures { Passes result
        (each (where_valid bits.now (λ i. Err (one fault.DictionaryIndex))) from (to - from)) }
{
    for i in from..to {
        if !is_null_at(bits, i) {
            return Err(StreamFault::DictionaryIndex);
        }
    }
    Ok(())
}

/// Validates the indices of the slots from `from` to `to`. No value is read.
#[tactic(auto, using(crate::proofs::IndexLemmas::by_layout))]
pub(crate) fn validate_indices(
    bits: &[u8],
    indices: &[u8],
    layout: Layout,
    dictionary: &DictionaryValues,
    from: usize,
    to: usize,
) -> Result<(), StreamFault>
    requires order { from ≤ to }
    requires bits { 0 < length bits.now → HasBits bits.now to }
    requires room { HasIndices layout indices.now to }
    ensures { Passes result
        (each (where_valid bits.now (coded_by layout dictionary.now.values indices.now)) from (to - from)) }
{
    match layout {
        Layout::Int { width, signed } => {
            validate_numbers(bits, indices, width, signed, dictionary, from, to)
        }
        _ => validate_nulls(bits, from, to),
    }
}

/// Copies the dictionary value that slot `i` refers to.
#[tactic(auto, using(crate::proofs::DictionaryLemmas::copy_laws))]
pub(crate) fn copy_value(
    alloc: Global,
    body: &[u8],
    own: &ArrayData,
    dictionary: &DictionaryValues,
    i: usize,
) -> Result<Value, AllocError>
    requires lies { LiesIn body.now own.now.values }
    requires room { HasIndex own.now.layout own.now i }
    requires valid { IsValid (coded_by own.now.layout dictionary.now.values (bytes_of body.now own.now.values) i) }
    ensures { IfOk result
        (λ v. coded_by own.now.layout dictionary.now.values (bytes_of body.now own.now.values) i ≡ Ok v) }
{
    find_value(body, own, dictionary, i).unwrap().copy(alloc)
}
