//! Writes texts or bytes, each from a slice. `None` is a null.

ghost use Rattle.std.specs.Prelude.{◌≡◌, ◌<◌, ◌≤◌, ◌++◌, IfOk, OnOk, [], ◌∷◌, length};
ghost use Rattle.bitmaps.specs.Packed.{bytes_of};
ghost use Rattle.values.specs.declared.layout.Layout.TheVariants.{Binary as Bytes};
ghost use Rattle.values.specs.Layouts.{offset_bound};
ghost use Rattle.body_writer.specs.Slots.{bytes_in, length_in, null_count, total_length};
ghost use Rattle.body_writer.specs.Columns.{joined, offsets, own_buffers, own_node, validity as validity_of};
ghost use Rattle.body_writer.specs.Grows.{Appends, Grows};
ghost use Rattle.body_writer.specs.Texts.{bytes_cell, bytes_cells};

use crate::body::Body;
use crate::bytes::push_offset;
use array_layout::FieldNode;
use bitmaps::Bitmap;
use std::alloc::{AllocError, Global};
use values::OffsetWidth;

/// The bytes of a text; none for a null.
fn bytes_of<'a>(text: Option<&'a [u8]>) -> &'a [u8]
    ensures value { result.now ≡ bytes_in (bytes_cell text.entry) }
    ensures size { length result.now ≡ length_in (bytes_cell text.entry) }
{
    match text {
        Some(bytes) => bytes,
        None => &[],
    }
}

/// How many texts are null.
#[tactic(auto, using(crate::proofs::TextLemmas::steps))]
fn count_nulls(texts: &[Option<&[u8]>]) -> usize
    ensures value { result ≡ null_count (bytes_cells texts.now) }
    ensures bound { result ≤ length texts.now }
{
    let mut nulls = 0;
    for text in texts {
        if text.is_none() {
            nulls += 1;
        }
    }
    nulls
}

/// The validity buffer: a bit a text, or no bits where none is null.
#[tactic(auto, using(crate::proofs::TextLemmas::bits))]
fn validity(alloc: Global, texts: &[Option<&[u8]>], nulls: usize) -> Result<Bitmap, AllocError>
    requires few { length texts.now < offset_bound }
    requires nulls { nulls ≡ null_count (bytes_cells texts.now) }
    ensures { IfOk result (λ bits. bytes_of bits ≡ validity_of (bytes_cells texts.now)) }
{
    let mut bits = Bitmap::new(alloc);
    if nulls == 0 {
        return Ok(bits);
    }
    for text in texts {
        bits.push(text.is_some())?;
    }
    Ok(bits)
}

/// Appends the offsets at which the texts start, and where the last one ends.
#[tactic(auto, using(crate::proofs::TextLemmas::steps), unfolding(crate::specs::Columns::offsets, crate::specs::Columns::offsets_from))]
fn push_offsets(
    out: &mut Vec<u8>,
    texts: &[Option<&[u8]>],
    width: OffsetWidth,
) -> Result<(), AllocError>
    requires { total_length (bytes_cells texts.now) < offset_bound }
    ensures { OnOk result (out.new.items ≡ out.old.items ++ offsets width (bytes_cells texts.now)) }
{
    let mut end = 0;
    for text in texts {
        push_offset(out, width, end)?;
        end += bytes_of(*text).len() as u64;
    }
    push_offset(out, width, end)
}

/// Appends the bytes of all texts, one after the other.
#[tactic(auto, using(crate::proofs::TextLemmas::steps), unfolding(crate::specs::Columns::joined))]
fn push_joined(out: &mut Vec<u8>, texts: &[Option<&[u8]>]) -> Result<(), AllocError>
    ensures { OnOk result (out.new.items ≡ out.old.items ++ joined (bytes_cells texts.now)) }
{
    for text in texts {
        out.extend_from_slice(bytes_of(*text))?;
    }
    Ok(())
}

/// Appends the buffer of the offsets.
fn append_offsets(
    width: OffsetWidth,
    texts: &[Option<&[u8]>],
    body: &mut Body,
) -> Result<(), AllocError>
    requires { total_length (bytes_cells texts.now) < offset_bound }
    ensures { OnOk result (Appends body.old body.new (offsets width (bytes_cells texts.now) ∷ [])) }
{
    let from = body.bytes.len();
    body.bytes.reserve(width.bytes().saturating_mul(texts.len().saturating_add(1)))?;
    push_offsets(&mut body.bytes, texts, width)?;
    body.end_buffer(from)
}

/// Appends the buffer of the bytes of all texts.
fn append_joined(texts: &[Option<&[u8]>], body: &mut Body) -> Result<(), AllocError>
    ensures { OnOk result (Appends body.old body.new (joined (bytes_cells texts.now) ∷ [])) }
{
    let from = body.bytes.len();
    push_joined(&mut body.bytes, texts)?;
    body.end_buffer(from)
}

/// Appends the node and the buffers of a column of these texts or bytes.
pub(crate) fn write_texts(
    alloc: Global,
    width: OffsetWidth,
    texts: &[Option<&[u8]>],
    body: &mut Body,
) -> Result<(), AllocError>
    requires few { length texts.now < offset_bound }
    requires short { total_length (bytes_cells texts.now) < offset_bound }
    ensures { OnOk result
        (Grows body.old body.new (own_node (bytes_cells texts.now) ∷ [])
        (own_buffers (Bytes width) (bytes_cells texts.now))) }
{
    let nulls = count_nulls(texts);
    body.nodes.push(FieldNode {
        length: texts.len(),
        nulls: nulls as i64,
    })?;
    body.append(validity(alloc, texts, nulls)?.as_bytes())?;
    append_offsets(width, texts, body)?;
    append_joined(texts, body)
}
