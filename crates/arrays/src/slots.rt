//! Reads slots of an array's own buffers.

ghost use Rattle.std.specs.Prelude.{◌≡◌, ◌*◌, ◌<◌, ◌≤◌, true};
ghost use Rattle.std.specs.Str.{is_utf8};
ghost use Rattle.array_layout.specs.Placing.{bytes_of};
ghost use Rattle.array_layout.specs.Buffers.{is_null, slice_at};
ghost use Rattle.array_layout.specs.Sound.{LiesIn, AreFit};

use array_layout::{ArrayData, buffer, is_null_at, slice};
use values::OffsetWidth;

/// Whether slot `i` is null.
pub(crate) fn is_null_slot(body: &[u8], own: &ArrayData, i: usize) -> bool
    requires lies { LiesIn body.now own.now.validity }
    requires bits { 0 < own.now.validity.len → own.now.len ≤ 8 * own.now.validity.len }
    requires below { i < own.now.len }
    ensures { result ≡ is_null (bytes_of body.now own.now.validity) i }
{
    is_null_at(buffer(body, &own.validity), i)
}

/// The bytes of slot `i`.
pub(crate) fn bytes_slot<'a>(
    body: &'a [u8],
    own: &ArrayData,
    width: OffsetWidth,
    i: usize,
) -> &'a [u8]
    requires offsets { LiesIn body.now own.now.offsets }
    requires values { LiesIn body.now own.now.values }
    requires fit { AreFit width (bytes_of body.now own.now.offsets) own.now.len own.now.values.len }
    requires below { i < own.now.len }
    ensures { result.now ≡ slice_at width (bytes_of body.now own.now.offsets) (bytes_of body.now own.now.values) i }
{
    slice(
        buffer(body, &own.offsets),
        buffer(body, &own.values),
        width,
        i,
    )
}

/// Bytes that were validated as UTF-8, as a text: they aren't checked again.
#[tactic(auto, using(crate::proofs::Utf8Tests::text_tests))]
pub(crate) fn text_in(bytes: &[u8]) -> &str
    requires { is_utf8 bytes.now ≡ true }
    ensures { result.now ≡ bytes.now }
{
    unsafe { std::str::from_utf8_unchecked(bytes) }
}
