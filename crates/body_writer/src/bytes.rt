//! Bytes that are written from values and from columns alike.

ghost use Rattle.std.specs.Prelude.{◌≡◌, ◌<◌, ◌++◌, OnOk, replicate};
ghost use Rattle.byteorder.specs.Endian.{little_bytes};
ghost use Rattle.values.specs.Layouts.{offset_bound, offset_bytes};

use byteorder::{ByteOrder, LittleEndian};
use std::alloc::AllocError;
use values::OffsetWidth;

/// Appends this number of zeros.
pub(crate) fn push_zeros(out: &mut Vec<u8>, count: usize) -> Result<(), AllocError>
    ensures { OnOk result (out.new.items ≡ out.old.items ++ replicate count 0) }
{
    let len = out.len().checked_add(count).ok_or(AllocError)?;
    out.resize(len, 0)
}

/// Appends one offset.
pub(crate) fn push_offset(
    out: &mut Vec<u8>,
    width: OffsetWidth,
    offset: u64,
) -> Result<(), AllocError>
    requires { offset < offset_bound }
    ensures { OnOk result (out.new.items ≡ out.old.items ++ little_bytes (offset_bytes width) offset) }
{
    let mut bytes = [0u8; 8];
    LittleEndian::write_u64(&mut bytes, offset);
    match width {
        OffsetWidth::Bits32 => out.extend_from_slice(&bytes[..4]),
        OffsetWidth::Bits64 => out.extend_from_slice(&bytes),
    }
}
