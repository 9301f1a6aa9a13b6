//! Ways to damage a stream.

ghost use Rattle.std.specs.Prelude.{
  ◌≡◌,
  ◌<◌,
  ◌+◌,
  ◌^◌,
  ◌++◌,
  IfOk,
  bit_xor,
  drop,
  length,
  slice_index,
  slice_set,
  take,
};

use std::alloc::{AllocError, Global};

/// The stream without the byte at `place`.
pub fn dropped(alloc: Global, valid: &[u8], place: usize) -> Result<Vec<u8>, AllocError>
    requires { place < length valid.now }
    ensures { IfOk result (λ v. v.items ≡ take place valid.now ++ drop (place + 1) valid.now) }
{
    let mut bytes = valid[..place].to_vec(alloc)?;
    bytes.extend_from_slice(&valid[place + 1..])?;
    Ok(bytes)
}

/// The stream with one bit flipped in the byte at `place`.
pub fn flipped(alloc: Global, valid: &[u8], place: usize, bit: u8) -> Result<Vec<u8>, AllocError>
    requires place { place < length valid.now }
    requires bit { bit < 8 }
    ensures { IfOk result (λ v. v.items ≡ slice_set valid.now place (bit_xor (slice_index valid.now place) (2 ^ bit))) }
{
    let mut bytes = valid.to_vec(alloc)?;
    bytes[place] ^= 1 << bit;
    Ok(bytes)
}
