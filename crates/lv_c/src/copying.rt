//! Copies to the buffers of C.

ghost use Rattle.lv_c.specs.Copies.{CopiesTo};

/// Copies bytes from offset `from` on, as many as there are and fit, and returns how many.
pub fn copy_from(bytes: &[u8], from: usize, buffer: &mut [u8]) -> usize
    ensures { CopiesTo bytes.now from buffer.old result buffer.new }
{
    let Some(rest) = bytes.get(from..) else {
        return 0;
    };
    let len = rest.len().min(buffer.len());
    buffer[..len].copy_from_slice(&rest[..len]);
    len
}
