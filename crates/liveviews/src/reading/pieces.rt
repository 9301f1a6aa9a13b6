//! A source of bytes that is read piece by piece.

ghost use Rattle.std.specs.Prelude.{◌≡◌, ◌+◌, ◌<◌, ◌≤◌, ℕ, IfOk, List, OnOk, Option, length, take};
ghost use Rattle.std.specs.Io.KnownBytes.{Consumes, IsAtEnd};

use crate::files::FileFault;
use std::alloc::{AllocError, Global};
use std::io::{ErrorKind, Read};

/// The initial length of the buffer, and the least by which it grows.
const ROOM_LEN: usize = 1 << 20;

/// The greatest length of a piece that isn't the rest of a message.
const PIECE_LEN: usize = 1 << 16;

/// How many bytes of a message must be missing for its rest to be read by itself.
const LEAST_REST: usize = 1 << 13;

/// Makes the buffer that pieces of a source are read into.
pub(crate) fn room(alloc: Global) -> Result<Vec<u8>, AllocError>
    ensures { IfOk result (λ room. 0 < length room.items) }
{
    vec![in alloc; 0; ROOM_LEN]
}

/// Reads the next bytes of a source to the front of `room`, and returns how many. Where `room` isn't empty, 0 means the
/// end of the source.
pub(crate) fn read_piece<R: Read>(source: &mut R, room: &mut [u8]) -> Result<usize, FileFault>
    ensures within { IfOk result (λ n. n ≤ length room.new) }
    ensures took { IfOk result
        (λ n. Consumes (R.remaining source.old) (R.remaining source.new) (take n room.new)) }
    ensures end { IfOk result (λ n. n ≡ 0 → 0 < length room.old → IsAtEnd (R.remaining source.new)) }
{
    // A read that a signal interrupts reads nothing, and is tried again.
    for _ in 0..u64::MAX {
        match source.read(room) {
            Ok(len) => return Ok(len),
            Err(error) => {
                if error.kind() != ErrorKind::Interrupted {
                    return Err(FileFault::from(error));
                }
            }
        }
    }
    Err(FileFault::Unusable)
}

/// Makes the buffer as long as `len`, where it is shorter.
fn lengthen(room: &mut Vec<u8>, len: usize) -> Result<(), AllocError>
    ensures long { OnOk result (len ≤ length room.new.items) }
    ensures same { OnOk result (take (length room.old.items) room.new.items ≡ room.old.items) }
{
    if room.len() < len {
        room.resize(len, 0)?;
    }
    Ok(())
}

/// Reads the next bytes of a source to `room` from index `from` up to `end`, and returns how many.
fn read_between<R: Read>(
    source: &mut R,
    room: &mut [u8],
    from: usize,
    end: usize,
) -> Result<usize, FileFault>
    requires order { from < end }
    requires long { end ≤ length room.old }
    ensures within { IfOk result (λ n. from + n ≤ end) }
    ensures took { IfOk result (λ n. (held : Option (List ℕ))
        → Consumes held (R.remaining source.old) (take from room.old)
        → Consumes held (R.remaining source.new) (take (from + n) room.new)) }
    ensures end { IfOk result (λ n. n ≡ 0 → IsAtEnd (R.remaining source.new)) }
{
    let count = read_piece(source, &mut room[from..end])?;
    Ok(count)
}

/// Reads the next bytes of a source after the first `len` of `room`, of which `most` are wanted in all, and returns how
/// many. The buffer grows by as much as was read.
fn read_behind<R: Read>(
    source: &mut R,
    room: &mut Vec<u8>,
    len: usize,
    most: usize,
) -> Result<usize, FileFault>
    requires { len ≤ length room.old.items }
    ensures within { IfOk result (λ n. len + n ≤ length room.new.items) }
    ensures took { IfOk result (λ n. (held : Option (List ℕ))
        → Consumes held (R.remaining source.old) (take len room.old.items)
        → Consumes held (R.remaining source.new) (take (len + n) room.new.items)) }
    ensures end { IfOk result (λ n. n ≡ 0 → len < most → IsAtEnd (R.remaining source.new)) }
{
    let end = most.min(len.saturating_add(len.max(ROOM_LEN)));
    if end <= len {
        return Ok(0);
    }
    lengthen(room, end)?;
    let count = read_between(source, room.as_mut_slice(), len, end)?;
    Ok(count)
}

/// Reads the next `most` bytes of a source to the front of `room`, or all that remain, and returns how many.
fn read_all<R: Read>(source: &mut R, room: &mut Vec<u8>, most: usize) -> Result<usize, FileFault>
    ensures within { IfOk result (λ n. n ≤ length room.new.items) }
    ensures took { IfOk result
        (λ n. Consumes (R.remaining source.old) (R.remaining source.new) (take n room.new.items)) }
    ensures end { IfOk result (λ n. n ≡ 0 → 0 < most → IsAtEnd (R.remaining source.new)) }
{
    let mut len = 0;
    for _ in 0..u64::MAX {
        let count = read_behind(source, room, len, most)?;
        if count == 0 {
            return Ok(len);
        }
        len += count;
    }
    Ok(len)
}

/// Reads the next piece of a source to the front of `room`, and returns how long it is: all that is `missing` of a
/// message where that is much, else what one read gives. 0 means the end of the source.
pub(crate) fn next_piece<R: Read>(
    source: &mut R,
    room: &mut Vec<u8>,
    missing: usize,
) -> Result<usize, FileFault>
    ensures within { IfOk result (λ n. n ≤ length room.new.items) }
    ensures took { IfOk result
        (λ n. Consumes (R.remaining source.old) (R.remaining source.new) (take n room.new.items)) }
    ensures end { IfOk result (λ n. n ≡ 0 → IsAtEnd (R.remaining source.new)) }
{
    if missing >= LEAST_REST {
        return read_all(source, room, missing);
    }
    lengthen(room, PIECE_LEN)?;
    let len = read_between(source, room.as_mut_slice(), 0, PIECE_LEN)?;
    Ok(len)
}

/// Reads the next bytes of a source to the front of `room`, at most `most` of them, and returns how many. Where neither
/// `room` is empty nor `most` is 0, 0 means the end of the source.
pub(crate) fn read_at_most<R: Read>(
    source: &mut R,
    most: u64,
    room: &mut [u8],
) -> Result<usize, FileFault>
    ensures within { IfOk result (λ n. n ≤ length room.new) }
    ensures most { IfOk result (λ n. n ≤ most) }
{
    let most = most.min(room.len() as u64) as usize;
    if most == 0 {
        return Ok(0);
    }
    read_piece(source, &mut room[..most])
}

/// Skips the next `len` bytes of a source. Returns how many of them the source lacks.
pub(crate) fn skip<R: Read>(source: &mut R, len: u64, room: &mut [u8]) -> Result<u64, FileFault>
    ensures { IfOk result (λ n. n ≤ len) }
{
    let mut left = len;
    for _ in 0..u64::MAX {
        let taken = read_at_most(source, left, room)?;
        if taken == 0 {
            break;
        }
        left -= taken as u64;
    }
    Ok(left)
}
