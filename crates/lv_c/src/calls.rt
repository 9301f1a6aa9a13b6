//! The exports for sessions.

ghost use Rattle.std.specs.Prelude.{◌≡◌, None};
ghost use Rattle.lv_c.specs.Calls.{
  CopyCall,
  FinishCall,
  IsBoxed,
  LiveRowsCall,
  OpenCall,
  PushCall,
  StaleCall,
  UndoCall,
  VisitsCall,
  WriteCall,
};

use crate::answers::{LvPushed, LvWritten, NOT_OPEN, answer_end, answer_push, answer_view};
use crate::copying::copy_from;
use crate::handle::{Handle, put, take};
use crate::held::Held;
use std::alloc::Global;
use values::Cause;

/// Puts a session behind an empty handle, unless memory for its box is refused.
fn keep(alloc: Global, handle: &mut Handle, held: Held) -> u8
    requires { handle.old.slot.value ≡ None }
    ensures { IsBoxed held result handle.new.slot.value }
{
    match Box::new(alloc, held) {
        Ok(held) => {
            put(handle, held);
            0
        }
        Err(_) => Cause::Memory.number(),
    }
}

/// Opens the session of a configuration, the bytes of a TOML document. A handle that is open stays as it is.
#[unsafe(no_mangle)]
pub extern "C" fn lv_open(alloc: Global, handle: &mut Handle, config: &[u8]) -> u8
    ensures { OpenCall handle.old.slot.value config.now result handle.new.slot.value }
{
    if let Some(held) = take(alloc, handle) {
        put(handle, held);
        return NOT_OPEN;
    }
    match Held::open(alloc, config) {
        Ok(held) => keep(alloc, handle, held),
        Err(cause) => cause.number(),
    }
}

/// Pushes a piece of the stream of a feed, as `Session::push` does.
#[unsafe(no_mangle)]
pub extern "C" fn lv_push(alloc: Global, handle: &mut Handle, feed: &[u8], piece: &[u8]) -> LvPushed
    ensures { PushCall handle.old.slot.value feed.now piece.now result handle.new.slot.value }
{
    let Some(mut held) = take(alloc, handle) else {
        return LvPushed {
            used: 0,
            cause: NOT_OPEN,
            event: 0,
        };
    };
    let answer = held.push(feed, piece);
    put(handle, held);
    answer_push(answer)
}

/// Ends the input of a feed, as `Session::finish` does.
#[unsafe(no_mangle)]
pub extern "C" fn lv_finish(alloc: Global, handle: &mut Handle, feed: &[u8]) -> u8
    ensures { FinishCall handle.old.slot.value feed.now result handle.new.slot.value }
{
    let Some(mut held) = take(alloc, handle) else {
        return NOT_OPEN;
    };
    let answer = held.finish(feed);
    put(handle, held);
    answer_end(answer)
}

/// Undoes the latest accepted edit, as `Session::undo` does.
#[unsafe(no_mangle)]
pub extern "C" fn lv_undo(alloc: Global, handle: &mut Handle) -> u8
    ensures { UndoCall handle.old.slot.value result handle.new.slot.value }
{
    let Some(mut held) = take(alloc, handle) else {
        return NOT_OPEN;
    };
    let answer = held.undo();
    put(handle, held);
    answer_end(answer)
}

/// Writes the stream of a view to memory, as `Session::write_view` does. `lv_copy` copies it from there.
#[unsafe(no_mangle)]
pub extern "C" fn lv_write(alloc: Global, handle: &mut Handle, view: &[u8]) -> LvWritten
    ensures { WriteCall handle.old.slot.value view.now result handle.new.slot.value }
{
    let Some(mut held) = take(alloc, handle) else {
        return LvWritten {
            len: 0,
            cause: NOT_OPEN,
        };
    };
    let answer = held.write(alloc, view);
    put(handle, held);
    answer_view(answer)
}

/// Copies bytes of the stream that was written last, from offset `from` on, and returns how many: as many as there are
/// and fit.
#[unsafe(no_mangle)]
pub extern "C" fn lv_copy(
    alloc: Global,
    handle: &mut Handle,
    from: usize,
    buffer: &mut [u8],
) -> usize
    ensures copies { CopyCall handle.old.slot.value from buffer.old result buffer.new }
    ensures same { handle.new.slot.value ≡ handle.old.slot.value }
{
    let Some(held) = take(alloc, handle) else {
        return 0;
    };
    let len = copy_from(held.output.bytes(), from, buffer);
    put(handle, held);
    len
}

/// The number of live rows of the main table; 0 where the handle isn't open.
#[unsafe(no_mangle)]
pub extern "C" fn lv_live_rows(alloc: Global, handle: &mut Handle) -> usize
    ensures rows { LiveRowsCall handle.old.slot.value result }
    ensures same { handle.new.slot.value ≡ handle.old.slot.value }
{
    let Some(held) = take(alloc, handle) else {
        return 0;
    };
    let rows = held.session.live_rows();
    put(handle, held);
    rows
}

/// How many views are stale; 0 where the handle isn't open.
#[unsafe(no_mangle)]
pub extern "C" fn lv_stale(alloc: Global, handle: &mut Handle) -> usize
    ensures stale { StaleCall handle.old.slot.value result }
    ensures same { handle.new.slot.value ≡ handle.old.slot.value }
{
    let Some(held) = take(alloc, handle) else {
        return 0;
    };
    let stale = held.session.stale();
    put(handle, held);
    stale
}

/// How often a stored row of the main table was opened, or the greatest number that C reads; 0 where the handle isn't
/// open.
#[unsafe(no_mangle)]
pub extern "C" fn lv_visits(alloc: Global, handle: &mut Handle) -> u64
    ensures visits { VisitsCall handle.old.slot.value result }
    ensures same { handle.new.slot.value ≡ handle.old.slot.value }
{
    let Some(held) = take(alloc, handle) else {
        return 0;
    };
    let visits = held.session.visits().min(u64::MAX as u128) as u64;
    put(handle, held);
    visits
}

/// Closes the session, if one is open. The handle can be opened again.
#[unsafe(no_mangle)]
pub extern "C" fn lv_close(alloc: Global, handle: &mut Handle)
    ensures { handle.new.slot.value ≡ None }
{
    take(alloc, handle);
}
