//! Each call once, as C makes it.

ghost use Rattle.std.specs.Prelude.{◌≡◌, None};

use crate::answers::{LvPushed, LvWritten, NOT_OPEN};
use crate::calls::{
    lv_close, lv_copy, lv_finish, lv_live_rows, lv_open, lv_push, lv_stale, lv_undo, lv_visits,
    lv_write,
};
use crate::explaining::lv_find_fault;
use crate::handle::{Handle, empty};
use crate::recasting::lv_recast;
use std::test::Fail;
use values::Cause;

const CONFIG: &str = "main = { key = 'k', columns = [['k', 'int64']] }
feed.add = { role = 'append' }
view.all = { columns = [['k', 'col', 'k']] }
";

/// Drops a handle that isn't open, which owns nothing.
fn forget(handle: Handle)
    requires { handle.slot.value ≡ None }
{
    let Handle { slot, is_open: _ } = handle;
    slot.forget();
}

#[test]
fn calls_of_a_session(rt: HostRuntime) -> Result<(), Fail> {
    let alloc = rt.alloc();
    let mut handle = empty(alloc);
    assert_eq!(rt; lv_undo(alloc, &mut handle), NOT_OPEN);
    assert_eq!(rt; lv_open(alloc, &mut handle, CONFIG.as_bytes()), 0);
    assert_eq!(rt; lv_open(alloc, &mut handle, CONFIG.as_bytes()), NOT_OPEN);
    let pushed = LvPushed {
        used: 3,
        cause: 0,
        event: 0,
    };
    assert_eq!(rt;
        lv_push(alloc, &mut handle, b"add", &[0xFF, 0xFF, 0xFF]),
        pushed
    );
    assert_eq!(rt;
        lv_finish(alloc, &mut handle, b"add"),
        Cause::Truncated.number()
    );
    assert_eq!(rt; lv_undo(alloc, &mut handle), Cause::NothingToUndo.number());
    assert_eq!(rt; lv_live_rows(alloc, &mut handle), 0);
    assert_eq!(rt; lv_stale(alloc, &mut handle), 0);
    assert_eq!(rt; lv_visits(alloc, &mut handle), 0);
    let written = lv_write(alloc, &mut handle, b"all");
    assert_eq!(rt; written.cause, 0);
    let mut buffer = [7; 5];
    assert_eq!(rt; lv_copy(alloc, &mut handle, 1, &mut buffer[..3]), 3);
    assert_eq!(rt; buffer, [0xFF, 0xFF, 0xFF, 7, 7]);
    lv_close(alloc, &mut handle);
    forget(handle);
    Ok(())
}

#[test]
fn recast_of_no_stream(rt: HostRuntime) -> Result<(), Fail> {
    let mut buffer = [7; 2];
    let refused = LvWritten {
        len: 0,
        cause: Cause::NoSchema.number(),
    };
    assert_eq!(rt; lv_recast(rt.alloc(), b"", &mut buffer), refused);
    assert_eq!(rt; buffer, [7, 7]);
    Ok(())
}

#[test]
fn finds_a_fault(rt: HostRuntime) {
    let mut place = [0; 8];
    assert_eq!(rt; lv_find_fault(rt.alloc(), CONFIG.as_bytes(), &mut place), 0);
    assert_eq!(rt; lv_find_fault(rt.alloc(), b"main = 3", &mut place), 4);
    assert_eq!(rt; place, *b"main\0\0\0\0");
    assert_eq!(rt;
        lv_find_fault(rt.alloc(), b"a = 1\nb =\n", &mut place[..4]),
        6
    );
    assert_eq!(rt; place, *b"line\0\0\0\0");
}
