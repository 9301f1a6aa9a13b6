//! The export that reports which part of a configuration is refused.

ghost use Rattle.lv_c.specs.Calls.{FindFaultCall};

use crate::copying::copy_from;
use std::alloc::Global;
use view_config::find_fault;

/// Finds which part of a configuration, the bytes of a TOML document, is refused, and copies its text to a buffer, as
/// much of it as fits: the keys of the part, as `view.totals.order`, or `line 3` where the text stops being TOML. The
/// length is that of the whole; 0 where the configuration is accepted, the bytes aren't UTF-8, or memory was refused.
#[unsafe(no_mangle)]
pub extern "C" fn lv_find_fault(alloc: Global, config: &[u8], buffer: &mut [u8]) -> usize
    ensures { FindFaultCall config.now buffer.old result buffer.new }
{
    let Ok(text) = str::from_utf8(config) else {
        return 0;
    };
    let Ok(Some(place)) = find_fault(alloc, text) else {
        return 0;
    };
    let Ok(place) = format!(in alloc; "{place}") else {
        return 0;
    };
    copy_from(place.as_bytes(), 0, buffer);
    place.len()
}
