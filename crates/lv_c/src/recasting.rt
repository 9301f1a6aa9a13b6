//! The export for whole streams.

ghost use Rattle.lv_c.specs.Calls.{RecastCall};

use crate::answers::{LvWritten, answer_recast};
use crate::copying::copy_from;
use liveviews::recast;
use std::alloc::Global;
use stream_writer::MemorySink;

/// Reads a whole stream, and copies the canonical stream of its table to a buffer, as much of it as fits. The length is
/// that of the whole, so it shows whether the buffer was too short.
#[unsafe(no_mangle)]
pub extern "C" fn lv_recast(alloc: Global, input: &[u8], buffer: &mut [u8]) -> LvWritten
    ensures { RecastCall input.now buffer.old result buffer.new }
{
    let mut output = MemorySink::new(alloc);
    let answer = recast(alloc, input, &mut output);
    if answer.is_ok() {
        copy_from(output.bytes(), 0, buffer);
    }
    answer_recast(answer)
}
