//! Arrays over the body of a record batch: where their buffers lie, and whether the buffers are sound.
//!
//! An [`Array`] is a tree, as its type is. `specs/Placing.antt` says where the buffers of each array lie,
//! `specs/Buffers.antt` what they hold, `specs/Sound.antt` which faults they have, `specs/Cells.antt` what the array's
//! cells are, and `specs/Typed.antt` which values its dictionaries hold.
#![tactic(auto)]

mod array;
mod buffers;
mod check;
mod placing;
mod runs;

pub use array::{Array, ArrayData, BufferRange, DictionaryValues, FieldNode, own_ranges};
pub use buffers::{bit, buffer, decimal, fixed, is_null_at, number, offset, slice};
pub use check::check_layout;
pub use placing::{ArrayCursor, array_at};
pub use runs::run_end;
