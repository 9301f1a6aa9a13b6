//! Sessions of live views for programs in C, and in any language that calls C.
//!
//! `calls`, `recasting` and `explaining` have the functions that are exported; `include/lv.h` declares them, and says
//! what callers in C must obey. C holds a `Handle`. Behind it is nothing, or a box with a session and the stream of the
//! view that was written last: `slot` has the pointer to that box.
#![tactic(auto)]

mod answers;
mod calls;
mod copying;
mod explaining;
mod handle;
mod held;
mod recasting;
mod slot;
#[cfg(test)]
mod tests;
