//! Lines over a session: those of a script, and those that come one by one.

pub(crate) mod lines;
pub(crate) mod live;
pub(crate) mod run;
