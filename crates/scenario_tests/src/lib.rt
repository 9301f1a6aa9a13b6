//! Tests that cross crates and call them as their users do. What `lv recast` and `lv inspect` do with given bytes is in
//! `tests/*.txt` at the repository's root, and is run by `tools/runs/check-rows.py`.
//!
//! `sample` is a stored stream, and `table` the table that it means, built cell by cell. `checks` calls a feed that
//! isn't broken. The tests are `r2_rows` (copies of values of every kind), `r3_feeds` (a stream that comes in pieces),
//! `declared` (one whose columns were declared), `whole` (one that is in memory whole), `sinks` (sinks that fail),
//! `printed` (files whose reads fail, and how faults are printed), `replaced` (a file that a new one replaces) and
//! `lines` (the lines of `run` and `live`). `shelf` has the files of `printed` and `replaced`. Nothing here is for
//! other crates.
#![tactic(auto)]

#[cfg(test)]
mod checks;
#[cfg(test)]
mod declared;
#[cfg(test)]
mod lines;
#[cfg(test)]
mod printed;
#[cfg(test)]
mod r2_rows;
#[cfg(test)]
mod r3_feeds;
#[cfg(test)]
mod replaced;
#[cfg(test)]
mod sample;
#[cfg(test)]
mod shelf;
#[cfg(test)]
mod sinks;
#[cfg(test)]
mod table;
#[cfg(test)]
mod whole;
