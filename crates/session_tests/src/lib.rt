//! Tests of sessions over a configuration that is read from its text.
//!
//! `ledger` opens a session, and changes it row by row with the streams of `streams`; `batches` writes batches of many
//! rows. The tests are `parts` (sessions that are taken apart and made again), `visits` (how often edits and writes
//! open rows), `moves` (groups that move together where rows of a side table change), `filters` (which rows of a batch
//! pass the filters of views), `stored` and `joined` (views that are written from stored columns, without and with
//! those of a side table) and `sinks` (writes to sinks that fail). Nothing here is for other crates.
#![tactic(auto)]

#[cfg(test)]
mod batches;
#[cfg(test)]
mod filters;
#[cfg(test)]
mod joined;
#[cfg(test)]
mod ledger;
#[cfg(test)]
mod moves;
#[cfg(test)]
mod parts;
#[cfg(test)]
mod sinks;
#[cfg(test)]
mod stored;
#[cfg(test)]
mod streams;
#[cfg(test)]
mod visits;
