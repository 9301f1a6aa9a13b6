//! Tests on damaged streams: two feeds get the same bytes, one as they are and one byte by byte, and must do the same.
//!
//! `streams` has the streams, each a `stream::Stream`; `harm` damages one, `lockstep` feeds two feeds, and `events`
//! compares their events. The tests are `sweeps`, each damage at each offset, `rows`, what is answered to given damage,
//! and `apart`, that the comparison finds each difference. Nothing here is for other crates.
#![tactic(auto)]

#[cfg(test)]
mod apart;
#[cfg(test)]
mod events;
#[cfg(test)]
mod harm;
#[cfg(test)]
mod lockstep;
#[cfg(test)]
mod rows;
#[cfg(test)]
mod stream;
#[cfg(test)]
mod streams;
#[cfg(test)]
mod sweeps;
