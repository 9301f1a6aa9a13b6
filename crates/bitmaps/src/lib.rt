//! Bitmaps: truth values as bits, eight to a byte, the least significant bit first (Arrow Columnar Format, "Validity
//! bitmaps").
//!
//! [`Bits`] reads them where they lie, from any bit on; a [`Bitmap`] owns its bits. Contracts see either as the list of
//! its truth values.
#![tactic(auto)]

mod bitmap;
mod bits;
mod gather;
mod kernels;
mod lanes;
pub mod plain;
#[cfg(test)]
mod tests;
mod truths;

pub use bitmap::Bitmap;
pub use bits::Bits;
pub use truths::Truths;
