//! Batches of many rows of the main table of `ledger`.

use crate::streams::MAIN;
use bitmaps::Bitmap;
use std::alloc::{AllocError, Global};

/// A row with an empty group.
#[derive(Clone, Copy)]
pub struct Entry {
    pub id: u8,
    pub amount: Option<i64>,
}

/// The buffers of a body, and where each lies.
#[derive(Drop)]
struct Body {
    bytes: Vec<u8>,
    ranges: Vec<u8>,
}

fn push_number(bytes: &mut Vec<u8>, number: usize) -> Result<(), AllocError> {
    bytes.extend_from_slice(&(number as u64).to_le_bytes())
}

impl Body {
    /// Adds a buffer, and pads it to eight bytes.
    fn push(&mut self, buffer: &[u8]) -> Result<(), AllocError> {
        push_number(&mut self.ranges, self.bytes.len())?;
        push_number(&mut self.ranges, buffer.len())?;
        self.bytes.extend_from_slice(buffer)?;
        for _filled in 0..(8 - self.bytes.len() % 8) % 8 {
            self.bytes.push(0)?;
        }
        Ok(())
    }
}

/// The ids, as numbers of eight bytes.
fn ids(alloc: Global, entries: &[Entry]) -> Result<Vec<u8>, AllocError> {
    let mut bytes = Vec::new(alloc);
    for entry in entries {
        push_number(&mut bytes, entry.id as usize)?;
    }
    Ok(bytes)
}

/// The offsets of empty texts: one more than there are.
fn offsets(alloc: Global, entries: &[Entry]) -> Result<Vec<u8>, AllocError> {
    let mut bytes = vec![in alloc; 0, 0, 0, 0]?;
    for _entry in entries {
        bytes.extend_from_slice(&[0, 0, 0, 0])?;
    }
    Ok(bytes)
}

/// Which amounts there are.
fn validity(alloc: Global, entries: &[Entry]) -> Result<Bitmap, AllocError> {
    let mut bits = Bitmap::new(alloc);
    for entry in entries {
        bits.push(entry.amount.is_some())?;
    }
    Ok(bits)
}

/// The amounts, as numbers of eight bytes; 0 where there is none.
fn amounts(alloc: Global, entries: &[Entry]) -> Result<Vec<u8>, AllocError> {
    let mut bytes = Vec::new(alloc);
    for entry in entries {
        let amount = entry.amount.unwrap_or(0);
        bytes.extend_from_slice(&amount.to_le_bytes())?;
    }
    Ok(bytes)
}

fn body_of(alloc: Global, entries: &[Entry], valid: &Bitmap) -> Result<Body, AllocError> {
    let mut body = Body {
        bytes: Vec::new(alloc),
        ranges: Vec::new(alloc),
    };
    body.push(&[])?;
    body.push(&ids(alloc, entries)?)?;
    body.push(&[])?;
    body.push(&offsets(alloc, entries)?)?;
    body.push(&[])?;
    body.push(valid.as_bytes())?;
    body.push(&amounts(alloc, entries)?)?;
    Ok(body)
}

/// The message of a batch of these rows: that of a batch of one row, with other numbers in it.
pub fn batch(alloc: Global, entries: &[Entry]) -> Result<Vec<u8>, AllocError> {
    let valid = validity(alloc, entries)?;
    let body = body_of(alloc, entries, &valid)?;
    let mut bytes = Vec::from_slice(alloc, &MAIN[304..352])?;
    push_number(&mut bytes, body.bytes.len())?;
    bytes.extend_from_slice(&MAIN[360..384])?;
    push_number(&mut bytes, entries.len())?;
    bytes.extend_from_slice(&MAIN[392..408])?;
    let nulls = entries.len().saturating_sub(valid.bits().count_ones());
    for nulls in [0, 0, nulls] {
        push_number(&mut bytes, entries.len())?;
        push_number(&mut bytes, nulls)?;
    }
    bytes.extend_from_slice(&MAIN[456..464])?;
    bytes.extend_from_slice(&body.ranges)?;
    bytes.extend_from_slice(&body.bytes)?;
    Ok(bytes)
}
