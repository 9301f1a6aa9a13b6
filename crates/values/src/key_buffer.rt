//! A key that is filled again and again.

ghost use Rattle.std.specs.Prelude.{◌≡◌, IfOk, None, Some, if◌then◌else◌, option_copied};
ghost use Rattle.values.specs.CellViews.{viewed};
ghost use Rattle.values.specs.Keys.{key_of};

use crate::cell_view::CellView;
use crate::key::Key;
use std::alloc::{AllocError, Global};

/// A key by which others are looked up, one after the other, in the memory that the longest of them needs.
#[derive(Debug, Drop)]
pub struct KeyBuffer {
    alloc: Global,
    key: Key,
}

impl KeyBuffer {
    pub fn new(alloc: Global) -> KeyBuffer {
        KeyBuffer {
            alloc,
            key: Key::Null,
        }
    }

    /// The key of a cell; `None` where that is a list or a struct.
    pub fn key_of(&mut self, cell: CellView<'_>) -> Result<Option<&Key>, AllocError>
        ensures { IfOk result (λ key. option_copied key ≡ key_of (viewed cell.entry)) }
    {
        if refill(self.alloc, &mut self.key, cell)? {
            Ok(Some(&self.key))
        } else {
            Ok(None)
        }
    }
}

/// Makes a key that of a cell, in its own memory where that is enough, and returns whether the cell has a key.
fn refill(alloc: Global, key: &mut Key, cell: CellView<'_>) -> Result<bool, AllocError>
    ensures { IfOk result (λ has. (if has then Some key.new else None) ≡ key_of (viewed cell.entry)) }
{
    match (&mut *key, cell) {
        (Key::Utf8(kept), CellView::Utf8(text)) => {
            kept.refill(alloc, text)?;
            return Ok(true);
        }
        (Key::Binary(kept), CellView::Binary(bytes)) => {
            kept.refill(alloc, bytes)?;
            return Ok(true);
        }
        (Key::Int(kept), CellView::Int(number)) => {
            *kept = number;
            return Ok(true);
        }
        _ => {}
    }
    match Key::of_cell(alloc, cell)? {
        Some(made) => {
            *key = made;
            Ok(true)
        }
        None => Ok(false),
    }
}
