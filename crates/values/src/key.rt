//! Keys: values that are compared, ordered and hashed.

ghost use Rattle.std.specs.Prelude.{◌≡◌, IfOk};
ghost use Rattle.values.specs.CellViews.{viewed};
ghost use Rattle.values.specs.Keys.{datum_of_key, key_of};

use crate::cell_view::CellView;
use crate::cells::{Kind, Value};
use crate::key_parts::{KeyBytes, KeyText};
use std::alloc::{AllocError, Global};

/// A value by which rows are identified, grouped and ordered. Lists and structs are no keys.
///
/// Keys of one column are of one kind or null. Their order is that of `cmp_values`, so nulls come last.
#[derive(Debug, Drop, PartialEq, Eq, PartialOrd, Ord, Hash)]
pub enum Key {
    /// A truth value.
    Bool(bool),
    /// A whole number.
    Int(i128),
    /// A text.
    Utf8(KeyText),
    /// Bytes.
    Binary(KeyBytes),
    /// No value.
    Null,
}

impl Key {
    /// The key of a value; `None` where that is a list or a struct.
    #[tactic(auto, using(crate::proofs::ShallowLemmas::shallow_laws))]
    pub fn of(alloc: Global, value: &Value) -> Result<Option<Key>, AllocError>
        ensures { IfOk result (λ key. key ≡ key_of value.now) }
    {
        Key::of_cell(alloc, value.view())
    }

    /// The key of a cell; `None` where that is a list or a struct.
    pub fn of_cell(alloc: Global, cell: CellView<'_>) -> Result<Option<Key>, AllocError>
        ensures { IfOk result (λ key. key ≡ key_of (viewed cell.entry)) }
    {
        Ok(Some(match cell {
            CellView::Null => Key::Null,
            CellView::Bool(truth) => Key::Bool(truth),
            CellView::Int(number) => Key::Int(number),
            CellView::Utf8(text) => Key::Utf8(KeyText::new(alloc, text)?),
            CellView::Binary(bytes) => Key::Binary(KeyBytes::new(alloc, bytes)?),
            CellView::List | CellView::Struct => return Ok(None),
        }))
    }

    /// An equal key with memory of its own.
    pub fn copy(&self, alloc: Global) -> Result<Key, AllocError>
        ensures { IfOk result (λ key. key ≡ self.now) }
    {
        Ok(match self {
            Key::Null => Key::Null,
            Key::Bool(truth) => Key::Bool(*truth),
            Key::Int(number) => Key::Int(*number),
            Key::Utf8(text) => Key::Utf8(text.copy(alloc)?),
            Key::Binary(bytes) => Key::Binary(bytes.copy(alloc)?),
        })
    }

    /// The value as a cell.
    pub fn view(&self) -> CellView<'_>
        ensures { viewed result ≡ datum_of_key self.now }
    {
        match self {
            Key::Null => CellView::Null,
            Key::Bool(truth) => CellView::Bool(*truth),
            Key::Int(number) => CellView::Int(*number),
            Key::Utf8(text) => CellView::Utf8(text.as_str()),
            Key::Binary(bytes) => CellView::Binary(bytes.as_slice()),
        }
    }

    /// The value, with memory of its own.
    pub fn value(&self, alloc: Global) -> Result<Value, AllocError>
        ensures { IfOk result (λ value. value ≡ datum_of_key self.now) }
    {
        let kind = match self {
            Key::Null => Kind::Null,
            Key::Bool(truth) => Kind::Bool(*truth),
            Key::Int(number) => Kind::Int(*number),
            Key::Utf8(text) => Kind::Utf8(String::from_str(alloc, text.as_str())?),
            Key::Binary(bytes) => Kind::Binary(Vec::from_slice(alloc, bytes.as_slice())?),
        };
        Ok(Value { kind })
    }
}
