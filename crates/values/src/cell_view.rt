//! Cells where they lie.

ghost use Rattle.std.specs.Prelude.{◌≡◌};
ghost use Rattle.values.specs.CellViews.{shallow, viewed};
ghost use Rattle.values.specs.Datum.{is_null};

use crate::cells::{Kind, Value};

/// A cell where it lies, in a column or in a value. Of a list or a struct it says only that it is one, which is all
/// that comparing, hashing and counting read.
#[derive(Clone, Copy)]
pub enum CellView<'a> {
    /// No value.
    Null,
    /// A truth value.
    Bool(bool),
    /// A whole number, as in `Kind::Int`.
    Int(i128),
    /// A text.
    Utf8(&'a str),
    /// Bytes.
    Binary(&'a [u8]),
    /// A list.
    List,
    /// A struct.
    Struct,
}

impl<'a> CellView<'a> {
    /// Whether there is no value.
    pub fn is_null(self) -> bool
        ensures { result ≡ is_null (viewed self.entry) }
    {
        matches!(self, CellView::Null)
    }
}

impl Value {
    /// The value as a cell where it lies.
    pub fn view(&self) -> CellView<'_>
        ensures { viewed result ≡ shallow self.now }
    {
        match &self.kind {
            Kind::Null => CellView::Null,
            Kind::Bool(truth) => CellView::Bool(*truth),
            Kind::Int(number) => CellView::Int(*number),
            Kind::Utf8(text) => CellView::Utf8(text.as_str()),
            Kind::Binary(bytes) => CellView::Binary(bytes.as_slice()),
            Kind::List(_) => CellView::List,
            Kind::Struct(_) => CellView::Struct,
        }
    }
}
