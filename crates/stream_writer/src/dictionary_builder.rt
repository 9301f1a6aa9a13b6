//! Numbers the distinct texts of a column.

ghost use Rattle.std.specs.Prelude.{◌≡◌, ◌∷◌, [], pos, IfOk, OnOk, map};
ghost use Rattle.std.specs.Option.{option_map};
ghost use Rattle.values.specs.Datum.{text, whole};
ghost use Rattle.body_writer.specs.Slots.{cell_of, cells_of};
ghost use Rattle.stream_writer.specs.Coding.{AreTextCells, IsTextCell, index_in, texts_after};
ghost use Rattle.stream_writer.specs.Texts.{text_of, texts_in};

use indexmap::IndexSet;
use std::alloc::{AllocError, Global};
use values::{Kind, Value};

/// The text in a cell, if it holds one.
fn text_in<'a>(cell: Option<&'a Value>) -> Option<&'a str>
    ensures { option_map (λ t. t.now) result ≡ text_of (cell_of cell.entry) }
{
    let Some(value) = cell else {
        return None;
    };
    match &value.kind {
        Kind::Utf8(text) => Some(text.as_str()),
        _ => None,
    }
}

/// The distinct texts of the cells so far, in order of first appearance, and for each the first cell that holds it.
#[derive(Drop)]
struct DictionaryBuilder<'a> {
    texts: IndexSet<&'a str>,
    values: Vec<Option<&'a Value>>,
}

impl<'a> DictionaryBuilder<'a> {
    /// With capacity for the texts of `cells` cells.
    fn with_capacity(alloc: Global, cells: usize) -> Result<DictionaryBuilder<'a>, AllocError>
        ensures texts { IfOk result (λ builder. texts_in builder.texts.keys ≡ []) }
        ensures values { IfOk result (λ builder. builder.values.items ≡ []) }
    {
        Ok(DictionaryBuilder {
            texts: IndexSet::with_capacity(alloc, cells)?,
            values: Vec::new(alloc),
        })
    }

    /// The index of a cell's text, which is added where it is new; a null has none.
    #[tactic(auto, using(crate::proofs::NumberedTexts::numbering))]
    fn append(&mut self, cell: Option<&'a Value>) -> Result<Value, AllocError>
        requires { IsTextCell (cell_of cell) }
        ensures texts { OnOk result
            (texts_in self.new.texts.keys ≡ texts_after (texts_in self.old.texts.keys) (cell_of cell.entry ∷ [])) }
        ensures values { OnOk result
            (cells_of self.old.values.items ≡ map text (texts_in self.old.texts.keys)
            → cells_of self.new.values.items ≡ map text (texts_in self.new.texts.keys)) }
        ensures index { IfOk result (λ v. v ≡ index_in (texts_in self.new.texts.keys) (cell_of cell.entry)) }
    {
        let Some(text) = text_in(cell) else {
            return Ok(Value { kind: Kind::Null });
        };
        let (place, is_new) = self.texts.insert_full(text)?;
        if is_new {
            self.values.push(cell)?;
        }
        Ok(index_value(place))
    }
}

fn index_value(index: usize) -> Value
    ensures { result ≡ whole (pos index) }
{
    Value {
        kind: Kind::Int(index as i128),
    }
}

/// A column of texts: a cell with each distinct text, in order of first appearance, and for each cell the index of its
/// text; a null has none.
#[derive(Drop)]
pub(crate) struct CodedColumn<'a> {
    pub values: Vec<Option<&'a Value>>,
    pub indices: Vec<Value>,
}

/// Numbers the texts of a column.
#[tactic(auto, using(crate::proofs::NumberedTexts::numbering))]
pub(crate) fn code_column<'a>(
    alloc: Global,
    cells: &[Option<&'a Value>],
) -> Result<CodedColumn<'a>, AllocError>
    requires { AreTextCells (cells_of cells.now) }
    ensures values { IfOk result
        (λ column. cells_of column.values.items ≡ map text (texts_after [] (cells_of cells.now))) }
    ensures indices { IfOk result
        (λ column. column.indices.items ≡ map (index_in (texts_after [] (cells_of cells.now))) (cells_of cells.now)) }
{
    let mut builder = DictionaryBuilder::with_capacity(alloc, cells.len())?;
    let mut indices = Vec::with_capacity(alloc, cells.len())?;
    for cell in cells {
        indices.push(builder.append(*cell)?)?;
    }
    Ok(CodedColumn {
        values: builder.values,
        indices,
    })
}
