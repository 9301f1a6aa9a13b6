//! Reads the values of a dictionary batch.

ghost use Rattle.std.specs.Prelude.{◌≡◌, All, [], IfOk, length, replicate};
ghost use Rattle.std.specs.Option.{option_copied};
ghost use Rattle.values.specs.Datum.{bytes};
ghost use Rattle.values.specs.Layouts.{Holds};
ghost use Rattle.values.specs.Reading.{Answers};
ghost use Rattle.values.specs.declared.col_type.ColType.{ColType};
ghost use Rattle.schema_meta.specs.Dictionaries.{value_type};
ghost use Rattle.array_layout.specs.Cells.{column_of};
ghost use Rattle.schema_meta.specs.DictionaryBatch.{value_layout, value_layouts};
ghost use Rattle.schema_meta.specs.Parts.{values_array};
ghost use Rattle.schema_meta.specs.Rows.{values_of};
ghost use Rattle.schema_meta.specs.Sound.{Fits, FitsValues};
ghost use Rattle.feed.specs.Calls.{AreOfType};

use arrays::Column;
use dictionaries::ValueRuns;
use schema_meta::{BatchHeader, DictionaryHeader, StreamSchema, place_law, place_values};
use std::alloc::{AllocError, Global};
use std::rc::Rc;
use values::{ColType, Kind, StreamFault, Value};

/// Copies all cells of a column.
#[tactic(auto, using(crate::proofs::GatherLemmas::reading_cells))]
fn read_cells(alloc: Global, column: &Column) -> Result<Vec<Value>, AllocError>
    ensures cells { IfOk result (λ vs. vs.items ≡ column.now.cells) }
    ensures typed { IfOk result (λ vs. All (Holds column.now.layouts) vs.items) }
{
    let mut cells = Vec::new(alloc);
    for i in 0..column.len() {
        cells.push(column.cell(alloc, i)?)?;
    }
    Ok(cells)
}

/// A list of `count` values of width 0, of which one is stored.
fn empty_values(alloc: Global, count: usize) -> Result<ValueRuns, AllocError>
    ensures { IfOk result (λ vs. vs ≡ replicate count (bytes [])) }
{
    let empty = Value {
        kind: Kind::Binary(Vec::new(alloc)),
    };
    ValueRuns::repeated(alloc, empty, count)
}

/// The cells of a column as values: where they have no bytes, and so a batch may claim any number of them, one is
/// stored.
fn read_values(alloc: Global, column: &Column) -> Result<ValueRuns, AllocError>
    ensures cells { IfOk result (λ vs. vs ≡ column.now.cells) }
    ensures typed { IfOk result (λ vs. All (Holds column.now.layouts) vs) }
{
    // It does nothing: the proof takes from it that the layouts hold each cell.
    column.law();
    if column.has_no_bytes() {
        return empty_values(alloc, column.len());
    }
    Ok(ValueRuns::each(read_cells(alloc, column)?))
}

/// Finds the buffers of and validates the one column of a dictionary batch whose values have this type.
fn check_values(
    alloc: Global,
    stored: &ColType,
    header: &BatchHeader,
    body: Vec<u8>,
) -> Result<Column, StreamFault>
    requires { Fits (value_layouts stored.now) (length body.items) header.now }
    ensures reading { Answers (λ c. c.cells) result
        (column_of body.items (values_array stored.now header.now)) }
    ensures typed { IfOk result (λ c. c.layouts ≡ value_layout stored.now) }
{
    // It does nothing: the proof takes from it that the array is as the check requires.
    place_law();
    let array = place_values(alloc, stored, header);
    Column::check(Rc::new(alloc, body)?, array)
}

/// The value type of dictionary `id`; `None` if no field refers to it.
fn value_type<'a>(schema: &'a StreamSchema, header: &DictionaryHeader) -> Option<&'a ColType>
    ensures { option_copied result ≡ value_type schema.now.fields.items header.now.id }
{
    schema.value_type(header.id)
}

/// Reads the values of a dictionary batch.
#[tactic(auto, using(values::proofs::Readings::failing), unfolding(schema_meta::specs::Rows::values_of))]
pub(crate) fn take_values(
    alloc: Global,
    schema: &StreamSchema,
    header: &DictionaryHeader,
    body: Vec<u8>,
) -> Result<ValueRuns, StreamFault>
    requires { FitsValues schema.now.fields.items (length body.items) header.now }
    ensures reading { Answers (λ vs. vs) result
        (values_of schema.now.fields.items header.now body.items) }
    ensures typed { IfOk result (λ vs. AreOfType schema.now.fields.items header.now vs) }
{
    let Some(stored) = value_type(schema, header) else {
        return Err(StreamFault::UnknownDictionary);
    };
    let column = check_values(alloc, stored, &header.batch, body)?;
    Ok(read_values(alloc, &column)?)
}
