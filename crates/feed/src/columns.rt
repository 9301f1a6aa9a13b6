//! Validates the columns of a record batch.

ghost use Rattle.std.specs.Prelude.{◌≡◌, ◌≤◌, IfOk, length};
ghost use Rattle.values.specs.Reading.{Answers};
ghost use Rattle.values.specs.Rose.{roses_size};
ghost use Rattle.array_layout.specs.Cells.{column_of};
ghost use Rattle.array_layout.specs.Placing.{layout_of, layouts_of as layouts_of_arrays, ranges_below};
ghost use Rattle.array_layout.specs.Sound.{ArePlaced, IsPlaced};
ghost use Rattle.array_layout.specs.Typed.{AreTyped, IsTyped};
ghost use Rattle.dictionaries.specs.Table.{values_in};
ghost use Rattle.schema_meta.specs.FieldLayouts.{slot_layouts_of};
ghost use Rattle.schema_meta.specs.FieldsLaw.{AreFields};
ghost use Rattle.schema_meta.specs.Parts.{arrays_of};
ghost use Rattle.schema_meta.specs.PlaceLaw.{AreValues};
ghost use Rattle.schema_meta.specs.Rows.{columns_in};
ghost use Rattle.schema_meta.specs.Sound.{Fits};
ghost use Rattle.feed.specs.Columns.{cells_in, layouts_in};
ghost use Rattle.feed.specs.Shown.{HasColumns};
ghost use Rattle.feed.specs.Calls.{batch_columns};

use array_layout::{Array, ArrayCursor};
use arrays::Column;
use dictionaries::Dicts;
use schema_meta::{BatchHeader, Field, StreamSchema, place_array, place_law};
use std::alloc::Global;
use std::rc::Rc;
use values::StreamFault;

/// Validates one column of a batch.
#[tactic(auto, using(values::proofs::Readings::failing))]
fn check_column(body: &Rc<Vec<u8>>, array: Array) -> Result<Column, StreamFault>
    requires placed { IsPlaced body.now.value.items array }
    requires dictionary { IsTyped array }
    ensures reading { Answers (λ c. c.cells) result (column_of body.now.value.items array) }
    ensures typed { IfOk result (λ c. c.layouts ≡ layout_of array) }
{
    Column::check(body.clone()?, array)
}

/// Finds the buffers of the columns of a batch and validates them, each column by itself: `BufferShort` to
/// `DecimalRange`.
#[tactic(auto, using(crate::proofs::GatherLemmas::columns))]
fn check_columns(
    alloc: Global,
    body: &Rc<Vec<u8>>,
    fields: &[Field],
    header: &BatchHeader,
    dicts: &Dicts,
) -> Result<Vec<Column>, StreamFault>
    requires nodes { roses_size (slot_layouts_of fields.now) ≤ length header.now.nodes }
    requires ranges { ranges_below (slot_layouts_of fields.now) ≤ length header.now.ranges }
    requires placed { ArePlaced body.now.value.items (arrays_of (values_in dicts.now) fields.now header.now) }
    requires dictionary { AreTyped (arrays_of (values_in dicts.now) fields.now header.now) }
    ensures reading { Answers (λ cs. cells_in cs.items) result
        (columns_in body.now.value.items (arrays_of (values_in dicts.now) fields.now header.now)) }
    ensures typed { IfOk result
        (λ cs. layouts_in cs.items ≡ layouts_of_arrays (arrays_of (values_in dicts.now) fields.now header.now)) }
{
    let mut columns = Vec::with_capacity(alloc, fields.len())?;
    let mut at = ArrayCursor { node: 0, range: 0 };
    for field in fields {
        let array = place_array(alloc, field, header, dicts, &mut at)?;
        columns.push(check_column(body, array)?)?;
    }
    Ok(columns)
}

/// Finds the buffers of the columns of a record batch and validates them, with the dictionaries as they are now.
pub(crate) fn take_columns(
    alloc: Global,
    schema: &StreamSchema,
    header: &BatchHeader,
    body: Vec<u8>,
    dicts: &Dicts,
) -> Result<Vec<Column>, StreamFault>
    requires fits { Fits (slot_layouts_of schema.now.fields.items) (length body.items) header.now }
    requires fields { AreFields schema.now.fields.items }
    requires values { AreValues schema.now.fields.items (values_in dicts.now) }
    ensures reading { Answers (λ cs. cells_in cs.items) result
        (batch_columns (values_in dicts.now) schema.now.fields.items header.now body.items) }
    ensures typed { IfOk result (λ cs. HasColumns schema.now.fields.items cs.items header.now.rows) }
{
    // It does nothing: the proof takes from it that the arrays are as the check requires.
    place_law();
    let body = Rc::new(alloc, body)?;
    check_columns(alloc, &body, &schema.fields, header, dicts)
}
