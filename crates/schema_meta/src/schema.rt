//! Reads a schema: Schema.fbs, table `Schema`.
ghost use Rattle.std.specs.Prelude.{◌≡◌, IfErr, IfOk, OnOk, map};
ghost use Rattle.values.specs.Reading.{Answers, Fails, IsValid, Yields};
ghost use Rattle.schema_meta.specs.Logical.{logical_field};
ghost use Rattle.schema_meta.specs.Schema.{columns_of, endianness_of, schema_of};

use crate::count::count;
use crate::field::{Field, named_fields};
use crate::fields::read_fields;
use crate::null_weight::null_weights_of;
use crate::value_types::are_consistent;
use field_types::schema_fbs::{LITTLE_ENDIAN, SCHEMA_ENDIANNESS, SCHEMA_FIELDS};
use field_types::{read_short, readable};
use flatbuf::{TableRef, VectorRef};
use std::alloc::{AllocError, Global};
use values::limits::{MAX_DEPTH, MAX_FIELDS};
use values::{Schema, StreamFault};

/// The columns of a stream, as they are stored.
#[derive(Drop)]
pub struct StreamSchema {
    pub fields: Vec<Field>,
}

impl StreamSchema {
    /// The logical columns: names and types of values, without dictionaries and widths of offsets.
    #[tactic(auto, using(crate::proofs::Logicals::named))]
    pub fn logical(&self, alloc: Global) -> Result<Schema, AllocError>
        ensures { IfOk result (λ s. s.fields.items ≡ map logical_field self.now.fields.items) }
    {
        Schema::new(alloc, named_fields(alloc, &self.fields)?)
    }
}

/// Reads a schema from its table (Apache Arrow Schema.fbs, table Schema).
///
/// The error is a fault of the table, any one where there are several: `BadTable`, `BadName`, `BigEndian`,
/// `UnsupportedType`, `BadType`, `TooManyFields` or `DictionaryClash`. Where there is none only `Memory` is an error.
/// Under a type of an unsupported kind nothing else of the type is read.
pub fn read_schema(alloc: Global, schema: &TableRef) -> Result<StreamSchema, StreamFault>
    ensures reading { Answers (λ s. s.fields.items) result (schema_of schema.now) }

    // what `reading` says of the two outcomes
    ensures ok { OnOk result (IsValid (schema_of schema.now)) }
    ensures fault { IfErr result (λ c. Fails c (schema_of schema.now)) }
{
    check_endianness(schema)?;
    let fields = match readable(schema.vector(SCHEMA_FIELDS))? {
        None => Vec::new(alloc),
        Some(columns) => read_columns(alloc, &columns)?,
    };
    Ok(StreamSchema { fields })
}

#[tactic(auto, using(crate::proofs::ColumnsRead::columns_read))]
fn read_columns(alloc: Global, columns: &VectorRef) -> Result<Vec<Field>, StreamFault>
    ensures { Answers (λ fs. fs.items) result (columns_of columns.now) }
{
    let Some(_) = count(columns, MAX_DEPTH, MAX_FIELDS as usize) else {
        return Err(StreamFault::TooManyFields);
    };
    let fields = read_fields(alloc, columns, MAX_DEPTH)?;
    let Some(_) = null_weights_of(&fields) else {
        return Err(StreamFault::BadType);
    };
    if !are_consistent(&fields) {
        return Err(StreamFault::DictionaryClash);
    }
    Ok(fields)
}

fn check_endianness(schema: &TableRef) -> Result<(), StreamFault>
    ensures { Yields (λ u. u) result (endianness_of schema.now) }
{
    match read_short(schema, SCHEMA_ENDIANNESS, 0)? {
        LITTLE_ENDIAN => Ok(()),
        _ => Err(StreamFault::BigEndian),
    }
}
