//! Schemas whose Schema message was encoded before.

ghost use Rattle.std.specs.Prelude.{◌≡◌, IfOk, IfSome};
ghost use Rattle.schema_meta.specs.SchemaTree.{AreColumns};
ghost use Rattle.stream_writer.specs.Progress.{IsSchemaMessage};

use crate::messages::schema_message;
use std::alloc::{AllocError, Global};
use std::marker::Model;
use values::Schema;

/// A schema, with the Schema message of its tables in which the columns at some positions are coded: it is the same
/// whenever such a table is written. Contracts see the schema.
#[derive(Debug, Drop)]
pub struct EncodedSchema {
    schema: Schema,
    coded: Vec<usize>,
    message: Vec<u8>,
}

impl Model for EncodedSchema {
    ghost use Rattle.values.specs.contracts.schema.Schema.{the_row};
    ghost use Rattle.values.specs.declared.schema.Schema as seen;
    ghost use Rattle.stream_writer.specs.Progress.{IsSchemaMessage};

    ghost Value = { seen.Schema };

    ghost coded = { the_row.coded };

    ghost view = { λ s. s.schema };

    ghost invariant = { λ s. IsSchemaMessage s.message.items s.coded.items s.schema.fields.items };
}

impl EncodedSchema {
    /// Encodes the Schema message of tables of this schema in which the columns at these positions are coded.
    pub fn new(alloc: Global, schema: Schema, coded: &[usize]) -> Result<EncodedSchema, AllocError>
        requires { AreColumns schema.fields.items }
        ensures { IfOk result (λ encoded. encoded ≡ schema) }
    {
        let message = schema_message(alloc, &schema, coded)?;
        let coded = Vec::from_slice(alloc, coded)?;
        Ok(EncodedSchema {
            schema,
            coded,
            message,
        })
    }

    /// The schema.
    pub fn schema(&self) -> &Schema
        ensures { result.now ≡ self.now }
    {
        &self.schema
    }

    /// The Schema message of a table in which the columns at these positions are coded, if it was encoded.
    pub(crate) fn message(&self, coded: &[usize]) -> Option<&[u8]>
        ensures { IfSome result (λ m. IsSchemaMessage m.now coded.now self.now.fields.items) }
    {
        if self.coded.as_slice() == coded {
            Some(&self.message)
        } else {
            None
        }
    }
}
