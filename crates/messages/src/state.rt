//! The state of a framer between messages: the schema, and how many values each dictionary has.

ghost use Rattle.std.specs.Prelude.{◌≡◌, IfOk, IsSome, Some};
ghost use Rattle.std.specs.Option.{option_map};
ghost use Rattle.indexmap.specs.IndexMap.{spare};
ghost use Rattle.messages.specs.Counts.{HasRoom, IsCounted, counted};
ghost use Rattle.messages.specs.State.{known_of, learnt};
ghost use Rattle.schema_meta.specs.DictionaryBatch.{counts_after};
ghost use Rattle.schema_meta.specs.Sound.{schema_after};

use crate::counts::{Count, count_after};
use indexmap::IndexMap;
use schema_meta::{Header, StreamSchema};
use std::alloc::AllocError;
use std::rc::Rc;
use values::Schema;

/// The schema that was declared for the stream, if any; the one that was read, if it was; and by id how many values
/// each dictionary has for which a batch was read.
#[derive(Drop)]
pub(crate) struct State {
    pub declared: Option<Schema>,
    pub schema: Option<Rc<StreamSchema>>,
    pub counts: IndexMap<i64, usize>,
}

impl State {
    /// How many values a dictionary has after a message, if that is a dictionary batch. It reserves the memory for
    /// `learn`.
    pub(crate) fn count(&mut self, header: &Header) -> Result<Option<Count>, AllocError>
        requires { IsCounted (known_of self.old).counts header.now }
        ensures same { known_of self.new ≡ known_of self.old }
        ensures counted { IfOk result
            (λ c. counted (known_of self.old).counts c ≡ counts_after (known_of self.old).counts header.now) }
        ensures room { IfOk result (λ c. HasRoom c (spare self.new.counts)) }
    {
        let count = count_after(&self.counts, header);
        if count.is_some() {
            self.counts.reserve(1)?;
        }
        Ok(count)
    }

    /// The schema of the stream after a message that has the schema `brought`, or none.
    pub(crate) fn schema_after(
        &self,
        brought: &Option<Rc<StreamSchema>>,
    ) -> Result<Rc<StreamSchema>, AllocError>
        requires { IsSome
            (schema_after (known_of self.now).schema (option_map (λ s. s.value.fields.items) brought.now)) }
        ensures { IfOk result (λ s.
            schema_after (known_of self.now).schema (option_map (λ s. s.value.fields.items) brought.now)
            ≡ Some s.value.fields.items) }
    {
        match brought {
            Some(schema) => schema.clone(),
            None => self.schema.as_ref().unwrap().clone(),
        }
    }

    /// Records the schema of a message, or a new count of a dictionary's values. It takes no memory.
    pub(crate) fn learn(&mut self, schema: Option<Rc<StreamSchema>>, count: Option<Count>)
        requires { HasRoom count (spare self.old.counts) }
        ensures { known_of self.new
            ≡ learnt (known_of self.old) (option_map (λ s. s.value.fields.items) schema) count }
    {
        if let Some(schema) = schema {
            self.schema = Some(schema);
        }
        if let Some(Count { id, values }) = count {
            self.counts.insert(id, values).unwrap();
        }
    }
}
