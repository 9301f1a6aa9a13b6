//! The types of the values of dictionaries, by id.
ghost use Rattle.std.specs.Prelude.{◌≡◌};
ghost use Rattle.std.specs.Option.{option_copied};
ghost use Rattle.values.specs.Rose.{kids_of};
ghost use Rattle.schema_meta.specs.Dictionaries.{
  agree,
  agrees,
  are_consistent,
  own_agrees,
  type_below,
  type_in,
  value_type,
};

use crate::encoding::DictionaryEncoding;
use crate::field::Field;
use crate::schema::StreamSchema;
use values::ColType;

/// The type of the values of the dictionary with this id, if the field or one below it uses it.
#[cycle(types)]
#[tactic(auto, using(crate::proofs::Clashes::clashes))]
fn type_in(field: &Field, id: i64) -> Option<&ColType>
    ensures { option_copied result ≡ type_in id field.now }
{
    match field.encoding {
        Some(encoding) if encoding.id == id => Some(&field.stored),
        _ => type_below(&field.children, id),
    }
}

/// The type of the values of that dictionary, by the first of these fields that uses it, or has one below it that does.
#[cycle(types)]
#[tactic(auto, using(crate::proofs::Clashes::clashes))]
fn type_below(fields: &[Field], id: i64) -> Option<&ColType>
    ensures { option_copied result ≡ type_below id (kids_of fields.now) }
{
    for field in fields {
        if let Some(stored) = type_in(field, id) {
            return Some(stored);
        }
    }
    None
}

fn value_type(fields: &[Field], id: i64) -> Option<&ColType>
    ensures { option_copied result ≡ value_type fields.now id }
{
    type_below(fields, id)
}

impl StreamSchema {
    /// The type of the values of the dictionary with this id, if a field has it.
    pub fn value_type(&self, id: i64) -> Option<&ColType>
        ensures { option_copied result ≡ value_type self.now.fields.items id }
    {
        value_type(&self.fields, id)
    }
}

/// Whether the dictionary of a field with values of type `stored`, if it has one, has values of that type by the first
/// field of `all` that uses it.
fn own_agrees(all: &[Field], encoding: Option<DictionaryEncoding>, stored: &ColType) -> bool
    ensures { result ≡ own_agrees (value_type all.now) encoding stored.now }
{
    match encoding {
        None => true,
        Some(encoding) => match value_type(all, encoding.id) {
            None => false,
            Some(known) => stored == known,
        },
    }
}

#[cycle(agreement)]
#[tactic(auto, using(crate::proofs::Clashes::clashes))]
fn agrees(all: &[Field], field: &Field) -> bool
    ensures { result ≡ agrees (value_type all.now) field.now }
{
    own_agrees(all, field.encoding, &field.stored) && agree(all, &field.children)
}

#[cycle(agreement)]
#[tactic(auto, using(crate::proofs::Clashes::clashes))]
fn agree(all: &[Field], fields: &[Field]) -> bool
    ensures { result ≡ agree (value_type all.now) (kids_of fields.now) }
{
    for field in fields {
        if !agrees(all, field) {
            return false;
        }
    }
    true
}

/// Whether no two of these fields, or of those below them, have dictionaries of one id and of different types.
pub(crate) fn are_consistent(fields: &[Field]) -> bool
    ensures { result ≡ are_consistent fields.now }
{
    agree(fields, fields)
}
