//! Dictionary encoding of fields: Schema.fbs, table `DictionaryEncoding`.
ghost use Rattle.std.specs.Prelude.{◌≡◌};
ghost use Rattle.values.specs.Reading.{Yields};
ghost use Rattle.schema_meta.specs.Encoding.{
  field_encoding_of,
  dense_of,
  encoding_of,
  id_of,
  index_type_of,
  may_be_encoded,
};

use field_types::schema_fbs::{
    DENSE_ARRAY, DICTIONARY_ID, DICTIONARY_INDEX_TYPE, DICTIONARY_KIND, FIELD_DICTIONARY,
};
use field_types::{IndexType, TypeKind, read_index_type, read_long, read_short, readable};
use flatbuf::TableRef;
use values::{IntWidth, StreamFault};

/// How a field refers to its dictionary: its id, and the type of the indices.
#[derive(Clone, Copy, Debug, PartialEq, Eq)]
pub struct DictionaryEncoding {
    /// The dictionary's id. Fields with the same id share a dictionary.
    pub id: i64,
    pub index: IndexType,
}

fn read_id(encoding: &TableRef) -> Result<i64, StreamFault>
    ensures { Yields (λ id. id) result (id_of encoding.now) }
{
    read_long(encoding, DICTIONARY_ID)
}

fn read_index(encoding: &TableRef) -> Result<IndexType, StreamFault>
    ensures { Yields (λ index. index) result (index_type_of encoding.now) }
{
    match readable(encoding.table(DICTIONARY_INDEX_TYPE))? {
        None => Ok(IndexType {
            width: IntWidth::Bits32,
            signed: true,
        }),
        Some(table) => read_index_type(&table),
    }
}

fn check_dense(encoding: &TableRef) -> Result<(), StreamFault>
    ensures { Yields (λ u. u) result (dense_of encoding.now) }
{
    match read_short(encoding, DICTIONARY_KIND, 0)? {
        DENSE_ARRAY => Ok(()),
        _ => Err(StreamFault::UnsupportedType),
    }
}

#[tactic(auto, using(crate::proofs::Faults::faults), unfolding(crate::specs::Encoding::encoding_of))]
fn read_encoding(encoding: &TableRef) -> Result<DictionaryEncoding, StreamFault>
    ensures { Yields (λ c. c) result (encoding_of encoding.now) }
{
    let id = read_id(encoding)?;
    let index = read_index(encoding)?;
    check_dense(encoding)?;
    Ok(DictionaryEncoding { id, index })
}

/// Whether a dictionary may have values of this kind: any but lists and structs.
fn may_be_encoded(kind: TypeKind) -> bool
    ensures { result ≡ may_be_encoded kind }
{
    match kind {
        TypeKind::List { .. } | TypeKind::Struct => false,
        _ => true,
    }
}

/// Reads the dictionary encoding of a field of this kind, if it has one.
#[tactic(auto, using(crate::proofs::Faults::faults, values::proofs::Readings::stands_mapped), unfolding(crate::specs::Encoding::field_encoding_of))]
pub(crate) fn read_field_encoding(
    kind: TypeKind,
    field: &TableRef,
) -> Result<Option<DictionaryEncoding>, StreamFault>
    ensures { Yields (λ c. c) result (field_encoding_of kind field.now) }
{
    let Some(encoding) = readable(field.table(FIELD_DICTIONARY))? else {
        return Ok(None);
    };
    if !may_be_encoded(kind) {
        return Err(StreamFault::UnsupportedType);
    }
    Ok(Some(read_encoding(&encoding)?))
}
