//! The header of a dictionary batch: Message.fbs, `DictionaryBatch`.

ghost use Rattle.std.specs.Prelude.{◌≤◌};
ghost use Rattle.values.specs.Limits.{max_body_size};
ghost use Rattle.values.specs.Reading.{Answers, Yields};
ghost use Rattle.schema_meta.specs.DictionaryBatch.{data_of, dictionary_of, id_of, limited, values_batch};

use crate::batch::read_batch_header;
use crate::columns::Columns;
use crate::counts::count_before;
use crate::lists::HeaderLists;
use field_types::{read_bool, read_long, readable};
use flatbuf::TableRef;
use indexmap::IndexMap;
use schema_meta::message_fbs::{
    DICTIONARY_BATCH_DATA, DICTIONARY_BATCH_ID, DICTIONARY_BATCH_IS_DELTA,
};
use schema_meta::{DictionaryHeader, StreamSchema};
use values::limits::MAX_DICTIONARY_VALUES;
use values::{ColType, StreamFault};

fn id_of(table: &TableRef) -> Result<i64, StreamFault>
    ensures { Yields (λ id. id) result (id_of table.now) }
{
    read_long(table, DICTIONARY_BATCH_ID)
}

/// The table of the record batch of a dictionary batch; an absent one is `BadTable`.
fn data_of<'a>(table: &TableRef<'a>) -> Result<TableRef<'a>, StreamFault>
    ensures { Yields (λ t. t) result (data_of table.now) }
{
    match readable(table.table(DICTIONARY_BATCH_DATA))? {
        None => Err(StreamFault::BadTable),
        Some(data) => Ok(data),
    }
}

/// Reads the header of a batch of values of this type for the dictionary `id`.
#[tactic(auto, using(values::proofs::Readings::failing), unfolding(schema_meta::specs::DictionaryBatch::values_batch))]
fn values_batch(
    lists: &mut HeaderLists,
    table: &TableRef,
    id: i64,
    stored: &ColType,
    body: usize,
) -> Result<DictionaryHeader, StreamFault>
    requires { body ≤ max_body_size }
    ensures { Answers (λ d. d) result (values_batch body table.now id stored.now) }
{
    let is_delta = read_bool(table, DICTIONARY_BATCH_IS_DELTA)?;
    let data = data_of(table)?;
    let batch = read_batch_header(lists, &data, Columns::Values(stored.layout()), body)?;
    Ok(DictionaryHeader {
        id,
        is_delta,
        batch,
    })
}

/// Refuses a batch after which its dictionary would have too many values, as `DictionaryTooLarge`.
fn check_count(counts: &IndexMap<i64, usize>, header: &DictionaryHeader) -> Result<(), StreamFault>
    ensures { Yields (λ u. header.now) result (limited counts.now.entries header.now) }
{
    let before = count_before(counts, header);
    let rows = header.batch.rows;
    if before > MAX_DICTIONARY_VALUES || rows > MAX_DICTIONARY_VALUES - before {
        return Err(StreamFault::DictionaryTooLarge);
    }
    Ok(())
}

/// Reads the table `DictionaryBatch` under this schema, in a message with a body of `body` bytes. `counts` has how many
/// values each dictionary has.
#[tactic(auto, using(values::proofs::Readings::failing), unfolding(schema_meta::specs::DictionaryBatch::dictionary_of))]
pub(crate) fn read_dictionary_header(
    lists: &mut HeaderLists,
    table: &TableRef,
    schema: &StreamSchema,
    counts: &IndexMap<i64, usize>,
    body: usize,
) -> Result<DictionaryHeader, StreamFault>
    requires { body ≤ max_body_size }
    ensures { Answers (λ d. d) result
        (dictionary_of schema.now.fields.items counts.now.entries body table.now) }
{
    let id = id_of(table)?;
    let Some(stored) = schema.value_type(id) else {
        return Err(StreamFault::UnknownDictionary);
    };
    let header = values_batch(lists, table, id, stored, body)?;
    check_count(counts, &header)?;
    Ok(header)
}
