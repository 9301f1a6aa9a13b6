//! The number of values of each dictionary.

ghost use Rattle.std.specs.Prelude.{◌≡◌, if◌then◌else◌};
ghost use Rattle.messages.specs.Counts.{IsCounted, counted};
ghost use Rattle.schema_meta.specs.DictionaryBatch.{count_of, counts_after};

use indexmap::IndexMap;
use schema_meta::{DictionaryHeader, Header};

/// How many values the dictionary with this id has after a message.
#[derive(Clone, Copy)]
pub(crate) struct Count {
    pub id: i64,
    pub values: usize,
}

/// How many values of its dictionary remain when a batch is read: none unless it is a delta.
pub(crate) fn count_before(counts: &IndexMap<i64, usize>, header: &DictionaryHeader) -> usize
    ensures { result ≡ (if header.now.is_delta then count_of counts.now.entries header.now.id else 0) }
{
    if !header.is_delta {
        return 0;
    }
    match counts.get(&header.id) {
        None => 0,
        Some(count) => *count,
    }
}

/// How many values a dictionary has after a message, if that is a dictionary batch.
pub(crate) fn count_after(counts: &IndexMap<i64, usize>, header: &Header) -> Option<Count>
    requires { IsCounted counts.now.entries header.now }
    ensures { counted counts.now.entries result ≡ counts_after counts.now.entries header.now }
{
    match header {
        Header::Dictionary(dictionary) => {
            let before = count_before(counts, dictionary);
            Some(Count {
                id: dictionary.id,
                values: before + dictionary.batch.rows,
            })
        }
        _ => None,
    }
}
