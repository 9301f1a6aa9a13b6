//! The latest version of a dictionary, and when its values are gathered.

ghost use Rattle.std.specs.Prelude.{◌≡◌, ◌++◌, IfOk};

use crate::dictionary::Dictionary;
use crate::value_runs::ValueRuns;
use std::alloc::{AllocError, Global};
use std::marker::Model;

/// How many bytes of values may be copied for each slot that refers to one of them.
const BYTES_FOR_A_SLOT: usize = 4;

/// The latest version of a dictionary, and how many slots referred to its values since these were last gathered.
/// Contracts see the list of its values.
#[derive(Drop)]
pub struct Latest {
    dictionary: Dictionary,
    slots: usize,
}

impl Model for Latest {
    ghost use Rattle.std.specs.Prelude.{List};
    ghost use Rattle.std.specs.Coded.{coded_list};
    ghost use Rattle.values.specs.Datum.{Datum, datum_code};

    ghost Value = { List Datum };

    ghost coded = { coded_list datum_code };

    ghost view = { λ l. l.dictionary };
}

impl Latest {
    /// A first version, of these values.
    pub(crate) fn of(alloc: Global, values: ValueRuns) -> Result<Latest, AllocError>
        ensures { IfOk result (λ l. l ≡ values) }
    {
        let dictionary = Dictionary::of(alloc, values)?;
        Ok(Latest {
            dictionary,
            slots: 0,
        })
    }

    /// A version of the same values followed by these.
    pub(crate) fn extended(&self, alloc: Global, values: ValueRuns) -> Result<Latest, AllocError>
        ensures { IfOk result (λ l. l ≡ self.now ++ values) }
    {
        let slots = self.slots;
        let dictionary = self.dictionary.extended(alloc, values)?;
        Ok(Latest { dictionary, slots })
    }

    /// The version itself.
    pub(crate) fn dictionary(&self) -> &Dictionary
        ensures { result.now ≡ self.now }
    {
        &self.dictionary
    }

    /// Counts slots that refer to values of the dictionary. Where the values can't be read as a slice, and the slots so
    /// far pay for it, they are gathered: then they can. Where memory for that is refused they stay as they are.
    ///
    /// So the bytes that are copied are at most `BYTES_FOR_A_SLOT` times the slots that were counted, whatever deltas
    /// came between them.
    pub(crate) fn count_slots(&mut self, alloc: Global, slots: usize)
        ensures { self.new ≡ self.old }
    {
        self.slots = self.slots.saturating_add(slots);
        if self.dictionary.as_slice().is_some() {
            return;
        }
        if self.dictionary.weight() <= self.slots.saturating_mul(BYTES_FOR_A_SLOT) {
            self.slots = 0;
            if let Ok(gathered) = self.dictionary.gathered(alloc) {
                self.dictionary = gathered;
            }
        }
    }
}
