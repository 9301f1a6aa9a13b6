//! The first live rows of a store.

ghost use Rattle.std.specs.Map.{keys_of};
ghost use Rattle.std.specs.Prelude.{◌≡◌, IfOk, take};
ghost use Rattle.row_keys.specs.Numbered.{numbered};

use crate::store::RowStore;
use std::alloc::{AllocError, Global};

impl RowStore {
    /// The numbers of the first live rows, in order, at most `most` of them. Retracted rows before them are skipped one
    /// by one, and released ones at once.
    pub fn first_live_numbers(&self, alloc: Global, most: usize) -> Result<Vec<usize>, AllocError>
        ensures { IfOk result (λ numbers. numbers.items ≡ take most (keys_of (numbered self.now.slots))) }
    {
        let mut numbers = Vec::with_capacity(alloc, most.min(self.len()))?;
        let mut number = self.next_retained(0);
        while number < self.appended() && numbers.len() < most {
            if self.is_live(number) {
                numbers.push(number)?;
            }
            number = self.next_retained(number + 1);
        }
        Ok(numbers)
    }
}
