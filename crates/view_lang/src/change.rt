//! Changes of numbered rows.

ghost use Rattle.std.specs.Prelude.{◌≡◌, ◌++◌, ◌∷◌, [], OnErr, OnOk};
ghost use Rattle.std.specs.Option.{option_map};
ghost use Rattle.view_lang.specs.Shifts.{shift};

use std::alloc::{AllocError, Global};
use std::marker::Model;
use values::{Row, Value};

/// The change at one row number: the row before it, and the row after it. A row that is inserted has none before, one
/// that is deleted has none after.
#[derive(Debug, Drop)]
pub struct RowChange {
    number: usize,
    before: Option<Row>,
    after: Option<Row>,
}

impl Model for RowChange {
    ghost use Rattle.std.specs.Option.{option_map};
    ghost use Rattle.view_lang.specs.Shifts.{Shift, shift, shift_code};

    ghost Value = { Shift };

    ghost coded = { shift_code };

    ghost view = { λ c. shift c.number (option_map (λ r. r.items) c.before) (option_map (λ r. r.items) c.after) };
}

impl RowChange {
    /// A change at this number from one row, or none, to another, or none.
    pub fn new(number: usize, before: Option<Row>, after: Option<Row>) -> RowChange
        ensures { result ≡ shift number (option_map (λ r. r.items) before) (option_map (λ r. r.items) after) }
    {
        RowChange {
            number,
            before,
            after,
        }
    }

    /// The number of the row.
    pub fn number(&self) -> usize
        ensures { result ≡ self.now.number }
    {
        self.number
    }

    /// The row before the change, if there was one.
    pub fn before(&self) -> Option<&[Value]>
        ensures { option_map (λ r. r.now) result ≡ self.now.before }
    {
        match &self.before {
            Some(row) => Some(row.as_slice()),
            None => None,
        }
    }

    /// The row after it, if there is one.
    pub fn after(&self) -> Option<&[Value]>
        ensures { option_map (λ r. r.now) result ≡ self.now.after }
    {
        match &self.after {
            Some(row) => Some(row.as_slice()),
            None => None,
        }
    }
}

/// A list of changes at row numbers, which are applied one after the other. Contracts see the list.
#[derive(Debug, Drop)]
pub struct Change {
    rows: Vec<RowChange>,
}

impl Model for Change {
    ghost use Rattle.std.specs.Prelude.{List};
    ghost use Rattle.std.specs.Coded.{coded_list};
    ghost use Rattle.view_lang.specs.Shifts.{Shift, shift_code};

    ghost Value = { List Shift };

    ghost coded = { coded_list shift_code };

    ghost view = { λ c. c.rows.items };
}

impl Change {
    /// A list without changes.
    pub fn new(alloc: Global) -> Change
        ensures { result ≡ [] }
    {
        Change {
            rows: Vec::new(alloc),
        }
    }

    /// Adds a change at one number at the end. If memory is refused, nothing has changed.
    pub fn push(&mut self, changed: RowChange) -> Result<(), AllocError>
        ensures ok { OnOk result (self.new ≡ self.old ++ changed ∷ []) }
        ensures err { OnErr result (self.new ≡ self.old) }
    {
        self.rows.push(changed)?;
        Ok(())
    }

    /// The changes at row numbers, in order.
    pub fn rows(&self) -> &[RowChange]
        ensures { result.now ≡ self.now }
    {
        self.rows.as_slice()
    }
}
