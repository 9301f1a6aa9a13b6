//! Reads lookups: which side table a view's rows are joined with.

ghost use Rattle.std.specs.Prelude.{◌≡◌};
ghost use Rattle.toml.specs.View.{view};
ghost use Rattle.values.specs.Reading.{Yields};
ghost use Rattle.view_config.specs.Lookups.{has_key_of, lookup_of, missing_by};

use crate::faults::ConfigFault;
use crate::sides::side_called;
use crate::tables::ordered_column;
use crate::tree::{check_names, entry, members_in, text_in};
use toml::Value;
use values::ColType;
use view_lang::{Lookup, Missing, SideTable, Table};

fn missing_by(word: &str) -> Option<Missing>
    ensures { result ≡ missing_by word.now }
{
    if word == "null" {
        Some(Missing::Null)
    } else if word == "drop" {
        Some(Missing::Drop)
    } else {
        None
    }
}

/// Whether the key column of a table has this type.
fn has_key_of(col_type: &ColType, table: &Table) -> bool
    ensures { result ≡ has_key_of col_type.now table.now }
{
    match table.columns.get(table.key) {
        Some(key) => *col_type == key.col_type,
        None => false,
    }
}

/// Reads `{ side, on, missing }`, and finds the side table that it names.
#[tactic(auto, using(crate::proofs::Causes::causes), unfolding(crate::specs::Lookups::lookup_of))]
pub(crate) fn read_lookup<'a>(
    main: &Table,
    sides: &'a [SideTable],
    value: &Value,
) -> Result<(Lookup, &'a SideTable), ConfigFault>
    ensures { Yields (λ l. (l.0, l.1.now)) result (lookup_of main.now sides.now (view value.now)) }
{
    let entries = members_in(value)?;
    check_names(entries, &["side", "on", "missing"])?;
    let name = text_in(entry(entries, "side")?)?;
    let on = text_in(entry(entries, "on")?)?;
    let missing = text_in(entry(entries, "missing")?)?;
    let missing = missing_by(missing).ok_or(ConfigFault::Shape)?;
    let (number, side) = side_called(sides, name)?;
    let (on, column) = ordered_column(&main.columns, on)?;
    if !has_key_of(&column.col_type, &side.table) {
        return Err(ConfigFault::ConstantType);
    }
    let lookup = Lookup {
        side: number,
        on,
        missing,
        columns: side.table.columns.len(),
    };
    Ok((lookup, side))
}
