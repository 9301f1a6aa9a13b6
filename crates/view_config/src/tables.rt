//! Reads tables: their columns, and which of them is the key.

ghost use Rattle.toml.specs.View.{items_view, table_view, view};
ghost use Rattle.values.specs.Reading.{Yields};
ghost use Rattle.view_config.specs.Reading.{Answers};
ghost use Rattle.view_config.specs.Tables.{column_of, columns_of, few_columns, main_of, ordered_column, table_of};
ghost use Rattle.view_config.specs.Tree.{each_item};

use crate::columns::{find, ordered};
use crate::faults::ConfigFault;
use crate::limits::{check_columns, check_name};
use crate::tree::{check_names, entry, items_in, members_in, pair_in, text_in};
use crate::types::read_field;
use std::alloc::Global;
use toml::{Table as Entries, Value};
use values::LogicalField;
use values::limits::{MAX_COLUMNS, MAX_DEPTH, MAX_MAIN_ROWS};
use view_lang::Table;

/// The entries of a table.
pub(crate) const TABLE_ENTRIES: &[&str] = &["key", "columns"];

#[tactic(auto, using(crate::proofs::Causes::failing), unfolding(crate::specs::Tables::column_of))]
fn read_column(alloc: Global, value: &Value) -> Result<LogicalField, ConfigFault>
    ensures { Answers (λ n. n) result (column_of (view value.now)) }
{
    let (name, value) = pair_in(value).ok_or(ConfigFault::Shape)?;
    let name = name.as_str().ok_or(ConfigFault::Shape)?;
    let name = check_name(name)?;
    read_field(alloc, name, value, MAX_DEPTH)
}

#[tactic(auto, using(crate::proofs::GatheredItems::gathering))]
fn read_each_column(alloc: Global, values: &[Value]) -> Result<Vec<LogicalField>, ConfigFault>
    ensures { Answers (λ ns. ns.items) result (each_item column_of (items_view values.now)) }
{
    let mut columns = Vec::new(alloc);
    for value in values {
        columns.push(read_column(alloc, value)?)?;
    }
    Ok(columns)
}

/// Refuses no columns, and more than 64, as `OverLimit`.
#[tactic(auto, using(crate::proofs::Arrays::counts))]
pub(crate) fn check_few(values: &[Value]) -> Result<(), ConfigFault>
    ensures { Yields (λ u. u) result (few_columns (items_view values.now)) }
{
    if 1 <= values.len() && values.len() <= MAX_COLUMNS {
        Ok(())
    } else {
        Err(ConfigFault::OverLimit)
    }
}

#[tactic(auto, using(crate::proofs::Causes::failing), unfolding(crate::specs::Tables::columns_of))]
pub(crate) fn read_columns(alloc: Global, value: &Value) -> Result<Vec<LogicalField>, ConfigFault>
    ensures { Answers (λ ns. ns.items) result (columns_of (view value.now)) }
{
    let values = items_in(value)?;
    check_few(values)?;
    let columns = read_each_column(alloc, values)?;
    check_columns(&columns)?;
    Ok(columns)
}

/// The column of this name, with its number; `UnknownName` where there is none, `OrderType` where its values have no
/// order.
#[tactic(auto, using(crate::proofs::Causes::causes), unfolding(crate::specs::Tables::ordered_column))]
pub(crate) fn ordered_column<'a>(
    columns: &'a [LogicalField],
    name: &str,
) -> Result<(usize, &'a LogicalField), ConfigFault>
    ensures { Yields (λ c. (c.0, c.1.now)) result (ordered_column columns.now name.now) }
{
    let (number, column) = find(columns, name).ok_or(ConfigFault::UnknownName)?;
    ordered(number, column)
}

/// Reads a table that may have at most `max_rows` live rows.
#[tactic(auto, using(crate::proofs::Causes::failing), unfolding(crate::specs::Tables::table_of))]
pub(crate) fn read_table(
    alloc: Global,
    entries: &Entries,
    max_rows: usize,
) -> Result<Table, ConfigFault>
    ensures { Answers (λ t. t) result (table_of max_rows (table_view entries.now)) }
{
    check_names(entries, TABLE_ENTRIES)?;
    let name = text_in(entry(entries, "key")?)?;
    let columns = read_columns(alloc, entry(entries, "columns")?)?;
    let (key, _) = ordered_column(&columns, name)?;
    Ok(Table {
        key,
        max_rows,
        columns,
    })
}

/// Reads the main table of a configuration.
#[tactic(auto, using(crate::proofs::Causes::failing), unfolding(crate::specs::Tables::main_of))]
pub(crate) fn read_main(alloc: Global, entries: &Entries) -> Result<Table, ConfigFault>
    ensures { Answers (λ t. t) result (main_of (table_view entries.now)) }
{
    read_table(alloc, members_in(entry(entries, "main")?)?, MAX_MAIN_ROWS)
}
