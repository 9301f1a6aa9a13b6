//! Reads views.

ghost use Rattle.std.specs.Prelude.{option_map};
ghost use Rattle.toml.specs.View.{table_view, view};
ghost use Rattle.values.specs.Reading.{Yields};
ghost use Rattle.view_config.specs.Filters.{whole_filter};
ghost use Rattle.view_config.specs.Lookups.{lookup_of as reads};
ghost use Rattle.view_config.specs.Outputs.{group_of};
ghost use Rattle.view_config.specs.Reading.{Answers};
ghost use Rattle.view_config.specs.Tree.{data_of as told, each_member};
ghost use Rattle.view_config.specs.Views.{perhaps, view_in, view_of, views_of};

use crate::dict::read_dict_at;
use crate::entries::{check_entry_name, check_few_entries};
use crate::faults::ConfigFault;
use crate::filters::read_whole_filter;
use crate::groups::read_group;
use crate::having::read_having_at;
use crate::lookups::read_lookup;
use crate::orders::{read_first, read_order_at};
use crate::outputs::read_outputs;
use crate::scope::{Rows, Scope};
use crate::tree::{check_names, entry, entry_at, members_in};
use std::alloc::Global;
use toml::{Table as Entries, Value};
use values::limits::MAX_VIEWS;
use view_lang::{Filter, Lookup, SideTable, Table, View};

/// The entries of a view.
pub(crate) const VIEW_ENTRIES: &[&str] = &[
    "lookup", "filter", "group", "columns", "having", "order", "first", "dict",
];

#[tactic(auto, using(crate::proofs::Causes::causes))]
pub(crate) fn read_lookup_at<'a>(
    main: &Table,
    sides: &'a [SideTable],
    value: Option<&Value>,
) -> Result<Option<(Lookup, &'a SideTable)>, ConfigFault>
    ensures { Yields (option_map (λ l. (l.0, l.1.now))) result (perhaps (reads main.now sides.now) (told value.entry)) }
{
    match value {
        Some(value) => Ok(Some(read_lookup(main, sides, value)?)),
        None => Ok(None),
    }
}

#[tactic(auto, using(crate::proofs::Causes::failing))]
pub(crate) fn read_filter_at(
    alloc: Global,
    scope: &Scope,
    value: Option<&Value>,
) -> Result<Option<Filter>, ConfigFault>
    ensures { Answers (λ f. f) result (perhaps (whole_filter scope.now) (told value.entry)) }
{
    match value {
        Some(value) => Ok(Some(read_whole_filter(alloc, scope, value)?)),
        None => Ok(None),
    }
}

#[tactic(auto, using(crate::proofs::Causes::failing))]
pub(crate) fn read_group_at(
    alloc: Global,
    scope: &Scope,
    value: Option<&Value>,
) -> Result<Option<Vec<usize>>, ConfigFault>
    ensures { Answers (option_map (λ by. by.items)) result (perhaps (group_of scope.now) (told value.entry)) }
{
    match value {
        Some(value) => Ok(Some(read_group(alloc, scope, value)?)),
        None => Ok(None),
    }
}

/// Reads the parts of a view that may name columns: its filters, groups, outputs, order and first rows.
#[tactic(auto, using(crate::proofs::Causes::failing), unfolding(crate::specs::Views::view_in))]
fn read_view_in(
    alloc: Global,
    scope: &Scope,
    name: &str,
    lookup: Option<Lookup>,
    entries: &Entries,
) -> Result<View, ConfigFault>
    ensures { Answers (λ v. v) result (view_in scope.now name.now lookup (table_view entries.now)) }
{
    let filter = read_filter_at(alloc, scope, entry_at(entries, "filter"))?;
    let group = read_group_at(alloc, scope, entry_at(entries, "group"))?;
    let all = read_outputs(alloc, scope, group, entry(entries, "columns")?)?;
    let outputs = read_having_at(alloc, scope, all, entry_at(entries, "having"))?;
    let order = read_order_at(alloc, scope, &outputs, entry_at(entries, "order"))?;
    let coded_outputs = read_dict_at(alloc, scope, &outputs, entry_at(entries, "dict"))?;
    let first = read_first(entry_at(entries, "first"))?;
    Ok(View {
        name: String::from_str(alloc, name)?,
        lookup,
        filter,
        outputs,
        order,
        first,
        coded_outputs,
    })
}

#[tactic(auto, using(crate::proofs::Causes::failing), unfolding(crate::specs::Views::view_of))]
pub(crate) fn read_view(
    alloc: Global,
    main: &Table,
    sides: &[SideTable],
    name: &str,
    value: &Value,
) -> Result<View, ConfigFault>
    ensures { Answers (λ v. v) result (view_of main.now sides.now name.now (view value.now)) }
{
    let entries = members_in(value)?;
    check_names(entries, VIEW_ENTRIES)?;
    let name = check_entry_name(name)?;
    match read_lookup_at(main, sides, entry_at(entries, "lookup"))? {
        Some((lookup, side)) => {
            let scope = Scope {
                rows: Rows::Joined,
                main: &main.columns,
                side: &side.table.columns,
            };
            read_view_in(alloc, &scope, name, Some(lookup), entries)
        }
        None => {
            let scope = Scope {
                rows: Rows::Joined,
                main: &main.columns,
                side: &[],
            };
            read_view_in(alloc, &scope, name, None, entries)
        }
    }
}

#[tactic(auto, using(crate::proofs::GatheredItems::entering))]
fn read_each_view(
    alloc: Global,
    main: &Table,
    sides: &[SideTable],
    entries: &Entries,
) -> Result<Vec<View>, ConfigFault>
    ensures { Answers (λ vs. vs.items) result (each_member (view_of main.now sides.now) (table_view entries.now)) }
{
    let mut views = Vec::new(alloc);
    for (name, value) in entries {
        views.push(read_view(alloc, main, sides, name.as_str(), value)?)?;
    }
    Ok(views)
}

/// Reads the views of a configuration, over these tables: none where there is no such entry.
#[tactic(auto, using(crate::proofs::Causes::failing), unfolding(crate::specs::Tree::each_member))]
pub(crate) fn read_views(
    alloc: Global,
    main: &Table,
    sides: &[SideTable],
    entries: &Entries,
) -> Result<Vec<View>, ConfigFault>
    ensures { Answers (λ vs. vs.items) result (views_of main.now sides.now (table_view entries.now)) }
{
    let Some(value) = entry_at(entries, "view") else {
        return Ok(Vec::new(alloc));
    };
    let views = members_in(value)?;
    check_few_entries(views, MAX_VIEWS)?;
    read_each_view(alloc, main, sides, views)
}
