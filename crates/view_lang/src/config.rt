//! The types of a configuration.

use crate::view::View;
use std::marker::Model;
use values::LogicalField;

/// A declared table.
#[derive(Debug, Drop)]
pub struct Table {
    /// The number of the key column.
    pub key: usize,
    /// How many rows may be live at once.
    pub max_rows: usize,
    pub columns: Vec<LogicalField>,
}

impl Model for Table {
    ghost use Rattle.view_lang.specs.Config as seen;

    ghost Value = { seen.Table };

    ghost coded = { seen.table_code };

    ghost view = { λ t. record { key = t.key; max_rows = t.max_rows; columns = t.columns.items } };
}

/// A side table, whose rows are looked up by their keys.
#[derive(Debug, Drop)]
pub struct SideTable {
    pub name: String,
    pub table: Table,
}

impl Model for SideTable {
    ghost use Rattle.std.specs.Prelude.{string_bytes};
    ghost use Rattle.view_lang.specs.Config as seen;

    ghost Value = { seen.SideTable };

    ghost coded = { seen.side_code };

    ghost view = { λ s. record { name = string_bytes s.name; table = s.table } };
}

/// What the record batches of a feed do to a table.
#[derive(Clone, Copy, Debug, PartialEq, Eq)]
pub enum Role {
    /// Their rows are added to the main table, after all live rows.
    Append,
    /// They name keys, and the rows of the main table with these keys are removed.
    Retract,
    /// Their rows are added to the side table of this number, after the rows with the same keys are removed from it.
    Put(usize),
    /// They name keys, and the rows of the side table of this number with these keys are removed.
    Drop(usize),
}

/// A declared feed: its name, and what its batches do.
#[derive(Debug, Drop)]
pub struct FeedConfig {
    pub name: String,
    pub role: Role,
}

impl Model for FeedConfig {
    ghost use Rattle.std.specs.Prelude.{string_bytes};
    ghost use Rattle.view_lang.specs.Config as seen;

    ghost Value = { seen.FeedConfig };

    ghost coded = { seen.feed_code };

    ghost view = { λ f. record { name = string_bytes f.name; role = f.role } };
}

/// A configuration: a main table, side tables, the feeds that change them, and the views that are written of them. Side
/// tables are numbered from 0 in the order of `sides`.
#[derive(Debug, Drop)]
pub struct Config {
    pub main: Table,
    pub sides: Vec<SideTable>,
    pub feeds: Vec<FeedConfig>,
    pub views: Vec<View>,
}

impl Model for Config {
    ghost use Rattle.view_lang.specs.Config as seen;

    ghost Value = { seen.Config };

    ghost coded = { seen.config_code };

    ghost view = { λ c. record {
      main = c.main;
      sides = c.sides.items;
      feeds = c.feeds.items;
      views = c.views.items;
    } };
}
