//! Laws of the definitions: functions that do nothing, whose contracts are theorems.

ghost use Rattle.std.specs.Prelude.{◌≡◌, None, Some};
ghost use Rattle.view_lang.specs.Causes.{cause_in};
ghost use Rattle.view_lang.specs.Laws.{
  KeysStayDistinct,
  NoRowsAreKeyed,
  ViewsAreTables,
  ViewsCanSum,
  ViewsHaveFewRows,
  ViewsHaveRows,
  ViewsOrderKeys,
  ViewsUseKeys,
};
ghost use Rattle.view_lang.specs.Limits.{
  max_appended_rows,
  max_column_name_len,
  max_columns,
  max_feeds,
  max_side_rows,
  max_sides,
  max_undo_depth,
  max_views,
};
ghost use Rattle.view_lang.specs.Rows.{RowsAreLight};
ghost use Rattle.view_lang.specs.Sample.{
  heavy_row,
  light_row,
  live_key,
  many_rows,
  null_key,
  put_again,
  put_many,
  put_twice,
  repeated_key,
  sample_edits,
  sample_shown,
  sample_tables,
  sample_view,
  sample_world,
  unknown_key,
};
ghost use Rattle.view_lang.specs.Views.{view_of};
ghost use Rattle.view_lang.specs.World.{world};
ghost use Rattle.view_lang.specs.declared.unfit.Unfit.TheVariants as unfit;

use crate::limits::MAX_COLUMN_NAME_LEN;
use values::limits::{
    MAX_APPENDED_ROWS, MAX_COLUMNS, MAX_FEEDS, MAX_SIDE_ROWS, MAX_SIDE_TABLES, MAX_UNDO_DEPTH,
    MAX_VIEWS,
};

/// The columns of a view that obeys the rules of `specs/ConfigRules.antt` obey those of a table's columns.
pub fn config_law()
    ensures views { ViewsAreTables }
{}

/// A row that isn't too heavy for an edit is within the limits on rows. Of such rows, at most as many as a table may
/// have, the sums of a view's groups fit their type, and the rows that the view shows are rows of its columns, and no
/// more than those. What a view groups by, compares or orders by is neither a list nor a struct.
pub fn rows_law()
    ensures light { RowsAreLight }
    ensures sums { ViewsCanSum }
    ensures views { ViewsHaveRows }
    ensures few { ViewsHaveFewRows }
    ensures keys { ViewsUseKeys }
    ensures ordered { ViewsOrderKeys }
{}

/// After any edits that fit, the live rows of a table have distinct keys, none of them null.
pub fn key_law()
    ensures none { NoRowsAreKeyed }
    ensures edits { KeysStayDistinct }
{}

/// Each limit of the code is that of the definitions.
pub fn limits_law()
    ensures columns { MAX_COLUMNS ≡ max_columns }
    ensures column_name_len { MAX_COLUMN_NAME_LEN ≡ max_column_name_len }
    ensures sides { MAX_SIDE_TABLES ≡ max_sides }
    ensures side_rows { MAX_SIDE_ROWS ≡ max_side_rows }
    ensures feeds { MAX_FEEDS ≡ max_feeds }
    ensures views { MAX_VIEWS ≡ max_views }
    ensures appended_rows { MAX_APPENDED_ROWS ≡ max_appended_rows }
    ensures undo_depth { MAX_UNDO_DEPTH ≡ max_undo_depth }
{}

/// What some edits leave of two tables, what a view shows of them, and for each cause an edit that is refused for it.
pub fn sample_law()
    ensures tables { world sample_tables sample_edits ≡ sample_world }
    ensures view { view_of sample_tables sample_view sample_world ≡ sample_shown }
    ensures null_key { cause_in sample_tables sample_world null_key ≡ Some unfit.NullKey }
    ensures live_key { cause_in sample_tables sample_world live_key ≡ Some unfit.DuplicateKey }
    ensures repeated_key { cause_in sample_tables sample_world repeated_key ≡ Some unfit.DuplicateKey }
    ensures unknown_key { cause_in sample_tables sample_world unknown_key ≡ Some unfit.UnknownKey }
    ensures many { cause_in sample_tables sample_world many_rows ≡ Some unfit.TooManyRows }
    ensures heavy { cause_in sample_tables sample_world heavy_row ≡ Some unfit.CellTooHeavy }
    ensures fits { cause_in sample_tables sample_world light_row ≡ None }
    ensures put_again { cause_in sample_tables sample_world put_again ≡ None }
    ensures put_twice { cause_in sample_tables sample_world put_twice ≡ Some unfit.DuplicateKey }
    ensures put_many { cause_in sample_tables sample_world put_many ≡ Some unfit.TooManyRows }
{}
