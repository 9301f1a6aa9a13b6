//! Tables, and views of them that are kept current: edits of the tables' rows change the state of each view, and the
//! rows of a view are read from its state.
//!
//! `specs/Stores.antt` says which tables and rows stores hold, `TableChanges` of `row_keys` what edits do to them,
//! `specs/Inputs.antt` what a view makes of a row, `specs/ViewStates.antt` what is stored for a view,
//! `specs/Reading.antt` and `specs/Shown.antt` what is read from it, `specs/LiveEdits.antt` what edits do to tables and
//! views together, and `specs/ViewParts.antt` and `specs/TablesParts.antt` of which parts all of it consists.
#![tactic(auto)]

mod alike;
mod all_views;
mod arrivals;
mod follow;
mod inputs;
mod joined_row;
mod live_tables;
mod lookup_views;
mod parts;
mod reading;
mod remaking;
mod shown;
mod side_rows;
mod sided_row;
mod sub_group_moves;
mod swaps;
mod turning;
mod view_parts;
mod view_state;
mod viewed;

pub use live_tables::LiveTables;
pub use parts::{LinksParts, LiveTablesParts, MaterializedParts, ViewParts};
pub use shown::{JoinedColumns, Shown, StoredColumns, are_many};
