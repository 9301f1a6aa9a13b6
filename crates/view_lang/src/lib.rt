//! What is declared of tables and of views of them: a main table and side tables, the feeds that change their rows, and
//! the views that are written of them.
//!
//! `specs/Config.antt` is a configuration as contracts see it, and `specs/ConfigRules.antt` says which rules an
//! accepted one obeys. `specs/Edits.antt` has the edits of the batches of feeds, `specs/World.antt` is what they leave
//! of the tables, and `specs/Causes.antt` says why an edit is refused. `specs/Views.antt` says what a view shows:
//! `Joined` of rows with what is looked up, `Truth` of filters, `Groups`, and the order of rows (`RowOrder`, `Sorted`).
//! `specs/Laws.antt` and `specs/ViewLaws.antt` say what follows.
#![tactic(auto)]

mod aggregate;
mod cells;
mod change;
mod config;
mod filter;
mod laws;
mod limits;
mod row_view;
mod rows;
mod schemas;
#[cfg(test)]
mod tests;
mod unfit;
mod upkeep;
mod view;
mod view_laws;

pub use aggregate::Aggregate;
pub use change::{Change, RowChange};
pub use config::{Config, FeedConfig, Role, SideTable, Table};
pub use filter::{Comparison, Filter, Operand, Test, passes};
pub use laws::{config_law, key_law, limits_law, rows_law, sample_law};
pub use limits::MAX_COLUMN_NAME_LEN;
pub use row_view::{RowView, ShownRow};
pub use rows::{passing_rows, project};
pub use schemas::output_fields;
pub use unfit::Unfit;
pub use upkeep::Upkeep;
pub use view::{Direction, GroupOutput, Lookup, Missing, OrderBy, Output, Outputs, View};
pub use view_laws::{group_law, image_law, one_by_one_law, order_law, truth_law, worked_law};
