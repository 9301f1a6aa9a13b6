//! Updates what a view stores for one row that is inserted or deleted, where the row lies.

ghost use Rattle.std.specs.Prelude.{◌≡◌, ◌<◌, ◌∷◌, [], OnOk, Some};
ghost use Rattle.std.specs.Map.{values_of};
ghost use Rattle.std.specs.Option.{option_map};
ghost use Rattle.values.specs.CellViews.{shallow, viewed};
ghost use Rattle.values.specs.Datum.{Datum};
ghost use Rattle.view_lang.specs.Views.{shown_row};
ghost use Rattle.group_order.specs.Ranked.{Keeps as KeepsRanked};
ghost use Rattle.lookups.specs.Keeping.{Keeps as KeepsReferrers};
ghost use Rattle.top_rows.specs.Keeping.{Keeps as KeepsOrder};
ghost use Rattle.sub_groups.specs.SubGroups.{IsSame, KeepsSubGroups};
ghost use Rattle.upkeep.specs.Following.{CanTurn, Follows, LinksFollow, MaterializedFollows};
ghost use Rattle.upkeep.specs.ViewStates.{
  IsMaterialized,
  KeepsLinks,
  columns_in,
  form_of,
  link_row,
  projected_by,
  referring_by,
  sub_row_of,
  turned_by,
};

use crate::view_state::{Links, Materialized, Turn};
use group_order::RankedGroups;
use lookups::Referrers;
use row_keys::StoredRow;
use std::alloc::AllocError;
use sub_groups::SubGroups;
use top_rows::Ordered;
use values::CellView;
use view_lang::{Lookup, Output, Outputs, RowView, ShownRow, View};

/// Updates an order for the output row of a joined row.
fn turn_order<R: RowView>(
    order: &mut Ordered,
    outputs: &[Output],
    turn: Turn,
    number: usize,
    row: &R,
) -> Result<(), AllocError>
    ensures order { order.new.order ≡ order.old.order }
    ensures kept { OnOk result (Follows (KeepsOrder order.old) (KeepsOrder order.new)
        (turned_by turn number (Some (shown_row outputs.now (R.cells row.now))) ∷ [])) }
{
    let shown = ShownRow { outputs, row };
    match turn {
        Turn::Come => {
            order.come(number, &shown)?;
            return Ok(());
        }
        Turn::Go => {
            order.go(number, &shown)?;
            return Ok(());
        }
    }
}

/// Updates groups for a joined row.
fn turn_groups<R: RowView>(
    groups: &mut RankedGroups,
    turn: Turn,
    number: usize,
    row: &R,
) -> Result<(), AllocError>
    requires { CanTurn (λ rows. KeepsRanked groups.old (values_of rows))
        (turned_by turn number (Some (R.cells row.now)) ∷ []) }
    ensures keys { OnOk result (groups.new.groups.keys ≡ groups.old.groups.keys) }
    ensures columns { OnOk result (groups.new.groups.columns ≡ groups.old.groups.columns) }
    ensures ranking { groups.new.ranking ≡ groups.old.ranking }
    ensures kept { OnOk result (Follows (λ rows. KeepsRanked groups.old (values_of rows))
        (λ rows. KeepsRanked groups.new (values_of rows)) (turned_by turn number (Some (R.cells row.now)) ∷ [])) }
{
    match turn {
        Turn::Come => {
            groups.come(row)?;
            return Ok(());
        }
        Turn::Go => {
            groups.go(row)?;
            return Ok(());
        }
    }
}

/// Updates what a view stores for a joined row that passes the view's filter. After an error it is meaningless.
fn turn_row<R: RowView>(
    view: &View,
    kept: &mut Materialized,
    turn: Turn,
    number: usize,
    row: &R,
) -> Result<(), AllocError>
    requires { CanTurn (IsMaterialized view.now kept.old) (turned_by turn number
        (projected_by view.now.outputs (Some (R.cells row.now))) ∷ []) }
    ensures columns { OnOk result (columns_in kept.new ≡ columns_in kept.old) }
    ensures kept { OnOk result (MaterializedFollows view.now kept.old kept.new
        (turned_by turn number (projected_by view.now.outputs (Some (R.cells row.now))) ∷ [])) }
{
    match (&view.outputs, kept) {
        (_, Materialized::Live) => return Ok(()),
        (Outputs::Columns(outputs), Materialized::Order(order)) => {
            turn_order(order, outputs, turn, number, row)?;
            return Ok(());
        }
        (Outputs::Groups { .. }, Materialized::Groups(groups)) => {
            turn_groups(groups, turn, number, row)?;
            return Ok(());
        }
        _ => unreachable!(),
    }
}

/// Updates what a view stores for a row of the main table that is inserted or deleted, joined; `None` changes nothing:
/// the view leaves the row out. After an error what is stored is meaningless.
pub(crate) fn turn_joined<R: RowView>(
    view: &View,
    kept: &mut Materialized,
    turn: Turn,
    number: usize,
    joined: &Option<R>,
) -> Result<(), AllocError>
    requires { CanTurn (IsMaterialized view.now kept.old) (turned_by turn number
        (projected_by view.now.outputs (option_map R.cells joined.now)) ∷ []) }
    ensures columns { OnOk result (columns_in kept.new ≡ columns_in kept.old) }
    ensures kept { OnOk result (MaterializedFollows view.now kept.old kept.new
        (turned_by turn number (projected_by view.now.outputs (option_map R.cells joined.now)) ∷ [])) }
{
    let Some(row) = joined else {
        return Ok(());
    };
    turn_row(view, kept, turn, number, row)
}

/// Updates referrers for the cell by which a row refers.
pub(crate) fn turn_referrer(
    referrers: &mut Referrers,
    turn: Turn,
    number: usize,
    cell: CellView<'_>,
) -> Result<(), AllocError>
    ensures { OnOk result ((d : Datum) → viewed cell.entry ≡ shallow d
        → Follows (KeepsReferrers referrers.old) (KeepsReferrers referrers.new)
        (turned_by turn number (Some (d ∷ [])) ∷ [])) }
{
    match turn {
        Turn::Come => {
            referrers.come(number, cell)?;
            return Ok(());
        }
        Turn::Go => {
            referrers.go(number, cell)?;
            return Ok(());
        }
    }
}

/// Updates referrers for a row of the main table that is inserted or deleted. Nothing refers where no table is looked
/// up.
fn turn_referring(
    referrers: &mut Referrers,
    lookup: Option<Lookup>,
    turn: Turn,
    number: usize,
    row: &StoredRow<'_>,
) -> Result<(), AllocError>
    ensures { OnOk result (Follows (KeepsReferrers referrers.old) (KeepsReferrers referrers.new)
        (turned_by turn number (referring_by lookup row.now) ∷ [])) }
{
    let Some(lookup) = lookup else {
        return Ok(());
    };
    turn_referrer(referrers, turn, number, row.cell(lookup.on))
}

/// Updates sub-groups for a row of the main table that is inserted or deleted.
fn turn_sub_row(
    sub_groups: &mut SubGroups,
    view: &View,
    turn: Turn,
    number: usize,
    row: &StoredRow<'_>,
) -> Result<(), AllocError>
    requires { CanTurn (KeepsSubGroups sub_groups.old) (turned_by turn number (sub_row_of view.now row.now) ∷ []) }
    ensures kept { OnOk result (Follows (KeepsSubGroups sub_groups.old) (KeepsSubGroups sub_groups.new)
        (turned_by turn number (sub_row_of view.now row.now) ∷ [])) }
    ensures same { OnOk result (IsSame sub_groups.old sub_groups.new) }
{
    match turn {
        Turn::Come => {
            sub_groups.come(view, row.len(), row)?;
            return Ok(());
        }
        Turn::Go => {
            sub_groups.go(view, row.len(), row)?;
            return Ok(());
        }
    }
}

/// Updates links for a row of the main table that is inserted or deleted. After an error they are meaningless.
pub(crate) fn turn_link(
    links: &mut Links,
    view: &View,
    turn: Turn,
    number: usize,
    row: &StoredRow<'_>,
) -> Result<(), AllocError>
    requires { CanTurn (KeepsLinks links.old) (turned_by turn number (link_row links.old view.now row.now) ∷ []) }
    ensures kept { OnOk result (LinksFollow links.old links.new
        (turned_by turn number (link_row links.old view.now row.now) ∷ [])) }
    ensures form { OnOk result (form_of links.new ≡ form_of links.old) }
{
    match links {
        Links::Rows(referrers) => {
            turn_referring(referrers, view.lookup, turn, number, row)?;
            return Ok(());
        }
        Links::SubGroups(sub_groups) => {
            turn_sub_row(sub_groups, view, turn, number, row)?;
            return Ok(());
        }
    }
}
