//! States of views: what is stored for each.

ghost use Rattle.std.specs.Prelude.{◌≡◌, [], false, IfOk, IfSome, List, None, true};
ghost use Rattle.view_lang.specs.OutputsSeen.{outputs_of};
ghost use Rattle.view_lang.specs.Config.{Table};
ghost use Rattle.sub_groups.specs.Moved.{KeepRead};
ghost use Rattle.upkeep.specs.ViewStates.{
  AreLinks,
  IsMaterialized,
  KeepsLinks,
  ShowsEach,
  columns_in,
  is_plain,
  leaves_none,
  width_in,
};
ghost use Rattle.upkeep.specs.declared.view_state.Materialized.TheVariants as materialized_is;

use group_order::{RankedGroups, Ranking};
use lookups::Referrers;
use std::alloc::{AllocError, Global};
use sub_groups::SubGroups;
use top_rows::Ordered;
use view_lang::{Lookup, Missing, Outputs, View};

/// What is stored for the projected rows of a view: their order, or their groups and the order of the groups' rows.
#[derive(Debug, Drop)]
pub(crate) enum Materialized {
    /// Nothing, for a plain view that shows each row in the order of row numbers: the numbers of the live rows are its
    /// order.
    Live,
    /// The entries of the rows of a plain view in its order.
    Order(Ordered),
    /// The groups of the rows, and the entries of the groups' rows in the view's order.
    Groups(RankedGroups),
}

/// Whether rows are inserted or deleted.
#[derive(Clone, Copy, Debug, PartialEq, Eq)]
pub(crate) enum Turn {
    Come,
    Go,
}

/// The state of a view: what is stored for it, and whether it is stale. What is stored for a stale view is meaningless;
/// it is built anew before the view is read.
#[derive(Debug, Drop)]
pub(crate) struct ViewState {
    pub stale: bool,
    pub kept: Materialized,
    pub links: Links,
}

/// What is stored for the rows of the main table by the key that they look up.
#[derive(Debug, Drop)]
pub(crate) enum Links {
    /// Their numbers; none where the view looks up no table.
    Rows(Referrers),
    /// Groups of them that move together where rows of the side table change.
    SubGroups(SubGroups),
}

fn is_plain(outputs: &Outputs) -> bool
    ensures { result ≡ is_plain (outputs_of outputs.now) }
{
    match outputs {
        Outputs::Columns(_) => true,
        Outputs::Groups { .. } => false,
    }
}

/// Whether no row is left out for want of a row of a side table.
fn leaves_none(lookup: Option<Lookup>) -> bool
    ensures { result ≡ leaves_none lookup }
{
    match lookup {
        Some(lookup) => match lookup.missing {
            Missing::Null => true,
            Missing::Drop => false,
        },
        None => true,
    }
}

/// Whether a view shows each row of the main table in the order of row numbers: a plain one that has no order and no
/// filter, and leaves no row out.
fn shows_each(view: &View) -> bool
    ensures { result ≡ true → ShowsEach view.now }
{
    is_plain(&view.outputs)
        && view.order.is_empty()
        && view.filter.is_none()
        && leaves_none(view.lookup)
}

/// What is stored for a view without rows.
fn materialized_of_none(alloc: Global, view: &View) -> Result<Materialized, AllocError>
    ensures kept { IfOk result (λ kept. IsMaterialized view.now kept []) }
    ensures read { IfOk result (λ kept. IfSome (columns_in kept) (KeepRead view.now.outputs)) }
{
    if shows_each(view) {
        return Ok(Materialized::Live);
    }
    match &view.outputs {
        Outputs::Columns(_) => Ok(Materialized::Order(Ordered::new(alloc, &view.order)?)),
        Outputs::Groups {
            by,
            columns,
            having,
        } => {
            let ranking = Ranking::of(alloc, columns, having, &view.order)?;
            Ok(Materialized::Groups(RankedGroups::new(alloc, by, ranking)?))
        }
    }
}

/// Whether nothing is stored for a view's rows and links: rows are inserted and deleted without it.
pub(crate) fn materializes_nothing(view: &View, state: &ViewState) -> bool
    ensures { result ≡ true → (state.now.kept ≡ materialized_is.Live) × (view.now.lookup ≡ None) }
{
    match (&state.kept, view.lookup) {
        (Materialized::Live, None) => true,
        _ => false,
    }
}

/// The links of no rows, for a view whose materialized rows these are. The main table has `width` columns.
fn links_of_none(
    alloc: Global,
    view: &View,
    width: usize,
    kept: &Materialized,
) -> Result<Links, AllocError>
    requires kept { IsMaterialized view.now kept.now [] }
    requires read { IfSome (columns_in kept.now) (KeepRead view.now.outputs) }
    ensures right { IfOk result (λ links. (tables : List Table) → width ≡ width_in tables
        → AreLinks tables view.now kept.now links) }
    ensures kept { IfOk result (λ links. KeepsLinks links []) }
{
    let Materialized::Groups(groups) = kept else {
        return Ok(Links::Rows(Referrers::new(alloc)));
    };
    match SubGroups::of(alloc, view, width, groups.columns())? {
        Some(sub_groups) => Ok(Links::SubGroups(sub_groups)),
        None => Ok(Links::Rows(Referrers::new(alloc))),
    }
}

impl ViewState {
    /// The state of a view without rows. The main table has `width` columns.
    pub(crate) fn new(alloc: Global, view: &View, width: usize) -> Result<ViewState, AllocError>
        ensures fresh { IfOk result (λ s. s.stale ≡ false) }
        ensures kept { IfOk result (λ s. IsMaterialized view.now s.kept []) }
        ensures right { IfOk result (λ s. (tables : List Table) → width ≡ width_in tables
            → AreLinks tables view.now s.kept s.links) }
        ensures links { IfOk result (λ s. KeepsLinks s.links []) }
    {
        let kept = materialized_of_none(alloc, view)?;
        let links = links_of_none(alloc, view, width, &kept)?;
        Ok(ViewState {
            stale: false,
            kept,
            links,
        })
    }
}
