//! Takes the states of views apart, and makes them again of their parts.

ghost use Rattle.std.specs.Prelude.{◌≡◌, All, IfOk, map};
ghost use Rattle.upkeep.specs.ViewParts.{AreLinksParts, AreMaterializedParts, IsState, kept_with, links_with, state_with};

use crate::parts::{LinksParts, MaterializedParts, ViewParts};
use crate::view_state::{Links, Materialized, ViewState};
use group_order::RankedGroups;
use lookups::Referrers;
use std::alloc::{AllocError, Global};
use sub_groups::SubGroups;
use top_rows::Ordered;

impl Materialized {
    /// Takes it apart. If memory is refused, it is lost.
    fn into_parts(self) -> Result<MaterializedParts, AllocError>
        ensures value { IfOk result (λ parts. kept_with parts ≡ self) }
        ensures kept { IfOk result (λ parts. AreMaterializedParts parts) }
    {
        match self {
            Materialized::Live => Ok(MaterializedParts::Live),
            Materialized::Order(order) => Ok(MaterializedParts::Order(order.into_parts()?)),
            Materialized::Groups(groups) => Ok(MaterializedParts::Groups(groups.into_parts()?)),
        }
    }

    /// Makes the value that has these parts.
    fn from_parts(alloc: Global, parts: MaterializedParts) -> Result<Materialized, AllocError>
        requires { AreMaterializedParts parts }
        ensures { IfOk result (λ kept. kept ≡ kept_with parts) }
    {
        match parts {
            MaterializedParts::Live => Ok(Materialized::Live),
            MaterializedParts::Order(order) => Ok(Materialized::Order(Ordered::from_parts(
                alloc, order,
            )?)),
            MaterializedParts::Groups(groups) => Ok(Materialized::Groups(RankedGroups::from_parts(
                alloc, groups,
            )?)),
        }
    }
}

impl Links {
    /// Takes them apart. If memory is refused, they are lost.
    fn into_parts(self) -> Result<LinksParts, AllocError>
        ensures value { IfOk result (λ parts. links_with parts ≡ self) }
        ensures kept { IfOk result (λ parts. AreLinksParts parts) }
    {
        match self {
            Links::Rows(referrers) => Ok(LinksParts::Rows(referrers.into_parts()?)),
            Links::SubGroups(groups) => Ok(LinksParts::SubGroups(groups.into_parts()?)),
        }
    }

    /// Makes the links that have these parts.
    fn from_parts(alloc: Global, parts: LinksParts) -> Result<Links, AllocError>
        requires { AreLinksParts parts }
        ensures { IfOk result (λ links. links ≡ links_with parts) }
    {
        match parts {
            LinksParts::Rows(referrers) => Ok(Links::Rows(Referrers::from_parts(
                alloc, referrers,
            )?)),
            LinksParts::SubGroups(groups) => {
                Ok(Links::SubGroups(SubGroups::from_parts(alloc, groups)?))
            }
        }
    }
}

impl ViewState {
    /// Takes the state apart. If memory is refused, it is lost.
    pub(crate) fn into_parts(self) -> Result<ViewParts, AllocError>
        ensures value { IfOk result (λ parts. state_with parts ≡ self) }
        ensures kept { IfOk result (λ parts. IsState parts) }
    {
        let ViewState { stale, kept, links } = self;
        let kept = kept.into_parts()?;
        let links = links.into_parts()?;
        Ok(ViewParts { stale, kept, links })
    }

    /// Makes the state that has these parts.
    pub(crate) fn from_parts(alloc: Global, parts: ViewParts) -> Result<ViewState, AllocError>
        requires { IsState parts }
        ensures { IfOk result (λ state. state ≡ state_with parts) }
    {
        let ViewParts { stale, kept, links } = parts;
        let kept = Materialized::from_parts(alloc, kept)?;
        let links = Links::from_parts(alloc, links)?;
        Ok(ViewState { stale, kept, links })
    }
}

/// Takes states apart, one by one.
pub(crate) fn take_states(
    alloc: Global,
    states: Vec<ViewState>,
) -> Result<Vec<ViewParts>, AllocError>
    ensures value { IfOk result (λ taken. map state_with taken.items ≡ states.items) }
    ensures kept { IfOk result (λ taken. All IsState taken.items) }
{
    let mut taken = Vec::with_capacity(alloc, states.len())?;
    for state in states {
        taken.push(state.into_parts()?)?;
    }
    Ok(taken)
}

/// Makes the states that have these parts.
pub(crate) fn make_states(
    alloc: Global,
    parts: Vec<ViewParts>,
) -> Result<Vec<ViewState>, AllocError>
    requires { All IsState parts.items }
    ensures { IfOk result (λ states. states.items ≡ map state_with parts.items) }
{
    let mut states = Vec::with_capacity(alloc, parts.len())?;
    for state in parts {
        states.push(ViewState::from_parts(alloc, state)?)?;
    }
    Ok(states)
}
