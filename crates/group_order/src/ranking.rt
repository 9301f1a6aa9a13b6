//! Which rows are shown of groups, and in which order.

ghost use Rattle.std.specs.Prelude.{◌≡◌, IfOk};
ghost use Rattle.group_order.specs.Ranked.{has_entries, ranking_by};

use group_state::{GroupReader, GroupRow};
use std::alloc::{AllocError, Global};
use std::marker::Model;
use top_rows::SortKeyList;
use view_lang::{Filter, GroupOutput, OrderBy, passes};

/// What is shown of groups, of which of them, and in which order: the outputs, the order and `having` of a view.
#[derive(Debug, Drop)]
pub struct Ranking {
    outputs: Vec<GroupOutput>,
    having: Option<Filter>,
    order: Vec<OrderBy>,
}

impl Model for Ranking {
    ghost use Rattle.group_order.specs.Ranked as seen;

    ghost Value = { seen.Ranking };

    ghost use Rattle.std.specs.Coded.{codes};
    ghost use Rattle.view_lang.specs.Filter.{filter_code};

    ghost coded = { Prim.hlevel (codes, filter_code) };

    ghost view = { λ r. record { outputs = r.outputs.items; having = r.having; order = r.order.items } };
}

impl Ranking {
    /// A copy of these parts of a view.
    pub fn of(
        alloc: Global,
        outputs: &[GroupOutput],
        having: &Option<Filter>,
        order: &[OrderBy],
    ) -> Result<Ranking, AllocError>
        ensures { IfOk result (λ r. r ≡ ranking_by outputs.now having.now order.now) }
    {
        Ok(Ranking {
            outputs: copy_outputs(alloc, outputs)?,
            having: copy_filter(alloc, having)?,
            order: Vec::from_slice(alloc, order)?,
        })
    }

    pub(crate) fn outputs(&self) -> &[GroupOutput]
        ensures { result.now ≡ self.now.outputs }
    {
        &self.outputs
    }

    pub(crate) fn having(&self) -> &Option<Filter>
        ensures { result.now ≡ self.now.having }
    {
        &self.having
    }

    /// Whether there are entries: else all groups are shown, in their own order.
    pub(crate) fn has_entries(&self) -> bool
        ensures { result ≡ has_entries self.now }
    {
        self.having.is_some() || self.order.len() > 0
    }
}

/// It reads the sort keys of the rows that are shown, where there are entries.
impl GroupReader for Ranking {
    ghost use Rattle.group_order.specs.Ranked.{keys_read};

    type Read = SortKeyList;

    ghost reads = { keys_read };

    fn read(&self, alloc: Global, row: &GroupRow<'_>) -> Result<Option<SortKeyList>, AllocError> {
        if self.has_entries() && passes(&self.having, row) {
            Ok(Some(SortKeyList::of(alloc, &self.order, row)?))
        } else {
            Ok(None)
        }
    }
}

/// Equal outputs with memory of their own.
fn copy_outputs(alloc: Global, outputs: &[GroupOutput]) -> Result<Vec<GroupOutput>, AllocError>
    ensures { IfOk result (λ copied. copied.items ≡ outputs.now) }
{
    let mut copied = Vec::with_capacity(alloc, outputs.len())?;
    for output in outputs {
        copied.push(GroupOutput {
            name: String::from_str(alloc, &output.name)?,
            aggregate: output.aggregate,
        })?;
    }
    Ok(copied)
}

/// An equal filter, if there is one, with memory of its own.
fn copy_filter(alloc: Global, filter: &Option<Filter>) -> Result<Option<Filter>, AllocError>
    ensures { IfOk result (λ copied. copied ≡ filter.now) }
{
    match filter {
        Some(filter) => Ok(Some(filter.copy(alloc)?)),
        None => Ok(None),
    }
}
