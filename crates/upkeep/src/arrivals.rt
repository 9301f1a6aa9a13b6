//! What the columns of a batch say about its rows before they are stored: which rows a view drops is known without
//! opening them.

ghost use Rattle.std.specs.Prelude.{◌≡◌, ◌<◌, All, IfOk, get_or, length, not, None, option_copied, slice_get};
ghost use Rattle.std.specs.Option.{IfSome};
ghost use Rattle.view_lang.specs.Truth.{is_true};
ghost use Rattle.row_keys.specs.Batches.{batch_rows};
ghost use Rattle.upkeep.specs.Arrivals.{AreReferring, Describes, EachDescribes};

use crate::view_state::ViewState;
use arrays::Column;
use bitmaps::Truths;
use column_truths::{first_cells_law, is_within, truths};
use std::alloc::{AllocError, Global};
use values::Value;
use view_lang::{Lookup, View};

/// What is known of the rows of a batch for a view whose filter names columns of the main table alone.
#[derive(Drop)]
pub(crate) struct Arrival {
    /// The truth of the filter on each row.
    truths: Truths,
    /// The looked-up cell of each row; none where the view looks up no table.
    looked_up: Vec<Value>,
}

impl Arrival {
    /// Whether the filter isn't true of a row.
    pub(crate) fn drops(&self, index: usize) -> bool
        requires { index < length self.now.truths }
        ensures { result ≡ not (is_true (get_or self.now.truths index None)) }
    {
        !self.truths.at(index).unwrap_or(false)
    }

    /// The looked-up cell of a row; `None` where the view looks up no table.
    pub(crate) fn looked_up(&self, index: usize) -> Option<&Value>
        ensures { option_copied result ≡ slice_get self.now.looked_up.items index }
    {
        self.looked_up.get(index)
    }
}

/// The cells of a column.
fn cells_of(alloc: Global, column: &Column) -> Result<Vec<Value>, AllocError>
    ensures { IfOk result (λ cells. cells.items ≡ column.now.cells) }
{
    let mut cells = Vec::with_capacity(alloc, column.len())?;
    for i in 0..column.len() {
        let cell = column.cell(alloc, i)?;
        cells.push(cell)?;
    }
    Ok(cells)
}

/// The looked-up cells of a batch; `None` where it lacks their column.
#[tactic(auto, using(crate::proofs::ArrivalRows::batch_laws))]
fn looked_up_cells(
    alloc: Global,
    lookup: Option<Lookup>,
    columns: &[Column],
    rows: usize,
) -> Result<Option<Vec<Value>>, AllocError>
    requires { All (λ c. length c.cells ≡ rows) columns.now }
    ensures { IfOk result (λ found.
        IfSome found (λ cells. AreReferring lookup (batch_rows rows columns.now) cells.items)) }
{
    let Some(lookup) = lookup else {
        return Ok(Some(Vec::new(alloc)));
    };
    if lookup.on >= columns.len() {
        return Ok(None);
    }
    let cells = cells_of(alloc, &columns[lookup.on])?;
    Ok(Some(cells))
}

/// What the columns of a batch say about its rows for a view; `None` where the view is stale, or has no filter, or one
/// that names columns of a side table.
#[tactic(auto, using(crate::proofs::ArrivalRows::batch_laws))]
fn arrival_for(
    alloc: Global,
    view: &View,
    state: &ViewState,
    columns: &[Column],
    rows: usize,
) -> Result<Option<Arrival>, AllocError>
    requires { All (λ c. length c.cells ≡ rows) columns.now }
    ensures { IfOk result (λ arrival. Describes view.now (batch_rows rows columns.now) arrival) }
{
    first_cells_law();
    if state.stale {
        return Ok(None);
    }
    let Some(filter) = &view.filter else {
        return Ok(None);
    };
    if !is_within(filter, columns.len()) {
        return Ok(None);
    }
    let Some(looked_up) = looked_up_cells(alloc, view.lookup, columns, rows)? else {
        return Ok(None);
    };
    let truths = truths(filter, alloc, columns, rows)?;
    Ok(Some(Arrival { truths, looked_up }))
}

/// Whether one of these views has a filter.
fn have_filter(views: &[View]) -> bool {
    for view in views {
        if view.filter.is_some() {
            return true;
        }
    }
    false
}

/// What the columns of a batch say about its rows for each view; nothing where no view has a filter.
pub(crate) fn arrivals_for(
    alloc: Global,
    views: &[View],
    states: &[ViewState],
    columns: &[Column],
    rows: usize,
) -> Result<Vec<Option<Arrival>>, AllocError>
    requires alike { length states.now ≡ length views.now }
    requires long { All (λ c. length c.cells ≡ rows) columns.now }
    ensures { IfOk result (λ arrivals. EachDescribes views.now (batch_rows rows columns.now) arrivals.items) }
{
    if !have_filter(views) {
        return Ok(Vec::new(alloc));
    }
    let mut arrivals = Vec::with_capacity(alloc, views.len())?;
    for place in 0..views.len() {
        let arrival = arrival_for(alloc, &views[place], &states[place], columns, rows)?;
        arrivals.push(arrival)?;
    }
    Ok(arrivals)
}

/// What is known for the view at an index; `unknown`, which is `None`, where nothing is.
pub(crate) fn arrival_at<'a>(
    arrivals: &'a [Option<Arrival>],
    place: usize,
    unknown: &'a Option<Arrival>,
) -> &'a Option<Arrival>
    requires { unknown.now ≡ None }
    ensures { result.now ≡ get_or arrivals.now place None }
{
    match arrivals.get(place) {
        Some(arrival) => arrival,
        None => unknown,
    }
}
