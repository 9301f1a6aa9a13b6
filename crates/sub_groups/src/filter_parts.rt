//! The parts of a filter that a row of the main table decides alone, and the others.

ghost use Rattle.std.specs.Prelude.{◌≡◌};
ghost use Rattle.std.specs.List.{list_any};
ghost use Rattle.sub_groups.specs.FilterParts.{are_decided, conjuncts, fails, is_decided};
ghost use Rattle.sub_groups.specs.FilterParts.{passes_main as passes_main_by, passes_others as passes_others_by};

use crate::columns::{Columns, names_only};
use view_lang::{Filter, RowView, Test};

/// Parts of a filter.
#[derive(Clone, Copy)]
enum Parts {
    /// Those that name columns of the main table alone.
    Main,
    Others,
}

/// Whether a row fails a part of a filter, if that is one of these parts.
fn fails<R: RowView>(part: &Filter, width: usize, parts: Parts, row: &R) -> bool
    ensures { result ≡ fails parts width (R.cells row.now) part.now }
{
    let is_main = names_only(part, Columns::Main { width });
    match parts {
        Parts::Main => is_main && !part.truth(row).unwrap_or(false),
        Parts::Others => !is_main && !part.truth(row).unwrap_or(false),
    }
}

fn fails_one<R: RowView>(filters: &[Filter], width: usize, parts: Parts, row: &R) -> bool
    ensures { result ≡ list_any (fails parts width (R.cells row.now)) filters.now }
{
    for filter in filters {
        if fails(filter, width, parts, row) {
            return true;
        }
    }
    false
}

/// Whether a row fails one of the conjuncts of a filter, if that is one of these parts.
#[tactic(auto, using(crate::proofs::Conjuncts::conjunct_laws))]
fn fails_part<R: RowView>(filter: &Option<Filter>, width: usize, parts: Parts, row: &R) -> bool
    ensures { result ≡ list_any (fails parts width (R.cells row.now)) (conjuncts filter.now) }
{
    let Some(filter) = filter else {
        return false;
    };
    match &filter.test {
        Test::And(all) => fails_one(all, width, parts, row),
        _ => fails(filter, width, parts, row),
    }
}

/// Whether a row passes those parts of a filter that name columns of the main table alone, which has `width` columns.
pub(crate) fn passes_main<R: RowView>(filter: &Option<Filter>, width: usize, row: &R) -> bool
    ensures { result ≡ passes_main_by width filter.now (R.cells row.now) }
{
    !fails_part(filter, width, Parts::Main, row)
}

/// Whether a joined row passes those parts of a filter that name other columns than those of the main table, which has
/// `width` columns.
pub fn passes_others<R: RowView>(filter: &Option<Filter>, width: usize, row: &R) -> bool
    ensures { result ≡ passes_others_by width filter.now (R.cells row.now) }
{
    !fails_part(filter, width, Parts::Others, row)
}

/// Whether a part of a filter names columns of the main table alone, or known columns alone.
fn is_decided(part: &Filter, width: usize, keys: &[usize]) -> bool
    ensures { result ≡ is_decided width keys.now part.now }
{
    names_only(part, Columns::Main { width }) || names_only(part, Columns::Known { width, keys })
}

fn are_decided(parts: &[Filter], width: usize, keys: &[usize]) -> bool
    ensures { result ≡ are_decided width keys.now parts.now }
{
    for part in parts {
        if !is_decided(part, width, keys) {
            return false;
        }
    }
    true
}

/// Whether each conjunct of a filter names columns of the main table alone, or known columns alone.
#[tactic(auto, using(crate::proofs::Conjuncts::conjunct_laws))]
pub(crate) fn is_filter_decided(filter: &Option<Filter>, width: usize, keys: &[usize]) -> bool
    ensures { result ≡ are_decided width keys.now (conjuncts filter.now) }
{
    let Some(filter) = filter else {
        return true;
    };
    match &filter.test {
        Test::And(all) => are_decided(all, width, keys),
        _ => is_decided(filter, width, keys),
    }
}
