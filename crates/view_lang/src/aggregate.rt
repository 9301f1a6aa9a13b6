//! What is shown of a group of rows.

ghost use Rattle.std.specs.Prelude.{◌≡◌, ◌++◌, ◌<◌, All, IfOk, length};
ghost use Rattle.view_lang.specs.Aggregates.{IsAggregate, aggregate_field, count_type, sum_type};

use crate::schemas::{copy_as, joined_field, simple_field};
use std::alloc::{AllocError, Global};
use values::limits::MAX_PRECISION;
use values::{ColType, IntWidth, LogicalField};

/// What is shown of a group.
#[derive(Clone, Copy, Debug, PartialEq, Eq)]
pub enum Aggregate {
    /// The grouping column at this index of `by`.
    Key(usize),
    /// How many rows the group has.
    Count,
    /// In how many of the group's rows this column isn't null.
    CountOf(usize),
    /// How many distinct values this column has in the group's rows, nulls left out.
    Distinct(usize),
    /// The sum of this column's values that aren't null; null where there is none.
    Sum(usize),
    /// The least of this column's values that aren't null; null where there is none.
    Least(usize),
    /// The greatest of this column's values that aren't null; null where there is none.
    Greatest(usize),
}

fn count_type() -> ColType
    ensures { result ≡ count_type }
{
    ColType::Int {
        width: IntWidth::Bits64,
        signed: true,
    }
}

fn sum_type(added: &ColType) -> ColType
    ensures { result ≡ sum_type added.now }
{
    let scale = match added {
        ColType::Decimal { scale, .. } => *scale,
        _ => 0,
    };
    ColType::Decimal {
        precision: MAX_PRECISION,
        scale,
    }
}

/// The column of this name that shows an aggregate of joined rows, whose columns are `main` and `side`, grouped by
/// `by`.
pub(crate) fn aggregate_field(
    alloc: Global,
    main: &[LogicalField],
    side: &[LogicalField],
    by: &[usize],
    name: &str,
    aggregate: Aggregate,
) -> Result<LogicalField, AllocError>
    requires by { All (λ k. k < length (main.now ++ side.now)) by.now }
    requires shown { IsAggregate (main.now ++ side.now) by.now aggregate }
    ensures { IfOk result (λ field. field ≡ aggregate_field (main.now ++ side.now) by.now name.now aggregate) }
{
    match aggregate {
        Aggregate::Key(place) => copy_as(alloc, name, joined_field(main, side, by[place])),
        Aggregate::Count | Aggregate::CountOf(_) | Aggregate::Distinct(_) => {
            simple_field(alloc, name, count_type())
        }
        Aggregate::Sum(column) => {
            let added = &joined_field(main, side, column).col_type;
            simple_field(alloc, name, sum_type(added))
        }
        Aggregate::Least(column) | Aggregate::Greatest(column) => {
            copy_as(alloc, name, joined_field(main, side, column))
        }
    }
}
