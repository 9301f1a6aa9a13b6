//! The truths of a filter on all rows of some columns.

ghost use Rattle.std.specs.Prelude.{◌≡◌, All, length, IfOk};
ghost use Rattle.view_lang.specs.Filter.{parts_of};
ghost use Rattle.column_truths.specs.Compared.{all_alike, columns_compared, compared_with, nulls_in};
ghost use Rattle.column_truths.specs.RowTruths.{AreWithin, IsWithin, truths_in, truths_of_all, truths_of_any};

use crate::by_cell::compare_cells;
use crate::by_code::compare_codes;
use crate::by_lanes::compare_numbers;
use crate::compared::{compared, push_truth};
use arrays::Column;
use bitmaps::{Bitmap, Truths};
use std::alloc::{AllocError, Global};
use values::{Kind, Layout, Value};
use view_lang::{Comparison, Filter, Operand, Test};

/// The truth of a comparison of each cell of a column with a constant: by code where the column has a dictionary, and
/// by lanes where its cells are whole numbers.
pub fn compare(
    alloc: Global,
    column: &Column,
    comparison: Comparison,
    constant: &Value,
) -> Result<Truths, AllocError>
    ensures { IfOk result (λ ts. ts ≡ compared_with comparison constant.now column.now.cells) }
{
    let parts = column.parts();
    match (&parts.own.dictionary, parts.own.layout, &constant.kind) {
        (Some(dictionary), Layout::Int { width, signed }, _) => compare_codes(
            alloc,
            parts.body,
            parts.own,
            parts.children,
            dictionary,
            width,
            signed,
            comparison,
            constant,
        ),
        (None, Layout::Int { width, signed }, Kind::Int(number)) => compare_numbers(
            alloc,
            parts.body,
            parts.own,
            parts.children,
            width,
            signed,
            comparison,
            *number,
        ),
        _ => compare_cells(alloc, column, comparison, constant),
    }
}

/// The truth of a comparison of the cells of two columns, row by row.
fn compare_columns(
    alloc: Global,
    first: &Column,
    second: &Column,
    comparison: Comparison,
) -> Result<Truths, AllocError>
    requires { length second.now.cells ≡ length first.now.cells }
    ensures { IfOk result (λ ts. ts ≡ columns_compared comparison first.now.cells second.now.cells) }
{
    let mut known = Bitmap::with_capacity(alloc, first.len())?;
    let mut unknown = Bitmap::with_capacity(alloc, first.len())?;
    for i in 0..first.len() {
        let a = first.cell(alloc, i)?;
        let b = second.cell(alloc, i)?;
        push_truth(&mut known, &mut unknown, compared(comparison, &a, &b))?;
    }
    let truths = Truths::new(alloc, &known.bits(), unknown)?;
    Ok(truths)
}

/// Whether each cell is null. No cell is copied.
fn nulls(alloc: Global, column: &Column) -> Result<Truths, AllocError>
    ensures { IfOk result (λ ts. ts ≡ nulls_in column.now.cells) }
{
    let mut known = Bitmap::with_capacity(alloc, column.len())?;
    let mut unknown = Bitmap::with_capacity(alloc, column.len())?;
    for i in 0..column.len() {
        push_truth(&mut known, &mut unknown, Some(column.is_null(i)))?;
    }
    let truths = Truths::new(alloc, &known.bits(), unknown)?;
    Ok(truths)
}

/// The same truth `len` times.
fn repeated(alloc: Global, truth: bool, len: usize) -> Result<Truths, AllocError>
    ensures { IfOk result (λ ts. ts ≡ all_alike truth len) }
{
    let mut known = Bitmap::with_capacity(alloc, len)?;
    let mut unknown = Bitmap::with_capacity(alloc, len)?;
    for i in 0..len {
        push_truth(&mut known, &mut unknown, Some(truth))?;
        let _ = i;
    }
    let truths = Truths::new(alloc, &known.bits(), unknown)?;
    Ok(truths)
}

/// The truth of a filter on each of the `rows` rows of some columns, which include all columns that it names.
#[cycle(truths)]
#[tactic(auto, using(crate::proofs::RowLemmas::row_laws, view_lang::proofs::Truths::part_smaller))]
pub fn truths(
    filter: &Filter,
    alloc: Global,
    columns: &[Column],
    rows: usize,
) -> Result<Truths, AllocError>
    requires within { IsWithin (length columns.now) filter.now }
    requires long { All (λ c. length c.cells ≡ rows) columns.now }
    ensures { IfOk result (λ ts. ts ≡ truths_in rows columns.now filter.now) }
{
    match &filter.test {
        Test::Compare {
            comparison,
            column,
            with,
        } => match with {
            Operand::Constant(value) => compare(alloc, &columns[*column], *comparison, value),
            Operand::Column(other) => compare_columns(
                alloc,
                &columns[*column],
                &columns[*other],
                *comparison,
            ),
        },
        Test::IsNull(column) => nulls(alloc, &columns[*column]),
        Test::Not(part) => truths(part, alloc, columns, rows)?.not(alloc),
        Test::And(parts) => truths_of_all(parts, alloc, columns, rows),
        Test::Or(parts) => truths_of_any(parts, alloc, columns, rows),
    }
}

/// Whether all of the filters are true, on each row.
#[cycle(truths)]
#[tactic(auto, using(crate::proofs::RowLemmas::part_laws, view_lang::proofs::Truths::part_smaller))]
fn truths_of_all(
    parts: &[Filter],
    alloc: Global,
    columns: &[Column],
    rows: usize,
) -> Result<Truths, AllocError>
    requires within { AreWithin (length columns.now) (parts_of parts.now) }
    requires long { All (λ c. length c.cells ≡ rows) columns.now }
    ensures { IfOk result (λ ts. ts ≡ truths_of_all rows columns.now (parts_of parts.now)) }
{
    let mut known = repeated(alloc, true, rows)?;
    for part in parts {
        let more = truths(part, alloc, columns, rows)?;
        known = known.and(alloc, &more)?;
    }
    Ok(known)
}

/// Whether one of the filters is true, on each row.
#[cycle(truths)]
#[tactic(auto, using(crate::proofs::RowLemmas::part_laws, view_lang::proofs::Truths::part_smaller))]
fn truths_of_any(
    parts: &[Filter],
    alloc: Global,
    columns: &[Column],
    rows: usize,
) -> Result<Truths, AllocError>
    requires within { AreWithin (length columns.now) (parts_of parts.now) }
    requires long { All (λ c. length c.cells ≡ rows) columns.now }
    ensures { IfOk result (λ ts. ts ≡ truths_of_any rows columns.now (parts_of parts.now)) }
{
    let mut known = repeated(alloc, false, rows)?;
    for part in parts {
        let more = truths(part, alloc, columns, rows)?;
        known = known.or(alloc, &more)?;
    }
    Ok(known)
}
