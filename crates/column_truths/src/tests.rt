//! Columns whose cells are compared in bulk, with nulls among them.

ghost use Rattle.std.specs.Prelude.{true, All, IfOk};
ghost use Rattle.values.specs.Layouts.{Holds};
ghost use Rattle.values.specs.Rose.{node, none};
ghost use Rattle.values.specs.declared.layout.IntWidth.TheVariants as int;
ghost use Rattle.values.specs.declared.layout.Layout.TheVariants.{Int};
ghost use Rattle.column_truths.specs.RowTruths.{IsWithin};

use crate::{compare, is_within, truths};
use array_layout::{Array, ArrayData, BufferRange, DictionaryValues};
use arrays::Column;
use dictionaries::{Dictionary, Dicts, ValueRuns};
use std::alloc::{AllocError, Global};
use std::rc::Rc;
use std::test::Fail;
use values::{IntWidth, Kind, Layout, Value};
use view_lang::{Comparison, Filter, Operand, Test};

const BYTES: Layout = Layout::Int {
    width: IntWidth::Bits8,
    signed: true,
};

/// The validity of 70 slots, of which each ninth from the first on is null, and their values, from -35 to 34.
const AMOUNTS: [u8; 79] = [
    0xFE, 0xFD, 0xFB, 0xF7, 0xEF, 0xDF, 0xBF, 0x7F, 0x3F, 0xDD, 0xDE, 0xDF, 0xE0, 0xE1, 0xE2, 0xE3,
    0xE4, 0xE5, 0xE6, 0xE7, 0xE8, 0xE9, 0xEA, 0xEB, 0xEC, 0xED, 0xEE, 0xEF, 0xF0, 0xF1, 0xF2, 0xF3,
    0xF4, 0xF5, 0xF6, 0xF7, 0xF8, 0xF9, 0xFA, 0xFB, 0xFC, 0xFD, 0xFE, 0xFF, 0x00, 0x01, 0x02, 0x03,
    0x04, 0x05, 0x06, 0x07, 0x08, 0x09, 0x0A, 0x0B, 0x0C, 0x0D, 0x0E, 0x0F, 0x10, 0x11, 0x12, 0x13,
    0x14, 0x15, 0x16, 0x17, 0x18, 0x19, 0x1A, 0x1B, 0x1C, 0x1D, 0x1E, 0x1F, 0x20, 0x21, 0x22,
];

fn amounts(alloc: Global) -> Result<Column, Fail> {
    let body = Rc::new(alloc, Vec::from_slice(alloc, &AMOUNTS)?)?;
    let own = ArrayData {
        layout: BYTES,
        dictionary: None,
        len: 70,
        nulls: 8,
        validity: BufferRange { from: 0, len: 9 },
        offsets: BufferRange { from: 0, len: 0 },
        values: BufferRange { from: 9, len: 70 },
    };
    let root = Array {
        own,
        children: Vec::new(alloc),
    };
    Ok(Column::check(body, root)?)
}

fn small(number: i8) -> Value
    ensures { Holds (node (Int int.Bits8 true) none) result }
{
    Value {
        kind: Kind::Int(number as i128),
    }
}

/// A dictionary of -3, null and 3.
fn dictionary(alloc: Global) -> Result<Dictionary, Fail>
    ensures { IfOk result (λ d. All (Holds (node (Int int.Bits8 true) none)) d) }
{
    let nothing = Value { kind: Kind::Null };
    let mut dictionaries = Dicts::new(alloc);
    let values = ValueRuns::each(vec![in alloc; small(-3), nothing, small(3)]?);
    dictionaries.apply(7, false, values)?;
    let dictionary = dictionaries.lookup(7).ok_or("none")?;
    Ok(dictionary.share()?)
}

/// Indices of -3, null, 3, -3 and 3, of which the last but one is in a null slot.
fn coded(alloc: Global) -> Result<Column, Fail> {
    let body = Rc::new(alloc, vec![in alloc; 0x17, 0, 1, 2, 0, 2]?)?;
    let dictionary = DictionaryValues {
        layout: BYTES,
        values: dictionary(alloc)?,
    };
    let own = ArrayData {
        layout: BYTES,
        dictionary: Some(dictionary),
        len: 5,
        nulls: 1,
        validity: BufferRange { from: 0, len: 1 },
        offsets: BufferRange { from: 0, len: 0 },
        values: BufferRange { from: 1, len: 5 },
    };
    let root = Array {
        own,
        children: Vec::new(alloc),
    };
    Ok(Column::check(body, root)?)
}

/// The first column isn't below zero.
fn at_least_zero() -> Filter
    ensures { IsWithin 1 result }
{
    Filter {
        test: Test::Compare {
            comparison: Comparison::AtLeast,
            column: 0,
            with: Operand::Constant(Value { kind: Kind::Int(0) }),
        },
    }
}

fn negation(alloc: Global, filter: Filter) -> Result<Filter, AllocError>
    requires { IsWithin 1 filter }
    ensures { IfOk result (λ f. IsWithin 1 f) }
{
    Ok(Filter {
        test: Test::Not(Box::new(alloc, filter)?),
    })
}

/// Of how many rows the filter is true, and of how many it is unknown.
fn counts(alloc: Global, filter: &Filter, column: Column) -> Result<(usize, usize), AllocError>
    requires { IsWithin 1 filter.now }
{
    let rows = column.len();
    let columns = [column];
    let known = truths(filter, alloc, &columns, rows)?;
    Ok((known.yes().count_ones(), known.unknown().count_ones()))
}

#[test]
fn plain_numbers(rt: HostRuntime) -> Result<(), Fail> {
    let alloc = rt.alloc();
    let filter = at_least_zero();
    assert_eq!(rt; counts(alloc, &filter, amounts(alloc)?)?, (31, 8));
    let filter = negation(alloc, filter)?;
    assert_eq!(rt; counts(alloc, &filter, amounts(alloc)?)?, (31, 8));
    Ok(())
}

#[test]
fn coded_numbers(rt: HostRuntime) -> Result<(), Fail> {
    let alloc = rt.alloc();
    let filter = at_least_zero();
    assert_eq!(rt; counts(alloc, &filter, coded(alloc)?)?, (2, 2));
    let filter = negation(alloc, filter)?;
    assert_eq!(rt; counts(alloc, &filter, coded(alloc)?)?, (1, 2));
    Ok(())
}

/// A filter is within as many columns as it names, and not within fewer.
#[test]
fn columns_of_filters(rt: HostRuntime) -> Result<(), Fail> {
    let alloc = rt.alloc();
    let alike = Filter {
        test: Test::Compare {
            comparison: Comparison::Equal,
            column: 0,
            with: Operand::Column(2),
        },
    };
    let absent = Filter {
        test: Test::IsNull(1),
    };
    assert!(rt; is_within(&absent, 2) && !is_within(&absent, 1));
    assert!(rt; is_within(&alike, 3) && !is_within(&alike, 2));
    let either = Filter {
        test: Test::Or(vec![in alloc; at_least_zero(), alike, absent]?),
    };
    assert!(rt; is_within(&either, 3) && !is_within(&either, 2));
    Ok(())
}

/// Byte `place`, counted from 0, of the least number of a width, of 1, and of the greatest, one after the other.
fn byte_at(width: IntWidth, signed: bool, place: usize) -> u8 {
    let is_last = place % width.bytes() == width.bytes() - 1;
    match place / width.bytes() % 3 {
        0 if signed && is_last => 0x80,
        0 => 0,
        1 if place % width.bytes() == 0 => 1,
        1 => 0,
        _ if signed && is_last => 0x7F,
        _ => 0xFF,
    }
}

/// Three times the least number of a width, 1, and the greatest: eight for the lanes, and one more.
fn limits(alloc: Global, width: IntWidth, signed: bool) -> Result<Column, Fail> {
    let mut body = Vec::new(alloc);
    for place in 0..9 * width.bytes() {
        body.push(byte_at(width, signed, place))?;
    }
    let own = ArrayData {
        layout: Layout::Int { width, signed },
        dictionary: None,
        len: 9,
        nulls: 0,
        validity: BufferRange { from: 0, len: 0 },
        offsets: BufferRange { from: 0, len: 0 },
        values: BufferRange {
            from: 0,
            len: body.len(),
        },
    };
    let root = Array {
        own,
        children: Vec::new(alloc),
    };
    Ok(Column::check(Rc::new(alloc, body)?, root)?)
}

fn count(
    alloc: Global,
    column: &Column,
    comparison: Comparison,
    constant: i128,
) -> Result<usize, AllocError> {
    let constant = Value {
        kind: Kind::Int(constant),
    };
    Ok(
        compare(alloc, column, comparison, &constant)?
            .yes()
            .count_ones(),
    )
}

/// How many cells are equal to a constant, different from it, below it, at most it, above it, and at least it.
fn counts_with(alloc: Global, column: &Column, constant: i128) -> Result<[usize; 6], AllocError> {
    Ok([
        count(alloc, column, Comparison::Equal, constant)?,
        count(alloc, column, Comparison::Different, constant)?,
        count(alloc, column, Comparison::Below, constant)?,
        count(alloc, column, Comparison::AtMost, constant)?,
        count(alloc, column, Comparison::Above, constant)?,
        count(alloc, column, Comparison::AtLeast, constant)?,
    ])
}

/// Whether comparisons with the numbers just below and at the least number of a width, and at and just above the
/// greatest, hold of as many cells as they should.
fn holds_at_limits(
    alloc: Global,
    width: IntWidth,
    signed: bool,
    constants: [i128; 4],
) -> Result<bool, Fail> {
    let column = limits(alloc, width, signed)?;
    let below_all = counts_with(alloc, &column, constants[0])?;
    let least = counts_with(alloc, &column, constants[1])?;
    let greatest = counts_with(alloc, &column, constants[2])?;
    let above_all = counts_with(alloc, &column, constants[3])?;
    Ok(
        below_all == [0, 9, 0, 0, 9, 9]
            && least == [3, 6, 0, 3, 6, 9]
            && greatest == [3, 6, 6, 9, 0, 3]
            && above_all == [0, 9, 9, 9, 0, 0],
    )
}

#[test]
fn limits_of_widths(rt: HostRuntime) -> Result<(), Fail> {
    let alloc = rt.alloc();
    assert!(rt; holds_at_limits(alloc, IntWidth::Bits8, true, [-129, -128, 127, 128])?);
    assert!(rt; holds_at_limits(alloc, IntWidth::Bits8, false, [-1, 0, 255, 256])?);
    assert!(rt;
        holds_at_limits(
            alloc,
            IntWidth::Bits16,
            true,
            [-32_769, -32_768, 32_767, 32_768]
        )?
    );
    assert!(rt; holds_at_limits(alloc, IntWidth::Bits16, false, [-1, 0, 65_535, 65_536])?);
    Ok(())
}

#[test]
fn limits_of_wide_numbers(rt: HostRuntime) -> Result<(), Fail> {
    let alloc = rt.alloc();
    let signed = [-2_147_483_649, -2_147_483_648, 2_147_483_647, 2_147_483_648];
    assert!(rt; holds_at_limits(alloc, IntWidth::Bits32, true, signed)?);
    assert!(rt;
        holds_at_limits(
            alloc,
            IntWidth::Bits32,
            false,
            [-1, 0, 4_294_967_295, 4_294_967_296]
        )?
    );
    let signed = [
        -9_223_372_036_854_775_809,
        -9_223_372_036_854_775_808,
        9_223_372_036_854_775_807,
        9_223_372_036_854_775_808,
    ];
    assert!(rt; holds_at_limits(alloc, IntWidth::Bits64, true, signed)?);
    let unsigned = [
        -1,
        0,
        18_446_744_073_709_551_615,
        18_446_744_073_709_551_616,
    ];
    assert!(rt; holds_at_limits(alloc, IntWidth::Bits64, false, unsigned)?);
    Ok(())
}
