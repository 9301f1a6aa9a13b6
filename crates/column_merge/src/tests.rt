//! Rows of two batches of bytes, merged.

ghost use Rattle.std.specs.Prelude.{◌≡◌, [], ◌∷◌, All, IfOk};
ghost use Rattle.values.specs.Rose.{kids_of};
ghost use Rattle.body_writer.specs.Batch.{IsBatch};
ghost use Rattle.body_writer.specs.RowRanges.{IsRange, ranges_rows};
ghost use Rattle.column_merge.specs.Sample.{AreBytes, byte_layout, byte_layouts};

use crate::merge_rows;
use array_layout::{Array, ArrayData, BufferRange};
use arrays::Column;
use body_writer::{Batch, RowRange};
use std::alloc::{AllocError, Global};
use std::rc::Rc;
use std::test::Fail;
use values::{CellView, IntWidth, Layout, LayoutTree, cmp_cells};

const NOWHERE: BufferRange = BufferRange { from: 0, len: 0 };

const BYTE: Layout = Layout::Int {
    width: IntWidth::Bits8,
    signed: false,
};

/// Three rows of one column.
fn three_bytes(alloc: Global, first: u8, second: u8, third: u8) -> Result<Batch, Fail>
    ensures { IfOk result (λ b. AreBytes 3 b) }
{
    let body = Rc::new(alloc, vec![in alloc; first, second, third]?)?;
    let own = ArrayData {
        layout: BYTE,
        dictionary: None,
        len: 3,
        nulls: 0,
        validity: NOWHERE,
        offsets: NOWHERE,
        values: BufferRange { from: 0, len: 3 },
    };
    let root = Array {
        own,
        children: Vec::new(alloc),
    };
    let column = Column::check(body, root)?;
    column.law();
    if column.len() != 3 {
        return Err("three bytes are three cells")?;
    }
    Ok(Batch {
        columns: vec![in alloc; column]?,
        rows: 3,
    })
}

fn byte_layouts(alloc: Global) -> Result<Vec<LayoutTree>, AllocError>
    ensures { IfOk result (λ layouts. layouts.items ≡ byte_layout ∷ []) }
{
    let tree = LayoutTree {
        layout: BYTE,
        children: Vec::new(alloc),
    };
    Ok(vec![in alloc; tree]?)
}

/// The first and the last row of one batch, and the second of another.
fn merge_three(alloc: Global, first: &Batch, second: &Batch) -> Result<Vec<Column>, AllocError>
    requires first { AreBytes 3 first.now }
    requires second { AreBytes 3 second.now }
{
    let layouts = byte_layouts(alloc)?;
    let ranges = [
        RowRange {
            batch: first,
            from: 0,
            to: 1,
        },
        RowRange {
            batch: first,
            from: 2,
            to: 3,
        },
        RowRange {
            batch: second,
            from: 1,
            to: 2,
        },
    ];
    merge_rows(alloc, &layouts, &ranges)
}

/// Whether cell `i` is there, and is this one.
fn is_number(column: &Column, i: usize, wanted: i128) -> bool {
    i < column.len() && cmp_cells(column.view(i), CellView::Int(wanted)).is_eq()
}

#[test]
fn rows_come_range_by_range(rt: HostRuntime) -> Result<(), Fail> {
    let alloc = rt.alloc();
    let first = three_bytes(alloc, 1, 2, 3)?;
    let second = three_bytes(alloc, 4, 5, 6)?;
    let mut columns = merge_three(alloc, &first, &second)?;
    let column = columns.pop().ok_or("no column")?;
    assert!(rt; columns.is_empty());
    assert!(rt; column.len() == 3);
    assert!(rt; is_number(&column, 0, 1));
    assert!(rt; is_number(&column, 1, 3));
    assert!(rt; is_number(&column, 2, 5));
    Ok(())
}
