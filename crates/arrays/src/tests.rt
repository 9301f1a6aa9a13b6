//! Columns over bytes that were written by hand, which no stream has; the cells and faults of those in streams are in
//! `tests/*.txt` at the repository's root.

ghost use Rattle.std.specs.Prelude.{◌≤◌, All, IfOk};
ghost use Rattle.values.specs.Rose.{node, none};
ghost use Rattle.values.specs.declared.layout.OffsetWidth.TheVariants as offset;
ghost use Rattle.values.specs.declared.layout.Layout.TheVariants.{Binary};
ghost use Rattle.values.specs.Layouts.{IsNode, Holds};

use crate::{Column, index_at};
use array_layout::{Array, ArrayData, BufferRange, DictionaryValues};
use dictionaries::{Dictionary, Dicts, ValueRuns};
use std::alloc::{AllocError, Global};
use std::rc::Rc;
use std::test::Fail;
use values::limits::{MAX_CELL_WEIGHT, MAX_NODE_LENGTH};
use values::{CellView, IntWidth, Kind, Layout, OffsetWidth, Value, cmp_cells};

const NOWHERE: BufferRange = BufferRange { from: 0, len: 0 };

/// Cell `i`, where there is one.
fn cell_at(column: &Column, alloc: Global, i: usize) -> Result<Option<Value>, AllocError> {
    if i < column.len() {
        Ok(Some(column.cell(alloc, i)?))
    } else {
        Ok(None)
    }
}

/// A list with the most items that an array can have, none of which takes a byte.
fn list_of(alloc: Global, layout: Layout) -> Result<Column, Fail>
    requires { IsNode layout none }
{
    let body = Rc::new(alloc, vec![in alloc; 0, 0, 0, 0, 0xFF, 0xFF, 0xFF, 0x7F]?)?;
    let items = ArrayData {
        layout,
        dictionary: None,
        len: MAX_NODE_LENGTH,
        nulls: 0,
        validity: NOWHERE,
        offsets: NOWHERE,
        values: NOWHERE,
    };
    let own = ArrayData {
        layout: Layout::List {
            offsets: OffsetWidth::Bits32,
        },
        dictionary: None,
        len: 1,
        nulls: 0,
        validity: NOWHERE,
        offsets: BufferRange { from: 0, len: 8 },
        values: NOWHERE,
    };
    let child = Array {
        own: items,
        children: Vec::new(alloc),
    };
    let root = Array {
        own,
        children: vec![in alloc; child]?,
    };
    Ok(Column::check(body, root)?)
}

/// Three slots of `width` bytes each, with a validity buffer of this many bytes.
fn three_fixed(alloc: Global, width: u32, bits: usize) -> Result<Column, Fail>
    requires { bits ≤ 4 }
{
    let body = Rc::new(alloc, vec![in alloc; 7, 1, 2, 3]?)?;
    let own = ArrayData {
        layout: Layout::FixedSizeBinary { width },
        dictionary: None,
        len: 3,
        nulls: 0,
        validity: BufferRange { from: 0, len: bits },
        offsets: NOWHERE,
        values: BufferRange { from: 1, len: 3 },
    };
    let root = Array {
        own,
        children: Vec::new(alloc),
    };
    Ok(Column::check(body, root)?)
}

#[test]
fn empty_bytes_that_may_be_null_have_bits(rt: HostRuntime) -> Result<(), Fail> {
    let alloc = rt.alloc();
    let empty = three_fixed(alloc, 0, 0)?;
    assert!(rt; empty.has_no_bytes());
    assert!(rt; has_bytes(&empty, alloc, 2, &[])?);
    assert!(rt; !three_fixed(alloc, 0, 1)?.has_no_bytes());
    assert!(rt; !three_fixed(alloc, 1, 0)?.has_no_bytes());
    Ok(())
}

fn bytes_value(alloc: Global, bytes: &[u8]) -> Result<Value, AllocError>
    ensures { IfOk result (λ v. Holds (node (Binary offset.Bits32) none) v) }
{
    Ok(Value {
        kind: Kind::Binary(Vec::from_slice(alloc, bytes)?),
    })
}

/// A dictionary of the values 1 and 2, 3.
fn dictionary(alloc: Global) -> Result<Dictionary, Fail>
    ensures { IfOk result (λ d. All (Holds (node (Binary offset.Bits32) none)) d) }
{
    let short = bytes_value(alloc, &[1])?;
    let long = bytes_value(alloc, &[2, 3])?;
    let mut dictionaries = Dicts::new(alloc);
    let values = ValueRuns::each(vec![in alloc; short, long]?);
    dictionaries.apply(7, false, values)?;
    let dictionary = dictionaries.lookup(7).ok_or("none")?;
    Ok(dictionary.share()?)
}

/// Indices of eight bits of both of its values.
fn coded(alloc: Global) -> Result<Column, Fail> {
    let body = Rc::new(alloc, vec![in alloc; 3, 1, 0]?)?;
    let dictionary = DictionaryValues {
        layout: Layout::Binary {
            offsets: OffsetWidth::Bits32,
        },
        values: dictionary(alloc)?,
    };
    let own = ArrayData {
        layout: Layout::Int {
            width: IntWidth::Bits8,
            signed: true,
        },
        dictionary: Some(dictionary),
        len: 2,
        nulls: 0,
        validity: BufferRange { from: 0, len: 1 },
        offsets: NOWHERE,
        values: BufferRange { from: 1, len: 2 },
    };
    let root = Array {
        own,
        children: Vec::new(alloc),
    };
    Ok(Column::check(body, root)?)
}

fn has_bytes(column: &Column, alloc: Global, i: usize, wanted: &[u8]) -> Result<bool, AllocError> {
    match cell_at(column, alloc, i)? {
        Some(value) => match &value.kind {
            Kind::Binary(bytes) => Ok(bytes.as_slice() == wanted),
            _ => Ok(false),
        },
        None => Ok(false),
    }
}

/// Two texts, of one byte and of three.
fn two_texts(alloc: Global) -> Result<Column, Fail> {
    let body = Rc::new(
        alloc,
        vec![in alloc;
            3, 0, 0, 0, 0, 1, 0, 0, 0, 4, 0, 0, 0, 0x61, 0xC3, 0xA9, 0x62,
        ]?,
    )?;
    let own = ArrayData {
        layout: Layout::Utf8 {
            offsets: OffsetWidth::Bits32,
        },
        dictionary: None,
        len: 2,
        nulls: 0,
        validity: BufferRange { from: 0, len: 1 },
        offsets: BufferRange { from: 1, len: 12 },
        values: BufferRange { from: 13, len: 4 },
    };
    let root = Array {
        own,
        children: Vec::new(alloc),
    };
    Ok(Column::check(body, root)?)
}

/// Whether cell `i` is there, and is this one.
fn is_viewed(column: &Column, i: usize, wanted: CellView<'_>) -> bool {
    i < column.len() && cmp_cells(column.view(i), wanted).is_eq()
}

#[test]
fn views_cells_where_they_lie(rt: HostRuntime) -> Result<(), Fail> {
    let alloc = rt.alloc();
    let texts = two_texts(alloc)?;
    assert!(rt; is_viewed(&texts, 0, CellView::Utf8("a")));
    assert!(rt; is_viewed(&texts, 1, CellView::Utf8("éb")));
    assert!(rt; is_viewed(&coded(alloc)?, 0, CellView::Binary(&[2, 3])));
    let lists = list_of(alloc, Layout::FixedSizeBinary { width: 0 })?;
    assert!(rt; is_viewed(&lists, 0, CellView::List));
    assert!(rt; lists.len() == 1 && !lists.is_null(0));
    Ok(())
}

#[test]
fn no_cell_is_above_the_bound(rt: HostRuntime) -> Result<(), Fail> {
    let alloc = rt.alloc();
    assert_eq!(rt; two_texts(alloc)?.weight_bound(), 8);
    assert_eq!(rt; coded(alloc)?.weight_bound(), 7);
    let lists = list_of(alloc, Layout::FixedSizeBinary { width: 0 })?;
    assert!(rt; lists.weight_bound() > MAX_CELL_WEIGHT);
    Ok(())
}

#[test]
fn indices_are_read_without_their_signs(rt: HostRuntime) -> Result<(), Fail> {
    assert_eq!(rt; index_at(&[7, 200], IntWidth::Bits8, 1), 200);
    assert_eq!(rt; index_at(&[1, 0, 254, 255], IntWidth::Bits16, 1), 65534);
    assert_eq!(rt; index_at(&[1, 0, 0, 128], IntWidth::Bits32, 0), 0x8000_0001);
    assert_eq!(rt;
        index_at(&[2, 1, 0, 0, 0, 0, 0, 0], IntWidth::Bits64, 0),
        258
    );
    Ok(())
}
