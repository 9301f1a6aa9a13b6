//! Copies, order, keys and weights of values of every kind.

use crate::{
    CellView, ColType, DateUnit, IntWidth, Key, KeyBuffer, Kind, Layout, LayoutTree, LogicalField,
    OffsetWidth, Schema, TimeUnit, Value, cmp_cells, cmp_values, copy_row, null_weight, row_weight,
    weight,
};
use std::alloc::{AllocError, Global};
use std::cmp::Ordering;
use std::test::Fail;

fn text(alloc: Global, text: &str) -> Result<Value, AllocError> {
    let kind = Kind::Utf8(String::from_str(alloc, text)?);
    Ok(Value { kind })
}

fn bytes(alloc: Global, bytes: &[u8]) -> Result<Value, AllocError> {
    let kind = Kind::Binary(Vec::from_slice(alloc, bytes)?);
    Ok(Value { kind })
}

/// {[true, null], `ab`}
fn nested(alloc: Global) -> Result<Value, AllocError> {
    let mut items = Vec::new(alloc);
    items.push(Value {
        kind: Kind::Bool(true),
    })?;
    items.push(Value { kind: Kind::Null })?;
    let mut children = Vec::new(alloc);
    children.push(Value {
        kind: Kind::List(items),
    })?;
    children.push(text(alloc, "ab")?)?;
    Ok(Value {
        kind: Kind::Struct(children),
    })
}

#[test]
fn copies_what_is_nested(rt: HostRuntime) -> Result<(), Fail> {
    let copy = nested(rt.alloc())?.copy(rt.alloc())?;
    let Kind::Struct(children) = &copy.kind else {
        return Err(Fail::from("not a struct"));
    };
    let [list, second] = children.as_slice() else {
        return Err(Fail::from("not two children"));
    };
    assert_eq!(rt;
        cmp_values(second, &text(rt.alloc(), "ab")?),
        Ordering::Equal
    );
    let Kind::List(items) = &list.kind else {
        return Err(Fail::from("not a list"));
    };
    let again = copy_row(rt.alloc(), items)?;
    assert_eq!(rt; again.len(), 2);
    Ok(())
}

#[test]
fn orders_by_kind_and_value(rt: HostRuntime) -> Result<(), Fail> {
    let alloc = rt.alloc();
    let no = Value {
        kind: Kind::Bool(false),
    };
    let yes = Value {
        kind: Kind::Bool(true),
    };
    let null = Value { kind: Kind::Null };
    assert_eq!(rt; cmp_values(&no, &yes), Ordering::Less);
    assert_eq!(rt; cmp_values(&null, &nested(alloc)?), Ordering::Greater);
    assert_eq!(rt;
        cmp_values(&bytes(alloc, &[1])?, &bytes(alloc, &[1, 0])?),
        Ordering::Less
    );
    assert_eq!(rt;
        cmp_values(&text(alloc, "b")?, &text(alloc, "ab")?),
        Ordering::Greater
    );
    Ok(())
}

#[test]
fn keys_are_values(rt: HostRuntime) -> Result<(), Fail> {
    let alloc = rt.alloc();
    assert!(rt; Key::of(alloc, &nested(alloc)?)?.is_none());
    let first = Key::of(alloc, &text(alloc, "ab")?)?.ok_or("no key")?;
    let second = Key::of(alloc, &bytes(alloc, &[97, 98])?)?.ok_or("no key")?;
    assert!(rt; first != second);
    assert!(rt; first < second);
    assert!(rt; first.copy(alloc)? == first);
    assert!(rt; second.copy(alloc)? == second);
    assert!(rt; second < Key::Null);
    assert!(rt; Key::Int(-1) < Key::Int(0));
    Ok(())
}

fn leaf(alloc: Global, layout: Layout) -> LayoutTree {
    LayoutTree {
        layout,
        children: Vec::new(alloc),
    }
}

/// The layout of `nested`.
fn nested_layout(alloc: Global) -> Result<LayoutTree, AllocError> {
    let offsets = OffsetWidth::Bits32;
    let list = LayoutTree {
        layout: Layout::List { offsets },
        children: vec![in alloc; leaf(alloc, Layout::Bool)]?,
    };
    Ok(LayoutTree {
        layout: Layout::Struct,
        children: vec![in alloc; list, leaf(alloc, Layout::Utf8 { offsets })]?,
    })
}

#[test]
fn weighs_by_null_weights(rt: HostRuntime) -> Result<(), Fail> {
    let alloc = rt.alloc();
    let layout = nested_layout(alloc)?;
    let null = Value { kind: Kind::Null };
    assert_eq!(rt; null_weight(&layout), 11);
    assert_eq!(rt; weight(&layout, &null), 11);
    assert_eq!(rt; weight(&layout, &nested(alloc)?), 17);
    let layouts = vec![in alloc; layout, leaf(alloc, Layout::Decimal { precision: 9 })]?;
    let row = vec![in alloc; nested(alloc)?, null]?;
    assert_eq!(rt; row_weight(&layouts, &row), 34);
    Ok(())
}

#[test]
fn weighs_by_width(rt: HostRuntime) -> Result<(), Fail> {
    let offsets = OffsetWidth::Bits64;
    let width = IntWidth::Bits64;
    for (layout, expected) in [
        (Layout::Bool, 2),
        (
            Layout::Int {
                width,
                signed: true,
            },
            9,
        ),
        (Layout::FixedSizeBinary { width: 7 }, 8),
        (Layout::Utf8 { offsets }, 5),
        (Layout::Struct, 1),
    ] {
        assert_eq!(rt; layout.own_null_weight(), expected);
        assert_eq!(rt; null_weight(&leaf(rt.alloc(), layout)), expected);
    }
    let text = text(rt.alloc(), "abc")?;
    assert_eq!(rt; Layout::Utf8 { offsets }.own_weight(&text), 8);
    assert_eq!(rt; Layout::Bool.own_weight(&text), 2);
    assert_eq!(rt; offsets.bytes(), 8);
    assert_eq!(rt; width.bytes(), 8);
    assert_eq!(rt; width.least(true), i128::from(i64::MIN));
    assert_eq!(rt; width.greatest(false), i128::from(u64::MAX));
    Ok(())
}

#[test]
fn lies_in_memory_as_a_number(rt: HostRuntime) -> Result<(), Fail> {
    let layout = Layout::Int {
        width: IntWidth::Bits32,
        signed: true,
    };
    let days = DateUnit::Day;
    assert_eq!(rt; ColType::Date { unit: days }.layout(), layout);
    assert_eq!(rt; days.width(), IntWidth::Bits32);
    assert_eq!(rt; TimeUnit::Microsecond.width(), IntWidth::Bits64);
    assert_eq!(rt; TimeUnit::Microsecond.bits(), 64);
    Ok(())
}

/// Lists of texts with offsets of 64 bits, whose items are named `element`.
fn large_lists(alloc: Global) -> Result<LogicalField, AllocError> {
    let offsets = OffsetWidth::Bits64;
    let mut children = Vec::new(alloc);
    children.push(LogicalField {
        name: String::from_str(alloc, "element")?,
        col_type: ColType::Utf8 { offsets },
        children: Vec::new(alloc),
    })?;
    Ok(LogicalField {
        name: String::from_str(alloc, "lists")?,
        col_type: ColType::List { offsets },
        children,
    })
}

#[test]
fn drops_how_columns_are_stored(rt: HostRuntime) -> Result<(), Fail> {
    let alloc = rt.alloc();
    let mut fields = Vec::new(alloc);
    fields.push(large_lists(alloc)?)?;
    let schema = Schema::new(alloc, fields)?;
    let [lists] = schema.fields.as_slice() else {
        return Err(Fail::from("not one column"));
    };
    let [items] = lists.children.as_slice() else {
        return Err(Fail::from("not one child"));
    };
    let offsets = OffsetWidth::Bits32;
    assert_eq!(rt; lists.name.as_str(), "lists");
    assert_eq!(rt; &lists.col_type, &ColType::List { offsets });
    assert_eq!(rt; items.name.as_str(), "item");
    assert_eq!(rt; &items.col_type, &ColType::Utf8 { offsets });
    Ok(())
}

#[test]
fn finds_keys_of_cells_where_they_lie(rt: HostRuntime) -> Result<(), Fail> {
    let one = text(rt.alloc(), "one")?;
    assert!(rt; cmp_cells(one.view(), CellView::Utf8("two")).is_lt());
    assert!(rt; CellView::Null.is_null());
    assert!(rt; !nested(rt.alloc())?.view().is_null());
    let mut buffer = KeyBuffer::new(rt.alloc());
    for value in [one, text(rt.alloc(), "two")?, bytes(rt.alloc(), &[1, 2])?] {
        assert_eq!(rt;
            buffer.key_of(value.view())?,
            Key::of(rt.alloc(), &value)?.as_ref()
        );
    }
    assert!(rt; buffer.key_of(nested(rt.alloc())?.view())?.is_none());
    Ok(())
}

/// Texts of 22 bytes, which are stored inline, and of more, which are behind a pointer and differ at the first byte, at
/// the sixteenth or in their length.
const TEXTS: [&str; 7] = [
    "",
    "a",
    "abcdefghijklmnopqrstuv",
    "abcdefghijklmnopqrstuvw",
    "abcdefghijklmnopqrstuvwx",
    "abcdefghijklmnozz",
    "bbcdefghijklmnopqrstuvwxyz",
];

#[test]
fn keys_of_texts_are_ordered_wherever_they_lie(rt: HostRuntime) -> Result<(), Fail> {
    let mut buffer = KeyBuffer::new(rt.alloc());
    for i in 0..TEXTS.len() {
        let one = text(rt.alloc(), TEXTS[i])?;
        let key = Key::of(rt.alloc(), &one)?.ok_or("no key")?;
        assert!(rt; cmp_values(&key.value(rt.alloc())?, &one).is_eq());
        assert!(rt; cmp_cells(key.view(), one.view()).is_eq());
        for j in 0..TEXTS.len() {
            let other = buffer.key_of(CellView::Utf8(TEXTS[j]))?.ok_or("no key")?;
            assert_eq!(rt; key.cmp(other), i.cmp(&j));
            assert_eq!(rt; &key == other, i == j);
        }
    }
    Ok(())
}
