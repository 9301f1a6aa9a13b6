//! Compares the events of two feeds.

use arrays::Column;
use feed::FeedEvent;
use schema_meta::Field;
use std::alloc::{AllocError, Global};
use std::cmp::Ordering;
use values::{Kind, Value, cmp_values};

#[cycle(fields)]
fn same_field(a: &Field, b: &Field) -> bool {
    a.name == b.name
        && a.nullable == b.nullable
        && a.stored == b.stored
        && a.encoding == b.encoding
        && same_fields(&a.children, &b.children)
}

#[cycle(fields)]
fn same_fields(a: &[Field], b: &[Field]) -> bool {
    for (x, y) in a.iter().zip(b) {
        if !same_field(x, y) {
            return false;
        }
    }
    a.len() == b.len()
}

#[cycle(cells)]
fn same_value(a: &Value, b: &Value) -> bool {
    match (&a.kind, &b.kind) {
        (Kind::List(x), Kind::List(y)) => same_values(x, y),
        (Kind::Struct(x), Kind::Struct(y)) => same_values(x, y),
        _ => cmp_values(a, b) == Ordering::Equal,
    }
}

#[cycle(cells)]
#[tactic(auto, using(values::proofs::ItemSizes::item_below))]
fn same_values(a: &[Value], b: &[Value]) -> bool {
    for (x, y) in a.iter().zip(b) {
        if !same_value(x, y) {
            return false;
        }
    }
    a.len() == b.len()
}

fn same_column(alloc: Global, a: &Column, b: &Column) -> Result<bool, AllocError> {
    if a.len() != b.len() {
        return Ok(false);
    }
    for i in 0..a.len() {
        if !same_value(&a.cell(alloc, i)?, &b.cell(alloc, i)?) {
            return Ok(false);
        }
    }
    Ok(true)
}

fn same_columns(alloc: Global, a: &[Column], b: &[Column]) -> Result<bool, AllocError> {
    for (x, y) in a.iter().zip(b) {
        if !same_column(alloc, x, y)? {
            return Ok(false);
        }
    }
    Ok(a.len() == b.len())
}

/// Whether two events are the same, down to each field and each cell.
pub fn same_event(alloc: Global, a: &FeedEvent, b: &FeedEvent) -> Result<bool, AllocError> {
    match (a, b) {
        (FeedEvent::Schema(a), FeedEvent::Schema(b)) => Ok(same_fields(&a.fields, &b.fields)),
        (
            FeedEvent::Dictionary { id, delta, values },
            FeedEvent::Dictionary {
                id: other_id,
                delta: other_delta,
                values: other_values,
            },
        ) => Ok(id == other_id && delta == other_delta && values == other_values),
        (
            FeedEvent::Batch {
                columns,
                rows,
                body,
            },
            FeedEvent::Batch {
                columns: other_columns,
                rows: other_rows,
                body: other_body,
            },
        ) => {
            let same = same_columns(alloc, columns, other_columns)?;
            Ok(same && rows == other_rows && body == other_body)
        }
        (FeedEvent::End, FeedEvent::End) => Ok(true),
        _ => Ok(false),
    }
}
