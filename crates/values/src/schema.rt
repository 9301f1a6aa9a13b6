//! The logical schema: names and types of columns, without regard to how they are stored.

ghost use Rattle.std.specs.Prelude.{◌≡◌, IfOk, map};
ghost use Rattle.values.specs.Rose.{kids_of};
ghost use Rattle.values.specs.Logical.{
  AreLogical,
  AreLogicalColumns,
  AreLogicalColumns-prop,
  IsLogical,
  logical_column,
  logical_in,
  narrow,
};

use crate::col_type::ColType;
use crate::layout::OffsetWidth;
use std::alloc::{AllocError, Global};
use std::marker::Model;

/// A field's name and type, with the fields below it: of a list its items, of a struct its children.
///
/// Contracts see it as a tree with a `NamedType` of `specs/Logical.antt` at each node.
#[derive(Debug, Drop)]
pub struct LogicalField {
    pub name: String,
    pub col_type: ColType,
    pub children: Vec<LogicalField>,
}

impl Model for LogicalField {
    ghost use Rattle.std.specs.Prelude.{string_bytes};
    ghost use Rattle.std.proofs.Common.{arith};
    ghost use Rattle.values.specs.Rose.{Rose, node, kids_of, rose_code, rose_size, most_le-roses_size};
    ghost use Rattle.values.specs.Logical.{NamedType, logical_code};

    ghost Value = { Rose NamedType };

    ghost coded = { rose_code logical_code };

    ghost view = { λ n.
        node (record { name = string_bytes n.name; col_type = n.col_type }) (kids_of n.children.items) };

    ghost size = { rose_size };

    ghost size_decreases = { λ n h. omega (arith, most_le-roses_size n.children.items) };
}

/// The columns of a table, in order: their names and logical types. Offsets have 32 bits, and the items of a list are
/// named `item`; no value of this type has anything else of how columns are stored.
#[derive(Debug, Drop)]
pub struct Schema {
    pub fields: Vec<LogicalField>,
    pub ghost logical: { AreLogicalColumns fields.items } by { AreLogicalColumns-prop fields.items },
}

impl Schema {
    /// The schema of these columns, however they are stored: offsets are narrowed, and the items of lists renamed.
    pub fn new(alloc: Global, fields: Vec<LogicalField>) -> Result<Schema, AllocError>
        ensures { IfOk result (λ s. s.fields.items ≡ map logical_column fields.items) }
    {
        let fields = logical_below(alloc, &ColType::Struct, fields)?;
        Ok(Schema { fields })
    }
}

/// A field below one of type `parent`, with those below it, as a logical field.
#[cycle(logical)]
#[tactic(auto, using(crate::proofs::Logicals::logicals))]
fn logical_in(
    alloc: Global,
    parent: &ColType,
    field: LogicalField,
) -> Result<LogicalField, AllocError>
    ensures value { IfOk result (λ n. n ≡ logical_in parent.now field) }
    ensures logical { IfOk result (λ n. IsLogical parent.now n) }
{
    let LogicalField {
        name,
        col_type,
        children,
    } = field;
    let children = logical_below(alloc, &col_type, children)?;
    let name = match parent {
        ColType::List { .. } => String::from_str(alloc, "item")?,
        _ => name,
    };
    Ok(LogicalField {
        name,
        col_type: narrow(col_type),
        children,
    })
}

/// The fields below one of type `parent` as logical fields.
#[cycle(logical)]
#[tactic(auto, using(crate::proofs::Logicals::logicals))]
fn logical_below(
    alloc: Global,
    parent: &ColType,
    fields: Vec<LogicalField>,
) -> Result<Vec<LogicalField>, AllocError>
    ensures value { IfOk result (λ ns. ns.items ≡ map (logical_in parent.now) fields.items) }
    ensures logical { IfOk result (λ ns. AreLogical parent.now (kids_of ns.items)) }
{
    let mut logical = Vec::with_capacity(alloc, fields.len())?;
    for field in fields {
        logical.push(logical_in(alloc, parent, field)?)?;
    }
    Ok(logical)
}

/// The same type with offsets of 32 bits.
fn narrow(col_type: ColType) -> ColType
    ensures { result ≡ narrow col_type }
{
    let offsets = OffsetWidth::Bits32;
    match col_type {
        ColType::Utf8 { .. } => ColType::Utf8 { offsets },
        ColType::Binary { .. } => ColType::Binary { offsets },
        ColType::List { .. } => ColType::List { offsets },
        other => other,
    }
}
