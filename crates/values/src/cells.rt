//! Values and rows.

ghost use Rattle.std.specs.Prelude.{◌≡◌, IfOk};

use std::alloc::{AllocError, Global};
use std::marker::Model;

/// What a cell holds. Contracts see it as a `Datum` of `specs/Datum.antt`, so `≡` on two values says that
/// they hold the same.
#[cycle(value)]
#[derive(Debug, Drop)]
pub struct Value {
    pub kind: Kind,
}

/// The kinds of values.
#[cycle(value)]
#[derive(Debug, Drop)]
pub enum Kind {
    /// No value.
    Null,
    /// A truth value.
    Bool(bool),
    /// A whole number, of any width that a column can have; also the unscaled value of a decimal, a date, a time or a
    /// duration.
    Int(i128),
    /// A text.
    Utf8(String),
    /// Bytes.
    Binary(Vec<u8>),
    /// The items of a list.
    List(Vec<Value>),
    /// The children of a struct.
    Struct(Vec<Value>),
}

/// The cells of a row, in the order of the columns.
pub type Row = Vec<Value>;

impl Model for Value {
    ghost use Rattle.values.specs.Datum.{Datum, datum_code, datum_size};

    ghost Value = { Datum };

    ghost coded = { datum_code };

    ghost use Rattle.values.specs.Kinds.{datum_of};

    ghost view = { λ v. datum_of v.kind };

    ghost size = { datum_size };

    ghost use Rattle.std.proofs.Common.{arith};
    ghost use Rattle.values.specs.Sizes.{deep_le-datum_size};

    ghost size_decreases = { λ v h. Prim.omega (arith, deep_le-datum_size v.kind) };
}

impl Value {
    /// An equal value with memory of its own.
    #[cycle(copy)]
    pub fn copy(&self, alloc: Global) -> Result<Value, AllocError>
        ensures { IfOk result (λ v. v ≡ self.now) }
    {
        let kind = match &self.kind {
            Kind::Null => Kind::Null,
            Kind::Bool(truth) => Kind::Bool(*truth),
            Kind::Int(number) => Kind::Int(*number),
            Kind::Utf8(text) => Kind::Utf8(String::from_str(alloc, text.as_str())?),
            Kind::Binary(bytes) => Kind::Binary(Vec::from_slice(alloc, bytes)?),
            Kind::List(items) => Kind::List(copy_row(alloc, items)?),
            Kind::Struct(children) => Kind::Struct(copy_row(alloc, children)?),
        };
        Ok(Value { kind })
    }
}

/// An equal row with memory of its own.
#[cycle(copy)]
#[tactic(auto, using(crate::proofs::ItemSizes::item_below))]
pub fn copy_row(alloc: Global, row: &[Value]) -> Result<Row, AllocError>
    ensures { IfOk result (λ copies. copies.items ≡ row.now) }
{
    let mut copies = Vec::with_capacity(alloc, row.len())?;
    for value in row {
        copies.push(value.copy(alloc)?)?;
    }
    Ok(copies)
}
