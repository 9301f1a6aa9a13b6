//! A field of the stored schema.
ghost use Rattle.std.specs.Prelude.{◌≡◌, IfOk, map};
ghost use Rattle.schema_meta.specs.FieldLayouts.{own_layout};
ghost use Rattle.schema_meta.specs.Logical.{named_field};

use crate::encoding::DictionaryEncoding;
use std::alloc::{AllocError, Global};
use std::marker::Model;
use values::{ColType, Layout, LogicalField};

/// A field as it is stored: a column, or a child of a list or struct.
///
/// Contracts see it as a tree with an `Entry` (`specs/Entry.antt`) at each node.
#[derive(Drop)]
pub struct Field {
    pub name: String,
    /// As the schema has it. It isn't enforced: nulls are read also where this is `false`.
    pub nullable: bool,
    /// The type of its values, also where it has a dictionary.
    pub stored: ColType,
    /// Its dictionary encoding, if its slots are indices into a dictionary.
    pub encoding: Option<DictionaryEncoding>,
    pub children: Vec<Field>,
}

impl Model for Field {
    ghost use Rattle.std.specs.Prelude.{string_bytes};
    ghost use Rattle.std.proofs.Common.{arith};
    ghost use Rattle.values.specs.Rose.{Rose, node, kids_of, rose_code, rose_size, most_le-roses_size};
    ghost use Rattle.schema_meta.specs.Entry.{Entry, entry_code};

    ghost Value = { Rose Entry };

    ghost coded = { rose_code entry_code };

    ghost view = { λ f. node
        (record { name = string_bytes f.name; nullable = f.nullable; stored = f.stored; encoding = f.encoding })
        (kids_of f.children.items) };

    ghost size = { rose_size };

    ghost size_decreases = { λ f h. omega (arith, most_le-roses_size f.children.items) };
}

impl Field {
    /// The layout of its slots: that of the indices, where it has a dictionary.
    pub fn slot_layout(&self) -> Layout
        ensures { result ≡ own_layout self.now }
    {
        match self.encoding {
            None => self.stored.layout(),
            Some(DictionaryEncoding { index, .. }) => Layout::Int {
                width: index.width,
                signed: index.signed,
            },
        }
    }
}

/// A field's name and the type of its values, with those of the fields below it.
#[cycle(named)]
#[tactic(auto, using(crate::proofs::Logicals::named))]
fn named_field(alloc: Global, field: &Field) -> Result<LogicalField, AllocError>
    ensures { IfOk result (λ n. n ≡ named_field field.now) }
{
    Ok(LogicalField {
        name: String::from_str(alloc, field.name.as_str())?,
        col_type: field.stored.copy(alloc)?,
        children: named_fields(alloc, &field.children)?,
    })
}

/// The names of fields and the types of their values.
#[cycle(named)]
#[tactic(auto, using(crate::proofs::Logicals::named))]
pub(crate) fn named_fields(alloc: Global, fields: &[Field]) -> Result<Vec<LogicalField>, AllocError>
    ensures { IfOk result (λ ns. ns.items ≡ map named_field fields.now) }
{
    let mut named = Vec::with_capacity(alloc, fields.len())?;
    for field in fields {
        named.push(named_field(alloc, field)?)?;
    }
    Ok(named)
}
