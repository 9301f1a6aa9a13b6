//! Stored types as text.

ghost use Rattle.std.specs.Prelude.{◌≡◌, ◌++◌, [], OnOk, string_bytes};
ghost use Rattle.values.specs.Rose.{kids_of};
ghost use Rattle.liveviews.specs.Lines.{is_nested, label_text, parts_text, tree_text};

use schema_meta::Field;
use std::alloc::AllocError;
use values::ColType;

/// Whether the text of a type has those of its children: it is a list or a struct.
fn is_nested(stored: &ColType) -> bool
    ensures { result ≡ is_nested stored.now }
{
    matches!(stored, ColType::List { .. } | ColType::Struct)
}

/// Writes the name of a child and a colon below a struct, and nothing below a list.
fn write_label(text: &mut String, parent: &ColType, name: &str) -> Result<(), AllocError>
    ensures { OnOk result (string_bytes text.new ≡ string_bytes text.old ++ label_text parent.now name.now) }
{
    match parent {
        ColType::Struct => write!(text, "{name}: "),
        _ => Ok(()),
    }
}

/// Writes the type of a field, with those of the fields below it.
#[cycle(types)]
pub(crate) fn write_type(text: &mut String, field: &Field) -> Result<(), AllocError>
    ensures { OnOk result (string_bytes text.new ≡ string_bytes text.old ++ tree_text field.now) }
{
    let stored = &field.stored;
    write!(text, "{stored}")?;
    if is_nested(stored) {
        text.push_str("[")?;
        write_parts(text, stored, &field.children)?;
        text.push_str("]")?;
    }
    Ok(())
}

/// Writes the fields below one of this type.
#[cycle(types)]
#[tactic(auto, using(crate::proofs::TypeTexts::type_texts))]
fn write_parts(text: &mut String, parent: &ColType, fields: &[Field]) -> Result<(), AllocError>
    ensures { OnOk result (string_bytes text.new ≡ string_bytes text.old
        ++ parts_text [] parent.now (kids_of fields.now)) }
{
    let mut comma = "";
    for field in fields {
        text.push_str(comma)?;
        write_label(text, parent, field.name.as_str())?;
        write_type(text, field)?;
        comma = ", ";
    }
    Ok(())
}
