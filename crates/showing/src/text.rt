//! Texts as fields of CSV.

ghost use Rattle.std.specs.Prelude.{◌≡◌, OnOk, flat_map};
ghost use Rattle.std.specs.Io.KnownBytes.{Appends};
ghost use Rattle.std.specs.List.{list_any};
ghost use Rattle.showing.specs.Csv.{doubled, field_text, is_special, needs_quotes, quoted};

use std::io;
use std::io::Write;

/// Whether a text has a byte that would end a field.
fn has_special(text: &[u8]) -> bool
    ensures { result ≡ list_any is_special text.now }
{
    text.iter().any(|byte| *byte == b'"' || *byte == b',' || *byte == b'\r' || *byte == b'\n')
}

/// Whether a text is written between quotes: also where it is empty, since a field without a byte is a null.
fn needs_quotes(text: &[u8]) -> bool
    ensures { result ≡ needs_quotes text.now }
{
    text.is_empty() || has_special(text)
}

/// Writes a byte between quotes: a quote is doubled.
fn write_doubled<W: Write>(out: &mut W, byte: u8) -> io::Result<()>
    ensures { OnOk result (Appends (W.contents out.old) (W.contents out.new) (doubled byte)) }
{
    if byte == b'"' {
        return out.write_all(b"\"\"");
    }
    out.write_all(&[byte])
}

fn write_all_doubled<W: Write>(out: &mut W, text: &[u8]) -> io::Result<()>
    ensures { OnOk result (Appends (W.contents out.old) (W.contents out.new) (flat_map doubled text.now)) }
{
    for byte in text {
        write_doubled(out, *byte)?;
    }
    Ok(())
}

/// Writes a text between quotes.
#[tactic(auto, using(crate::proofs::WrittenTexts::appends))]
fn write_quoted<W: Write>(out: &mut W, text: &[u8]) -> io::Result<()>
    ensures { OnOk result (Appends (W.contents out.old) (W.contents out.new) (quoted text.now)) }
{
    out.write_all(b"\"")?;
    write_all_doubled(out, text)?;
    out.write_all(b"\"")
}

/// Writes a text as a field.
pub(crate) fn write_field<W: Write>(out: &mut W, text: &[u8]) -> io::Result<()>
    ensures { OnOk result (Appends (W.contents out.old) (W.contents out.new) (field_text text.now)) }
{
    if needs_quotes(text) {
        write_quoted(out, text)
    } else {
        out.write_all(text)
    }
}
