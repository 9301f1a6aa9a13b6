//! Rows as CSV.

ghost use Rattle.std.specs.Prelude.{◌≡◌, ◌<◌, All, OnOk, length};
ghost use Rattle.std.specs.Io.KnownBytes.{Appends};
ghost use Rattle.showing.specs.Lines.{bytes_field, cell_field, line, name_fields, nested_field, row_fields};
ghost use Rattle.showing.specs.Shown.{IsReadable, seen};

use crate::cell::{Cell, cell_at};
use crate::digits::write_hex;
use crate::json::write_json;
use crate::number::write_number;
use crate::text::write_field;
use arrays::Column;
use schema_meta::Field;
use std::io;
use std::io::Write;

/// How a quote is written between quotes.
const DOUBLED: &str = "\"\"";

/// Writes bytes as a field: hexadecimal digits, or an empty text for none.
fn write_bytes<W: Write>(out: &mut W, bytes: &[u8]) -> io::Result<()>
    ensures { OnOk result (Appends (W.contents out.old) (W.contents out.new) (bytes_field bytes.now)) }
{
    if bytes.is_empty() {
        return write_field(out, bytes);
    }
    write_hex(out, bytes)
}

/// Writes a list or a struct as a field: JSON between quotes.
#[tactic(auto, using(crate::proofs::WrittenTexts::appends))]
fn write_nested<W: Write>(out: &mut W, field: &Field, cell: Cell) -> io::Result<()>
    requires { IsReadable cell }
    ensures { OnOk result (Appends (W.contents out.old) (W.contents out.new)
        (nested_field field.now (seen cell.entry))) }
{
    out.write_all(b"\"")?;
    write_json(out, DOUBLED, field, cell)?;
    out.write_all(b"\"")
}

/// Writes a cell as a field; nothing for a null.
fn write_cell<W: Write>(out: &mut W, field: &Field, cell: Cell) -> io::Result<()>
    requires { IsReadable cell }
    ensures { OnOk result (Appends (W.contents out.old) (W.contents out.new) (cell_field field.now (seen cell.entry))) }
{
    match cell {
        Cell::Null => Ok(()),
        Cell::Bool(truth) => write!(out, "{truth}"),
        Cell::Int(number) => write_number(out, &field.stored, number),
        Cell::Utf8(text) => write_field(out, text.as_bytes()),
        Cell::Binary(bytes) => write_bytes(out, bytes),
        _ => write_nested(out, field, cell),
    }
}

/// Writes the line of the columns' names (RFC 4180, section 2): each as a field, with a comma between each two, and a
/// line feed. Where the writer fails, some of it may have been written.
pub fn write_csv_names<W: Write>(fields: &[Field], out: &mut W) -> io::Result<()>
    ensures { OnOk result (Appends (W.contents out.old) (W.contents out.new) (line (name_fields fields.now))) }
{
    let mut comma = "";
    for field in fields {
        write!(out, "{comma}")?;
        write_field(out, field.name.as_bytes())?;
        comma = ",";
    }
    out.write_all(b"\n")
}

/// Writes the line of a row (RFC 4180, section 2): the cells of some columns at one index, each as a field, with a
/// comma between each two, and a line feed. Where the writer fails, some of it may have been written.
pub fn write_csv_row<W: Write>(
    fields: &[Field],
    columns: &[Column],
    row: usize,
    out: &mut W,
) -> io::Result<()>
    requires { All (λ c. row < length c.cells) columns.now }
    ensures { OnOk result (Appends (W.contents out.old) (W.contents out.new)
        (line (row_fields fields.now columns.now row))) }
{
    let mut fields = fields;
    let mut comma = "";
    for column in columns {
        let Some((field, rest)) = fields.split_first() else {
            break;
        };
        write!(out, "{comma}")?;
        write_cell(out, field, cell_at(column, row))?;
        fields = rest;
        comma = ",";
    }
    out.write_all(b"\n")
}
