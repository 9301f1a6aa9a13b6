//! Lists and structs as JSON.
//!
//! A quote is written as `quote`, so that the text can be a field of CSV, where quotes are doubled.

ghost use Rattle.std.specs.Prelude.{◌≡◌, ◌++◌, ◌-◌, ◌∷◌, [], OnOk, codes, flat_map};
ghost use Rattle.std.specs.Io.KnownBytes.{Appends};
ghost use Rattle.std.specs.Str.{chars};
ghost use Rattle.values.specs.Datum.{items_of};
ghost use Rattle.values.specs.Rose.{kids_of, more, none};
ghost use Rattle.showing.specs.Digits.{hex_text};
ghost use Rattle.showing.specs.Joined.{joined};
ghost use Rattle.showing.specs.Json.{
  four_digits,
  items_of_first,
  json,
  json_char,
  json_number,
  json_object,
  json_string,
};
ghost use Rattle.showing.specs.Shown.{AreItems, AreMembers, IsReadable, items_in, row_items, seen};

use crate::cell::{Cell, Items, array_cell, value_cell};
use crate::digits::write_hex;
use crate::number::write_number;
use crate::visible::is_hidden;
use array_layout::Array;
use schema_meta::Field;
use std::io;
use std::io::Write;
use values::{ColType, Value};

/// Writes a character that a terminal must not see by its number.
fn write_number_of<W: Write>(out: &mut W, c: char) -> io::Result<()>
    ensures { OnOk result (Appends (W.contents out.old) (W.contents out.new) (codes "\\u" ++ four_digits c)) }
{
    let number = u32::from(c);
    write!(out, "\\u{number:04x}")
}

fn write_char<W: Write>(out: &mut W, quote: &str, c: char) -> io::Result<()>
    ensures { OnOk result (Appends (W.contents out.old) (W.contents out.new) (json_char quote.now c)) }
{
    match c {
        '"' => write!(out, "\\{quote}"),
        '\\' => out.write_all(b"\\\\"),
        '\n' => out.write_all(b"\\n"),
        '\r' => out.write_all(b"\\r"),
        '\t' => out.write_all(b"\\t"),
        c if is_hidden(c) => write_number_of(out, c),
        c => write!(out, "{c}"),
    }
}

/// Writes the characters of a JSON string.
fn write_chars<W: Write>(out: &mut W, quote: &str, text: &str) -> io::Result<()>
    ensures { OnOk result (Appends (W.contents out.old) (W.contents out.new)
        (flat_map (json_char quote.now) (chars text.now))) }
{
    for c in text.chars() {
        write_char(out, quote, c)?;
    }
    Ok(())
}

/// Writes a text as a JSON string.
#[tactic(auto, using(crate::proofs::WrittenTexts::appends))]
fn write_string<W: Write>(out: &mut W, quote: &str, text: &str) -> io::Result<()>
    ensures { OnOk result (Appends (W.contents out.old) (W.contents out.new) (json_string quote.now text.now)) }
{
    write!(out, "{quote}")?;
    write_chars(out, quote, text)?;
    write!(out, "{quote}")
}

/// Writes a number: a whole number as one of JSON, and any other as a string.
#[tactic(auto, using(crate::proofs::WrittenTexts::appends))]
fn write_json_number<W: Write>(
    out: &mut W,
    quote: &str,
    stored: &ColType,
    number: i128,
) -> io::Result<()>
    ensures { OnOk result (Appends (W.contents out.old) (W.contents out.new)
        (json_number quote.now stored.now number)) }
{
    if let ColType::Int { .. } = stored {
        return write!(out, "{number}");
    }
    write!(out, "{quote}")?;
    write_number(out, stored, number)?;
    write!(out, "{quote}")
}

#[tactic(auto, using(crate::proofs::WrittenTexts::appends))]
fn write_json_bytes<W: Write>(out: &mut W, quote: &str, bytes: &[u8]) -> io::Result<()>
    ensures { OnOk result (Appends (W.contents out.old) (W.contents out.new)
        (quote.now ++ (hex_text bytes.now ++ quote.now))) }
{
    write!(out, "{quote}")?;
    write_hex(out, bytes)?;
    write!(out, "{quote}")
}

/// Writes a cell of a field.
#[cycle(json)]
pub(crate) fn write_json<W: Write>(
    out: &mut W,
    quote: &str,
    field: &Field,
    cell: Cell,
) -> io::Result<()>
    requires { IsReadable cell }
    ensures { OnOk result (Appends (W.contents out.old) (W.contents out.new)
        (json quote.now field.now (seen cell.entry))) }
{
    match cell {
        Cell::Null => out.write_all(b"null"),
        Cell::Bool(truth) => write!(out, "{truth}"),
        Cell::Int(number) => write_json_number(out, quote, &field.stored, number),
        Cell::Utf8(text) => write_string(out, quote, text),
        Cell::Binary(bytes) => write_json_bytes(out, quote, bytes),
        Cell::List(items) => write_list(out, quote, &field.children, items),
        Cell::Struct(members) => write_struct(
            out,
            quote,
            &field.children,
            members.body,
            members.arrays,
            members.at,
        ),
        Cell::HeldList(values) => write_held_list(out, quote, &field.children, values),
        Cell::HeldStruct(values) => write_held_struct(out, quote, &field.children, values),
    }
}

/// Writes the items of a list, which are cells of the first of some fields.
#[cycle(json)]
fn write_list<W: Write>(out: &mut W, quote: &str, fields: &[Field], items: Items) -> io::Result<()>
    requires { AreItems items.body.now items.array.now items.from items.to }
    ensures { OnOk result (Appends (W.contents out.old) (W.contents out.new)
        (codes "[" ++ (joined (codes ",") (items_of_first quote.now (kids_of fields.now) (items_in items.entry))
        ++ codes "]"))) }
{
    let Some(field) = fields.first() else {
        return out.write_all(b"[]");
    };
    out.write_all(b"[")?;
    write_items(out, quote, field, items)?;
    out.write_all(b"]")
}

#[cycle(json)]
#[tactic(auto, using(arrays::proofs::CopyLemmas::left_laws))]
fn write_items<W: Write>(out: &mut W, quote: &str, field: &Field, items: Items) -> io::Result<()>
    requires { AreItems items.body.now items.array.now items.from items.to }
    ensures { OnOk result (Appends (W.contents out.old) (W.contents out.new)
        (joined (codes ",") (items_of_first quote.now (more field.now none) (items_in items.entry)))) }
{
    let Items {
        body,
        array,
        from,
        to,
    } = items;
    let mut comma = "";
    for i in from..to {
        write!(out, "{comma}")?;
        write_json(out, quote, field, array_cell(body, array, i))?;
        comma = ",";
    }
    Ok(())
}

/// Writes the children of a struct, the cells at one index of some arrays.
#[cycle(json)]
#[tactic(auto, using(crate::proofs::Members::members))]
fn write_struct<W: Write>(
    out: &mut W,
    quote: &str,
    fields: &[Field],
    body: &[u8],
    arrays: &[Array],
    at: usize,
) -> io::Result<()>
    requires { AreMembers body.now (kids_of arrays.now) at }
    ensures { OnOk result (Appends (W.contents out.old) (W.contents out.new)
        (json_object quote.now (kids_of fields.now) (row_items body.now (kids_of arrays.now) at))) }
{
    out.write_all(b"{")?;
    let mut arrays = arrays;
    let mut comma = "";
    for field in fields {
        let Some((array, rest)) = arrays.split_first() else {
            break;
        };
        write!(out, "{comma}")?;
        write_string(out, quote, &field.name)?;
        out.write_all(b":")?;
        write_json(out, quote, field, array_cell(body, array, at))?;
        arrays = rest;
        comma = ",";
    }
    out.write_all(b"}")
}

/// Writes the items of a list that is a value.
#[cycle(json)]
fn write_held_list<W: Write>(
    out: &mut W,
    quote: &str,
    fields: &[Field],
    items: &[Value],
) -> io::Result<()>
    ensures { OnOk result (Appends (W.contents out.old) (W.contents out.new)
        (codes "[" ++ (joined (codes ",") (items_of_first quote.now (kids_of fields.now)
        (items_of items.now)) ++ codes "]"))) }
{
    let Some(field) = fields.first() else {
        return out.write_all(b"[]");
    };
    out.write_all(b"[")?;
    write_held_items(out, quote, field, items)?;
    out.write_all(b"]")
}

#[cycle(json)]
fn write_held_items<W: Write>(
    out: &mut W,
    quote: &str,
    field: &Field,
    items: &[Value],
) -> io::Result<()>
    ensures { OnOk result (Appends (W.contents out.old) (W.contents out.new)
        (joined (codes ",") (items_of_first quote.now (more field.now none) (items_of items.now)))) }
{
    let mut comma = "";
    for item in items {
        write!(out, "{comma}")?;
        write_json(out, quote, field, value_cell(item))?;
        comma = ",";
    }
    Ok(())
}

/// Writes the children of a struct that is a value.
#[cycle(json)]
#[tactic(auto, using(crate::proofs::Members::members))]
fn write_held_struct<W: Write>(
    out: &mut W,
    quote: &str,
    fields: &[Field],
    cells: &[Value],
) -> io::Result<()>
    ensures { OnOk result (Appends (W.contents out.old) (W.contents out.new)
        (json_object quote.now (kids_of fields.now) (items_of cells.now))) }
{
    out.write_all(b"{")?;
    let mut cells = cells;
    let mut comma = "";
    for field in fields {
        let Some((cell, rest)) = cells.split_first() else {
            break;
        };
        write!(out, "{comma}")?;
        write_string(out, quote, &field.name)?;
        out.write_all(b":")?;
        write_json(out, quote, field, value_cell(cell))?;
        cells = rest;
        comma = ",";
    }
    out.write_all(b"}")
}
