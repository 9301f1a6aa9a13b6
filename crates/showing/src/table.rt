//! Tables for a terminal.

ghost use Rattle.std.specs.Prelude.{
  ◌≡◌,
  ◌<◌,
  ◌≤◌,
  [],
  All,
  IfOk,
  IsTrue,
  OnOk,
  get_or,
  length,
  min,
  replicate,
};
ghost use Rattle.std.specs.Io.KnownBytes.{Appends};
ghost use Rattle.showing.specs.Fields.{entry};
ghost use Rattle.showing.specs.Shown.{IsReadable, seen};
ghost use Rattle.showing.specs.Tables.{
  AreNameWidths,
  AreWider,
  IsAsWide,
  IsHead,
  IsNameWidth,
  IsRow,
  IsWider,
  IsWiderAt,
  PutsSlot,
  Writes,
  amount,
  cell_slot,
  cell_text,
  count_line,
  is_right,
  measured_rows,
  name_slot,
  rule,
  text_slot,
  width_of,
};
ghost use Rattle.showing.specs.Visible.{visible_text};

use crate::cell::{Cell, cell_at};
use crate::digits::write_hex;
use crate::json::write_json;
use crate::number::write_number;
use crate::short::Short;
use crate::visible::write_visible;
use arrays::Column;
use schema_meta::Field;
use std::alloc::{AllocError, Global};
use std::io;
use std::io::Write;
use values::ColType;

const QUOTE: &str = "\"";

/// The separator of the cells of a line.
const BAR: &str = " | ";

/// The separator of the dashes of columns.
const CROSS: &str = "-+-";

/// How many rows of a batch are measured.
const MEASURED_ROWS: usize = 1024;

/// Writes a cell for a terminal.
fn write_cell<W: Write>(out: &mut W, field: &Field, cell: Cell) -> io::Result<()>
    requires { IsReadable cell }
    ensures { OnOk result (Appends (W.contents out.old) (W.contents out.new) (cell_text field.now (seen cell.entry))) }
{
    match cell {
        Cell::Null => out.write_all(b"NULL"),
        Cell::Bool(truth) => write!(out, "{truth}"),
        Cell::Int(number) => write_number(out, &field.stored, number),
        Cell::Utf8(text) => write_visible(out, text),
        Cell::Binary(bytes) => write_hex(out, bytes),
        _ => write_json(out, QUOTE, field, cell),
    }
}

/// Whether cells of this type are right-aligned: numbers are.
fn is_number(stored: &ColType) -> bool
    ensures { result ≡ is_right stored.now }
{
    matches!(
        stored,
        ColType::Int { .. } | ColType::Decimal { .. } | ColType::Duration { .. }
    )
}

/// Writes a byte this many times.
fn write_run<W: Write>(out: &mut W, byte: u8, count: usize) -> io::Result<()>
    ensures { OnOk result (Appends (W.contents out.old) (W.contents out.new) (replicate count byte)) }
{
    for _i in 0..count {
        out.write_all(&[byte])?;
    }
    Ok(())
}

/// Writes a short text in a column of this width, aligned right or left. Returns how many spaces fill the column after
/// it.
fn write_placed<W: Write>(
    out: &mut W,
    text: &Short,
    width: usize,
    at_right: bool,
) -> io::Result<usize>
    ensures { IfOk result (PutsSlot (W.contents out.old) (W.contents out.new)
        (text_slot at_right width text.now.bytes.items)) }
{
    let gap = width.saturating_sub(text.width());
    if at_right {
        write_run(out, b' ', gap)?;
        out.write_all(text.bytes())?;
        return Ok(0);
    }
    out.write_all(text.bytes())?;
    Ok(gap)
}

/// Puts the name of a field into a short text. Returns whether it fits.
fn put_name(text: &mut Short, field: &Field) -> bool
    ensures { IsTrue result → text.new.bytes.items ≡ visible_text (entry field.now).name }
{
    text.clear();
    write_visible(text, &field.name).is_ok()
}

/// Puts a cell into a short text. Returns whether it fits.
fn put_cell(text: &mut Short, field: &Field, cell: Cell) -> bool
    requires { IsReadable cell }
    ensures { IsTrue result → text.new.bytes.items ≡ cell_text field.now (seen cell.entry) }
{
    text.clear();
    write_cell(text, field, cell).is_ok()
}

/// The width of the name of a field; 0 where it is too long to be measured.
fn name_width(text: &mut Short, field: &Field) -> usize
    ensures { IsNameWidth field.now result }
{
    if put_name(text, field) {
        text.width()
    } else {
        0
    }
}

/// The greater of a width and that of a cell, but for a cell that is too long to be measured.
fn wider(text: &mut Short, field: &Field, cell: Cell, width: usize) -> usize
    requires { IsReadable cell }
    ensures { IsAsWide field.now (seen cell.entry) width result }
{
    if put_cell(text, field, cell) {
        width.max(text.width())
    } else {
        width
    }
}

/// The greatest of a width and those of the first cells of a column, but for cells that are too long to be measured.
fn widest(text: &mut Short, field: &Field, column: &Column, rows: usize, width: usize) -> usize
    requires { rows ≤ length column.now.cells }
    ensures { IsWider field.now column.now rows width result }
{
    let mut most = width;
    for row in 0..rows {
        most = wider(text, field, cell_at(column, row), most);
    }
    most
}

/// Writes the name of a column. Returns how many spaces fill the column after it.
fn write_name<W: Write>(
    text: &mut Short,
    field: &Field,
    width: usize,
    out: &mut W,
) -> io::Result<usize>
    ensures { IfOk result (PutsSlot (W.contents out.old) (W.contents out.new) (name_slot width field.now)) }
{
    if put_name(text, field) {
        return write_placed(out, text, width, is_number(&field.stored));
    }
    write_visible(out, &field.name)?;
    Ok(0)
}

/// Writes a cell of a column. Returns how many spaces fill the column after it.
fn write_in_column<W: Write>(
    text: &mut Short,
    field: &Field,
    cell: Cell,
    width: usize,
    out: &mut W,
) -> io::Result<usize>
    requires { IsReadable cell }
    ensures { IfOk result (PutsSlot (W.contents out.old) (W.contents out.new)
        (cell_slot width field.now (seen cell.entry))) }
{
    if put_cell(text, field, cell) {
        return write_placed(out, text, width, is_number(&field.stored));
    }
    write_cell(out, field, cell)?;
    Ok(0)
}

/// The columns of a table with their widths in characters, as far as these are known.
///
/// They grow with what is measured. A cell that is longer than its column makes its own line longer.
#[derive(Drop)]
pub struct Table {
    widths: Vec<usize>,
    // The name or the cell that is measured or written.
    text: Short,
}

impl Table {
    /// A table whose columns are as wide as their names.
    ///
    /// A name that is longer than 128 bytes isn't measured: the width of its column is 0. The error is want of memory.
    pub fn new(alloc: Global, fields: &[Field]) -> Result<Table, AllocError>
        ensures { IfOk result (λ t. AreNameWidths fields.now t.widths.items) }
    {
        let mut text = Short::new(alloc)?;
        let mut widths = Vec::with_capacity(alloc, fields.len())?;
        for field in fields {
            widths.push(name_width(&mut text, field))?;
        }
        Ok(Table { widths, text })
    }

    /// The width of a column.
    fn width(&self, place: usize) -> usize
        ensures { result ≡ get_or self.now.widths.items place 0 }
    {
        self.widths.get(place).copied().unwrap_or(0)
    }

    /// Widens the columns for the first `rows` cells of each, but of no more than 1,024.
    pub fn measure(&mut self, fields: &[Field], columns: &[Column], rows: usize)
        requires { All (λ c. rows ≤ length c.cells) columns.now }
        ensures { AreWider fields.now columns.now (min rows measured_rows) self.old.widths.items self.new.widths.items }
    {
        for (place, column) in columns.iter().enumerate() {
            let Some(field) = fields.get(place) else {
                break;
            };
            self.widen(place, field, column, rows.min(MEASURED_ROWS));
        }
    }

    /// Widens a column for its first cells.
    fn widen(&mut self, place: usize, field: &Field, column: &Column, rows: usize)
        requires { rows ≤ length column.now.cells }
        ensures { IsWiderAt place field.now column.now rows self.old.widths.items self.new.widths.items }
    {
        if place < self.widths.len() {
            let width = self.widths[place];
            self.widths[place] = widest(&mut self.text, field, column, rows, width);
        }
    }

    /// Writes the line of the columns' names, and one of dashes.
    ///
    /// The names are in the order of the columns with a bar between each two, and those of numbers and durations are
    /// right-aligned. Where the writer fails, some of it may have been written.
    pub fn write_names<W: Write>(&mut self, fields: &[Field], out: &mut W) -> io::Result<()>
        ensures widths { self.new.widths.items ≡ self.old.widths.items }
        ensures lines { OnOk result (Writes (W.contents out.old) (W.contents out.new)
            (IsHead self.old.widths.items fields.now)) }
    {
        let mut gap = 0;
        let mut bar = "";
        for (place, field) in fields.iter().enumerate() {
            write_run(out, b' ', gap)?;
            write!(out, "{bar}")?;
            let width = self.width(place);
            gap = write_name(&mut self.text, field, width, out)?;
            bar = BAR;
        }
        out.write_all(b"\n")?;
        self.write_rule(out)
    }

    /// Writes a line of dashes.
    fn write_rule<W: Write>(&self, out: &mut W) -> io::Result<()>
        ensures { OnOk result (Appends (W.contents out.old) (W.contents out.new) (rule self.now.widths.items)) }
    {
        let mut cross = "";
        for width in &self.widths {
            write!(out, "{cross}")?;
            write_run(out, b'-', *width)?;
            cross = CROSS;
        }
        out.write_all(b"\n")
    }

    /// Writes the line of a row, the cells of some columns at one index.
    ///
    /// They are in the order of the columns with a bar between each two, and numbers and durations are right-aligned.
    /// Where the writer fails, some of it may have been written.
    pub fn write_row<W: Write>(
        &mut self,
        fields: &[Field],
        columns: &[Column],
        row: usize,
        out: &mut W,
    ) -> io::Result<()>
        requires { All (λ c. row < length c.cells) columns.now }
        ensures widths { self.new.widths.items ≡ self.old.widths.items }
        ensures line { OnOk result (Writes (W.contents out.old) (W.contents out.new)
            (IsRow self.old.widths.items fields.now columns.now row)) }
    {
        let mut fields = fields;
        let mut gap = 0;
        let mut bar = "";
        for (place, column) in columns.iter().enumerate() {
            let Some((field, rest)) = fields.split_first() else {
                break;
            };
            write_run(out, b' ', gap)?;
            write!(out, "{bar}")?;
            let width = self.width(place);
            gap = write_in_column(&mut self.text, field, cell_at(column, row), width, out)?;
            fields = rest;
            bar = BAR;
        }
        out.write_all(b"\n")
    }
}

/// Writes how many rows were shown, and of how many.
fn write_amount<W: Write>(shown: u64, rows: u64, out: &mut W) -> io::Result<()>
    ensures { OnOk result (Appends (W.contents out.old) (W.contents out.new) (amount shown rows)) }
{
    if shown == rows {
        write!(out, "{rows}")
    } else {
        write!(out, "{shown} of {rows}")
    }
}

/// Writes the line that ends a table: how many rows were shown, and of how many. Where the writer fails, some of it may
/// have been written.
#[tactic(auto, using(crate::proofs::WrittenTexts::appends))]
pub fn write_count<W: Write>(shown: u64, rows: u64, out: &mut W) -> io::Result<()>
    ensures { OnOk result (Appends (W.contents out.old) (W.contents out.new) (count_line shown rows)) }
{
    out.write_all(b"(")?;
    write_amount(shown, rows, out)?;
    out.write_all(if rows == 1 { b" row)\n" } else { b" rows)\n" })
}
