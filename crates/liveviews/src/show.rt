//! `show`: prints the rows of a stream, as a table or as CSV.

ghost use Rattle.std.specs.Prelude.{◌≡◌, ◌<◌, ◌≤◌, ◌++◌, ℕ, List, [], All, IfErr, IfOk, IfSome, OnOk, drop, length};
ghost use Rattle.liveviews.specs.Inspect.{Account, account_of};
ghost use Rattle.liveviews.specs.Showing.{HasCells, HasPassed, IsFault, IsShown, Remains};
ghost use Rattle.liveviews.specs.Source.{OfSource};
ghost use Rattle.liveviews.specs.Steps.{IsOpen};

use crate::files::FileFault;
use crate::laws::account_law;
use crate::reading::pieces::{next_piece, room};
use arrays::Column;
use feed::{Fed, Feed, FeedEvent, cut_law, pieces_law};
use schema_meta::Field;
use showing::{Table, write_count, write_csv_names, write_csv_row};
use std::alloc::{AllocError, Global};
use std::io;
use std::io::{BufWriter, Read, Write};
use values::StreamFault;

/// How rows are printed.
#[derive(Clone, Copy, Debug, PartialEq, Eq)]
pub(crate) enum Form {
    Table,
    Csv,
}

/// Why rows could not be printed.
#[derive(Clone, Copy, Debug)]
pub(crate) enum PrintFault {
    /// The output failed.
    Unprinted,
    /// Memory was refused.
    Memory,
}

impl From<io::Error> for PrintFault {
    fn from(_error: io::Error) -> PrintFault {
        PrintFault::Unprinted
    }
}

impl From<AllocError> for PrintFault {
    fn from(_refused: AllocError) -> PrintFault {
        PrintFault::Memory
    }
}

/// Why a stream was not shown whole. What was printed before stays.
#[derive(Clone, Copy, Debug)]
pub(crate) enum ShowFault {
    /// The source can't be read, or memory for that was refused.
    Source(FileFault),
    /// The stream has a fault, or memory for reading it was refused.
    Stream(StreamFault),
    Print(PrintFault),
}

impl From<FileFault> for ShowFault {
    ghost use Rattle.std.specs.Prelude.{◌≡◌};
    ghost use Rattle.liveviews.specs.declared.show.ShowFault.TheVariants.{Source};

    ghost from_gives = { λ fault e. e ≡ Source fault };

    fn from(fault: FileFault) -> ShowFault {
        ShowFault::Source(fault)
    }
}

impl From<StreamFault> for ShowFault {
    ghost use Rattle.std.specs.Prelude.{◌≡◌};
    ghost use Rattle.liveviews.specs.declared.show.ShowFault.TheVariants.{Stream};

    ghost from_gives = { λ fault e. e ≡ Stream fault };

    fn from(fault: StreamFault) -> ShowFault {
        ShowFault::Stream(fault)
    }
}

impl From<PrintFault> for ShowFault {
    ghost use Rattle.std.specs.Prelude.{◌≡◌};
    ghost use Rattle.liveviews.specs.declared.show.ShowFault.TheVariants.{Print};

    ghost from_gives = { λ fault e. e ≡ Print fault };

    fn from(fault: PrintFault) -> ShowFault {
        ShowFault::Print(fault)
    }
}

/// The rows of a stream that were read so far, and how they are printed.
#[derive(Drop)]
struct Rows {
    alloc: Global,
    form: Form,
    /// How many rows are printed at most.
    most: u64,
    /// How many rows were read.
    count: u64,
    /// The table, once the names of its columns are printed.
    table: Option<Table>,
}

impl Rows {
    /// No rows yet, of which at most `most` are to be printed.
    fn new(alloc: Global, form: Form, most: u64) -> Rows {
        Rows {
            alloc,
            form,
            most,
            count: 0,
            table: None,
        }
    }

    /// Prints the names of the columns of CSV. Those of a table come with its first rows, on whose widths they depend.
    fn begin<W: Write>(&self, fields: &[Field], out: &mut W) -> Result<(), PrintFault> {
        if self.form == Form::Csv {
            write_csv_names(fields, out)?;
        }
        Ok(())
    }

    /// The table, wide enough for the first `rows` rows of a batch. The names of its columns are printed before its
    /// first rows.
    fn table<W: Write>(
        &mut self,
        fields: &[Field],
        columns: &[Column],
        rows: usize,
        out: &mut W,
    ) -> Result<Table, PrintFault>
        requires { All (λ c. rows ≤ length c.cells) columns.now }
    {
        if let Some(mut table) = self.table.take() {
            table.measure(fields, columns, rows);
            return Ok(table);
        }
        let mut table = Table::new(self.alloc, fields)?;
        table.measure(fields, columns, rows);
        table.write_names(fields, out)?;
        Ok(table)
    }

    /// Prints the first `rows` rows of a batch, at least one, as lines of a table.
    fn print_table<W: Write>(
        &mut self,
        fields: &[Field],
        columns: &[Column],
        rows: usize,
        out: &mut W,
    ) -> Result<(), PrintFault>
        requires { All (λ c. rows ≤ length c.cells) columns.now }
    {
        let mut table = self.table(fields, columns, rows, out)?;
        print_rows(&mut table, fields, columns, rows, out)?;
        self.table = Some(table);
        Ok(())
    }

    /// Prints the first `rows` rows of a batch.
    fn print<W: Write>(
        &mut self,
        fields: &[Field],
        columns: &[Column],
        rows: usize,
        out: &mut W,
    ) -> Result<(), PrintFault>
        requires { All (λ c. rows ≤ length c.cells) columns.now }
    {
        match self.form {
            Form::Csv => print_csv(fields, columns, rows, out),
            Form::Table if rows == 0 => Ok(()),
            Form::Table => self.print_table(fields, columns, rows, out),
        }
    }

    /// Reads a batch of `rows` rows, and prints as many of them as are still to be printed.
    #[tactic(auto, using(crate::proofs::Shows::rows_of))]
    fn take<W: Write>(
        &mut self,
        fields: &[Field],
        columns: &[Column],
        rows: usize,
        out: &mut W,
    ) -> Result<(), PrintFault>
        requires { All (λ c. length c.cells ≡ rows) columns.now }
    {
        let left = self.most.saturating_sub(self.count);
        self.count = self.count.saturating_add(rows as u64);
        let shown = left.min(rows as u64) as usize;
        self.print(fields, columns, shown, out)
    }

    /// Prints the end of a table: the names of its columns where no row was printed, and the line of the count.
    fn end<W: Write>(&self, fields: &[Field], out: &mut W) -> Result<(), PrintFault> {
        if self.form == Form::Csv {
            return Ok(());
        }
        if self.table.is_none() {
            let mut table = Table::new(self.alloc, fields)?;
            table.write_names(fields, out)?;
        }
        write_count(self.most.min(self.count), self.count, out)?;
        Ok(())
    }
}

/// Prints the first `rows` rows of a batch as lines of a table.
#[tactic(auto, using(crate::proofs::Shows::rows_of))]
fn print_rows<W: Write>(
    table: &mut Table,
    fields: &[Field],
    columns: &[Column],
    rows: usize,
    out: &mut W,
) -> Result<(), PrintFault>
    requires { All (λ c. rows ≤ length c.cells) columns.now }
{
    for row in 0..rows {
        table.write_row(fields, columns, row, out)?;
    }
    Ok(())
}

/// Prints the first `rows` rows of a batch as CSV.
#[tactic(auto, using(crate::proofs::Shows::rows_of))]
fn print_csv<W: Write>(
    fields: &[Field],
    columns: &[Column],
    rows: usize,
    out: &mut W,
) -> Result<(), PrintFault>
    requires { All (λ c. rows ≤ length c.cells) columns.now }
{
    for row in 0..rows {
        write_csv_row(fields, columns, row, out)?;
    }
    Ok(())
}

/// A stream that is being shown.
#[derive(Drop)]
struct Showing {
    feed: Feed,
    rows: Rows,
}

impl Showing {
    /// Prints what an event shows.
    fn note<W: Write>(&mut self, event: Option<FeedEvent>, out: &mut W) -> Result<(), PrintFault>
        requires { IfSome event HasCells }
        ensures { self.new.feed ≡ self.old.feed }
    {
        let (Some(event), Some(schema)) = (event, self.feed.schema()) else {
            return Ok(());
        };
        match event {
            FeedEvent::Schema(_) => self.rows.begin(&schema.fields, out),
            FeedEvent::Batch { columns, rows, .. } => {
                self.rows.take(&schema.fields, &columns, rows, out)
            }
            FeedEvent::Dictionary { .. } => Ok(()),
            FeedEvent::End => Ok(()),
        }
    }

    /// Consumes the first message of a piece, or all of the piece where it ends before the message does, and returns
    /// how many bytes were used. The contract holds whatever bytes come after the piece.
    fn take<W: Write>(&mut self, piece: &[u8], out: &mut W) -> Result<usize, ShowFault>
        requires open { IsOpen self.old.feed }
        requires some { 0 < length piece.now }
        ensures open { OnOk result (IsOpen self.new.feed) }
        ensures used { IfOk result (λ n. (0 < n) × (n ≤ length piece.now)) }
        ensures left { IfOk result (λ n. (a : Account) (later : List ℕ) → Remains a self.old.feed (piece.now ++ later)
            → Remains a self.new.feed (drop n piece.now ++ later)) }
        ensures fault { IfErr result (λ e. (a : Account) (later : List ℕ)
            → Remains a self.old.feed (piece.now ++ later) → IsFault a e) }
    {
        // They do nothing: the proof takes from them that a push uses some bytes, and what it leaves.
        cut_law();
        pieces_law();
        let fed = self.feed.push(piece)?;
        let Fed { used, event } = fed;
        self.note(event, out)?;
        Ok(used)
    }

    /// Consumes all messages of a piece, and what it has of one more.
    fn take_all<W: Write>(&mut self, piece: &[u8], out: &mut W) -> Result<(), ShowFault>
        requires open { IsOpen self.old.feed }
        ensures open { OnOk result (IsOpen self.new.feed) }
        ensures left { OnOk result ((a : Account) (later : List ℕ) → Remains a self.old.feed (piece.now ++ later)
            → Remains a self.new.feed later) }
        ensures fault { IfErr result (λ e. (a : Account) (later : List ℕ)
            → Remains a self.old.feed (piece.now ++ later) → IsFault a e) }
    {
        let mut rest = piece;
        while !rest.is_empty() {
            let used = self.take(rest, out)?;
            rest = &rest[used..];
        }
        Ok(())
    }

    /// Consumes all messages of a source. What is printed of a piece is flushed before the next one is read.
    fn take_source<R: Read, W: Write>(
        &mut self,
        alloc: Global,
        source: &mut R,
        out: &mut W,
    ) -> Result<(), ShowFault>
        requires open { IsOpen self.old.feed }
        requires begins { (input : List ℕ) → Remains (account_of input) self.old.feed input }
        ensures open { OnOk result (IsOpen self.new.feed) }
        ensures passed { OfSource (R.remaining source.old) (HasPassed self.new.feed result) }
    {
        let mut room = match room(alloc) {
            Ok(room) => room,
            Err(_) => return Err(ShowFault::Source(FileFault::Memory)),
        };
        for _ in 0..u64::MAX {
            let len = match next_piece(source, &mut room, self.feed.missing()) {
                Ok(len) => len,
                Err(fault) => return Err(ShowFault::Source(fault)),
            };
            if len == 0 {
                return Ok(());
            }
            if let Err(fault) = self.take_all(&room[..len], out) {
                return Err(fault);
            }
            if out.flush().is_err() {
                return Err(ShowFault::Print(PrintFault::Unprinted));
            }
        }
        Err(ShowFault::Source(FileFault::Unusable))
    }

    /// Ends the input.
    fn finish(&mut self) -> Result<(), ShowFault>
        requires open { IsOpen self.old.feed }
        ensures valid { OnOk result ((input : List ℕ) → Remains (account_of input) self.old.feed []
            → IsShown result input) }
        ensures fault { IfErr result (λ e. (a : Account) → Remains a self.old.feed [] → IsFault a e) }
    {
        // They do nothing: the proof takes from them that there is no event where no byte remains, and that the stream
        // has a fault where its account ends with one.
        pieces_law();
        account_law();
        self.feed.finish()?;
        Ok(())
    }

    /// Prints the end of the rows.
    fn end<W: Write>(&mut self, out: &mut W) -> Result<(), PrintFault> {
        if let Some(schema) = self.feed.schema() {
            self.rows.end(&schema.fields, out)?;
        }
        out.flush()?;
        Ok(())
    }

    /// Ends the input, and prints the end of the rows.
    fn close<W: Write>(&mut self, out: &mut W) -> Result<(), ShowFault>
        requires open { IsOpen self.old.feed }
        ensures valid { OnOk result ((input : List ℕ) → Remains (account_of input) self.old.feed []
            → IsShown result input) }
        ensures fault { IfErr result (λ e. (a : Account) → Remains a self.old.feed [] → IsFault a e) }
    {
        match self.finish() {
            Ok(()) => match self.end(out) {
                Ok(()) => Ok(()),
                Err(fault) => Err(ShowFault::Print(fault)),
            },
            Err(fault) => {
                // The fault is reported also where the last rows can't be printed.
                let _ = out.flush();
                Err(fault)
            }
        }
    }
}

/// Prints the rows of the whole stream that a source holds, at most `most` of them, reading it piece by piece. Where
/// there is a fault, the rows before it were printed.
pub(crate) fn show_from<R: Read, W: Write>(
    alloc: Global,
    source: &mut R,
    form: Form,
    most: u64,
    out: &mut W,
) -> Result<(), ShowFault>
    ensures { OfSource (R.remaining source.old) (IsShown result) }
{
    // It does nothing: the proof takes from it that the stream has a fault where its account ends with one.
    account_law();
    let Ok(mut out) = BufWriter::new(alloc, out) else {
        return Err(ShowFault::Source(FileFault::Memory));
    };
    let mut showing = Showing {
        feed: Feed::open(alloc, None),
        rows: Rows::new(alloc, form, most),
    };
    match showing.take_source(alloc, source, &mut out) {
        Ok(()) => showing.close(&mut out),
        Err(fault) => {
            // The fault is reported also where the last rows can't be printed.
            let _ = out.flush();
            Err(fault)
        }
    }
}
