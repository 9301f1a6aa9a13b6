//! Laws of the definitions, each the contract of a function that does nothing.

ghost use Rattle.stream_writer.specs.BatchLaw.{BatchLaw, CodedBatchLaw, NoneCodedBatch};
ghost use Rattle.stream_writer.specs.ClosedBatches.{ClosedLaw};
ghost use Rattle.stream_writer.specs.CutLaw.{CutLaw};
ghost use Rattle.stream_writer.specs.DictionaryLaw.{
  AreTheTexts,
  BeginAlike,
  DictionaryLaw,
  DifferInPairs,
  NameTheirTexts,
  SampleIsNumbered,
  ValuesLaw,
};
ghost use Rattle.stream_writer.specs.FramingLaw.{FirstLaw, LastLaw};
ghost use Rattle.stream_writer.specs.RoundTrip.{
  CodedMeansItsTable,
  CodedTrip,
  DeclaredCodedMeansItsTable,
  DeclaredCodedTrip,
  DeclaredMeansItsTable,
  DeclaredTrip,
  MeansItsTable,
  RoundTrip,
};
ghost use Rattle.stream_writer.specs.RowsLaw.{CodedRowsLaw, RowsLaw};

/// The batches of a table, joined, are its rows. Each is within the limits on rows and weight, and none has room for
/// the next row.
pub fn cut_law()
    ensures { CutLaw }
{}

/// Whatever rows come later, the closed batches of the rows so far are the first batches of the whole table; also where
/// some columns are coded. Fewer than 1,024 rows are in none of them, and are within the limit on weight.
pub fn closed_law()
    ensures { ClosedLaw }
{}

/// The metadata that is written of a batch is read under its schema with no fault, as its number of rows, its nodes and
/// its buffer ranges; also where some columns are coded. Where none is, a batch is its record batch alone.
pub fn batch_law()
    ensures plain { BatchLaw }
    ensures coded { CodedBatchLaw }
    ensures none { NoneCodedBatch }
{}

/// The values of the dictionary that is written of a coded column are the texts of its cells in the batch, no two of
/// them equal, in order of first appearance; the index of a cell is the position of its text.
pub fn values_law()
    ensures texts { AreTheTexts }
    ensures different { DifferInPairs }
    ensures order { BeginAlike }
    ensures indices { NameTheirTexts }
    ensures sample { SampleIsNumbered }
{}

/// The dictionary batch that is written of a coded column is read under its schema with no fault: its metadata as the
/// column's dictionary, anew and not as a delta, and its body as the values.
pub fn dictionary_law()
    ensures header { DictionaryLaw }
    ensures values { ValuesLaw }
{}

/// A written message whose metadata has no fault is found complete at the front of bytes, whatever follows it, and so
/// is the end mark.
pub fn framing_law()
    ensures first { FirstLaw }
    ensures last { LastLaw }
{}

/// The body that is written for rows whose cells are of their columns' types is read, by the header that
/// is written for it, as those rows; also where some columns are coded, with the dictionaries of that batch.
pub fn rows_law()
    ensures plain { RowsLaw }
    ensures coded { CodedRowsLaw }
{}

/// The canonical stream of each table within the limits is read as that table: its columns, its rows in
/// order, and an end without fault; also where its columns were declared for the stream. `means` says
/// so of the columns' names and types, `alone` of how they are stored too.
pub fn canon_law()
    ensures means { MeansItsTable }
    ensures declared_means { DeclaredMeansItsTable }
    ensures alone { RoundTrip }
    ensures declared { DeclaredTrip }
{}

/// The canonical stream of each table within the limits, with some columns of texts coded, is read as that table; also
/// where its columns were declared for the stream. `alone` and `declared` say so of how the columns are stored too.
pub fn coded_law()
    ensures means { CodedMeansItsTable }
    ensures declared_means { DeclaredCodedMeansItsTable }
    ensures alone { CodedTrip }
    ensures declared { DeclaredCodedTrip }
{}
