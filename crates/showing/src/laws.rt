//! Laws of the definitions: each is the contract of a function that does nothing.

ghost use Rattle.showing.specs.Reading.{FieldsAreRead, QuotedAreRead, TextsAreNoNulls};

/// The field of a text, where a comma, a line break or nothing follows it, is read back as that text (RFC 4180, section
/// 2); so is the field of a list or a struct as its JSON. The field of a text has a byte, that of a null has none.
#[tactic(auto, using(crate::proofs::ReadingLemmas::reading))]
pub fn csv_law()
    ensures read { FieldsAreRead }
    ensures quoted { QuotedAreRead }
    ensures apart { TextsAreNoNulls }
{}
