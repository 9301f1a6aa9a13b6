//! The lines that `inspect` prints for events.

ghost use Rattle.std.specs.Prelude.{◌≡◌, ◌++◌, OnOk, string_bytes};
ghost use Rattle.std.specs.Option.{option_map};
ghost use Rattle.feed.specs.Shown.{event_seen};
ghost use Rattle.liveviews.specs.Lines.{
  batch_line,
  count_line,
  dictionary_line,
  encoding_text,
  ended_after,
  event_lines,
  field_line,
  fields_lines,
  given_lines,
  schema_lines,
};

use crate::inspecting::types::write_type;
use feed::{Fed, FeedEvent};
use schema_meta::{DictionaryEncoding, Field, StreamSchema};
use std::alloc::AllocError;

/// Writes ` dict=` and the id of a column's dictionary, if it has one.
fn write_encoding(text: &mut String, encoding: Option<DictionaryEncoding>) -> Result<(), AllocError>
    ensures { OnOk result (string_bytes text.new ≡ string_bytes text.old ++ encoding_text encoding) }
{
    match encoding {
        None => Ok(()),
        Some(DictionaryEncoding { id, .. }) => write!(text, " dict={id}"),
    }
}

fn write_field(text: &mut String, field: &Field) -> Result<(), AllocError>
    ensures { OnOk result (string_bytes text.new ≡ string_bytes text.old ++ field_line field.now) }
{
    let name = field.name.as_str();
    write!(text, "field {name} ")?;
    write_type(text, field)?;
    write_encoding(text, field.encoding)?;
    text.push_str("\n")
}

fn write_fields(text: &mut String, fields: &[Field]) -> Result<(), AllocError>
    ensures { OnOk result (string_bytes text.new ≡ string_bytes text.old ++ fields_lines fields.now) }
{
    for field in fields {
        write_field(text, field)?;
    }
    Ok(())
}

fn write_count(text: &mut String, fields: usize) -> Result<(), AllocError>
    ensures { OnOk result (string_bytes text.new ≡ string_bytes text.old ++ count_line fields) }
{
    writeln!(text, "schema fields={fields}")
}

fn write_schema(text: &mut String, schema: &StreamSchema) -> Result<(), AllocError>
    ensures { OnOk result (string_bytes text.new ≡ string_bytes text.old ++ schema_lines schema.now.fields.items) }
{
    write_count(text, schema.fields.len())?;
    write_fields(text, &schema.fields)
}

fn write_dictionary(
    text: &mut String,
    id: i64,
    delta: bool,
    values: usize,
) -> Result<(), AllocError>
    ensures { OnOk result (string_bytes text.new ≡ string_bytes text.old ++ dictionary_line id delta values) }
{
    write!(text, "dictionary id={id}")?;
    write!(text, " delta={delta}")?;
    writeln!(text, " values={values}")
}

fn write_batch(text: &mut String, rows: usize, body: usize) -> Result<(), AllocError>
    ensures { OnOk result (string_bytes text.new ≡ string_bytes text.old ++ batch_line rows body) }
{
    writeln!(text, "batch rows={rows} body={body}")
}

fn write_event(text: &mut String, event: &FeedEvent) -> Result<(), AllocError>
    ensures { OnOk result (string_bytes text.new ≡ string_bytes text.old ++ event_lines (event_seen event.now)) }
{
    match event {
        FeedEvent::Schema(schema) => write_schema(text, schema),
        FeedEvent::Dictionary { id, delta, values } => {
            write_dictionary(text, *id, *delta, *values)
        }
        FeedEvent::Batch { rows, body, .. } => write_batch(text, *rows, *body),
        FeedEvent::End => text.push_str("end\n"),
    }
}

/// Writes the lines of a message, if there is one.
pub(crate) fn write_fed(text: &mut String, fed: &Fed) -> Result<(), AllocError>
    ensures { OnOk result (string_bytes text.new ≡ string_bytes text.old
        ++ given_lines (option_map event_seen fed.now.event)) }
{
    match &fed.event {
        None => Ok(()),
        Some(event) => write_event(text, event),
    }
}

/// Whether the end mark has come: before, or with this push.
pub(crate) fn is_ended(before: bool, fed: &Fed) -> bool
    ensures { result ≡ ended_after before (option_map event_seen fed.now.event) }
{
    match &fed.event {
        None => before,
        Some(event) => matches!(event, FeedEvent::End),
    }
}
