//! Writes a message's metadata.

ghost use Rattle.std.specs.Prelude.{◌≡◌, ◌<◌, None, Some, if◌then◌else◌, length, IfOk, OnOk};
ghost use Rattle.flatbuf.specs.Tree.{table};
ghost use Rattle.values.specs.Limits.{max_metadata_size};
ghost use Rattle.values.specs.Rose.{kids_of};
ghost use Rattle.flatbuf.specs.Written.{up, object_end, whole, IsWritable};
ghost use Rattle.flatbuf.specs.Built.{add, listed, slots};
ghost use Rattle.schema_meta.specs.MessageTree.{header_number, message_slots};
ghost use Rattle.values.specs.Coded.{is_coded};
ghost use Rattle.schema_meta.specs.SchemaTree.{
  column_tables as columns_of,
  dictionary_node,
  encoding_slots,
  field_tables as tables_of,
  schema_slots,
  schema_metadata,
  slots_of,
  AreColumns,
};

use crate::header::MessageKind;
use crate::message_fbs::{HEADER_DICTIONARY_BATCH, HEADER_RECORD_BATCH, HEADER_SCHEMA};
use field_types::schema_fbs::{DENSE_ARRAY, LITTLE_ENDIAN, V5};
use field_types::{type_number, type_table};
use flatbuf::{Builder, Tables};
use std::alloc::{AllocError, Global};
use values::{ColType, IntWidth, LogicalField, Schema};

fn number_of_header(kind: MessageKind) -> u8
    ensures { result ≡ header_number kind }
{
    match kind {
        MessageKind::Schema => HEADER_SCHEMA,
        MessageKind::Dictionary => HEADER_DICTIONARY_BATCH,
        MessageKind::Batch => HEADER_RECORD_BATCH,
    }
}

/// The metadata of a message with this header and a body of `body_len` bytes (Message.fbs, table `Message`).
pub fn write_message(
    alloc: Global,
    kind: MessageKind,
    header: Builder,
    body_len: u64,
) -> Result<Vec<u8>, AllocError>
    requires { IsWritable (message_slots kind (slots header) body_len) }
    ensures bytes { IfOk result (λ bytes. bytes.items ≡ whole (message_slots kind (slots header) body_len)) }
    ensures size { IfOk result
        (λ bytes. length bytes.items ≡ up 8 (object_end 4 (table (message_slots kind (slots header) body_len)))) }
{
    let mut message = Builder::new(alloc);
    message.u16(V5 as u16)?;
    message.u8(number_of_header(kind))?;
    message.table(header)?;
    message.u64(body_len)?;
    message.finish(alloc)
}

/// The table of a dictionary of this id: Schema.fbs, table `DictionaryEncoding`, with signed indices of 32 bits.
fn encoding_table(alloc: Global, id: usize) -> Result<Builder, AllocError>
    ensures { IfOk result (λ table. slots table ≡ encoding_slots id) }
{
    let indices = ColType::Int {
        width: IntWidth::Bits32,
        signed: true,
    };
    let mut table = Builder::new(alloc);
    table.u64(id as u64)?;
    table.table(type_table(alloc, &indices)?)?;
    table.u8(0)?;
    table.u16(DENSE_ARRAY as u16)?;
    Ok(table)
}

/// Adds the dictionary of this id to a field's table, or none.
fn add_dictionary(
    alloc: Global,
    table: &mut Builder,
    dictionary: Option<usize>,
) -> Result<(), AllocError>
    ensures { OnOk result (slots table.new ≡ add (slots table.old) (dictionary_node dictionary)) }
{
    match dictionary {
        Some(id) => table.table(encoding_table(alloc, id)?),
        None => table.absent(),
    }
}

/// The table of a field: Schema.fbs, table `Field`, nullable, with the dictionary of this id, if there is one.
#[cycle(tables)]
#[tactic(auto, using(crate::proofs::FieldTables::field_tables_made))]
fn field_table(
    alloc: Global,
    field: &LogicalField,
    dictionary: Option<usize>,
) -> Result<Builder, AllocError>
    ensures { IfOk result (λ table. slots table ≡ slots_of (dictionary_node dictionary) field.now) }
{
    let mut table = Builder::new(alloc);
    table.text(field.name.as_bytes())?;
    table.u8(1)?;
    table.u8(type_number(&field.col_type))?;
    table.table(type_table(alloc, &field.col_type)?)?;
    add_dictionary(alloc, &mut table, dictionary)?;
    table.tables(field_tables(alloc, &field.children)?)?;
    Ok(table)
}

/// The tables of fields, one after another.
#[cycle(tables)]
#[tactic(auto, using(crate::proofs::FieldTables::field_tables_made))]
fn field_tables(alloc: Global, fields: &[LogicalField]) -> Result<Tables, AllocError>
    ensures { IfOk result (λ tables. listed tables ≡ tables_of (kids_of fields.now)) }
{
    let mut tables = Tables::new(alloc);
    for field in fields {
        tables.push(field_table(alloc, field, None)?)?;
    }
    Ok(tables)
}

/// The dictionary of a column, which is numbered by its position, where that is one of the coded ones.
fn dictionary_at(coded: &[usize], position: usize) -> Option<usize>
    ensures { result ≡ (if is_coded coded.now position then Some position else None) }
{
    if coded.contains(&position) {
        Some(position)
    } else {
        None
    }
}

/// The tables of columns, with dictionaries for the coded ones.
#[tactic(auto, using(crate::proofs::FieldTables::column_tables_made))]
fn column_tables(
    alloc: Global,
    coded: &[usize],
    fields: &[LogicalField],
) -> Result<Tables, AllocError>
    ensures { IfOk result (λ tables. listed tables ≡ columns_of coded.now 0 fields.now) }
{
    let mut tables = Tables::new(alloc);
    for j in 0..fields.len() {
        tables.push(field_table(alloc, &fields[j], dictionary_at(coded, j))?)?;
    }
    Ok(tables)
}

fn schema_table(alloc: Global, schema: &Schema, coded: &[usize]) -> Result<Builder, AllocError>
    ensures { IfOk result (λ table. slots table ≡ schema_slots coded.now schema.now.fields.items) }
{
    let mut table = Builder::new(alloc);
    table.u16(LITTLE_ENDIAN as u16)?;
    table.tables(column_tables(alloc, coded, &schema.fields)?)?;
    Ok(table)
}

/// The metadata of the Schema message of this schema, each field nullable, and the columns at some positions with
/// dictionaries.
#[tactic(auto, unfolding(crate::specs::SchemaTree::schema_metadata))]
pub fn write_schema(alloc: Global, schema: &Schema, coded: &[usize]) -> Result<Vec<u8>, AllocError>
    requires { AreColumns schema.now.fields.items }
    ensures bytes { IfOk result (λ bytes. bytes.items ≡ schema_metadata coded.now schema.now.fields.items) }
    ensures size { IfOk result (λ bytes. length bytes.items < max_metadata_size) }
{
    let table = schema_table(alloc, schema, coded)?;
    write_message(alloc, MessageKind::Schema, table, 0)
}
