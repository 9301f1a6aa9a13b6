//! The schemas of feeds and of views.

ghost use Rattle.std.specs.Prelude.{◌≡◌, ◌++◌, ◌<◌, [], ◌∷◌, All, IfOk, length, map};
ghost use Rattle.view_lang.specs.Config.{tables_of};
ghost use Rattle.view_lang.specs.ConfigRules.{AreOutputs, IsConfig, IsGroupOutput, IsOutput, IsView};
ghost use Rattle.view_lang.specs.Edits.{table_of};
ghost use Rattle.view_lang.specs.OutputsSeen.{outputs_of};
ghost use Rattle.view_lang.specs.TableRules.{IsTable};
ghost use Rattle.view_lang.specs.ViewColumns.{feed_columns, key_column, output_field, output_fields, view_columns};
ghost use Rattle.view_lang.specs.Aggregates.{aggregate_field};
ghost use Rattle.view_lang.specs.Fields.{field_at, renamed, simple_field};

use crate::aggregate::aggregate_field;
use crate::config::{Config, Role, Table};
use crate::laws::config_law;
use crate::view::{GroupOutput, Output, Outputs, View};
use std::alloc::{AllocError, Global};
use values::{ColType, LogicalField, Schema};

/// A field of this name with the type of another.
#[cycle(copy)]
pub(crate) fn copy_as(
    alloc: Global,
    name: &str,
    field: &LogicalField,
) -> Result<LogicalField, AllocError>
    ensures { IfOk result (λ copied. copied ≡ renamed name.now field.now) }
{
    Ok(LogicalField {
        name: String::from_str(alloc, name)?,
        col_type: field.col_type.copy(alloc)?,
        children: copy_fields(alloc, &field.children)?,
    })
}

/// Equal fields with memory of their own.
#[cycle(copy)]
#[tactic(auto, using(crate::proofs::Fields::field_below))]
fn copy_fields(alloc: Global, fields: &[LogicalField]) -> Result<Vec<LogicalField>, AllocError>
    ensures { IfOk result (λ copies. copies.items ≡ fields.now) }
{
    let mut copies = Vec::with_capacity(alloc, fields.len())?;
    for field in fields {
        copies.push(copy_as(alloc, field.name.as_str(), field)?)?;
    }
    Ok(copies)
}

/// An equal field with memory of its own.
fn copy_field(alloc: Global, field: &LogicalField) -> Result<LogicalField, AllocError>
    ensures { IfOk result (λ copied. copied ≡ field.now) }
{
    copy_as(alloc, field.name.as_str(), field)
}

/// The key column of a table, alone.
fn key_field(alloc: Global, table: &Table) -> Result<Vec<LogicalField>, AllocError>
    requires { IsTable table.now }
    ensures { IfOk result (λ fields. fields.items ≡ key_column table.now) }
{
    let mut fields = Vec::with_capacity(alloc, 1)?;
    fields.push(copy_field(alloc, &table.columns[table.key])?)?;
    Ok(fields)
}

/// A column of joined rows: of the main table, or after these of the side table.
pub(crate) fn joined_field<'a>(
    main: &'a [LogicalField],
    side: &'a [LogicalField],
    number: usize,
) -> &'a LogicalField
    requires { number < length (main.now ++ side.now) }
    ensures { result.now ≡ field_at (main.now ++ side.now) number }
{
    if number < main.len() {
        &main[number]
    } else {
        &side[number - main.len()]
    }
}

/// A column without children.
pub(crate) fn simple_field(
    alloc: Global,
    name: &str,
    col_type: ColType,
) -> Result<LogicalField, AllocError>
    ensures { IfOk result (λ field. field ≡ simple_field name.now col_type) }
{
    Ok(LogicalField {
        name: String::from_str(alloc, name)?,
        col_type,
        children: Vec::new(alloc),
    })
}

fn group_fields(
    alloc: Global,
    main: &[LogicalField],
    side: &[LogicalField],
    by: &[usize],
    outputs: &[GroupOutput],
) -> Result<Vec<LogicalField>, AllocError>
    requires by { All (λ k. k < length (main.now ++ side.now)) by.now }
    requires outputs { All (IsGroupOutput (main.now ++ side.now) by.now) outputs.now }
    ensures { IfOk result (λ fields.
        fields.items ≡ map (λ o. aggregate_field (main.now ++ side.now) by.now o.name o.aggregate) outputs.now) }
{
    let mut fields = Vec::with_capacity(alloc, outputs.len())?;
    for output in outputs {
        let name = output.name.as_str();
        fields.push(aggregate_field(alloc, main, side, by, name, output.aggregate)?)?;
    }
    Ok(fields)
}

fn plain_fields(
    alloc: Global,
    main: &[LogicalField],
    side: &[LogicalField],
    outputs: &[Output],
) -> Result<Vec<LogicalField>, AllocError>
    requires { All (IsOutput (main.now ++ side.now)) outputs.now }
    ensures { IfOk result (λ fields. fields.items ≡ map (output_field (main.now ++ side.now)) outputs.now) }
{
    let mut fields = Vec::with_capacity(alloc, outputs.len())?;
    for output in outputs {
        let shown = joined_field(main, side, output.column);
        fields.push(copy_as(alloc, output.name.as_str(), shown)?)?;
    }
    Ok(fields)
}

/// The columns of a view's outputs, over columns of joined rows.
pub fn output_fields(
    alloc: Global,
    main: &[LogicalField],
    side: &[LogicalField],
    outputs: &Outputs,
) -> Result<Vec<LogicalField>, AllocError>
    requires { AreOutputs (main.now ++ side.now) (outputs_of outputs.now) }
    ensures { IfOk result (λ fields. fields.items ≡ output_fields (main.now ++ side.now) (outputs_of outputs.now)) }
{
    match outputs {
        Outputs::Columns(outputs) => plain_fields(alloc, main, side, outputs),
        Outputs::Groups { by, columns, .. } => group_fields(alloc, main, side, by, columns),
    }
}

impl Config {
    /// The columns that the batches of a feed with this role carry.
    fn feed_fields(&self, alloc: Global, role: Role) -> Result<Vec<LogicalField>, AllocError>
        requires config { IsConfig self.now }
        requires there { table_of role < length (tables_of self.now) }
        ensures { IfOk result (λ fields. fields.items ≡ feed_columns (tables_of self.now) role) }
    {
        match role {
            Role::Append => copy_fields(alloc, &self.main.columns),
            Role::Retract => key_field(alloc, &self.main),
            Role::Put(side) => copy_fields(alloc, &self.sides[side].table.columns),
            Role::Drop(side) => key_field(alloc, &self.sides[side].table),
        }
    }

    /// The schema of a feed with this role: all columns of its table, or the key column alone.
    pub fn feed_schema(&self, alloc: Global, role: Role) -> Result<Schema, AllocError>
        requires config { IsConfig self.now }
        requires there { table_of role < length (tables_of self.now) }
        ensures { IfOk result (λ s. s.fields.items ≡ feed_columns (tables_of self.now) role) }
    {
        Schema::new(alloc, self.feed_fields(alloc, role)?)
    }

    /// The columns of a view of this configuration's tables.
    fn view_fields(&self, alloc: Global, view: &View) -> Result<Vec<LogicalField>, AllocError>
        requires config { IsConfig self.now }
        requires view { IsView (tables_of self.now) view.now }
        ensures { IfOk result (λ fields. fields.items ≡ view_columns (tables_of self.now) view.now) }
    {
        let main = &self.main.columns;
        match &view.lookup {
            Some(lookup) => {
                let side = &self.sides[lookup.side].table.columns;
                output_fields(alloc, main, side, &view.outputs)
            }
            None => output_fields(alloc, main, &[], &view.outputs),
        }
    }

    /// The schema of a view of this configuration's tables: the outputs' names, with the types of the columns that they
    /// show, int64 for counts, and decimals of 38 digits for sums.
    pub fn view_schema(&self, alloc: Global, view: &View) -> Result<Schema, AllocError>
        requires config { IsConfig self.now }
        requires view { IsView (tables_of self.now) view.now }
        ensures { IfOk result (λ s. s.fields.items ≡ view_columns (tables_of self.now) view.now) }
    {
        // It does nothing: the proof takes from it that the columns of the view are logical.
        config_law();
        Schema::new(alloc, self.view_fields(alloc, view)?)
    }
}
