//! Columns that groups accumulate.

ghost use Rattle.group_state.specs.AccumulatedColumns.{counted, is_accumulated, same_column, same_form as same_form_by, valued};
ghost use Rattle.std.specs.Prelude.{All, Bool, OnOk, true, ◌≡◌, ℕ};
ghost use Rattle.group_state.specs.declared.accumulated_columns.AccumulatedColumn.{AccumulatedColumn};

use std::alloc::AllocError;

/// A column that groups accumulate. One column may be accumulated in both forms.
#[derive(Debug, Clone, Copy)]
pub struct AccumulatedColumn {
    pub column: usize,
    pub form: AccumulatorForm,
}

/// What groups store of a column.
#[derive(Debug, Clone, Copy)]
pub enum AccumulatorForm {
    /// How many cells aren't null, and their sum.
    Total,
    /// The multiset of the cells' values.
    Values,
}

impl AccumulatedColumn {
    /// A column that is counted or summed.
    pub(crate) fn counted(column: usize) -> AccumulatedColumn
        ensures { result ≡ counted column }
    {
        AccumulatedColumn {
            column,
            form: AccumulatorForm::Total,
        }
    }

    /// A column whose values are compared.
    pub(crate) fn valued(column: usize) -> AccumulatedColumn
        ensures { result ≡ valued column }
    {
        AccumulatedColumn {
            column,
            form: AccumulatorForm::Values,
        }
    }

    /// Whether another is the same column in the same form.
    pub(crate) fn is_same(self, other: AccumulatedColumn) -> bool
        ensures { result ≡ same_column self other }
    {
        self.column == other.column && same_form(self.form, other.form)
    }
}

fn same_form(form: AccumulatorForm, other: AccumulatorForm) -> bool
    ensures { result ≡ same_form_by form other }
{
    match (form, other) {
        (AccumulatorForm::Total, AccumulatorForm::Total) => true,
        (AccumulatorForm::Total, AccumulatorForm::Values) => false,
        (AccumulatorForm::Values, AccumulatorForm::Total) => false,
        (AccumulatorForm::Values, AccumulatorForm::Values) => true,
    }
}

/// Adds a column, unless it is there in this form.
#[tactic(auto, using(crate::proofs::AccumulatedColumns::same_columns, crate::proofs::AccumulatedColumns::read_columns))]
pub(crate) fn keep(
    columns: &mut Vec<AccumulatedColumn>,
    column: AccumulatedColumn,
) -> Result<(), AllocError>
    ensures here { OnOk result (is_accumulated columns.new.items column ≡ true) }
    ensures still { OnOk result ((k : AccumulatedColumn) → is_accumulated columns.old.items k ≡ true
        → is_accumulated columns.new.items k ≡ true) }
    ensures only { OnOk result ((p : ℕ → Bool) → p column.column ≡ true
        → All (λ k. p k.column ≡ true) columns.old.items → All (λ k. p k.column ≡ true) columns.new.items) }
{
    if !is_among(columns.as_slice(), column) {
        columns.push(column)?;
    }
    Ok(())
}

fn is_among(columns: &[AccumulatedColumn], column: AccumulatedColumn) -> bool
    ensures { result ≡ is_accumulated columns.now column }
{
    for i in 0..columns.len() {
        if columns[i].is_same(column) {
            return true;
        }
    }
    false
}
