//! Compares a stream's schema with the declared one.
ghost use Rattle.std.specs.Prelude.{◌≡◌};
ghost use Rattle.values.specs.Rose.{kids_of};
ghost use Rattle.schema_meta.specs.SameColumns.{are_same, is_same};

use values::LogicalField;

/// Whether two fields have the same name and type, and so have the fields below them.
#[cycle(same)]
#[tactic(auto, using(crate::proofs::SameFields::same))]
fn is_same(a: &LogicalField, b: &LogicalField) -> bool
    ensures { result ≡ is_same a.now b.now }
{
    a.name == b.name && a.col_type == b.col_type && are_same(&a.children, &b.children)
}

/// Whether these are the same fields, in order.
#[cycle(same)]
#[tactic(auto, using(crate::proofs::SameFields::same))]
pub(crate) fn are_same(a: &[LogicalField], b: &[LogicalField]) -> bool
    ensures { result ≡ are_same (kids_of a.now) (kids_of b.now) }
{
    if a.len() != b.len() {
        return false;
    }
    for index in 0..a.len() {
        if !is_same(&a[index], &b[index]) {
            return false;
        }
    }
    true
}
