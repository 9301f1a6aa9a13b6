//! Laws of the definitions: functions that do nothing, whose contracts are theorems.

ghost use Rattle.field_types.specs.StoredLaws.{ChildrenFit, ReadIsType};
ghost use Rattle.field_types.specs.TypeLaw.{TypeFits, TypeIsRead, TypeIsShort};

/// A type that is read is within its bounds and of the kind that it was read as, and the children that its kind allows
/// are those that its layout has.
#[tactic(auto, using(crate::proofs::StoredLaws::stored_laws))]
pub fn stored_law()
    ensures read { ReadIsType }
    ensures children { ChildrenFit }
{}

/// What is written for a type within its bounds is read as that type, can be written, and takes at most 4,144 bytes.
#[tactic(auto, using(crate::proofs::TypeLaws::type_laws))]
pub fn type_law()
    ensures read { TypeIsRead }
    ensures fits { TypeFits }
    ensures short { TypeIsShort }
{}
