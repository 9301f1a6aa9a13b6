//! Laws of the definitions, each the contract of a function that does nothing.
ghost use Rattle.schema_meta.specs.ClashLaw.{ClashLaw, TypeLaw};
ghost use Rattle.schema_meta.specs.FieldsLaw.{ColumnsFit, ColumnsNamed, FieldsLaw};
ghost use Rattle.schema_meta.specs.LogicalLaw.{
  LogicalTrees,
  NarrowFits,
  NarrowHolds,
  NarrowHoldsEach,
  NarrowRowWeighs,
  NarrowWeighs,
};
ghost use Rattle.schema_meta.specs.PlaceLaw.{PlaceLaw, SameArraysLaw, ValuesLaw, TypedArraysLaw};
ghost use Rattle.schema_meta.specs.PlainLaw.{PlainArrays, PlainSlots};
ghost use Rattle.schema_meta.specs.Paths.{FaultsByPaths, FoundByPaths};
ghost use Rattle.schema_meta.specs.SchemaLaw.{ColumnsLaw, NoneCoded, SchemaLaw};
ghost use Rattle.schema_meta.specs.SignLaw.{
  SignedArrays,
  SignedBound,
  SignedFloor,
  SignedLargeOffsets,
  SignedLength,
  SignedOffsets,
  SignedRange,
  SignedSize,
};

/// A schema's reading has a fault exactly where the fault is found at the end of a path of slots from the schema's
/// table down, each path read by itself; too many fields are found by their counts or their depth.
pub fn path_law()
    ensures found { FoundByPaths }
    ensures stands { FaultsByPaths }
{}

/// Fields that are read are at most 1,024 at all levels, nested to 16 levels, with short names, types within their
/// bounds, the children that each layout requires, slots within the limit, and no two dictionaries of one id and of
/// different types. Their logical fields can be written, and are read back.
pub fn fields_law()
    ensures read { FieldsLaw }
    ensures fit { ColumnsFit }
    ensures named { ColumnsNamed }
{}

/// The metadata of the Schema message that is written for a logical schema is read as the columns of
/// that schema, the coded ones with their dictionaries, with no fault and no body; and their logical fields are the
/// schema's. Where none is coded, they are the columns without dictionaries.
#[tactic(auto, using(crate::proofs::SchemaRead::schema_laws))]
pub fn schema_law()
    ensures schema { SchemaLaw }
    ensures columns { ColumnsLaw }
    ensures none { NoneCoded }
{}

/// The definitions read sizes, lengths, positions and offsets as numbers without a sign, though the format has them
/// signed. Each of their comparisons holds exactly where the signed numbers compare so and none of them is negative.
/// `arrays` says so of all offsets of an array, of either width: they have the fault 24 exactly where one is negative,
/// is below the one before it, or is above the number of bytes or of slots that it may point to.
pub fn sign_law()
    ensures length { SignedLength }
    ensures bound { SignedBound }
    ensures floor { SignedFloor }
    ensures range { SignedRange }
    ensures offsets { SignedOffsets }
    ensures large_offsets { SignedLargeOffsets }
    ensures arrays { SignedArrays }
    ensures size { SignedSize }
{}

/// The layouts of logical columns are those of the stored ones with offsets of 32 bits, and such layouts hold what the
/// others hold, with the same weights.
#[tactic(auto, using(crate::proofs::NarrowLemmas::narrowing))]
pub fn logical_law()
    ensures trees { LogicalTrees }
    ensures fits { NarrowFits }
    ensures cells { NarrowHolds }
    ensures rows { NarrowHoldsEach }
    ensures weights { NarrowWeighs }
    ensures row_weights { NarrowRowWeighs }
{}

/// The arrays of a batch whose header fits its schema lie in the body, are long enough, have one slot for each row, and
/// the layouts of their fields. The values of their dictionaries are of the fields' types where those of the ids are,
/// and they depend on nothing else of the dictionaries. The array of a dictionary batch lies in the body, has one slot
/// for each value, and the layout of the values' type.
pub fn place_law()
    ensures placed { PlaceLaw }
    ensures dictionary { TypedArraysLaw }
    ensures same { SameArraysLaw }
    ensures values { ValuesLaw }
{}

/// A schema has no clash of dictionary ids exactly where any two fields with one id, at all levels, have the same type.
/// The type that is then found for an id is that of the fields with the id, where there are any.
pub fn clash_law()
    ensures clash { ClashLaw }
    ensures types { TypeLaw }
{}

/// The slots of fields without dictionaries, as logical ones are, have the layouts of their values.
pub fn plain_law()
    ensures slots { PlainSlots }
    ensures arrays { PlainArrays }
{}
