//! The indices into a dictionary: Schema.fbs, table `Int` in a `DictionaryEncoding`.

ghost use Rattle.values.specs.Reading.{Yields};
ghost use Rattle.field_types.specs.Types.{index_of};

use crate::parameters::read_width;
use crate::reads::read_bool;
use crate::schema_fbs::INT_IS_SIGNED;
use flatbuf::TableRef;
use values::{IntWidth, StreamFault};

/// The integer type of the indices into a dictionary.
#[derive(Clone, Copy, Debug, PartialEq, Eq)]
pub struct IndexType {
    pub width: IntWidth,
    pub signed: bool,
}

/// Reads an index type from its table `Int`. A width other than 8, 16, 32 or 64 bits is `BadType`, an unreadable table
/// `BadTable`.
#[tactic(auto, using(crate::proofs::Faults::faults), unfolding(crate::specs::Types::index_of))]
pub fn read_index_type(table: &TableRef) -> Result<IndexType, StreamFault>
    ensures { Yields (λ t. t) result (index_of table.now) }
{
    let width = read_width(table)?;
    let signed = read_bool(table, INT_IS_SIGNED)?;
    Ok(IndexType { width, signed })
}
