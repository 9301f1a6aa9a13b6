//! Laws of the definitions, each the contract of a function that does nothing.

ghost use Rattle.body_writer.specs.Law.{
  AlignedLaw,
  BatchLaw,
  BatchSizeLaw,
  BuffersAreHeldLaw,
  BuffersLaw,
  ColumnLaw,
  NodesAreHeldLaw,
  NodesLaw,
  PlacedLaw,
  SizeLaw,
};

/// A column that is written is read back as the same cells with no fault, whatever nodes, buffers and bytes come before
/// and after its own. So are the columns of a batch, one after the other.
#[tactic(auto, using(crate::proofs::ColumnRead::column_laws))]
pub fn column_law()
    ensures cells { ColumnLaw }
    ensures placed { PlacedLaw }
    ensures batch { BatchLaw }
{}

/// A column has one node for each of its arrays, and as many buffers as their layouts require.
#[tactic(auto, using(crate::proofs::ColumnRead::column_laws))]
pub fn count_law()
    ensures nodes { NodesLaw }
    ensures buffers { BuffersLaw }
{}

/// Nodes and buffers that are appended come after those that were there, each buffer at a multiple of 8.
#[tactic(auto, using(crate::proofs::PlaceLemmas::standing))]
pub fn holding_law()
    ensures nodes { NodesAreHeldLaw }
    ensures buffers { BuffersAreHeldLaw }
    ensures aligned { AlignedLaw }
{}

/// The weights of cells bound the bytes of their column, and those of rows the bytes of their batch.
#[tactic(auto, using(crate::proofs::SizeLemmas::sizes))]
pub fn size_law()
    ensures column { SizeLaw }
    ensures batch { BatchSizeLaw }
{}
