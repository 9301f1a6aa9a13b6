//! Laws of the definitions, each the contract of a function that does nothing.
ghost use Rattle.flatbuf.specs.Law.{LayoutLaw};

/// Each tree within the limits is read back from the bytes that are written for it: from the root table down, each slot
/// and each element is read as what the tree has, and each slot beyond it is absent.
pub fn layout_law()
    ensures { LayoutLaw }
{}
