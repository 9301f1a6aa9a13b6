//! The content of one slot of a table under construction.

/// A slot of a table, or an element of a vector of references.
#[derive(Drop)]
pub enum Slot {
    Absent,
    /// The width in bytes, and the number.
    Number(usize, u64),
    Text(Vec<u8>),
    /// The width of one struct, and the bytes of all.
    Structs(usize, Vec<u8>),
    Table(Vec<Slot>),
    References(Vec<Slot>),
}
