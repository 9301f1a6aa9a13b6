//! The layouts of types: Arrow Columnar Format, "Physical Memory Layout".

ghost use Rattle.std.specs.Prelude.{◌≡◌, ◌*◌, ◌≤◌, ◌^◌};
ghost use Rattle.values.specs.Rose.{node, none};
ghost use Rattle.values.specs.Layouts.{bytes_in, greatest_of, least_of, null_weight, offset_bytes};

use std::marker::Model;

/// The width of a whole number.
#[derive(Clone, Copy, Debug, PartialEq, Eq)]
pub enum IntWidth {
    Bits8,
    Bits16,
    Bits32,
    Bits64,
}

impl IntWidth {
    /// The width in bytes.
    pub fn bytes(self) -> usize
        ensures value { result ≡ bytes_in self }
        ensures some { 1 ≤ result }
        ensures few { result ≤ 8 }
    {
        match self {
            IntWidth::Bits8 => 1,
            IntWidth::Bits16 => 2,
            IntWidth::Bits32 => 4,
            IntWidth::Bits64 => 8,
        }
    }

    /// The width in bits.
    pub fn bits(self) -> u32
        ensures value { result ≡ 8 * bytes_in self }
        ensures few { result ≤ 64 }
    {
        8 * self.bytes() as u32
    }

    /// The least number of this width.
    pub fn least(self, signed: bool) -> i128
        ensures { result ≡ least_of self signed }
    {
        match (self, signed) {
            (IntWidth::Bits8, true) => i128::from(i8::MIN),
            (IntWidth::Bits16, true) => i128::from(i16::MIN),
            (IntWidth::Bits32, true) => i128::from(i32::MIN),
            (IntWidth::Bits64, true) => i128::from(i64::MIN),
            (_, false) => 0,
        }
    }

    /// The greatest number of this width.
    pub fn greatest(self, signed: bool) -> i128
        ensures { result ≡ greatest_of self signed }
    {
        match (self, signed) {
            (IntWidth::Bits8, true) => i128::from(i8::MAX),
            (IntWidth::Bits16, true) => i128::from(i16::MAX),
            (IntWidth::Bits32, true) => i128::from(i32::MAX),
            (IntWidth::Bits64, true) => i128::from(i64::MAX),
            (IntWidth::Bits8, false) => i128::from(u8::MAX),
            (IntWidth::Bits16, false) => i128::from(u16::MAX),
            (IntWidth::Bits32, false) => i128::from(u32::MAX),
            (IntWidth::Bits64, false) => i128::from(u64::MAX),
        }
    }
}

/// The width of an offset. Large types have offsets of 64 bits.
#[derive(Clone, Copy, Debug, PartialEq, Eq)]
pub enum OffsetWidth {
    Bits32,
    Bits64,
}

impl OffsetWidth {
    /// The width in bytes.
    pub fn bytes(self) -> usize
        ensures { result ≡ offset_bytes self }
    {
        match self {
            OffsetWidth::Bits32 => 4,
            OffsetWidth::Bits64 => 8,
        }
    }
}

/// How an array's own buffers hold its slots.
#[derive(Clone, Copy, Debug, PartialEq, Eq)]
pub enum Layout {
    /// One bit for each slot.
    Bool,
    /// An integer for each slot, in two's complement if signed. Dates, times, timestamps and durations are such
    /// integers too.
    Int { width: IntWidth, signed: bool },
    /// A number of 128 bits for each slot, with at most as many decimal digits as `precision`.
    Decimal { precision: u8 },
    /// `width` bytes for each slot (FixedSizeBinary).
    FixedSizeBinary { width: u32 },
    /// Offsets into texts.
    Utf8 { offsets: OffsetWidth },
    /// Offsets into bytes.
    Binary { offsets: OffsetWidth },
    /// Offsets into the slots of the one child.
    List { offsets: OffsetWidth },
    /// No buffers but validity: slot i has the children's slots i.
    Struct,
}

impl Layout {
    /// The weight of a null of this layout, without the slots of a struct's children.
    pub fn own_null_weight(self) -> u64
        ensures value { result ≡ null_weight (node self none) }
        ensures bound { result ≤ 2 ^ 32 }
    {
        match self {
            Layout::Bool => 2,
            Layout::Int { width, .. } => 1 + width.bytes() as u64,
            Layout::Decimal { .. } => 17,
            Layout::FixedSizeBinary { width } => 1 + u64::from(width),
            Layout::Utf8 { .. } | Layout::Binary { .. } | Layout::List { .. } => 5,
            Layout::Struct => 1,
        }
    }
}

/// The layout of a type, with those of its children below it.
///
/// Contracts see it as a tree with a `Layout` at each node.
#[derive(Debug, Drop)]
pub struct LayoutTree {
    pub layout: Layout,
    pub children: Vec<LayoutTree>,
}

impl Model for LayoutTree {
    ghost use Rattle.std.proofs.Common.{arith};
    ghost use Rattle.values.specs.Rose.{Rose, node, kids_of, rose_code, rose_size, most_le-roses_size};
    ghost use Rattle.values.specs.declared.layout.Layout.{Layout};
    ghost use Rattle.values.specs.contracts.layout.Layout.{the_row};

    ghost Value = { Rose Layout };

    ghost coded = { rose_code the_row.coded };

    ghost view = { λ t. node t.layout (kids_of t.children.items) };

    ghost size = { rose_size };

    ghost size_decreases = { λ t h. omega (arith, most_le-roses_size t.children.items) };
}
