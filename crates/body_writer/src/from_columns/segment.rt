//! Segments: where some cells of a column lie, one after the other.

ghost use Rattle.std.specs.Prelude.{◌≡◌, ℕ, ◌-◌, ◌<◌, ◌≤◌};
ghost use Rattle.values.specs.Rose.{Rose};
ghost use Rattle.values.specs.Reading.{IsValid};
ghost use Rattle.values.specs.declared.layout.Layout.{Layout as Layouts};
ghost use Rattle.array_layout.specs.declared.array.ArrayData.{ArrayData};
ghost use Rattle.array_layout.specs.Sound.{IsSound};
ghost use Rattle.array_layout.specs.Cells.{cell, len_of};
ghost use Rattle.body_writer.specs.Runs.{slots};
ghost use Rattle.body_writer.specs.Segments.{IsChecked, Lies, RangeLies, offset_width, range_cells};

use array_layout::Array;
use arrays::ColumnParts;
use values::{Layout, OffsetWidth};

/// The slots of a checked array from `from` up to, and without, `to`.
#[derive(Clone, Copy)]
pub(crate) struct SlotRange<'a> {
    pub parts: ColumnParts<'a>,
    /// The width of the array's offsets, if it has any.
    pub offsets: OffsetWidth,
    pub from: usize,
    pub to: usize,
}

/// Some cells of a column, one after the other.
#[derive(Clone, Copy)]
pub(crate) enum Segment<'a> {
    Slots(SlotRange<'a>),
    /// This number of nulls that lie in no array, as the children of null structs have them.
    Nulls(usize),
}

/// The width of an array's offsets, if it has any.
pub(crate) fn offset_width(layout: Layout) -> OffsetWidth
    ensures { result ≡ offset_width layout }
{
    match layout {
        Layout::Utf8 { offsets } | Layout::Binary { offsets } | Layout::List { offsets } => offsets,
        Layout::Bool
        | Layout::Int { .. }
        | Layout::Decimal { .. }
        | Layout::FixedSizeBinary { .. }
        | Layout::Struct => OffsetWidth::Bits32,
    }
}

/// The slots from `from` to `to` of an array.
pub(crate) fn array_slots<'a>(
    body: &'a [u8],
    array: &'a Array,
    from: usize,
    to: usize,
) -> SlotRange<'a>
    requires sound { IsSound body.now array.now }
    requires valid { (k : ℕ) → from ≤ k → k < to → IsValid (cell body.now array.now k) }
    requires order { from ≤ to }
    requires within { to ≤ len_of array.now }
    ensures checked { IsChecked result }
    ensures cells { range_cells result ≡ slots (cell body.now array.now) from (to - from) }
    ensures lies { (t : Rose Layouts) (m : Rose ArrayData) → Lies t m array.now → RangeLies t m result }
{
    SlotRange {
        parts: ColumnParts {
            body,
            own: &array.own,
            children: &array.children,
        },
        offsets: offset_width(array.own.layout),
        from,
        to,
    }
}
