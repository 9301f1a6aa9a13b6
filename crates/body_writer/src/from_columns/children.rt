//! Where the cells of children lie, from where those of the array above them do.

ghost use Rattle.std.specs.Prelude.{
  ◌≡◌,
  ℕ,
  ◌-◌,
  ◌<◌,
  ◌≤◌,
  ◌++◌,
  All,
  IfOk,
  OnOk,
  false,
  get_or,
  length,
  map,
  replicate,
};
ghost use Rattle.values.specs.Datum.{null};
ghost use Rattle.std.specs.List.{flat_map};
ghost use Rattle.values.specs.Rose.{Rose, node, kids_of};
ghost use Rattle.values.specs.declared.layout.Layout.{Layout as Layouts};
ghost use Rattle.values.specs.declared.layout.Layout.TheVariants.{List as Listed, Struct};
ghost use Rattle.array_layout.specs.declared.array.ArrayData.{ArrayData};
ghost use Rattle.array_layout.specs.Placing.{bytes_of};
ghost use Rattle.array_layout.specs.Buffers.{is_null};
ghost use Rattle.array_layout.specs.Cells.{cell};
ghost use Rattle.body_writer.specs.Slots.{items_in, part};
ghost use Rattle.body_writer.specs.Columns.{child_cells, items as items_of};
ghost use Rattle.body_writer.specs.Runs.{slots, AreAlike};
ghost use Rattle.body_writer.specs.Segments.{
  ChildLies,
  HasChild,
  LiesAs,
  OfSlots,
  range_cells,
  segment_cells,
  segments_cells,
};

use crate::from_columns::segment::{Segment, SlotRange, array_slots};
use array_layout::{Array, buffer, is_null_at, offset, run_end};
use std::alloc::{AllocError, Global};
use values::Layout;

pub(crate) fn child_at(children: &[Array], j: usize) -> &Array
    requires { j < length children.now }
    ensures { result.now ≡ get_or children.now j result.now }
{
    &children[j]
}

/// The items of a run of lists, none of which is null: they lie one after the other.
fn run_items<'a>(range: &SlotRange<'a>, at: usize, end: usize) -> Segment<'a>
    requires lists { HasChild (Listed range.now.offsets) 0 range.now }
    requires start { range.now.from ≤ at }
    requires order { at < end }
    requires within { end ≤ range.now.to }
    requires valid { (k : ℕ) → at ≤ k → k < end
        → is_null (bytes_of range.now.parts.body.now range.now.parts.own.now.validity) k ≡ false }
    ensures cells { segment_cells result ≡ flat_map items_in
        (slots (cell range.now.parts.body.now (node range.now.parts.own.now (kids_of range.now.parts.children.now)))
        at (end - at)) }
    ensures lies { (t : Rose Layouts) (m : Rose ArrayData) → ChildLies t m 0 range.now → LiesAs t m result }
{
    let parts = range.parts;
    let offsets = buffer(parts.body, &parts.own.offsets);
    Segment::Slots(array_slots(
        parts.body,
        &parts.children[0],
        offset(offsets, range.offsets, at),
        offset(offsets, range.offsets, end),
    ))
}

/// Appends the items of these lists.
fn push_items<'a>(all: &mut Vec<Segment<'a>>, range: &SlotRange<'a>) -> Result<(), AllocError>
    requires { HasChild (Listed range.now.offsets) 0 range.now }
    ensures cells { OnOk result (segments_cells all.new.items ≡ segments_cells all.old.items
        ++ flat_map items_in (range_cells range.now)) }
    ensures lies { OnOk result ((t : Rose Layouts) (m : Rose ArrayData) → ChildLies t m 0 range.now
        → All (LiesAs t m) all.old.items → All (LiesAs t m) all.new.items) }
{
    let bits = buffer(range.parts.body, &range.parts.own.validity);
    let mut at = range.from;
    while at < range.to {
        let end = run_end(bits, at, range.to);
        if !is_null_at(bits, at) {
            all.push(run_items(range, at, end))?;
        }
        at = end;
    }
    Ok(())
}

/// The cells of child `j` in a run of structs that are all null or all valid: nulls where the structs are null.
fn run_part<'a>(range: &SlotRange<'a>, j: usize, at: usize, end: usize) -> Segment<'a>
    requires structs { HasChild Struct j range.now }
    requires start { range.now.from ≤ at }
    requires order { at < end }
    requires within { end ≤ range.now.to }
    requires alike { AreAlike (bytes_of range.now.parts.body.now range.now.parts.own.now.validity) at end }
    ensures cells { segment_cells result ≡ map (part j)
        (slots (cell range.now.parts.body.now (node range.now.parts.own.now (kids_of range.now.parts.children.now)))
        at (end - at)) }
    ensures lies { (t : Rose Layouts) (m : Rose ArrayData) → ChildLies t m j range.now → LiesAs t m result }
{
    let parts = range.parts;
    if is_null_at(buffer(parts.body, &parts.own.validity), at) {
        return Segment::Nulls(end - at);
    }
    Segment::Slots(array_slots(parts.body, child_at(parts.children, j), at, end))
}

/// Appends the cells of child `j` in these structs.
fn push_parts<'a>(
    all: &mut Vec<Segment<'a>>,
    range: &SlotRange<'a>,
    j: usize,
) -> Result<(), AllocError>
    requires { HasChild Struct j range.now }
    ensures cells { OnOk result (segments_cells all.new.items ≡ segments_cells all.old.items
        ++ map (part j) (range_cells range.now)) }
    ensures lies { OnOk result ((t : Rose Layouts) (m : Rose ArrayData) → ChildLies t m j range.now
        → All (LiesAs t m) all.old.items → All (LiesAs t m) all.new.items) }
{
    let bits = buffer(range.parts.body, &range.parts.own.validity);
    let mut at = range.from;
    while at < range.to {
        let end = run_end(bits, at, range.to);
        all.push(run_part(range, j, at, end))?;
        at = end;
    }
    Ok(())
}

/// Appends the cells that child `j` has in these slots.
fn push_below<'a>(
    all: &mut Vec<Segment<'a>>,
    layout: Layout,
    range: &SlotRange<'a>,
    j: usize,
) -> Result<(), AllocError>
    requires { HasChild layout j range.now }
    ensures cells { OnOk result (segments_cells all.new.items ≡ segments_cells all.old.items
        ++ child_cells layout j (range_cells range.now)) }
    ensures lies { OnOk result ((t : Rose Layouts) (m : Rose ArrayData) → ChildLies t m j range.now
        → All (LiesAs t m) all.old.items → All (LiesAs t m) all.new.items) }
{
    match layout {
        Layout::List { .. } => push_items(all, range),
        Layout::Struct => push_parts(all, range, j),
        Layout::Bool => Ok(()),
        Layout::Int { .. } => Ok(()),
        Layout::Decimal { .. } => Ok(()),
        Layout::FixedSizeBinary { .. } => Ok(()),
        Layout::Utf8 { .. } => Ok(()),
        Layout::Binary { .. } => Ok(()),
    }
}

/// Appends the cells that a child has below `count` nulls of this layout: nulls below structs, and none below lists.
fn push_below_nulls<'a>(
    all: &mut Vec<Segment<'a>>,
    layout: Layout,
    count: usize,
) -> Result<(), AllocError>
    ensures cells { OnOk result ((j : ℕ) → segments_cells all.new.items ≡ segments_cells all.old.items
        ++ child_cells layout j (replicate count null)) }
    ensures lies { OnOk result ((t : Rose Layouts) (m : Rose ArrayData) → All (LiesAs t m) all.old.items
        → All (LiesAs t m) all.new.items) }
{
    match layout {
        Layout::Struct => {
            all.push(Segment::Nulls(count))?;
            Ok(())
        }
        Layout::List { .. } => Ok(()),
        Layout::Bool => Ok(()),
        Layout::Int { .. } => Ok(()),
        Layout::Decimal { .. } => Ok(()),
        Layout::FixedSizeBinary { .. } => Ok(()),
        Layout::Utf8 { .. } => Ok(()),
        Layout::Binary { .. } => Ok(()),
    }
}

/// Appends the cells that child `j` has in a segment.
fn push_child<'a>(
    all: &mut Vec<Segment<'a>>,
    layout: Layout,
    segment: &Segment<'a>,
    j: usize,
) -> Result<(), AllocError>
    requires { OfSlots (HasChild layout j) segment.now }
    ensures cells { OnOk result (segments_cells all.new.items ≡ segments_cells all.old.items
        ++ child_cells layout j (segment_cells segment.now)) }
    ensures lies { OnOk result ((t : Rose Layouts) (m : Rose ArrayData) → OfSlots (ChildLies t m j) segment.now
        → All (LiesAs t m) all.old.items → All (LiesAs t m) all.new.items) }
{
    match segment {
        Segment::Slots(range) => push_below(all, layout, range, j),
        Segment::Nulls(count) => push_below_nulls(all, layout, *count),
    }
}

/// The cells of child `j`.
pub(crate) fn child_segments<'a>(
    alloc: Global,
    layout: Layout,
    segments: &[Segment<'a>],
    j: usize,
) -> Result<Vec<Segment<'a>>, AllocError>
    requires { All (OfSlots (HasChild layout j)) segments.now }
    ensures cells { IfOk result (λ below. segments_cells below.items
        ≡ child_cells layout j (segments_cells segments.now)) }
    ensures lies { IfOk result (λ below. (t : Rose Layouts) (m : Rose ArrayData)
        → All (OfSlots (ChildLies t m j)) segments.now → All (LiesAs t m) below.items) }
{
    let mut below = Vec::new(alloc);
    for segment in segments {
        push_child(&mut below, layout, segment, j)?;
    }
    Ok(below)
}
