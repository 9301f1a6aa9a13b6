//! Which columns are written from where their cells lie: those whose arrays are all of one form, with dictionaries at
//! the same nodes, and of the layout that is written where they have none.

ghost use Rattle.std.specs.Prelude.{◌≡◌, true, All, IfSome};
ghost use Rattle.values.specs.Rose.{Rose, node, kids_of};
ghost use Rattle.values.specs.declared.layout.Layout.{Layout as Layouts};
ghost use Rattle.array_layout.specs.declared.array.ArrayData.{ArrayData as Arrays};
ghost use Rattle.body_writer.specs.Segments.{AllLie, HasWidth, IsAlike, Lies, LiesAs, OfSlots, array_of, with_offsets};

use crate::from_columns::segment::{Segment, offset_width};
use array_layout::{Array, ArrayData};
use arrays::ColumnParts;
use values::{Layout, LayoutTree, OffsetWidth};

/// The same layout, with offsets of this width.
fn with_offsets(layout: Layout, offsets: OffsetWidth) -> Layout
    ensures { result ≡ with_offsets offsets layout }
{
    match layout {
        Layout::Utf8 { .. } => Layout::Utf8 { offsets },
        Layout::Binary { .. } => Layout::Binary { offsets },
        Layout::List { .. } => Layout::List { offsets },
        other => other,
    }
}

/// Whether two layouts are the same, but for the width of offsets.
pub(crate) fn is_alike(layout: Layout, other: Layout) -> bool
    ensures { result ≡ true → IsAlike layout other }
{
    other == with_offsets(layout, offset_width(other))
}

/// Whether an array, with those below it, is of the form of another one: both have a dictionary, or neither has one and
/// it is of this layout, but for the width of offsets.
#[cycle(lies)]
fn lies(
    layout: Layout,
    kids: &[LayoutTree],
    model: &ArrayData,
    models: &[Array],
    own: &ArrayData,
    children: &[Array],
) -> bool
    ensures { result ≡ true → Lies (node layout (kids_of kids.now)) (node model.now (kids_of models.now))
        (node own.now (kids_of children.now)) }
{
    if model.dictionary.is_some() {
        return own.dictionary.is_some();
    }
    own.dictionary.is_none() && is_alike(layout, own.layout) && all_lie(kids, models, children)
}

/// Whether each of these arrays is of the form of its model.
#[cycle(lies)]
fn all_lie(layouts: &[LayoutTree], models: &[Array], arrays: &[Array]) -> bool
    ensures { result ≡ true → AllLie (kids_of layouts.now) (kids_of models.now) (kids_of arrays.now) }
{
    let [layout, layouts @ ..] = layouts else {
        return models.is_empty() && arrays.is_empty();
    };
    let [model, models @ ..] = models else {
        return false;
    };
    let [array, arrays @ ..] = arrays else {
        return false;
    };
    lies(
        layout.layout,
        &layout.children,
        &model.own,
        &model.children,
        &array.own,
        &array.children,
    ) && all_lie(layouts, models, arrays)
}

/// Whether the array of a segment is of the model's form; nulls are of any.
fn lies_as(segment: &Segment, layout: &LayoutTree, model: ColumnParts) -> bool
    requires { OfSlots HasWidth segment.now }
    ensures { result ≡ true → LiesAs layout.now (array_of model.entry) segment.now }
{
    match segment {
        Segment::Slots(range) => lies(
            layout.layout,
            &layout.children,
            model.own,
            model.children,
            range.parts.own,
            range.parts.children,
        ),
        Segment::Nulls(_) => true,
    }
}

/// Whether the arrays of all these segments are.
fn all_lie_as(segments: &[Segment], layout: &LayoutTree, model: ColumnParts) -> bool
    requires { All (OfSlots HasWidth) segments.now }
    ensures { result ≡ true → All (LiesAs layout.now (array_of model.entry)) segments.now }
{
    for segment in segments {
        if !lies_as(segment, layout, model) {
            return false;
        }
    }
    true
}

/// The array of a segment, if it is of slots.
fn array_of<'a>(segment: &Segment<'a>) -> Option<ColumnParts<'a>>
    ensures { IfSome result (λ a. (t : Rose Layouts) (m : Rose Arrays) → LiesAs t m segment.now
        → Lies t m (array_of a)) }
{
    match segment {
        Segment::Slots(range) => Some(range.parts),
        Segment::Nulls(_) => None,
    }
}

/// The array of the first of these segments that is of slots.
fn first_array<'a>(segments: &[Segment<'a>]) -> Option<ColumnParts<'a>>
    ensures { IfSome result (λ a. (t : Rose Layouts) (m : Rose Arrays) → All (LiesAs t m) segments.now
        → Lies t m (array_of a)) }
{
    for segment in segments {
        let array = array_of(segment);
        if array.is_some() {
            return array;
        }
    }
    None
}

/// An array whose form those of all these segments have, if they have one form.
pub(crate) fn model_of<'a>(segments: &[Segment<'a>], layout: &LayoutTree) -> Option<ColumnParts<'a>>
    requires { All (OfSlots HasWidth) segments.now }
    ensures model { IfSome result (λ m. Lies layout.now (array_of m) (array_of m)) }
    ensures lie { IfSome result (λ m. All (LiesAs layout.now (array_of m)) segments.now) }
{
    let model = first_array(segments)?;
    if all_lie_as(segments, layout, model) {
        return Some(model);
    }
    None
}
