//! Cells, seen where they lie.

ghost use Rattle.std.specs.Prelude.{◌≡◌, ◌+◌, ◌*◌, ◌<◌, ◌≤◌, Ok, length, slice_get, IfSome, true};
ghost use Rattle.std.specs.Str.{is_utf8};
ghost use Rattle.values.specs.Reading.{IsValid};
ghost use Rattle.values.specs.Rose.{node, kids_of};
ghost use Rattle.values.specs.declared.layout.Layout.TheVariants.{List as Listed};
ghost use Rattle.array_layout.specs.Placing.{bytes_of};
ghost use Rattle.array_layout.specs.Buffers.{slice_at};
ghost use Rattle.array_layout.specs.Cells.{cell, first_cell, items_at, len_of, list_of, row, value_by};
ghost use Rattle.array_layout.specs.Sound.{AreFit, IsSound, LiesIn};
ghost use Rattle.showing.specs.Shown.{IsReadable, AreItems, items_read, shown};

use array_layout::{
    Array, ArrayData, bit, buffer, decimal, fixed, is_null_at, number, offset, slice,
};
use arrays::{Column, find_value};
use simdutf8::basic::from_utf8;
use values::{Kind, Layout, OffsetWidth, Value};

/// What a cell holds, where it lies.
#[derive(Clone, Copy)]
pub(crate) enum Cell<'a> {
    Null,
    Bool(bool),
    Int(i128),
    Utf8(&'a str),
    Binary(&'a [u8]),
    List(Items<'a>),
    Struct(Members<'a>),
    /// The items of a list that is a `Value` (of a dictionary).
    HeldList(&'a [Value]),
    /// The children of a struct that is a `Value` (of a dictionary).
    HeldStruct(&'a [Value]),
}

/// The items of a list: the slots `from` to `to` of an array.
#[derive(Clone, Copy)]
pub(crate) struct Items<'a> {
    pub body: &'a [u8],
    pub array: &'a Array,
    pub from: usize,
    pub to: usize,
}

/// The children of a struct: slot `at` of each of some arrays.
#[derive(Clone, Copy)]
pub(crate) struct Members<'a> {
    pub body: &'a [u8],
    pub arrays: &'a [Array],
    pub at: usize,
}

/// Cell `i` of a column.
pub(crate) fn cell_at(column: &Column, i: usize) -> Cell<'_>
    requires { i < length column.now.cells }
    ensures value { IfSome (slice_get column.now.cells i) (λ d. shown result ≡ Ok d) }
    ensures readable { IsReadable result }
{
    let parts = column.parts();
    slot_cell(parts.body, parts.own, parts.children, i)
}

/// The cell of slot `i` of an array.
pub(crate) fn array_cell<'a>(body: &'a [u8], array: &'a Array, i: usize) -> Cell<'a>
    requires sound { IsSound body.now array.now }
    requires below { i < len_of array.now }
    requires valid { IsValid (cell body.now array.now i) }
    ensures value { shown result ≡ cell body.now array.now i }
    ensures readable { IsReadable result }
{
    slot_cell(body, &array.own, &array.children, i)
}

#[tactic(auto, using(arrays::proofs::CopyLemmas::null_laws), unfolding(array_layout::specs::Cells::cell_by))]
fn slot_cell<'a>(body: &'a [u8], own: &'a ArrayData, children: &'a [Array], i: usize) -> Cell<'a>
    requires sound { IsSound body.now (node own.now (kids_of children.now)) }
    requires below { i < own.now.len }
    requires valid { IsValid (cell body.now (node own.now (kids_of children.now)) i) }
    ensures value { shown result ≡ cell body.now (node own.now (kids_of children.now)) i }
    ensures readable { IsReadable result }
{
    if is_null_at(buffer(body, &own.validity), i) {
        return Cell::Null;
    }
    match &own.dictionary {
        Some(dictionary) => value_cell(find_value(body, own, dictionary, i).unwrap()),
        None => valid_cell(body, own, children, i),
    }
}

/// The cell of a value.
pub(crate) fn value_cell(value: &Value) -> Cell<'_>
    ensures value { shown result ≡ Ok value.now }
    ensures readable { IsReadable result }
{
    match &value.kind {
        Kind::Null => Cell::Null,
        Kind::Bool(truth) => Cell::Bool(*truth),
        Kind::Int(number) => Cell::Int(*number),
        Kind::Utf8(text) => Cell::Utf8(text.as_str()),
        Kind::Binary(bytes) => Cell::Binary(bytes.as_slice()),
        Kind::List(items) => Cell::HeldList(items.as_slice()),
        Kind::Struct(children) => Cell::HeldStruct(children.as_slice()),
    }
}

/// The cell of a slot that isn't null, of an array without a dictionary.
#[tactic(auto, using(arrays::proofs::CopyLemmas::value_laws))]
fn valid_cell<'a>(body: &'a [u8], own: &'a ArrayData, children: &'a [Array], i: usize) -> Cell<'a>
    requires sound { IsSound body.now (node own.now (kids_of children.now)) }
    requires below { i < own.now.len }
    requires valid { IsValid
        (value_by own.now.layout body.now own.now (λ j. first_cell body.now (kids_of children.now) j)
        (λ j. row body.now (kids_of children.now) j) i) }
    ensures value { shown result
        ≡ value_by own.now.layout body.now own.now (λ j. first_cell body.now (kids_of children.now) j)
        (λ j. row body.now (kids_of children.now) j) i }
    ensures readable { IsReadable result }
{
    let values = buffer(body, &own.values);
    match own.layout {
        Layout::Bool => Cell::Bool(bit(values, i)),
        Layout::Int { width, signed } => Cell::Int(number(values, width, signed, i)),
        Layout::Decimal { .. } => Cell::Int(decimal(values, i)),
        Layout::FixedSizeBinary { width } => Cell::Binary(fixed(values, width as usize, i)),
        Layout::Utf8 { offsets } => Cell::Utf8(text_of(bytes_slot(body, own, offsets, i))),
        Layout::Binary { offsets } => Cell::Binary(bytes_slot(body, own, offsets, i)),
        Layout::List { offsets } => Cell::List(list_slot(body, own, children, offsets, i)),
        Layout::Struct => Cell::Struct(Members {
            body,
            arrays: children,
            at: i,
        }),
    }
}

/// The bytes of slot `i`.
fn bytes_slot<'a>(body: &'a [u8], own: &ArrayData, width: OffsetWidth, i: usize) -> &'a [u8]
    requires offsets { LiesIn body.now own.now.offsets }
    requires values { LiesIn body.now own.now.values }
    requires fit { AreFit width (bytes_of body.now own.now.offsets) own.now.len own.now.values.len }
    requires below { i < own.now.len }
    ensures { result.now ≡ slice_at width (bytes_of body.now own.now.offsets) (bytes_of body.now own.now.values) i }
{
    slice(
        buffer(body, &own.offsets),
        buffer(body, &own.values),
        width,
        i,
    )
}

/// Bytes, which must be UTF-8, as a text.
#[tactic(auto, using(arrays::proofs::Utf8Tests::text_tests))]
fn text_of(bytes: &[u8]) -> &str
    requires { is_utf8 bytes.now ≡ true }
    ensures { result.now ≡ bytes.now }
{
    from_utf8(bytes).unwrap()
}

/// The items of slot `i` of an array of lists.
#[tactic(auto, using(arrays::proofs::CopyLemmas::list_laws))]
fn list_slot<'a>(
    body: &'a [u8],
    own: &ArrayData,
    children: &'a [Array],
    width: OffsetWidth,
    i: usize,
) -> Items<'a>
    requires sound { IsSound body.now (node own.now (kids_of children.now)) }
    requires listed { own.now.layout ≡ Listed width }
    requires below { i < own.now.len }
    requires valid { IsValid
        (items_at (λ j. first_cell body.now (kids_of children.now) j) width (bytes_of body.now own.now.offsets) i) }
    ensures value { items_read result.body.now result.array.now result.from result.to
        ≡ list_of (items_at (λ j. first_cell body.now (kids_of children.now) j) width
        (bytes_of body.now own.now.offsets) i) }
    ensures readable { AreItems result.body.now result.array.now result.from result.to }
{
    let offsets = buffer(body, &own.offsets);
    Items {
        body,
        array: &children[0],
        from: offset(offsets, width, i),
        to: offset(offsets, width, i + 1),
    }
}
