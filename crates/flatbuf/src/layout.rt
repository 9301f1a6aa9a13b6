//! Computes the position and size of each object of the canonical layout.

ghost use Rattle.std.specs.Prelude.{◌≡◌, ◌+◌, ◌-◌, ◌*◌, ◌^◌, ◌<◌, ◌≤◌};
ghost use Rattle.flatbuf.specs.Tree.{count, table};
ghost use Rattle.flatbuf.specs.Written.{
  up,
  up_count,
  alignment,
  field_len,
  field_place,
  field_end,
  fields_end,
  vtable_len,
  table_place,
  table_end,
  items_place,
  items_end,
  object_place,
  object_end,
  objects_end,
  Fits,
  FitAll,
};
ghost use Rattle.flatbuf.specs.Slots.{view, views};

use crate::slot::Slot;

/// The next multiple of `width`.
pub fn up_to(place: u64, width: u64) -> u64
    requires room { (1 ≤ width) × (width ≤ 8) × (place < 2 ^ 40) }
    ensures value { result ≡ up width place }
    ensures low { place ≤ result }
    ensures high { result < place + width }
{
    (place + (width - 1)) / width * width
}

/// The next position that is 4 modulo 8, where the count of a vector lies.
pub fn up_to_count(place: u64) -> u64
    requires { place < 2 ^ 40 }
    ensures value { result ≡ up_count place }
    ensures low { place ≤ result }
    ensures high { result < place + 8 }
{
    (place + 3) / 8 * 8 + 4
}

fn alignment_of(slot: &Slot) -> u64
    requires { Fits (view slot.now) }
    ensures value { result ≡ alignment (view slot.now) }
    ensures bound { (1 ≤ result) × (result ≤ 8) }
{
    match slot {
        Slot::Absent => 1,
        Slot::Number(width, _) => *width as u64,
        Slot::Text(_) => 4,
        Slot::Structs(_, _) => 4,
        Slot::Table(_) => 4,
        Slot::References(_) => 4,
    }
}

fn size_of_field(slot: &Slot) -> u64
    requires { Fits (view slot.now) }
    ensures value { result ≡ field_len (view slot.now) }
    ensures bound { result ≤ 8 }
{
    match slot {
        Slot::Absent => 0,
        Slot::Number(width, _) => *width as u64,
        Slot::Text(_) => 4,
        Slot::Structs(_, _) => 4,
        Slot::Table(_) => 4,
        Slot::References(_) => 4,
    }
}

/// The position of a field in its table, where `cursor` is the end of the one before.
pub fn place_of_field(cursor: u64, slot: &Slot) -> u64
    requires fits { Fits (view slot.now) }
    requires room { cursor < 2 ^ 33 }
    ensures value { result ≡ field_place cursor (view slot.now) }
    ensures low { cursor ≤ result }
    ensures high { result < cursor + 8 }
{
    up_to(cursor, alignment_of(slot))
}

/// The end of a field in its table, where `cursor` is the end of the one before.
pub fn end_of_field(cursor: u64, slot: &Slot) -> u64
    requires fits { Fits (view slot.now) }
    requires room { cursor < 2 ^ 33 }
    ensures value { result ≡ field_end cursor (view slot.now) }
    ensures low { cursor ≤ result }
    ensures high { result < cursor + 16 }
{
    place_of_field(cursor, slot) + size_of_field(slot)
}

/// The size of a table whose fields from `cursor` on are `slots`.
#[tactic(auto, using(crate::proofs::Ends::ends, crate::proofs::Views::slots))]
pub fn end_of_fields(cursor: u64, slots: &[Slot]) -> u64
    requires fits { FitAll (views slots.now) }
    requires room { fields_end cursor (views slots.now) < 2 ^ 32 }
    ensures value { result ≡ fields_end cursor (views slots.now) }
{
    let mut end = cursor;
    for slot in slots {
        end = end_of_field(end, slot);
    }
    up_to(end, 4)
}

#[tactic(auto, using(crate::proofs::Views::slots))]
/// The size in bytes of the vtable of these slots.
pub fn len_of_vtable(slots: &[Slot]) -> u64
    requires { vtable_len (views slots.now) < 2 ^ 16 }
    ensures { result ≡ vtable_len (views slots.now) }
{
    4 + 2 * slots.len() as u64
}

/// The position of a table whose vtable is laid out from `at` on.
pub fn place_of_table(at: u64, slots: &[Slot]) -> u64
    requires size { vtable_len (views slots.now) < 2 ^ 16 }
    requires room { at < 2 ^ 32 }
    ensures value { result ≡ table_place at (views slots.now) }
    ensures low { at ≤ result }
    ensures high { result < at + 2 ^ 17 }
{
    up_to(up_to(at, 8) + len_of_vtable(slots), 8)
}

/// The end of a table whose vtable is laid out from `at` on, without the objects that it refers to.
pub fn end_of_table(at: u64, slots: &[Slot]) -> u64
    requires fits { Fits (table (views slots.now)) }
    requires room { at < 2 ^ 32 }
    ensures value { result ≡ table_end at (views slots.now) }
    ensures low { at ≤ result }
    ensures high { result < at + 2 ^ 18 }
{
    place_of_table(at, slots) + end_of_fields(4, slots)
}

/// Where the elements of a vector begin whose count is laid out from `at` on.
pub fn place_of_items(at: u64) -> u64
    requires { at < 2 ^ 32 }
    ensures value { result ≡ items_place at }
    ensures low { at ≤ result }
    ensures high { result < at + 12 }
{
    up_to_count(at) + 4
}

#[tactic(auto, using(crate::proofs::Views::slots))]
/// The end of the elements of a vector of references whose count is laid out from `at` on.
pub fn end_of_items(at: u64, slots: &[Slot]) -> u64
    requires { items_end at (views slots.now) < 2 ^ 32 }
    ensures value { result ≡ items_end at (views slots.now) }
{
    place_of_items(at) + 4 * slots.len() as u64
}

/// The position to which a reference to the object of `slot` points.
#[tactic(auto, using(crate::proofs::Views::slots))]
pub fn place_of_object(at: u64, slot: &Slot) -> u64
    requires fits { Fits (view slot.now) }
    requires room { at < 2 ^ 32 }
    ensures value { result ≡ object_place at (view slot.now) }
    ensures low { at ≤ result }
{
    match slot {
        Slot::Absent => at,
        Slot::Number(_, _) => at,
        Slot::Text(_) => up_to_count(at),
        Slot::Structs(_, _) => up_to_count(at),
        Slot::Table(slots) => place_of_table(at, slots),
        Slot::References(_) => up_to_count(at),
    }
}

/// Where the object of `slot` ends, with all that it refers to.
#[cycle(ends)]
#[tactic(auto, using(crate::proofs::Ends::ends, crate::proofs::Views::slots))]
pub fn end_of_object(at: u64, slot: &Slot) -> u64
    requires fits { Fits (view slot.now) }
    requires room { object_end at (view slot.now) < 2 ^ 32 }
    ensures value { result ≡ object_end at (view slot.now) }
{
    match slot {
        Slot::Absent => at,
        Slot::Number(_, _) => at,
        Slot::Text(bytes) => place_of_items(at) + bytes.len() as u64 + 1,
        Slot::Structs(_, bytes) => place_of_items(at) + bytes.len() as u64,
        Slot::Table(slots) => end_of_objects(end_of_table(at, slots), slots),
        Slot::References(slots) => end_of_objects(end_of_items(at, slots), slots),
    }
}

#[cycle(ends)]
#[tactic(auto, using(crate::proofs::Ends::ends, crate::proofs::Views::slots))]
pub fn end_of_objects(at: u64, slots: &[Slot]) -> u64
    requires fits { FitAll (views slots.now) }
    requires room { objects_end at (views slots.now) < 2 ^ 32 }
    ensures value { result ≡ objects_end at (views slots.now) }
{
    let mut end = at;
    for slot in slots {
        end = end_of_object(end, slot);
    }
    end
}
