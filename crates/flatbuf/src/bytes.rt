//! Appends the objects of the canonical layout, front to back.

ghost use Rattle.std.specs.Prelude.{◌≡◌, ◌+◌, ◌-◌, ◌^◌, ◌<◌, ◌≤◌, ◌*◌, ◌++◌, length, IfOk, OnOk};
ghost use Rattle.byteorder.specs.Endian.{little_bytes};
ghost use Rattle.flatbuf.specs.Tree.{text, structs, table, references, count};
ghost use Rattle.flatbuf.specs.Written.{
  zeros,
  fields_end,
  object_end,
  objects_end,
  content,
  fields,
  entry,
  entries,
  table_bytes,
  elements,
  counted,
  object,
  objects,
  whole,
  Fits,
  FitAll,
  IsWritable,
  items_place,
  items_end,
};
ghost use Rattle.flatbuf.specs.Slots.{view, views};

use crate::layout;
use crate::slot::Slot;
use byteorder::{ByteOrder, LittleEndian};
use std::alloc::{AllocError, Global};

/// Appends `count` zeros, the padding before an aligned position.
fn push_zeros(out: &mut Vec<u8>, count: u64) -> Result<(), AllocError>
    requires { count ≤ 8 }
    ensures { OnOk result (out.new.items ≡ out.old.items ++ zeros count) }
{
    let fill = [0u8; 8];
    out.extend_from_slice(&fill[..count as usize])
}

/// Appends the lowest `width` bytes of a number, the lowest first.
fn push_number(out: &mut Vec<u8>, number: u64, width: usize) -> Result<(), AllocError>
    requires width { (1 ≤ width) × (width ≤ 8) }
    requires fits { number < 256 ^ width }
    ensures { OnOk result (out.new.items ≡ out.old.items ++ little_bytes width number) }
{
    let mut bytes = [0u8; 8];
    LittleEndian::write_uint(&mut bytes, number, width);
    out.extend_from_slice(&bytes[..width])
}

/// The vtable's entry for a slot: where its field lies, counted from the table, or 0 where the slot is absent.
fn entry_of(cursor: u64, slot: &Slot) -> u64
    requires fits { Fits (view slot.now) }
    requires room { cursor < 2 ^ 32 }
    ensures { result ≡ entry cursor (view slot.now) }
{
    match slot {
        Slot::Absent => 0,
        Slot::Number(_, _) => layout::place_of_field(cursor, slot),
        Slot::Text(_) => layout::place_of_field(cursor, slot),
        Slot::Structs(_, _) => layout::place_of_field(cursor, slot),
        Slot::Table(_) => layout::place_of_field(cursor, slot),
        Slot::References(_) => layout::place_of_field(cursor, slot),
    }
}

/// Appends a field at position `place`: a number itself, or the offset to the object, which is laid out from `at` on.
#[tactic(auto, using(crate::proofs::Ends::ends, crate::proofs::Views::slots))]
fn push_content(out: &mut Vec<u8>, place: u64, at: u64, slot: &Slot) -> Result<(), AllocError>
    requires fits { Fits (view slot.now) }
    requires behind { place ≤ at }
    requires room { object_end at (view slot.now) < 2 ^ 32 }
    ensures { OnOk result (out.new.items ≡ out.old.items ++ content place at (view slot.now)) }
{
    match slot {
        Slot::Absent => Ok(()),
        Slot::Number(width, number) => push_number(out, *number, *width),
        Slot::Text(_) => push_number(out, layout::place_of_object(at, slot) - place, 4),
        Slot::Structs(_, _) => push_number(out, layout::place_of_object(at, slot) - place, 4),
        Slot::Table(_) => push_number(out, layout::place_of_object(at, slot) - place, 4),
        Slot::References(_) => push_number(out, layout::place_of_object(at, slot) - place, 4),
    }
}

/// Appends the fields of the table at `table`, the first after `cursor`, whose objects are laid out from `at` on.
#[tactic(auto, using(crate::proofs::Ends::ends, crate::proofs::Views::slots))]
fn push_fields(
    out: &mut Vec<u8>,
    table: u64,
    cursor: u64,
    at: u64,
    slots: &[Slot],
) -> Result<(), AllocError>
    requires fits { FitAll (views slots.now) }
    requires behind { table + fields_end cursor (views slots.now) ≤ at }
    requires room { objects_end at (views slots.now) < 2 ^ 32 }
    ensures { OnOk result (out.new.items ≡ out.old.items ++ fields table cursor at (views slots.now)) }
{
    let mut end = cursor;
    let mut free = at;
    for slot in slots {
        let field = layout::place_of_field(end, slot);
        push_zeros(out, field - end)?;
        push_content(out, table + field, free, slot)?;
        end = layout::end_of_field(end, slot);
        free = layout::end_of_object(free, slot);
    }
    push_zeros(out, layout::up_to(end, 4) - end)
}

/// Appends the vtable's entries for these slots, the first field after `cursor`.
#[tactic(auto, using(crate::proofs::Ends::ends, crate::proofs::Views::slots))]
fn push_entries(out: &mut Vec<u8>, cursor: u64, slots: &[Slot]) -> Result<(), AllocError>
    requires fits { FitAll (views slots.now) }
    requires room { fields_end cursor (views slots.now) < 2 ^ 16 }
    ensures { OnOk result (out.new.items ≡ out.old.items ++ entries cursor (views slots.now)) }
{
    let mut end = cursor;
    for slot in slots {
        push_number(out, entry_of(end, slot), 2)?;
        end = layout::end_of_field(end, slot);
    }
    Ok(())
}

/// Appends the offsets of a vector of references, the first at position `place`, whose objects are laid out from `at`
/// on.
#[tactic(auto, using(crate::proofs::Ends::ends, crate::proofs::Views::slots))]
fn push_elements(out: &mut Vec<u8>, place: u64, at: u64, slots: &[Slot]) -> Result<(), AllocError>
    requires fits { FitAll (views slots.now) }
    requires behind { place + 4 * length slots.now ≤ at }
    requires room { objects_end at (views slots.now) < 2 ^ 32 }
    ensures { OnOk result (out.new.items ≡ out.old.items ++ elements place at (views slots.now)) }
{
    let mut element = place;
    let mut free = at;
    for slot in slots {
        push_number(out, layout::place_of_object(free, slot) - element, 4)?;
        element += 4;
        free = layout::end_of_object(free, slot);
    }
    Ok(())
}

/// Appends the padding before a vector or string, and its count.
fn push_count(out: &mut Vec<u8>, at: u64, count: u64) -> Result<(), AllocError>
    requires { (at < 2 ^ 32) × (count < 2 ^ 32) }
    ensures { OnOk result (out.new.items ≡ out.old.items ++ counted at count) }
{
    push_zeros(out, layout::up_to_count(at) - at)?;
    push_number(out, count, 4)?;
    Ok(())
}

/// Appends a vtable and its table.
#[tactic(auto, using(crate::proofs::Ends::ends, crate::proofs::Views::slots))]
fn push_table(out: &mut Vec<u8>, at: u64, slots: &[Slot]) -> Result<(), AllocError>
    requires fits { Fits (table (views slots.now)) }
    requires room { object_end at (table (views slots.now)) < 2 ^ 32 }
    ensures { OnOk result (out.new.items ≡ out.old.items ++ table_bytes at (views slots.now)) }
{
    let vtable = layout::up_to(at, 8);
    let vtable_len = layout::len_of_vtable(slots);
    let table = layout::place_of_table(at, slots);
    push_zeros(out, vtable - at)?;
    push_number(out, vtable_len, 2)?;
    push_number(out, layout::end_of_fields(4, slots), 2)?;
    push_entries(out, 4, slots)?;
    push_zeros(out, table - (vtable + vtable_len))?;
    push_number(out, table - vtable, 4)?;
    push_fields(out, table, 4, layout::end_of_table(at, slots), slots)?;
    Ok(())
}

/// Appends the object of `slot`, and then all that it refers to.
#[cycle(objects)]
#[tactic(auto, using(crate::proofs::Ends::ends, crate::proofs::Views::slots))]
fn push_object(out: &mut Vec<u8>, at: u64, slot: &Slot) -> Result<(), AllocError>
    requires fits { Fits (view slot.now) }
    requires room { object_end at (view slot.now) < 2 ^ 32 }
    ensures { OnOk result (out.new.items ≡ out.old.items ++ object at (view slot.now)) }
{
    match slot {
        Slot::Absent => Ok(()),
        Slot::Number(_, _) => Ok(()),
        Slot::Text(bytes) => push_text(out, at, bytes),
        Slot::Structs(width, bytes) => push_structs(out, at, *width, bytes),
        Slot::Table(slots) => {
            push_table(out, at, slots)?;
            push_objects(out, layout::end_of_table(at, slots), slots)?;
            Ok(())
        }
        Slot::References(slots) => {
            push_references(out, at, slots)?;
            push_objects(out, layout::end_of_items(at, slots), slots)?;
            Ok(())
        }
    }
}

/// Appends the objects of `slots`, the first of which is laid out from `at` on.
#[cycle(objects)]
#[tactic(auto, using(crate::proofs::Ends::ends, crate::proofs::Views::slots))]
fn push_objects(out: &mut Vec<u8>, at: u64, slots: &[Slot]) -> Result<(), AllocError>
    requires fits { FitAll (views slots.now) }
    requires room { objects_end at (views slots.now) < 2 ^ 32 }
    ensures { OnOk result (out.new.items ≡ out.old.items ++ objects at (views slots.now)) }
{
    let mut free = at;
    for slot in slots {
        push_object(out, free, slot)?;
        free = layout::end_of_object(free, slot);
    }
    Ok(())
}

fn push_text(out: &mut Vec<u8>, at: u64, bytes: &[u8]) -> Result<(), AllocError>
    requires { object_end at (text bytes.now) < 2 ^ 32 }
    ensures { OnOk result (out.new.items ≡ out.old.items ++ object at (text bytes.now)) }
{
    push_count(out, at, bytes.len() as u64)?;
    out.extend_from_slice(bytes)?;
    out.push(0)?;
    Ok(())
}

fn push_structs(out: &mut Vec<u8>, at: u64, width: usize, bytes: &[u8]) -> Result<(), AllocError>
    requires width { 1 ≤ width }
    requires room { object_end at (structs width bytes.now) < 2 ^ 32 }
    ensures { OnOk result (out.new.items ≡ out.old.items ++ object at (structs width bytes.now)) }
{
    push_count(out, at, (bytes.len() / width) as u64)?;
    out.extend_from_slice(bytes)?;
    Ok(())
}

/// Appends the count and the offsets of a vector of references, without its objects.
#[tactic(auto, using(crate::proofs::Ends::ends, crate::proofs::Views::slots))]
fn push_references(out: &mut Vec<u8>, at: u64, slots: &[Slot]) -> Result<(), AllocError>
    requires fits { FitAll (views slots.now) }
    requires room { object_end at (references (views slots.now)) < 2 ^ 32 }
    ensures { OnOk result (out.new.items ≡ out.old.items
        ++ (counted at (count (views slots.now))
        ++ elements (items_place at) (items_end at (views slots.now)) (views slots.now))) }
{
    push_count(out, at, slots.len() as u64)?;
    push_elements(
        out,
        layout::place_of_items(at),
        layout::end_of_items(at, slots),
        slots,
    )?;
    Ok(())
}

/// The bytes of the table of `slots` with all that it refers to, as a message's metadata.
#[tactic(auto, using(crate::proofs::Ends::ends, crate::proofs::Views::slots))]
pub fn write(alloc: Global, slots: &[Slot]) -> Result<Vec<u8>, AllocError>
    requires { IsWritable (views slots.now) }
    ensures { IfOk result (λ v. v.items ≡ whole (views slots.now)) }
{
    let mut out = Vec::new(alloc);
    let end = layout::end_of_objects(layout::end_of_table(4, slots), slots);
    push_number(&mut out, layout::place_of_table(4, slots), 4)?;
    push_table(&mut out, 4, slots)?;
    push_objects(&mut out, layout::end_of_table(4, slots), slots)?;
    push_zeros(&mut out, layout::up_to(end, 8) - end)?;
    Ok(out)
}
