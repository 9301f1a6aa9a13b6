//! What each public function writes of two columns over bytes that were written by hand.

ghost use Rattle.std.specs.Prelude.{◌<◌, All, IsTrue, length};

use crate::{Table, write_count, write_csv_names, write_csv_row};
use array_layout::{Array, ArrayData, BufferRange};
use arrays::Column;
use schema_meta::Field;
use std::alloc::{AllocError, Global};
use std::rc::Rc;
use std::test::Fail;
use values::{ColType, IntWidth, Layout, OffsetWidth};

const NOWHERE: BufferRange = BufferRange { from: 0, len: 0 };

/// Validity of two slots, two numbers, a byte between, three offsets, and the bytes of two texts.
const BODY: [u8; 20] = [
    0x02, 7, 0xF4, 0, 0, 0, 0, 0, 1, 0, 0, 0, 4, 0, 0, 0, b'a', b'x', b',', b'y',
];

/// Null and -12.
fn numbers(alloc: Global) -> Result<Column, Fail> {
    let body = Rc::new(alloc, Vec::from_slice(alloc, &BODY)?)?;
    let own = ArrayData {
        layout: Layout::Int {
            width: IntWidth::Bits8,
            signed: true,
        },
        dictionary: None,
        len: 2,
        nulls: 1,
        validity: BufferRange { from: 0, len: 1 },
        offsets: NOWHERE,
        values: BufferRange { from: 1, len: 2 },
    };
    let root = Array {
        own,
        children: Vec::new(alloc),
    };
    Ok(Column::check(body, root)?)
}

/// Two texts, of which the second has a comma.
fn texts(alloc: Global) -> Result<Column, Fail> {
    let body = Rc::new(alloc, Vec::from_slice(alloc, &BODY)?)?;
    let own = ArrayData {
        layout: Layout::Utf8 {
            offsets: OffsetWidth::Bits32,
        },
        dictionary: None,
        len: 2,
        nulls: 0,
        validity: NOWHERE,
        offsets: BufferRange { from: 4, len: 12 },
        values: BufferRange { from: 16, len: 4 },
    };
    let root = Array {
        own,
        children: Vec::new(alloc),
    };
    Ok(Column::check(body, root)?)
}

fn field(alloc: Global, name: &str, stored: ColType) -> Result<Field, AllocError> {
    Ok(Field {
        name: String::from_str(alloc, name)?,
        nullable: true,
        stored,
        encoding: None,
        children: Vec::new(alloc),
    })
}

fn fields(alloc: Global) -> Result<Vec<Field>, AllocError> {
    let numbers = ColType::Int {
        width: IntWidth::Bits8,
        signed: true,
    };
    let texts = ColType::Utf8 {
        offsets: OffsetWidth::Bits32,
    };
    Ok(vec![in alloc; field(alloc, "n", numbers)?, field(alloc, "a,b", texts)?]?)
}

/// Whether all columns have a cell at this index.
fn have(columns: &[Column], row: usize) -> bool
    ensures { IsTrue result → All (λ c. row < length c.cells) columns.now }
{
    columns.iter().all(|column| row < column.len())
}

#[test]
fn lines_of_csv(rt: HostRuntime) -> Result<(), Fail> {
    let alloc = rt.alloc();
    let fields = fields(alloc)?;
    let columns = vec![in alloc; numbers(alloc)?, texts(alloc)?]?;
    let mut out = Vec::new(alloc);
    write_csv_names(&fields, &mut out)?;
    for row in 0..2 {
        if have(&columns, row) {
            write_csv_row(&fields, &columns, row, &mut out)?;
        }
    }
    let wanted = "n,\"a,b\"\n,a\n-12,\"x,y\"\n";
    assert_eq!(rt; out.as_slice(), wanted.as_bytes());
    Ok(())
}

#[test]
fn lines_of_a_table(rt: HostRuntime) -> Result<(), Fail> {
    let alloc = rt.alloc();
    let fields = fields(alloc)?;
    let columns = vec![in alloc; numbers(alloc)?, texts(alloc)?]?;
    let mut table = Table::new(alloc, &fields)?;
    if columns.iter().all(|column| 2 <= column.len()) {
        table.measure(&fields, &columns, 2);
    }
    let mut out = Vec::new(alloc);
    table.write_names(&fields, &mut out)?;
    for row in 0..2 {
        if have(&columns, row) {
            table.write_row(&fields, &columns, row, &mut out)?;
        }
    }
    write_count(2, 3, &mut out)?;
    let wanted = "   n | a,b\n-----+----\nNULL | a\n -12 | x,y\n(2 of 3 rows)\n";
    assert_eq!(rt; out.as_slice(), wanted.as_bytes());
    Ok(())
}
