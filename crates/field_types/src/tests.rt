//! A field of each kind, byte by byte.

use crate::{TypeKind, may_have, read_bool, read_kind, read_type, type_number, type_table};
use flatbuf::Buf;
use std::alloc::Global;
use std::test::Fail;
use values::{ColType, DateUnit, IntWidth, OffsetWidth, StreamFault, TimeUnit, Zone};

const WITH_CHILDREN: [u8; 3] = [12, 13, 21];

/// The root table, a field of this kind, whose type table has slots at these offsets, and lies at 40 with three numbers
/// of 32 bits after its start. The second may point to the third, the count of a text.
fn field(kind: u8, slots: [u8; 3], words: [[u8; 2]; 3]) -> [u8; 60] {
    let [[a, b], [c, d], [e, f]] = words;
    let [first, second, third] = slots;
    [
        16, 0, 0, 0, 12, 0, 12, 0, 0, 0, 0, 0, 4, 0, 8, 0, 12, 0, 0, 0, kind, 0, 0, 0, 16, 0, 0, 0,
        10, 0, 16, 0, first, 0, second, 0, third, 0, 0, 0, 12, 0, 0, 0, a, b, 0, 0, c, d, 0, 0, e,
        f, 0, 0, b'U', b'T', b'C', 0,
    ]
}

fn read_field(alloc: Global, bytes: &[u8]) -> Result<ColType, StreamFault> {
    let table = crate::readable(Buf::root(bytes))?;
    let kind = read_kind(&table)?;
    read_type(alloc, kind, &table)
}

fn rows(alloc: Global) -> Result<Vec<(u8, [u8; 3], [[u8; 2]; 3], ColType)>, Fail> {
    let none = [[0, 0]; 3];
    let zone = Zone::new(alloc, "UTC")?;
    let (small, large) = (OffsetWidth::Bits32, OffsetWidth::Bits64);
    let rows = vec![in alloc;
        (
            2,
            [4, 8, 0],
            [[32, 0], [1, 0], [0, 0]],
            ColType::Int {
                width: IntWidth::Bits32,
                signed: true
            }
        ),
        (4, [0; 3], none, ColType::Binary { offsets: small }),
        (5, [0; 3], none, ColType::Utf8 { offsets: small }),
        (6, [0; 3], none, ColType::Bool),
        (
            7,
            [4, 8, 0],
            [[38, 0], [2, 0], [0, 0]],
            ColType::Decimal {
                precision: 38,
                scale: 2
            }
        ),
        (
            8,
            [0; 3],
            none,
            ColType::Date {
                unit: DateUnit::Millisecond
            }
        ),
        (
            9,
            [0; 3],
            none,
            ColType::Time {
                unit: TimeUnit::Millisecond
            }
        ),
        (
            10,
            [0, 8, 0],
            [[0, 0], [4, 0], [3, 0]],
            ColType::Timestamp {
                unit: TimeUnit::Second,
                zone
            }
        ),
        (12, [0; 3], none, ColType::List { offsets: small }),
        (13, [0; 3], none, ColType::Struct),
        (
            15,
            [4, 0, 0],
            [[3, 1], [0, 0], [0, 0]],
            ColType::FixedSizeBinary { width: 259 }
        ),
        (
            18,
            [4, 0, 0],
            [[3, 0], [0, 0], [0, 0]],
            ColType::Duration {
                unit: TimeUnit::Nanosecond
            }
        ),
        (19, [0; 3], none, ColType::Binary { offsets: large }),
        (20, [0; 3], none, ColType::Utf8 { offsets: large }),
        (21, [0; 3], none, ColType::List { offsets: large }),
    ]?;
    Ok(rows)
}

#[test]
fn reads_each_kind(rt: HostRuntime) -> Result<(), Fail> {
    let alloc = rt.alloc();
    for (kind, slots, words, expected) in &rows(alloc)? {
        let stored = read_field(alloc, &field(*kind, *slots, *words)).map_err(|_| "refused")?;
        assert_eq!(rt; stored, expected.copy(alloc)?);
        assert_eq!(rt; type_number(&stored), *kind);
        assert!(rt; type_table(alloc, &stored).is_ok());
        assert_eq!(rt;
            may_have(TypeKind::of(&stored), 1),
            WITH_CHILDREN.contains(kind)
        );
    }
    Ok(())
}

#[test]
fn refuses_what_is_out_of_range(rt: HostRuntime) -> Result<(), Fail> {
    let rows = [
        (
            3,
            [4, 0, 0],
            [[1, 0], [0, 0], [0, 0]],
            StreamFault::UnsupportedType,
        ),
        (
            7,
            [4, 8, 12],
            [[9, 0], [2, 0], [0, 1]],
            StreamFault::UnsupportedType,
        ),
        (
            7,
            [4, 0, 0],
            [[39, 0], [0, 0], [0, 0]],
            StreamFault::BadType,
        ),
        (
            9,
            [4, 8, 0],
            [[2, 0], [32, 0], [0, 0]],
            StreamFault::BadType,
        ),
    ];
    for (kind, slots, words, fault) in rows {
        let read = read_field(rt.alloc(), &field(kind, slots, words));
        assert!(rt; matches!(read, Err(found) if found == fault));
    }
    Ok(())
}

#[test]
fn reads_a_bool_where_it_lies(rt: HostRuntime) -> Result<(), Fail> {
    let bytes = field(2, [4, 8, 0], [[32, 0], [1, 0], [0, 0]]);
    let table = Buf::root(&bytes).map_err(|_| "unreadable")?;
    assert!(rt; matches!(read_bool(&table, 1), Ok(false)));
    assert!(rt; matches!(read_bool(&table, 2), Ok(true)));
    Ok(())
}
