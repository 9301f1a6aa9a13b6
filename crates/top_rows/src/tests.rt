//! An order of a few rows, with ties, a null, and keys that have one rank.

use crate::Ordered;
use std::alloc::{AllocError, Global};
use std::test::Fail;
use values::{Kind, Row, Value};
use view_lang::{Direction, OrderBy};

fn row(alloc: Global, kind: Kind) -> Result<Row, AllocError> {
    let mut cells = Vec::new(alloc);
    cells.push(Value { kind })?;
    Ok(cells)
}

#[test]
fn gives_the_first_rows(rt: HostRuntime) -> Result<(), Fail> {
    let falling = OrderBy {
        column: 0,
        direction: Direction::Descending,
    };
    let mut ordered = Ordered::new(rt.alloc(), &[falling])?;
    let nine = row(rt.alloc(), Kind::Int(9))?;
    let seven = row(rt.alloc(), Kind::Int(7))?;
    ordered.insert(1, &row(rt.alloc(), Kind::Null)?.as_slice())?;
    ordered.insert(4, &seven.as_slice())?;
    ordered.insert(3, &nine.as_slice())?;
    ordered.insert(2, &seven.as_slice())?;
    assert_eq!(rt; ordered.first(rt.alloc(), 2)?.as_slice(), [3, 2].as_slice());
    ordered.remove(3, &nine.as_slice())?;
    assert_eq!(rt;
        ordered.first_of_view(rt.alloc(), 2)?.as_slice(),
        [2, 4].as_slice()
    );
    assert_eq!(rt;
        ordered.first(rt.alloc(), 4)?.as_slice(),
        [2, 4, 1].as_slice()
    );
    Ok(())
}

#[test]
fn makes_an_order_of_its_parts(rt: HostRuntime) -> Result<(), Fail> {
    let rising = OrderBy {
        column: 0,
        direction: Direction::Ascending,
    };
    let mut ordered = Ordered::new(rt.alloc(), &[rising])?;
    ordered.insert(1, &row(rt.alloc(), Kind::Null)?.as_slice())?;
    ordered.insert(2, &row(rt.alloc(), Kind::Int(9))?.as_slice())?;
    ordered.insert(3, &row(rt.alloc(), Kind::Int(7))?.as_slice())?;
    let parts = ordered.into_parts()?;
    assert_eq!(rt; parts.order_entries.len(), 3);
    let made = Ordered::from_parts(rt.alloc(), parts)?;
    assert_eq!(rt; made.first(rt.alloc(), 3)?.as_slice(), [3, 2, 1].as_slice());
    Ok(())
}

#[test]
fn follows_rows_that_come_and_go(rt: HostRuntime) -> Result<(), Fail> {
    let rising = OrderBy {
        column: 0,
        direction: Direction::Ascending,
    };
    let mut ordered = Ordered::new(rt.alloc(), &[rising])?;
    let nine = row(rt.alloc(), Kind::Int(9))?;
    let seven = row(rt.alloc(), Kind::Int(7))?;
    ordered.come(6, &nine.as_slice())?;
    ordered.come(2, &nine.as_slice())?;
    ordered.come(8, &seven.as_slice())?;
    assert_eq!(rt;
        ordered.first(rt.alloc(), 3)?.as_slice(),
        [8, 2, 6].as_slice()
    );
    ordered.go(2, &nine.as_slice())?;
    assert_eq!(rt; ordered.first(rt.alloc(), 3)?.as_slice(), [8, 6].as_slice());
    Ok(())
}

/// The first rows of an order by numbers of 64 bits and a null in this direction; with a number of more bits; and without
/// that one and a row with the least.
fn first_of_numbers(alloc: Global, direction: Direction) -> Result<[Vec<usize>; 3], AllocError> {
    let mut ordered = Ordered::new(
        alloc,
        &[OrderBy {
            column: 0,
            direction,
        }],
    )?;
    let least = row(alloc, Kind::Int(i64::MIN as i128))?;
    let greatest = row(alloc, Kind::Int(i64::MAX as i128))?;
    let beyond = row(alloc, Kind::Int(i64::MAX as i128 + 1))?;
    ordered.come(1, &greatest.as_slice())?;
    ordered.come(2, &least.as_slice())?;
    ordered.come(0, &row(alloc, Kind::Int(-1))?.as_slice())?;
    ordered.come(4, &row(alloc, Kind::Int(0))?.as_slice())?;
    ordered.come(6, &row(alloc, Kind::Null)?.as_slice())?;
    ordered.come(3, &least.as_slice())?;
    let pairs = ordered.first(alloc, 6)?;
    ordered.come(5, &beyond.as_slice())?;
    let entries = ordered.first(alloc, 9)?;
    ordered.go(5, &beyond.as_slice())?;
    ordered.go(2, &least.as_slice())?;
    let left = ordered.first(alloc, 3)?;
    Ok([pairs, entries, left])
}

#[test]
fn orders_numbers_of_64_bits_and_others(rt: HostRuntime) -> Result<(), Fail> {
    let [pairs, entries, left] = first_of_numbers(rt.alloc(), Direction::Ascending)?;
    assert_eq!(rt; pairs.as_slice(), [2, 3, 0, 4, 1, 6].as_slice());
    assert_eq!(rt; entries.as_slice(), [2, 3, 0, 4, 1, 5, 6].as_slice());
    assert_eq!(rt; left.as_slice(), [3, 0, 4].as_slice());
    let [pairs, entries, left] = first_of_numbers(rt.alloc(), Direction::Descending)?;
    assert_eq!(rt; pairs.as_slice(), [1, 4, 0, 2, 3, 6].as_slice());
    assert_eq!(rt; entries.as_slice(), [5, 1, 4, 0, 2, 3, 6].as_slice());
    assert_eq!(rt; left.as_slice(), [1, 4, 0].as_slice());
    Ok(())
}

#[test]
fn follows_an_order_of_two_columns(rt: HostRuntime) -> Result<(), Fail> {
    let rising = OrderBy {
        column: 0,
        direction: Direction::Ascending,
    };
    let falling = OrderBy {
        column: 1,
        direction: Direction::Descending,
    };
    let mut ordered = Ordered::new(rt.alloc(), &[rising, falling])?;
    let mut low = row(rt.alloc(), Kind::Int(7))?;
    low.push(Value { kind: Kind::Int(1) })?;
    let mut high = row(rt.alloc(), Kind::Int(7))?;
    high.push(Value { kind: Kind::Int(2) })?;
    ordered.come(1, &low.as_slice())?;
    ordered.come(2, &high.as_slice())?;
    ordered.come(3, &high.as_slice())?;
    let parts = ordered.into_parts()?;
    let mut made = Ordered::from_parts(rt.alloc(), parts)?;
    assert_eq!(rt; made.first(rt.alloc(), 3)?.as_slice(), [2, 3, 1].as_slice());
    made.go(2, &high.as_slice())?;
    assert_eq!(rt; made.first(rt.alloc(), 3)?.as_slice(), [3, 1].as_slice());
    Ok(())
}

/// Texts and numbers in ascending order, and null. Some of them have the rank of their neighbour.
fn ascending_kinds(alloc: Global) -> Result<Vec<Kind>, AllocError> {
    let mut kinds = Vec::new(alloc);
    for number in [i128::MIN, -(1 << 60), -1, 0, 1 << 60, i128::MAX] {
        kinds.push(Kind::Int(number))?;
    }
    for text in ["", "row", "row 0000", "row 00001", "row 00002", "row 0001"] {
        kinds.push(Kind::Utf8(String::from_str(alloc, text)?))?;
    }
    kinds.push(Kind::Null)?;
    Ok(kinds)
}

#[test]
fn orders_keys_of_one_rank(rt: HostRuntime) -> Result<(), Fail> {
    let rising = OrderBy {
        column: 0,
        direction: Direction::Ascending,
    };
    let falling = OrderBy {
        column: 0,
        direction: Direction::Descending,
    };
    let numbers = [0, 5, 10, 2, 7, 12, 4, 9, 1, 6, 11, 3, 8];
    let mut up = Ordered::new(rt.alloc(), &[rising])?;
    let mut down = Ordered::new(rt.alloc(), &[falling])?;
    for (number, kind) in numbers.iter().zip(ascending_kinds(rt.alloc())?) {
        let row = row(rt.alloc(), kind)?;
        up.insert(*number, &row.as_slice())?;
        down.insert(*number, &row.as_slice())?;
    }
    assert_eq!(rt; up.first(rt.alloc(), 13)?.as_slice(), numbers.as_slice());
    assert_eq!(rt;
        down.first(rt.alloc(), 13)?.as_slice(),
        [3, 11, 6, 1, 9, 4, 12, 7, 2, 10, 5, 0, 8].as_slice()
    );
    Ok(())
}

/// A row of a text and a number.
fn texted(alloc: Global, text: &str, number: i128) -> Result<Row, AllocError> {
    let mut cells = row(alloc, Kind::Utf8(String::from_str(alloc, text)?))?;
    cells.push(Value {
        kind: Kind::Int(number),
    })?;
    Ok(cells)
}

/// The numbers of rows in an order by a text in this direction, and then by a falling number; the same with a text of 15
/// bytes, which isn't short; and of the first rows without the first of them.
fn in_order_of_texts(alloc: Global, direction: Direction) -> Result<[Vec<usize>; 3], AllocError> {
    let by_text = OrderBy {
        column: 0,
        direction,
    };
    let by_number = OrderBy {
        column: 1,
        direction: Direction::Descending,
    };
    let mut ordered = Ordered::new(alloc, &[by_text, by_number])?;
    let texts = ["abcdefghijklmn", "", "a", "abcdefgh\0", "abcdefgh", "a\0"];
    for (number, text) in texts.iter().enumerate() {
        ordered.come(number, &texted(alloc, text, 1)?.as_slice())?;
    }
    ordered.come(6, &texted(alloc, "a", 2)?.as_slice())?;
    ordered.come(7, &row(alloc, Kind::Null)?.as_slice())?;
    let short = ordered.first(alloc, 9)?;
    ordered.come(8, &texted(alloc, "abcdefghijklmno", 1)?.as_slice())?;
    let all = ordered.first(alloc, 9)?;
    ordered.go(8, &texted(alloc, "abcdefghijklmno", 1)?.as_slice())?;
    ordered.go(2, &texted(alloc, "a", 1)?.as_slice())?;
    let left = ordered.first(alloc, 3)?;
    Ok([short, all, left])
}

#[test]
fn orders_short_texts_and_others(rt: HostRuntime) -> Result<(), Fail> {
    let [short, all, left] = in_order_of_texts(rt.alloc(), Direction::Ascending)?;
    assert_eq!(rt; short.as_slice(), [1, 6, 2, 5, 4, 3, 0, 7].as_slice());
    assert_eq!(rt; all.as_slice(), [1, 6, 2, 5, 4, 3, 0, 8, 7].as_slice());
    assert_eq!(rt; left.as_slice(), [1, 6, 5].as_slice());
    let [short, all, left] = in_order_of_texts(rt.alloc(), Direction::Descending)?;
    assert_eq!(rt; short.as_slice(), [0, 3, 4, 5, 6, 2, 1, 7].as_slice());
    assert_eq!(rt; all.as_slice(), [8, 0, 3, 4, 5, 6, 2, 1, 7].as_slice());
    assert_eq!(rt; left.as_slice(), [0, 3, 4].as_slice());
    Ok(())
}

#[test]
fn makes_an_order_of_short_keys_of_its_parts(rt: HostRuntime) -> Result<(), Fail> {
    let by = |column| OrderBy {
        column,
        direction: Direction::Descending,
    };
    let mut ordered = Ordered::new(rt.alloc(), &[by(1), by(0)])?;
    ordered.come(3, &texted(rt.alloc(), "a", -1)?.as_slice())?;
    ordered.come(1, &texted(rt.alloc(), "b", -1)?.as_slice())?;
    ordered.come(2, &texted(rt.alloc(), "c", -2)?.as_slice())?;
    let made = Ordered::from_parts(rt.alloc(), ordered.into_parts()?)?;
    assert_eq!(rt; made.first(rt.alloc(), 4)?.as_slice(), [1, 3, 2].as_slice());
    Ok(())
}
