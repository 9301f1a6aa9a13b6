//! Ranks of a few keys.

use crate::{RankedKey, key_rank};
use std::alloc::{AllocError, Global};
use std::test::Fail;
use values::{CellView, Key};

/// Keys in ascending order. Some have the rank of their neighbour.
fn ascending_keys(alloc: Global) -> Result<Vec<Key>, AllocError> {
    let mut keys = Vec::new(alloc);
    keys.push(Key::Bool(true))?;
    for number in [i128::MIN, -(1 << 60) - 1, -1, 0, (1 << 60) - 1, i128::MAX] {
        keys.push(Key::Int(number))?;
    }
    for text in ["", "a", "b", "row 0001", "row 00010", "row 1000"] {
        if let Some(key) = Key::of_cell(alloc, CellView::Utf8(text))? {
            keys.push(key)?;
        }
    }
    keys.push(Key::Null)?;
    Ok(keys)
}

#[test]
fn ranks_are_ordered_as_keys(rt: HostRuntime) -> Result<(), Fail> {
    let mut ranks = Vec::new(rt.alloc());
    for key in ascending_keys(rt.alloc())? {
        ranks.push(key_rank(&key))?;
    }
    let expected = [
        0,
        0,
        0,
        0x0fff_ffff_ffff_ffff,
        0x1000_0000_0000_0000,
        0x1fff_ffff_ffff_ffff,
        0x1fff_ffff_ffff_ffff,
        0x2000_0000_0000_0000,
        0x2c20_0000_0000_0000,
        0x2c40_0000_0000_0000,
        0x2e4d_eee4_0606_0606,
        0x2e4d_eee4_0606_0606,
        0x2e4d_eee4_0626_0606,
        0x3fff_ffff_ffff_ffff,
    ];
    assert_eq!(rt; ranks.as_slice(), expected.as_slice());
    Ok(())
}

#[test]
fn keys_with_ranks_are_ordered_as_keys(rt: HostRuntime) -> Result<(), Fail> {
    let mut last: Option<RankedKey> = None;
    for key in ascending_keys(rt.alloc())? {
        let ranked = RankedKey::new(key);
        assert!(rt; ranked == ranked.copy(rt.alloc())?);
        if let Some(last) = &last {
            assert!(rt; *last < ranked);
        }
        last = Some(ranked);
    }
    let null = RankedKey::new(Key::Null);
    assert!(rt; null.into_key() == Key::Null);
    Ok(())
}
