//! A file that a new one replaces.

use crate::sample::SAMPLE;
use crate::shelf::Shelf;
use liveviews::lv;
use std::alloc::Global;
use std::process::Abort;
use std::test::Fail;

/// A shelf with the file `out`, which holds `old`.
fn shelf<'a>(alloc: Global, input: &'a [u8]) -> Result<Shelf<'a>, Fail> {
    let mut shelf = Shelf::new(alloc, input);
    shelf.replaces = true;
    shelf.whole = Vec::from_slice(alloc, b"old")?;
    Ok(shelf)
}

/// Recasts the input of a shelf, or a file of it whose reads fail, to `out`: its line, its status, and `out`
/// afterwards.
fn recast(
    rt: &(impl Abort + AllocGlobal),
    shelf: &mut Shelf,
    input: &str,
    line: &str,
    status: u8,
    out: &[u8],
) -> Result<(), Fail> {
    let mut words = Vec::new(rt.alloc());
    for word in ["recast", input, "out"] {
        words.push(String::from_str(rt.alloc(), word)?)?;
    }
    let mut printed: Vec<u8> = Vec::new(rt.alloc());
    let ended = lv(rt.alloc(), words.as_slice(), shelf, &mut printed);
    assert_eq!(rt; (ended, printed.as_slice()), (status, line.as_bytes()));
    assert_eq!(rt; shelf.whole.as_slice(), out);
    Ok(())
}

/// The new file is whole when it replaces the old one.
#[test]
fn whole_streams_are_placed(rt: HostRuntime) -> Result<(), Fail> {
    let mut shelf = shelf(rt.alloc(), &SAMPLE)?;
    recast(&rt, &mut shelf, "in", "wrote 504\n", 0, &SAMPLE)?;
    assert_eq!(rt; shelf.written.as_slice(), SAMPLE.as_slice());
    assert!(rt; !shelf.made);
    recast(&rt, &mut shelf, "interrupted", "wrote 504\n", 0, &SAMPLE)?;
    assert_eq!(rt; shelf.written.len(), 1008);
    Ok(())
}

/// A stream that is refused, a source that can't be read to its end, a new file that fails at each of its puts, and one
/// that can't replace the old: the old file stays as it is, and nothing was put.
#[test]
fn beginnings_are_thrown_away(rt: HostRuntime) -> Result<(), Fail> {
    let mut cut = shelf(rt.alloc(), &SAMPLE[..300])?;
    recast(&rt, &mut cut, "in", "refused 30 Truncated\n", 1, b"old")?;
    assert!(rt; cut.written.is_empty());
    for puts in 0..3 {
        let mut failing = shelf(rt.alloc(), &SAMPLE)?;
        failing.puts = puts;
        recast(&rt, &mut failing, "in", "refused 56 Device\n", 1, b"old")?;
        assert!(rt; failing.written.is_empty(), "after {puts}");
    }
    let mut stuck = shelf(rt.alloc(), &SAMPLE)?;
    stuck.is_stuck = true;
    recast(&rt, &mut stuck, "in", "refused 56 Device\n", 1, b"old")?;
    let mut broken = shelf(rt.alloc(), &SAMPLE)?;
    recast(
        &rt,
        &mut broken,
        "broken",
        "cannot read broken\n",
        1,
        b"old",
    )?;
    assert!(rt; stuck.written.is_empty() && broken.written.is_empty());
    Ok(())
}
