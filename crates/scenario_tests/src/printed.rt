//! What `lv` prints and how it ends, over one file to read and one to make.

use crate::sample::SAMPLE;
use crate::shelf::Shelf;
use liveviews::{FileFault, RecastFault, SourceFault, lv};
use std::process::Abort;
use std::test::Fail;
use values::Cause;

/// Runs `lv` with these words: its line, its status, and the file `out` afterwards.
fn run(
    rt: &(impl Abort + AllocGlobal),
    input: &[u8],
    words: &[&str],
    line: &str,
    status: u8,
    made: Option<usize>,
) -> Result<(), Fail> {
    let mut owned = Vec::new(rt.alloc());
    for &word in words {
        owned.push(String::from_str(rt.alloc(), word)?)?;
    }
    let mut shelf = Shelf::new(rt.alloc(), input);
    let mut out: Vec<u8> = Vec::new(rt.alloc());
    assert_eq!(rt;
        lv(rt.alloc(), owned.as_slice(), &mut shelf, &mut out),
        status
    );
    assert_eq!(rt; out.as_slice(), line.as_bytes());
    assert_eq!(rt; shelf.made.then_some(shelf.written.len()), made);
    Ok(())
}

#[test]
fn reads_that_fail_are_told(rt: HostRuntime) -> Result<(), Fail> {
    run(
        &rt,
        &SAMPLE,
        &["recast", "interrupted", "out"],
        "wrote 504\n",
        0,
        Some(504),
    )?;
    run(
        &rt,
        &SAMPLE,
        &["recast", "broken", "out"],
        "cannot read broken\n",
        1,
        None,
    )?;
    run(
        &rt,
        &SAMPLE,
        &["inspect", "interrupted"],
        "schema fields=2\nfield k int64\nfield v int64\nbatch rows=3 body=56\nend\n",
        0,
        None,
    )?;
    run(
        &rt,
        &SAMPLE,
        &["inspect", "broken"],
        "cannot read broken\n",
        1,
        None,
    )?;
    Ok(())
}

/// The faults of a source say what was wrong.
#[test]
fn source_faults_are_told(rt: HostRuntime) -> Result<(), Fail> {
    let unreadable = format!(in rt.alloc(); "{}", SourceFault::Unreadable)?;
    assert_eq!(rt; unreadable.as_str(), "the source can't be read");
    let fault = RecastFault::from(Cause::Offsets);
    let refused = format!(in rt.alloc(); "{}", SourceFault::Refused(fault))?;
    assert_eq!(rt;
        refused.as_str(),
        "offsets fall, are negative, or end past what they point into"
    );
    let unusable = format!(in rt.alloc(); "{}", FileFault::Unusable)?;
    assert_eq!(rt; unusable.as_str(), "the file can't be opened, read or made");
    let lacking = format!(in rt.alloc(); "{}", FileFault::Memory)?;
    assert_eq!(rt; lacking.as_str(), "memory ran out");
    Ok(())
}
