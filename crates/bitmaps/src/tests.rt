//! Runs that begin and end within a byte, kernels beside the plain ones, and truths.

ghost use Rattle.std.specs.Prelude.{◌≡◌, ◌<◌, ◌≤◌, IfOk, length};

use crate::{Bitmap, Bits, Truths, plain};
use std::alloc::{AllocError, Global};
use std::test::Fail;

/// Bits 1, 0, 0, 0, 1, 1, 0, 1 and then 0, 1, 0, 0, 0, 0, 0, 0.
const TWO: [u8; 2] = [0xB1, 0x02];

#[test]
fn reads_a_run(rt: HostRuntime) -> Result<(), Fail> {
    let bits = Bits::new(&TWO, 3, 7);
    assert_eq!(rt; bits.len(), 7);
    assert!(rt; !bits.is_empty());
    assert_eq!(rt; bits.get(0), Some(false));
    assert_eq!(rt; bits.get(1), Some(true));
    assert_eq!(rt; bits.get(6), Some(true));
    assert_eq!(rt; bits.get(7), None);
    assert_eq!(rt; bits.count_ones(), 4);
    assert!(rt; Bits::new(&TWO, 16, 0).is_empty());
    Ok(())
}

#[test]
#[tactic(auto, using(crate::proofs::Runs::runs))]
fn makes_bitmaps(rt: HostRuntime) -> Result<(), Fail> {
    let alloc = rt.alloc();
    let first = Bits::new(&TWO, 0, 9);
    let second = Bits::new(&TWO, 4, 9);
    assert_eq!(rt; first.and(alloc, &second)?.as_bytes(), [0x21, 0].as_slice());
    assert_eq!(rt; first.or(alloc, &second)?.as_bytes(), [0xBB, 0].as_slice());
    assert_eq!(rt; first.not(alloc)?.as_bytes(), [0x4E, 1].as_slice());
    let mask = Bits::new(&TWO, 1, 9);
    let picked = mask.select(alloc, &first, &second)?;
    assert_eq!(rt; picked.as_bytes(), [0x33, 0].as_slice());
    assert_eq!(rt; picked.bits().count_ones(), 4);
    Ok(())
}

#[test]
fn pushes_bits(rt: HostRuntime) -> Result<(), Fail> {
    let mut made = Bitmap::new(rt.alloc());
    assert!(rt; made.as_bytes().is_empty());
    for i in 0..9usize {
        made.push(i % 3 == 0)?;
    }
    assert_eq!(rt; made.as_bytes(), [0x49, 0].as_slice());
    assert_eq!(rt; made.bits().len(), 9);
    Ok(())
}

/// Whether bits that are added after a few others are there in their order.
#[tactic(auto, using(crate::proofs::Runs::runs))]
fn adds_all(alloc: Global, before: usize, offset: usize, len: usize) -> Result<bool, AllocError>
    requires before { before < 64 }
    requires offset { offset < 64 }
    requires len { len ≤ 550 }
{
    let few = Bits::new(&MANY, 0, before);
    let more = Bits::new(&MANY, offset, len);
    let mut made = Bitmap::new(alloc);
    made.extend_from_bits(&few)?;
    made.extend_from_bits(&more)?;
    let made = made.bits();
    let mut all = made.len() == before + len;
    for i in 0..before {
        all &= made.get(i) == few.get(i);
    }
    for i in 0..len {
        all &= made.get(before + i) == more.get(i);
    }
    Ok(all)
}

/// Bits that begin anywhere in a byte, after bits that end anywhere in one.
#[test]
fn adds_bits_behind_others(rt: HostRuntime) -> Result<(), Fail> {
    let alloc = rt.alloc();
    for before in 0..9usize {
        for offset in 0..9usize {
            for len in [0usize, 1, 7, 8, 9, 255, 256, 257, 519] {
                assert!(rt; adds_all(alloc, before, offset, len)?);
            }
        }
    }
    Ok(())
}

/// Three zeros, twenty ones, nine zeros; 0xF8, 0xFF, 0x7F, 0x00.
const ZEROS_AND_ONES: [u8; 4] = [0xF8, 0xFF, 0x7F, 0x00];

#[test]
#[tactic(auto, using(crate::proofs::Runs::runs))]
fn runs_end(rt: HostRuntime) -> Result<(), Fail> {
    let bits = Bits::new(&ZEROS_AND_ONES, 0, 32);
    assert_eq!(rt; bits.run_end(0), 3);
    assert_eq!(rt; bits.run_end(3), 23);
    assert_eq!(rt; bits.run_end(22), 23);
    assert_eq!(rt; bits.run_end(23), 32);
    let inner = Bits::new(&ZEROS_AND_ONES, 5, 13);
    assert_eq!(rt; inner.run_end(0), 13);
    assert_eq!(rt; inner.run_end(12), 13);
    Ok(())
}

/// 640 bits.
const MANY: [u8; 80] = [
    0xA5, 0x4D, 0xCA, 0x18, 0x25, 0x30, 0xBB, 0x1D, 0x6D, 0x13, 0x2C, 0xDE, 0xD6, 0x23, 0x7B, 0x2E,
    0xD9, 0x1E, 0x3F, 0x72, 0x1F, 0xCB, 0x19, 0x71, 0x17, 0x44, 0x94, 0xD6, 0x49, 0x3C, 0x9D, 0x5C,
    0x34, 0x60, 0xBE, 0x31, 0x20, 0x1E, 0x69, 0xFE, 0xDA, 0xA0, 0xEE, 0xE8, 0xB9, 0x99, 0x7F, 0x5C,
    0x7C, 0x29, 0x99, 0xFD, 0xAF, 0xE5, 0x93, 0x25, 0x3C, 0xD6, 0x54, 0xAF, 0x4D, 0xFA, 0xD7, 0x14,
    0x27, 0xA0, 0xAE, 0xB3, 0xFE, 0xE9, 0x23, 0x2F, 0x8A, 0xF2, 0x21, 0x1F, 0x9E, 0xE4, 0x91, 0xC5,
];

fn and_is_plain(alloc: Global, first: &Bits<'_>, second: &Bits<'_>) -> Result<bool, AllocError>
    requires { length second.now ≡ length first.now }
{
    let made = first.and(alloc, second)?;
    let plain = plain::and(alloc, first, second)?;
    Ok(made.as_bytes() == plain.as_bytes())
}

fn or_is_plain(alloc: Global, first: &Bits<'_>, second: &Bits<'_>) -> Result<bool, AllocError>
    requires { length second.now ≡ length first.now }
{
    let made = first.or(alloc, second)?;
    let plain = plain::or(alloc, first, second)?;
    Ok(made.as_bytes() == plain.as_bytes())
}

fn not_is_plain(alloc: Global, bits: &Bits<'_>) -> Result<bool, AllocError> {
    let made = bits.not(alloc)?;
    let plain = plain::not(alloc, bits)?;
    Ok(made.as_bytes() == plain.as_bytes())
}

fn select_is_plain(
    alloc: Global,
    mask: &Bits<'_>,
    yes: &Bits<'_>,
    no: &Bits<'_>,
) -> Result<bool, AllocError>
    requires yes { length yes.now ≡ length mask.now }
    requires no { length no.now ≡ length mask.now }
{
    let made = mask.select(alloc, yes, no)?;
    let plain = plain::select(alloc, mask, yes, no)?;
    Ok(made.as_bytes() == plain.as_bytes())
}

/// Whether each kernel makes what the plain one makes, of runs of this length.
#[tactic(auto, using(crate::proofs::Runs::runs))]
fn all_are_plain(alloc: Global, offset: usize, len: usize) -> Result<bool, AllocError>
    requires offset { offset < 64 }
    requires len { len ≤ 550 }
{
    let first = Bits::new(&MANY, offset, len);
    let second = Bits::new(&MANY, 63 - offset, len);
    let mask = Bits::new(&MANY, 29, len);
    let ands = and_is_plain(alloc, &first, &second)?;
    let ors = or_is_plain(alloc, &first, &second)?;
    let nots = not_is_plain(alloc, &first)?;
    let selects = select_is_plain(alloc, &mask, &first, &second)?;
    Ok(ands & ors & nots & selects & (first.count_ones() == plain::count_ones(&first)))
}

/// Runs of each length up to 200 at each offset in a word.
#[test]
fn kernels(rt: HostRuntime) -> Result<(), Fail> {
    let alloc = rt.alloc();
    for offset in 0..64usize {
        for len in 0..201usize {
            assert!(rt; all_are_plain(alloc, offset, len)?);
        }
    }
    Ok(())
}

/// Runs of one and two blocks, and some bits more or less.
#[test]
fn kernels_by_blocks(rt: HostRuntime) -> Result<(), Fail> {
    let alloc = rt.alloc();
    for offset in 0..64usize {
        for len in 250..270usize {
            assert!(rt; all_are_plain(alloc, offset, len)?);
            assert!(rt; all_are_plain(alloc, offset, 2 * len)?);
        }
    }
    Ok(())
}

/// Whether these are the truths.
fn are(truths: &Truths, wanted: &[Option<bool>]) -> bool {
    if truths.len() != wanted.len() {
        return false;
    }
    for i in 0..wanted.len() {
        if truths.at(i) != wanted[i] {
            return false;
        }
    }
    true
}

/// Nine truths: unknown where `certain` has no 1, else as in `known`.
#[tactic(auto, using(crate::proofs::Runs::runs, crate::proofs::TruthLemmas::truth_laws))]
fn nine(alloc: Global, known: &[u8; 2], certain: &[u8; 2]) -> Result<Truths, AllocError>
    ensures { IfOk result (λ ts. length ts ≡ 9) }
{
    let unknown = Bits::new(certain, 0, 9).not(alloc)?;
    Truths::new(alloc, &Bits::new(known, 0, 9), unknown)
}

/// Whether these are the truths of both, and of one or the other.
fn connect(
    alloc: Global,
    first: &Truths,
    second: &Truths,
    both: &[Option<bool>],
    either: &[Option<bool>],
) -> Result<bool, AllocError>
    requires { length second.now ≡ length first.now }
{
    let all = first.and(alloc, second)?;
    let any = first.or(alloc, second)?;
    Ok(are(&all, both) & are(&any, either))
}

/// Each pair of truths.
#[test]
fn connectives(rt: HostRuntime) -> Result<(), Fail> {
    let alloc = rt.alloc();
    let (yes, no, unknown) = (Some(true), Some(false), None);
    // Three are true, three false, three unknown; in the second each third one is.
    let first = nine(alloc, &[0x07, 0x00], &[0x3F, 0x00])?;
    let second = nine(alloc, &[0x49, 0x00], &[0xDB, 0x00])?;
    let both = [yes, no, unknown, no, no, no, unknown, no, unknown];
    let either = [yes, yes, yes, yes, no, unknown, yes, unknown, unknown];
    assert!(rt; connect(alloc, &first, &second, &both, &either)?);
    Ok(())
}

#[test]
fn negations(rt: HostRuntime) -> Result<(), Fail> {
    let alloc = rt.alloc();
    let (yes, no, unknown) = (Some(true), Some(false), None);
    let truths = nine(alloc, &[0x49, 0x00], &[0xDB, 0x00])?;
    assert_eq!(rt; truths.yes().count_ones(), 3);
    assert_eq!(rt; truths.unknown().count_ones(), 3);
    let negated = [no, yes, unknown, no, yes, unknown, no, yes, unknown];
    assert!(rt; are(&truths.not(alloc)?, &negated));
    Ok(())
}
