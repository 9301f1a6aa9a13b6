//! Texts of few bytes.

ghost use Rattle.std.specs.Cmp.Lexicographic.{slice_cmp};
ghost use Rattle.std.specs.Ordering.{nat_cmp};
ghost use Rattle.std.specs.Prelude.{◌≡◌, ◌<◌, ◌≤◌, MatchOption, length};
ghost use Rattle.values.specs.SmallBytes.{spelled};

use std::cmp::Ordering;
use std::marker::Model;

/// How many bytes a short text has at most.
const ROOM: usize = 14;

/// A text of at most 14 bytes, stored inline. Contracts see its bytes.
#[derive(Debug, Drop)]
pub struct ShortText {
    len: u8,
    /// The text's bytes, and then zeros.
    bytes: [u8; ROOM],
}

impl Model for ShortText {
    ghost use Rattle.std.specs.Prelude.{List, take, ℕ};
    ghost use Rattle.top_rows.specs.ShortTexts.{IsShortText};

    ghost Value = { List ℕ };

    ghost view = { λ t. take t.len t.bytes };

    ghost invariant = { λ t. IsShortText t.len t.bytes };
}

/// Eight bytes as a number, the first of them its highest. Such numbers are ordered as the bytes are.
#[inline(always)]
fn word(bytes: &[u8]) -> u64
    requires { length bytes.now ≡ 8 }
    ensures { result ≡ spelled 0 bytes.now }
{
    u64::from_be_bytes([
        bytes[0], bytes[1], bytes[2], bytes[3], bytes[4], bytes[5], bytes[6], bytes[7],
    ])
}

/// Six bytes as a number, likewise.
#[inline(always)]
fn word_of_six(bytes: &[u8]) -> u64
    requires { length bytes.now ≡ 6 }
    ensures { result ≡ spelled 0 bytes.now }
{
    u64::from_be_bytes([
        0, 0, bytes[0], bytes[1], bytes[2], bytes[3], bytes[4], bytes[5],
    ])
}

/// The order of these bytes, compared eight at a time.
#[inline(always)]
fn cmp_by_words(bytes: &[u8; ROOM], other: &[u8; ROOM]) -> Ordering
    ensures { result ≡ slice_cmp nat_cmp bytes.now other.now }
{
    let first = word(&bytes[..8]).cmp(&word(&other[..8]));
    if first != Ordering::Equal {
        return first;
    }
    word_of_six(&bytes[8..]).cmp(&word_of_six(&other[8..]))
}

impl ShortText {
    /// A text, if it is short.
    pub(crate) fn of(text: &str) -> Option<ShortText>
        ensures { MatchOption result (14 < length text.now) (λ short. short ≡ text.now) }
    {
        let text = text.as_bytes();
        if text.len() > ROOM {
            return None;
        }
        let mut bytes = [0; ROOM];
        bytes[..text.len()].copy_from_slice(text);
        Some(ShortText {
            len: text.len() as u8,
            bytes,
        })
    }

    /// The text.
    pub(crate) fn as_str(&self) -> &str
        ensures { result.now ≡ self.now }
    {
        unsafe { std::str::from_utf8_unchecked(&self.bytes[..self.len as usize]) }
    }
}

impl PartialEq for ShortText {
    ghost use Rattle.std.proofs.Common.{rules};
    ghost use Rattle.std.specs.Cmp.Lexicographic.{pointwise};
    ghost use Rattle.std.specs.Cmp.Rules.{comparing};
    ghost use Rattle.std.specs.Prelude.{nat_eq};

    ghost eq = { pointwise nat_eq };

    ghost laws = { Prim.search (comparing, rules) };

    fn eq(&self, other: &ShortText) -> bool {
        self.as_str() == other.as_str()
    }
}

impl Eq for ShortText {
    ghost use Rattle.std.proofs.Common.{rules};
    ghost use Rattle.std.specs.Cmp.Rules.{comparing};

    ghost laws = { Prim.search (comparing, rules) };
}

impl PartialOrd for ShortText {
    ghost use Rattle.std.proofs.Common.{rules};
    ghost use Rattle.std.specs.Cmp.{partial_order_from_own_ties};
    ghost use Rattle.std.specs.Cmp.Lexicographic.{slice_cmp};
    ghost use Rattle.std.specs.Cmp.Rules.{comparing};
    ghost use Rattle.std.specs.Ordering.{as_partial_cmp, nat_cmp};

    ghost partial_cmp = { as_partial_cmp (slice_cmp nat_cmp) };

    ghost laws = { partial_order_from_own_ties (Prim.search (comparing, rules)) (Prim.search (comparing, rules)) };

    fn partial_cmp(&self, other: &ShortText) -> Option<Ordering> {
        Some(self.cmp(other))
    }
}

/// The order of the texts: that of the whole arrays, which end in zeros, and then that of their lengths.
impl Ord for ShortText {
    ghost use Rattle.std.proofs.Common.{rules};
    ghost use Rattle.std.specs.Cmp.Lexicographic.{slice_cmp};
    ghost use Rattle.std.specs.Cmp.Rules.{comparing};
    ghost use Rattle.std.specs.Ordering.{nat_cmp};

    ghost cmp = { slice_cmp nat_cmp };

    ghost total = { Prim.search (comparing, rules) };

    ghost matches_partial_cmp = { Prim.search (comparing, rules) };

    ghost matches_eq = { Prim.search (comparing, rules) };

    fn cmp(&self, other: &ShortText) -> Ordering {
        cmp_by_words(&self.bytes, &other.bytes).then(self.len.cmp(&other.len))
    }
}
