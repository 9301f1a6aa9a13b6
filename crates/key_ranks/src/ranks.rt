//! The rank of a key.

ghost use Rattle.std.specs.Prelude.{◌≡◌, ◌<◌, ◌≤◌, ◌+◌, ◌*◌, ◌-◌, length};
ghost use Rattle.values.specs.Keys.{datum_of_key};
ghost use Rattle.values.specs.SmallBytes.{spelled};
ghost use Rattle.key_ranks.specs.Ranks.{
  IsCellRank,
  IsNumberRank,
  IsTextRank,
  first_word,
  half_ranks,
  key_ranks,
};

use values::{CellView, Key};

/// How many ranks keys have. Numbers have those of the first half, texts those of the second. Truth values share the
/// first rank, and bytes and nulls the last.
pub const KEY_RANKS: u64 = 1 << 62;

const HALF: u64 = 1 << 61;

/// How many negative numbers have ranks of their own, and how many others.
const NEGATIVE: i128 = 1 << 60;

/// The rank of a number. Those below all that have ranks of their own share the first, those above them the last.
fn number_rank(number: i128) -> u64
    ensures rank { IsNumberRank number result }
    ensures small { result < half_ranks }
{
    if number < -NEGATIVE {
        return 0;
    }
    if number < NEGATIVE {
        (number + NEGATIVE) as u64
    } else {
        HALF - 1
    }
}

/// Eight bytes as a number, the first of them its highest.
fn word(bytes: &[u8]) -> u64
    requires { length bytes.now ≡ 8 }
    ensures { result ≡ spelled 0 bytes.now }
{
    u64::from_be_bytes([
        bytes[0], bytes[1], bytes[2], bytes[3], bytes[4], bytes[5], bytes[6], bytes[7],
    ])
}

/// The first eight bytes as a number, with zeros after fewer.
fn first_word(bytes: &[u8]) -> u64
    ensures { result ≡ first_word bytes.now }
{
    let mut first = [0; 8];
    let len = bytes.len().min(8);
    first[..len].copy_from_slice(&bytes[..len]);
    word(&first)
}

/// The rank of a text, by its first 61 bits.
fn text_rank(bytes: &[u8]) -> u64
    ensures { IsTextRank bytes.now result }
{
    HALF + first_word(bytes) / 8
}

/// The rank of a key: keys of different ranks are ordered by these.
pub fn key_rank(key: &Key) -> u64
    ensures rank { IsCellRank (datum_of_key key.now) result }
    ensures small { result < key_ranks }
{
    match key.view() {
        CellView::Bool(_) => 0,
        CellView::Int(number) => number_rank(number),
        CellView::Utf8(text) => text_rank(text.as_bytes()),
        _ => KEY_RANKS - 1,
    }
}
