//! Checks of entries that have names: `[side.NAME]`, `[feed.NAME]` and `[view.NAME]`.

ghost use Rattle.std.specs.Prelude.{◌≡◌};
ghost use Rattle.toml.specs.View.{table_view};
ghost use Rattle.values.specs.Reading.{Yields};
ghost use Rattle.view_config.specs.Entries.{are_name_bytes, entry_name, few_entries, is_name_byte};

use crate::faults::ConfigFault;
use crate::limits::MAX_ENTRY_NAME_LEN;
use toml::Table as Entries;

/// Whether a byte is an ASCII letter, a digit, `_` or `-`.
fn is_name_byte(byte: u8) -> bool
    ensures { result ≡ is_name_byte byte }
{
    matches!(byte, b'A'..=b'Z' | b'a'..=b'z' | b'0'..=b'9' | b'_' | b'-')
}

#[tactic(auto, using(crate::proofs::Names::name_bytes))]
fn are_name_bytes(bytes: &[u8]) -> bool
    ensures { result ≡ are_name_bytes bytes.now }
{
    for byte in bytes {
        if !is_name_byte(*byte) {
            return false;
        }
    }
    true
}

/// The name of a side table, a feed or a view, or `Shape` where it doesn't have 1 to 64 such bytes.
pub(crate) fn check_entry_name(name: &str) -> Result<&str, ConfigFault>
    ensures { Yields (λ n. n.now) result (entry_name name.now) }
{
    if are_name_bytes(name.as_bytes()) && 1 <= name.len() && name.len() <= MAX_ENTRY_NAME_LEN {
        Ok(name)
    } else {
        Err(ConfigFault::Shape)
    }
}

/// Refuses more than `most` entries, as `OverLimit`.
#[tactic(auto, using(crate::proofs::Arrays::counts))]
pub(crate) fn check_few_entries(entries: &Entries, most: usize) -> Result<(), ConfigFault>
    ensures { Yields (λ u. u) result (few_entries most (table_view entries.now)) }
{
    if entries.len() > most {
        return Err(ConfigFault::OverLimit);
    }
    Ok(())
}
