//! What a row is ordered by in one column, where that is a whole number of 64 bits, a short text or missing.

ghost use Rattle.std.specs.Prelude.{◌≡◌, ◌∷◌, [], IfOk, List, MatchOption};
ghost use Rattle.view_lang.specs.Cells.{cell_at};
ghost use Rattle.values.specs.declared.key.Key.TheVariants.{Utf8};
ghost use Rattle.top_rows.specs.InlineKeys.{listed};
ghost use Rattle.top_rows.specs.ShortEntries.{AreShort, IsShortKey, sort_key_of_short};
ghost use Rattle.top_rows.specs.declared.sort_key.SortKey.{SortKey as SortKeys};
ghost use Rattle.top_rows.specs.SortKeys.{sort_key_of};

use crate::inline_kind::InlineKind;
use crate::short_text::ShortText;
use crate::sort_key::SortKey;
use std::alloc::{AllocError, Global};
use std::cmp::Reverse;
use values::{CellView, Key};
use view_lang::{Direction, OrderBy, RowView};

/// A sort key that is a whole number of 64 bits, a text of at most 14 bytes, or missing. It takes 16 bytes.
#[derive(Debug, Drop, PartialEq, Eq, PartialOrd, Ord)]
pub enum ShortKey {
    AscendingNumber(i64),
    AscendingText(ShortText),
    DescendingText(Reverse<ShortText>),
    DescendingNumber(Reverse<i64>),
    /// Null.
    Missing,
}

impl ShortKey {
    /// The sort key of a row for one column of an order, if it is short.
    #[tactic(auto, using(values::proofs::ShallowLemmas::shallow_laws))]
    pub(crate) fn of<R: RowView>(row: &R, by: &OrderBy) -> Option<ShortKey>
        ensures { MatchOption result
            (IsShortKey (sort_key_of by.now.direction (cell_at (R.cells row.now) by.now.column)) → ⊥)
            (λ key. sort_key_of by.now.direction (cell_at (R.cells row.now) by.now.column)
            ≡ sort_key_of_short key) }
    {
        match row.cell(by.column) {
            CellView::Int(number) => {
                let number = i64::try_from(number).ok()?;
                match by.direction {
                    Direction::Ascending => Some(ShortKey::AscendingNumber(number)),
                    Direction::Descending => Some(ShortKey::DescendingNumber(Reverse(number))),
                }
            }
            CellView::Utf8(text) => {
                let text = ShortText::of(text)?;
                match by.direction {
                    Direction::Ascending => Some(ShortKey::AscendingText(text)),
                    Direction::Descending => Some(ShortKey::DescendingText(Reverse(text))),
                }
            }
            CellView::Null | CellView::List | CellView::Struct => Some(ShortKey::Missing),
            _ => None,
        }
    }

    /// The short key of a sort key of this kind, if there is one.
    pub(crate) fn of_kind(kind: InlineKind, key: &Key) -> Option<ShortKey>
        ensures { MatchOption result (AreShort 1 (listed kind key.now []) → ⊥)
            (λ short. (others : List SortKeys) → listed kind key.now others ≡ sort_key_of_short short ∷ others) }
    {
        match (kind, key.view()) {
            (InlineKind::Ascending, CellView::Int(number)) => {
                Some(ShortKey::AscendingNumber(i64::try_from(number).ok()?))
            }
            (InlineKind::Ascending, CellView::Utf8(text)) => {
                Some(ShortKey::AscendingText(ShortText::of(text)?))
            }
            (InlineKind::Descending, CellView::Int(number)) => {
                Some(ShortKey::DescendingNumber(Reverse(i64::try_from(number).ok()?)))
            }
            (InlineKind::Descending, CellView::Utf8(text)) => {
                Some(ShortKey::DescendingText(Reverse(ShortText::of(text)?)))
            }
            (InlineKind::Missing, _) => Some(ShortKey::Missing),
            _ => None,
        }
    }

    /// The sort key as it is stored with others that aren't short.
    pub(crate) fn widened(&self, alloc: Global) -> Result<SortKey, AllocError>
        ensures { IfOk result (λ key. key ≡ sort_key_of_short self.now) }
    {
        Ok(match self {
            ShortKey::AscendingNumber(number) => SortKey::Ascending(Key::Int(*number as i128)),
            ShortKey::AscendingText(text) => SortKey::Ascending(key_of_text(alloc, text)?),
            ShortKey::DescendingText(text) => {
                SortKey::Descending(Reverse(key_of_text(alloc, &text.0)?))
            }
            ShortKey::DescendingNumber(number) => {
                SortKey::Descending(Reverse(Key::Int(number.0 as i128)))
            }
            ShortKey::Missing => SortKey::Missing,
        })
    }
}

/// The key of a text.
fn key_of_text(alloc: Global, text: &ShortText) -> Result<Key, AllocError>
    ensures { IfOk result (λ key. key ≡ Utf8 text.now) }
{
    let key = Key::of_cell(alloc, CellView::Utf8(text.as_str()))?;
    Ok(key.unwrap_or(Key::Null))
}
