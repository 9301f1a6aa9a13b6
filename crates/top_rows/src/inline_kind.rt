//! The kinds of sort keys that are stored inline in their list.

/// What kind of sort key a key is stored for, inline in a list of sort keys. Those of one kind are ordered by their
/// keys.
#[derive(Debug, Clone, Copy, PartialEq, Eq, PartialOrd, Ord)]
pub(crate) enum InlineKind {
    /// There is no such sort key.
    NoKey,
    Ascending,
    Descending,
    Missing,
}
