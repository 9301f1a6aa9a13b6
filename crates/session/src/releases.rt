//! The law that rows which no undo record brings back can be released: a function that does nothing, whose contract is
//! the theorem.

ghost use Rattle.session.specs.Released.{EvictedGo, NewestTouches, NothingIsSeen, OldestIsOut};

/// Where the oldest record is dropped, the rows that it alone could bring back can be released: nothing that callers
/// see changes, and the other records lead back as before.
pub fn release_law()
    ensures out { OldestIsOut }
    ensures go { EvictedGo }
    ensures seen { NothingIsSeen }
    ensures touches { NewestTouches }
{}
