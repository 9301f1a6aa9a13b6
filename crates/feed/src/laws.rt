//! Laws of the definitions: functions that do nothing, whose contracts are theorems.

ghost use Rattle.feed.specs.CutLaw.{FaultsStay, PartialJoins, PartialUses, WholeStays, WholeUses};
ghost use Rattle.feed.specs.RetainedLaw.{RetainedByMessages};
ghost use Rattle.feed.specs.Pieces.{CutsAgree, FeedFollows, FeedsEnd, NothingLeft, PushKeeps, RefusalEnds};
ghost use Rattle.feed.specs.StoryLaw.{
  AllIsReported,
  EventReports,
  EventsReportAll,
  FaultsReport,
  NoneHeld,
  PartialIsHeld,
  PartialReports,
  StoryKnowsSchema,
};

use messages::first_message_law;

/// However a stream is cut into pieces, a feed gives the same events and has the same faults: a piece without an event
/// may be joined with the next, and more bytes change neither a complete message nor the faults. A complete message
/// uses at least one byte of its piece.
pub fn cut_law()
    ensures partial { PartialJoins }
    ensures whole { WholeStays }
    ensures faults { FaultsStay }
    ensures uses { WholeUses }
    ensures all { PartialUses }
{
    first_message_law();
}

/// However a stream is cut into pieces, pushing them gives the events of its bytes and the state after these, or a
/// refusal names one of the faults at which they end; what a push leaves of a piece is pushed next. `none`, `push` and
/// `refusal` say it of one push, `feed` of a list of pieces, `cuts` that two lists with the same bytes give the same,
/// and `end` that each list can be pushed to its end.
pub fn pieces_law()
    ensures none { NothingLeft }
    ensures push { PushKeeps }
    ensures refusal { RefusalEnds }
    ensures feed { FeedFollows }
    ensures cuts { CutsAgree }
    ensures end { FeedsEnd }
{
    first_message_law();
}

/// What a feed retains of its bytes follows from the messages that the framer returns for them.
pub fn retained_law()
    ensures { RetainedByMessages }
{}

/// The reading of the whole stream follows from the events of a feed: event by event, that of the remaining bytes is
/// the event and then the reading of the rest; and by `events`, the reading of a stream is that of all its events.
pub fn story_law()
    ensures all { AllIsReported }
    ensures event { EventReports }
    ensures held { NoneHeld }
    ensures partial_held { PartialIsHeld }
    ensures faults { FaultsReport }
    ensures partial { PartialReports }
    ensures knows { StoryKnowsSchema }
    ensures events { EventsReportAll }
{
    first_message_law();
}
