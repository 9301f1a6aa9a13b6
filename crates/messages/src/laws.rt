//! Laws of the definitions: functions that do nothing, whose contracts are theorems.

ghost use Rattle.messages.specs.MessageLaw.{MessageLaw};
ghost use Rattle.messages.specs.Laws.{
  CutsAgree,
  FaultStays,
  FaultsStay,
  FeedFollowsRun,
  FeedsEnd,
  FirstMessageLaw,
  NothingYet,
  PushKeepsRun,
  RefusalEndsRun,
  WholeAlone,
  WholeStays,
  WholeWithin,
};

/// Later bytes change neither a complete message nor the faults, so neither depends on where the input is cut; and a
/// message is complete as soon as its own bytes are there.
#[tactic(auto, using(crate::proofs::Lawful::laws))]
pub fn more_bytes_law()
    ensures whole { WholeStays }
    ensures within { WholeWithin }
    ensures fault { FaultStays }
    ensures faults { FaultsStay }
    ensures alone { WholeAlone }
    ensures none { NothingYet }
{}

/// However a stream is cut into pieces, pushing them returns the messages of its bytes, and a refusal names a fault at
/// which they end: `push` and `refusal` say it of one push, `feed` of a list of pieces, and `cuts` that two lists with
/// the same bytes give the same.
#[tactic(auto, using(crate::proofs::Feedings::run_laws))]
pub fn pieces_law()
    ensures push { PushKeepsRun }
    ensures refusal { RefusalEndsRun }
    ensures feed { FeedFollowsRun }
    ensures cuts { CutsAgree }
    ensures end { FeedsEnd }
{}

/// A message that is found whole lies within the bytes. There is one Schema message, with columns within the limits,
/// and no other message has a schema.
#[tactic(auto, using(crate::proofs::Brings::message_laws))]
pub fn message_law()
    ensures { MessageLaw }
{}

/// `more_bytes_law` and `message_law` in one clause, for laws that rest on both.
#[tactic(auto, using(crate::proofs::Brings::message_laws))]
pub fn first_message_law()
    ensures { FirstMessageLaw }
{}
