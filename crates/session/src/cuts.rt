//! The law that what a run leaves doesn't depend on how its feeds were cut: a function that does nothing, whose
//! contract is the theorem.

ghost use Rattle.session.specs.Cuts.{
  BreaksInBoth,
  FaultsAreReported,
  FaultsBreak,
  FinishIsReported,
  PushFaultsAreReported,
  RunIsReplayed,
  SameRuns,
};

use feed::{cut_law as push_law, pieces_law};

/// However each feed is cut into pieces, two runs that complete messages in one order, with the same undos and writes
/// between, accept the same edits and write the same bytes. A feed that breaks in one of them breaks in the other,
/// where all of its bytes were offered in both; each answers one of the faults of its joined bytes.
pub fn cut_law()
    ensures replay { RunIsReplayed }
    ensures same { SameRuns }
    ensures faults { FaultsAreReported }
    ensures breaks { FaultsBreak }
    ensures finish { FinishIsReported }
    ensures pushes { PushFaultsAreReported }
    ensures both { BreaksInBoth }
{
    push_law();
    pieces_law();
}
