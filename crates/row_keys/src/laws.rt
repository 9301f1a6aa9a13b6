//! Laws of the definitions: functions that do nothing, whose contracts are theorems.

ghost use Rattle.row_keys.specs.Batches.{KeysAreCells};
ghost use Rattle.row_keys.specs.NumberLaws.{
  AllCome,
  ChangesAdd,
  FewPutBack,
  FewRetracted,
  HiddenIsUndone,
  HiddenPutGoes,
  LiveCanGo,
  NewCome,
  NumbersAscend,
  PutBackCome,
  ReleasedUnseen,
  RetractedComeBack,
  RetractedGo,
  RetractedWereLive,
  RevertedGo,
  RowsAreAtNumbers,
  RowsAreLive,
  ShownPutComes,
};

/// The keys of a batch with one column are its cells.
pub fn batch_law()
    ensures keys { KeysAreCells }
{}

/// How each call of a store changes its live rows by their numbers, which ascend.
pub fn numbers_law()
    ensures ascend { NumbersAscend }
    ensures live { RowsAreLive }
    ensures at { RowsAreAtNumbers }
    ensures were_live { RetractedWereLive }
    ensures retracted { RetractedGo }
    ensures can_go { LiveCanGo }
    ensures come_back { RetractedComeBack }
    ensures put_back { PutBackCome }
    ensures appended { NewCome }
    ensures reverted { RevertedGo }
    ensures all { AllCome }
    ensures add { ChangesAdd }
    ensures few_retracted { FewRetracted }
    ensures few_put_back { FewPutBack }
    ensures put_came { HiddenPutGoes }
    ensures hidden { HiddenIsUndone }
    ensures put_came_back { ShownPutComes }
    ensures released { ReleasedUnseen }
{}
