//! Laws: functions that do nothing, whose contracts are theorems.

ghost use Rattle.sub_groups.specs.SubGroups.{OthersAreLeftOut, SubGroupsArePlaced, SubGroupsPart};

/// All rows of a sub-group belong to the group of their representative; a row that is in no sub-group isn't in the
/// view; and rows are counted by sub-groups: those of one that is removed are apart from those that stay.
#[tactic(auto, using(crate::proofs::RepresentativeRows::placing_laws, crate::proofs::CountedRows::sub_groups_part))]
pub fn sub_group_law()
    ensures placed { SubGroupsArePlaced }
    ensures left_out { OthersAreLeftOut }
    ensures part { SubGroupsPart }
{}
