//! Laws of views: functions that do nothing, whose contracts are theorems.

ghost use Rattle.std.specs.Prelude.{◌≡◌, [], ◌∷◌, codes, None, Some};
ghost use Rattle.values.specs.Datum.{null, text};
ghost use Rattle.view_lang.specs.Images.{ImageAt, ImageFits, ImagePatched, ImageValues};
ghost use Rattle.view_lang.specs.ViewLaws.{
  AllOfMeans,
  GroupsOfMultiset,
  KeptOneByOne,
  NeverBoth,
  NotOfAll,
  NotOfComparison,
  NotOfOne,
  OneOfMeans,
  RowsAreRanked,
  ShownOneByOne,
  SortedIsTheArrangement,
  TuplesAreOfRows,
  TuplesAscend,
  TuplesAsk,
  TuplesCover,
  TwoValuedWithoutNulls,
  UnknownStays,
};
ghost use Rattle.view_lang.specs.ViewSamples.{
  amounts,
  by_text,
  falling,
  first_pair,
  first_two,
  grouped_rows,
  in_all,
  no_side,
  not_at_least_zero,
  number,
  paired_rows,
  placed_rows,
  three_amounts,
  tied_rows,
  with_nulls,
  without_missing,
  zones,
};
ghost use Rattle.view_lang.specs.Views.{view_rows};

/// What `not`, `and` and `or` mean where a part is unknown, and De Morgan's laws. A filter and its negation are never
/// both true, and of a row without nulls each filter is true or false.
#[tactic(auto, using(crate::proofs::TruthLaws::truth_laws))]
pub fn truth_law()
    ensures unknown { UnknownStays }
    ensures not_all { NotOfAll }
    ensures not_one { NotOfOne }
    ensures all { AllOfMeans }
    ensures one { OneOfMeans }
    ensures not_comparison { NotOfComparison }
    ensures never_both { NeverBoth }
    ensures two_valued { TwoValuedWithoutNulls }
{}

/// Any two rows are comparable, and the sorted rows are the only rearrangement that is sorted and stable.
#[tactic(auto, using(crate::proofs::OrderLaws::order_laws))]
pub fn order_law()
    ensures ranked { RowsAreRanked }
    ensures only { SortedIsTheArrangement }
{}

/// There is one group for each tuple that a row has in the grouping columns, ascending; group rows don't depend on the
/// order of the rows.
#[tactic(auto, using(crate::proofs::Tuples::tuple_laws, crate::proofs::Multisets::multiset_laws))]
pub fn group_law()
    ensures ascending { TuplesAscend }
    ensures of_rows { TuplesAreOfRows }
    ensures cover { TuplesCover }
    ensures ask { TuplesAsk }
    ensures multiset { GroupsOfMultiset }
{}

/// Joining, filtering and projecting work row by row: the rows from which a view is computed, and the plain rows that
/// it shows, are those that it makes of each row.
#[tactic(auto, using(crate::proofs::OneByOne::one_by_one_laws))]
pub fn one_by_one_law()
    ensures kept { KeptOneByOne }
    ensures shown { ShownOneByOne }
{}

/// Where a function gives something or nothing for each row, a change of the rows gives a change of these images, which
/// leads to the images of the rows after it.
#[tactic(auto, using(crate::proofs::RowImages::image_laws))]
pub fn image_law()
    ensures fits { ImageFits }
    ensures patched { ImagePatched }
    ensures values { ImageValues }
    ensures at { ImageAt }
{}

/// What some views show of a few rows, computed.
pub fn worked_law()
    ensures unknown { view_rows not_at_least_zero no_side amounts ≡ (number 3 ∷ []) ∷ [] }
    ensures nulls_last { view_rows (falling None) no_side three_amounts
        ≡ (number 3 ∷ []) ∷ (number 1 ∷ []) ∷ (null ∷ []) ∷ [] }
    ensures first { view_rows (falling (Some 1)) no_side three_amounts ≡ (number 3 ∷ []) ∷ [] }
    ensures ties { view_rows first_two no_side tied_rows
        ≡ (number 1 ∷ number 5 ∷ []) ∷ (number 2 ∷ number 5 ∷ []) ∷ [] }
    ensures groups { view_rows by_text no_side grouped_rows
        ≡ (text (codes "p") ∷ number 3 ∷ number 22 ∷ number 9 ∷ []) ∷ [] }
    ensures having { view_rows first_pair no_side paired_rows
        ≡ (text (codes "p") ∷ number 3 ∷ number 2 ∷ []) ∷ [] }
    ensures no_rows { view_rows in_all no_side [] ≡ (number 0 ∷ null ∷ []) ∷ [] }
    ensures missing_null { view_rows with_nulls zones placed_rows
        ≡ (number 1 ∷ text (codes "x") ∷ []) ∷ (number 2 ∷ null ∷ []) ∷ (number 3 ∷ null ∷ []) ∷ [] }
    ensures missing_drop { view_rows without_missing zones placed_rows ≡ (number 1 ∷ text (codes "x") ∷ []) ∷ [] }
{}
