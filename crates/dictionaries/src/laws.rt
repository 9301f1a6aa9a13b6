//! A law of the definitions: a function that does nothing, whose contract is a theorem.

ghost use Rattle.dictionaries.specs.Law.{NoneAtFirst, OneMore, TakingIsOneMore, ValuesAfter};

/// Without batches there are no dictionaries. After each further batch the dictionaries are those of all batches so
/// far, and looking an id up gives its values after these.
#[tactic(auto, using(crate::proofs::Batches::none_at_first))]
pub fn batches_law()
    ensures none { NoneAtFirst }
    ensures one_more { TakingIsOneMore }
    ensures step { OneMore }
    ensures values { ValuesAfter }
{}
