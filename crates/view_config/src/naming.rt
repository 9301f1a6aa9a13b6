//! Looks names up among others.

ghost use Rattle.std.specs.Prelude.{◌≡◌, map};
ghost use Rattle.values.specs.Reading.{Yields};
ghost use Rattle.view_config.specs.Columns.{find_name};
ghost use Rattle.view_config.specs.Limits.{distinct};
ghost use Rattle.view_config.specs.Tree.{repeats};

use crate::faults::ConfigFault;
use crate::tree::is_one_of;

#[tactic(auto, using(crate::proofs::Names::naming))]
fn repeats(names: &[&str]) -> bool
    ensures { result ≡ repeats (map (λ n. n.now) names.now) }
{
    for index in 0..names.len() {
        if is_one_of(&names[index + 1..], names[index]) {
            return true;
        }
    }
    false
}

/// Refuses a name that is there twice, as `DuplicateColumn`.
pub(crate) fn check_distinct_names(names: &[&str]) -> Result<(), ConfigFault>
    ensures { Yields (λ u. u) result (distinct (map (λ n. n.now) names.now)) }
{
    if repeats(names) {
        return Err(ConfigFault::DuplicateColumn);
    }
    Ok(())
}

/// The index of a name among others.
#[tactic(auto, using(crate::proofs::Names::finding_names))]
pub(crate) fn find_name(names: &[&str], name: &str) -> Option<usize>
    ensures { result ≡ find_name 0 name.now (map (λ n. n.now) names.now) }
{
    for index in 0..names.len() {
        if names[index] == name {
            return Some(index);
        }
    }
    None
}
