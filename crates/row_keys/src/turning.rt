//! Retracts several rows, or makes them live again.

ghost use Rattle.std.specs.Prelude.{◌≡◌, ◌-◌, ◌≤◌, length};
ghost use Rattle.std.specs.List.{range_with_len};
ghost use Rattle.row_keys.specs.Numbers.{AreLive, CanRevive, revived, turned_off};

use crate::numbers::Numbers;

/// Retracts these rows. It takes no memory.
#[tactic(auto, using(crate::proofs::TurnedRows::turning))]
pub(crate) fn retract_all(rows: &mut Numbers, numbers: &[usize])
    requires { AreLive numbers.now rows.old }
    ensures { rows.new ≡ turned_off numbers.now rows.old }
{
    for number in numbers {
        rows.retract(*number);
    }
}

/// Makes these retracted rows live again, the last one first. It takes no memory.
#[tactic(auto, using(crate::proofs::TurnedRows::turning))]
pub(crate) fn revive_all(rows: &mut Numbers, numbers: &[usize])
    requires { CanRevive numbers.now rows.old }
    ensures { rows.new ≡ revived numbers.now rows.old }
{
    let mut left = numbers.len();
    while left > 0 {
        left -= 1;
        rows.revive(numbers[left]);
    }
}

/// Retracts all rows from this one on. It takes no memory.
#[tactic(auto, using(crate::proofs::TurnedRows::turning))]
pub(crate) fn retract_from(rows: &mut Numbers, first: usize)
    requires { AreLive (range_with_len first (length rows.old - first)) rows.old }
    ensures { rows.new ≡ turned_off (range_with_len first (length rows.old - first)) rows.old }
{
    for number in first..rows.len() {
        rows.retract(number);
    }
}

/// Makes all rows from this one on live, which must be retracted, the last one first. It takes no memory.
#[tactic(auto, using(crate::proofs::TurnedRows::turning))]
pub(crate) fn revive_from(rows: &mut Numbers, first: usize)
    requires within { first ≤ length rows.old }
    requires retracted { CanRevive (range_with_len first (length rows.old - first)) rows.old }
    ensures { rows.new ≡ revived (range_with_len first (length rows.old - first)) rows.old }
{
    let mut left = rows.len();
    while left > first {
        left -= 1;
        rows.revive(left);
    }
}
