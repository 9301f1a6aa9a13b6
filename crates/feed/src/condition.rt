//! Whether a feed accepts more bytes.

ghost use Rattle.std.specs.Prelude.{◌≡◌};
ghost use Rattle.feed.specs.States.{condition_faulty, is_broken};

use values::StreamFault;

/// Whether a feed accepts more bytes, and why not.
#[derive(Clone, Copy, Debug, PartialEq, Eq)]
pub enum Condition {
    /// It accepts the next bytes of its stream.
    Opened,
    /// The end mark was read.
    Ended,
    /// The caller marked the end of the input.
    Finished,
    /// The stream was refused.
    Broken,
}

impl Condition {
    pub(crate) fn is_broken(self) -> bool
        ensures { result ≡ is_broken self }
    {
        match self {
            Condition::Broken => true,
            Condition::Opened | Condition::Ended | Condition::Finished => false,
        }
    }
}

/// The condition after a refusal: want of memory leaves it, any other fault breaks the feed.
pub(crate) fn condition_after(fault: StreamFault, condition: Condition) -> Condition
    ensures { result ≡ condition_faulty fault condition }
{
    match fault {
        StreamFault::Memory => condition,
        _ => Condition::Broken,
    }
}
