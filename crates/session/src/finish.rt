//! Ends the input of a feed of a session.

ghost use Rattle.session.specs.Changes.{EndsTo};

use crate::calls::Fault;
use crate::link::Link;
use values::Cause;

/// Ends the input of a feed: `FeedBroken` where it is broken, `Truncated` inside a message, `NoSchema` before a schema.
pub(crate) fn finish_of(link: &mut Link) -> Result<(), Fault>
    ensures { EndsTo link.old result link.new }
{
    if link.feed.is_broken() {
        return Err(Fault::of(Cause::FeedBroken));
    }
    link.feed.finish()?;
    Ok(())
}
