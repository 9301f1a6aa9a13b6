//! Laws of the definitions: functions that do nothing, whose contracts are theorems.

ghost use Rattle.liveviews.specs.Inspect.{EndsAlike};
ghost use Rattle.liveviews.specs.ReadBack.{DeclaredReadBack, ReadBack};

use feed::story_law;
use messages::message_law;
use schema_meta::{fields_law, logical_law};
use stream_writer::canon_law;

/// The lines of a stream end with a fault exactly where its reading has one, and with one of those of the reading.
pub fn account_law()
    ensures { EndsAlike }
{
    story_law();
}

/// Where a whole input means a table within the limits, the canonical stream of that table means it too: it has no
/// fault, and its columns and rows are the same; also where these columns were declared for the stream.
pub fn recast_law()
    ensures back { ReadBack }
    ensures declared_back { DeclaredReadBack }
{
    message_law();
    fields_law();
    logical_law();
    canon_law();
}
