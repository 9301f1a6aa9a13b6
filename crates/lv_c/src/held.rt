//! The contents of an open handle.

ghost use Rattle.std.specs.Prelude.{◌≡◌, [], IfErr, IfOk};
ghost use Rattle.lv_c.specs.Behind.{Finishes, Opens, Pushes, RefusesConfig, Undoes, WritesLast};

use session::{Fault, Pushed, Session, ViewFault};
use std::alloc::Global;
use stream_writer::MemorySink;
use values::Cause;
use view_config::read_config;

/// A session, and the stream of the view that was written last.
#[derive(Drop)]
pub struct Held {
    pub session: Session,
    pub output: MemorySink,
}

/// The refusal of a name that isn't UTF-8, which no feed has.
const UNKNOWN_FEED: Fault = Fault {
    cause: Cause::UnknownFeed,
    used: 0,
};

impl Held {
    /// Opens the session of a configuration, the bytes of a TOML document.
    pub fn open(alloc: Global, config: &[u8]) -> Result<Held, Cause>
        ensures opens { IfOk result (Opens config.now) }
        ensures refused { IfErr result (RefusesConfig config.now) }
    {
        let Ok(text) = str::from_utf8(config) else {
            return Err(Cause::NotToml);
        };
        let config = read_config(alloc, text)?;
        let session = Session::open(alloc, config)?;
        Ok(Held {
            session,
            output: MemorySink::new(alloc),
        })
    }

    pub fn push(&mut self, feed: &[u8], piece: &[u8]) -> Result<Pushed, Fault>
        ensures { Pushes self.old feed.now piece.now result self.new }
    {
        let Ok(feed) = str::from_utf8(feed) else {
            return Err(UNKNOWN_FEED);
        };
        self.session.push(feed, piece)
    }

    pub fn finish(&mut self, feed: &[u8]) -> Result<(), Fault>
        ensures { Finishes self.old feed.now result self.new }
    {
        let Ok(feed) = str::from_utf8(feed) else {
            return Err(UNKNOWN_FEED);
        };
        self.session.finish(feed)
    }

    pub fn undo(&mut self) -> Result<(), Fault>
        ensures { Undoes self.old result self.new }
    {
        self.session.undo()
    }

    /// Writes a view, and stores what was put in place of the stream that was written before.
    pub fn write(&mut self, alloc: Global, view: &[u8]) -> Result<u64, ViewFault>
        ensures { WritesLast self.old view.now result self.new }
    {
        self.output = MemorySink::new(alloc);
        let Ok(view) = str::from_utf8(view) else {
            return Err(ViewFault::UnknownView);
        };
        self.session.write_view(view, &mut self.output)
    }
}
