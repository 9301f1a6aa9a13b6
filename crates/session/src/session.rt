//! Sessions.

ghost use Rattle.std.specs.Prelude.{
  ◌≡◌,
  ◌<◌,
  ◌++◌,
  [],
  ◌∷◌,
  All,
  count_by,
  false,
  IfOk,
  OnErr,
  OnOk,
  length,
  map,
  slice_set,
  string_bytes,
};
ghost use Rattle.view_lang.specs.Config.{tables_of};
ghost use Rattle.view_lang.specs.ConfigRules.{IsConfig};
ghost use Rattle.view_lang.specs.TableRules.{IsTable};
ghost use Rattle.view_lang.specs.ViewColumns.{view_columns};
ghost use Rattle.view_lang.specs.World.{contents_at, world};
ghost use Rattle.row_keys.specs.Store.{no_rows};
ghost use Rattle.upkeep.specs.LiveEdits.{NoneBecomesStale};
ghost use Rattle.upkeep.specs.LiveParts.{store_at};
ghost use Rattle.session.specs.Bounds.{EachDoes, StepOpens, StepStale, WriteOpens};
ghost use Rattle.session.specs.Shows.{IsStep, IsWithin, Shows, ShowsEach, columns_of, config_of};
ghost use Rattle.session.specs.Names.{place_of};
ghost use Rattle.session.specs.Parts.{AreParts, session_with};
ghost use Rattle.session.specs.Stale.{StaleByMemory};
ghost use Rattle.session.specs.Visits.{PushOpens, UndoOpens};
ghost use Rattle.session.specs.Steps.{FinishStep, PushStep, Run, State, Steps, UndoTo, WriteStep, opened, start};

use crate::calls::{Fault, Pushed, Reply, Step, ViewFault};
use crate::finish::finish_of;
use crate::link::Link;
use crate::names::{feed_place, view_place};
use crate::parts::SessionParts;
use crate::push::push_to;
use crate::records::{make_records, take_records};
use crate::undo::{UndoRecord, go_back};
use crate::view::write_rows;
use circular_buffer::HeapCircularBuffer;
use feed::Feed;
use row_keys::RowStore;
use std::alloc::{AllocError, Global};
use std::marker::Model;
use stream_writer::{EncodedSchema, Sink};
use upkeep::LiveTables;
use values::Cause;
use values::limits::MAX_UNDO_DEPTH;
use view_lang::{Config, FeedConfig, SideTable, Table, config_law};

/// Opens the feeds of a configuration.
fn open_feeds(alloc: Global, config: &Config) -> Result<Vec<Link>, AllocError>
    requires { IsConfig config.now }
    ensures { IfOk result (λ links.
        ShowsEach (tables_of config.now) links.items (map (opened (tables_of config.now)) config.now.feeds)) }
{
    let mut links = Vec::with_capacity(alloc, config.feeds.len())?;
    for plan in &config.feeds {
        let schema = config.feed_schema(alloc, plan.role)?;
        links.push(Link {
            role: plan.role,
            feed: Feed::open(alloc, Some(schema)),
        })?;
    }
    Ok(links)
}

/// The schemas of the views of a configuration.
fn open_views(alloc: Global, config: &Config) -> Result<Vec<EncodedSchema>, AllocError>
    requires { IsConfig config.now }
    ensures { IfOk result (λ schemas.
        columns_of schemas.items ≡ map (view_columns (tables_of config.now)) config.now.views) }
{
    // It does nothing: the proof takes from it that a view's columns are within the limits of a table.
    config_law();
    let mut schemas = Vec::with_capacity(alloc, config.views.len())?;
    for view in &config.views {
        let schema = config.view_schema(alloc, view)?;
        let encoded = EncodedSchema::new(alloc, schema, &view.coded_outputs)?;
        schemas.push(encoded)?;
    }
    Ok(schemas)
}

/// Adds the name of a side table, and its store, without rows.
fn open_side(
    alloc: Global,
    names: &mut Vec<String>,
    stores: &mut Vec<RowStore>,
    side: SideTable,
) -> Result<(), AllocError>
    requires { IsTable side.table }
    ensures names { OnOk result
        (map string_bytes names.new.items ≡ map string_bytes names.old.items ++ side.name ∷ []) }
    ensures stores { OnOk result (stores.new.items ≡ stores.old.items ++ no_rows side.table ∷ []) }
{
    let SideTable { name, table } = side;
    names.push(name)?;
    stores.push(RowStore::new(alloc, table))?;
    Ok(())
}

/// The names of the side tables, and the stores of all tables, without rows.
fn open_tables(
    alloc: Global,
    main: Table,
    sides: Vec<SideTable>,
) -> Result<(Vec<String>, Vec<RowStore>), AllocError>
    requires main { IsTable main }
    requires sides { All (λ s. IsTable s.table) sides.items }
    ensures names { IfOk result (λ p. map string_bytes p.0.items ≡ map (λ s. s.name) sides.items) }
    ensures stores { IfOk result (λ p. p.1.items ≡ no_rows main ∷ map (λ s. no_rows s.table) sides.items) }
{
    let mut names = Vec::with_capacity(alloc, sides.len())?;
    let mut stores = Vec::new(alloc);
    stores.push(RowStore::new(alloc, main))?;
    for side in sides {
        open_side(alloc, &mut names, &mut stores, side)?;
    }
    Ok((names, stores))
}

/// Tables that feeds change, edits of them that can be undone, and views of them that can be written.
///
/// Contracts see its parts, and which states of `specs/Steps.antt` they represent.
pub struct Session {
    alloc: Global,
    // The names of the side tables.
    names: Vec<String>,
    feeds: Vec<FeedConfig>,
    // The schemas of the views.
    schemas: Vec<EncodedSchema>,
    links: Vec<Link>,
    tables: LiveTables,
    records: HeapCircularBuffer<UndoRecord>,
}

// Written out, so that what it drops is proved here, and not in each crate that drops a session.
impl Drop for Session {
    fn drop(self) {
        let Session {
            alloc: _,
            names: _,
            feeds: _,
            schemas: _,
            links: _,
            tables: _,
            records: _,
        } = self;
    }
}

impl Model for Session {
    ghost use Rattle.std.specs.Prelude.{map, string_bytes};
    ghost use Rattle.session.specs.Shows.{IsSession, SessionParts, columns_of, parts_code, session_parts};

    ghost Value = { SessionParts };

    ghost coded = { parts_code };

    ghost view = { λ s.
        session_parts (map string_bytes s.names.items) s.feeds.items s.links.items s.tables s.records.items };

    ghost invariant = { λ s. IsSession
        (session_parts (map string_bytes s.names.items) s.feeds.items s.links.items s.tables s.records.items)
        s.records.capacity (columns_of s.schemas.items) };
}

impl Session {
    /// Opens a session of a configuration: its tables have no rows, and its feeds have consumed nothing.
    pub fn open(alloc: Global, config: Config) -> Result<Session, AllocError>
        requires { IsConfig config }
        ensures shows { IfOk result (λ s. Shows s (start config)) }
        ensures config { IfOk result (λ s. config_of s ≡ config) }
        ensures stale { IfOk result (λ s. s.tables.stale ≡ map (λ _. false) config.views) }
    {
        let records = HeapCircularBuffer::with_capacity(alloc, MAX_UNDO_DEPTH)?;
        let links = open_feeds(alloc, &config)?;
        let schemas = open_views(alloc, &config)?;
        let Config {
            main,
            sides,
            feeds,
            views,
        } = config;
        let (names, stores) = open_tables(alloc, main, sides)?;
        let tables = LiveTables::new(alloc, stores, views)?;
        Ok(Session {
            alloc,
            names,
            feeds,
            schemas,
            links,
            tables,
            records,
        })
    }

    /// Takes the session apart. The parts are all that it stores. If memory is refused, the session is lost.
    pub fn into_parts(self) -> Result<SessionParts, AllocError>
        ensures value { IfOk result (λ parts. session_with parts ≡ self) }
        ensures right { IfOk result (λ parts. AreParts parts) }
    {
        let Session {
            alloc,
            names,
            feeds,
            schemas,
            links,
            tables,
            records,
        } = self;
        let tables = tables.into_parts()?;
        let records = take_records(alloc, records)?;
        Ok(SessionParts {
            sides: names,
            feeds,
            schemas,
            links,
            tables,
            records,
        })
    }

    /// Makes the session that has these parts: its tables, feeds and views are as those were. No row is opened, and a
    /// view is stale where it is stale in the parts.
    pub fn from_parts(alloc: Global, parts: SessionParts) -> Result<Session, AllocError>
        requires { AreParts parts }
        ensures { IfOk result (λ session. session ≡ session_with parts) }
    {
        let SessionParts {
            sides,
            feeds,
            schemas,
            links,
            tables,
            records,
        } = parts;
        let tables = LiveTables::from_parts(alloc, tables)?;
        let records = make_records(alloc, records)?;
        Ok(Session {
            alloc,
            names: sides,
            feeds,
            schemas,
            links,
            tables,
            records,
        })
    }

    /// Consumes a piece of the stream of a feed up to the end of the first message that it completes, or all of it. The
    /// edit of a record batch is applied where it fits; a batch whose edit doesn't fit is consumed all the same.
    ///
    /// The error's cause is `UnknownFeed`, `FeedBroken`, a fault of the stream, `NullKey` to `CellTooHeavy` where an
    /// edit doesn't fit, or `Memory`. A fault of the stream breaks its feed, and changes nothing else. After `Memory`
    /// all is as it was, but views may be stale.
    pub fn push(&mut self, feed: &str, piece: &[u8]) -> Result<Pushed, Fault>
        ensures step { IsStep self.old (λ s t. PushStep (config_of self.old) s feed.now piece.now result t) self.new }
        ensures config { config_of self.new ≡ config_of self.old }
        ensures stale { StaleByMemory self.old.tables.stale result self.new.tables.stale }
        ensures visits { PushOpens self.old.tables result self.new.records self.new.tables }
    {
        let place = feed_place(&self.feeds, feed);
        if place >= self.links.len() {
            return Err(Fault::of(Cause::UnknownFeed));
        }
        push_to(
            &mut self.links[place],
            &mut self.tables,
            &mut self.records,
            piece,
        )
    }

    /// Ends the input of a feed: `Truncated` inside a message, `NoSchema` before a schema, `UnknownFeed` or
    /// `FeedBroken`. It takes no memory.
    pub fn finish(&mut self, feed: &str) -> Result<(), Fault>
        ensures step { IsStep self.old (λ s t. FinishStep (config_of self.old) s feed.now result t) self.new }
        ensures config { config_of self.new ≡ config_of self.old }
        ensures tables { self.new.tables ≡ self.old.tables }
    {
        let place = feed_place(&self.feeds, feed);
        if place >= self.links.len() {
            return Err(Fault::of(Cause::UnknownFeed));
        }
        finish_of(&mut self.links[place])
    }

    /// Undoes the latest accepted edit, of any feed, that isn't undone; the last `MAX_UNDO_DEPTH` can be.
    /// `NothingToUndo` where there is none. Feeds don't change. After `Memory` no row has changed, but views may be
    /// stale.
    pub fn undo(&mut self) -> Result<(), Fault>
        ensures step { IsStep self.old (λ s t. UndoTo s result t) self.new }
        ensures config { config_of self.new ≡ config_of self.old }
        ensures stale { StaleByMemory self.old.tables.stale result self.new.tables.stale }
        ensures visits { UndoOpens self.old.tables self.old.records result self.new.tables }
    {
        go_back(&mut self.tables, &mut self.records)
    }

    /// Writes the canonical stream of a view, and returns its length in bytes. On an error the sink took a prefix of
    /// that stream, whose length is in the error. A stale view is built anew first.
    pub fn write_view<S: Sink>(&mut self, view: &str, sink: &mut S) -> Result<u64, ViewFault>
        ensures step { IsStep self.old
            (λ s t. WriteStep (config_of self.old) s view.now (S.sunk sink.old) result (S.sunk sink.new)
            × (t ≡ s)) self.new }
        ensures config { config_of self.new ≡ config_of self.old }
        ensures stale { OnOk result (self.new.tables.stale ≡ slice_set self.old.tables.stale
            (place_of view.now (map (λ v. v.name) self.old.tables.views)) false) }
        ensures none_stale { NoneBecomesStale self.old.tables.stale self.new.tables.stale }
        ensures visits { WriteOpens self.old.tables (place_of view.now (map (λ v. v.name) self.old.tables.views))
            result self.new.tables }
    {
        let views = self.tables.views();
        let place = view_place(views, view);
        if place >= views.len() {
            return Err(ViewFault::UnknownView);
        }
        let written = write_rows(
            self.alloc,
            &mut self.tables,
            place,
            &self.schemas[place],
            sink,
        )?;
        Ok(written)
    }

    /// The number of live rows of the main table. It takes no memory.
    pub fn live_rows(&self) -> usize
        ensures { (s : State) → Shows self.now s
            → result ≡ length (contents_at (world (tables_of (config_of self.now)) s.past.edits) 0).live }
    {
        self.tables.len()
    }

    /// How many views are stale: memory for keeping them current was refused since they were written last. It takes no
    /// memory.
    pub fn stale(&self) -> usize
        ensures { result ≡ count_by (λ b. b) self.now.tables.stale }
    {
        self.tables.stale()
    }

    /// How often a stored row of the main table was opened. The count stops at its greatest number. It takes no memory.
    pub fn visits(&self) -> u128
        ensures { result ≡ (store_at self.now.tables.stores 0).visits }
    {
        self.tables.visits()
    }

    /// Does one step: the call that it names, on the sink of its number.
    pub fn step<S: Sink>(&mut self, step: &Step, sinks: &mut [S]) -> Reply
        requires { IsWithin (length sinks.old) step.now }
        ensures step { IsStep self.old
            (λ s t. Steps (config_of self.old) s (map S.sunk sinks.old) step.now result t (map S.sunk sinks.new))
            self.new }
        ensures config { config_of self.new ≡ config_of self.old }
        ensures sinks { length sinks.new ≡ length sinks.old }
        ensures opens { StepOpens self.old step.now result self.new }
        ensures stale { StepStale self.old step.now result self.new }
    {
        match step {
            Step::Push { feed, bytes } => Reply::Push(self.push(feed, bytes)),
            Step::Finish { feed } => Reply::Finish(self.finish(feed)),
            Step::Undo => Reply::Undo(self.undo()),
            Step::Write { view, sink } => Reply::Write(self.write_view(view, &mut sinks[*sink])),
        }
    }

    /// Does steps in order, and returns a reply for each. The error is want of memory for the replies, before the first
    /// step: then nothing was done.
    pub fn run<S: Sink>(
        &mut self,
        steps: &[Step],
        sinks: &mut [S],
    ) -> Result<Vec<Reply>, AllocError>
        requires { All (IsWithin (length sinks.old)) steps.now }
        ensures run { IfOk result (λ replies. IsStep self.old
            (λ s t. Run (config_of self.old) s (map S.sunk sinks.old) steps.now replies.items t (map S.sunk sinks.new))
            self.new) }
        ensures config { config_of self.new ≡ config_of self.old }
        ensures each { IfOk result (λ replies. EachDoes self.old (map S.sunk sinks.old) steps.now replies.items self.new
            (map S.sunk sinks.new)) }
        ensures nothing { OnErr result ((self.new ≡ self.old) × (map S.sunk sinks.new ≡ map S.sunk sinks.old)) }
    {
        let mut replies = Vec::with_capacity(self.alloc, steps.len())?;
        for step in steps {
            replies.push(self.step(step, sinks)).unwrap();
        }
        Ok(replies)
    }
}
