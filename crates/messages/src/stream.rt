//! A framer, which gives the messages of a stream however its bytes are cut into pieces.

ghost use Rattle.std.specs.Prelude.{◌≡◌, [], ◌<◌, ◌≤◌, length, IfOk, IfErr, IsOkAnd, OnErr};
ghost use Rattle.std.specs.Option.{option_map};
ghost use Rattle.values.specs.Reading.{Fails};
ghost use Rattle.messages.specs.Stream.{FitsSchema, HasSchema, IsNothing, Takes, first_in, opened};
ghost use Rattle.messages.specs.Wanted.{IsMissing};

use crate::framing::missing;
use crate::gather::{Step, advance};
use crate::headers::{Framed, Message};
use crate::lists::HeaderLists;
use crate::metadata::Metadata;
use crate::pending::Pending;
use crate::state::State;
use indexmap::IndexMap;
use schema_meta::{Header, StreamSchema};
use std::alloc::Global;
use std::marker::Model;
use std::mem::replace;
use std::rc::Rc;
use values::{Schema, StreamFault};

/// Gives the messages of a stream, however its bytes are cut into pieces.
///
/// Contracts see two states of the stream (`specs/Stream.antt`), each the schema and counts that are known and the
/// bytes of an incomplete message: the one now, and the one after `commit`, if a piece was prepared.
#[derive(Drop)]
pub struct Framer {
    lists: HeaderLists,
    state: State,
    // The first `len` are those of an incomplete message. What comes after them belongs to a prepared piece.
    bytes: Vec<u8>,
    len: usize,
    // Fewer further bytes than this neither complete the message nor reveal a fault.
    wanted: usize,
    pending: Pending,
}

impl Model for Framer {
    ghost use Rattle.messages.specs.Stream.{FramerState, framer_code};
    ghost use Rattle.messages.specs.Ready.{IsFramer, promised, standing};
    ghost use Rattle.messages.specs.State.{known_of};
    ghost use Rattle.indexmap.specs.IndexMap.{spare};

    ghost Value = { FramerState };

    ghost coded = { framer_code };

    ghost view = { λ f. record {
      current = standing (known_of f.state) f.bytes.items f.len;
      prepared = promised (known_of f.state) f.bytes.items f.len f.pending;
    } };

    ghost invariant = { λ f.
        IsFramer (known_of f.state) (spare f.state.counts) f.bytes.items f.len f.wanted f.pending };
}

impl Framer {
    /// Opens a framer for a stream of which nothing was read. Where a schema is declared the stream's must have the
    /// same logical columns, and is otherwise refused as `SchemaMismatch`.
    pub fn open(alloc: Global, declared: Option<Schema>) -> Framer
        ensures current { result.current ≡ opened (option_map (λ s. s.fields.items) declared) }
        ensures nothing_prepared { result.prepared ≡ result.current }
    {
        Framer {
            lists: HeaderLists::new(alloc),
            state: State {
                declared,
                schema: None,
                counts: IndexMap::new(alloc),
            },
            bytes: Vec::new(alloc),
            len: 0,
            wanted: 8,
            pending: Pending::Nothing,
        }
    }

    /// The schema, once it was read.
    pub fn schema(&self) -> Option<&Rc<StreamSchema>>
        ensures { option_map (λ s. s.now.value.fields.items) result ≡ self.now.current.known.schema }
    {
        self.state.schema.as_ref()
    }

    /// The number of bytes held of an incomplete message.
    pub fn held(&self) -> usize
        ensures { result ≡ length self.now.current.held }
    {
        self.len
    }

    /// How many bytes are missing of an incomplete message whose metadata is held; 0 where it isn't, or no message was
    /// begun. It takes no memory.
    pub fn missing(&self) -> usize
        ensures { IsMissing self.now.current.known self.now.current.held result }
    {
        missing(&self.bytes[..self.len])
    }

    /// Discards a prepared change.
    pub fn discard(&mut self)
        ensures same { self.new.current ≡ self.old.current }
        ensures nothing_prepared { self.new.prepared ≡ self.old.current }
    {
        drop(replace(&mut self.pending, Pending::Nothing));
    }

    /// Checks the piece up to the end of the first message that it completes, or all of it, and reserves the memory
    /// that `commit` then needs. The stream stays as it is. A change that was prepared before and not committed is
    /// dropped.
    ///
    /// The error is a fault of the framing or of the metadata, or `Memory`; nothing is prepared then. A fault of the
    /// framing is reported once 8 bytes of a message are there, one of the metadata once all of the metadata is.
    pub fn prepare(&mut self, piece: &[u8]) -> Result<Framed, StreamFault>
        ensures ok { IfOk result (λ f. Takes self.old.current piece.now f self.new.prepared) }
        ensures fault { IfErr result (λ e. Fails e (first_in self.old.current piece.now)) }
        ensures same { self.new.current ≡ self.old.current }
        ensures refused { OnErr result (self.new.prepared ≡ self.old.current) }
        ensures empty { piece.now ≡ []
            → IsOkAnd result IsNothing × (self.new.prepared ≡ self.old.current) }
        ensures used { IfOk result (λ f. f.used ≤ length piece.now) }
        ensures progress { IfOk result (λ f. 0 < length piece.now → 0 < f.used) }
        ensures schema { IfOk result (HasSchema self.new.prepared.known.schema) }
        ensures fits { IfOk result (FitsSchema self.new.prepared.known.schema) }
    {
        self.bytes.truncate(self.len);
        self.pending = Pending::Nothing;
        match advance(
            &mut self.lists,
            &self.state,
            &mut self.bytes,
            piece,
            self.wanted,
        )? {
            Step::Partial { wanted } => {
                self.pending = Pending::Piece { wanted };
                Ok(Framed {
                    used: piece.len(),
                    message: None,
                })
            }
            Step::Whole { used, found, body } => {
                let Metadata {
                    header,
                    schema: brought,
                    ..
                } = found.metadata;
                let schema = self.state.schema_after(&brought)?;
                let count = self.state.count(&header)?;
                self.pending = Pending::Message {
                    schema: brought,
                    count,
                };
                Ok(Framed {
                    used,
                    message: Some(Message {
                        schema,
                        header,
                        body,
                    }),
                })
            }
        }
    }

    /// Makes the prepared change, if there is one. It takes no memory.
    pub fn commit(&mut self)
        ensures done { self.new.current ≡ self.old.prepared }
        ensures nothing_prepared { self.new.prepared ≡ self.old.prepared }
    {
        match replace(&mut self.pending, Pending::Nothing) {
            Pending::Nothing => {}
            Pending::Piece { wanted } => {
                self.len = self.bytes.len();
                self.wanted = wanted;
            }
            Pending::Message { schema, count } => {
                self.state.learn(schema, count);
                self.len = 0;
                self.wanted = 8;
            }
        }
    }

    /// Takes a header that is no longer needed, so that its lists are reused: the next header is read into them, and
    /// takes no memory for them where they are long enough.
    pub fn take_back(&mut self, header: Header)
        ensures same { self.new.current ≡ self.old.current }
        ensures prepared { self.new.prepared ≡ self.old.prepared }
    {
        self.lists.give(header);
    }

    /// Consumes the piece up to the end of the first message that it completes, or all of it: `prepare`, and then
    /// `commit`. On an error, which is one of `prepare`, the stream stays as it is.
    pub fn push(&mut self, piece: &[u8]) -> Result<Framed, StreamFault>
        ensures ok { IfOk result (λ f. Takes self.old.current piece.now f self.new.current) }
        ensures fault { IfErr result (λ e. Fails e (first_in self.old.current piece.now)) }
        ensures unchanged { OnErr result (self.new.current ≡ self.old.current) }
        ensures empty { piece.now ≡ []
            → IsOkAnd result IsNothing × (self.new.current ≡ self.old.current) }
        ensures used { IfOk result (λ f. f.used ≤ length piece.now) }
        ensures progress { IfOk result (λ f. 0 < length piece.now → 0 < f.used) }
        ensures schema { IfOk result (HasSchema self.new.current.known.schema) }
        ensures fits { IfOk result (FitsSchema self.new.current.known.schema) }
        ensures nothing_prepared { self.new.prepared ≡ self.new.current }
    {
        let framed = self.prepare(piece)?;
        self.commit();
        Ok(framed)
    }
}
