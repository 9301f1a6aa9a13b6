//! Complete messages, as a framer returns them.

use schema_meta::{Header, StreamSchema};
use std::marker::Model;
use std::rc::Rc;

/// A complete message, whose header was checked against the schema and the length of the body.
#[derive(Drop)]
pub struct Message {
    /// The schema of the stream: that of this message, or one that was read before it.
    pub schema: Rc<StreamSchema>,
    pub header: Header,
    /// The body, in which the buffers of a batch lie. A Schema message may have a body too, which has no meaning.
    pub body: Vec<u8>,
}

impl Model for Message {
    ghost use Rattle.messages.specs.Handed.{MessageView, view_code};

    ghost Value = { MessageView };

    ghost coded = { view_code };

    ghost view = { λ m. record { schema = m.schema.value.fields.items; header = m.header; body = m.body.items } };
}

/// The result of a push.
#[derive(Drop)]
pub struct Framed {
    /// The number of bytes of the piece that were used: up to the end of the message, or all.
    pub used: usize,
    /// The message that the piece completes, if it does.
    pub message: Option<Message>,
}
