//! Apache Arrow Message.fbs: the slots of its tables, numbered in the order of their fields, where a union takes two,
//! and the numbers of its unions.

// table Message

pub const MESSAGE_VERSION: u16 = 0;

pub const MESSAGE_HEADER_KIND: u16 = 1;

pub const MESSAGE_HEADER: u16 = 2;

pub const MESSAGE_BODY_LENGTH: u16 = 3;

// table RecordBatch

pub const BATCH_LENGTH: u16 = 0;

pub const BATCH_NODES: u16 = 1;

pub const BATCH_BUFFERS: u16 = 2;

pub const BATCH_COMPRESSION: u16 = 3;

// table DictionaryBatch

pub const DICTIONARY_BATCH_ID: u16 = 0;

pub const DICTIONARY_BATCH_DATA: u16 = 1;

pub const DICTIONARY_BATCH_IS_DELTA: u16 = 2;

// union MessageHeader

pub const HEADER_SCHEMA: u8 = 1;

pub const HEADER_DICTIONARY_BATCH: u8 = 2;

pub const HEADER_RECORD_BATCH: u8 = 3;
