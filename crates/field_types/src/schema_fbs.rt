//! Apache Arrow Schema.fbs: the slots of its tables, numbered in the order of their fields, where a union takes two,
//! and the numbers of its unions and enums.

// table Schema

pub const SCHEMA_ENDIANNESS: u16 = 0;

pub const SCHEMA_FIELDS: u16 = 1;

// table Field

pub const FIELD_NAME: u16 = 0;

pub const FIELD_NULLABLE: u16 = 1;

pub const FIELD_TYPE_KIND: u16 = 2;

pub const FIELD_TYPE: u16 = 3;

pub const FIELD_DICTIONARY: u16 = 4;

pub const FIELD_CHILDREN: u16 = 5;

// table DictionaryEncoding

pub const DICTIONARY_ID: u16 = 0;

pub const DICTIONARY_INDEX_TYPE: u16 = 1;

pub const DICTIONARY_KIND: u16 = 3;

// table Int

pub const INT_BIT_WIDTH: u16 = 0;

pub const INT_IS_SIGNED: u16 = 1;

// table Decimal

pub const DECIMAL_PRECISION: u16 = 0;

pub const DECIMAL_SCALE: u16 = 1;

pub const DECIMAL_BIT_WIDTH: u16 = 2;

// tables Date, Time, Timestamp and Duration

pub const UNIT: u16 = 0;

// table Time

pub const TIME_BIT_WIDTH: u16 = 1;

// table Timestamp

pub const TIMESTAMP_ZONE: u16 = 1;

// table FixedSizeBinary

pub const FIXED_BYTE_WIDTH: u16 = 0;

// union Type

pub const TYPE_INT: u8 = 2;

pub const TYPE_BINARY: u8 = 4;

pub const TYPE_UTF8: u8 = 5;

pub const TYPE_BOOL: u8 = 6;

pub const TYPE_DECIMAL: u8 = 7;

pub const TYPE_DATE: u8 = 8;

pub const TYPE_TIME: u8 = 9;

pub const TYPE_TIMESTAMP: u8 = 10;

pub const TYPE_LIST: u8 = 12;

pub const TYPE_STRUCT: u8 = 13;

pub const TYPE_FIXED_SIZE_BINARY: u8 = 15;

pub const TYPE_DURATION: u8 = 18;

pub const TYPE_LARGE_BINARY: u8 = 19;

pub const TYPE_LARGE_UTF8: u8 = 20;

pub const TYPE_LARGE_LIST: u8 = 21;

// enum MetadataVersion

pub const V4: i16 = 3;

pub const V5: i16 = 4;

// enum Endianness

pub const LITTLE_ENDIAN: i16 = 0;

// enum DictionaryKind

pub const DENSE_ARRAY: i16 = 0;
