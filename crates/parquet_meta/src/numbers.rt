// The numbers of parquet.thrift that this project knows.

/// A physical type (`Type`): one bit.
pub const BOOLEAN: u8 = 0;

/// A physical type: four bytes, little endian, in two's complement.
pub const INT32: u8 = 1;

/// A physical type: eight bytes, little endian, in two's complement.
pub const INT64: u8 = 2;

/// A physical type: twelve bytes.
pub const INT96: u8 = 3;

/// A physical type: four bytes.
pub const FLOAT: u8 = 4;

/// A physical type: eight bytes.
pub const DOUBLE: u8 = 5;

/// A physical type: a length in four bytes, and so many bytes.
pub const BYTE_ARRAY: u8 = 6;

/// A physical type, the last: as many bytes as the leaf tells.
pub const FIXED_LEN_BYTE_ARRAY: u8 = 7;

/// A repetition (`FieldRepetitionType`): one value a row.
pub const REQUIRED: u8 = 0;

/// A repetition: a value or null.
pub const OPTIONAL: u8 = 1;

/// A repetition, the last: any number of values.
pub const REPEATED: u8 = 2;

/// A converted type (`ConvertedType`): a text.
pub const UTF8: i32 = 0;

/// A converted type: a decimal, by its unscaled value.
pub const DECIMAL: i32 = 5;

/// A converted type: days since 1970-01-01.
pub const DATE: i32 = 6;

/// A converted type: milliseconds since 1970-01-01.
pub const TIMESTAMP_MILLIS: i32 = 9;

/// A converted type: microseconds since 1970-01-01.
pub const TIMESTAMP_MICROS: i32 = 10;

/// A converted type: a whole number of eight bits.
pub const INT_8: i32 = 15;

/// A converted type: a whole number of sixteen bits.
pub const INT_16: i32 = 16;

/// No unit of time is told, or none that this project knows.
pub const NO_UNIT: u8 = 0;

/// A unit of time (`TimeUnit`), by the id of its member: milliseconds.
pub const MILLIS: u8 = 1;

/// A unit of time: microseconds.
pub const MICROS: u8 = 2;

/// A unit of time, the last: nanoseconds.
pub const NANOS: u8 = 3;

/// An encoding (`Encoding`): values one after the other.
pub const PLAIN: i32 = 0;

/// An encoding: places in a dictionary, as older writers name it.
pub const PLAIN_DICTIONARY: i32 = 2;

/// An encoding: runs of numbers.
pub const RLE: i32 = 3;

/// An encoding: places in a dictionary.
pub const RLE_DICTIONARY: i32 = 8;

/// A type of pages (`PageType`): values, with levels.
pub const DATA_PAGE: i32 = 0;

/// A type of pages: an index.
pub const INDEX_PAGE: i32 = 1;

/// A type of pages: a dictionary.
pub const DICTIONARY_PAGE: i32 = 2;

/// A type of pages: values, with levels, of the second version.
pub const DATA_PAGE_V2: i32 = 3;

/// A codec (`CompressionCodec`): the bytes as they are.
pub const UNCOMPRESSED: i32 = 0;
