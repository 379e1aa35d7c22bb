//! The small types that every crate uses: texts and lists that contracts see as lists, values with
//! their order and their lanes, and the refusals of a statement.
#![tactic(auto)]

mod comparison;
mod equality;
mod exact;
mod items;
mod lane;
mod lanes;
mod order;
mod powers;
mod refusal;
mod text;
mod value;

pub use comparison::{compare, compare_decimals, same, scaled};
pub use exact::Exact;
pub use items::Items;
pub use lane::Lane;
pub use lanes::{
    LaneBool, LaneByte, LaneBytes, LaneDecimal, LaneInt, LaneLong, LaneShort, LaneText,
};
pub use order::sort_texts;
pub use powers::ten_to;
pub use refusal::{Counted, PutRefusal, Refused, StatementRefusal, Stop, TableRefusal};
pub use text::{Text, is_text};
pub use value::{DAY_MICROS, DataType, Decimal, FIRST_DAY, LAST_DAY, MAX_PRECISION, Value};

/// Bytes, of a file or of a text.
pub type Bytes = Items<u8>;

/// Texts, in order.
pub type TextList = Items<Text>;

/// Files as pairs of path and bytes, in the order in which they were put.
pub type PathBytes = Items<(Text, Bytes)>;

/// Texts under names.
pub type TextPairs = Items<(Text, Text)>;

/// Texts or nulls under names, as the values of partition columns.
pub type PartitionValues = Items<(Text, Option<Text>)>;

/// Counts, as the numbers of calls.
pub type CountList = Items<u64>;

/// Places in a list, counted from 0.
pub type PlaceList = Items<usize>;

/// Whole numbers.
pub type WholeList = Items<i64>;

/// Numbers of at most 32 bits, as levels and places in a dictionary.
pub type NumberList = Items<u32>;

/// Truth values.
pub type Flags = Items<bool>;

/// The values of a row, in the order of the columns.
pub type Row = Items<Value>;

/// Rows.
pub type Rows = Items<Row>;

/// Drawn names of sixteen bytes.
pub type NameList = Items<[u8; 16]>;
