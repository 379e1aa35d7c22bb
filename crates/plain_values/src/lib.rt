//! Values as PLAIN writes them, for the eight physical types of Parquet.
#![tactic(auto)]

mod fault;
mod fixed;
mod in_turn;
pub mod laws;
mod lent;
mod physical;
mod plain;
mod truth;

pub use fault::PlainFault;
pub use fixed::{FixedArrays, read_fixed};
pub use lent::{read_arrays, write_arrays};
pub use physical::{
    PlainByteArray, PlainDouble, PlainFixed, PlainFloat, PlainInt32, PlainInt64, PlainInt96,
};
pub use plain::{Plain, read_plain, write_plain};
pub use truth::PlainBoolean;
