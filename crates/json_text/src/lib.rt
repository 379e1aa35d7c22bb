//! Laws of compact JSON texts and of the values that texts are read as: functions with an empty
//! body, whose contract is the law.
#![tactic(auto)]

mod laws;

pub use laws::{compact_is_one_line, plain_reads_back, read_is_sorted};
