//! Levels and places in a dictionary as runs, Parquet's RLE and bit-packing hybrid.
#![tactic(auto)]

mod fault;
pub mod laws;
mod packed;
mod packing;
mod reading;
mod varint;
mod writing;

pub use fault::RunFault;
pub use reading::read_runs;
pub use writing::write_runs;
