//! Parquet files, both ways.
#![tactic(auto)]

mod columns;
mod file;
pub mod laws;
mod opening;
mod writing;

pub use columns::{FileColumn, FileColumns};
pub use file::ParquetFile;
pub use opening::open_file;
pub use writing::write_file;
