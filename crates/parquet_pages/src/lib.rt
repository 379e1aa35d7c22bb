//! Column chunks: what their pages hold, and the columns that are read of them and written into them.
#![tactic(auto)]

mod chunk;
mod entries;
mod fault;
mod kept;
pub mod laws;
mod leaf;
mod levels;
mod lists;
mod meaning;
mod pages;
mod physical;
mod reader;
mod stored;
mod types;
mod values;
mod writing;

pub use fault::FileFault;
pub use reader::{ColumnReader, read_chunk};
pub use types::fits;
pub use writing::{leaf_for, write_chunk};
