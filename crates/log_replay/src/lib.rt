//! What a log says of its table: its newest version, the files that are live, and the metadata, the
//! protocol and the row id mark that are in force.
#![tactic(auto)]

mod commits;
mod force;
pub mod laws;
mod live;
mod numbers;
mod snapshot;

pub use commits::{Commit, Commits, push_commit};
pub use live::live_paths;
pub use numbers::{MAX_COMMITS, NumberFault, check_numbers};
pub use snapshot::{LiveFiles, ReplayFault, Snapshot, replay};
