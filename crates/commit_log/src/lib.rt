//! Adds a version to a table: its files are put in their order, and the commit file last, so that
//! the version is there whole or not at all.
#![tactic(auto)]

mod fault;
mod new_files;
mod puts;

pub use fault::CommitFault;
pub use new_files::NewFiles;
pub use puts::commit;
