//! The log of a table among the files of a store: where its commit files lie, which versions are
//! there, and what stays of a table when files are added.
#![tactic(auto)]

mod files;
mod laws;
mod paths;

pub use files::{list_versions, read_version};
pub use laws::{
    first_is_absent, first_version_stands_alone, next_is_absent, next_version_stands_alone,
    says_first, says_next, unseen_files_change_nothing,
};
pub use paths::{commit_path, log_folder, path_below, version_of};
