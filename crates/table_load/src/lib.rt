//! Opens a table of a store: its commits, the state that they say, its columns and its rows, and
//! whether it may be read and written.
#![tactic(auto)]

mod columns;
mod files;
mod head;
mod laws;
mod loaded;
mod log;
mod opened_for_writing;
mod part;
mod properties;

pub use files::{FileRange, FileRanges};
pub use head::{Head, load_head};
pub use laws::{
    first_version_keeps_states, next_version_keeps_states, opened_files_are_plain,
    unseen_files_keep_states,
};
pub use loaded::{Loaded, Purpose, load_table};
pub use log::load_log;
pub use part::{PartView, columns_of, load_part};
pub use properties::{is_on, property, tracks_rows};
