// What a new version adds.
use delta_actions::Actions;
use dm_types::{PathBytes, Text};

/// The files of a new version, and the actions of its commit file.
#[derive(Drop)]
pub struct NewFiles {
    /// The new version.
    pub version: u64,
    /// The table's folder.
    pub table: Text,
    /// Its data files and then its change files, by their paths below the table's folder, in the
    /// order in which they are put.
    pub files: PathBytes,
    /// The actions of its commit file.
    pub actions: Actions,
}
