//! The actions of a commit file: reading its lines, and writing them.
#![tactic(auto)]

mod action;
mod building;
mod commit;
mod fault;
mod laws;
mod line;
mod mark;
mod members;
mod reading;
mod removal;
mod writing;

pub use action::{
    Action, Actions, AddAction, CdcAction, DomainAction, InfoAction, MetadataAction,
    ProtocolAction, RemoveAction, TableFormat,
};
pub use commit::read_commit;
pub use fault::ActionFault;
pub use laws::{first_bad_line, good_forms, good_lines};
pub use mark::row_id_mark;
pub use removal::remove_file;
pub use writing::write_commit;
