//! How the columns of a table are found in its data files: by name, by physical name or by field id
//! (PROTOCOL.md, "Column Mapping").
#![tactic(auto)]

mod carriers;
mod mapping;
mod mode;
mod places;

pub use mapping::check_mapping;
pub use mode::Mode;
pub use places::{PlaceChoice, PlaceChoices, find_named, resolve};
