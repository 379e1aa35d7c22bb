//! The names of new files: the one draw of a write statement, and its text.
#![tactic(auto)]

mod drawing;
pub mod laws;

pub use drawing::{draw, name_text};
