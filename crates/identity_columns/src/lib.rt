//! Values of identity columns: those that the next rows get (PROTOCOL.md, "Identity Columns").
#![tactic(auto)]

pub mod laws;
mod values;

pub use values::{IdentityFault, next_values};
