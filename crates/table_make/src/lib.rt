//! New tables: what is wrong with the definition of one, and its first commit.
#![tactic(auto)]

mod columns;
mod configuration;
mod creation;
mod elements;
mod faults;
pub mod laws;
mod making;
mod names;
mod new_columns;
mod partitions;
mod places;
mod properties;
mod protocol;
mod rules;

pub use making::make;
