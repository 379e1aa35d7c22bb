//! Tests of the rows of one data file.
#![tactic(auto)]

#[cfg(test)]
mod files;
#[cfg(test)]
mod rows;
