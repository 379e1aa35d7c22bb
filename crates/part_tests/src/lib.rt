//! Tests of the rows of one file of a table, by what an action says of the file.
#![tactic(auto)]

#[cfg(test)]
mod files;
#[cfg(test)]
mod parts;
