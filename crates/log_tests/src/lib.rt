//! Tests of the public calls that read and write the log of a table: its actions, their replay, what a
//! table may be used for, loading it, and putting new versions.
#![tactic(auto)]

#[cfg(test)]
mod tests;
