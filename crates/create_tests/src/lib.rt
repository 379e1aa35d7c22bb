//! Tests of CREATE TABLE: what a new table is, and which definitions are refused.
#![tactic(auto)]

#[cfg(test)]
mod commits;
#[cfg(test)]
mod faults;
#[cfg(test)]
mod runs;
