//! Tests of whole runs: scripts over objects in memory and over a real folder.
#![tactic(auto)]

#[cfg(test)]
mod tests;
