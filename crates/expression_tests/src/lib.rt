//! Tests of the types of expressions.
#![tactic(auto)]

#[cfg(test)]
mod shown;
#[cfg(test)]
mod tables;
#[cfg(test)]
mod types;
