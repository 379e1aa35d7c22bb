//! Tests of the values of expressions.
#![tactic(auto)]

#[cfg(test)]
mod batches;
#[cfg(test)]
mod fixture;
#[cfg(test)]
mod speed;
#[cfg(test)]
mod tables;
#[cfg(test)]
mod values;
