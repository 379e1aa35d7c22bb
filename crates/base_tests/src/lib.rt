//! Tests of the public calls of the crates at the bottom: types, texts of values, the outside in
//! memory and the real one.
#![tactic(auto)]

#[cfg(test)]
mod tests;
