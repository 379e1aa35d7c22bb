//! Tests of the language: the tokens of bytes, and the trees of scripts and expressions.
#![tactic(auto)]

#[cfg(test)]
mod tests;
