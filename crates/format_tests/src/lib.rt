//! Tests of the crates that read and write the parts of Parquet files.
#![tactic(auto)]

#[cfg(test)]
mod tests;
