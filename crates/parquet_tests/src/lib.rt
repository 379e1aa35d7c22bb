//! Tests of the crates that read and write Parquet files.
#![tactic(auto)]

#[cfg(test)]
mod tests;
