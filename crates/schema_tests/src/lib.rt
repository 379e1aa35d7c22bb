//! Tests of the public calls that read what a table's metadata and its files say of columns and rows.
#![tactic(auto)]

#[cfg(test)]
mod identities;
#[cfg(test)]
mod mapping;
#[cfg(test)]
mod row_ids;
#[cfg(test)]
mod schemas;
#[cfg(test)]
mod written;
