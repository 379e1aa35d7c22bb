//! Tests of tables that are opened: what SHOW ROWS and SELECT print of them, or why they are refused.
#![tactic(auto)]

#[cfg(test)]
mod crowded;
#[cfg(test)]
mod files;
#[cfg(test)]
mod logs;
#[cfg(test)]
mod rows;
#[cfg(test)]
mod rules;
#[cfg(test)]
mod selects;
