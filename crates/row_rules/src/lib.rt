//! The rules of a table's rows: which can be kept, and what they ask of a row.
#![tactic(auto)]

mod checks;
mod columns;
mod fault;
mod laws;
mod reading;
mod rules;
mod texts;
mod tracking;

pub use fault::RuleFault;
pub use laws::reading_is_exact;
pub use reading::read_rules;
pub use rules::{CheckRule, CheckRules, ColumnRule, ColumnRules, Rules};
pub use texts::{check_of, generation_of};
