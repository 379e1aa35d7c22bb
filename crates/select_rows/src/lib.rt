//! What a SELECT asks of the rows of a batch: its items and its condition with their types, the rows on
//! which the condition holds, and the values of the items on them.
#![tactic(auto)]

mod query;
mod rows;

pub use query::{Query, QueryItem, QueryItems, type_query};
pub use rows::{rows_where, values_of};
