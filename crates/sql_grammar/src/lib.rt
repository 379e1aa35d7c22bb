//! The grammar of scripts, with a reader for each production, and what holds of it. No code that
//! runs: the grammar stands in `specs/Grammar.antt`.
#![tactic(auto)]

mod laws;

pub use laws::{
    beginnings_are_fronts_of_expressions, beginnings_are_fronts_of_scripts, beginnings_go_on,
    common_fronts, fronts_begin, limits_are_exact, limits_only_refuse, places_are_first,
    places_are_one, tables_stand_where_due, trees_are_held,
};
