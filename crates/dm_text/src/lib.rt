//! Texts of values: read by their type, printed, and printed as fields of a line.
#![tactic(auto)]

mod calendar;
mod decimals;
mod digits;
mod fault;
mod fields;
mod laws;
mod moments;
mod printing;
mod reading;

pub use calendar::date_of;
pub use fault::TextFault;
pub use fields::print_field;
pub use laws::{printed_is_read, what_reads_is_in_range};
pub use printing::print_value;
pub use reading::read_value;
