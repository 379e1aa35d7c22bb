//! Which protocols of a table may be read and written, and which features a new table needs
//! (PROTOCOL.md, "Table Features").
#![tactic(auto)]

mod checks;
mod known;
pub mod laws;
mod needed;
mod properties;

pub use checks::{FeatureFault, check_read, check_write};
pub use needed::{is_mapped, needed_for};
pub use properties::{is_true_in, text_under};
