//! Values of expressions, on a row and on the rows of a batch.
#![tactic(auto)]

mod batches;
mod casts;
mod evaluation;
mod fault;
mod found;
mod functions;
mod numbers;
mod operators;
mod truths;

pub use batches::{FaultList, Held, Outcome, eval, holds, least_kind};
pub use evaluation::eval_row;
pub use fault::{ErrorKind, EvalFault};
