//! Types of expressions: what an expression means over the columns that it sees, or which rule it
//! breaks and where.
#![tactic(auto)]

mod broken;
mod call;
mod casts;
mod choice;
mod column;
mod fault;
mod forms;
mod kinds;
mod literal;
mod operators;
mod scope;
mod tree;
mod typing;

pub use broken::{Broken, Typing, both, collected, split};
pub use fault::TypeFault;
pub use kinds::is_type;
pub use scope::{Scope, ScopeColumn};
pub use tree::{DatePart, Op, TypedBranches, TypedExpr, TypedExprs};
pub use typing::{type_assignment, type_condition, type_expr};
