//! What a script is made of: its tokens, and the trees of its expressions. All of them tell where they
//! stand in the script's bytes; a tree also holds its names, texts and numbers.
#![tactic(auto)]

mod token;
mod tree;

pub use token::{Kind, Span, Token};
pub use tree::{
    Branches, Expr, Exprs, Literal, Name, Number, Operator, Prefix, Truth, WrittenKind, WrittenType,
};
