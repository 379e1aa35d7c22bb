// The readers of bytes.
ghost use Rattle.std.specs.Prelude.{◌≡◌, ℕ, List, [], IfOk, All, length};
ghost use Rattle.sql_lex.specs.Tokens.{tokens};
ghost use Rattle.sql_grammar.specs.Grammar as grammar;
ghost use Rattle.sql_grammar.specs.Held.{HoldsExpr};
ghost use Rattle.sql_grammar.specs.Statements as statements;
ghost use Rattle.sql_grammar.specs.Statements.{HoldsStmt};
ghost use Rattle.sql_tree.specs.declared.tree.Expr.{Expr};
ghost use Rattle.sql_statements.specs.declared.Stmt.{Stmt};
ghost use Rattle.sql_reader.specs.Answers.{IsRead, IsPlace};

use crate::fault::ScriptFault;
use crate::statement::{expression_of, script_of};
use sql_grammar::trees_are_held;
use sql_lex::{read_tokens_of, spans_ascend, tokens_mean};
use sql_statements::Stmts;
use sql_tree::Expr;
use std::alloc::Global;

/// The statements of a script, in order. Places in them, and in the fault, count the script's bytes
/// from 0.
pub fn read_script(alloc: Global, bytes: &[u8]) -> Result<Stmts, ScriptFault>
    // The tokens of the bytes are a script with these statements.
    ensures found { IfOk result (λ all. (statements.script bytes.now).reads (tokens bytes.now) all []) }
    // A script is read unless memory runs out, and has no other statements.
    ensures only { (all : List Stmt) → (statements.script bytes.now).reads (tokens bytes.now) all []
        → IsRead result all }
    // A fault's place is the first token up to which no script begins with the tokens, or the end.
    ensures place { (at : ℕ) → result ≡ Err (ScriptFault.BadScript at) → IsPlace (statements.script bytes.now)
        (length bytes.now) (tokens bytes.now) at }
    // The places of the statements are in the bytes, and each name, number and text is what the bytes there mean.
    ensures holds { IfOk result (λ all. All (HoldsStmt bytes.now) all) }
{
    tokens_mean();
    spans_ascend();
    trees_are_held();
    let Ok(tokens) = read_tokens_of(alloc, bytes) else {
        return Err(ScriptFault::Memory);
    };
    script_of(alloc, bytes, tokens.as_slice())
}

/// The expression that the bytes are, with places that count the bytes from 0. It has at most 1,000
/// tokens, and at most 64 brackets and CASEs open at once.
pub fn read_expr(alloc: Global, bytes: &[u8]) -> Result<Expr, ScriptFault>
    // The tokens of the bytes are this expression.
    ensures found { IfOk result (λ expr. (grammar.expression bytes.now).reads (tokens bytes.now) expr []) }
    // An expression within the limits is read unless memory runs out, and as no other.
    ensures only { (expr : Expr) → (grammar.expression bytes.now).reads (tokens bytes.now) expr []
        → IsRead result expr }
    // A fault's place is the first token up to which no such expression begins with the tokens, or the end.
    ensures place { (at : ℕ) → result ≡ Err (ScriptFault.BadScript at) → IsPlace (grammar.expression bytes.now)
        (length bytes.now) (tokens bytes.now) at }
    // The places of the expression are in the bytes, and each name, number and text is what the bytes there mean.
    ensures holds { IfOk result (HoldsExpr bytes.now) }
{
    tokens_mean();
    spans_ascend();
    trees_are_held();
    let Ok(tokens) = read_tokens_of(alloc, bytes) else {
        return Err(ScriptFault::Memory);
    };
    expression_of(alloc, bytes, tokens.as_slice())
}
