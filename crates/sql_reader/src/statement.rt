// Statements and scripts, by descent, and expressions within the limits.
ghost use Rattle.std.specs.Prelude.{◌≡◌, ℕ, List, [], IfOk, length};
ghost use Rattle.token_lang.specs.Run.{to_end};
ghost use Rattle.sql_grammar.specs.Reading as reading;
ghost use Rattle.sql_grammar.specs.Grammar as grammar;
ghost use Rattle.sql_grammar.specs.Statements as statements;
ghost use Rattle.sql_statements.specs.declared.Stmt.{Stmt};
ghost use Rattle.sql_tree.specs.declared.tree.Expr.{Expr};
ghost use Rattle.sql_reader.specs.Steps.{Yields};
ghost use Rattle.sql_reader.specs.Answers.{IsRead, IsPlace};

use crate::class::{Class, Level};
use crate::create::create;
use crate::expr::chain;
use crate::fault::{Fault, ScriptFault};
use crate::source::Source;
use crate::tokens::Tokens;
use dm_types::Items;
use sql_statements::{SelectItem, SelectItemList, SelectItems, Stmt, Stmts};
use sql_tree::{Expr, Kind, Name, Token};
use std::alloc::Global;

// How many brackets and CASEs of an expression may be open at once.
const MAX_DEPTH: usize = 64;

// How many tokens an expression may have.
const MAX_TOKENS: usize = 1000;

// An expression within the limits.
pub(crate) fn expression(source: &Source<'_>, tokens: &mut Tokens<'_>) -> Result<Expr, Fault>
    ensures { Yields (reading.run_expression source.now tokens.old) result tokens.new }
{
    let rest = tokens.rest();
    let limit = MAX_TOKENS.min(rest.len());
    let mut front = Tokens::new(&rest[..limit]);
    let found = chain(source, &mut front, MAX_DEPTH, Level::Or);
    tokens.skip(limit.saturating_sub(front.len()));
    found
}

// The number of a version.
fn version(source: &Source<'_>, tokens: &mut Tokens<'_>) -> Result<u64, Fault>
    ensures { Yields (reading.run_version source.now tokens.old) result tokens.new }
{
    let number = tokens.take(Kind::Whole)?;
    Ok(source.whole_at(number.span))
}

// VERSION AS OF
fn at_version(source: &Source<'_>, tokens: &mut Tokens<'_>) -> Result<u64, Fault>
    ensures { Yields (reading.run_at_version source.now tokens.old) result tokens.new }
{
    tokens.take(Kind::Version)?;
    tokens.take(Kind::As)?;
    tokens.take(Kind::Of)?;
    version(source, tokens)
}

// The version that is asked for, if any.
fn maybe_at_version(source: &Source<'_>, tokens: &mut Tokens<'_>) -> Result<Option<u64>, Fault>
    ensures { Yields (reading.run_maybe_at_version source.now tokens.old) result tokens.new }
{
    if tokens.sees(Kind::Version) {
        return Ok(Some(at_version(source, tokens)?));
    }
    Ok(None)
}

// FILES, behind SHOW
fn show_files(source: &Source<'_>, tokens: &mut Tokens<'_>) -> Result<Stmt, Fault>
    ensures { Yields (statements.run_show_files source.now tokens.old) result tokens.new }
{
    tokens.take(Kind::Files)?;
    let table = tokens.take_any(Class::Table)?;
    Ok(Stmt::ShowFiles {
        table: source.table_at(table.span)?,
    })
}

// ROWS, behind SHOW
fn show_rows(source: &Source<'_>, tokens: &mut Tokens<'_>) -> Result<Stmt, Fault>
    ensures { Yields (statements.run_show_rows source.now tokens.old) result tokens.new }
{
    tokens.take(Kind::Rows)?;
    let table = tokens.take_any(Class::Table)?;
    let version = maybe_at_version(source, tokens)?;
    Ok(Stmt::ShowRows {
        table: source.table_at(table.span)?,
        version,
    })
}

// What stands behind SHOW.
fn shown(source: &Source<'_>, tokens: &mut Tokens<'_>) -> Result<Stmt, Fault>
    ensures { Yields (statements.run_shown source.now tokens.old) result tokens.new }
{
    if tokens.sees(Kind::Files) {
        return show_files(source, tokens);
    }
    show_rows(source, tokens)
}

// SHOW
fn show(source: &Source<'_>, tokens: &mut Tokens<'_>) -> Result<Stmt, Fault>
    ensures { Yields (statements.run_show source.now tokens.old) result tokens.new }
{
    tokens.take(Kind::Show)?;
    shown(source, tokens)
}

// A name behind AS.
fn alias(source: &Source<'_>, tokens: &mut Tokens<'_>) -> Result<Name, Fault>
    ensures { Yields (statements.run_alias source.now tokens.old) result tokens.new }
{
    tokens.take(Kind::As)?;
    let name = tokens.take_any(Class::Name)?;
    Ok(source.name_at(name.span)?)
}

// The name of an item, if it has one.
fn maybe_alias(source: &Source<'_>, tokens: &mut Tokens<'_>) -> Result<Option<Name>, Fault>
    ensures { Yields (statements.run_maybe_alias source.now tokens.old) result tokens.new }
{
    if tokens.sees(Kind::As) {
        return Ok(Some(alias(source, tokens)?));
    }
    Ok(None)
}

// An expression and its name.
fn select_item(source: &Source<'_>, tokens: &mut Tokens<'_>) -> Result<SelectItem, Fault>
    ensures { Yields (statements.run_select_item source.now tokens.old) result tokens.new }
{
    let expr = expression(source, tokens)?;
    let alias = maybe_alias(source, tokens)?;
    Ok(SelectItem { expr, alias })
}

// A comma and an item.
fn next_item(source: &Source<'_>, tokens: &mut Tokens<'_>) -> Result<SelectItem, Fault>
    ensures { Yields (reading.run_next (statements.run_select_item source.now) tokens.old) result tokens.new }
{
    tokens.take(Kind::Comma)?;
    select_item(source, tokens)
}

// Items with commas between them.
fn listed(source: &Source<'_>, tokens: &mut Tokens<'_>) -> Result<SelectItemList, Fault>
    ensures { Yields (statements.run_listed source.now tokens.old) result tokens.new }
{
    let mut all = Items::new(source.alloc());
    all.push(select_item(source, tokens)?)?;
    'items: while tokens.sees(Kind::Comma) {
        all.push(next_item(source, tokens)?)?;
    }
    Ok(all)
}

// What a SELECT asks for.
fn select_items(source: &Source<'_>, tokens: &mut Tokens<'_>) -> Result<SelectItems, Fault>
    ensures { Yields (statements.run_select_items source.now tokens.old) result tokens.new }
{
    if tokens.sees(Kind::Star) {
        tokens.take(Kind::Star)?;
        return Ok(SelectItems::All);
    }
    Ok(SelectItems::Listed(listed(source, tokens)?))
}

// WHERE
fn where_condition(source: &Source<'_>, tokens: &mut Tokens<'_>) -> Result<Expr, Fault>
    ensures { Yields (statements.run_where source.now tokens.old) result tokens.new }
{
    tokens.take(Kind::Where)?;
    expression(source, tokens)
}

// The condition, if there is one.
fn maybe_where(source: &Source<'_>, tokens: &mut Tokens<'_>) -> Result<Option<Expr>, Fault>
    ensures { Yields (statements.run_maybe_where source.now tokens.old) result tokens.new }
{
    if tokens.sees(Kind::Where) {
        return Ok(Some(where_condition(source, tokens)?));
    }
    Ok(None)
}

// SELECT
fn select(source: &Source<'_>, tokens: &mut Tokens<'_>) -> Result<Stmt, Fault>
    ensures { Yields (statements.run_select source.now tokens.old) result tokens.new }
{
    tokens.take(Kind::Select)?;
    let items = select_items(source, tokens)?;
    tokens.take(Kind::From)?;
    let table = tokens.take_any(Class::Table)?;
    let version = maybe_at_version(source, tokens)?;
    let condition = maybe_where(source, tokens)?;
    Ok(Stmt::Select {
        items,
        table: source.table_at(table.span)?,
        version,
        condition,
    })
}

// DELETE
fn delete(source: &Source<'_>, tokens: &mut Tokens<'_>) -> Result<Stmt, Fault>
    ensures { Yields (statements.run_delete source.now tokens.old) result tokens.new }
{
    tokens.take(Kind::Delete)?;
    tokens.take(Kind::From)?;
    let table = tokens.take_any(Class::Table)?;
    Ok(Stmt::Delete {
        table: source.table_at(table.span)?,
    })
}

fn statement(source: &Source<'_>, tokens: &mut Tokens<'_>) -> Result<Stmt, Fault>
    ensures { Yields (statements.run_statement source.now tokens.old) result tokens.new }
{
    if tokens.sees(Kind::Show) {
        return show(source, tokens);
    }
    if tokens.sees(Kind::Select) {
        return select(source, tokens);
    }
    if tokens.sees(Kind::Delete) {
        return delete(source, tokens);
    }
    create(source, tokens)
}

// A statement and its semicolon.
fn ended(source: &Source<'_>, tokens: &mut Tokens<'_>) -> Result<Stmt, Fault>
    ensures { Yields (statements.run_ended source.now tokens.old) result tokens.new }
{
    let statement = statement(source, tokens)?;
    tokens.take(Kind::Semicolon)?;
    Ok(statement)
}

// The statements that stand here.
fn statements(source: &Source<'_>, tokens: &mut Tokens<'_>) -> Result<Stmts, Fault>
    ensures { Yields (statements.run_script source.now tokens.old) result tokens.new }
{
    let mut all = Items::new(source.alloc());
    'items: while tokens.sees_statement() {
        all.push(ended(source, tokens)?)?;
    }
    Ok(all)
}

// The statements of all the tokens.
fn whole_script(source: &Source<'_>, tokens: &mut Tokens<'_>) -> Result<Stmts, Fault>
    ensures { Yields (to_end (statements.run_script source.now tokens.old)) result tokens.new }
{
    let all = statements(source, tokens)?;
    if tokens.is_empty() {
        Ok(all)
    } else {
        Err(Fault::Refused)
    }
}

// The expression that all the tokens are.
fn whole_expression(source: &Source<'_>, tokens: &mut Tokens<'_>) -> Result<Expr, Fault>
    ensures { Yields (to_end (reading.run_expression source.now tokens.old)) result tokens.new }
{
    let found = expression(source, tokens)?;
    if tokens.is_empty() {
        Ok(found)
    } else {
        Err(Fault::Refused)
    }
}

// The statements of a script, which are all of these tokens.
pub(crate) fn script_of(alloc: Global, bytes: &[u8], tokens: &[Token]) -> Result<Stmts, ScriptFault>
    ensures found { IfOk result (λ all. (statements.script bytes.now).reads tokens.now all []) }
    ensures only { (all : List Stmt) → (statements.script bytes.now).reads tokens.now all [] → IsRead result all }
    ensures place { (at : ℕ) → result ≡ Err (ScriptFault.BadScript at) → IsPlace (statements.script bytes.now)
        (length bytes.now) tokens.now at }
{
    let source = Source::new(alloc, bytes);
    let mut cursor = Tokens::new(tokens);
    match whole_script(&source, &mut cursor) {
        Ok(all) => Ok(all),
        Err(Fault::Memory) => Err(ScriptFault::Memory),
        Err(Fault::Refused) => Err(ScriptFault::BadScript {
            at: cursor.place(bytes.len()) as u64,
        }),
    }
}

// The expression that all of these tokens are.
pub(crate) fn expression_of(
    alloc: Global,
    bytes: &[u8],
    tokens: &[Token],
) -> Result<Expr, ScriptFault>
    ensures found { IfOk result (λ e. (grammar.expression bytes.now).reads tokens.now e []) }
    ensures only { (e : Expr) → (grammar.expression bytes.now).reads tokens.now e [] → IsRead result e }
    ensures place { (at : ℕ) → result ≡ Err (ScriptFault.BadScript at) → IsPlace (grammar.expression bytes.now)
        (length bytes.now) tokens.now at }
{
    let source = Source::new(alloc, bytes);
    let mut cursor = Tokens::new(tokens);
    match whole_expression(&source, &mut cursor) {
        Ok(found) => Ok(found),
        Err(Fault::Memory) => Err(ScriptFault::Memory),
        Err(Fault::Refused) => Err(ScriptFault::BadScript {
            at: cursor.place(bytes.len()) as u64,
        }),
    }
}
