// Expressions, by descent. `depth` is how many brackets and CASEs may still be opened.
ghost use Rattle.std.specs.Prelude.{◌≡◌};
ghost use Rattle.token_lang.specs.Run.{run_one, made};
ghost use Rattle.sql_grammar.specs.Reading as reading;
ghost use Rattle.sql_grammar.specs.Reading.{run_inside};
ghost use Rattle.sql_tree.specs.Kinds.{is};
ghost use Rattle.sql_reader.specs.Classes.{is_in, operators, run_operand};
ghost use Rattle.sql_reader.specs.Steps.{Yields};

use crate::build;
use crate::class::{Class, Level};
use crate::fault::Fault;
use crate::source::Source;
use crate::tokens::Tokens;
use sql_tree::{Branches, Expr, Exprs, Kind, Token, WrittenType};
use sqlite_items::Items;

// A bracket or a CASE that is opened.
fn open(tokens: &mut Tokens<'_>, depth: usize, kind: Kind) -> Result<Token, Fault>
    ensures { Yields (reading.run_opening depth kind tokens.old) result tokens.new }
{
    if depth == 0 {
        return Err(Fault::Refused);
    }
    tokens.take(kind)
}

// DECIMAL with its precision and its scale.
fn decimal_type(
    source: &Source<'_>,
    tokens: &mut Tokens<'_>,
    depth: usize,
) -> Result<WrittenType, Fault>
    ensures { Yields (reading.run_decimal source.now depth tokens.old) result tokens.new }
{
    let word = tokens.take(Kind::DecimalWord)?;
    open(tokens, depth, Kind::Open)?;
    let precision = tokens.take(Kind::Whole)?;
    tokens.take(Kind::Comma)?;
    let scale = tokens.take(Kind::Whole)?;
    let close = tokens.take(Kind::Close)?;
    let precision = source.number_at(precision.span).unscaled;
    let scale = source.number_at(scale.span).unscaled;
    Ok(WrittenType {
        span: build::to(word.span, close.span),
        kind: build::decimal_of(precision, scale),
    })
}

pub(crate) fn written_type(
    source: &Source<'_>,
    tokens: &mut Tokens<'_>,
    depth: usize,
) -> Result<WrittenType, Fault>
    ensures { Yields (reading.run_type source.now depth tokens.old) result tokens.new }
{
    if tokens.sees_any(Class::PlainType) {
        let word = tokens.take_any(Class::PlainType)?;
        return Ok(build::plain_type(word));
    }
    decimal_type(source, tokens, depth)
}

// A type within one more bracket.
fn type_inside(
    source: &Source<'_>,
    tokens: &mut Tokens<'_>,
    depth: usize,
) -> Result<WrittenType, Fault>
    ensures { Yields (reading.run_type_inside source.now depth tokens.old) result tokens.new }
{
    if depth == 0 {
        return Err(Fault::Refused);
    }
    written_type(source, tokens, depth - 1)
}

// The tokens of the class that stand here.
fn prefixes(
    source: &Source<'_>,
    tokens: &mut Tokens<'_>,
    class: Class,
) -> Result<Items<Token>, Fault>
    ensures { Yields (reading.run_all (is_in class) (run_one (is_in class)) tokens.old) result tokens.new }
{
    let mut all = Items::new(source.alloc());
    'items: while tokens.sees_any(class) {
        all.push(tokens.take_any(class)?)?;
    }
    Ok(all)
}

// A NOT, if it stands here.
fn maybe_not(tokens: &mut Tokens<'_>) -> Result<Option<Token>, Fault>
    ensures { Yields (reading.run_maybe (is Kind.Not) (reading.run_token Kind.Not) tokens.old) result tokens.new }
{
    if !tokens.sees(Kind::Not) {
        return Ok(None);
    }
    Ok(Some(tokens.take(Kind::Not)?))
}

// A dot and a name behind a qualifier.
fn qualified(source: &Source<'_>, tokens: &mut Tokens<'_>, qualifier: Token) -> Result<Expr, Fault>
    ensures { Yields (made (λ f. f qualifier) (reading.run_qualified source.now tokens.old)) result tokens.new }
{
    tokens.take(Kind::Dot)?;
    let name = tokens.take_any(Class::Name)?;
    Ok(build::qualified(source, qualifier, name)?)
}

// `IS [NOT] ..` behind its operand.
fn question(source: &Source<'_>, tokens: &mut Tokens<'_>, operand: Expr) -> Result<Expr, Fault>
    ensures { Yields (made (λ f. f operand) (reading.run_question tokens.old)) result tokens.new }
{
    let word = tokens.take(Kind::Is)?;
    let not = maybe_not(tokens)?;
    let truth = tokens.take_any(Class::Truth)?;
    Ok(build::question(source, word, not, truth, operand)?)
}

// An expression within one more bracket.
#[cycle(expr)]
fn inside(source: &Source<'_>, tokens: &mut Tokens<'_>, depth: usize) -> Result<Expr, Fault>
    ensures { Yields (run_inside source.now depth tokens.old) result tokens.new }
{
    if depth == 0 {
        return Err(Fault::Refused);
    }
    chain(source, tokens, depth - 1, Level::Or)
}

// Expressions with commas between them.
#[cycle(expr)]
fn list(source: &Source<'_>, tokens: &mut Tokens<'_>, depth: usize) -> Result<Exprs, Fault>
    ensures { Yields (reading.run_commas (run_inside source.now depth) tokens.old) result tokens.new }
{
    let mut all = Items::new(source.alloc());
    all.push(inside(source, tokens, depth)?)?;
    'items: while tokens.sees(Kind::Comma) {
        all.push(next(source, tokens, depth)?)?;
    }
    Ok(all)
}

// A comma and an expression.
#[cycle(expr)]
fn next(source: &Source<'_>, tokens: &mut Tokens<'_>, depth: usize) -> Result<Expr, Fault>
    ensures { Yields (reading.run_next (run_inside source.now depth) tokens.old) result tokens.new }
{
    tokens.take(Kind::Comma)?;
    inside(source, tokens, depth)
}

#[cycle(expr)]
fn group(source: &Source<'_>, tokens: &mut Tokens<'_>, depth: usize) -> Result<Expr, Fault>
    ensures { Yields (reading.run_group source.now depth (run_inside source.now depth) tokens.old) result tokens.new }
{
    let open = open(tokens, depth, Kind::Open)?;
    let inner = inside(source, tokens, depth)?;
    let close = tokens.take(Kind::Close)?;
    Ok(build::group(source, open, inner, close)?)
}

// The arguments, if there are any.
#[cycle(expr)]
fn maybe_list(
    source: &Source<'_>,
    tokens: &mut Tokens<'_>,
    depth: usize,
) -> Result<Option<Exprs>, Fault>
    ensures { Yields (reading.run_maybe reading.first_expr (reading.run_commas
        (run_inside source.now depth)) tokens.old) result tokens.new }
{
    if !tokens.sees_expr() {
        return Ok(None);
    }
    Ok(Some(list(source, tokens, depth)?))
}

// Arguments in brackets behind a function's name.
#[cycle(expr)]
fn arguments(
    source: &Source<'_>,
    tokens: &mut Tokens<'_>,
    depth: usize,
    name: Token,
) -> Result<Expr, Fault>
    ensures { Yields (made (λ f. f name) (reading.run_arguments source.now depth
        (run_inside source.now depth) tokens.old)) result tokens.new }
{
    open(tokens, depth, Kind::Open)?;
    let items = maybe_list(source, tokens, depth)?;
    let close = tokens.take(Kind::Close)?;
    Ok(build::call(source, name, items, close)?)
}

// What stands behind a name.
#[cycle(expr)]
fn tail(
    source: &Source<'_>,
    tokens: &mut Tokens<'_>,
    depth: usize,
    name: Token,
) -> Result<Expr, Fault>
    ensures { Yields (made (λ f. f name) (reading.run_tail source.now depth
        (run_inside source.now depth) tokens.old)) result tokens.new }
{
    if tokens.sees(Kind::Dot) {
        return qualified(source, tokens, name);
    }
    arguments(source, tokens, depth, name)
}

// What stands behind DATE or TIMESTAMP.
#[cycle(expr)]
fn dated_tail(
    source: &Source<'_>,
    tokens: &mut Tokens<'_>,
    depth: usize,
    word: Token,
) -> Result<Expr, Fault>
    ensures { Yields (made (λ f. f word) (reading.run_dated_tail source.now depth
        (run_inside source.now depth) tokens.old)) result tokens.new }
{
    if tokens.sees_any(Class::Text) {
        let text = tokens.take_any(Class::Text)?;
        return Ok(build::dated(source, text, word)?);
    }
    tail(source, tokens, depth, word)
}

#[cycle(expr)]
fn dated(source: &Source<'_>, tokens: &mut Tokens<'_>, depth: usize) -> Result<Expr, Fault>
    ensures { Yields (reading.run_dated source.now depth (run_inside source.now depth) tokens.old) result tokens.new }
{
    let word = tokens.take_any(Class::Date)?;
    if !tokens.sees_dated_tail() {
        return Ok(build::column(source, word)?);
    }
    dated_tail(source, tokens, depth, word)
}

#[cycle(expr)]
fn named(source: &Source<'_>, tokens: &mut Tokens<'_>, depth: usize) -> Result<Expr, Fault>
    ensures { Yields (reading.run_named source.now depth (run_inside source.now depth) tokens.old) result tokens.new }
{
    let name = tokens.take_any(Class::NameAlone)?;
    if !tokens.sees_tail() {
        return Ok(build::column(source, name)?);
    }
    tail(source, tokens, depth, name)
}

// WHEN and THEN.
#[cycle(expr)]
fn branch(source: &Source<'_>, tokens: &mut Tokens<'_>, depth: usize) -> Result<(Expr, Expr), Fault>
    ensures { Yields (reading.run_branch source.now depth (run_inside source.now depth) tokens.old) result tokens.new }
{
    tokens.take(Kind::When)?;
    let condition = inside(source, tokens, depth)?;
    tokens.take(Kind::Then)?;
    let value = inside(source, tokens, depth)?;
    Ok((condition, value))
}

#[cycle(expr)]
fn branches(source: &Source<'_>, tokens: &mut Tokens<'_>, depth: usize) -> Result<Branches, Fault>
    ensures { Yields (reading.run_branches source.now depth (run_inside source.now depth) tokens.old)
        result tokens.new }
{
    let mut all = Items::new(source.alloc());
    all.push(branch(source, tokens, depth)?)?;
    'items: while tokens.sees(Kind::When) {
        all.push(branch(source, tokens, depth)?)?;
    }
    Ok(all)
}

// ELSE, if it stands here.
#[cycle(expr)]
fn otherwise(
    source: &Source<'_>,
    tokens: &mut Tokens<'_>,
    depth: usize,
) -> Result<Option<Expr>, Fault>
    ensures { Yields (reading.run_maybe_otherwise source.now depth
        (run_inside source.now depth) tokens.old) result tokens.new }
{
    if !tokens.sees(Kind::Else) {
        return Ok(None);
    }
    tokens.take(Kind::Else)?;
    Ok(Some(inside(source, tokens, depth)?))
}

#[cycle(expr)]
fn case(source: &Source<'_>, tokens: &mut Tokens<'_>, depth: usize) -> Result<Expr, Fault>
    ensures { Yields (reading.run_case source.now depth (run_inside source.now depth) tokens.old) result tokens.new }
{
    let word = open(tokens, depth, Kind::Case)?;
    let branches = branches(source, tokens, depth)?;
    let otherwise = otherwise(source, tokens, depth)?;
    let end = tokens.take(Kind::End)?;
    Ok(build::case(source, word, branches, otherwise, end)?)
}

#[cycle(expr)]
fn cast(source: &Source<'_>, tokens: &mut Tokens<'_>, depth: usize) -> Result<Expr, Fault>
    ensures { Yields (reading.run_cast source.now depth (run_inside source.now depth) tokens.old) result tokens.new }
{
    let word = tokens.take(Kind::Cast)?;
    open(tokens, depth, Kind::Open)?;
    let operand = inside(source, tokens, depth)?;
    tokens.take(Kind::As)?;
    let wanted = type_inside(source, tokens, depth)?;
    let close = tokens.take(Kind::Close)?;
    Ok(build::cast(source, word, operand, wanted, close)?)
}

#[cycle(expr)]
fn primary(source: &Source<'_>, tokens: &mut Tokens<'_>, depth: usize) -> Result<Expr, Fault>
    ensures { Yields (reading.run_primary source.now depth (run_inside source.now depth) tokens.old) result tokens.new }
{
    if tokens.sees_any(Class::Value) {
        return Ok(build::literal(source, tokens.take_any(Class::Value)?)?);
    }
    if tokens.sees_any(Class::Date) {
        return dated(source, tokens, depth);
    }
    if tokens.sees(Kind::Open) {
        return group(source, tokens, depth);
    }
    if tokens.sees_any(Class::NameAlone) {
        return named(source, tokens, depth);
    }
    if tokens.sees(Kind::Case) {
        return case(source, tokens, depth);
    }
    cast(source, tokens, depth)
}

#[cycle(expr)]
fn sign(source: &Source<'_>, tokens: &mut Tokens<'_>, depth: usize) -> Result<Expr, Fault>
    ensures { Yields (reading.run_sign source.now depth (run_inside source.now depth) tokens.old) result tokens.new }
{
    let signs = prefixes(source, tokens, Class::Sign)?;
    let expr = primary(source, tokens, depth)?;
    Ok(build::prefix_all(source.alloc(), signs, expr)?)
}

// Operands of a level with its operators between them.
#[cycle(expr)]
pub(crate) fn chain(
    source: &Source<'_>,
    tokens: &mut Tokens<'_>,
    depth: usize,
    level: Level,
) -> Result<Expr, Fault>
    ensures { Yields (reading.run_chain (operators level) (run_operand source.now depth
        (run_inside source.now depth) level) tokens.old) result tokens.new }
{
    let mut left = operand(source, tokens, depth, level)?;
    'items: while tokens.sees_operator(level) {
        let operator = tokens.take_operator(level)?;
        let right = operand(source, tokens, depth, level)?;
        left = build::join(source.alloc(), left, operator, right)?;
    }
    Ok(left)
}

// What stands between the operators of a level.
#[cycle(expr)]
fn operand(
    source: &Source<'_>,
    tokens: &mut Tokens<'_>,
    depth: usize,
    level: Level,
) -> Result<Expr, Fault>
    ensures { Yields (run_operand source.now depth (run_inside source.now depth) level tokens.old) result tokens.new }
{
    match level {
        Level::Or => chain(source, tokens, depth, Level::And),
        Level::And => negation(source, tokens, depth),
        Level::Concat => chain(source, tokens, depth, Level::Sum),
        Level::Sum => chain(source, tokens, depth, Level::Product),
        Level::Product => sign(source, tokens, depth),
    }
}

// A comparison behind its left side.
#[cycle(expr)]
fn comparison(
    source: &Source<'_>,
    tokens: &mut Tokens<'_>,
    depth: usize,
    left: Expr,
) -> Result<Expr, Fault>
    ensures { Yields (made (λ f. f left) (reading.run_comparison source.now depth
        (run_inside source.now depth) tokens.old)) result tokens.new }
{
    let operator = tokens.take_any(Class::Comparison)?;
    let right = chain(source, tokens, depth, Level::Concat)?;
    Ok(build::join(source.alloc(), left, operator, right)?)
}

// BETWEEN behind its operand and the NOT before it.
#[cycle(expr)]
fn between(
    source: &Source<'_>,
    tokens: &mut Tokens<'_>,
    depth: usize,
    not: Option<Token>,
    operand: Expr,
) -> Result<Expr, Fault>
    ensures { Yields (made (λ f. f not operand) (reading.run_between source.now depth
        (run_inside source.now depth) tokens.old)) result tokens.new }
{
    let word = tokens.take(Kind::Between)?;
    let low = chain(source, tokens, depth, Level::Concat)?;
    tokens.take(Kind::And)?;
    let high = chain(source, tokens, depth, Level::Concat)?;
    Ok(build::between(source, not, word, operand, low, high)?)
}

// IN behind its operand and the NOT before it.
#[cycle(expr)]
fn among(
    source: &Source<'_>,
    tokens: &mut Tokens<'_>,
    depth: usize,
    not: Option<Token>,
    operand: Expr,
) -> Result<Expr, Fault>
    ensures { Yields (made (λ f. f not operand) (reading.run_among source.now depth
        (run_inside source.now depth) tokens.old)) result tokens.new }
{
    let word = tokens.take(Kind::In)?;
    open(tokens, depth, Kind::Open)?;
    let items = list(source, tokens, depth)?;
    let close = tokens.take(Kind::Close)?;
    Ok(build::among(source, not, word, operand, items, close)?)
}

// BETWEEN or IN behind its operand, with a NOT or without.
#[cycle(expr)]
fn range(
    source: &Source<'_>,
    tokens: &mut Tokens<'_>,
    depth: usize,
    operand: Expr,
) -> Result<Expr, Fault>
    ensures { Yields (made (λ f. f operand) (reading.run_range source.now depth
        (run_inside source.now depth) tokens.old)) result tokens.new }
{
    let not = maybe_not(tokens)?;
    if tokens.sees(Kind::Between) {
        return between(source, tokens, depth, not, operand);
    }
    among(source, tokens, depth, not, operand)
}

// What is asked of an operand behind it.
#[cycle(expr)]
fn predicate(
    source: &Source<'_>,
    tokens: &mut Tokens<'_>,
    depth: usize,
    operand: Expr,
) -> Result<Expr, Fault>
    ensures { Yields (made (λ f. f operand) (reading.run_predicate source.now depth
        (run_inside source.now depth) tokens.old)) result tokens.new }
{
    if tokens.sees_any(Class::Comparison) {
        return comparison(source, tokens, depth, operand);
    }
    if tokens.sees(Kind::Is) {
        return question(source, tokens, operand);
    }
    range(source, tokens, depth, operand)
}

#[cycle(expr)]
fn test(source: &Source<'_>, tokens: &mut Tokens<'_>, depth: usize) -> Result<Expr, Fault>
    ensures { Yields (reading.run_test source.now depth (run_inside source.now depth) tokens.old) result tokens.new }
{
    let operand = chain(source, tokens, depth, Level::Concat)?;
    if tokens.sees_predicate() {
        return predicate(source, tokens, depth, operand);
    }
    Ok(operand)
}

#[cycle(expr)]
fn negation(source: &Source<'_>, tokens: &mut Tokens<'_>, depth: usize) -> Result<Expr, Fault>
    ensures { Yields (reading.run_negation source.now depth (run_inside source.now depth) tokens.old)
        result tokens.new }
{
    let nots = prefixes(source, tokens, Class::Not)?;
    let expr = test(source, tokens, depth)?;
    Ok(build::prefix_all(source.alloc(), nots, expr)?)
}
