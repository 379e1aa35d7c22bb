// Trees of tokens and parts.
ghost use Rattle.std.specs.Prelude.{◌≡◌, IfOk};
ghost use Rattle.sql_grammar.specs.Tree as tree;

use crate::source::Source;
use dm_types::{DataType, MAX_PRECISION};
use sql_tree::{
    Branches, Expr, Exprs, Kind, Literal, Operator, Prefix, Span, Token, Truth, WrittenKind,
    WrittenType,
};
use sqlite_items::{Boxed, Items};
use std::alloc::{AllocError, Global};

// From the beginning of the first to the end of the last.
pub(crate) fn to(first: Span, last: Span) -> Span
    ensures { result ≡ tree.to first last }
{
    Span {
        start: first.start,
        end: last.end,
    }
}

fn literal_of(source: &Source<'_>, token: Token) -> Result<Literal, AllocError>
    ensures { IfOk result (λ l. l ≡ tree.literal_of source.now token.kind token.span) }
{
    match token.kind {
        Kind::Null => Ok(Literal::Null),
        Kind::True => Ok(Literal::True),
        Kind::False => Ok(Literal::False),
        Kind::Decimal => Ok(Literal::Decimal(source.number_at(token.span))),
        Kind::Text => Ok(Literal::Text(source.text_at(token.span)?)),
        Kind::TableText => Ok(Literal::Text(source.text_at(token.span)?)),
        Kind::Bytes => Ok(Literal::Bytes(source.bytes_at(token.span)?)),
        _ => Ok(Literal::Whole(source.number_at(token.span))),
    }
}

fn date_of(source: &Source<'_>, kind: Kind, place: Span) -> Result<Literal, AllocError>
    ensures { IfOk result (λ l. l ≡ tree.date_of source.now kind place) }
{
    let text = source.text_at(place)?;
    match kind {
        Kind::Date => Ok(Literal::Date { place, text }),
        _ => Ok(Literal::Timestamp { place, text }),
    }
}

fn prefix_of(kind: Kind) -> Prefix
    ensures { result ≡ tree.prefix_of kind }
{
    match kind {
        Kind::Not => Prefix::Not,
        Kind::Minus => Prefix::Minus,
        _ => Prefix::Plus,
    }
}

fn operator_of(kind: Kind) -> Operator
    ensures { result ≡ tree.operator_of kind }
{
    match kind {
        Kind::Or => Operator::Or,
        Kind::And => Operator::And,
        Kind::Equal => Operator::Equal,
        Kind::NotEqual => Operator::NotEqual,
        Kind::Less => Operator::Less,
        Kind::LessOrEqual => Operator::LessOrEqual,
        Kind::Greater => Operator::Greater,
        Kind::GreaterOrEqual => Operator::GreaterOrEqual,
        Kind::SameAs => Operator::SameAs,
        Kind::Concat => Operator::Concat,
        Kind::Plus => Operator::Plus,
        Kind::Minus => Operator::Minus,
        Kind::Star => Operator::Times,
        Kind::Percent => Operator::Remainder,
        _ => Operator::Divide,
    }
}

fn truth_of(kind: Kind) -> Truth
    ensures { result ≡ tree.truth_of kind }
{
    match kind {
        Kind::Null => Truth::Null,
        Kind::True => Truth::True,
        _ => Truth::False,
    }
}

fn plain_type_of(kind: Kind) -> WrittenKind
    ensures { result ≡ tree.plain_type_of kind }
{
    WrittenKind::Type(match kind {
        Kind::Boolean => DataType::Boolean,
        Kind::TinyInt => DataType::Byte,
        Kind::SmallInt => DataType::Short,
        Kind::Int => DataType::Integer,
        Kind::BigInt => DataType::Long,
        Kind::String => DataType::Str,
        Kind::Binary => DataType::Binary,
        Kind::Date => DataType::Date,
        _ => DataType::Timestamp,
    })
}

// A type without brackets.
pub(crate) fn plain_type(word: Token) -> WrittenType
    ensures { result ≡ tree.plain_type word }
{
    WrittenType {
        span: word.span,
        kind: plain_type_of(word.kind),
    }
}

// A DECIMAL with its precision and its scale.
pub(crate) fn decimal_of(precision: u128, scale: u128) -> WrittenKind
    ensures { result ≡ tree.decimal_of precision scale }
{
    if 1 <= precision && precision <= u128::from(MAX_PRECISION) && scale <= precision {
        WrittenKind::Type(DataType::Decimal {
            precision: precision as u8,
            scale: scale as u8,
        })
    } else {
        WrittenKind::BadDecimal { precision, scale }
    }
}

pub(crate) fn literal(source: &Source<'_>, token: Token) -> Result<Expr, AllocError>
    ensures { IfOk result (λ e. e ≡ tree.literal source.now token) }
{
    let value = literal_of(source, token)?;
    Ok(Expr::Literal {
        span: token.span,
        value,
    })
}

pub(crate) fn dated(source: &Source<'_>, text: Token, word: Token) -> Result<Expr, AllocError>
    ensures { IfOk result (λ e. e ≡ tree.dated source.now text word) }
{
    let value = date_of(source, word.kind, text.span)?;
    Ok(Expr::Literal {
        span: to(word.span, text.span),
        value,
    })
}

pub(crate) fn column(source: &Source<'_>, name: Token) -> Result<Expr, AllocError>
    ensures { IfOk result (λ e. e ≡ tree.column source.now name) }
{
    let found = source.name_at(name.span)?;
    Ok(Expr::Column {
        span: name.span,
        qualifier: None,
        name: found,
    })
}

// A column with its qualifier.
pub(crate) fn qualified(
    source: &Source<'_>,
    qualifier: Token,
    name: Token,
) -> Result<Expr, AllocError>
    ensures { IfOk result (λ e. e ≡ tree.column_of source.now qualifier name) }
{
    let before = source.name_at(qualifier.span)?;
    let found = source.name_at(name.span)?;
    Ok(Expr::Column {
        span: to(qualifier.span, name.span),
        qualifier: Some(before),
        name: found,
    })
}

pub(crate) fn group(
    source: &Source<'_>,
    open: Token,
    inner: Expr,
    close: Token,
) -> Result<Expr, AllocError>
    ensures { IfOk result (λ e. e ≡ tree.grouped («open», (inner, close))) }
{
    Ok(Expr::Group {
        span: to(open.span, close.span),
        inner: Boxed::new(source.alloc(), inner)?,
    })
}

pub(crate) fn call(
    source: &Source<'_>,
    name: Token,
    items: Option<Exprs>,
    close: Token,
) -> Result<Expr, AllocError>
    ensures { IfOk result (λ e. e ≡ tree.call_of source.now name items close) }
{
    let function = source.name_at(name.span)?;
    Ok(Expr::Call {
        span: to(name.span, close.span),
        function,
        arguments: all_of(source.alloc(), items),
    })
}

pub(crate) fn case(
    source: &Source<'_>,
    word: Token,
    branches: Branches,
    otherwise: Option<Expr>,
    end: Token,
) -> Result<Expr, AllocError>
    ensures { IfOk result (λ e. e ≡ tree.cased (word, (branches, (otherwise, end)))) }
{
    let otherwise = boxed(source.alloc(), otherwise)?;
    Ok(Expr::Case {
        span: to(word.span, end.span),
        place: word.span,
        branches,
        otherwise,
    })
}

pub(crate) fn cast(
    source: &Source<'_>,
    word: Token,
    operand: Expr,
    wanted: WrittenType,
    close: Token,
) -> Result<Expr, AllocError>
    ensures { IfOk result (λ e. e ≡ tree.cast_of word operand wanted close) }
{
    let operand = Boxed::new(source.alloc(), operand)?;
    Ok(Expr::Cast {
        span: to(word.span, close.span),
        place: word.span,
        operand,
        wanted,
    })
}

pub(crate) fn question(
    source: &Source<'_>,
    word: Token,
    not: Option<Token>,
    truth: Token,
    operand: Expr,
) -> Result<Expr, AllocError>
    ensures { IfOk result (λ e. e ≡ tree.asked (word, (not, truth)) operand) }
{
    let whole = to(operand.span(), truth.span);
    let operand = Boxed::new(source.alloc(), operand)?;
    Ok(Expr::Is {
        span: whole,
        truth: truth_of(truth.kind),
        not: not.is_some(),
        place: to(word.span, truth.span),
        operand,
    })
}

pub(crate) fn between(
    source: &Source<'_>,
    not: Option<Token>,
    word: Token,
    operand: Expr,
    low: Expr,
    high: Expr,
) -> Result<Expr, AllocError>
    ensures { IfOk result (λ e. e ≡ tree.between_of not word operand low high) }
{
    let whole = to(operand.span(), high.span());
    let operand = Boxed::new(source.alloc(), operand)?;
    let low = Boxed::new(source.alloc(), low)?;
    let high = Boxed::new(source.alloc(), high)?;
    Ok(Expr::Between {
        span: whole,
        not: not.is_some(),
        place: with_not(not, word),
        operand,
        low,
        high,
    })
}

pub(crate) fn among(
    source: &Source<'_>,
    not: Option<Token>,
    word: Token,
    operand: Expr,
    items: Exprs,
    close: Token,
) -> Result<Expr, AllocError>
    ensures { IfOk result (λ e. e ≡ tree.in_of not word operand items close) }
{
    let whole = to(operand.span(), close.span);
    let operand = Boxed::new(source.alloc(), operand)?;
    Ok(Expr::In {
        span: whole,
        not: not.is_some(),
        place: with_not(not, word),
        operand,
        items,
    })
}

// The arguments, of which there may be none.
fn all_of(alloc: Global, items: Option<Exprs>) -> Exprs
    ensures { result ≡ tree.all_of items }
{
    match items {
        Some(items) => items,
        None => Items::new(alloc),
    }
}

fn boxed(alloc: Global, expr: Option<Expr>) -> Result<Option<Boxed<Expr>>, AllocError>
    ensures { IfOk result (λ o. o ≡ expr) }
{
    match expr {
        Some(expr) => Ok(Some(Boxed::new(alloc, expr)?)),
        None => Ok(None),
    }
}

// The operator, with the NOT before it.
fn with_not(not: Option<Token>, word: Token) -> Span
    ensures { result ≡ tree.with_not not word }
{
    match not {
        Some(not) => to(not.span, word.span),
        None => word.span,
    }
}

// The two sides of an operator.
pub(crate) fn join(
    alloc: Global,
    left: Expr,
    operator: Token,
    right: Expr,
) -> Result<Expr, AllocError>
    ensures { IfOk result (λ e. e ≡ tree.joined left (operator, right)) }
{
    let whole = to(left.span(), right.span());
    let kind = operator_of(operator.kind);
    let left = Boxed::new(alloc, left)?;
    let right = Boxed::new(alloc, right)?;
    Ok(Expr::Binary {
        span: whole,
        operator: kind,
        place: operator.span,
        left,
        right,
    })
}

// A sign or NOT before an operand.
fn prefix(alloc: Global, token: Token, expr: Expr) -> Result<Expr, AllocError>
    ensures { IfOk result (λ e. e ≡ tree.prefixed token expr) }
{
    let whole = to(token.span, expr.span());
    let kind = prefix_of(token.kind);
    Ok(Expr::Unary {
        span: whole,
        prefix: kind,
        place: token.span,
        operand: Boxed::new(alloc, expr)?,
    })
}

// All of them, the last one first.
pub(crate) fn prefix_all(
    alloc: Global,
    mut tokens: Items<Token>,
    mut expr: Expr,
) -> Result<Expr, AllocError>
    ensures { IfOk result (λ e. e ≡ tree.all_prefixed (tokens, expr)) }
{
    'inner: while let Some(token) = tokens.pop() {
        expr = prefix(alloc, token, expr)?;
    }
    Ok(expr)
}
