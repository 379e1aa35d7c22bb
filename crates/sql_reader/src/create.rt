// CREATE TABLE, by descent.
ghost use Rattle.std.specs.Prelude.{◌≡◌, ◌<◌, ◌^◌, [], unwrap_or};
ghost use Rattle.token_lang.specs.Run.{made as made_of};
ghost use Rattle.sql_grammar.specs.Create as spec;
ghost use Rattle.sql_grammar.specs.Reading as reading;
ghost use Rattle.sql_reader.specs.Steps.{Yields};

use crate::class::Class;
use crate::expr::written_type;
use crate::fault::Fault;
use crate::source::Source;
use crate::statement::expression;
use crate::tokens::Tokens;
use dm_types::Items;
use sql_statements::{
    CheckElement, ColumnElement, CreateStmt, Element, Elements, Made, Names, Properties, Property,
    RuleText, Stmt, WrittenIdentity,
};
use sql_tree::{Kind, Name, Span, Token};
use std::alloc::Global;

// A rule between its parentheses, which are none of its expression.
fn rule(source: &Source<'_>, tokens: &mut Tokens<'_>) -> Result<RuleText, Fault>
    ensures { Yields (spec.run_rule source.now tokens.old) result tokens.new }
{
    let open = tokens.take(Kind::Open)?;
    let expr = expression(source, tokens)?;
    let close = tokens.take(Kind::Close)?;
    let text = source.written_at(between(open.span, close.span))?;
    Ok(RuleText { expr, text })
}

// From the end of the first place to the beginning of the second.
fn between(front: Span, back: Span) -> Span
    ensures { result ≡ spec.between front back }
{
    Span {
        start: front.end,
        end: back.start,
    }
}

// A minus, if it stands here.
fn maybe_minus(source: &Source<'_>, tokens: &mut Tokens<'_>) -> Result<Option<Token>, Fault>
    ensures { Yields (spec.run_maybe_minus source.now tokens.old) result tokens.new }
{
    if tokens.sees(Kind::Minus) {
        return Ok(Some(tokens.take(Kind::Minus)?));
    }
    Ok(None)
}

// A whole number with its sign.
fn signed(source: &Source<'_>, tokens: &mut Tokens<'_>) -> Result<i64, Fault>
    ensures { Yields (spec.run_signed source.now tokens.old) result tokens.new }
{
    let minus = maybe_minus(source, tokens)?;
    let number = tokens.take(Kind::Whole)?;
    Ok(with_sign(minus, source.whole_at(number.span)))
}

// With a minus before it the negative number.
fn with_sign(minus: Option<Token>, number: u64) -> i64
    requires { number < 2 ^ 63 }
    ensures { result ≡ spec.with_sign minus number }
{
    let number = number as i64;
    match minus {
        Some(_) => -number,
        None => number,
    }
}

// START and INCREMENT.
fn steps(source: &Source<'_>, tokens: &mut Tokens<'_>) -> Result<(i64, i64), Fault>
    ensures { Yields (spec.run_steps source.now tokens.old) result tokens.new }
{
    tokens.take(Kind::Open)?;
    tokens.take(Kind::Start)?;
    tokens.take(Kind::With)?;
    let start = signed(source, tokens)?;
    tokens.take(Kind::Increment)?;
    tokens.take(Kind::By)?;
    let step = signed(source, tokens)?;
    tokens.take(Kind::Close)?;
    Ok((start, step))
}

fn maybe_steps(source: &Source<'_>, tokens: &mut Tokens<'_>) -> Result<Option<(i64, i64)>, Fault>
    ensures { Yields (spec.run_maybe_steps source.now tokens.old) result tokens.new }
{
    if tokens.sees(Kind::Open) {
        return Ok(Some(steps(source, tokens)?));
    }
    Ok(None)
}

// An identity behind GENERATED; START and INCREMENT are 1 where they aren't written.
fn identity(
    source: &Source<'_>,
    tokens: &mut Tokens<'_>,
    explicit: bool,
    generated: Token,
) -> Result<Made, Fault>
    ensures { Yields (made_of (λ f. f generated) (spec.run_identity source.now explicit tokens.old))
        result tokens.new }
{
    tokens.take(Kind::Identity)?;
    let (start, step) = match maybe_steps(source, tokens)? {
        Some(steps) => steps,
        None => (1, 1),
    };
    Ok(Made::Identity(WrittenIdentity {
        place: generated.span,
        explicit,
        start,
        step,
    }))
}

// A generation expression behind GENERATED ALWAYS AS.
fn computed(source: &Source<'_>, tokens: &mut Tokens<'_>, generated: Token) -> Result<Made, Fault>
    ensures { Yields (made_of (λ f. f generated) (spec.run_computed source.now tokens.old)) result tokens.new }
{
    Ok(Made::Generated(rule(source, tokens)?))
}

// ALWAYS AS, behind GENERATED.
fn always(source: &Source<'_>, tokens: &mut Tokens<'_>, generated: Token) -> Result<Made, Fault>
    ensures { Yields (made_of (λ f. f generated) (spec.run_always source.now tokens.old)) result tokens.new }
{
    tokens.take(Kind::Always)?;
    tokens.take(Kind::As)?;
    let made = if tokens.sees(Kind::Open) {
        computed(source, tokens, generated)?
    } else {
        identity(source, tokens, false, generated)?
    };
    Ok(made)
}

// BY DEFAULT AS, behind GENERATED.
fn by_default(source: &Source<'_>, tokens: &mut Tokens<'_>, generated: Token) -> Result<Made, Fault>
    ensures { Yields (made_of (λ f. f generated) (spec.run_by_default source.now tokens.old)) result tokens.new }
{
    tokens.take(Kind::By)?;
    tokens.take(Kind::Default)?;
    tokens.take(Kind::As)?;
    let made = identity(source, tokens, true, generated)?;
    Ok(made)
}

// GENERATED
fn made(source: &Source<'_>, tokens: &mut Tokens<'_>) -> Result<Made, Fault>
    ensures { Yields (spec.run_made source.now tokens.old) result tokens.new }
{
    let generated = tokens.take(Kind::Generated)?;
    let made = if tokens.sees(Kind::Always) {
        always(source, tokens, generated)?
    } else {
        by_default(source, tokens, generated)?
    };
    Ok(made)
}

// How values are made, if they are.
fn maybe_made(source: &Source<'_>, tokens: &mut Tokens<'_>) -> Result<Option<Made>, Fault>
    ensures { Yields (spec.run_maybe_made source.now tokens.old) result tokens.new }
{
    if tokens.sees(Kind::Generated) {
        return Ok(Some(made(source, tokens)?));
    }
    Ok(None)
}

// NOT NULL
fn not_null(source: &Source<'_>, tokens: &mut Tokens<'_>) -> Result<(Token, Token), Fault>
    ensures { Yields (spec.run_not_null source.now tokens.old) result tokens.new }
{
    let not = tokens.take(Kind::Not)?;
    let null = tokens.take(Kind::Null)?;
    Ok((not, null))
}

fn maybe_not_null(
    source: &Source<'_>,
    tokens: &mut Tokens<'_>,
) -> Result<Option<(Token, Token)>, Fault>
    ensures { Yields (spec.run_maybe_not_null source.now tokens.old) result tokens.new }
{
    if tokens.sees(Kind::Not) {
        return Ok(Some(not_null(source, tokens)?));
    }
    Ok(None)
}

// A column.
fn column(source: &Source<'_>, tokens: &mut Tokens<'_>) -> Result<Element, Fault>
    ensures { Yields (spec.run_column source.now tokens.old) result tokens.new }
{
    let name = tokens.take_any(Class::Name)?;
    let kind = written_type(source, tokens, 1)?;
    let not_null = maybe_not_null(source, tokens)?;
    let made = maybe_made(source, tokens)?;
    Ok(Element::Column(ColumnElement {
        name: source.name_at(name.span)?,
        kind,
        nullable: not_null.is_none(),
        made,
    }))
}

// CONSTRAINT
fn check(source: &Source<'_>, tokens: &mut Tokens<'_>) -> Result<Element, Fault>
    ensures { Yields (spec.run_check source.now tokens.old) result tokens.new }
{
    let word = tokens.take(Kind::Constraint)?;
    let name = tokens.take_any(Class::Name)?;
    tokens.take(Kind::Check)?;
    let rule = rule(source, tokens)?;
    Ok(Element::Check(CheckElement {
        place: word.span,
        name: source.name_at(name.span)?,
        rule,
    }))
}

fn element(source: &Source<'_>, tokens: &mut Tokens<'_>) -> Result<Element, Fault>
    ensures { Yields (spec.run_element source.now tokens.old) result tokens.new }
{
    if tokens.sees_any(Class::Name) {
        return column(source, tokens);
    }
    check(source, tokens)
}

// A comma and an element.
fn next_element(source: &Source<'_>, tokens: &mut Tokens<'_>) -> Result<Element, Fault>
    ensures { Yields (reading.run_next (spec.run_element source.now) tokens.old) result tokens.new }
{
    tokens.take(Kind::Comma)?;
    element(source, tokens)
}

// Elements with commas between them.
fn elements(source: &Source<'_>, tokens: &mut Tokens<'_>) -> Result<Elements, Fault>
    ensures { Yields (spec.run_elements source.now tokens.old) result tokens.new }
{
    let mut all = Items::new(source.alloc());
    all.push(element(source, tokens)?)?;
    'items: while tokens.sees(Kind::Comma) {
        all.push(next_element(source, tokens)?)?;
    }
    Ok(all)
}

// A partition column.
fn partition(source: &Source<'_>, tokens: &mut Tokens<'_>) -> Result<Name, Fault>
    ensures { Yields (spec.run_partition source.now tokens.old) result tokens.new }
{
    let name = tokens.take_any(Class::Name)?;
    Ok(source.name_at(name.span)?)
}

// A comma and a partition column.
fn next_partition(source: &Source<'_>, tokens: &mut Tokens<'_>) -> Result<Name, Fault>
    ensures { Yields (reading.run_next (spec.run_partition source.now) tokens.old) result tokens.new }
{
    tokens.take(Kind::Comma)?;
    partition(source, tokens)
}

// Partition columns with commas between them.
fn partition_list(source: &Source<'_>, tokens: &mut Tokens<'_>) -> Result<Names, Fault>
    ensures { Yields (spec.run_partition_list source.now tokens.old) result tokens.new }
{
    let mut all = Items::new(source.alloc());
    all.push(partition(source, tokens)?)?;
    'items: while tokens.sees(Kind::Comma) {
        all.push(next_partition(source, tokens)?)?;
    }
    Ok(all)
}

// PARTITIONED BY
fn partitions(source: &Source<'_>, tokens: &mut Tokens<'_>) -> Result<Names, Fault>
    ensures { Yields (spec.run_partitions source.now tokens.old) result tokens.new }
{
    tokens.take(Kind::Partitioned)?;
    tokens.take(Kind::By)?;
    tokens.take(Kind::Open)?;
    let names = partition_list(source, tokens)?;
    tokens.take(Kind::Close)?;
    Ok(names)
}

fn maybe_partitions(source: &Source<'_>, tokens: &mut Tokens<'_>) -> Result<Option<Names>, Fault>
    ensures { Yields (spec.run_maybe_partitions source.now tokens.old) result tokens.new }
{
    if tokens.sees(Kind::Partitioned) {
        return Ok(Some(partitions(source, tokens)?));
    }
    Ok(None)
}

// A property: its key, and its value.
fn property(source: &Source<'_>, tokens: &mut Tokens<'_>) -> Result<Property, Fault>
    ensures { Yields (spec.run_property source.now tokens.old) result tokens.new }
{
    let key = tokens.take_any(Class::Text)?;
    tokens.take(Kind::Equal)?;
    let value = tokens.take_any(Class::Text)?;
    Ok(Property {
        place: key.span,
        key: source.text_at(key.span)?,
        value: source.text_at(value.span)?,
    })
}

// A comma and a property.
fn next_property(source: &Source<'_>, tokens: &mut Tokens<'_>) -> Result<Property, Fault>
    ensures { Yields (reading.run_next (spec.run_property source.now) tokens.old) result tokens.new }
{
    tokens.take(Kind::Comma)?;
    property(source, tokens)
}

// Properties with commas between them.
fn property_list(source: &Source<'_>, tokens: &mut Tokens<'_>) -> Result<Properties, Fault>
    ensures { Yields (spec.run_property_list source.now tokens.old) result tokens.new }
{
    let mut all = Items::new(source.alloc());
    all.push(property(source, tokens)?)?;
    'items: while tokens.sees(Kind::Comma) {
        all.push(next_property(source, tokens)?)?;
    }
    Ok(all)
}

// TBLPROPERTIES
fn properties(source: &Source<'_>, tokens: &mut Tokens<'_>) -> Result<Properties, Fault>
    ensures { Yields (spec.run_properties source.now tokens.old) result tokens.new }
{
    tokens.take(Kind::TblProperties)?;
    tokens.take(Kind::Open)?;
    let properties = property_list(source, tokens)?;
    tokens.take(Kind::Close)?;
    Ok(properties)
}

fn maybe_properties(
    source: &Source<'_>,
    tokens: &mut Tokens<'_>,
) -> Result<Option<Properties>, Fault>
    ensures { Yields (spec.run_maybe_properties source.now tokens.old) result tokens.new }
{
    if tokens.sees(Kind::TblProperties) {
        return Ok(Some(properties(source, tokens)?));
    }
    Ok(None)
}

// What stands behind the elements.
fn create_end(
    source: &Source<'_>,
    tokens: &mut Tokens<'_>,
) -> Result<((Token, Option<Names>), Option<Properties>), Fault>
    ensures { Yields (spec.run_create_end source.now tokens.old) result tokens.new }
{
    let close = tokens.take(Kind::Close)?;
    let partitions = maybe_partitions(source, tokens)?;
    let properties = maybe_properties(source, tokens)?;
    Ok(((close, partitions), properties))
}

// What is listed, or nothing.
fn or_nothing<T: Drop>(alloc: Global, listed: Option<Items<T>>) -> Items<T>
    ensures { result ≡ unwrap_or listed [] }
{
    match listed {
        Some(listed) => listed,
        None => Items::new(alloc),
    }
}

/// CREATE TABLE, up to its semicolon.
pub(crate) fn create(source: &Source<'_>, tokens: &mut Tokens<'_>) -> Result<Stmt, Fault>
    ensures { Yields (spec.run_create source.now tokens.old) result tokens.new }
{
    tokens.take(Kind::Create)?;
    tokens.take(Kind::TableWord)?;
    let table = tokens.take_any(Class::Table)?;
    tokens.take(Kind::Open)?;
    let elements = elements(source, tokens)?;
    let ((_, partitions), properties) = create_end(source, tokens)?;
    Ok(Stmt::Create(CreateStmt {
        table: source.table_at(table.span)?,
        elements,
        partitions: or_nothing(source.alloc(), partitions),
        properties: or_nothing(source.alloc(), properties),
    }))
}
