// A cursor over tokens.
ghost use Rattle.std.specs.Prelude.{◌≡◌, ◌≤◌, [], length, drop, IsTrue, ◌↔◌};
ghost use Rattle.token_lang.specs.Run.{sees, run_one};
ghost use Rattle.sql_tree.specs.Kinds.{is};
ghost use Rattle.sql_grammar.specs.Reading as reading;
ghost use Rattle.sql_grammar.specs.Statements.{first_statement};
ghost use Rattle.sql_reader.specs.Classes.{is_in, operators};
ghost use Rattle.sql_reader.specs.Steps.{Yields};
ghost use Rattle.sql_reader.specs.Answers.{place_of};

use crate::class::{Class, Level};
use crate::fault::Fault;
use sql_tree::{Kind, Token};
use std::marker::Model;

// The tokens that are left.
#[derive(Drop)]
pub(crate) struct Tokens<'a> {
    rest: &'a [Token],
}

impl<'a> Model for Tokens<'a> {
    ghost use Rattle.std.specs.Prelude.{List};
    ghost use Rattle.sql_tree.specs.declared.token.Token.{Token};

    ghost Value = { List Token };

    ghost view = { λ t. t.rest.now };
}

impl<'a> Tokens<'a> {
    pub(crate) fn new(rest: &'a [Token]) -> Tokens<'a>
        ensures { result ≡ rest.now }
    {
        Tokens { rest }
    }

    pub(crate) fn rest(&self) -> &'a [Token]
        ensures { result.now ≡ self.now }
    {
        self.rest
    }

    pub(crate) fn len(&self) -> usize
        ensures { result ≡ length self.now }
    {
        self.rest.len()
    }

    pub(crate) fn is_empty(&self) -> bool
        ensures { IsTrue result ↔ (self.now ≡ []) }
    {
        self.rest.is_empty()
    }

    // Where the next token begins, or the end.
    pub(crate) fn place(&self, end: usize) -> usize
        ensures { result ≡ place_of end self.now }
    {
        match self.rest {
            [token, ..] => token.span.start,
            [] => end,
        }
    }

    pub(crate) fn skip(&mut self, count: usize)
        requires { count ≤ length self.old }
        ensures { self.new ≡ drop count self.old }
    {
        self.rest = &self.rest[count..];
    }

    pub(crate) fn sees(&self, kind: Kind) -> bool
        ensures { result ≡ sees (is kind) self.now }
    {
        match self.rest {
            [token, ..] => token.kind == kind,
            [] => false,
        }
    }

    pub(crate) fn sees_any(&self, class: Class) -> bool
        ensures { result ≡ sees (is_in class) self.now }
    {
        match self.rest {
            [token, ..] => class.has(token.kind),
            [] => false,
        }
    }

    pub(crate) fn take(&mut self, kind: Kind) -> Result<Token, Fault>
        ensures { Yields (run_one (is kind) self.old) result self.new }
    {
        match self.rest {
            [token, rest @ ..] if token.kind == kind => {
                self.rest = rest;
                Ok(*token)
            }
            _ => Err(Fault::Refused),
        }
    }

    pub(crate) fn take_any(&mut self, class: Class) -> Result<Token, Fault>
        ensures { Yields (run_one (is_in class) self.old) result self.new }
    {
        match self.rest {
            [token, rest @ ..] if class.has(token.kind) => {
                self.rest = rest;
                Ok(*token)
            }
            _ => Err(Fault::Refused),
        }
    }

    pub(crate) fn sees_operator(&self, level: Level) -> bool
        ensures { result ≡ sees (operators level) self.now }
    {
        match level {
            Level::Or => self.sees(Kind::Or),
            Level::And => self.sees(Kind::And),
            Level::Concat => self.sees(Kind::Concat),
            Level::Sum => self.sees_any(Class::Sign),
            Level::Product => self.sees_any(Class::Multiplier),
        }
    }

    pub(crate) fn take_operator(&mut self, level: Level) -> Result<Token, Fault>
        ensures { Yields (run_one (operators level) self.old) result self.new }
    {
        match level {
            Level::Or => self.take(Kind::Or),
            Level::And => self.take(Kind::And),
            Level::Concat => self.take(Kind::Concat),
            Level::Sum => self.take_any(Class::Sign),
            Level::Product => self.take_any(Class::Multiplier),
        }
    }

    // Whether a name's tail stands here.
    pub(crate) fn sees_tail(&self) -> bool
        ensures { result ≡ sees reading.first_tail self.now }
    {
        match self.rest {
            [token, ..] => token.kind == Kind::Dot || token.kind == Kind::Open,
            [] => false,
        }
    }

    // Whether a date's text or a name's tail stands here.
    pub(crate) fn sees_dated_tail(&self) -> bool
        ensures { result ≡ sees reading.first_dated_tail self.now }
    {
        self.sees_any(Class::Text) || self.sees_tail()
    }

    // Whether an operand is tested here.
    pub(crate) fn sees_predicate(&self) -> bool
        ensures { result ≡ sees reading.first_predicate self.now }
    {
        match self.rest {
            [token, ..] => begins_predicate(*token),
            [] => false,
        }
    }

    // Whether an expression may begin here.
    pub(crate) fn sees_expr(&self) -> bool
        ensures { result ≡ sees reading.first_expr self.now }
    {
        match self.rest {
            [token, ..] => begins_expr(*token),
            [] => false,
        }
    }

    // Whether a statement begins here.
    pub(crate) fn sees_statement(&self) -> bool
        ensures { result ≡ sees first_statement self.now }
    {
        self.sees(Kind::Show)
            || self.sees(Kind::Select)
            || self.sees(Kind::Delete)
            || self.sees(Kind::Create)
    }
}

// Whether an expression may begin with the token.
fn begins_expr(token: Token) -> bool
    ensures { result ≡ reading.first_expr token }
{
    let kind = token.kind;
    kind == Kind::Not || Class::Sign.has(kind) || begins_primary(token)
}

// Whether an operand without signs may begin with the token.
fn begins_primary(token: Token) -> bool
    ensures { result ≡ reading.first_primary token }
{
    let kind = token.kind;
    Class::Value.has(kind)
        || Class::Date.has(kind)
        || kind == Kind::Open
        || Class::NameAlone.has(kind)
        || kind == Kind::Case
        || kind == Kind::Cast
}

// Whether the operand before the token is tested.
fn begins_predicate(token: Token) -> bool
    ensures { result ≡ reading.first_predicate token }
{
    let kind = token.kind;
    Class::Comparison.has(kind)
        || kind == Kind::Is
        || kind == Kind::Not
        || kind == Kind::Between
        || kind == Kind::In
}
