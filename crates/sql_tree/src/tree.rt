// Expressions, with their places and what stands there.

use crate::token::Span;
use dm_types::{Bytes, DataType, Text};
use sqlite_items::{Boxed, Items};

/// Expressions, in order.
pub type Exprs = Items<Expr>;

/// Conditions, each with the value where it is the first that holds.
pub type Branches = Items<(Expr, Expr)>;

/// The name of a column, a qualifier or a function.
#[derive(Drop)]
pub struct Name {
    /// Where it stands, with its backquotes.
    pub span: Span,
    /// The word, or what stands in backquotes, of two backquotes one.
    pub text: Text,
}

/// A number as it is written.
#[derive(Clone, Copy)]
pub struct Number {
    /// The number without its point, below 10^38.
    pub unscaled: u128,
    /// How many digits it has: those behind the point, and those before it without leading zeros;
    /// at least 1.
    pub precision: usize,
    /// How many digits stand behind the point: 0 for a whole number.
    pub scale: usize,
}

/// What a literal is.
#[derive(Drop)]
pub enum Literal {
    Null,
    True,
    False,
    /// Digits.
    Whole(Number),
    /// Digits, a point and digits.
    Decimal(Number),
    /// What stands in single quotes, of two quotes one.
    Text(Text),
    /// What `X'..'` spells.
    Bytes(Bytes),
    /// DATE and a text, which stands at this place.
    Date { place: Span, text: Text },
    /// TIMESTAMP and a text, which stands at this place.
    Timestamp { place: Span, text: Text },
}

/// What stands before an operand.
#[derive(Clone, Copy)]
pub enum Prefix {
    Not,
    Minus,
    Plus,
}

/// What stands between two operands.
#[derive(Clone, Copy)]
pub enum Operator {
    Or,
    And,
    Equal,
    NotEqual,
    Less,
    LessOrEqual,
    Greater,
    GreaterOrEqual,
    /// `<=>`: equal, or both null.
    SameAs,
    /// `||`
    Concat,
    Plus,
    Minus,
    Times,
    Remainder,
    /// DIV
    Divide,
}

/// What IS asks for.
#[derive(Clone, Copy)]
pub enum Truth {
    Null,
    True,
    False,
}

/// What a written type names.
#[derive(Clone, Copy)]
pub enum WrittenKind {
    /// A type.
    Type(DataType),
    /// A DECIMAL whose precision isn't from 1 to 38, or whose scale is above its precision.
    BadDecimal { precision: u128, scale: u128 },
}

/// A type as it stands in a script.
#[derive(Clone, Copy)]
pub struct WrittenType {
    /// Where it stands, with its brackets.
    pub span: Span,
    pub kind: WrittenKind,
}

/// An expression. `span` is where the whole of it stands.
#[derive(Drop)]
pub enum Expr {
    Literal {
        span: Span,
        value: Literal,
    },
    /// A column, with its qualifier, if any.
    Column {
        span: Span,
        qualifier: Option<Name>,
        name: Name,
    },
    /// An expression in brackets.
    Group {
        span: Span,
        inner: Boxed<Expr>,
    },
    /// A sign or NOT, which stands at `place`.
    Unary {
        span: Span,
        prefix: Prefix,
        place: Span,
        operand: Boxed<Expr>,
    },
    /// An operator, which stands at `place`.
    Binary {
        span: Span,
        operator: Operator,
        place: Span,
        left: Boxed<Expr>,
        right: Boxed<Expr>,
    },
    /// `IS [NOT] ..`, from IS to its end at `place`.
    Is {
        span: Span,
        truth: Truth,
        not: bool,
        place: Span,
        operand: Boxed<Expr>,
    },
    /// `[NOT] BETWEEN`, at `place`.
    Between {
        span: Span,
        not: bool,
        place: Span,
        operand: Boxed<Expr>,
        low: Boxed<Expr>,
        high: Boxed<Expr>,
    },
    /// `[NOT] IN`, at `place`, with one item at least.
    In {
        span: Span,
        not: bool,
        place: Span,
        operand: Boxed<Expr>,
        items: Exprs,
    },
    /// CASE, at `place`, with one branch at least and what stands behind ELSE.
    Case {
        span: Span,
        place: Span,
        branches: Branches,
        otherwise: Option<Boxed<Expr>>,
    },
    /// CAST, at `place`.
    Cast {
        span: Span,
        place: Span,
        operand: Boxed<Expr>,
        wanted: WrittenType,
    },
    /// A call of a function.
    Call {
        span: Span,
        function: Name,
        arguments: Exprs,
    },
}

impl Expr {
    ghost use Rattle.std.specs.Prelude.{◌≡◌};
    ghost use Rattle.sql_tree.specs.Spans.{span_of};

    /// Where the whole expression stands.
    pub fn span(&self) -> Span
        ensures { result ≡ span_of self.now }
    {
        match self {
            Expr::Literal { span, .. }
            | Expr::Column { span, .. }
            | Expr::Group { span, .. }
            | Expr::Unary { span, .. }
            | Expr::Binary { span, .. }
            | Expr::Is { span, .. }
            | Expr::Between { span, .. }
            | Expr::In { span, .. }
            | Expr::Case { span, .. }
            | Expr::Cast { span, .. }
            | Expr::Call { span, .. } => *span,
        }
    }
}
