// Classes of tokens, and the levels of operators.
ghost use Rattle.std.specs.Prelude.{◌≡◌};
ghost use Rattle.sql_tree.specs.Kinds as kinds;

use sql_tree::Kind;

// A class of tokens.
#[derive(Clone, Copy)]
pub(crate) enum Class {
    // Any name.
    Name,
    // A name that begins no literal.
    NameAlone,
    // A literal of one token.
    Value,
    // DATE or TIMESTAMP.
    Date,
    Comparison,
    Not,
    Sign,
    Multiplier,
    Truth,
    PlainType,
    Text,
    Table,
}

// The levels of operators that stand in chains, the loosest first.
#[derive(Clone, Copy)]
pub(crate) enum Level {
    Or,
    And,
    Concat,
    Sum,
    Product,
}

fn names_plainly(kind: Kind) -> bool
    ensures { result ≡ kinds.names_plainly kind }
{
    matches!(
        kind,
        Kind::Name
            | Kind::Files
            | Kind::Identities
            | Kind::Rows
            | Kind::Feed
            | Kind::Version
            | Kind::Of
            | Kind::Target
            | Kind::Source
            | Kind::Stats
    )
}

fn names_in_create(kind: Kind) -> bool
    ensures { result ≡ kinds.names_in_create kind }
{
    matches!(
        kind,
        Kind::Partitioned
            | Kind::TblProperties
            | Kind::Generated
            | Kind::Always
            | Kind::Default
            | Kind::Identity
            | Kind::Start
            | Kind::With
            | Kind::Increment
    )
}

fn names_a_type(kind: Kind) -> bool
    ensures { result ≡ kinds.names_a_type kind }
{
    matches!(
        kind,
        Kind::Boolean
            | Kind::TinyInt
            | Kind::SmallInt
            | Kind::Int
            | Kind::BigInt
            | Kind::String
            | Kind::Binary
            | Kind::DecimalWord
    )
}

fn names_in_alter(kind: Kind) -> bool
    ensures { result ≡ kinds.names_in_alter kind }
{
    matches!(
        kind,
        Kind::Enable
            | Kind::Row
            | Kind::Tracking
            | Kind::Add
            | Kind::Column
            | Kind::Rename
            | Kind::Drop
            | Kind::Optimize
            | Kind::Restore
    )
}

fn is_name_alone(kind: Kind) -> bool
    ensures { result ≡ kinds.names_alone kind }
{
    names_plainly(kind) || names_in_create(kind) || names_a_type(kind) || names_in_alter(kind)
}

fn is_name(kind: Kind) -> bool
    ensures { result ≡ kinds.names kind }
{
    matches!(kind, Kind::Date | Kind::Timestamp) || is_name_alone(kind)
}

fn is_value(kind: Kind) -> bool
    ensures { result ≡ kinds.is_value kind }
{
    matches!(
        kind,
        Kind::Whole
            | Kind::LargeWhole
            | Kind::Decimal
            | Kind::Text
            | Kind::TableText
            | Kind::Bytes
            | Kind::Null
            | Kind::True
            | Kind::False
    )
}

fn is_comparison(kind: Kind) -> bool
    ensures { result ≡ kinds.compares kind }
{
    matches!(
        kind,
        Kind::Equal
            | Kind::NotEqual
            | Kind::Less
            | Kind::LessOrEqual
            | Kind::Greater
            | Kind::GreaterOrEqual
            | Kind::SameAs
    )
}

fn is_plain_type(kind: Kind) -> bool
    ensures { result ≡ kinds.is_plain_type kind }
{
    matches!(
        kind,
        Kind::Boolean
            | Kind::TinyInt
            | Kind::SmallInt
            | Kind::Int
            | Kind::BigInt
            | Kind::String
            | Kind::Binary
            | Kind::Date
            | Kind::Timestamp
    )
}

impl Class {
    ghost use Rattle.sql_reader.specs.Classes.{kinds_of};

    // Whether tokens of the kind are in the class.
    pub(crate) fn has(self, kind: Kind) -> bool
        ensures { result ≡ kinds_of self kind }
    {
        match self {
            Class::Name => is_name(kind),
            Class::NameAlone => is_name_alone(kind),
            Class::Value => is_value(kind),
            Class::Date => matches!(kind, Kind::Date | Kind::Timestamp),
            Class::Comparison => is_comparison(kind),
            Class::Not => kind == Kind::Not,
            Class::Sign => matches!(kind, Kind::Plus | Kind::Minus),
            Class::Multiplier => matches!(kind, Kind::Star | Kind::Percent | Kind::Div),
            Class::Truth => matches!(kind, Kind::Null | Kind::True | Kind::False),
            Class::PlainType => is_plain_type(kind),
            Class::Text => matches!(kind, Kind::Text | Kind::TableText),
            Class::Table => matches!(kind, Kind::Table | Kind::TableChanges),
        }
    }
}
