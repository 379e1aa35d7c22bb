// Tokens with their places.

/// A part of a script: the bytes from `start` up to `end`, which isn't in it.
#[derive(Clone, Copy)]
pub struct Span {
    /// Where the part begins, counted in bytes from the script's first.
    pub start: usize,
    /// Where the part ends.
    pub end: usize,
}

/// What a token is. A word has a kind of its own where the grammar of the whole language, with the
/// statements that aren't built yet, has a place for it: a new statement adds no kind.
#[derive(Clone, Copy, PartialEq, Eq)]
pub enum Kind {
    /// A byte, a quoted text, a quoted name or a comment that is no token.
    Bad,
    /// A word that isn't reserved and has no place in the grammar, or a name in backquotes.
    Name,
    /// A whole number up to 2^63 - 1.
    Whole,
    /// A whole number above 2^63 - 1.
    LargeWhole,
    /// A decimal number.
    Decimal,
    /// A text in single quotes that is no table's name.
    Text,
    /// A text in single quotes that is a table's name.
    TableText,
    /// Bytes, `X'..'`.
    Bytes,
    /// A table's name, where the grammar has one.
    Table,
    /// The word `table_changes` where the grammar has a table. It is a table's name too.
    TableChanges,
    /// `;`
    Semicolon,
    /// `(`
    Open,
    /// `)`
    Close,
    /// `,`
    Comma,
    /// `.`
    Dot,
    /// `=`
    Equal,
    /// `<>` or `!=`
    NotEqual,
    /// `<`
    Less,
    /// `<=`
    LessOrEqual,
    /// `>`
    Greater,
    /// `>=`
    GreaterOrEqual,
    /// `<=>`
    SameAs,
    /// `||`
    Concat,
    /// `+`
    Plus,
    /// `-`
    Minus,
    /// `*`
    Star,
    /// `%`
    Percent,
    /// ALTER, a reserved word.
    Alter,
    /// AND, a reserved word.
    And,
    /// AS, a reserved word.
    As,
    /// BETWEEN, a reserved word.
    Between,
    /// BY, a reserved word.
    By,
    /// CASE, a reserved word.
    Case,
    /// CAST, a reserved word.
    Cast,
    /// CHECK, a reserved word.
    Check,
    /// CONSTRAINT, a reserved word.
    Constraint,
    /// CREATE, a reserved word.
    Create,
    /// DELETE, a reserved word.
    Delete,
    /// DIV, a reserved word.
    Div,
    /// ELSE, a reserved word.
    Else,
    /// END, a reserved word.
    End,
    /// FALSE, a reserved word.
    False,
    /// FROM, a reserved word.
    From,
    /// IN, a reserved word.
    In,
    /// INSERT, a reserved word.
    Insert,
    /// INTO, a reserved word.
    Into,
    /// IS, a reserved word.
    Is,
    /// MATCHED, a reserved word.
    Matched,
    /// MERGE, a reserved word.
    Merge,
    /// NOT, a reserved word.
    Not,
    /// NULL, a reserved word.
    Null,
    /// ON, a reserved word.
    On,
    /// OR, a reserved word.
    Or,
    /// SELECT, a reserved word.
    Select,
    /// SET, a reserved word.
    Set,
    /// SHOW, a reserved word.
    Show,
    /// TABLE, a reserved word.
    TableWord,
    /// THEN, a reserved word.
    Then,
    /// TO, a reserved word.
    To,
    /// TRUE, a reserved word.
    True,
    /// UPDATE, a reserved word.
    Update,
    /// USING, a reserved word.
    Using,
    /// VALUES, a reserved word.
    Values,
    /// VERIFY, a reserved word.
    Verify,
    /// WHEN, a reserved word.
    When,
    /// WHERE, a reserved word.
    Where,
    /// FILES, which may also be a name.
    Files,
    /// IDENTITIES, which may also be a name.
    Identities,
    /// ROWS, which may also be a name.
    Rows,
    /// FEED, which may also be a name.
    Feed,
    /// VERSION, which may also be a name.
    Version,
    /// OF, which may also be a name.
    Of,
    /// PARTITIONED, which may also be a name.
    Partitioned,
    /// TBLPROPERTIES, which may also be a name.
    TblProperties,
    /// GENERATED, which may also be a name.
    Generated,
    /// ALWAYS, which may also be a name.
    Always,
    /// DEFAULT, which may also be a name.
    Default,
    /// IDENTITY, which may also be a name.
    Identity,
    /// START, which may also be a name.
    Start,
    /// WITH, which may also be a name.
    With,
    /// INCREMENT, which may also be a name.
    Increment,
    /// TARGET, which may also be a name.
    Target,
    /// SOURCE, which may also be a name.
    Source,
    /// BOOLEAN, which may also be a name.
    Boolean,
    /// TINYINT, which may also be a name.
    TinyInt,
    /// SMALLINT, which may also be a name.
    SmallInt,
    /// INT, which may also be a name.
    Int,
    /// BIGINT, which may also be a name.
    BigInt,
    /// STRING, which may also be a name.
    String,
    /// BINARY, which may also be a name.
    Binary,
    /// DATE, which may also be a name.
    Date,
    /// TIMESTAMP, which may also be a name.
    Timestamp,
    /// DECIMAL, which may also be a name.
    DecimalWord,
    /// ENABLE, which may also be a name.
    Enable,
    /// ROW, which may also be a name.
    Row,
    /// TRACKING, which may also be a name.
    Tracking,
    /// ADD, which may also be a name.
    Add,
    /// COLUMN, which may also be a name.
    Column,
    /// RENAME, which may also be a name.
    Rename,
    /// DROP, which may also be a name.
    Drop,
    /// OPTIMIZE, which may also be a name.
    Optimize,
    /// RESTORE, which may also be a name.
    Restore,
    /// STATS, which may also be a name.
    Stats,
}

/// A token of a script.
#[derive(Clone, Copy)]
pub struct Token {
    /// What it is.
    pub kind: Kind,
    /// Where it stands. It has a byte at least.
    pub span: Span,
}
