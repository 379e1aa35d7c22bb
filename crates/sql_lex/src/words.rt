// The words of the grammar.
ghost use Rattle.std.specs.Prelude.{◌≡◌, ◌<◌, ◌≤◌, true, length, map, slice_index};
ghost use Rattle.std.specs.Str.{str_eq_ignore_ascii_case};
ghost use Rattle.sql_lex.specs.Bytes.{is_in};
ghost use Rattle.sql_lex.specs.Words as spec;

use crate::bytes::{Class, Piece, run};
use sql_tree::Kind;

/// The words that have a place in the grammar, the reserved ones first.
const WORDS: [(&[u8], Kind); 76] = [
    (b"ALTER", Kind::Alter),
    (b"AND", Kind::And),
    (b"AS", Kind::As),
    (b"BETWEEN", Kind::Between),
    (b"BY", Kind::By),
    (b"CASE", Kind::Case),
    (b"CAST", Kind::Cast),
    (b"CHECK", Kind::Check),
    (b"CONSTRAINT", Kind::Constraint),
    (b"CREATE", Kind::Create),
    (b"DELETE", Kind::Delete),
    (b"DIV", Kind::Div),
    (b"ELSE", Kind::Else),
    (b"END", Kind::End),
    (b"FALSE", Kind::False),
    (b"FROM", Kind::From),
    (b"IN", Kind::In),
    (b"INSERT", Kind::Insert),
    (b"INTO", Kind::Into),
    (b"IS", Kind::Is),
    (b"MATCHED", Kind::Matched),
    (b"MERGE", Kind::Merge),
    (b"NOT", Kind::Not),
    (b"NULL", Kind::Null),
    (b"ON", Kind::On),
    (b"OR", Kind::Or),
    (b"SELECT", Kind::Select),
    (b"SET", Kind::Set),
    (b"SHOW", Kind::Show),
    (b"TABLE", Kind::TableWord),
    (b"THEN", Kind::Then),
    (b"TO", Kind::To),
    (b"TRUE", Kind::True),
    (b"UPDATE", Kind::Update),
    (b"USING", Kind::Using),
    (b"VALUES", Kind::Values),
    (b"VERIFY", Kind::Verify),
    (b"WHEN", Kind::When),
    (b"WHERE", Kind::Where),
    (b"FILES", Kind::Files),
    (b"IDENTITIES", Kind::Identities),
    (b"ROWS", Kind::Rows),
    (b"FEED", Kind::Feed),
    (b"VERSION", Kind::Version),
    (b"OF", Kind::Of),
    (b"PARTITIONED", Kind::Partitioned),
    (b"TBLPROPERTIES", Kind::TblProperties),
    (b"GENERATED", Kind::Generated),
    (b"ALWAYS", Kind::Always),
    (b"DEFAULT", Kind::Default),
    (b"IDENTITY", Kind::Identity),
    (b"START", Kind::Start),
    (b"WITH", Kind::With),
    (b"INCREMENT", Kind::Increment),
    (b"TARGET", Kind::Target),
    (b"SOURCE", Kind::Source),
    (b"BOOLEAN", Kind::Boolean),
    (b"TINYINT", Kind::TinyInt),
    (b"SMALLINT", Kind::SmallInt),
    (b"INT", Kind::Int),
    (b"BIGINT", Kind::BigInt),
    (b"STRING", Kind::String),
    (b"BINARY", Kind::Binary),
    (b"DATE", Kind::Date),
    (b"TIMESTAMP", Kind::Timestamp),
    (b"DECIMAL", Kind::DecimalWord),
    (b"ENABLE", Kind::Enable),
    (b"ROW", Kind::Row),
    (b"TRACKING", Kind::Tracking),
    (b"ADD", Kind::Add),
    (b"COLUMN", Kind::Column),
    (b"RENAME", Kind::Rename),
    (b"DROP", Kind::Drop),
    (b"OPTIMIZE", Kind::Optimize),
    (b"RESTORE", Kind::Restore),
    (b"STATS", Kind::Stats),
];

// Words match in either case.
fn is_same_word(word: &[u8], other: &[u8]) -> bool
    ensures { result ≡ str_eq_ignore_ascii_case word.now other.now }
{
    word.eq_ignore_ascii_case(other)
}

// The kind under which a word stands in a list.
fn kind_in(mut list: &[(&[u8], Kind)], word: &[u8]) -> Kind
    ensures { result ≡ spec.kind_in (map (λ entry. (entry.0.now, entry.1)) list.entry.now) word.now }
{
    while let [entry, more @ ..] = list {
        if is_same_word(word, entry.0) {
            return entry.1;
        }
        list = more;
    }
    Kind::Name
}

/// The kind of a word: its own where it has a place in the grammar, in either case, or `Name`.
pub(crate) fn word_kind(word: &[u8]) -> Kind
    ensures { result ≡ spec.word_kind word.now }
{
    kind_in(&WORDS, word)
}

/// The word at the front.
pub(crate) fn word(bytes: &[u8]) -> Piece
    requires some { 0 < length bytes.now }
    requires letter { is_in Class.Letter (slice_index bytes.now 0) ≡ true }
    ensures value { result ≡ spec.word bytes.now }
    ensures within { (1 ≤ result.len) × (result.len ≤ length bytes.now) }
{
    let len = run(Class::Word, bytes);
    Piece {
        kind: word_kind(&bytes[..len]),
        len,
    }
}
