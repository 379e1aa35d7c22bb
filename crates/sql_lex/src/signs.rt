// Operators and other signs.
ghost use Rattle.std.specs.Prelude.{◌≡◌, ◌≤◌, ◌<◌, map, length};
ghost use Rattle.sql_lex.specs.Signs as spec;

use crate::bytes::Piece;
use sql_tree::Kind;

/// All signs, each before those with which it begins.
const SIGNS: [(&[u8], Kind); 18] = [
    (b"<=>", Kind::SameAs),
    (b"<>", Kind::NotEqual),
    (b"!=", Kind::NotEqual),
    (b"<=", Kind::LessOrEqual),
    (b">=", Kind::GreaterOrEqual),
    (b"||", Kind::Concat),
    (b";", Kind::Semicolon),
    (b"(", Kind::Open),
    (b")", Kind::Close),
    (b",", Kind::Comma),
    (b".", Kind::Dot),
    (b"=", Kind::Equal),
    (b"<", Kind::Less),
    (b">", Kind::Greater),
    (b"+", Kind::Plus),
    (b"-", Kind::Minus),
    (b"*", Kind::Star),
    (b"%", Kind::Percent),
];

// The first sign of a list that stands at the front.
fn sign_in(mut list: &[(&[u8], Kind)], bytes: &[u8]) -> Piece
    requires { 0 < length bytes.now }
    ensures value { result ≡ spec.sign_in (map (λ entry. (entry.0.now, entry.1)) list.entry.now) bytes.now }
    ensures within { result.len ≤ length bytes.now }
{
    while let [entry, more @ ..] = list {
        if bytes.starts_with(entry.0) {
            return Piece {
                kind: entry.1,
                len: entry.0.len(),
            };
        }
        list = more;
    }
    Piece {
        kind: Kind::Bad,
        len: 1,
    }
}

/// The longest sign at the front; a byte that begins none is bad.
pub(crate) fn sign(bytes: &[u8]) -> Piece
    requires { 0 < length bytes.now }
    ensures value { result ≡ spec.sign bytes.now }
    ensures within { (1 ≤ result.len) × (result.len ≤ length bytes.now) }
{
    sign_in(&SIGNS, bytes)
}
