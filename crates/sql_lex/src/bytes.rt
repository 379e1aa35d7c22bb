// Bytes by their class.
ghost use Rattle.std.specs.Prelude.{◌≡◌, ◌&&◌, ◌||◌, ◌<◌, ◌≤◌, ◌==◌, not, true, false, length, slice_index};
ghost use Rattle.sql_lex.specs.Bytes as spec;

use sql_tree::Kind;

/// Classes of bytes. Letters and digits are those of ASCII.
#[derive(Clone, Copy)]
pub enum Class {
    /// White space.
    Blank,
    /// What isn't a line feed.
    Line,
    Digit,
    /// What stands before a number's first significant digit: the digit 0 and the point.
    Lead,
    /// A hexadecimal digit.
    Hex,
    /// What isn't a quote.
    Inner,
    /// What begins a word.
    Letter,
    /// What goes on a word.
    Word,
    /// What stands in a table's name.
    Table,
}

/// The front of some bytes: what it is, and how many bytes it has.
#[derive(Clone, Copy)]
pub struct Piece {
    pub kind: Kind,
    pub len: usize,
}

pub(crate) fn is_in(class: Class, byte: u8) -> bool
    ensures { result ≡ spec.is_in class byte }
{
    match class {
        Class::Blank => matches!(byte, b' ' | b'\t' | b'\r' | b'\n'),
        Class::Line => byte != b'\n',
        Class::Digit => byte.is_ascii_digit(),
        Class::Lead => byte == b'0' || byte == b'.',
        Class::Hex => byte.is_ascii_hexdigit(),
        Class::Inner => byte != b'\'',
        Class::Letter => byte.is_ascii_alphabetic() || byte == b'_',
        Class::Word => byte.is_ascii_alphanumeric() || byte == b'_',
        Class::Table => byte.is_ascii_alphanumeric() || matches!(byte, b'_' | b'-' | b'.'),
    }
}

/// How many bytes of the class stand at the front.
pub(crate) fn run(class: Class, bytes: &[u8]) -> usize
    ensures value { result ≡ spec.run class bytes.now }
    ensures within { result ≤ length bytes.now }
    ensures moves { 0 < length bytes.now → spec.is_in class (slice_index bytes.now 0) ≡ true → 0 < result }
{
    let mut end = 0;
    while end < bytes.len() && is_in(class, bytes[end]) {
        end += 1;
    }
    end
}

/// Whether each byte is of the class.
pub(crate) fn are_in(class: Class, bytes: &[u8]) -> bool
    ensures { result ≡ spec.are_in class bytes.now }
{
    run(class, bytes) == bytes.len()
}

/// Whether the first byte is this one.
pub(crate) fn begins_with(byte: u8, bytes: &[u8]) -> bool
    ensures { result ≡ spec.begins_with byte bytes.now }
{
    match bytes {
        [first, ..] => *first == byte,
        [] => false,
    }
}

/// Whether a comment begins here.
pub(crate) fn begins_comment(bytes: &[u8]) -> bool
    ensures { result ≡ spec.begins_comment bytes.now }
{
    matches!(bytes, [b'-', b'-', ..])
}

/// Whether `X'..'` begins here.
pub(crate) fn begins_bytes(bytes: &[u8]) -> bool
    ensures { result ≡ spec.begins_bytes bytes.now }
{
    matches!(bytes, [b'X' | b'x', b'\'', ..])
}
