// The tokens of bytes.
ghost use Rattle.std.specs.Prelude.{◌≡◌, ◌<◌, ◌≤◌, ◌||◌, ◌==◌, not, true, false, length, slice_index, IfOk};
ghost use Rattle.sql_lex.specs.Tokens as spec;

use crate::bytes::{Class, Piece, begins_bytes, begins_comment, is_in, run};
use crate::numbers::number;
use crate::quotes::{bytes, quoted};
use crate::signs::sign;
use crate::tables::{table, table_len};
use crate::words::word;
use dm_types::{Items, is_text};
use sql_tree::{Kind, Span, Token};
use std::alloc::{AllocError, Global};

/// What stands before a token, as far as it says how the token is cut.
#[derive(Clone, Copy)]
pub enum Before {
    /// A statement begins.
    Start,
    Other,
    Show,
    Verify,
    Then,
    /// A table's name is due.
    Table,
    /// A SELECT goes on.
    Select,
    /// A table's name is due in a SELECT.
    SelectTable,
}

// Whether a table's name follows a token of this kind.
fn wants_table(before: Before, kind: Kind) -> bool
    ensures { result ≡ spec.wants_table before kind }
{
    let names_table = matches!(kind, Kind::From | Kind::Into | Kind::TableWord);
    let uses_table = matches!(kind, Kind::Using);
    let is_update = matches!(kind, Kind::Update);
    match before {
        Before::Start => {
            names_table || uses_table || is_update || matches!(kind, Kind::Optimize)
        }
        Before::Other | Before::Table => names_table || uses_table || is_update,
        Before::Show => {
            names_table
                || uses_table
                || is_update
                || matches!(kind, Kind::Files | Kind::Identities | Kind::Rows)
        }
        Before::Verify => names_table || uses_table || is_update || matches!(kind, Kind::Feed),
        Before::Then => names_table || uses_table,
        Before::Select | Before::SelectTable => names_table,
    }
}

// Whether the token behind this state stands in a SELECT.
fn is_in_select(before: Before) -> bool
    ensures { result ≡ spec.is_in_select before }
{
    matches!(before, Before::Select | Before::SelectTable)
}

fn stands_before(selects: bool, kind: Kind) -> Before
    ensures { result ≡ spec.stands_before selects kind }
{
    match kind {
        Kind::Semicolon => Before::Start,
        Kind::Show => Before::Show,
        Kind::Verify => Before::Verify,
        Kind::Then if !selects => Before::Then,
        Kind::Select => Before::Select,
        _ if selects => Before::Select,
        _ => Before::Other,
    }
}

fn after(before: Before, kind: Kind) -> Before
    ensures { result ≡ spec.after before kind }
{
    let selects = is_in_select(before);
    match (wants_table(before, kind), selects) {
        (true, false) => Before::Table,
        (true, true) => Before::SelectTable,
        (false, _) => stands_before(selects, kind),
    }
}

fn is_table_due(before: Before) -> bool
    ensures { result ≡ spec.is_table_due before }
{
    matches!(before, Before::Table | Before::SelectTable)
}

// The token at the front, by its first byte.
fn common(script: &[u8]) -> Piece
    requires { 0 < length script.now }
    ensures value { result ≡ spec.common script.now }
    ensures within { (1 ≤ result.len) × (result.len ≤ length script.now) }
{
    let first = script[0];
    if begins_bytes(script) {
        bytes(script)
    } else if is_in(Class::Letter, first) {
        word(script)
    } else if is_in(Class::Digit, first) {
        number(script)
    } else if first == b'\'' || first == b'`' {
        quoted(first, script)
    } else {
        sign(script)
    }
}

// The token at the front, where no white space and no good comment stands.
#[tactic(auto, unfolding(crate::specs::Tokens::token))]
fn token(before: Before, script: &[u8]) -> Piece
    requires { 0 < length script.now }
    ensures value { result ≡ spec.token before script.now }
    ensures within { (1 ≤ result.len) × (result.len ≤ length script.now) }
{
    if begins_comment(script) {
        return Piece {
            kind: Kind::Bad,
            len: run(Class::Line, script),
        };
    }
    if is_table_due(before) && table_len(script) > 0 {
        table(script)
    } else {
        common(script)
    }
}

// How many bytes of white space, or of one comment, stand at the front.
#[tactic(auto, unfolding(crate::specs::Tokens::gap))]
fn gap(script: &[u8]) -> usize
    ensures value { result ≡ spec.gap script.now }
    ensures within { result ≤ length script.now }
{
    let [first, ..] = script else {
        return 0;
    };
    if is_in(Class::Blank, *first) {
        run(Class::Blank, script)
    } else if begins_comment(script) {
        comment_len(script)
    } else {
        0
    }
}

// The length of the comment at the front, or 0 where it isn't UTF-8.
fn comment_len(script: &[u8]) -> usize
    ensures value { result ≡ spec.comment_len script.now }
    ensures within { result ≤ length script.now }
{
    let len = run(Class::Line, script);
    if is_text(&script[..len]) { len } else { 0 }
}

/// The tokens of the bytes of a script or an expression, in their order. What is no token is one of
/// the kind `Bad`. White space and comments part tokens.
pub fn read_tokens_of(alloc: Global, bytes: &[u8]) -> Result<Items<Token>, AllocError>
    ensures { IfOk result (λ tokens. tokens ≡ spec.tokens bytes.now) }
{
    let mut tokens = Items::new(alloc);
    let mut before = Before::Start;
    let mut at = 0;
    'pieces: while at < bytes.len() {
        let rest = &bytes[at..];
        let blank = gap(rest);
        if blank > 0 {
            at += blank;
            continue;
        }
        let piece = token(before, rest);
        tokens.push(Token {
            kind: piece.kind,
            span: Span {
                start: at,
                end: at + piece.len,
            },
        })?;
        before = after(before, piece.kind);
        at += piece.len;
    }
    Ok(tokens)
}
