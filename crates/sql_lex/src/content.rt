// What tokens mean: names, texts, numbers and bytes.
ghost use Rattle.std.specs.Prelude.{◌≡◌, ◌+◌, ◌<◌, ◌≤◌, ◌^◌, true, false, length, IfOk, IfSome};
ghost use Rattle.sql_lex.specs.Content as spec;

use crate::bytes::{Class, are_in, begins_bytes, run};
use crate::numbers::{MOST_DIGITS, fraction_len, number_len, significant, unscaled};
use crate::quotes::{closing, hex_digits, inside};
use crate::tables::is_table_name;
use dm_types::{Bytes, Text};
use hex::FromHexError;
use sql_tree::Number;
use std::alloc::{AllocError, Global};

// Whether the bytes are one text in quotes.
fn is_quoted(quote: u8, token: &[u8]) -> bool
    ensures { result ≡ spec.is_quoted quote token.now }
{
    match token {
        [first, rest @ ..] => *first == quote && ends_at(rest.len(), closing(quote, rest)),
        [] => false,
    }
}

fn ends_at(place: usize, end: Option<usize>) -> bool
    ensures { result ≡ spec.ends_at place end }
{
    match end {
        Some(len) => len == place,
        None => false,
    }
}

// What stands in quotes, of two quotes one.
fn halved(alloc: Global, quote: u8, bytes: &[u8]) -> Result<Bytes, AllocError>
    ensures { IfOk result (λ content. content ≡ spec.halved quote false bytes.now) }
{
    let mut content = Bytes::new(alloc);
    let mut second = false;
    for byte in bytes {
        if second && *byte == quote {
            second = false;
        } else {
            content.push(*byte)?;
            second = *byte == quote;
        }
    }
    Ok(content)
}

/// The bytes as a text, where they are UTF-8.
pub fn as_text(bytes: Bytes) -> Option<Text>
    ensures { result ≡ spec.if_text bytes }
{
    Text::from_utf8(bytes)
}

/// The name that a token is: the word itself, or what stands in backquotes, of two backquotes one.
/// `None` where the bytes are no such token.
pub fn name_of(alloc: Global, token: &[u8]) -> Result<Option<Text>, AllocError>
    ensures { IfOk result (λ name. name ≡ spec.name_of token.now) }
{
    if is_quoted(b'`', token) {
        if token.len() > 2 {
            Ok(as_text(halved(alloc, b'`', inside(token))?))
        } else {
            Ok(None)
        }
    } else if !token.is_empty() && are_in(Class::Word, token) {
        Ok(as_text(Bytes::from_slice(alloc, token)?))
    } else {
        Ok(None)
    }
}

/// The table's name that a token is: all of its bytes. `None` where the bytes are none.
pub fn table_of(alloc: Global, token: &[u8]) -> Result<Option<Text>, AllocError>
    ensures { IfOk result (λ name. name ≡ spec.table_of token.now) }
{
    if is_table_name(token) {
        Ok(as_text(Bytes::from_slice(alloc, token)?))
    } else {
        Ok(None)
    }
}

/// The text that stands in quotes, of two quotes one. `None` where the bytes are no such token.
pub fn text_of(alloc: Global, token: &[u8]) -> Result<Option<Text>, AllocError>
    ensures { IfOk result (λ text. text ≡ spec.text_of token.now) }
{
    if is_quoted(b'\'', token) {
        Ok(as_text(halved(alloc, b'\'', inside(token))?))
    } else {
        Ok(None)
    }
}

fn decoded(alloc: Global, digits: &[u8]) -> Result<Option<Bytes>, AllocError>
    ensures { IfOk result (λ bytes. bytes ≡ spec.decoded digits.now) }
{
    match hex::decode(alloc, digits) {
        Ok(bytes) => Ok(Some(Bytes::from_vec(bytes))),
        Err(FromHexError::OutOfMemory) => Err(AllocError),
        Err(_) => Ok(None),
    }
}

/// The bytes that `X'..'` spells. `None` where the bytes are no such token.
pub fn bytes_of(alloc: Global, token: &[u8]) -> Result<Option<Bytes>, AllocError>
    ensures { IfOk result (λ bytes. bytes ≡ spec.bytes_of token.now) }
{
    if begins_bytes(token) && run(Class::Inner, &token[2..]) + 3 == token.len() {
        decoded(alloc, hex_digits(token))
    } else {
        Ok(None)
    }
}

fn is_number(token: &[u8]) -> bool
    ensures { result ≡ spec.is_number token.now }
{
    run(Class::Digit, token) > 0
        && number_len(token) == token.len()
        && significant(token) <= MOST_DIGITS
}

fn scale(token: &[u8]) -> usize
    ensures value { result ≡ spec.scale token.now }
    ensures within { result + spec.whole_len token.now ≤ length token.now }
{
    fraction_len(&token[run(Class::Digit, token)..]).saturating_sub(1)
}

fn precision(token: &[u8]) -> usize
    ensures { result ≡ spec.precision token.now }
{
    let whole = significant(&token[..run(Class::Digit, token)]);
    (whole + scale(token)).max(1)
}

/// The number that a token is, of either form. `None` where the bytes are no such token.
pub fn number_of(token: &[u8]) -> Option<Number>
    ensures value { result ≡ spec.number_of token.now }
    ensures below { IfSome result (λ number. number.unscaled < 10 ^ 38) }
{
    if is_number(token) {
        Some(Number {
            unscaled: unscaled(token),
            precision: precision(token),
            scale: scale(token),
        })
    } else {
        None
    }
}
