// A script, and what stands at its places.
ghost use Rattle.std.specs.Prelude.{◌≡◌, ◌<◌, ◌^◌, [], IfOk, unwrap_or};
ghost use Rattle.sql_grammar.specs.Create as create;
ghost use Rattle.sql_grammar.specs.Tree as tree;
ghost use Rattle.sql_tree.specs.Places.{slice};

use dm_types::{Bytes, Text};
use sql_lex::{as_text, bytes_of, name_of, number_of, table_of, text_of};
use sql_statements::TableName;
use sql_tree::{Name, Number, Span};
use std::alloc::{AllocError, Global};
use std::marker::Model;

// The bytes of a script, and the allocator of its trees.
#[derive(Drop)]
pub(crate) struct Source<'a> {
    alloc: Global,
    script: &'a [u8],
}

impl<'a> Model for Source<'a> {
    ghost use Rattle.std.specs.Prelude.{List, ℕ};

    ghost Value = { List ℕ };

    ghost view = { λ s. s.script.now };
}

impl<'a> Source<'a> {
    pub(crate) fn new(alloc: Global, script: &'a [u8]) -> Source<'a>
        ensures { result ≡ script.now }
    {
        Source { alloc, script }
    }

    pub(crate) fn alloc(&self) -> Global {
        self.alloc
    }

    pub(crate) fn name_at(&self, span: Span) -> Result<Name, AllocError>
        ensures { IfOk result (λ name. name ≡ tree.name_at self.now span) }
    {
        let found = name_of(self.alloc, part(self.script, span))?;
        Ok(Name {
            span,
            text: text_or_none(self.alloc, found),
        })
    }

    pub(crate) fn table_at(&self, span: Span) -> Result<TableName, AllocError>
        ensures { IfOk result (λ table. table ≡ tree.table_at self.now span) }
    {
        let found = table_of(self.alloc, part(self.script, span))?;
        Ok(TableName {
            span,
            text: text_or_none(self.alloc, found),
        })
    }

    pub(crate) fn text_at(&self, span: Span) -> Result<Text, AllocError>
        ensures { IfOk result (λ text. text ≡ tree.text_at self.now span) }
    {
        let found = text_of(self.alloc, part(self.script, span))?;
        Ok(text_or_none(self.alloc, found))
    }

    pub(crate) fn bytes_at(&self, span: Span) -> Result<Bytes, AllocError>
        ensures { IfOk result (λ bytes. bytes ≡ tree.bytes_at self.now span) }
    {
        let found = bytes_of(self.alloc, part(self.script, span))?;
        Ok(bytes_or_none(self.alloc, found))
    }

    pub(crate) fn number_at(&self, span: Span) -> Number
        ensures { result ≡ tree.number_at self.now span }
    {
        let none = Number {
            unscaled: 0,
            precision: 1,
            scale: 0,
        };
        number_of(part(self.script, span)).unwrap_or(none)
    }

    // What stands at a place, as it is written.
    pub(crate) fn written_at(&self, place: Span) -> Result<Text, AllocError>
        ensures { IfOk result (λ text. text ≡ create.written_at self.now place) }
    {
        let bytes = Bytes::from_slice(self.alloc, part(self.script, place))?;
        Ok(text_or_none(self.alloc, as_text(bytes)))
    }

    // A whole number below 2^63.
    pub(crate) fn whole_at(&self, span: Span) -> u64
        ensures number { result ≡ tree.whole_at self.now span }
        ensures bound { result < 2 ^ 63 }
    {
        let number = self.number_at(span).unscaled;
        if number < 1 << 63 { number as u64 } else { 0 }
    }
}

// The bytes of a part of a script.
fn part(script: &[u8], span: Span) -> &[u8]
    ensures { result.now ≡ slice script.now span }
{
    let rest = &script[span.start.min(script.len())..];
    let len = span.end.saturating_sub(span.start);
    &rest[..len.min(rest.len())]
}

fn text_or_none(alloc: Global, text: Option<Text>) -> Text
    ensures { result ≡ unwrap_or text [] }
{
    match text {
        Some(text) => text,
        None => Text::new(alloc),
    }
}

fn bytes_or_none(alloc: Global, bytes: Option<Bytes>) -> Bytes
    ensures { result ≡ unwrap_or bytes [] }
{
    match bytes {
        Some(bytes) => bytes,
        None => Bytes::new(alloc),
    }
}
