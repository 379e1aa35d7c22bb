// The bytes that are left to be read.
ghost use Rattle.std.specs.Prelude.{◌≡◌, length};
ghost use Rattle.thrift_compact.specs.Values.{truth_of, field_start, list_start, entry_kinds, varint_byte};
ghost use Rattle.thrift_compact.specs.Reading.{one, exactly, signed_byte};
ghost use Rattle.thrift_compact.specs.Steps.{StepsOnlyTo, StepsToBytes, is_end, behind};

use crate::fault::Fault;
use crate::header::{EntryKinds, FieldStart, ListStart, VarintByte};
use std::marker::Model;

/// The bytes that are left. Where a read is refused, the cursor stands at the refused byte, or at
/// the end.
#[derive(Drop)]
pub(crate) struct Cursor<'a> {
    rest: &'a [u8],
}

impl<'a> Model for Cursor<'a> {
    ghost use Rattle.std.specs.Prelude.{List, ℕ};

    ghost Value = { List ℕ };

    ghost view = { λ c. c.rest.now };
}

impl<'a> Cursor<'a> {
    pub(crate) fn new(rest: &'a [u8]) -> Cursor<'a>
        ensures { result ≡ rest.now }
    {
        Cursor { rest }
    }

    /// How many bytes are left.
    pub(crate) fn len(&self) -> usize
        ensures { result ≡ length self.now }
    {
        self.rest.len()
    }

    /// Whether the byte that ends a struct is next.
    pub(crate) fn is_end(&self) -> bool
        ensures { result ≡ is_end self.now }
    {
        match self.rest {
            [byte, ..] => *byte == 0,
            [] => false,
        }
    }

    /// Passes the next byte by.
    pub(crate) fn skip(&mut self)
        ensures { self.new ≡ behind self.old }
    {
        if let [_, rest @ ..] = self.rest {
            self.rest = rest;
        }
    }

    pub(crate) fn varint_byte(&mut self, width: u32, may_go_on: bool) -> Result<VarintByte, Fault>
        ensures { StepsOnlyTo (one (varint_byte width may_go_on) self.old) result self.new }
    {
        match self.rest {
            [byte, rest @ ..] => match VarintByte::from_byte(*byte, width, may_go_on) {
                Some(byte) => {
                    self.rest = rest;
                    Ok(byte)
                }
                None => Err(Fault::Refused),
            },
            [] => Err(Fault::Refused),
        }
    }

    pub(crate) fn truth(&mut self) -> Result<bool, Fault>
        ensures { StepsOnlyTo (one truth_of self.old) result self.new }
    {
        match self.rest {
            [1, rest @ ..] => {
                self.rest = rest;
                Ok(true)
            }
            [0 | 2, rest @ ..] => {
                self.rest = rest;
                Ok(false)
            }
            _ => Err(Fault::Refused),
        }
    }

    pub(crate) fn signed_byte(&mut self) -> Result<i64, Fault>
        ensures { StepsOnlyTo (one signed_byte self.old) result self.new }
    {
        match self.rest {
            [byte, rest @ ..] => {
                self.rest = rest;
                Ok(i64::from(byte.cast_signed()))
            }
            [] => Err(Fault::Refused),
        }
    }

    pub(crate) fn field_start(&mut self, last: i16, left: usize) -> Result<FieldStart, Fault>
        ensures { StepsOnlyTo (one (field_start left last) self.old) result self.new }
    {
        match self.rest {
            [byte, rest @ ..] => match FieldStart::from_byte(*byte, last, left) {
                Some(start) => {
                    self.rest = rest;
                    Ok(start)
                }
                None => Err(Fault::Refused),
            },
            [] => Err(Fault::Refused),
        }
    }

    pub(crate) fn list_start(&mut self, left: usize) -> Result<ListStart, Fault>
        ensures { StepsOnlyTo (one (list_start left) self.old) result self.new }
    {
        match self.rest {
            [byte, rest @ ..] => match ListStart::from_byte(*byte, left) {
                Some(start) => {
                    self.rest = rest;
                    Ok(start)
                }
                None => Err(Fault::Refused),
            },
            [] => Err(Fault::Refused),
        }
    }

    pub(crate) fn entry_kinds(&mut self, left: usize) -> Result<EntryKinds, Fault>
        ensures { StepsOnlyTo (one (entry_kinds left) self.old) result self.new }
    {
        match self.rest {
            [byte, rest @ ..] => match EntryKinds::from_byte(*byte, left) {
                Some(kinds) => {
                    self.rest = rest;
                    Ok(kinds)
                }
                None => Err(Fault::Refused),
            },
            [] => Err(Fault::Refused),
        }
    }

    /// So many bytes. Where there are fewer, the cursor is left at the end.
    pub(crate) fn bytes(&mut self, count: u64) -> Result<&'a [u8], Fault>
        ensures { StepsToBytes (exactly count self.old) result self.new }
    {
        if count > self.rest.len() as u64 {
            self.rest = &[];
            return Err(Fault::Refused);
        }
        let (front, rest) = self.rest.split_at(count as usize);
        self.rest = rest;
        Ok(front)
    }
}
