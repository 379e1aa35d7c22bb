// The bytes that begin fields, lists, sets and the entries of maps.
ghost use Rattle.std.specs.Prelude.{◌≡◌, ◌^◌, ◌<◌, nat_lt};
ghost use Rattle.thrift_compact.specs.Kinds.{kind_of, may_stand};
ghost use Rattle.thrift_compact.specs.Values as spec;

use crate::kind::Kind;

/// The first byte of a field.
#[derive(Clone, Copy)]
pub(crate) struct FieldStart {
    /// The id, or None where it follows.
    pub(crate) id: Option<i16>,
    pub(crate) kind: Kind,
}

#[derive(Clone, Copy)]
pub(crate) struct FieldHeader {
    pub(crate) id: i16,
    pub(crate) kind: Kind,
}

/// The first byte of a list or a set.
#[derive(Clone, Copy)]
pub(crate) struct ListStart {
    /// The size, or None where it follows.
    pub(crate) size: Option<u64>,
    pub(crate) kind: Kind,
}

#[derive(Clone, Copy)]
pub(crate) struct ListHeader {
    pub(crate) size: u64,
    pub(crate) kind: Kind,
}

/// A byte of a varint.
#[derive(Clone, Copy)]
pub(crate) struct VarintByte {
    /// Its seven low bits.
    pub(crate) low: u64,
    /// Whether another byte follows.
    pub(crate) more: bool,
}

/// The types of a map's keys and values.
#[derive(Clone, Copy)]
pub(crate) struct EntryKinds {
    pub(crate) key: Kind,
    pub(crate) value: Kind,
}

/// Whether a value of the type may stand where so many structs, lists, sets and maps may still be
/// opened.
pub(crate) fn may_stand(kind: Kind, left: usize) -> bool
    ensures { result ≡ may_stand left kind }
{
    left > 0 || !kind.is_container()
}

fn allowed(code: u8, left: usize) -> Option<Kind>
    ensures { result ≡ spec.allowed left (kind_of code) }
{
    match Kind::from_code(code) {
        Some(kind) if may_stand(kind, left) => Some(kind),
        _ => None,
    }
}

/// The id behind `last` by this difference.
fn id_after(last: i16, difference: u8) -> Option<i16>
    ensures { result ≡ spec.id_after last difference }
{
    let id = i32::from(last) + i32::from(difference);
    if id > 32767 { None } else { Some(id as i16) }
}

/// Whether seven bits are below 2 to the width.
fn is_below(low: u64, width: u32) -> bool
    requires { low < 128 }
    ensures { result ≡ nat_lt low (2 ^ width) }
{
    width >= 7 || low < 1 << width
}

impl VarintByte {
    /// None, where a bit lies at or past the width, or the varint goes on where it may not.
    #[tactic(auto, unfolding(crate::specs::Values::varint_byte))]
    pub(crate) fn from_byte(byte: u8, width: u32, may_go_on: bool) -> Option<VarintByte>
        ensures { result ≡ spec.varint_byte width may_go_on byte }
    {
        let low = u64::from(byte % 128);
        if !is_below(low, width) {
            None
        } else if byte < 128 {
            Some(VarintByte { low, more: false })
        } else if may_go_on {
            Some(VarintByte { low, more: true })
        } else {
            None
        }
    }
}

impl FieldStart {
    #[tactic(auto, unfolding(crate::specs::Values::field_start))]
    pub(crate) fn from_byte(byte: u8, last: i16, left: usize) -> Option<FieldStart>
        ensures { result ≡ spec.field_start left last byte }
    {
        let kind = allowed(byte % 16, left)?;
        if byte / 16 == 0 {
            return Some(FieldStart { id: None, kind });
        }
        let id = id_after(last, byte / 16)?;
        Some(FieldStart { id: Some(id), kind })
    }
}

impl ListStart {
    #[tactic(auto, unfolding(crate::specs::Values::list_start))]
    pub(crate) fn from_byte(byte: u8, left: usize) -> Option<ListStart>
        ensures { result ≡ spec.list_start left byte }
    {
        let kind = Kind::from_code(byte % 16)?;
        match byte / 16 {
            15 => Some(ListStart { size: None, kind }),
            0 => Some(ListStart {
                size: Some(0),
                kind,
            }),
            size if may_stand(kind, left) => Some(ListStart {
                size: Some(u64::from(size)),
                kind,
            }),
            _ => None,
        }
    }
}

impl EntryKinds {
    #[tactic(auto, unfolding(crate::specs::Values::entry_kinds))]
    pub(crate) fn from_byte(byte: u8, left: usize) -> Option<EntryKinds>
        ensures { result ≡ spec.entry_kinds left byte }
    {
        let key = allowed(byte / 16, left)?;
        let value = allowed(byte % 16, left)?;
        Some(EntryKinds { key, value })
    }
}
