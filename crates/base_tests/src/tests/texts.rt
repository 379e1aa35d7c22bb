// Texts, their order, and causes of a stop.
use dm_types::{
    Bytes, Exact, Items, PutRefusal, Refused, StatementRefusal, Stop, TableRefusal, Text, TextList,
    sort_texts,
};
use std::alloc::{AllocError, Global};
use std::collections::HashSet;
use std::test::Fail;

// A clone by way of the bound.
fn copied<T: Exact>(value: &T) -> Result<T, AllocError> {
    value.clone()
}

fn texts(alloc: Global, words: &[&str]) -> Result<TextList, AllocError> {
    let mut list = TextList::new(alloc);
    for word in words {
        list.push(Text::from_str(alloc, word)?)?;
    }
    Ok(list)
}

#[test]
fn texts_sort_by_their_bytes(rt: HostRuntime) -> Result<(), Fail> {
    let mut words = texts(rt.alloc(), &["b", "ab", "\u{e9}", "a", "", "B", "a"])?;
    let sorted = texts(rt.alloc(), &["", "B", "a", "a", "ab", "b", "\u{e9}"])?;
    assert!(rt; words.len() == 7);
    assert!(rt; words.get(2).len() == 2);
    assert!(rt; copied(&words)? == words);
    sort_texts(&mut words);
    assert!(rt; words == sorted);
    Ok(())
}

#[test]
fn texts_are_bytes_in_utf8(rt: HostRuntime) -> Result<(), Fail> {
    let mut text = Text::new(rt.alloc());
    text.push('\u{e9}')?;
    text.push_str("t")?;
    assert!(rt; text.len() == 3);
    assert!(rt; text.get(2) == b't');
    let mut bytes = Bytes::from_slice(rt.alloc(), text.as_bytes())?;
    bytes.extend_from_slice(b"\xff")?;
    assert!(rt; !bytes.is_empty());
    assert!(rt; Text::from_utf8(bytes).is_none());
    let copy = Text::from_utf8(Items::from_vec(vec![in rt.alloc(); b't']?));
    assert!(rt; copy.is_some_and(|copy| copy.is("t")));
    let mut seen = HashSet::new(rt.alloc());
    assert!(rt; seen.insert(copied(&text)?)?);
    assert!(rt; seen.contains(&text));
    Ok(())
}

#[test]
fn stops_know_their_cause(rt: HostRuntime) {
    assert!(rt; Stop::from(AllocError) == Stop::Memory);
    let no_table = Stop::from(TableRefusal::NoTable);
    assert!(rt; no_table == Stop::Refused(Refused::Table(TableRefusal::NoTable)));
    let off = Stop::from(StatementRefusal::RowTrackingOff);
    assert!(rt; off == Stop::Refused(Refused::Statement(StatementRefusal::RowTrackingOff)));
    let taken = Stop::from(PutRefusal::VersionTaken { version: 1 });
    assert!(rt; taken == Stop::Refused(Refused::Put(PutRefusal::VersionTaken { version: 1 })));
}
