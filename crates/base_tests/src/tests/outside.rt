// The objects in memory, each on its way without faults and with one that is planned.
use dm_store::{
    ClaimStore, Clock, MemoryClock, MemoryNames, MemorySink, MemorySource, MemoryStore, NameSource,
    PutFault, ReadFault, Sink, Store, SureNames, SureSink, SureSource, SureStore, TakeFault,
    take_all,
};
use dm_types::{Bytes, CountList, NameList, Text, TextList, WholeList};
use std::alloc::Global;
use std::test::Fail;

#[test]
fn a_store_fails_as_planned(rt: HostRuntime) -> Result<(), Fail> {
    let alloc = rt.alloc();
    let mut store = MemoryStore::new(
        alloc,
        CountList::from_slice(alloc, &[2])?,
        CountList::new(alloc),
    )?;
    assert!(rt; store.put_new("t/a", b"one").is_ok());
    assert!(rt; matches!(store.read(alloc, "t/a"), Err(ReadFault::Failed)));
    let found = store.read(alloc, "t/a").expect(&rt, "read");
    assert_eq!(rt; found.as_slice(), b"one".as_slice());
    assert!(rt; store.files().len() == 1);
    Ok(())
}

#[test]
fn a_failed_put_appends_as_planned(rt: HostRuntime) -> Result<(), Fail> {
    let alloc = rt.alloc();
    let failing = CountList::from_slice(alloc, &[1, 2])?;
    let appending = CountList::from_slice(alloc, &[2, 3])?;
    let mut store = MemoryStore::new(alloc, failing, appending)?;
    assert!(rt; store.put_new("t/a", b"1") == Err(PutFault::Failed));
    assert!(rt; store.files().is_empty());
    assert!(rt; store.put_new("t/b", b"2") == Err(PutFault::Failed));
    assert!(rt; store.files().len() == 1);
    assert!(rt; store.put_new("t/c", b"3").is_ok());
    assert!(rt; store.files().len() == 2);
    Ok(())
}

fn texts_of(alloc: Global, texts: &[&str]) -> Result<TextList, Fail> {
    let mut list = TextList::new(alloc);
    for text in texts {
        list.push(Text::from_str(alloc, text)?)?;
    }
    Ok(list)
}

#[test]
fn claims_are_taken_and_listed(rt: HostRuntime) -> Result<(), Fail> {
    let alloc = rt.alloc();
    let mut inner = MemoryStore::new(alloc, CountList::new(alloc), CountList::new(alloc))?;
    assert!(rt; inner.put_new("t/b", b"1").is_ok());
    let claimed = texts_of(alloc, &["t/a"])?;
    let added = texts_of(alloc, &["c", "b", "c"])?;
    let mut store = ClaimStore::new(inner, claimed, added)?;
    assert!(rt; store.put_new("t/a", b"2") == Err(PutFault::Exists));
    assert!(rt; store.read(alloc, "t/b").is_ok());
    let names = store.list(alloc, "t").expect(&rt, "list");
    assert!(rt; names.len() == 2);
    assert!(rt; names.get(0).is("b"));
    assert!(rt; names.get(1).is("c"));
    Ok(())
}

#[test]
fn a_listing_has_the_names_below(rt: HostRuntime) -> Result<(), Fail> {
    let alloc = rt.alloc();
    let mut store = SureStore::new(alloc)?;
    assert!(rt; store.put_new("t/a", b"1").is_ok());
    assert!(rt; store.put_new("t/b/c", b"2").is_ok());
    let names = store.list(alloc, "t").expect(&rt, "list");
    assert!(rt; names.len() == 1);
    assert!(rt; names.get(0).is("a"));
    assert!(rt; store.files().len() == 2);
    Ok(())
}

#[test]
fn bytes_are_taken_and_put(rt: HostRuntime) -> Result<(), Fail> {
    let alloc = rt.alloc();
    let failing = CountList::from_slice(alloc, &[1])?;
    let mut source = MemorySource::new(Bytes::from_slice(alloc, b"hello")?, failing)?;
    assert!(rt; take_all(alloc, &mut source, 5).is_err());
    let taken = take_all(alloc, &mut source, 5).expect(&rt, "take");
    let mut sure = SureSource::new(Bytes::from_slice(alloc, b"hello")?)?;
    assert!(rt; matches!(take_all(alloc, &mut sure, 4), Err(TakeFault::TooLong)));
    let mut sink = MemorySink::new(alloc, CountList::from_slice(alloc, &[2])?)?;
    assert!(rt; sink.put(taken.as_slice()).is_ok());
    assert!(rt; sink.put(b"lost").is_err());
    assert_eq!(rt; sink.written().as_slice(), b"hello".as_slice());
    let mut sure = SureSink::new(alloc)?;
    assert!(rt; sure.put(b"kept").is_ok());
    assert!(rt; sure.written().len() == 4);
    Ok(())
}

#[test]
fn names_and_times_are_answered(rt: HostRuntime) -> Result<(), Fail> {
    let alloc = rt.alloc();
    let names = NameList::from_slice(alloc, &[[7; 16]])?;
    let mut source = MemoryNames::new(names, CountList::from_slice(alloc, &[1])?)?;
    assert!(rt; source.draw().is_err());
    assert!(rt; matches!(source.draw(), Ok(name) if name[14] == 0 && name[15] == 2));
    let mut sure = SureNames::new(NameList::from_slice(alloc, &[[7; 16]])?)?;
    assert!(rt; matches!(sure.draw(), Ok(name) if name[0] == 7));
    let mut clock = MemoryClock::new(WholeList::from_slice(alloc, &[5, 7])?)?;
    assert!(rt; clock.now_ms() == 5);
    assert!(rt; clock.now_ms() == 7);
    assert!(rt; clock.now_ms() == 7);
    Ok(())
}
