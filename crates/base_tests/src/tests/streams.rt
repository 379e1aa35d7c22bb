// Standard input and output, the clock and random names.
use dm_store::{Clock, NameSource, Sink, SinkFault, Source};
use dm_system::{RandomNames, ReaderSource, SystemClock, WriterSink};
use std::test::Fail;

// Standard input may be closed, or hold anything.
#[test]
fn takes_at_most_the_buffer(rt: HostRuntime) {
    let mut script = ReaderSource::new(rt.stdin());
    let mut buf = [0; 8];
    let count = script.take(&mut buf).unwrap_or(0);
    assert!(rt; count <= 8);
}

#[test]
fn puts_whole_pieces(rt: HostRuntime) -> Result<(), Fail> {
    let mut out = WriterSink::new(rt.stdout());
    out.put(b"")?;
    out.put(b"a text\n")?;
    assert_eq!(rt; out.faults, 0);

    // Its second write takes nothing.
    let mut room = [0; 4];
    let mut short = WriterSink::new(room.as_mut_slice());
    assert_eq!(rt; short.put(b"a text\n"), Err(SinkFault::Failed));
    assert_eq!(rt; short.faults, 1);
    Ok(())
}

#[test]
fn the_clock_stands_after_2020(rt: HostRuntime) {
    let now = SystemClock::new(rt).now_ms();
    assert!(rt; now > 1_577_836_800_000, "at {now}");
}

#[test]
fn draws_differ(rt: HostRuntime) -> Result<(), Fail> {
    let mut names = RandomNames::new(rt);
    let first = names.draw()?;
    let second = names.draw()?;
    assert!(rt; first != second);
    Ok(())
}
