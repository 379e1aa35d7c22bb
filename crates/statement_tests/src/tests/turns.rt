// A script that comes a byte a turn.
ghost use Rattle.std.specs.Prelude.{None};

use dm_store::{Failed, MemoryClock, MemoryNames, MemorySink, Source, SureStore};
use dm_types::{CountList, NameList, WholeList};
use script_run::run;
use std::alloc::Global;
use std::test::Fail;

// Spaces, one a turn, of which so many are left. It counts its turns, and tells nothing.
#[derive(Drop)]
struct Drip {
    left: usize,
    turns: usize,
}

impl Source for Drip {
    ghost left = { λ s. None };

    ghost faults = { λ s. 0 };

    fn take(&mut self, buf: &mut [u8]) -> Result<usize, Failed> {
        self.turns = self.turns.saturating_add(1);
        if self.left == 0 || buf.is_empty() {
            return Ok(0);
        }
        self.left -= 1;
        buf[0] = b' ';
        Ok(1)
    }
}

// The status of a run of so many spaces, and the turns that it took.
fn ran(alloc: Global, spaces: usize) -> Result<(u8, usize), Fail> {
    let mut source = Drip {
        left: spaces,
        turns: 0,
    };
    let mut sink = MemorySink::new(alloc, CountList::new(alloc))?;
    let mut names = MemoryNames::new(NameList::new(alloc), CountList::new(alloc))?;
    let status = run(
        alloc,
        &[],
        &mut source,
        &mut SureStore::new(alloc)?,
        &mut sink,
        &mut MemoryClock::new(WholeList::new(alloc))?,
        &mut names,
    );
    Ok((status, source.turns))
}

// The longest script is read to its end. One byte more is the last that is taken.
#[test]
fn takes_a_byte_a_turn(rt: HostRuntime) -> Result<(), Fail> {
    assert_eq!(rt; ran(rt.alloc(), 1_048_576)?, (0, 1_048_577));
    assert_eq!(rt; ran(rt.alloc(), 1_048_577)?, (3, 1_048_577));
    assert_eq!(rt; ran(rt.alloc(), 2_000_000)?, (3, 1_048_577));
    Ok(())
}
