// Logs of as many commit files as there may be, and of more.
use crate::rows::run_over;
use dm_store::{ClaimStore, MemoryStore};
use dm_types::{CountList, Text, TextList};
use std::alloc::{AllocError, Global};
use std::test::Fail;

// The log folder lists the versions below `bound` but for one, and what SHOW FILES says of it.
struct Crowd {
    bound: u64,
    missing: u64,
    text: &'static str,
}

const CROWDS: [Crowd; 3] = [
    // As many as there may be; but none of them is there when it is read.
    Crowd {
        bound: 100_000,
        missing: 100_000,
        text: "refused 1: O2 0\n",
    },
    Crowd {
        bound: 100_001,
        missing: 100_001,
        text: "refused 1: O20 commits\n",
    },
    // Their number comes before a gap.
    Crowd {
        bound: 100_002,
        missing: 7,
        text: "refused 1: O20 commits\n",
    },
];

fn names_of(alloc: Global, crowd: &Crowd) -> Result<TextList, AllocError> {
    let mut names = TextList::new(alloc);
    for version in 0..crowd.bound {
        if version != crowd.missing {
            let name = format!(in alloc; "{version:020}.json")?;
            names.push(Text::from_str(alloc, name.as_str())?)?;
        }
    }
    Ok(names)
}

// A store that lists these names and holds no file.
fn store_of(alloc: Global, crowd: &Crowd) -> Result<ClaimStore, Fail> {
    let empty = MemoryStore::new(alloc, CountList::new(alloc), CountList::new(alloc))?;
    let names = names_of(alloc, crowd)?;
    Ok(ClaimStore::new(empty, TextList::new(alloc), names)?)
}

#[test]
fn a_log_may_have_100_000_commits(rt: HostRuntime) -> Result<(), Fail> {
    let alloc = rt.alloc();
    for crowd in &CROWDS {
        let mut store = store_of(alloc, crowd)?;
        let (status, written) = run_over(alloc, &mut store, "SHOW FILES t;")?;
        assert!(rt; status == 1 && written.as_slice() == crowd.text.as_bytes());
    }
    Ok(())
}
