// Protocols by hand.
use delta_actions::ProtocolAction;
use dm_types::{Text, TextList};
use std::alloc::{AllocError, Global};
use std::process::Abort;
use std::test::Fail;
use table_features::{FeatureFault, check_read, check_write};

fn names_of(alloc: Global, names: &[&str]) -> Result<TextList, AllocError> {
    let mut list = TextList::new(alloc);
    for name in names {
        list.push(Text::from_str(alloc, name)?)?;
    }
    Ok(list)
}

// A version and its features, and what is answered.
struct Case {
    version: u32,
    features: &'static [&'static str],
    answer: Result<(), FeatureFault>,
}

const READERS: [Case; 9] = [
    Case {
        version: 0,
        features: &[],
        answer: Err(FeatureFault::Numbers),
    },
    Case {
        version: 1,
        features: &[],
        answer: Ok(()),
    },
    Case {
        version: 2,
        features: &["v2Checkpoint"],
        answer: Ok(()),
    },
    Case {
        version: 3,
        features: &[],
        answer: Ok(()),
    },
    Case {
        version: 3,
        features: &["deletionVectors", "columnMapping"],
        answer: Ok(()),
    },
    Case {
        version: 3,
        features: &["v2Checkpoint"],
        answer: Err(FeatureFault::Reader { index: 0 }),
    },
    Case {
        version: 3,
        features: &[
            "v2Checkpoint",
            "columnMapping",
            "timestampNtz",
            "typeWidening",
            "timestampNtz",
        ],
        answer: Err(FeatureFault::Reader { index: 2 }),
    },
    Case {
        version: 3,
        features: &["rowTracking"],
        answer: Err(FeatureFault::Reader { index: 0 }),
    },
    Case {
        version: 4,
        features: &[],
        answer: Err(FeatureFault::Numbers),
    },
];

const WRITERS: [Case; 8] = [
    Case {
        version: 0,
        features: &[],
        answer: Err(FeatureFault::Numbers),
    },
    Case {
        version: 1,
        features: &[],
        answer: Ok(()),
    },
    Case {
        version: 2,
        features: &["clustering"],
        answer: Ok(()),
    },
    Case {
        version: 6,
        features: &[],
        answer: Ok(()),
    },
    Case {
        version: 7,
        features: &[
            "appendOnly",
            "invariants",
            "checkConstraints",
            "changeDataFeed",
            "generatedColumns",
            "columnMapping",
            "identityColumns",
            "rowTracking",
            "domainMetadata",
            "deletionVectors",
        ],
        answer: Ok(()),
    },
    Case {
        version: 7,
        features: &["rowTracking", "clustering"],
        answer: Err(FeatureFault::Writer { index: 1 }),
    },
    Case {
        version: 7,
        features: &["z", "columnmapping", "columnMapping", "ab", "a"],
        answer: Err(FeatureFault::Writer { index: 4 }),
    },
    Case {
        version: 8,
        features: &[],
        answer: Err(FeatureFault::Numbers),
    },
];

#[test]
fn checks_protocols(rt: HostRuntime) -> Result<(), Fail> {
    for case in &READERS {
        let protocol = ProtocolAction {
            min_reader_version: case.version,
            min_writer_version: 7,
            reader_features: names_of(rt.alloc(), case.features)?,
            writer_features: TextList::new(rt.alloc()),
        };
        assert!(rt; check_read(&protocol) == case.answer);
    }
    for case in &WRITERS {
        let protocol = ProtocolAction {
            min_reader_version: 1,
            min_writer_version: case.version,
            reader_features: TextList::new(rt.alloc()),
            writer_features: names_of(rt.alloc(), case.features)?,
        };
        assert!(rt; check_write(&protocol) == case.answer);
    }
    Ok(())
}
