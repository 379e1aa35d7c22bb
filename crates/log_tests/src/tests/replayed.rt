// Logs by hand, and random logs against the definition as it is written.
ghost use Rattle.std.specs.Prelude.{IfOk};
ghost use Rattle.log_replay.specs.Live.{AreNumbered};

use delta_actions::{Action, Actions, AddAction, RemoveAction, read_commit};
use dm_types::{Text, TextList};
use log_replay::{
    Commits, NumberFault, ReplayFault, check_numbers, live_paths, push_commit, replay,
};
use std::alloc::{AllocError, Global};
use std::process::Abort;
use std::test::Fail;

#[test]
fn finds_the_least_missing_number(rt: HostRuntime) -> Result<(), Fail> {
    assert!(rt; check_numbers(&[]) == Err(NumberFault::Nothing));
    assert!(rt; check_numbers(&[0]) == Ok(0));
    assert!(rt; check_numbers(&[0, 1, 2]) == Ok(2));
    assert!(rt; check_numbers(&[1]) == Err(NumberFault::Gap { version: 0 }));
    assert!(rt; check_numbers(&[0, 1, 3, 5]) == Err(NumberFault::Gap { version: 2 }));
    Ok(())
}

// The commits of these texts, numbered from 0.
fn log_of(alloc: Global, texts: &[&str]) -> Result<Commits, Fail>
    ensures { IfOk result (AreNumbered 0) }
{
    let mut commits = Commits::new(alloc);
    for text in texts {
        let actions = read_commit(alloc, text.as_bytes())?;
        push_commit(&mut commits, actions)?;
    }
    Ok(commits)
}

const PROTOCOL: &str = "{\"protocol\":{\"minReaderVersion\":1,\"minWriterVersion\":2}}\n";

const NEWER: &str = "{\"protocol\":{\"minReaderVersion\":3,\"minWriterVersion\":7}}\n";

const FIRST: &str = "{\"metaData\":{\"id\":\"first\",\"schemaString\":\"{}\"}}\n";

const SECOND: &str = "{\"metaData\":{\"id\":\"second\",\"schemaString\":\"{}\"}}\n";

const MARK_7: &str =
    "{\"domainMetadata\":{\"domain\":\"delta.rowTracking\",\"configuration\":\"{\\\"rowIdHighWaterMark\\\":7}\"}}\n";

const MARK_5: &str =
    "{\"domainMetadata\":{\"domain\":\"delta.rowTracking\",\"configuration\":\"{\\\"rowIdHighWaterMark\\\":5}\"}}\n";

const MARK_GONE: &str =
    "{\"domainMetadata\":{\"domain\":\"delta.rowTracking\",\"configuration\":\"\",\"removed\":true}}\n";

const OTHER_DOMAIN: &str =
    "{\"domainMetadata\":{\"domain\":\"delta.other\",\"configuration\":\"\"}}\n";

// The texts of commits, and what is in force behind them: the metadata's id, the reader version, the
// mark and the first fall.
struct Case {
    texts: &'static [&'static str],
    id: &'static str,
    reader: u32,
    mark: i64,
    fallen: Option<i64>,
}

const CASES: [Case; 7] = [
    Case {
        texts: &[PROTOCOL, FIRST],
        id: "first",
        reader: 1,
        mark: -1,
        fallen: None,
    },
    // Of two in one commit, and of two in two commits, the last is in force.
    Case {
        texts: &[FIRST, PROTOCOL, NEWER, SECOND],
        id: "second",
        reader: 3,
        mark: -1,
        fallen: None,
    },
    Case {
        texts: &[PROTOCOL, FIRST, MARK_5, MARK_7],
        id: "first",
        reader: 1,
        mark: 7,
        fallen: None,
    },
    Case {
        texts: &[PROTOCOL, FIRST, MARK_7, OTHER_DOMAIN, MARK_5, MARK_7],
        id: "first",
        reader: 1,
        mark: 7,
        fallen: Some(5),
    },
    Case {
        texts: &[PROTOCOL, FIRST, MARK_7, MARK_GONE, MARK_5],
        id: "first",
        reader: 1,
        mark: 5,
        fallen: Some(-1),
    },
    Case {
        texts: &[MARK_GONE, PROTOCOL, FIRST, MARK_7, MARK_5, MARK_GONE],
        id: "first",
        reader: 1,
        mark: -1,
        fallen: Some(5),
    },
    Case {
        texts: &[PROTOCOL, FIRST, OTHER_DOMAIN],
        id: "first",
        reader: 1,
        mark: -1,
        fallen: None,
    },
];

#[test]
fn finds_what_is_in_force(rt: HostRuntime) -> Result<(), Fail> {
    for case in &CASES {
        let commits = log_of(rt.alloc(), case.texts)?;
        let snapshot = replay(rt.alloc(), &commits)?;
        assert!(rt; snapshot.version.checked_add(1) == Some(case.texts.len() as u64));
        assert!(rt; snapshot.metadata.id.is(case.id));
        assert!(rt; snapshot.protocol.min_reader_version == case.reader);
        assert!(rt; snapshot.mark == case.mark);
        assert!(rt; snapshot.fallen == case.fallen);
        assert!(rt; snapshot.live.is_empty());
    }
    for texts in [&[PROTOCOL] as &[&str], &[FIRST, MARK_7], &[]] {
        let commits = log_of(rt.alloc(), texts)?;
        assert!(rt; matches!(replay(rt.alloc(), &commits), Err(ReplayFault::NoMetadata)));
    }
    Ok(())
}

// Adds or removes one of four paths, or does neither.
fn random_action(alloc: Global, number: u64) -> Result<Action, AllocError> {
    let name = match number >> 40 & 3 {
        0 => "a",
        1 => "b",
        2 => "c",
        _ => "d",
    };
    let path = Text::from_str(alloc, name)?;
    Ok(match number >> 50 & 3 {
        0 | 1 => Action::Add(AddAction {
            path,
            partition_values: None,
            size: 0,
            modification_time: 0,
            data_change: true,
            stats: None,
            deletion_vector: false,
            base_row_id: None,
            default_row_commit_version: None,
        }),
        2 => Action::Remove(RemoveAction {
            path,
            data_change: true,
            deletion_timestamp: None,
            size: None,
            extended_file_metadata: None,
            partition_values: None,
            deletion_vector: false,
            base_row_id: None,
            default_row_commit_version: None,
        }),
        _ => Action::Other,
    })
}

// A number after another one, as Knuth's generator MMIX makes them.
fn next_number(number: u64) -> u64 {
    number
        .wrapping_mul(6_364_136_223_846_793_005)
        .wrapping_add(1_442_695_040_888_963_407)
}

// The actions of a commit, and the last number.
fn random_actions(alloc: Global, seed: u64) -> Result<(Actions, u64), AllocError> {
    let mut number = seed;
    let mut actions = Actions::new(alloc);
    for _ in 0..4 {
        number = next_number(number);
        actions.push(random_action(alloc, number)?)?;
    }
    Ok((actions, number))
}

fn random_log(alloc: Global, seed: u64) -> Result<Commits, AllocError>
    ensures { IfOk result (AreNumbered 0) }
{
    let mut number = seed;
    let mut commits = Commits::new(alloc);
    for _ in 0..5 {
        let (actions, last) = random_actions(alloc, number)?;
        push_commit(&mut commits, actions)?;
        number = last;
    }
    Ok(commits)
}

// Whether a line of the log takes away what this line added.
fn is_taken(commits: &Commits, version: u64, line: usize, path: &Text) -> bool {
    for commit in commits.as_slice() {
        for (place, action) in commit.actions.as_slice().iter().enumerate() {
            let later = commit.version > version;
            let taken = match action {
                Action::Add(add) => {
                    add.path == *path && (later || (commit.version == version && place > line))
                }
                Action::Remove(remove) => remove.path == *path && later,
                _ => false,
            };
            if taken {
                return true;
            }
        }
    }
    false
}

// The live paths by a test over all pairs of lines.
fn paths_by_definition(alloc: Global, commits: &Commits) -> Result<TextList, AllocError> {
    let mut paths = TextList::new(alloc);
    for commit in commits.as_slice() {
        for (line, action) in commit.actions.as_slice().iter().enumerate() {
            if let Action::Add(add) = action {
                if !is_taken(commits, commit.version, line, &add.path) {
                    paths.push(add.path.clone()?)?;
                }
            }
        }
    }
    Ok(paths)
}

#[test]
fn agrees_with_the_definition(rt: HostRuntime) -> Result<(), Fail> {
    for seed in 0..200 {
        let commits = random_log(rt.alloc(), seed)?;
        let paths = live_paths(rt.alloc(), &commits)?;
        assert!(rt; paths == paths_by_definition(rt.alloc(), &commits)?);
    }
    Ok(())
}
