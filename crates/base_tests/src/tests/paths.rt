// Logged paths, both sides.
use dm_store::decode_path;
use std::alloc::Global;
use std::test::Fail;

/// Logged paths, and what they mean.
const GOOD: &[(&str, &str)] = &[
    ("a%20b.parquet", "a b.parquet"),
    ("part-00000-c.snappy.parquet", "part-00000-c.snappy.parquet"),
    ("day=2024-01-01/a:b.parquet", "day=2024-01-01/a:b.parquet"),
    ("a/..b/c.", "a/..b/c."),
    ("1a:b", "1a:b"),
    ("%C3%A9", "\u{e9}"),
    ("100%", "100%"),
    ("a%2Fb", "a/b"),
];

/// Logged paths that are none.
const BAD: &[&str] = &[
    "",
    "../x",
    "a/..",
    "a/.",
    "./a",
    "a//b",
    "a/",
    "/a",
    "%2Fa",
    "a/%2e%2E",
    "a%00b",
    "%FF",
    "file:a",
    "s3+x.1-y://b/c",
];

fn decodes_all(alloc: Global, pairs: &[(&str, &str)]) -> Result<bool, Fail> {
    for (logged, path) in pairs {
        if !decode_path(alloc, logged)?.is(path) {
            return Ok(false);
        }
    }
    Ok(true)
}

fn refuses_all(alloc: Global, paths: &[&str]) -> bool {
    for path in paths {
        if decode_path(alloc, path).is_ok() {
            return false;
        }
    }
    true
}

#[test]
fn logged_paths_are_decoded(rt: HostRuntime) -> Result<(), Fail> {
    let alloc = rt.alloc();
    assert!(rt; decodes_all(alloc, GOOD)?);
    assert!(rt; refuses_all(alloc, BAD));
    Ok(())
}
