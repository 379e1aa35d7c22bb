// Names of commit files.
use dm_types::Text;
use std::test::Fail;
use table_log::{commit_path, log_folder, version_of};

#[test]
fn commit_files_are_named_by_twenty_digits(rt: HostRuntime) -> Result<(), Fail> {
    let table = Text::from_str(rt.alloc(), "dir/t")?;
    let folder = log_folder(rt.alloc(), &table)?;
    assert!(rt; folder.as_str() == "dir/t/_delta_log");
    let path = commit_path(rt.alloc(), &table, 10)?;
    assert!(rt; path.as_str() == "dir/t/_delta_log/00000000000000000010.json");
    for (name, version) in [
        ("00000000000000000000.json", Some(0)),
        ("09223372036854775807.json", Some(9_223_372_036_854_775_807)),
        ("09223372036854775808.json", None),
        ("0000000000000000001.json", None),
        ("000000000000000000001.json", None),
        ("0000000000000000000a.json", None),
        ("00000000000000000001.jsn", None),
        ("00000000000000000001.json.tmp", None),
        ("", None),
    ] {
        assert!(rt; version_of(name) == version, "{name}");
    }
    Ok(())
}
