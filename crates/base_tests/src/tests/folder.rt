// The files below a real folder.
use dm_store::{ListFault, PutFault, ReadFault, Store};
use dm_system::Folder;
use std::alloc::Global;
use std::test::Fail;
use std::{env, fs, process};

// A path below a folder for temporary files that no other test has.
fn own_path(alloc: Global, rt: HostRuntime, name: &str) -> Result<String, Fail> {
    let above = env::temp_dir(&rt)?;
    let above = above.as_str();
    let process = process::id(rt.process());
    Ok(format!(in alloc; "{above}/deltamerge-{name}-{process}")?)
}

#[test]
fn puts_reads_and_lists(rt: HostRuntime) -> Result<(), Fail> {
    let alloc = rt.alloc();
    let root = own_path(alloc, rt, "files")?;
    let dir = format!(in alloc; "{root}/t/_delta_log")?;
    let path = format!(in alloc; "{dir}/0.json")?;
    let mut folder = Folder::new(rt);

    assert_eq!(rt; folder.list(alloc, dir.as_str())?.len(), 0);
    assert_eq!(rt;
        folder.read(alloc, path.as_str()).err(),
        Some(ReadFault::Absent)
    );
    folder.put_new(path.as_str(), b"bytes")?;
    assert_eq!(rt;
        folder.put_new(path.as_str(), b"more"),
        Err(PutFault::Exists)
    );
    assert_eq!(rt;
        folder.read(alloc, path.as_str())?.as_slice(),
        b"bytes".as_slice()
    );
    let names = folder.list(alloc, dir.as_str())?;
    fs::remove_dir_all(&rt, root.as_str())?;
    assert_eq!(rt; names.len(), 1);
    assert_eq!(rt; names.get(0).as_str(), "0.json");
    assert_eq!(rt; (folder.faults, folder.taken), (0, 1));
    Ok(())
}

#[test]
fn nothing_lies_below_a_plain_file(rt: HostRuntime) -> Result<(), Fail> {
    let alloc = rt.alloc();
    let root = own_path(alloc, rt, "plain")?;
    let file = format!(in alloc; "{root}/t")?;
    let below = format!(in alloc; "{root}/t/_delta_log")?;
    let path = format!(in alloc; "{below}/0.json")?;
    let mut folder = Folder::new(rt);
    folder.put_new(file.as_str(), b"no folder")?;

    let listed = folder.list(alloc, file.as_str())?.len()
        + folder.list(alloc, below.as_str())?.len();
    let read = folder.read(alloc, path.as_str()).err();
    let put = folder.put_new(path.as_str(), b"{}");
    fs::remove_dir_all(&rt, root.as_str())?;
    assert_eq!(rt; listed, 0);
    assert_eq!(rt; read, Some(ReadFault::Absent));
    assert_eq!(rt; put, Err(PutFault::Failed));
    assert_eq!(rt; (folder.faults, folder.taken), (1, 0));
    Ok(())
}
