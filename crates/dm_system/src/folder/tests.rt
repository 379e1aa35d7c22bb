// What a put finds behind its first look.
use super::*;
use std::test::Fail;
use std::{env, process};

#[test]
fn a_name_is_taken_behind_the_first_look(rt: HostRuntime) -> Result<(), Fail> {
    let alloc = rt.alloc();
    let above = env::temp_dir(&rt)?;
    let above = above.as_str();
    let process = process::id(rt.process());
    let path = format!(in alloc; "{above}/deltamerge-put-{process}")?;
    let temporary = format!(in alloc; "{path}.tmp")?;
    let put = put_by_name(&rt, temporary.as_str(), path.as_str(), b"first")?;
    let again = put_by_name(&rt, temporary.as_str(), path.as_str(), b"second")?;
    // Neither of the two temporary files is left.
    let left = is_taken(&rt, temporary.as_str())?;
    // A temporary name that another program has stays, and is a fault.
    write_file(&rt, temporary.as_str(), b"another's")?;
    let failed = put_by_name(&rt, temporary.as_str(), path.as_str(), b"third").is_err();
    let kept = whole_file(&rt, alloc, temporary.as_str())?;
    let found = whole_file(&rt, alloc, path.as_str())?;
    fs::remove_file(&rt, temporary.as_str())?;
    fs::remove_file(&rt, path.as_str())?;
    assert!(rt; put && !again && !left && failed);
    assert_eq!(rt; kept.as_slice(), b"another's".as_slice());
    assert_eq!(rt; found.as_slice(), b"first".as_slice());
    Ok(())
}

fn write_file(files: &impl Files, path: &str, bytes: &[u8]) -> io::Result<()> {
    let mut file = File::create_new(files, path)?;
    write_whole(&mut file, bytes)
}
