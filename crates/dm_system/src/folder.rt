// The files below the working folder.
ghost use Rattle.std.specs.Prelude.{◌≡◌, ◌≢◌, ◌<◌, length, string_bytes, IfOk, IfErr};
ghost use Rattle.std.specs.IoError.{error_kind};

use crate::output::write_whole;
use dm_store::{ListFault, PutFault, ReadFault, Store};
use dm_types::{Bytes, Text, TextList};
use std::alloc::{AllocGlobal, Global};
use std::fs::{File, OpenFile};
use std::io::{ErrorKind, Read};
use std::path::Path;
use std::random::RandomSource;
use std::rt::Files;
use std::{fs, io};

/// The files below the working folder of a runtime. It tells none of them.
///
/// A file gets its name when its bytes are on the disk, and no name is given twice, whoever else
/// writes there. A symbolic link to a file is that file. What lies below a plain file is absent.
#[derive(Drop)]
pub struct Folder<R> {
    rt: R,
    /// How often a call failed.
    pub faults: u64,
    /// How often a put found its path taken.
    pub taken: u64,
}

impl<R> Folder<R> {
    /// The files of this runtime, of whose calls none has failed.
    pub fn new(rt: R) -> Folder<R>
        ensures faults { result.faults ≡ 0 }
        ensures taken { result.taken ≡ 0 }
    {
        Folder {
            rt,
            faults: 0,
            taken: 0,
        }
    }
}

impl<R: Files + AllocGlobal + RandomSource + Clone + Drop> Store for Folder<R> {
    ghost use Rattle.std.specs.Prelude.{None};

    ghost files = { λ s. None };

    ghost faults = { λ s. s.faults };

    ghost taken = { λ s. s.taken };

    ghost distinct = { λ s. tt };

    fn list(&mut self, alloc: Global, dir: &str) -> Result<TextList, ListFault> {
        match file_names(&self.rt, alloc, dir) {
            Ok(names) => Ok(names),
            Err(error) if error.kind() == ErrorKind::OutOfMemory => Err(ListFault::Memory),
            Err(_) => {
                self.faults = self.faults.saturating_add(1);
                Err(ListFault::Failed)
            }
        }
    }

    fn read(&mut self, alloc: Global, path: &str) -> Result<Bytes, ReadFault> {
        match whole_file(&self.rt, alloc, path) {
            Ok(bytes) => Ok(bytes),
            Err(error) if is_absent(error.kind()) => Err(ReadFault::Absent),
            Err(error) if error.kind() == ErrorKind::OutOfMemory => Err(ReadFault::Memory),
            Err(_) => {
                self.faults = self.faults.saturating_add(1);
                Err(ReadFault::Failed)
            }
        }
    }

    fn put_new(&mut self, path: &str, bytes: &[u8]) -> Result<(), PutFault> {
        match put_absent(&self.rt, path, bytes) {
            Ok(true) => Ok(()),
            Ok(false) => {
                self.taken = self.taken.saturating_add(1);
                Err(PutFault::Exists)
            }
            Err(error) if error.kind() == ErrorKind::OutOfMemory => Err(PutFault::Memory),
            Err(_) => {
                self.faults = self.faults.saturating_add(1);
                Err(PutFault::Failed)
            }
        }
    }
}

// Whether nothing has the path: a part of it isn't there, or is a plain file where a folder is due.
fn is_absent(kind: ErrorKind) -> bool {
    matches!(kind, ErrorKind::NotFound | ErrorKind::NotADirectory)
}

// The names of the files directly below a folder; none where the folder is absent.
fn file_names<R: Files + AllocGlobal + Clone + Drop>(
    rt: &R,
    alloc: Global,
    dir: &str,
) -> io::Result<TextList> {
    let mut names = TextList::new(alloc);
    let entries = match fs::read_dir(rt, dir) {
        Ok(entries) => entries,
        Err(error) if is_absent(error.kind()) => return Ok(names),
        Err(error) => return Err(error),
    };
    for entry in entries {
        let entry = entry?;
        if is_file(rt, entry.path())? {
            names.push(Text::from_str(alloc, entry.file_name())?)?;
        }
    }
    Ok(names)
}

// Whether a file or a link to one is there. A name that is gone by now, or a link that leads
// nowhere, is none.
fn is_file(files: &impl Files, path: Path<'_>) -> io::Result<bool>
    ensures { IfErr result (λ e. error_kind e ≢ ErrorKind.NotFound) }
{
    match fs::metadata(files, path) {
        Ok(metadata) => Ok(metadata.is_file()),
        Err(error) if error.kind() == ErrorKind::NotFound => Ok(false),
        Err(error) => Err(error),
    }
}

fn whole_file(files: &impl Files, alloc: Global, path: &str) -> io::Result<Bytes> {
    let mut bytes = Vec::new(alloc);
    File::open(files, path)?.read_to_end(&mut bytes)?;
    Ok(Bytes::from_vec(bytes))
}

// Puts the file unless its name is there, and says whether it did. Behind the first look another
// writer may still take the name.
fn put_absent<R: Files + AllocGlobal + RandomSource>(
    rt: &R,
    path: &str,
    bytes: &[u8],
) -> io::Result<bool> {
    if is_taken(rt, path)? {
        return Ok(false);
    }
    let folder = path.rsplit_once('/').map_or(".", |(folder, _)| folder);
    fs::create_dir_all(rt, folder)?;
    let temporary = temporary_name(rt, path)?;
    if !put_by_name(rt, temporary.as_str(), path, bytes)? {
        return Ok(false);
    }
    // The file is there by now, so no fault of this call may be told as want of memory.
    match sync_folder(rt, folder) {
        Ok(()) => Ok(true),
        Err(_) => Err(io::Error::from(ErrorKind::Other)),
    }
}

// Whether the name is there, also as a folder or as a link that leads nowhere.
fn is_taken(files: &impl Files, path: &str) -> io::Result<bool>
    ensures { IfErr result (λ e. error_kind e ≢ ErrorKind.NotFound) }
{
    match fs::symlink_metadata(files, path) {
        Ok(_) => Ok(true),
        Err(error) if error.kind() == ErrorKind::NotFound => Ok(false),
        Err(error) => Err(error),
    }
}

// A new name each time: what a run that was cut off left behind is neither overwritten nor in the
// way, and two runs never write to one file.
fn temporary_name<R: AllocGlobal + RandomSource>(rt: &R, path: &str) -> io::Result<String>
    ensures { IfOk result (λ name. length path.now < length (string_bytes name)) }
{
    let mut bytes = [0; 8];
    rt.fill_bytes(&mut bytes)?;
    let drawn = u64::from_le_bytes(bytes);
    Ok(format!(in rt.alloc(); "{path}.{drawn}.tmp")?)
}

// Writes the bytes under the temporary name, and gives the file its own name once they are on the
// disk, unless that is there. Says whether it did. A temporary name that somebody else has is left as
// it is, and is a fault.
fn put_by_name(files: &impl Files, temporary: &str, path: &str, bytes: &[u8]) -> io::Result<bool> {
    let file = File::create_new(files, temporary)?;
    let put = put_file(files, file, temporary, path, bytes);
    // A temporary name that is left behind is in nobody's way, so only faults of the put are told.
    let _ = fs::remove_file(files, temporary);
    put
}

// Writes the bytes to the new file, and gives it its own name.
fn put_file<F: Files>(
    files: &F,
    file: F::File,
    temporary: &str,
    path: &str,
    bytes: &[u8],
) -> io::Result<bool> {
    let mut file = file;
    write_whole(&mut file, bytes)?;
    file.sync_all()?;
    link_absent(files, temporary, path)
}

// Gives the file a second name unless that is there, and says whether it did. A rename would replace
// what has the name.
fn link_absent(files: &impl Files, temporary: &str, path: &str) -> io::Result<bool>
    ensures { IfErr result (λ e. error_kind e ≢ ErrorKind.AlreadyExists) }
{
    match fs::hard_link(files, temporary, path) {
        Ok(()) => Ok(true),
        Err(error) if error.kind() == ErrorKind::AlreadyExists => Ok(false),
        Err(error) => Err(error),
    }
}

// Brings the names in a folder to the disk.
fn sync_folder(files: &impl Files, folder: &str) -> io::Result<()> {
    File::open(files, folder)?.sync_all()
}

#[cfg(test)]
mod tests;
