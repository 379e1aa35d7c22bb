//! Runs the script of standard input on the Delta tables below the working folder. What it says goes
//! to standard output, and the exit status is that of the run.
#![tactic(auto)]

use dm_system::{Folder, RandomNames, ReaderSource, SystemClock, WriterSink};
use std::alloc::AllocGlobal;
use std::io::ErrorKind;
use std::process::ExitCode;
use std::rt::Env;
use std::{env, io};

// The status where there is no memory for the words.
const NO_MEMORY: u8 = 7;

fn main(rt: HostRuntime) -> ExitCode {
    let Ok(words) = words(&rt) else {
        return ExitCode::from(NO_MEMORY);
    };
    let status = script_run::run(
        rt.alloc(),
        words.as_slice(),
        &mut ReaderSource::new(rt.stdin()),
        &mut Folder::new(rt),
        &mut WriterSink::new(rt.stdout()),
        &mut SystemClock::new(rt),
        &mut RandomNames::new(rt),
    );
    ExitCode::from(status)
}

// The words after the program's name. Where one isn't text, a word that no form has stands for all.
fn words<R: Env + AllocGlobal>(rt: &R) -> io::Result<Vec<String>> {
    let mut words = Vec::new(rt.alloc());
    match env::args(rt) {
        Ok(args) => {
            for word in args.skip(1) {
                words.push(word)?;
            }
        }
        Err(error) if error.kind() == ErrorKind::InvalidData => {
            words.push(String::from_str(rt.alloc(), "\u{fffd}")?)?;
        }
        Err(error) => return Err(error),
    }
    Ok(words)
}
