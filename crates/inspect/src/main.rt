//! The program that looks into a folder: `inspect FOLDER [--verify]`.
//!
//! It prints a line for each block and record of the log, each page and each object, and a line for the first fault of
//! the log and for that of each page. With `--verify` it ends at the first fault, with code 1, and prints `verified`
//! where there is none. It opens every file for reading alone.
#![tactic(auto)]

mod ended;
mod listing;

use ended::Ended;
use listing::list;
use std::alloc::Global;
use std::fs::{File, TryLockError};
use std::process::ExitCode;
use std::{env, fs, io};

/// The words of the call behind the program's name.
fn words(rt: &HostRuntime, alloc: Global) -> io::Result<Vec<String>> {
    let mut words = Vec::new(alloc);
    for word in env::args(rt)?.skip(1) {
        words.push(word)?;
    }
    Ok(words)
}

/// Does what the words ask.
fn run(rt: &HostRuntime, alloc: Global, words: &[String]) -> Result<(), Ended> {
    match words {
        [path] => inspect(rt, alloc, path.as_str(), false),
        [path, flag] if flag.as_str() == "--verify" => inspect(rt, alloc, path.as_str(), true),
        _ => Err(Ended::Usage),
    }
}

/// Looks into a folder, into which no process writes meanwhile.
fn inspect(rt: &HostRuntime, alloc: Global, path: &str, verify: bool) -> Result<(), Ended> {
    if !is_folder(rt, path) {
        return Err(Ended::Usage);
    }
    let lock = locked(rt, path)?;
    let outcome = list(rt, alloc, path, verify);
    drop(lock);
    outcome
}

/// Whether a folder stands at the path.
fn is_folder(rt: &HostRuntime, path: &str) -> bool {
    match fs::metadata(rt, path) {
        Ok(metadata) => metadata.is_dir(),
        Err(_) => false,
    }
}

/// The folder itself, locked against processes that write, until it is dropped.
fn locked(rt: &HostRuntime, path: &str) -> Result<File, Ended> {
    let folder = fs::open(rt, path)?;
    match folder.try_lock_shared() {
        Ok(()) => Ok(folder),
        Err(TryLockError::WouldBlock) => Err(Ended::InUse),
        Err(TryLockError::Error(_)) => Err(Ended::Input),
    }
}

fn main(rt: HostRuntime) -> ExitCode {
    let alloc = rt.alloc();
    let outcome = match words(&rt, alloc) {
        Ok(words) => run(&rt, alloc, &words),
        Err(_) => Err(Ended::Usage),
    };
    match outcome {
        Ok(()) => ExitCode::SUCCESS,
        Err(ended) => {
            let _ = eprintln!(&rt; "inspect: {ended}");
            ExitCode::from(ended.code())
        }
    }
}
