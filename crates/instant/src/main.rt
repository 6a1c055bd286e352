//! The program: a script on standard input, its transcript on standard output.
//!
//! `instant PLACE [run | generate N] [--workers W] [--frames F]` keeps its log at PLACE: `mem`, or a folder that is there.
//! It makes the devices and the operators, has the runner do what the words behind PLACE ask for, says on standard error
//! why the run ended where it isn't done, and ends with the status' code.
#![tactic(auto)]

ghost use Rattle.std.specs.Prelude.{◌≡◌};

mod ended;

use ended::Ended;
use media::{Devices, Disk, PageDevice, Vault};
use media_file::{FileDisk, FilePages, FileVault, Folder, StreamSink, StreamSource};
use media_mem::{MemDisk, MemPages, MemVault};
use operators::boxed_operators;
use runner::{Status, run_words};
use std::alloc::{AllocError, Global};
use std::fs::{File, TryLockError};
use std::process::ExitCode;
use std::sync::Wait;
use std::{env, fs, io};

/// The words of the call behind the program's name.
fn words(rt: &HostRuntime, alloc: Global) -> io::Result<Vec<String>> {
    let mut words = Vec::new(alloc);
    for word in env::args(rt)?.skip(1) {
        words.push(word)?;
    }
    Ok(words)
}

/// Where a store is kept.
#[derive(Clone, Copy)]
enum Place<'a> {
    Memory,
    Folder(&'a str),
}

/// Runs what the words behind the place ask for, at the place. `wait` is the same runtime, where it may wait.
fn run<W: Wait>(rt: &HostRuntime, wait: &W, alloc: Global, words: &[String]) -> Ended {
    let [place, rest @ ..] = words else {
        return Ended::Ran(Status::Usage);
    };
    let Some(place) = place_of(rt, place.as_str()) else {
        return Ended::Ran(Status::Usage);
    };
    run_at(rt, wait, alloc, place, rest)
}

/// The place that a word names: memory, or a folder that is there.
fn place_of<'a>(rt: &HostRuntime, word: &'a str) -> Option<Place<'a>> {
    if word == "mem" {
        Some(Place::Memory)
    } else if is_folder(rt, word) {
        Some(Place::Folder(word))
    } else {
        None
    }
}

/// Whether a folder stands at the path.
fn is_folder(rt: &HostRuntime, path: &str) -> bool {
    match fs::metadata(rt, path) {
        Ok(metadata) => metadata.is_dir(),
        Err(_) => false,
    }
}

/// Runs the script on devices at the place.
fn run_at<W: Wait>(
    rt: &HostRuntime,
    wait: &W,
    alloc: Global,
    place: Place<'_>,
    words: &[String],
) -> Ended {
    match place {
        Place::Memory => run_in_memory(rt, wait, alloc, words),
        Place::Folder(path) => run_in_folder(rt, wait, alloc, path, words),
    }
}

/// Runs the script on devices in memory, blank at each start.
fn run_in_memory<W: Wait>(rt: &HostRuntime, wait: &W, alloc: Global, words: &[String]) -> Ended {
    let devices = Devices {
        log: MemDisk::new(alloc),
        pages: MemPages::new(alloc),
        vault: MemVault::new(alloc),
    };
    run_on(rt, wait, alloc, devices, words)
}

/// Runs the script on the devices in the files of a folder, which no other process has meanwhile.
fn run_in_folder<W: Wait>(
    rt: &HostRuntime,
    wait: &W,
    alloc: Global,
    path: &str,
    words: &[String],
) -> Ended {
    let lock = match locked(rt, path) {
        Ok(lock) => lock,
        Err(TryLockError::WouldBlock) => return Ended::InUse,
        Err(TryLockError::Error(_)) => return Ended::Unopened,
    };
    let ended = match opened(rt, alloc, path) {
        Ok(devices) => run_on(rt, wait, alloc, devices, words),
        Err(_) => Ended::Unopened,
    };
    drop(lock);
    ended
}

/// The folder itself, locked until it is dropped.
fn locked(rt: &HostRuntime, path: &str) -> Result<File, TryLockError> {
    let folder = match fs::open(rt, path) {
        Ok(folder) => folder,
        Err(error) => return Err(TryLockError::Error(error)),
    };
    folder.try_lock()?;
    Ok(folder)
}

/// The devices in a folder.
fn opened<'a>(
    rt: &'a HostRuntime,
    alloc: Global,
    path: &str,
) -> io::Result<Devices<FileDisk<'a, HostRuntime>, FilePages<File>, FileVault<'a, HostRuntime>>> {
    let folder = Folder::new(rt, alloc, path)?;
    let pages = FilePages::open(&folder)?;
    let vault = FileVault::open(&folder)?;
    Ok(Devices {
        log: FileDisk::open(folder)?,
        pages,
        vault,
    })
}

/// Runs the script on these devices, with the operators of the store.
fn run_on<W: Wait, L: Disk + Drop, P: PageDevice + Drop, V: Vault + Drop>(
    rt: &HostRuntime,
    wait: &W,
    alloc: Global,
    devices: Devices<L, P, V>,
    words: &[String],
) -> Ended {
    match run_with(rt, wait, alloc, devices, words) {
        Ok(status) => Ended::Ran(status),
        Err(_) => Ended::Ran(Status::Memory),
    }
}

fn run_with<W: Wait, L: Disk + Drop, P: PageDevice + Drop, V: Vault + Drop>(
    rt: &HostRuntime,
    wait: &W,
    alloc: Global,
    devices: Devices<L, P, V>,
    words: &[String],
) -> Result<Status, AllocError> {
    let operators = boxed_operators!(alloc);
    let mut source = StreamSource {
        reader: rt.stdin(),
        faults: 0,
    };
    let mut sink = StreamSink {
        writer: rt.stdout(),
        faults: 0,
    };
    let (status, _devices) = run_words(
        wait,
        alloc,
        words,
        &mut source,
        &mut sink,
        devices,
        &operators,
    );
    Ok(status)
}

/// Why there are no words: memory ran out, or they are no text.
fn without_words(error: &io::Error) -> Ended {
    Ended::Ran(if error.kind() == io::ErrorKind::OutOfMemory {
        Status::Memory
    } else {
        Status::Usage
    })
}

fn main(rt: HostRuntime) -> ExitCode {
    let alloc = rt.alloc();
    let ended = match words(&rt, alloc) {
        Ok(words) => run(&rt, &rt, alloc, &words),
        Err(error) => without_words(&error),
    };
    if !ended.is_done() {
        let _ = eprintln!(&rt; "instant: {ended}");
    }
    ExitCode::from(ended.code())
}
