//! The devices of a folder, one after the other.

use crate::ended::Ended;
use inspection::{Halt, inspect_log, inspect_object, inspect_page};
use media::{Sink, write_all};
use media_file::{FileDisk, FilePages, FileVault, Folder, StreamSink};
use std::alloc::Global;
use std::io::ErrorKind;
use store_model::{Lsn, ObjectKind, ObjectName, PageNo};

/// Lists what the folder holds. Where it is verified, the first fault ends it.
pub fn list(rt: &HostRuntime, alloc: Global, path: &str, verify: bool) -> Result<(), Ended> {
    let mut sink = StreamSink {
        writer: rt.stdout(),
        faults: 0,
    };
    let folder = Folder::for_reading(rt, alloc, path)?;
    let last = list_log(alloc, &folder, verify, &mut sink)?;
    list_pages(alloc, &folder, last, verify, &mut sink)?;
    list_objects(alloc, &folder, verify, &mut sink)?;
    if verify {
        say(&mut sink, "verified\n")?;
    }
    Ok(())
}

/// Lists the log. The LSN of its last record, where it has no fault.
fn list_log<K: Sink>(
    alloc: Global,
    folder: &Folder<'_, HostRuntime>,
    verify: bool,
    sink: &mut K,
) -> Result<Lsn, Ended> {
    let (disk, outcome) = inspect_log(alloc, FileDisk::open(folder.again()?)?, sink);
    drop(disk);
    match outcome {
        Ok(totals) => Ok(totals.last),
        Err(halt) => {
            tell(alloc, halt, verify, sink)?;
            Ok(Lsn::MAX)
        }
    }
}

/// Lists the pages that the folder's file has bytes of.
fn list_pages<K: Sink>(
    alloc: Global,
    folder: &Folder<'_, HostRuntime>,
    last: Lsn,
    verify: bool,
    sink: &mut K,
) -> Result<(), Ended> {
    let mut pages = match FilePages::open(folder) {
        Ok(pages) => pages,
        Err(error) => {
            return if error.kind() == ErrorKind::NotFound {
                Ok(())
            } else {
                Err(Ended::Input)
            };
        }
    };
    let count = PageNo::try_from(pages.count()?).unwrap_or(PageNo::MAX);
    for page in 1..=count {
        if let Err(halt) = inspect_page(alloc, &mut pages, page, last, sink) {
            tell(alloc, halt, verify, sink)?;
        }
    }
    Ok(())
}

/// Lists the objects by their names.
fn list_objects<K: Sink>(
    alloc: Global,
    folder: &Folder<'_, HostRuntime>,
    verify: bool,
    sink: &mut K,
) -> Result<(), Ended> {
    let mut vault = FileVault::open(folder)?;
    let mut objects = vault.objects()?;
    objects.sort_by_key(|object| place_of(object))?;
    for object in objects.iter() {
        if let Err(halt) = inspect_object(alloc, &mut vault, *object, sink) {
            tell(alloc, halt, verify, sink)?;
        }
    }
    Ok(())
}

/// Runs come first, by number, and then backups by number and segment.
fn place_of(object: &ObjectName) -> (bool, u64, u32) {
    (object.kind == ObjectKind::Backup, object.id, object.part)
}

/// Writes a line for a fault, which ends a verification. What is no fault ends every listing.
fn tell<K: Sink>(alloc: Global, halt: Halt, verify: bool, sink: &mut K) -> Result<(), Ended> {
    if halt.is_fault() {
        say(sink, format!(in alloc; "{halt}\n")?.as_str())?;
    }
    if verify || !halt.is_fault() {
        return Err(Ended::from(halt));
    }
    Ok(())
}

fn say<K: Sink>(sink: &mut K, line: &str) -> Result<(), Ended> {
    match write_all(sink, line.as_bytes()) {
        Ok(()) => Ok(()),
        Err(_) => Err(Ended::Output),
    }
}
