//! Runs over one folder.
ghost use Rattle.std.specs.Prelude.{◌≡◌};

use media::Devices;
use media_file::{FileDisk, FilePages, FileVault, Folder};
use media_mem::{MemSink, MemSource};
use operators::boxed_operators;
use runner::{Status, run_words};
use std::fs;
use std::sync::Wait;
use std::test::Fail;

/// How a run of a script over the folder ended, and what it printed. `wait` is the same runtime, where it may wait.
fn run<W: Wait>(
    rt: &HostRuntime,
    wait: &W,
    path: &str,
    script: &str,
) -> Result<(Status, Vec<u8>), Fail> {
    let alloc = rt.alloc();
    let folder = Folder::new(rt, alloc, path)?;
    let devices = Devices {
        pages: FilePages::open(&folder)?,
        vault: FileVault::open(&folder)?,
        log: FileDisk::open(folder)?,
    };
    let mut source = MemSource::new(alloc, script.as_bytes().to_vec(alloc)?);
    let mut sink = MemSink::new(alloc);
    let operators = boxed_operators!(alloc);
    let (status, _devices) = run_words(
        wait,
        alloc,
        &[],
        &mut source,
        &mut sink,
        devices,
        &operators,
    );
    Ok((status, sink.bytes().to_vec(alloc)?))
}

#[test]
fn a_second_run_reads_what_the_first_one_committed(rt: HostRuntime) -> Result<(), Fail> {
    let path = "instant_tests_folder";
    let _outcome = fs::remove_dir_all(&rt, path);
    fs::create_dir(&rt, path)?;
    let first = "format\nopen\nbegin A\nput A x 1\ncommit A\nstop\n";
    let (status, printed) = run(&rt, &rt, path, first)?;
    assert_eq!(rt; status, Status::Done);
    let lines = "format ok\nopen commits=0 losers=0\nA begin\nA put x was none\nA commit 1\nstop\n";
    assert!(rt; printed.as_slice() == lines.as_bytes());
    let (status, printed) = run(&rt, &rt, path, "open\nbegin B\nget B x\n")?;
    assert_eq!(rt; status, Status::Done);
    assert!(rt;
        printed.as_slice() == b"open commits=1 losers=0\nB begin\nB get x = 1\n".as_slice()
    );
    let (status, _printed) = run(&rt, &rt, path, "format\n")?;
    assert_eq!(rt; status, Status::AlreadyFormatted);
    fs::remove_dir_all(&rt, path)?;
    Ok(())
}
