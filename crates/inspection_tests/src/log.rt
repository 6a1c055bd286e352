//! The lines of a log, and its faults.
use crate::bytes::{LOG, bytes_of};
use inspection::{Halt, Totals, inspect_log};
use media_mem::{MemDisk, MemSink};
use std::alloc::{AllocError, Global};
use std::test::Fail;

const LINES: &str = "\
block 0 at=0 first=1 checkpoint=0 records=1 payload=5
record 1 Format limit=16384
block 1 at=28 first=2 checkpoint=0 records=10 payload=261
record 2 Write tx=1 prev=0 page=1 page_prev=1 key=apple old none new=1
record 3 Commit tx=1 prev=2
record 4 Apply tx=2 prev=0 page=1 page_prev=2 key=n operator=1 argument=5 old none
record 5 Undo tx=2 prev=4 page=1 page_prev=4 key=n restores none undo_next=0
record 6 End tx=2 prev=5
record 7 Split page=1 page_prev=5 child=2 level=0 low=m high none foster none rows=1 key=q value=2
record 8 Grow page_prev=7 child=3 level=0 low=% high none foster=m child=2 rows=0
record 9 Adopt parent=1 parent_prev=8 fosterer=3 fosterer_prev=8 child=2 key=m
record 10 Purge page=2 page_prev=7
record 11 Written page=1 lsn=9
block 2 at=312 first=12 checkpoint=12 records=5 payload=226
record 12 Checkpoint next_tx=3 commits=1 limit=16384 pages=1 head=9 written=9 backup=0 backup_lsn=0 \
transactions=1 tx=2 last=5 undo_next=0 writes=1 lsn=4 key=n lost=0 unrestored=1 segment=2 \
runs=1 run=1 first=1 last=9 next_backup=2 next_run=2
record 13 BackupDone backup=1 segment=0 pages=2 page=1 lsn=9 page=2 lsn=10
record 14 RunDone run=2 first=10 last=14
record 15 Lost pages=3
record 16 Restored segment=0
log end=561 blocks=3 records=16
";

/// What is found in a log of these bytes.
fn inspected(
    alloc: Global,
    bytes: &[u8],
    sink: &mut MemSink,
) -> Result<Result<Totals, Halt>, Fail> {
    let disk = MemDisk::with_bytes(alloc, bytes)?;
    let (_disk, outcome) = inspect_log(alloc, disk, sink);
    Ok(outcome)
}

#[test]
fn each_kind_of_record_has_its_line(rt: HostRuntime) -> Result<(), Fail> {
    let alloc = rt.alloc();
    let mut sink = MemSink::new(alloc);
    let outcome = inspected(alloc, &bytes_of(alloc, LOG)?, &mut sink)?;
    let totals = Totals {
        blocks: 3,
        records: 16,
        last: 16,
    };
    assert!(rt; outcome == Ok(totals));
    assert!(rt; sink.bytes() == LINES.as_bytes());
    Ok(())
}

/// Whether this is the fault that is found in a log of these bytes.
fn has_fault(alloc: Global, bytes: &[u8], fault: Halt) -> Result<bool, Fail> {
    let outcome = inspected(alloc, bytes, &mut MemSink::new(alloc))?;
    Ok(outcome == Err(fault))
}

/// A byte that is changed, and the fault that this is.
struct Change {
    place: usize,
    byte: u8,
    block: u64,
    at: u64,
    fault: u64,
}

const CHANGES: [Change; 8] = [
    // the second block doesn't go on from the first
    Change {
        place: 28 + 8,
        byte: 3,
        block: 1,
        at: 28,
        fault: 1,
    },
    // its count is 0
    Change {
        place: 28 + 18,
        byte: 0,
        block: 1,
        at: 28,
        fault: 17,
    },
    // its Write names page 0
    Change {
        place: 28 + 43,
        byte: 0,
        block: 1,
        at: 28,
        fault: 40,
    },
    // its Commit isn't behind the Write of its transaction
    Change {
        place: 28 + 79,
        byte: 1,
        block: 1,
        at: 28,
        fault: 63,
    },
    // its Purge isn't behind the Split of its page
    Change {
        place: 28 + 23 + 247,
        byte: 6,
        block: 1,
        at: 28,
        fault: 258,
    },
    // the third block names another Checkpoint
    Change {
        place: 312 + 16,
        byte: 11,
        block: 2,
        at: 312,
        fault: 9,
    },
    // it counts a record too many
    Change {
        place: 312 + 18,
        byte: 6,
        block: 2,
        at: 312,
        fault: 249,
    },
    // it counts a record too few
    Change {
        place: 312 + 18,
        byte: 4,
        block: 2,
        at: 312,
        fault: 244,
    },
];

/// Whether the fault of a change is found.
fn is_found(alloc: Global, change: &Change) -> Result<bool, Fail> {
    let mut bytes = bytes_of(alloc, LOG)?;
    if let Some(byte) = bytes.get_mut(change.place) {
        *byte = change.byte;
    }
    let fault = Halt::Block {
        block: change.block,
        byte: change.fault,
        at: change.at,
    };
    has_fault(alloc, &bytes, fault)
}

#[test]
fn the_first_fault_is_named_by_block_and_byte(rt: HostRuntime) -> Result<(), Fail> {
    for change in &CHANGES {
        assert!(rt; is_found(rt.alloc(), change)?);
    }
    Ok(())
}

#[test]
fn a_block_that_is_cut_is_named(rt: HostRuntime) -> Result<(), Fail> {
    let alloc = rt.alloc();
    let bytes = bytes_of(alloc, LOG)?;
    for (less, byte) in [(1, 249), (2, 23), (230, 19)] {
        let kept = bytes.len().saturating_sub(less);
        let cut = bytes.get(..kept).unwrap_or_default();
        let fault = Halt::Block {
            block: 2,
            byte,
            at: 312,
        };
        assert!(rt; has_fault(alloc, cut, fault)?, "{less} bytes less");
    }
    Ok(())
}

/// Whether a disk whose first call fails is told apart from a fault.
fn tells_the_disk(alloc: Global) -> Result<bool, AllocError> {
    let disk = MemDisk::failing(alloc, vec![in alloc; 1]?);
    let (_disk, outcome) = inspect_log(alloc, disk, &mut MemSink::new(alloc));
    Ok(outcome == Err(Halt::Device))
}

/// The same of a sink.
fn tells_the_sink(alloc: Global) -> Result<bool, Fail> {
    let mut full = MemSink::failing(alloc, vec![in alloc; 1]?);
    let outcome = inspected(alloc, &bytes_of(alloc, LOG)?, &mut full)?;
    Ok(outcome == Err(Halt::Sink))
}

#[test]
fn a_device_that_fails_is_no_fault_of_the_log(rt: HostRuntime) -> Result<(), Fail> {
    assert!(rt; tells_the_disk(rt.alloc())?);
    assert!(rt; tells_the_sink(rt.alloc())?);
    Ok(())
}

/// Whether a fault is told so.
fn is_told(alloc: Global, fault: &Halt, text: &str) -> Result<bool, AllocError> {
    let told = format!(in alloc; "{fault}")?;
    Ok(told.as_str() == text)
}

/// A file has 1 MiB of the log.
#[test]
fn a_fault_is_named_by_the_file_in_which_its_byte_stands(rt: HostRuntime) -> Result<(), Fail> {
    for (at, text) in [
        (1048566, "bad log-0 block=7 byte=9"),
        (1048567, "bad log-1 block=7 byte=9"),
    ] {
        let fault = Halt::Block {
            block: 7,
            byte: 9,
            at,
        };
        assert!(rt; is_told(rt.alloc(), &fault, text)?, "{at}");
    }
    let fault = Halt::Page { page: 2, byte: 37 };
    assert!(rt; is_told(rt.alloc(), &fault, "bad pages.dat page=2 byte=37")?);
    Ok(())
}
