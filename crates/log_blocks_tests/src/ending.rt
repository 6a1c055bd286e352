//! A log whose disk has failed, and a log whose front is dropped.

use crate::fixture::{append, drop_first, first_of, opened, payload_of};
use log_blocks::BlockLog;
use media::{Disk, Fuse};
use media_mem::MemDisk;
use std::alloc::Global;
use std::test::Fail;
use store_model::{Fault, Lsn};

/// A log with one durable block, and one whose flush has failed at its last call.
fn ended(alloc: Global) -> Result<BlockLog<Fuse<MemDisk>>, Fail> {
    let mut log = opened(alloc, Fuse::new(MemDisk::new(alloc)))?;
    append(alloc, &mut log, b"first")?;
    log.flush()?;
    append(alloc, &mut log, b"second!")?;
    log.fuse(Some(3));
    match log.flush() {
        Err(Fault::LogFault) => {}
        _ => return Err(Fail::new("the flush passed")),
    }
    log.fuse(None);
    Ok(log)
}

/// The LSN behind which the log had ended when a call was refused, if that is why.
fn end_of<T: Drop>(answer: Result<T, Fault>) -> Option<Lsn> {
    match answer {
        Err(Fault::Ended { at }) => Some(at),
        _ => None,
    }
}

#[test]
fn a_log_whose_disk_failed_has_ended(rt: HostRuntime) -> Result<(), Fail> {
    let alloc = rt.alloc();
    let mut log = ended(alloc)?;
    assert_eq!(rt; (log.blocks(), log.durable(), log.refused()), (2, 1, 1));
    assert_eq!(rt; log.ended(), Some(1));
    assert_eq!(rt; end_of(log.flush()), Some(1));
    assert_eq!(rt; end_of(payload_of(alloc, &mut log, 0)), Some(1));
    assert_eq!(rt; end_of(drop_first(&mut log, 0)), Some(1));
    Ok(())
}

/// A log of three durable blocks, and one that waits.
fn of_four(alloc: Global) -> Result<BlockLog<MemDisk>, Fail> {
    let mut log = opened(alloc, MemDisk::new(alloc))?;
    for payload in [b"first".as_slice(), b"second!", b"3"] {
        append(alloc, &mut log, payload)?;
    }
    log.flush()?;
    append(alloc, &mut log, b"waits")?;
    Ok(log)
}

#[test]
fn a_dropped_front_stays_dropped(rt: HostRuntime) -> Result<(), Fail> {
    let alloc = rt.alloc();
    let mut log = of_four(alloc)?;
    assert_eq!(rt; (log.blocks(), log.durable(), log.next()), (4, 3, 5));
    assert_eq!(rt; (first_of(&log, 3), log.checkpoint()), (4, 0));
    drop_first(&mut log, 2)?;
    assert_eq!(rt; (log.blocks(), log.durable(), log.next()), (2, 1, 5));
    let mut log = opened(alloc, log.into_device())?;
    assert_eq!(rt; (log.blocks(), first_of(&log, 0), log.next()), (1, 3, 4));
    assert_eq!(rt; payload_of(alloc, &mut log, 0)?.as_slice(), b"3".as_slice());
    Ok(())
}
