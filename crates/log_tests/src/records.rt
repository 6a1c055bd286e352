//! Groups, commits, flushes and reads of a log in memory.
use log_blocks::open_log;
use log_manager::LogManager;
use media::Disk;
use media_mem::MemDisk;
use std::alloc::Global;
use std::test::Fail;
use store_model::{Fault, Lsn};
use wal_record::{Lost, Record};

/// A log of records on a disk with these bytes.
fn opened(alloc: Global, disk: MemDisk) -> Result<LogManager<MemDisk>, Fail> {
    match open_log(alloc, disk) {
        Ok(log) => Ok(LogManager::start(alloc, log)),
        Err(_) => Err(Fail::new("not opened")),
    }
}

/// The record of an LSN that the log keeps.
fn found<D: Disk>(alloc: Global, log: &mut LogManager<D>, lsn: Lsn) -> Result<Record, Fault> {
    if lsn == 0 || lsn < log.first_kept() || log.last() < lsn {
        return Err(Fault::Memory);
    }
    log.read(alloc, lsn)
}

/// Adds a Lost of so many pages at the end.
fn add<D: Disk>(alloc: Global, log: &mut LogManager<D>, pages: u32) -> Option<Lsn> {
    log.append_group(alloc, &[Record::Lost(Lost { pages })])
        .ok()
}

/// Whether all records up to an LSN have become stable.
fn flush<D: Disk>(log: &mut LogManager<D>, lsn: Lsn) -> bool {
    lsn != 0 && lsn <= log.last() && log.flush_to(lsn).is_ok()
}

/// Adds the Commit of transaction 1, whose last record has the LSN 2, where there is room for it.
fn commit<D: Disk>(log: &mut LogManager<D>) -> Option<Lsn> {
    if log.spare() == 0 {
        None
    } else {
        Some(log.append_commit(1, 2))
    }
}

/// The pages that a Lost tells.
fn pages_of(found: Result<Record, Fault>) -> Option<u32> {
    match found {
        Ok(record) => match record {
            Record::Lost(lost) => Some(lost.pages),
            _other => None,
        },
        Err(_fault) => None,
    }
}

/// The block and the byte that are named as bad.
fn bad_of(found: Result<Record, Fault>) -> Option<(u64, u64)> {
    match found {
        Ok(_record) => None,
        Err(fault) => match fault {
            Fault::LogBad { block, byte } => Some((block, byte)),
            _other => None,
        },
    }
}

/// The bytes of a record, and of another with a Commit.
const LAID: &[u8] = &[
    0xa5, 0, 0, 0, 0, 0, 0, 0, 1, 0, 0, 0, 0, 0, 0, 0, 0, 0, 1, 0, 0, 0, 5, 15, 0, 0, 0, 7, 0xa5,
    0, 0, 0, 0, 0, 0, 0, 2, 0, 0, 0, 0, 0, 0, 0, 0, 0, 2, 0, 0, 0, 22, 15, 0, 0, 0, 9, 5, 0, 0, 0,
    0, 0, 0, 0, 1, 0, 0, 0, 0, 0, 0, 0, 2, 0,
];

#[test]
fn a_flush_makes_a_transaction_one_block(rt: HostRuntime) -> Result<(), Fail> {
    let alloc = rt.alloc();
    let mut log = opened(alloc, MemDisk::new(alloc))?;
    assert_eq!(rt; add(alloc, &mut log, 7), Some(1));
    assert!(rt; flush(&mut log, 1));
    assert!(rt; log.reserve_commit().is_ok());
    assert_eq!(rt; add(alloc, &mut log, 9), Some(2));
    assert_eq!(rt; commit(&mut log), Some(3));
    assert_eq!(rt; (log.durable(), log.last(), log.first_kept()), (1, 3, 1));
    assert!(rt; flush(&mut log, 2));
    assert_eq!(rt; (log.durable(), log.last(), log.spare()), (3, 3, 0));
    assert_eq!(rt; log.into_device().bytes(), LAID);
    Ok(())
}

#[test]
fn records_are_read_by_their_number(rt: HostRuntime) -> Result<(), Fail> {
    let alloc = rt.alloc();
    let mut log = opened(alloc, MemDisk::with_bytes(alloc, LAID)?)?;
    for pages in 4..16 {
        assert_eq!(rt; add(alloc, &mut log, pages), Some(pages as u64));
    }
    assert_eq!(rt; pages_of(found(alloc, &mut log, 1)), Some(7));
    assert_eq!(rt; pages_of(found(alloc, &mut log, 2)), Some(9));
    assert_eq!(rt; pages_of(found(alloc, &mut log, 3)), None);
    for pages in 4..16 {
        assert_eq!(rt; pages_of(found(alloc, &mut log, pages as u64)), Some(pages));
    }
    Ok(())
}

#[test]
fn a_payload_that_is_no_record_is_named(rt: HostRuntime) -> Result<(), Fail> {
    let alloc = rt.alloc();
    let mut bytes = LAID.to_vec(alloc)?;
    // The kind of the second block's second record.
    bytes[56] = 17;
    let mut log = opened(alloc, MemDisk::with_bytes(alloc, &bytes)?)?;
    assert_eq!(rt; pages_of(found(alloc, &mut log, 2)), Some(9));
    assert_eq!(rt; bad_of(found(alloc, &mut log, 3)), Some((1, 28)));
    Ok(())
}

#[test]
fn whole_blocks_are_recycled_but_never_the_last(rt: HostRuntime) -> Result<(), Fail> {
    let alloc = rt.alloc();
    let mut log = opened(alloc, MemDisk::with_bytes(alloc, LAID)?)?;
    assert!(rt; log.recycle_to(1).is_ok());
    assert_eq!(rt; log.first_kept(), 1);
    assert!(rt; log.recycle_to(2).is_ok());
    assert_eq!(rt; log.first_kept(), 2);
    assert!(rt; log.recycle_to(99).is_ok());
    assert_eq!(rt; (log.first_kept(), log.last()), (2, 3));
    Ok(())
}
