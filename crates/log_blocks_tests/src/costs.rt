//! What the calls of a log cost its disk.

use crate::fixture::{append, opened};
use crate::metered::Metered;
use media_mem::MemDisk;
use std::alloc::Global;
use std::test::Fail;

/// How many calls an opening of this disk and a flush of so many blocks make, and the disk afterwards.
fn calls(alloc: Global, disk: MemDisk, blocks: u32) -> Result<(u64, MemDisk), Fail> {
    let mut log = opened(alloc, Metered::new(disk))?;
    for _ in 0..blocks {
        append(alloc, &mut log, b"payload")?;
    }
    log.flush()?;
    let disk = log.into_device();
    Ok((disk.calls(), disk.into_inner()))
}

/// An opening makes one call to sync, and one to read each header and the last gate, where there is one. A flush makes
/// four for each block, on a blank disk two more, and where a closed gate stands alone one more.
#[test]
fn a_flush_makes_four_calls_a_block(rt: HostRuntime) -> Result<(), Fail> {
    let alloc = rt.alloc();
    let mut disk = MemDisk::new(alloc);
    for (blocks, want) in [(0, 1), (1, 1 + 6), (0, 3), (1, 3 + 4), (2, 4 + 8)] {
        let (calls, left) = calls(alloc, disk, blocks)?;
        assert_eq!(rt; calls, want, "{blocks} blocks");
        disk = left;
    }
    for (blocks, want) in [(0, 2), (1, 2 + 5), (2, 2 + 9)] {
        let gate = MemDisk::with_bytes(alloc, b"\0\0")?;
        let (calls, _) = calls(alloc, gate, blocks)?;
        assert_eq!(rt; calls, want, "{blocks} blocks behind a gate");
    }
    Ok(())
}

/// How many bytes an opening reads of a disk with three blocks whose payloads have this size.
fn bytes_read(alloc: Global, size: usize) -> Result<u64, Fail> {
    let payload = vec![in alloc; b'v'; size]?;
    let mut log = opened(alloc, MemDisk::new(alloc))?;
    for _ in 0..3u32 {
        append(alloc, &mut log, &payload)?;
    }
    log.flush()?;
    let log = opened(alloc, Metered::new(log.into_device()))?;
    Ok(log.into_device().bytes_read())
}

#[test]
fn an_opening_reads_headers_alone(rt: HostRuntime) -> Result<(), Fail> {
    let alloc = rt.alloc();
    for size in [1, 40, 4000] {
        assert_eq!(rt; bytes_read(alloc, size)?, 3 * 23 + 1, "{size} bytes");
    }
    Ok(())
}
