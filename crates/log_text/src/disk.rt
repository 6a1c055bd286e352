//! The disk of a log.
use crate::spelled::add_record;
use media_mem::MemDisk;
use std::alloc::Global;
use store_model::Lsn;

/// What of a log is on its disk.
#[derive(Clone, Copy, Debug, PartialEq, Eq)]
pub enum Given {
    /// All records but the Checkpoint.
    NoCheckpoint,
    /// All records.
    Whole,
    /// The same, with the payloads of the blocks before the Checkpoint's overwritten.
    Overwritten,
}

/// The payload of a block, and how many records it has.
fn payload_of(alloc: Global, line: &str, checkpoint: Lsn) -> Option<(Vec<u8>, u16)> {
    let mut payload = Vec::new(alloc);
    let mut count = 0_u16;
    for record in line.split('/') {
        if checkpoint > 0 || !record.contains("Checkpoint") {
            add_record(alloc, record, checkpoint, &mut payload)?;
            count = count.saturating_add(1);
        }
    }
    Some((payload, count))
}

/// Adds the header of a block, whose last record has the LSN below `next`.
fn add_header(
    first: Lsn,
    next: Lsn,
    checkpoint: Lsn,
    payload: &[u8],
    out: &mut Vec<u8>,
) -> Option<()> {
    let named = if checkpoint < next { checkpoint } else { 0 };
    let count = u16::try_from(next.checked_sub(first)?).ok()?;
    let length = u32::try_from(payload.len()).ok()?;
    out.push(0xA5).ok()?;
    out.extend_from_slice(&first.to_be_bytes()).ok()?;
    out.extend_from_slice(&named.to_be_bytes()).ok()?;
    out.extend_from_slice(&count.to_be_bytes()).ok()?;
    out.extend_from_slice(&length.to_be_bytes()).ok()
}

/// Adds a block, the first record of which has this LSN. Gives that of the first record behind it.
fn add_block(
    alloc: Global,
    line: &str,
    given: Given,
    checkpoint: Lsn,
    first: Lsn,
    out: &mut Vec<u8>,
) -> Option<Lsn> {
    let (payload, count) = payload_of(alloc, line, checkpoint)?;
    let next = first.saturating_add(u64::from(count));
    if count == 0 {
        return Some(next);
    }
    add_header(first, next, checkpoint, &payload, out)?;
    if given == Given::Overwritten && next <= checkpoint {
        for _ in 0..payload.len() {
            out.push(0xFF).ok()?;
        }
    } else {
        out.extend_from_slice(&payload).ok()?;
    }
    Some(next)
}

/// A disk with the blocks of this text. The Checkpoint has this LSN, 0 where there is none.
pub fn disk_of(alloc: Global, text: &str, given: Given, checkpoint: Lsn) -> Option<MemDisk> {
    let checkpoint = if given == Given::NoCheckpoint {
        0
    } else {
        checkpoint
    };
    let mut bytes = Vec::new(alloc);
    let mut next = 1;
    for line in text.lines() {
        next = add_block(alloc, line, given, checkpoint, next, &mut bytes)?;
    }
    bytes.push(0).ok()?;
    MemDisk::with_bytes(alloc, &bytes).ok()
}
