//! Whole disks as their blocks spell them, and the listing of the log that they hold.
ghost use Rattle.std.specs.Prelude.{◌≡◌, [], None, IfSome};

use crate::spelled::{add_word, text_of};
use log_analysis::analyse;
use log_blocks::{BlockLog, open_log};
use media::Disk;
use media_mem::MemDisk;
use std::alloc::Global;
use std::test::Fail;

/// Adds a block behind an open gate: the words of its header without the length, a colon, and those of its payload.
fn add_block(alloc: Global, text: &str, out: &mut Vec<u8>) -> Option<()> {
    let (header, words) = text.split_once(':')?;
    let mut payload = Vec::new(alloc);
    for word in words.split_whitespace() {
        add_word(alloc, word, &mut payload)?;
    }
    out.push(0xA5).ok()?;
    for word in header.split_whitespace() {
        add_word(alloc, word, out)?;
    }
    let length = u32::try_from(payload.len()).ok()?;
    out.extend_from_slice(&length.to_be_bytes()).ok()?;
    out.extend_from_slice(&payload).ok()
}

/// An open log over a disk with these blocks, before which so many bytes were dropped.
fn log_of(alloc: Global, dropped: &str, text: &str) -> Option<BlockLog<MemDisk>>
    ensures { IfSome result (λ log. (log.pending ≡ []) × (log.ended ≡ None)) }
{
    let mut bytes = Vec::new(alloc);
    let start = dropped.parse::<u8>().ok()?;
    for _ in 0..start {
        bytes.push(0).ok()?;
    }
    for block in text.split('|') {
        if !block.trim().is_empty() {
            add_block(alloc, block, &mut bytes)?;
        }
    }
    bytes.push(0).ok()?;
    let mut disk = MemDisk::with_bytes(alloc, &bytes).ok()?;
    let upto = u64::from(start).min(disk.len());
    disk.discard(upto).ok()?;
    open_log(alloc, disk).ok()
}

fn answer(alloc: Global, dropped: &str, text: &str) -> Option<String> {
    let mut log = log_of(alloc, dropped, text)?;
    match analyse(alloc, &mut log) {
        Ok(listing) => text_of(alloc, &listing),
        Err(fault) => format!(in alloc; "{fault:?}").ok(),
    }
}

/// A row is a name, how many bytes were dropped, the blocks, and the answer: the last LSN, that of page 1's head, the limit, and whether the
/// transactions 1 and 2 are losers; or the fault.
const LOGS: &str = "\
no block; 0; ; 0 0 0 false false
no Checkpoint; 0; 8.1 8.0 2.1: 01 4.16384 | 8.2 8.0 2.1: 02 8.1 8.0 4.1 8.1 0161 00 01000131; 2 2 16384 true false
a block before the Checkpoint's; 0; 8.1 8.0 2.2: 01 4.16384 02 8.1 8.0 4.1 8.1 0161 00 01000131 | 8.3 8.3 2.1: 0c 8.2 8.0 4.16384 4.1 8.2 8.0 8.0 8.0 4.1 8.1 8.2 8.2 4.1 8.2 0161 4.0 4.0 2.0 8.1 8.1 | 8.4 8.3 2.1: 02 8.2 8.0 4.1 8.2 0162 00 01000132; 4 4 16384 true true
that block overwritten; 0; 8.1 8.0 2.2: ffffffffffffffff | 8.3 8.3 2.1: 0c 8.2 8.0 4.16384 4.1 8.2 8.0 8.0 8.0 4.1 8.1 8.2 8.2 4.1 8.2 0161 4.0 4.0 2.0 8.1 8.1 | 8.4 8.3 2.1: 02 8.2 8.0 4.1 8.2 0162 00 01000132; 4 4 16384 true true
the last block overwritten; 0; 8.1 8.0 2.2: 01 4.16384 02 8.1 8.0 4.1 8.1 0161 00 01000131 | 8.3 8.3 2.1: 0c 8.2 8.0 4.16384 4.1 8.2 8.0 8.0 8.0 4.1 8.1 8.2 8.2 4.1 8.2 0161 4.0 4.0 2.0 8.1 8.1 | 8.4 8.3 2.1: ff; LogBad { block: 2, byte: 23 }
a record that is no Checkpoint; 0; 8.1 8.0 2.1: 01 4.16384 | 8.2 8.1 2.1: 02 8.1 8.0 4.1 8.1 0161 00 01000131; LogBad { block: 1, byte: 9 }
a Checkpoint that isn't kept; 8; 8.5 8.0 2.1: 01 4.16384 | 8.6 8.4 2.1: 02 8.1 8.0 4.1 8.1 0161 00 01000131; LogBad { block: 1, byte: 9 }
no Checkpoint and no first record; 8; 8.5 8.0 2.1: 01 4.16384; LogBad { block: 0, byte: 9 }
";

fn has_answer(alloc: Global, row: &str) -> Option<bool> {
    let (dropped, row) = row.split_once("; ")?;
    let (blocks, wanted) = row.split_once("; ")?;
    let found = answer(alloc, dropped, blocks)?;
    Some(found.as_str() == wanted)
}

#[test]
fn logs_are_read_from_the_block_of_their_last_checkpoint_on(rt: HostRuntime) -> Result<(), Fail> {
    for row in LOGS.lines() {
        let Some((name, row)) = row.split_once("; ") else {
            return Err(Fail::new(row));
        };
        if has_answer(rt.alloc(), row) != Some(true) {
            return Err(Fail::new(name));
        }
    }
    Ok(())
}
