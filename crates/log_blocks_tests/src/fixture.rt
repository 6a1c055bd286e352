//! Logs to try.
ghost use Rattle.std.specs.Prelude.{◌≡◌, ◌≤◌, ◌^◌, ℕ, ◌∷◌, [], length, IfOk};
ghost use Rattle.log_blocks.specs.Batch.{IsChecked, begun, records_in};
ghost use Rattle.log_blocks_tests.specs.Sizes.{payload_bytes};

use log_blocks::{Batch, BlockLog, OpenRefused, open_log};
use media::Disk;
use std::alloc::Global;
use std::test::Fail;
use store_model::{Fault, Lsn, Memory};

/// The blocks of a Format record, and of a Write and its Commit, in hexadecimal.
pub const TWO_BLOCKS: &str = "a50000000000000001000000000000000000010000000501000040\
    00a50000000000000002000000000000000000020000003902000000000000000100000000000000000000\
    00010000000000000001056170706c6500010001310500000000000000010000000000000002\
    00";

/// The most records, and bytes, that a log here has.
const MOST: u64 = 1 << 32;

/// The most bytes of a payload here.
const LONGEST: usize = 4096;

/// The log on this disk, or why it isn't opened.
pub fn opened<D: Disk + Drop>(alloc: Global, disk: D) -> Result<BlockLog<D>, Fault> {
    match open_log(alloc, disk) {
        Ok(log) => Ok(log),
        Err(OpenRefused { disk: _disk, fault }) => Err(fault),
    }
}

/// The blocks of a batch join the pending ones.
#[tactic(auto, using(crate::proofs::Sizes::blocks_size))]
pub fn join<D: Disk + Drop>(log: &mut BlockLog<D>, batch: &mut Batch) -> Result<(), Fail>
    requires checked { (next : ℕ) → IsChecked next batch.old.blocks }
    requires records { records_in batch.old.blocks ≤ 2 ^ 32 }
    requires few { length batch.old.blocks ≤ 4 }
    requires bytes { payload_bytes batch.old.blocks ≤ 2 ^ 16 }
{
    if log.next() > MOST || log.end() > MOST {
        return Err(Fail::new("too long a log for a test"));
    }
    log.append_batch(batch);
    Ok(())
}

/// A block of one record with this payload joins the pending ones.
pub fn append<D: Disk + Drop>(
    alloc: Global,
    log: &mut BlockLog<D>,
    payload: &[u8],
) -> Result<(), Fail> {
    if payload.is_empty() || payload.len() > LONGEST {
        return Err(Fail::new("no payload for a test"));
    }
    let mut batch = batch_of(alloc, payload)?;
    join(log, &mut batch)
}

/// A batch of one block of one record.
pub fn batch_of(alloc: Global, payload: &[u8]) -> Result<Batch, Memory>
    requires { (1 ≤ length payload.now) × (length payload.now ≤ 4096) }
    ensures { IfOk result (λ b. b ≡ record { blocks = begun 1 0 payload.now ∷ []; spare = 0 }) }
{
    let mut batch = Batch::new(alloc);
    batch.push(1, 0, payload)?;
    Ok(batch)
}

/// The payload of a block, empty where there is no such block.
pub fn payload_of<D: Disk + Drop>(
    alloc: Global,
    log: &mut BlockLog<D>,
    i: u64,
) -> Result<Vec<u8>, Fault> {
    let mut payload = Vec::new(alloc);
    if i < log.blocks() {
        log.read_block(i, &mut payload)?;
    }
    Ok(payload)
}

/// The first n blocks are dropped, where more than n are durable.
pub fn drop_first<D: Disk + Drop>(log: &mut BlockLog<D>, n: u64) -> Result<(), Fault> {
    if n < log.durable() {
        log.drop_front(n)?;
    }
    Ok(())
}

/// The first LSN of a block, 0 where there is no such block.
pub fn first_of<D: Disk + Drop>(log: &BlockLog<D>, i: u64) -> Lsn {
    if i < log.blocks() { log.first_of(i) } else { 0 }
}
