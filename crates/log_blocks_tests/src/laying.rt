//! The bytes of a log.
ghost use Rattle.std.specs.Prelude.{◌≡◌, ◌≤◌, ◌++◌, ◌∷◌, [], length, IfOk};
ghost use Rattle.log_blocks.specs.Batch.{begun};

use crate::fixture::{TWO_BLOCKS, batch_of, join, opened};
use log_blocks::Batch;
use media_mem::MemDisk;
use std::alloc::Global;
use std::test::Fail;
use store_model::Memory;

const FORMAT: &[u8] = b"\x01\0\0\x40\0";

const WRITE: &[u8] =
    b"\x02\0\0\0\0\0\0\0\x01\0\0\0\0\0\0\0\0\0\0\0\x01\0\0\0\0\0\0\0\x01\x05apple\0\x01\0\x011";

const COMMIT: &[u8] = b"\x05\0\0\0\0\0\0\0\x01\0\0\0\0\0\0\0\x02";

/// A batch of one block of two records, the second of them short.
fn with_short(alloc: Global, payload: &[u8], short: &[u8]) -> Result<Batch, Memory>
    requires first { (1 ≤ length payload.now) × (length payload.now ≤ 4096) }
    requires second { (1 ≤ length short.now) × (length short.now ≤ 17) }
    ensures { IfOk result (λ b. b ≡ record { blocks = begun 2 0 (payload.now ++ short.now) ∷ []; spare = 0 }) }
{
    let mut batch = batch_of(alloc, payload)?;
    batch.reserve_short()?;
    batch.push_short(0, short);
    Ok(batch)
}

#[test]
fn blocks_are_laid_as_the_format_says(rt: HostRuntime) -> Result<(), Fail> {
    let alloc = rt.alloc();
    let mut log = opened(alloc, MemDisk::new(alloc))?;
    join(&mut log, &mut batch_of(alloc, FORMAT)?)?;
    log.flush()?;
    join(&mut log, &mut with_short(alloc, WRITE, COMMIT)?)?;
    assert_eq!(rt; (log.blocks(), log.durable(), log.next()), (2, 1, 4));
    log.flush()?;
    let disk = log.into_device();
    let text = hex::encode(alloc, disk.bytes())?;
    assert_eq!(rt; text.as_str(), TWO_BLOCKS);
    Ok(())
}

#[test]
fn blocks_of_two_batches_are_laid_in_order(rt: HostRuntime) -> Result<(), Fail> {
    let alloc = rt.alloc();
    let mut batch = batch_of(alloc, FORMAT)?;
    with_short(alloc, WRITE, COMMIT)?.move_to(&mut batch);
    assert_eq!(rt; (batch.len(), batch.spare()), (2, 0));
    let mut log = opened(alloc, MemDisk::new(alloc))?;
    join(&mut log, &mut batch)?;
    assert_eq!(rt; batch.is_empty(), true);
    log.flush()?;
    let disk = log.into_device();
    let text = hex::encode(alloc, disk.bytes())?;
    assert_eq!(rt; text.as_str(), TWO_BLOCKS);
    Ok(())
}
