//! A log read from the block of its last Checkpoint on.
ghost use Rattle.std.specs.Prelude.{◌≡◌, ◌<◌, ◌≤◌, ◌+◌, ◌^◌, [], List, length, None, OnOk, IfOk, IfErr, IfSome, IsErrAnd, slice_index_or};
ghost use Rattle.media.specs.Counted.{Blames};
ghost use Rattle.media.specs.Crash.{LeavesOnly};
ghost use Rattle.log_blocks.specs.Log.{Block};
ghost use Rattle.log_blocks.specs.LogState.{IsDurable, firsts};
ghost use Rattle.log_blocks.specs.Opening.{IsLogFault};
ghost use Rattle.log_manager.specs.Managed.{HasLsn, IsNoBadLog, ReadRefused};
ghost use Rattle.wal_record.specs.Sound.{AreLawful};
ghost use Rattle.wal_record.specs.declared.record.Record.{Record};
ghost use Rattle.log_analysis.specs.Analysed.{IsNotAnalysed};
ghost use Rattle.log_analysis.specs.Taken.{GoesOnWith};
ghost use Rattle.log_manager.specs.Devices.{HoldEnd};

use crate::taking::{Named, no_checkpoint, take_block};
use log_blocks::BlockLog;
use log_index::Listing;
use media::Disk;
use std::alloc::Global;
use store_model::{Fault, Lsn};

/// The listing of a log that has just been opened. Of the payloads it reads that of the block with the last Checkpoint and
/// those behind it, and where the log has none, all.
pub fn analyse<L: Disk>(alloc: Global, log: &mut BlockLog<L>) -> Result<Listing, Fault>
    requires live { log.old.ended ≡ None }
    requires fresh { log.old.pending ≡ [] }
    // Of each log for which the disk stands, with the last record of each transaction that may go on; none of its blocks is
    // named as bad.
    ensures listed { L.tells → (bs : List Block) (rs : List Record) → IsDurable L.told L.may_leave log.old bs → HoldEnd rs bs → AreLawful rs → length rs < 2 ^ 63
        → IfOk result (GoesOnWith rs) × IfErr result IsNoBadLog }
    // Where the disk stands for none.
    ensures bad { L.tells → (bs : List Block) → IsDurable L.told L.may_leave log.old bs → IfErr result (IsNotAnalysed bs) }
    // No byte changes.
    ensures durable { L.tells → (bs : List Block) → IsDurable L.told L.may_leave log.old bs → IsDurable L.told L.may_leave log.new bs }
    ensures same { log.new ≡ record log.old { device = log.new.device; ended = log.new.ended } }
    ensures live { OnOk result (log.new.ended ≡ None) }
    ensures refused { IfErr result (ReadRefused L.faults log.old log.new) }
    ensures later { L.faults log.old.device ≤ L.faults log.new.device }
    ensures fuse { Blames L.passes L.refused L.own log.old.device log.new.device (IsErrAnd result IsLogFault) }
{
    let mut listing = Listing::new(alloc);
    if log.blocks() == 0 {
        return Ok(listing);
    }
    let named = Named {
        checkpoint: log.checkpoint(),
        block: log.blocks() - 1,
    };
    let Some(from) = block_with(log, named.checkpoint.max(1)) else {
        return Err(no_checkpoint(named));
    };
    for block in from..log.blocks() {
        let (first, count) = (log.first_of(block), log.count_of(block));
        let mut payload = Vec::new(alloc);
        log.read_block(block, &mut payload)?;
        take_block(alloc, named, block, first, count, &payload, &mut listing)?;
    }
    Ok(listing)
}

/// The block that has the record with an LSN, or is the last one before it; None where all that are kept begin behind it.
/// Whoever analyses reads the blocks that are passed on the way.
fn block_with<L: Disk>(log: &BlockLog<L>, lsn: Lsn) -> Option<u64>
    ensures found { IfSome result (HasLsn (firsts log.now) lsn) }
    ensures none { result ≡ None → 0 < length log.now.places + length log.now.pending → lsn < slice_index_or (firsts log.now) 0 0 }
{
    let mut left = log.blocks();
    while left > 0 {
        left -= 1;
        if log.first_of(left) <= lsn {
            return Some(left);
        }
    }
    None
}
