//! The records of a block are taken into a listing, from the last Checkpoint on.
ghost use Rattle.std.specs.Prelude.{◌≡◌, ◌+◌, ◌<◌, ◌≤◌, ◌^◌, ◌++◌, ◌∷◌, [], ℕ, List, length, drop, IfErr, IfOk, OnOk};
ghost use Rattle.std.specs.List.{All};
ghost use Rattle.store_model.specs.declared.fault.Fault.TheVariants as faults;
ghost use Rattle.wal_record.specs.Rules.{HasSpelling};
ghost use Rattle.wal_record.specs.declared.record.Record.{Record};
ghost use Rattle.log_manager.specs.Payload.{bytes_of};
ghost use Rattle.log_blocks.specs.declared.layout.TheConstants.{CHECKPOINT_AT};
ghost use Rattle.log_analysis.specs.Taken.{AreTaken, IsNotTaken, IsNotTakenBehind, IsNotTakenIn, IsOfBlock, IsTaken, ListsMore};

use log_blocks::CHECKPOINT_AT;
use log_index::Listing;
use log_manager::{ends_at, record_from};
use std::alloc::Global;
use store_model::{Fault, Lsn};
use wal_record::Record;

/// What the header of the last block names: the LSN of the last Checkpoint, 0 for none; and the number of that block.
#[derive(Clone, Copy)]
pub struct Named {
    pub checkpoint: Lsn,
    pub block: u64,
}

/// The fault of a header that names a record as its Checkpoint that is none.
pub(crate) fn no_checkpoint(named: Named) -> Fault
    ensures { result ≡ faults.LogBad named.block CHECKPOINT_AT }
{
    Fault::LogBad {
        block: named.block,
        byte: CHECKPOINT_AT as u64,
    }
}

/// The record with this LSN. Before the Checkpoint it is passed over, the Checkpoint begins the listing, and one behind
/// it is noted.
fn take(
    alloc: Global,
    named: Named,
    listing: &mut Listing,
    lsn: Lsn,
    entry: &Record,
) -> Result<(), Fault>
    requires { HasSpelling entry.now }
    ensures listed { OnOk result (ListsMore named.checkpoint lsn (entry.now ∷ []) listing.old listing.new) }
    ensures refused { IfErr result (IsNotTaken named lsn entry.now) }
{
    if lsn < named.checkpoint {
        return Ok(());
    }
    if lsn > named.checkpoint {
        listing.prepare(entry)?;
        listing.note(lsn, entry);
        return Ok(());
    }
    match entry {
        Record::Checkpoint(listed) => {
            *listing = Listing::from_checkpoint(alloc, listed, lsn)?;
            Ok(())
        }
        _ => Err(no_checkpoint(named)),
    }
}

/// The record that begins at this byte of the payload and has this LSN. Gives where it ends.
fn take_record(
    alloc: Global,
    named: Named,
    block: u64,
    payload: &[u8],
    at: usize,
    lsn: Lsn,
    listing: &mut Listing,
) -> Result<usize, Fault>
    requires { at ≤ length payload.now }
    ensures within { IfOk result (λ next. next ≤ length payload.now) }
    ensures taken { IfOk result (λ next. IsTaken payload.now at next named.checkpoint lsn listing.old listing.new) }
    ensures bad { (front : List Record) → All HasSpelling front → payload.now ≡ bytes_of front ++ drop at payload.now → IfErr result (IsNotTakenBehind named block lsn front payload.now) }
{
    let (entry, next) = match record_from(alloc, block, payload, at) {
        Ok(read) => read,
        Err(fault) => return Err(fault),
    };
    match take(alloc, named, listing, lsn, &entry) {
        Ok(()) => Ok(next),
        Err(fault) => Err(fault),
    }
}

/// The records of a block with this number, first LSN, count and payload. Those before the Checkpoint that the last header
/// names are passed over, the Checkpoint begins the listing, and those behind it go on with it. Where none is named, the
/// listing of no record goes on from the start.
pub fn take_block(
    alloc: Global,
    named: Named,
    block: u64,
    first: Lsn,
    count: u16,
    payload: &[u8],
    listing: &mut Listing,
) -> Result<(), Fault>
    ensures taken { OnOk result (AreTaken named.checkpoint first count payload.now listing.old listing.new) }
    // Why not, with the byte: also of a log that isn't lawful.
    ensures bad { first + count ≤ 2 ^ 63 → IfErr result (IsNotTakenIn named block first count payload.now) }
    ensures refused { IfErr result IsOfBlock }
{
    let mut at = 0;
    for place in 0..count {
        let lsn = first.saturating_add(u64::from(place));
        match take_record(alloc, named, block, payload, at, lsn, listing) {
            Ok(next) => at = next,
            Err(fault) => return Err(fault),
        }
    }
    ends_at(block, payload, at)
}
