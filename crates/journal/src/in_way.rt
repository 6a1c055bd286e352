//! What stands in the way of a lock: locks that were taken, and losers.
ghost use Rattle.std.specs.Prelude.{◌≡◌, ◌⊎◌, ℕ, List, Some, None, true, false, not, ◌==◌, IfNone, IfOk, IfSome, IsTrue};
ghost use Rattle.std.specs.List.{list_any};
ghost use Rattle.log_index.specs.Listing.{IsListingOf};
ghost use Rattle.range_lock.specs.Held.{Holds};
ghost use Rattle.range_lock.specs.Lock.{Lock, conflict};
ghost use Rattle.wal_record.specs.Rules.{is_number};
ghost use Rattle.wal_record.specs.Sound.{AreLawful};
ghost use Rattle.wal_record.specs.declared.record.Record.{Record};
ghost use Rattle.journal.specs.Locks.{IsBarred, IsFree, first_in};

use log_index::Listing;
use losers::LoserState;
use range_lock::RangeLocks;
use std::alloc::Global;
use store_model::{HIGHEST, KeyRange, Memory, Mode, TxId};

/// The first of these losers that has an open write of a key in the range, if one has.
fn first_in(losers: &[LoserState], listing: &Listing, range: &KeyRange) -> Option<TxId>
    ensures { (log : List Record) → IsListingOf log listing.now → AreLawful log → result ≡ first_in range.now log losers.now }
{
    for loser in losers {
        if listing.has_open_in(loser.tx, range) {
            return Some(loser.tx);
        }
    }
    None
}

fn has_other(txs: &[TxId], tx: TxId) -> bool
    ensures { result ≡ list_any (λ (t : ℕ). not (t == tx)) txs.now }
{
    txs.iter().any(|other| *other != tx)
}

/// Whether another transaction has taken a lock that conflicts with this one.
fn is_barred(
    alloc: Global,
    locks: &RangeLocks,
    tx: TxId,
    range: &KeyRange,
    mode: Mode,
) -> Result<bool, Memory>
    ensures some { IfOk result (λ barred. IsTrue barred → IsBarred locks.now (record { tx = tx; range = range.now; mode = mode })) }
    ensures none { IfOk result (λ barred. barred ≡ false → IsFree locks.now (record { tx = tx; range = range.now; mode = mode })) }
{
    let mut holders = Vec::new(alloc);
    locks.holders(range, mode, &mut holders)?;
    Ok(has_other(&holders, tx))
}

/// The first of these losers that stands in the way of a lock, where no lock does that was taken.
pub(crate) fn loser_in_way(
    alloc: Global,
    losers: &[LoserState],
    listing: &Listing,
    locks: &RangeLocks,
    tx: TxId,
    range: &KeyRange,
    mode: Mode,
) -> Result<Option<TxId>, Memory>
    ensures some { IfOk result (λ found. IfSome found (λ t. IsTrue (is_number t) × IsFree locks.now (record { tx = tx; range = range.now; mode = mode }) × ((log : List Record) → IsListingOf log listing.now → AreLawful log → first_in range.now log losers.now ≡ Some t))) }
    ensures none { IfOk result (λ found. IfNone found (IsBarred locks.now (record { tx = tx; range = range.now; mode = mode }) ⊎ ((log : List Record) → IsListingOf log listing.now → AreLawful log → first_in range.now log losers.now ≡ None))) }
{
    let Some(loser) = first_in(losers, listing, range) else {
        return Ok(None);
    };
    if is_barred(alloc, locks, tx, range, mode)? {
        return Ok(None);
    }
    if loser == 0 || loser > HIGHEST {
        return Err(Memory);
    }
    Ok(Some(loser))
}
