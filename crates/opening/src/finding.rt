//! What an opening has found.
ghost use Rattle.std.specs.Prelude.{◌≡◌, List, length, IfOk};
ghost use Rattle.wal_record.specs.Checkpoints as checkpoints;
ghost use Rattle.wal_record.specs.OpenWrites as writes;
ghost use Rattle.wal_record.specs.declared.record.Record.{Record};
ghost use Rattle.opening.specs.Begins.{MayBegin};

use journal::losers_of;
use listed_log::ListedLog;
use media::Disk;
use std::alloc::Global;
use store_model::Memory;

/// What an opening has found: how many transactions of the log have committed, and how many are losers.
#[derive(Clone, Copy, Debug, PartialEq, Eq)]
pub struct Found {
    pub commits: u64,
    pub losers: u64,
}

/// What an opening that read this log has found.
pub fn count_found<L: Disk>(alloc: Global, log: &ListedLog<L>) -> Result<Found, Memory>
    ensures { IfOk result (λ f. (opening : List Record) → MayBegin L.tells L.told L.may_leave log.now.log log.now.listing opening
        → (f.commits ≡ checkpoints.commits opening) × (f.losers ≡ length (writes.losers opening))) }
{
    let losers = losers_of(alloc, log.listing())?;
    Ok(Found {
        commits: log.listing().commits(),
        losers: losers.all().len() as u64,
    })
}
