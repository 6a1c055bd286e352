//! What an opening learns from the log before it serves its first request.

use store_model::{Key, List, Lsn, TxId};

/// The ends of a page's traces, an entry of the page recovery index (Graefe and Kuno 2012): the LSN of
/// its last record, of its last image written since the last loss of the data device, the number of
/// the last backup that has the page, and the LSN of the image there. 0 stands for none.
#[derive(Drop)]
pub struct PageHead {
    pub head: Lsn,
    pub written: Lsn,
    pub backup: u64,
    pub backup_lsn: Lsn,
}

/// An archive run that stands: its number, and the range of LSNs that it covers, both ends included.
#[derive(Drop)]
pub struct Run {
    pub run: u64,
    pub first: Lsn,
    pub last: Lsn,
}

/// A transaction that a stop left with open writes. `last` is the LSN of its last record, and
/// `undo_next` that of its last open write. `keys` and `lsns` have an item for each open write,
/// oldest first.
#[derive(Drop)]
pub struct Loser {
    pub tx: TxId,
    pub last: Lsn,
    pub undo_next: Lsn,
    pub keys: List<Key>,
    pub lsns: List<Lsn>,
}

/// A log in short: its losers, the page recovery index from page 1 on, the pages at the last loss (0
/// for none) with the segments not yet restored, the archive runs that stand, the number of commits,
/// the next numbers, and the limit of the store.
#[derive(Drop)]
pub struct Analysis {
    pub losers: List<Loser>,
    pub heads: List<PageHead>,
    pub lost: u32,
    pub unrestored: List<u32>,
    pub runs: List<Run>,
    pub commits: u64,
    pub next_tx: TxId,
    pub next_backup: u64,
    pub next_run: u64,
    pub limit: u32,
}
